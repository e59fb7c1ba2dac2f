//! What is wrong with a station that can't be set up as its numbers say.
ghost use Rattle.std.specs.Prelude.{◌≡◌, ℕ, true, None, IfSome};
ghost use Rattle.cfdp_setup.specs.Keys.{own_keys};
ghost use Rattle.cfdp_setup.specs.Links.{HasRoom};
ghost use Rattle.cfdp_setup.specs.Misfits.{IsMisfit, are_in_range, is_in_range, value_of};

use crate::numbers::fits;
use crate::own_key::OwnKey;
use crate::securing::{LONG_MAC, SECURITY_HEADER, SHORT_MAC};
use crate::station_setup::StationSetup;
use thiserror::Error;

/// The least octets of a packet zone.
const LEAST_ZONE: u64 = 16;

/// What is wrong with the ids of a station and its peer, and with their link.
#[derive(Clone, Copy, Debug, Error)]
pub enum Misfit {
    /// Both ids are this one.
    #[error("--id and --peer must differ (both are {0})")]
    OneId(u64),
    /// The id of this option doesn't fit the octets that `id_width` sets.
    #[error("--{0} does not fit into {1} octets: set id_width, 1 to 8")]
    WideId(&'static str, u64),
    /// The value of this key is the first number, which is greater than the second.
    #[error("{0} must be 0 to {2} (got {1})")]
    TooGreat(&'static str, u64, u64),
    /// The octets of a MAC are so many.
    #[error("mac must be {SHORT_MAC} or {LONG_MAC} (got {0})")]
    Mac(u64),
    /// The zone has the second number of octets, and must have at least the first: the security
    /// header and a MAC of the third number are taken of it.
    #[error("zone must be {0} to 2040 with --keys and mac {2} (got {1})")]
    ShortZone(u64, u64, u64),
    /// Both lanes of a direction have this channel, by these keys.
    #[error("{0} and {1} must differ (both are {2})")]
    OneChannel(&'static str, &'static str, u64),
    /// Something else is.
    #[error("these settings do not fit together")]
    Other,
}

impl Misfit {
    /// Returns the key or the option that is set wrongly, if it is one.
    pub fn key(&self) -> Option<&'static str> {
        match self {
            Misfit::OneId(_) => Some("id"),
            Misfit::WideId(option, _) => Some(*option),
            Misfit::TooGreat(key, _, _) => Some(*key),
            Misfit::Mac(_) => Some("mac"),
            Misfit::ShortZone(..) => Some("zone"),
            Misfit::OneChannel(key, _, _) => Some(*key),
            Misfit::Other => None,
        }
    }
}

impl StationSetup {
    /// Returns what is wrong with the ids and the link of a station that can't be set up so.
    pub fn misfit(&self, id: u64, peer: u64) -> Misfit
        ensures { IsMisfit self.now id peer result }
    {
        if let Some(misfit) = self.range_misfit(&OwnKey::ALL) {
            return misfit;
        }
        if let Some(misfit) = self.security_misfit() {
            return misfit;
        }
        self.pair_misfit(id, peer)
    }

    /// The first of these keys whose value is out of its range.
    fn range_misfit(&self, keys: &[OwnKey]) -> Option<Misfit>
        ensures named { (id peer : ℕ) → IfSome result (IsMisfit self.now id peer) }
        ensures none { result ≡ None → are_in_range self.now keys.now ≡ true }
    {
        for key in keys {
            if let Some(misfit) = self.too_great(*key) {
                return Some(misfit);
            }
        }
        None
    }

    /// The value of this key, if it is too great.
    fn too_great(&self, key: OwnKey) -> Option<Misfit>
        ensures named { (id peer : ℕ) → IfSome result (IsMisfit self.now id peer) }
        ensures none { result ≡ None → is_in_range self.now key ≡ true }
    {
        let (value, most) = (self.value(key), key.most());
        if value > most {
            Some(Misfit::TooGreat(key.name(), value, most))
        } else {
            None
        }
    }

    /// What is wrong with how frames are secured.
    pub(crate) fn security_misfit(&self) -> Option<Misfit>
        ensures named { (id peer : ℕ) → IfSome result (IsMisfit self.now id peer) }
        ensures none { result ≡ None → HasRoom self.now }
    {
        if !self.is_secured {
            return None;
        }
        let (mac, zone) = (self.mac_len(), self.settings.zone);
        let least = (LEAST_ZONE + u64::from(SECURITY_HEADER)).saturating_add(mac);
        if mac != SHORT_MAC && mac != LONG_MAC {
            Some(Misfit::Mac(mac))
        } else if zone < least {
            Some(Misfit::ShortZone(least, zone, mac))
        } else {
            None
        }
    }

    /// What is wrong with the ids, or with the channels of a direction, if nothing before is.
    fn pair_misfit(&self, id: u64, peer: u64) -> Misfit
        ensures { are_in_range self.now own_keys ≡ true → HasRoom self.now →
            IsMisfit self.now id peer result }
    {
        let width = self.settings.id_width;
        if id == peer {
            Misfit::OneId(id)
        } else if !fits(id, width) {
            Misfit::WideId("id", width)
        } else if !fits(peer, width) {
            Misfit::WideId("peer", width)
        } else if self.own.virtual_channel == self.own.data_virtual_channel {
            Misfit::OneChannel(
                "virtual_channel",
                "data_virtual_channel",
                self.own.virtual_channel,
            )
        } else if self.peer.virtual_channel == self.peer.data_virtual_channel {
            Misfit::OneChannel(
                "peer_virtual_channel",
                "peer_data_virtual_channel",
                self.peer.virtual_channel,
            )
        } else {
            Misfit::Other
        }
    }

    /// The value of a key.
    fn value(&self, key: OwnKey) -> u64
        ensures { result ≡ value_of key self.now }
    {
        match key {
            OwnKey::Spacecraft => self.spacecraft,
            OwnKey::VirtualChannel => self.own.virtual_channel,
            OwnKey::DataVirtualChannel => self.own.data_virtual_channel,
            OwnKey::Apid => self.own.apid,
            OwnKey::PeerVirtualChannel => self.peer.virtual_channel,
            OwnKey::PeerDataVirtualChannel => self.peer.data_virtual_channel,
            OwnKey::PeerApid => self.peer.apid,
            OwnKey::PacketType => self.packets.packet_type,
            OwnKey::SecondaryHeader => self.packets.secondary_header,
            OwnKey::PeerSecondaryHeader => self.packets.peer_secondary_header,
            OwnKey::PeerInsertZone => self.peer_fields.insert_zone,
            OwnKey::PeerControlField => self.peer_fields.control_field,
            OwnKey::PeerErrorControl => self.peer_fields.error_control,
            OwnKey::Mac => self.mac_len(),
        }
    }
}
