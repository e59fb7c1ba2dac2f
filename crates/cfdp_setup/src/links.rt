//! The frames and packets of a station's link, and the configuration of both stations.
ghost use Rattle.std.specs.Prelude.{◌≡◌, ◌↔◌, ◌≤◌, ◌+◌, IsSome, IfSome, true};
ghost use Rattle.cfdp_setup.specs.Links.{FitLink, FitLinks, FitPackets, HasRoom, are_bare};
ghost use Rattle.cfdp_setup.specs.Links.{config_of, link_on, made_for, mac_len, own_fields};
ghost use Rattle.cfdp_setup.specs.Links.{packets_of, received_link, sent_link};

use crate::numbers::{DirectionNumbers, FieldNumbers, octet};
use crate::own_key::MOST_SECONDARY_HEADER;
use crate::securing::bare_link;
use crate::station_setup::StationSetup;
use cfdp_station::{LinkConfig, StationConfig};
use space_packet::PacketType;
use station_pair::WorldConfig;
use valid_config::Valid;

/// What packets are that have one PDU each, beside their APIDs.
#[derive(Clone, Copy)]
pub struct PacketSetup {
    /// The type of those that leave.
    pub packet_type: PacketType,
    /// Octets of the secondary header of those that leave; with 0 there is none.
    pub secondary_header: u8,
    /// Octets of the secondary header of those that come; with 0 there is none.
    pub peer_secondary_header: u8,
}

impl StationSetup {
    /// Returns the configuration of this station and its peer; the station with the lesser id is
    /// the first. It is `None` if they can't be set up so. If frames are secured, the station's own
    /// ones have a shorter zone and no fields, since a layer below the station adds these.
    pub fn config(&self, id: u64, peer: u64) -> Option<Valid<WorldConfig>>
        ensures same { IfSome result (λ config. config ≡ config_of self.now id peer) }
        ensures links { IsSome result → FitLinks self.now }
        ensures packets { IsSome result → FitPackets self.now }
        ensures room { IsSome result → HasRoom self.now }
    {
        let _form = self.packet_form()?;
        if self.security_misfit().is_some() {
            return None;
        }
        let (sends, receives) = self.links()?;
        let (sends, receives) = (self.made(sends)?, self.made(receives)?);
        if id < peer {
            self.settings.pair(id, peer, sends, receives)
        } else {
            self.settings.pair(peer, id, receives, sends)
        }
    }

    /// Returns the configuration of this station with the frames that are on the link: the same if
    /// a value doesn't fit its field.
    pub fn on_link(&self, own: &StationConfig) -> StationConfig
        ensures set { FitLinks self.now → result ≡ record own.now {
          sends = sent_link self.now;
          receives = received_link self.now;
        } }
        ensures otherwise { (FitLinks self.now → ⊥) → result ≡ own.now }
    {
        match self.links() {
            Some((sends, receives)) => StationConfig {
                sends,
                receives,
                ..*own
            },
            None => *own,
        }
    }

    /// Returns what packets are that have one PDU each, if each value is in its range.
    pub fn packet_form(&self) -> Option<PacketSetup>
        ensures some { IsSome result ↔ FitPackets self.now }
        ensures same { IfSome result (λ form. form ≡ packets_of self.now) }
    {
        let packets = self.packets;
        let packet_type = match packets.packet_type {
            0 => PacketType::Telemetry,
            1 => PacketType::Telecommand,
            _ => return None,
        };
        if packets.secondary_header > MOST_SECONDARY_HEADER
            || packets.peer_secondary_header > MOST_SECONDARY_HEADER
        {
            return None;
        }
        Some(PacketSetup {
            packet_type,
            secondary_header: octet(packets.secondary_header)?,
            peer_secondary_header: octet(packets.peer_secondary_header)?,
        })
    }

    /// Returns `true` if the frames of both directions are bare: they have a header and an M_PDU
    /// alone.
    pub fn has_bare_frames(&self) -> bool
        ensures { result ≡ are_bare self.now }
    {
        self.own_fields().are_none() && self.peer_fields.are_none()
    }

    /// Which fields the frames have that leave.
    pub(crate) fn own_fields(&self) -> FieldNumbers
        ensures { result ≡ own_fields self.now }
    {
        let settings = self.settings;
        FieldNumbers {
            insert_zone: settings.insert_zone,
            control_field: settings.control_field,
            error_control: settings.error_control,
        }
    }

    /// Returns the frames of the link that leave, and those that come, if each value fits its own.
    fn links(&self) -> Option<(LinkConfig, LinkConfig)>
        ensures some { IsSome result ↔ FitLinks self.now }
        ensures same { IfSome result (λ links.
            links ≡ (sent_link self.now, received_link self.now)) }
    {
        let sends = self.link(self.own, self.own_fields())?;
        let receives = self.link(self.peer, self.peer_fields)?;
        Some((sends, receives))
    }

    /// A direction of the link, whose frames have these fields, if each value fits its own.
    fn link(&self, direction: DirectionNumbers, fields: FieldNumbers) -> Option<LinkConfig>
        ensures some { IsSome result ↔ FitLink self.now direction fields }
        ensures same { IfSome result (λ link. link ≡ link_on self.now direction fields) }
    {
        Some(LinkConfig {
            spacecraft: octet(self.spacecraft)?,
            virtual_channel: octet(direction.virtual_channel)?,
            data_virtual_channel: octet(direction.data_virtual_channel)?,
            zone: u16::try_from(self.settings.zone).ok()?,
            apid: u16::try_from(direction.apid).ok()?,
            fields: fields.fields()?,
        })
    }

    /// Returns the frames that the station makes for this direction of the link: with their fields,
    /// security header and MAC they are as long as the frames on the link.
    fn made(&self, link: LinkConfig) -> Option<LinkConfig>
        ensures made { IfSome result (λ made. made ≡ made_for self.now link) }
        ensures room { IsSome result → self.now.is_secured ≡ true →
            10 + mac_len self.now ≤ link.zone }
    {
        if !self.is_secured {
            return Some(link);
        }
        bare_link(link, u16::try_from(self.mac_len()).ok()?)
    }
}
