//! What is set of a station and its link.
ghost use Rattle.std.specs.Prelude.{◌≡◌, ◌↔◌, IsTrue};
ghost use Rattle.cfdp_setup.specs.Links.{FitsOctets};
ghost use Rattle.cfdp_setup.specs.Sets.{beginning, defaults, set_by, with_number};

use crate::numbers::{DirectionNumbers, FieldNumbers, PacketNumbers, fits};
use crate::own_key::{OwnKey, parse_own_key};
use cfdp_report::{Setting, Settings, parse_setting};

/// The most gaps of a file that is received, unless something else is set: they take 4 MiB.
const MOST_GAPS: u64 = 65_536;

/// What is set of a station and its link.
#[derive(Clone, Copy)]
pub struct StationSetup {
    pub(crate) settings: Settings,
    pub(crate) spacecraft: u64,
    pub(crate) own: DirectionNumbers,
    pub(crate) peer: DirectionNumbers,
    pub(crate) packets: PacketNumbers,
    pub(crate) peer_fields: FieldNumbers,
    /// Whether frames are secured, and how many octets their MAC has, if that is set.
    pub(crate) is_secured: bool,
    pub(crate) mac: Option<u64>,
}

impl StationSetup {
    /// Returns what holds without `--set`. The station with the lesser id sends on the channels of
    /// the first station of a script. PDUs have a CRC, since no other check covers the names in a
    /// Metadata PDU unless frames have error control; and the gaps of a file have a limit, since
    /// each takes memory.
    pub fn new(is_lesser: bool) -> StationSetup
        ensures { result ≡ defaults is_lesser }
    {
        let one = DirectionNumbers {
            virtual_channel: 5,
            data_virtual_channel: 7,
            apid: 100,
        };
        let two = DirectionNumbers {
            virtual_channel: 6,
            data_virtual_channel: 8,
            apid: 101,
        };
        let (own, peer) = if is_lesser { (one, two) } else { (two, one) };
        StationSetup {
            settings: Settings {
                number_width: 8,
                pdu_crc: 1,
                most_gaps: MOST_GAPS,
                ..Settings::DEFAULT
            },
            spacecraft: 42,
            own,
            peer,
            packets: PacketNumbers {
                packet_type: 0,
                secondary_header: 0,
                peer_secondary_header: 0,
            },
            peer_fields: FieldNumbers::NONE,
            is_secured: false,
            mac: None,
        }
    }

    /// Returns the same with secured frames, or not.
    pub fn with_security(mut self, is_secured: bool) -> StationSetup
        ensures { result ≡ record self { is_secured = is_secured } }
    {
        self.is_secured = is_secured;
        self
    }

    /// Returns this setup with `number` for the station's first transaction.
    pub fn beginning_at(mut self, number: u64) -> StationSetup
        ensures { result ≡ beginning number self }
    {
        self.settings.first_number = number;
        self
    }

    /// Returns the same with the value of a key; `None` if there is no such key.
    pub fn with_key(self, key: &str, value: u64) -> Option<StationSetup>
        ensures { result ≡ set_by key.now value self }
    {
        let mut setup = self;
        if let Some(own) = parse_own_key(key.as_bytes()) {
            setup.set_number(own, value);
            Some(setup)
        } else if let Some(setting) = parse_setting(key.as_bytes()) {
            setup.settings.set(setting, value);
            Some(setup)
        } else {
            None
        }
    }

    /// Sets the number of a key that no script has.
    fn set_number(&mut self, key: OwnKey, value: u64)
        ensures { self.new ≡ with_number key value self.old }
    {
        match key {
            OwnKey::Spacecraft => self.spacecraft = value,
            OwnKey::VirtualChannel => self.own.virtual_channel = value,
            OwnKey::DataVirtualChannel => self.own.data_virtual_channel = value,
            OwnKey::Apid => self.own.apid = value,
            OwnKey::PeerVirtualChannel => self.peer.virtual_channel = value,
            OwnKey::PeerDataVirtualChannel => self.peer.data_virtual_channel = value,
            OwnKey::PeerApid => self.peer.apid = value,
            OwnKey::PacketType => self.packets.packet_type = value,
            OwnKey::SecondaryHeader => self.packets.secondary_header = value,
            OwnKey::PeerSecondaryHeader => self.packets.peer_secondary_header = value,
            OwnKey::PeerInsertZone => self.peer_fields.insert_zone = value,
            OwnKey::PeerControlField => self.peer_fields.control_field = value,
            OwnKey::PeerErrorControl => self.peer_fields.error_control = value,
            OwnKey::Mac => self.mac = Some(value),
        }
    }

    /// Returns how many octets a sequence number has.
    pub fn number_width(&self) -> u64
        ensures { result ≡ self.now.settings.number_width }
    {
        self.settings.number_width
    }

    /// Returns the number of its first transaction.
    pub fn first_number(&self) -> u64
        ensures { result ≡ self.now.settings.first_number }
    {
        self.settings.first_number
    }

    /// Returns `true` if the number of the first transaction fits its octets.
    pub fn fits_first_number(&self) -> bool
        ensures { IsTrue result ↔
            FitsOctets self.now.settings.first_number self.now.settings.number_width }
    {
        fits(self.settings.first_number, self.settings.number_width)
    }

    /// Returns the first setting of those of scripts whose value is out of its range, with the
    /// value.
    pub fn out_of_range(&self) -> Option<(Setting, u64)> {
        self.settings.out_of_range()
    }
}
