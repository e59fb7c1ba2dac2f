//! What stations say to each other of how they are set up, so that both can say where they differ.
//!
//! It stands in a frame of the virtual channel 63, whose octets mean nothing to a link (CCSDS
//! 732.0-B-4, 4.1.2.3): other software drops it as it drops each idle frame.
ghost use Rattle.std.specs.Prelude.{◌+◌, ◌≤◌, length};
ghost use Rattle.cfdp_exchange.specs.Beacon.{IsIdle};

use cfdp_station::{FrameFields, LinkConfig, StationConfig};

/// Octets of a beacon; more may stand after them, which mean nothing.
pub const BEACON_LEN: usize = 44;

/// The octets after the header of a beacon's frame, by which it is known: the first header pointer
/// that says that there is idle data only, and a word.
const MARK: [u8; 8] = [0x07, 0xfe, b'C', b'F', b'D', b'P', b'b', 1];

/// What the first octet of a frame has of its version, and the second one of the virtual channel of
/// idle frames.
const VERSION: u8 = 64;
/// See [`VERSION`].
const IDLE: u8 = 63;

/// Bits of the octet that says which fields of two there are.
const CONTROL: u8 = 2;
/// See [`CONTROL`].
const ERROR: u8 = 1;

/// A setting in which a station and its peer must agree.
#[derive(Clone, Copy, Debug, PartialEq, Eq)]
pub enum Agreed {
    PeerId,
    OwnId,
    Zone,
    Spacecraft,
    DirectivesFrom,
    FileDataFrom,
    ApidFrom,
    DirectivesTo,
    FileDataTo,
    ApidTo,
    InsertZoneFrom,
    ControlFieldFrom,
    ErrorControlFrom,
    InsertZoneTo,
    ControlFieldTo,
    ErrorControlTo,
}

impl Agreed {
    /// Returns the setting in words, as the station that reports it says.
    pub fn name(self) -> &'static str {
        match self {
            Agreed::PeerId => "id of the peer",
            Agreed::OwnId => "id of this station",
            Agreed::Zone => "zone",
            Agreed::Spacecraft => "spacecraft",
            Agreed::DirectivesFrom => "directive channel from the peer",
            Agreed::FileDataFrom => "file data channel from the peer",
            Agreed::ApidFrom => "APID from the peer",
            Agreed::DirectivesTo => "directive channel to the peer",
            Agreed::FileDataTo => "file data channel to the peer",
            Agreed::ApidTo => "APID to the peer",
            Agreed::InsertZoneFrom => "insert zone from the peer",
            Agreed::ControlFieldFrom => "control field from the peer",
            Agreed::ErrorControlFrom => "error control from the peer",
            Agreed::InsertZoneTo => "insert zone to the peer",
            Agreed::ControlFieldTo => "control field to the peer",
            Agreed::ErrorControlTo => "error control to the peer",
        }
    }

    /// Returns `true` if it is one of the two ids.
    pub fn is_id(self) -> bool {
        matches!(self, Agreed::PeerId | Agreed::OwnId)
    }
}

/// How a station is set up: who it is, and the frames that it sends and takes.
#[derive(Clone, Copy)]
pub struct Beacon {
    /// The id of its entity, and that of its peer's.
    pub id: u64,
    pub peer: u64,
    /// The frames that it sends, and those that it receives.
    pub sends: LinkConfig,
    pub receives: LinkConfig,
}

impl Beacon {
    /// Returns the beacon of a station with this configuration.
    pub fn of(config: &StationConfig) -> Beacon {
        Beacon {
            id: config.entity.entity,
            peer: config.entity.peer,
            sends: config.sends,
            receives: config.receives,
        }
    }

    /// Returns each setting that must agree, with its value at the station of this beacon and at
    /// the other one.
    pub fn beside(&self, other: &Beacon) -> [(Agreed, u64, u64); 16] {
        let (from, here) = (numbers(&self.sends), numbers(&other.receives));
        let (to, there) = (numbers(&other.sends), numbers(&self.receives));
        [
            (Agreed::PeerId, self.id, other.peer),
            (Agreed::OwnId, self.peer, other.id),
            (Agreed::Zone, from[0], here[0]),
            (Agreed::Spacecraft, from[1], here[1]),
            (Agreed::DirectivesFrom, from[2], here[2]),
            (Agreed::FileDataFrom, from[3], here[3]),
            (Agreed::ApidFrom, from[4], here[4]),
            (Agreed::DirectivesTo, there[2], to[2]),
            (Agreed::FileDataTo, there[3], to[3]),
            (Agreed::ApidTo, there[4], to[4]),
            (Agreed::InsertZoneFrom, from[5], here[5]),
            (Agreed::ControlFieldFrom, from[6], here[6]),
            (Agreed::ErrorControlFrom, from[7], here[7]),
            (Agreed::InsertZoneTo, there[5], to[5]),
            (Agreed::ControlFieldTo, there[6], to[6]),
            (Agreed::ErrorControlTo, there[7], to[7]),
        ]
    }

    /// Returns `true` if the stations of the two beacons agree in all settings that must agree.
    pub fn fits(&self, other: &Beacon) -> bool {
        self.beside(other)
            .iter()
            .all(|(_, theirs, ours)| theirs == ours)
    }

    /// Returns `true` if both stations don't mean the same two ids.
    pub fn has_other_ids(&self, other: &Beacon) -> bool {
        self.id != other.peer || self.peer != other.id
    }

    /// Returns the octets of its frame: the header, of version 1 and channel 63, the mark, and the
    /// numbers.
    pub fn octets(&self) -> [u8; BEACON_LEN]
        ensures { IsIdle result }
    {
        let mut octets = [0u8; BEACON_LEN];
        octets[6..14].copy_from_slice(&MARK);
        octets[14..22].copy_from_slice(&self.id.to_be_bytes());
        octets[22..30].copy_from_slice(&self.peer.to_be_bytes());
        octets[30..32].copy_from_slice(&self.sends.zone.to_be_bytes());
        octets[32] = self.sends.virtual_channel;
        octets[33] = self.sends.data_virtual_channel;
        octets[34..36].copy_from_slice(&self.sends.apid.to_be_bytes());
        octets[36] = self.receives.virtual_channel;
        octets[37] = self.receives.data_virtual_channel;
        octets[38..40].copy_from_slice(&self.receives.apid.to_be_bytes());
        octets[40..42].copy_from_slice(&field_octets(self.sends.fields));
        octets[42..44].copy_from_slice(&field_octets(self.receives.fields));
        octets[0] = VERSION + self.sends.spacecraft / 4;
        octets[1] = self.sends.spacecraft % 4 * 64 + IDLE;
        octets
    }

    /// Reads the octets of a datagram. Returns `None` if they aren't those of a beacon.
    pub fn read(datagram: &[u8]) -> Option<Beacon> {
        if datagram.len() < BEACON_LEN
            || datagram[1] & 63 != 63
            || &datagram[6..14] != MARK.as_slice()
        {
            return None;
        }
        let sends = LinkConfig {
            spacecraft: datagram[0] << 2 | datagram[1] >> 6,
            virtual_channel: datagram[32],
            data_virtual_channel: datagram[33],
            zone: short(datagram, 30),
            apid: short(datagram, 34),
            fields: fields(datagram, 40),
        };
        let receives = LinkConfig {
            virtual_channel: datagram[36],
            data_virtual_channel: datagram[37],
            apid: short(datagram, 38),
            fields: fields(datagram, 42),
            ..sends
        };
        Some(Beacon {
            id: long(datagram, 14),
            peer: long(datagram, 22),
            sends,
            receives,
        })
    }
}

/// The numbers of a direction: its zone, spacecraft, channels of directives and of file data, APID,
/// and the fields of its frames.
fn numbers(link: &LinkConfig) -> [u64; 8] {
    [
        u64::from(link.zone),
        u64::from(link.spacecraft),
        u64::from(link.virtual_channel),
        u64::from(link.data_virtual_channel),
        u64::from(link.apid),
        u64::from(link.fields.insert_zone),
        u64::from(link.fields.control_field),
        u64::from(link.fields.error_control),
    ]
}

/// The octets of an insert zone, and which of both other fields there are.
fn field_octets(fields: FrameFields) -> [u8; 2] {
    let control = if fields.control_field { CONTROL } else { 0 };
    let error = if fields.error_control { ERROR } else { 0 };
    [fields.insert_zone, control | error]
}

/// The fields of two octets at this place.
fn fields(octets: &[u8], place: usize) -> FrameFields
    requires { place + 2 ≤ length octets.now }
{
    FrameFields {
        insert_zone: octets[place],
        control_field: octets[place + 1] & CONTROL != 0,
        error_control: octets[place + 1] & ERROR != 0,
    }
}

/// The number of two octets at this place.
fn short(octets: &[u8], place: usize) -> u16
    requires { place + 2 ≤ length octets.now }
{
    u16::from_be_bytes([octets[place], octets[place + 1]])
}

/// The number of eight octets at this place.
fn long(octets: &[u8], place: usize) -> u64
    requires { place + 8 ≤ length octets.now }
{
    let mut number = [0u8; 8];
    number.copy_from_slice(&octets[place..place + 8]);
    u64::from_be_bytes(number)
}
