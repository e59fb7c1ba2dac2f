//! The keys of a station's `--set` beside those of a script.
ghost use Rattle.std.specs.Prelude.{◌≡◌, Some};
ghost use Rattle.cfdp_report.specs.Settings.{is};
ghost use Rattle.cfdp_setup.specs.Keys.{key_named, most_of, name_of, own_key_of};

/// The greatest virtual channel, APID and spacecraft of frames.
const MOST_CHANNEL: u64 = 62;
/// See [`MOST_CHANNEL`].
const MOST_APID: u64 = 2046;
/// See [`MOST_CHANNEL`].
const MOST_SPACECRAFT: u64 = 255;
/// The greatest number of a packet's type, which is a telecommand's.
const MOST_PACKET_TYPE: u64 = 1;
/// The most octets of a secondary header.
pub(crate) const MOST_SECONDARY_HEADER: u64 = 63;
/// The most octets of an insert zone.
const MOST_INSERT_ZONE: u64 = 64;
/// What a field that may be there or not is set to at most.
const MOST_FLAG: u64 = 1;

/// A key of a station beside those of a script. The keys of a script that say which fields frames
/// have are of the frames that the station sends.
#[derive(Clone, Copy)]
pub enum OwnKey {
    /// The spacecraft of all frames.
    Spacecraft,
    /// The channel of directives that the station sends.
    VirtualChannel,
    /// The channel of file data that it sends.
    DataVirtualChannel,
    /// The APID of the packets that it sends.
    Apid,
    /// The channel of directives that the peer sends.
    PeerVirtualChannel,
    /// The channel of file data that the peer sends.
    PeerDataVirtualChannel,
    /// The APID of the packets that the peer sends.
    PeerApid,
    /// The type of packets with one PDU each: 0 telemetry, 1 telecommand.
    PacketType,
    /// Octets of the secondary header of those packets that the station sends.
    SecondaryHeader,
    /// Octets of the secondary header of those that the peer sends.
    PeerSecondaryHeader,
    /// Octets of the insert zone of the frames that the peer sends.
    PeerInsertZone,
    /// Whether those frames have an operational control field: 0 or 1.
    PeerControlField,
    /// Whether those frames have a frame error control field: 0 or 1.
    PeerErrorControl,
    /// Octets of a MAC.
    Mac,
}

impl OwnKey {
    /// All of them, in the order in which their values are checked.
    pub const ALL: [OwnKey; 14] = [
        OwnKey::Spacecraft,
        OwnKey::VirtualChannel,
        OwnKey::DataVirtualChannel,
        OwnKey::Apid,
        OwnKey::PeerVirtualChannel,
        OwnKey::PeerDataVirtualChannel,
        OwnKey::PeerApid,
        OwnKey::PacketType,
        OwnKey::SecondaryHeader,
        OwnKey::PeerSecondaryHeader,
        OwnKey::PeerInsertZone,
        OwnKey::PeerControlField,
        OwnKey::PeerErrorControl,
        OwnKey::Mac,
    ];

    /// Returns its name, by which a word means it.
    pub fn name(self) -> &'static str
        ensures is { result.now ≡ name_of self }
        // No other key has it.
        ensures unique { own_key_of (name_of self) ≡ Some self }
    {
        match self {
            OwnKey::Spacecraft => "spacecraft",
            OwnKey::VirtualChannel => "virtual_channel",
            OwnKey::DataVirtualChannel => "data_virtual_channel",
            OwnKey::Apid => "apid",
            OwnKey::PeerVirtualChannel => "peer_virtual_channel",
            OwnKey::PeerDataVirtualChannel => "peer_data_virtual_channel",
            OwnKey::PeerApid => "peer_apid",
            OwnKey::PacketType => "packet_type",
            OwnKey::SecondaryHeader => "secondary_header",
            OwnKey::PeerSecondaryHeader => "peer_secondary_header",
            OwnKey::PeerInsertZone => "peer_insert_zone",
            OwnKey::PeerControlField => "peer_control_field",
            OwnKey::PeerErrorControl => "peer_error_control",
            OwnKey::Mac => "mac",
        }
    }

    /// Returns the greatest value that it may have. `mac` may have two alone, which are looked at
    /// only if frames are secured: so it has any here.
    pub fn most(self) -> u64
        ensures { result ≡ most_of self }
    {
        match self {
            OwnKey::Spacecraft => MOST_SPACECRAFT,
            OwnKey::VirtualChannel
            | OwnKey::DataVirtualChannel
            | OwnKey::PeerVirtualChannel
            | OwnKey::PeerDataVirtualChannel => MOST_CHANNEL,
            OwnKey::Apid | OwnKey::PeerApid => MOST_APID,
            OwnKey::PacketType => MOST_PACKET_TYPE,
            OwnKey::SecondaryHeader | OwnKey::PeerSecondaryHeader => MOST_SECONDARY_HEADER,
            OwnKey::PeerInsertZone => MOST_INSERT_ZONE,
            OwnKey::PeerControlField | OwnKey::PeerErrorControl => MOST_FLAG,
            OwnKey::Mac => u64::MAX,
        }
    }

    /// Returns `true` if this word is its name.
    fn is_named(self, word: &[u8]) -> bool
        ensures { result ≡ is word.now (name_of self) }
    {
        word == self.name().as_bytes()
    }
}

/// Returns the key whose name this word is.
pub fn parse_own_key(word: &[u8]) -> Option<OwnKey>
    ensures { result ≡ own_key_of word.now }
{
    key_among(&OwnKey::ALL, word)
}

/// Returns the first of these keys whose name this word is.
fn key_among(keys: &[OwnKey], word: &[u8]) -> Option<OwnKey>
    ensures { result ≡ key_named keys.now word.now }
{
    for key in keys {
        if key.is_named(word) {
            return Some(*key);
        }
    }
    None
}
