//! Why octets begin with no packet.
ghost use Rattle.std.specs.Prelude.{◌≡◌};
ghost use Rattle.space_packet.specs.Packet.{refusal_number, refusal_name};

use thiserror::Error;

/// Why the octets begin with no packet.
#[derive(Clone, Copy, Debug, PartialEq, Eq, Error)]
pub enum PacketError {
    /// There are fewer than 6 octets, or fewer than the length field says.
    #[error("the packet is truncated")]
    Short,
    /// The version number is not 0 (CCSDS 133.0-B-2, 4.1.3.2).
    #[error("packet version number must be 0")]
    Version,
}

impl PacketError {
    /// Returns the number of this refusal in reports.
    pub fn number(self) -> u8
        ensures { result ≡ refusal_number self }
    {
        match self {
            PacketError::Short => 1,
            PacketError::Version => 2,
        }
    }

    /// Returns the name of this refusal in reports.
    pub fn name(self) -> &'static str
        ensures { result.now ≡ refusal_name self }
    {
        match self {
            PacketError::Short => "Short",
            PacketError::Version => "Version",
        }
    }
}
