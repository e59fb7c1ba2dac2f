ghost use Rattle.std.specs.Prelude.{◌≡◌};
ghost use Rattle.cfdp_header.specs.Header.{refusal_number, refusal_name};

use thiserror::Error;

/// Why octets are no header with its data field: the first cause that holds, in the order that
/// [`decode`](crate::decode) names.
#[derive(Clone, Copy, Debug, PartialEq, Eq, Error)]
pub enum HeaderError {
    /// The octets are fewer than 4, or fewer than the whole header, whose length the fourth octet
    /// gives.
    #[error("the PDU is shorter than its header")]
    Short,
    /// The version isn't `001`.
    #[error("PDU version must be 1")]
    Version,
    /// The CRC flag is 1, and the data field doesn't end in the CRC of all octets before it (CCSDS
    /// 727.0-B-5, 4.1). It is checked last.
    #[error("the CRC of the PDU is wrong")]
    BadCrc,
    /// The octets after the header aren't as many as its length says.
    #[error("the length in the PDU header is not the length of the data field")]
    Length,
    /// The transmission mode is 1, unacknowledged.
    #[error("the PDU has unacknowledged mode (class 1)")]
    Unacknowledged,
    /// The large file flag is 1. No call reports it any more, since both flags are read: its number
    /// stays unused.
    #[error("the large file flag is set")]
    LargeFile,
}

impl HeaderError {
    /// Returns the number of this refusal in reports.
    pub fn number(self) -> u8
        ensures { result ≡ refusal_number self }
    {
        match self {
            HeaderError::Short => 1,
            HeaderError::Version => 2,
            HeaderError::BadCrc => 3,
            HeaderError::Length => 4,
            HeaderError::Unacknowledged => 5,
            HeaderError::LargeFile => 6,
        }
    }

    /// Returns the name of this refusal in reports: the name of the variant.
    pub fn name(self) -> &'static str
        ensures { result.now ≡ refusal_name self }
    {
        match self {
            HeaderError::Short => "Short",
            HeaderError::Version => "Version",
            HeaderError::BadCrc => "BadCrc",
            HeaderError::Length => "Length",
            HeaderError::Unacknowledged => "Unacknowledged",
            HeaderError::LargeFile => "LargeFile",
        }
    }
}
