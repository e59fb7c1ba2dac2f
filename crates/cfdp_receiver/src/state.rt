use cfdp_directives::{ChecksumKind, Octets};

/// How far a receiving transaction has come (CCSDS 727.0-B-5, 4.6.1.2).
#[derive(Clone, Copy, Debug, PartialEq, Eq)]
pub enum ReceiverPhase {
    /// The file comes in.
    Receiving,
    /// It is over, and the sender hasn't acknowledged the Finished yet.
    Finishing,
    /// It is over, and nothing is waited for.
    Closed,
}

/// What Metadata said that is still needed.
#[derive(Debug, Drop)]
pub struct FileInfo {
    /// How the file's checksum is made.
    pub checksum_kind: ChecksumKind,
    /// The name under which the file is published.
    pub destination: Octets,
}

/// What the first EOF without an error said.
#[derive(Clone, Copy, Debug, PartialEq, Eq)]
pub struct Ending {
    /// The checksum of the whole file.
    pub checksum: u32,
    /// Octets of the file.
    pub size: u64,
}
