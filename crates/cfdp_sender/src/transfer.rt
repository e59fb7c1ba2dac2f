ghost use Rattle.std.specs.Prelude.{◌↔◌, IsTrue};
ghost use Rattle.cfdp_sender.specs.State.{IsSendable};

use cfdp_directives::{Addressing, ChecksumKind, Octets, is_file_name, size_limit};

/// The most octets of a file that one PDU may carry.
pub const MOST_SEGMENT: u16 = 4096;

/// What a put asks a sender to send, and how.
#[derive(Debug, Drop)]
pub struct Transfer {
    /// The transaction, its two ends, and how wide they are written.
    pub addressing: Addressing,
    /// How the file's checksum is made.
    pub checksum_kind: ChecksumKind,
    /// The most octets of the file that one PDU carries: 1 to 4,096.
    pub segment: u16,
    /// The file's name in the outbox: 1 to 255 octets.
    pub source: Octets,
    /// The file's name at the receiver: 1 to 255 octets.
    pub destination: Octets,
    /// Octets of the file: 2^48 at most.
    pub size: u64,
}

impl Transfer {
    /// Returns `true` if it can be sent: its ids must fit their widths, and segment, names and size
    /// must be in their ranges.
    pub fn is_sendable(&self) -> bool
        ensures { IsTrue result ↔ IsSendable self.now }
    {
        // For the prover: the invariant of the checksum type.
        let _kind = self.checksum_kind.code();
        self.addressing.is_writable()
            && 1 <= self.segment
            && self.segment <= MOST_SEGMENT
            && is_file_name(self.source.as_slice())
            && is_file_name(self.destination.as_slice())
            && self.size <= size_limit(true)
    }
}
