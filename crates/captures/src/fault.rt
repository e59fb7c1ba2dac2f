//! What is wrong with a capture.
ghost use Rattle.std.specs.Prelude.{Some};
ghost use Rattle.captures.specs.Texts.{fault_text};

use std::fmt;

/// Why the octets at some offset of a file are no record and no block of a capture.
#[derive(Clone, Copy, Debug, PartialEq, Eq)]
pub enum CaptureFault {
    /// The file ends in it.
    CutOff,
    /// A length in it doesn't fit: the two of a block differ or aren't a multiple of four, or what
    /// the block has doesn't fit into it.
    BadLength,
    /// The byte-order magic of a section header is of neither order of octets.
    BadOrder,
    /// The version of the format isn't read: it must be pcap 2.4, or pcapng 1.
    BadVersion,
    /// A packet is of an interface that the section hasn't described before.
    BadInterface,
}

impl fmt::Display for CaptureFault {
    ghost output = { λ fault. Some (fault_text fault) };

    fn fmt<W: fmt::Write>(&self, f: &mut fmt::Formatter<W>) -> fmt::Result {
        match self {
            CaptureFault::CutOff => f.write_str("error 20 CutOff"),
            CaptureFault::BadLength => f.write_str("error 21 BadLength"),
            CaptureFault::BadOrder => f.write_str("error 22 BadOrder"),
            CaptureFault::BadVersion => f.write_str("error 23 BadVersion"),
            CaptureFault::BadInterface => f.write_str("error 24 BadInterface"),
        }
    }
}
