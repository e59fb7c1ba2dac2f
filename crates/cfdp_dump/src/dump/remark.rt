//! What a dump says beside what octets spell.
ghost use Rattle.std.specs.Prelude.{Some};
ghost use Rattle.cfdp_dump.specs.Dump.Told.{remark_text};

use captures::{CaptureFault, SkipCause};
use std::fmt;

/// What a dump says of a frame, of a packet in it, or of a capture.
#[derive(Clone, Copy)]
pub(crate) enum Remark {
    /// So many frames of its channel are missing before this one.
    Missing(u32),
    /// A frame has only idle data.
    OnlyIdle,
    /// A begun packet is cut off in a frame, or its pointer is outside its zone.
    CutOff,
    /// So many packet headers in a frame are of another version.
    BadHeaders(u8),
    /// The channel of a frame isn't followed.
    Unfollowed,
    /// A packet ends in a frame: its APID, its sequence count, and its octets.
    Packet(u64, u64, usize),
    /// Nothing is read in a captured packet.
    PassedBy(SkipCause),
    /// A capture can't be read from this octet on.
    BadCapture(CaptureFault, usize),
}

impl fmt::Display for Remark {
    ghost output = { λ remark. Some (remark_text remark) };

    fn fmt<W: fmt::Write>(&self, f: &mut fmt::Formatter<W>) -> fmt::Result {
        match self {
            Remark::Missing(frames) => write!(f, "missing {frames}"),
            Remark::OnlyIdle => f.write_str("idle"),
            Remark::CutOff => f.write_str("cut"),
            Remark::BadHeaders(headers) => write!(f, "bad {headers}"),
            Remark::Unfollowed => f.write_str("unfollowed"),
            Remark::Packet(apid, count, len) => write!(f, "packet {apid} {count} {len}"),
            Remark::PassedBy(passed) => write!(f, "{passed}"),
            Remark::BadCapture(cause, place) => write!(f, "{cause} at octet {place}"),
        }
    }
}
