use cfdp_directives::{Condition, Outcome};

/// A PDU that a receiver sends next.
#[derive(Clone, Copy, Debug, PartialEq, Eq)]
pub enum Due {
    /// An ACK of the last EOF that was received, with its condition.
    AckOfEof(Condition),
    /// A NAK for what is missing from this offset on.
    Nak(u64),
    /// A Keep Alive: the offset up to which the file is held.
    KeepAlive,
    /// A Finished, with what was indicated.
    Finished(Outcome),
}
