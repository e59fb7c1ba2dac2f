/// What a timer of a transaction waits for (CCSDS 727.0-B-5). If timers have one deadline and one
/// transaction, the earlier kind here fires first.
#[derive(Clone, Copy, Debug, PartialEq, Eq, PartialOrd, Ord)]
pub enum Kind {
    /// The acknowledgement of an EOF.
    EofAck,
    /// What a NAK asked for.
    Nak,
    /// The acknowledgement of a Finished.
    FinishedAck,
    /// Any PDU of the transaction.
    Inactivity,
}
