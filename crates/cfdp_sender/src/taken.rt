/// What `take_pdu` did.
#[derive(Clone, Copy, Debug, PartialEq, Eq)]
pub enum Taken {
    /// Nothing is due.
    Nothing,
    /// The PDU that was due was written, and has so many octets.
    Moved(usize),
    /// The outbox failed to give the file data that were due: nothing was sent, and the
    /// transaction is cancelled.
    SourceFailed,
}
