/// How far a sender has come.
#[derive(Clone, Copy, Debug, PartialEq, Eq)]
pub enum SenderPhase {
    /// The file goes out, until its receiver says Finished.
    Sending,
    /// The transaction was cancelled, and its receiver hasn't acknowledged that yet.
    Cancelling,
    /// It is over. A Finished that still comes is acknowledged.
    Closed,
}
