/// How far a transaction has come at one of its two entities.
#[derive(Clone, Copy, Debug, PartialEq, Eq)]
pub enum Phase {
    /// At the sender: the file is sent, until its receiver answers Finished.
    Sending,
    /// At the sender: the transaction was cancelled, and its receiver hasn't acknowledged that yet.
    Cancelling,
    /// At the receiver: the file comes in.
    Receiving,
    /// At the receiver: it is over, and the sender hasn't acknowledged the Finished yet.
    Finishing,
    /// At either: it is over, and no answer is waited for. The record stays until it is forgotten,
    /// and what still comes is answered.
    Closed,
}
