//! What came of a datagram.

/// What came of a datagram that a transport was asked to send.
#[derive(Clone, Copy)]
pub enum Fate {
    /// It has left.
    Left,
    /// There is no room for it now, or the network reported many errors in a row.
    MustWait,
    /// The system can't send it.
    Lost,
}
