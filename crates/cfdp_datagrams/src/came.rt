//! What a look for a datagram found.

/// What a transport had for a wire that was asked what came.
#[derive(Clone, Copy)]
pub enum Came {
    /// A datagram for the station, of so many octets.
    Datagram(usize),
    /// Nothing, and the turn ends.
    Nothing,
    /// Nothing, but it must be asked again: it waited, or the network reported an error.
    AskAgain,
    /// A beacon of the peer's, which is noted.
    Beacon,
    /// A datagram while the link is down by plan, which is discarded.
    Discarded,
}
