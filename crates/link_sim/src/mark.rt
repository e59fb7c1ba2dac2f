/// What became of a frame that was sent.
#[derive(Clone, Copy, Debug, PartialEq, Eq)]
pub enum Mark {
    /// Nothing yet.
    Waiting,
    /// It reached the other end.
    Delivered,
    /// It was lost.
    Struck,
}

/// What became of a frame that a call should strike.
#[derive(Clone, Copy, Debug, PartialEq, Eq)]
pub enum Loss {
    /// It was struck.
    Done,
    /// No frame waits.
    NoneWaits,
    /// The last [`MOST_STRUCK`](crate::MOST_STRUCK) frames taken were struck, and one more must not
    /// be.
    TooMany,
}
