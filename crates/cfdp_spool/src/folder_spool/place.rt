// Where a file of a spool lies.

/// The folder that a file goes to when it leaves a spool.
#[derive(Clone, Copy, PartialEq, Eq)]
pub enum Way {
    /// To the files that were sent, or away.
    Sent,
    /// To those that couldn't be sent.
    Failed,
}

/// The folder that a file of a spool lies in.
#[derive(Clone, Copy, PartialEq, Eq)]
pub enum Place {
    /// In the folder of the spool: it waits, or is being sent.
    Spool,
    /// In the folder in it that has what leaves.
    Leaving,
    /// In the folder in it that has what left this way.
    Left(Way),
}
