//! What the calls of a world answer.
use aos_frame::Lane;
use cfdp_entity::RestoreError;

/// A frame that a station made: in which of its lives, from 0 on, in which lane, and at which place
/// among the frames of that life and lane, from 0 on.
#[derive(Clone, Copy, Debug, PartialEq, Eq)]
pub struct SentFrame {
    pub life: usize,
    pub lane: Lane,
    pub place: usize,
}

/// What became of a frame that a call should deliver.
#[derive(Clone, Copy, Debug, PartialEq, Eq)]
pub enum Delivered {
    /// The station took it.
    Taken,
    /// The other station made no such frame.
    NoSuchFrame,
    /// It is too far from the frame of its lane that the station took last: its number is greater
    /// by more than 2^28, or smaller by 2^28 - 1 or more, so that the counts would not distinguish
    /// it.
    TooFar,
}

/// What became of a station that a call should restart.
#[derive(Clone, Copy, Debug, PartialEq, Eq)]
pub enum Restarted {
    /// It restarted.
    Done,
    /// A put of it had this number, or a later one.
    NumberUsed,
    /// A frame of it had this number, or a later one, or the one before.
    FrameUsed,
}

/// What became of a station that a call should resume.
#[derive(Clone, Copy, Debug, PartialEq, Eq)]
pub enum Resumed {
    /// It resumed.
    Done,
    /// A put of it had this number, or a later one.
    NumberUsed,
    /// A frame of it had this number, or a later one, or the one before.
    FrameUsed,
    /// A record wasn't restored, for this reason. For example, the outbox failed.
    NotRestored(RestoreError),
}
