/// What a user asks of a transaction.
#[derive(Clone, Copy, Debug, PartialEq, Eq)]
pub enum Request {
    /// To give it up, and to say so to the other entity.
    Cancel,
    /// To send nothing of it, and to let no time run for it.
    Suspend,
    /// To go on after it was suspended.
    Resume,
    /// To ask the file's receiver for an answer.
    Prompt {
        /// `true` if for a Keep Alive, otherwise for a NAK.
        keep_alive: bool,
    },
}
