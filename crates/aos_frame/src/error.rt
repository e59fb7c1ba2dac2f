//! Why octets are no frame of a link.
ghost use Rattle.std.specs.Prelude.{◌≡◌};
ghost use Rattle.aos_frame.specs.Frame.{refusal_number, refusal_name};

use thiserror::Error;

/// Why octets are no frame of a link: the first cause that holds, in the order of the variants.
#[derive(Clone, Copy, Debug, PartialEq, Eq, Error)]
pub enum FrameError {
    /// The octets aren't as many as a frame of the link has.
    #[error("wrong frame length")]
    Length,
    /// The link has error control, and the check of the frame differs from its frame error control
    /// field: some of it is not as it was sent (CCSDS 732.0-B-4, 4.1.6).
    #[error("the frame was damaged on the way")]
    Damaged,
    /// The transfer frame version number isn't `01` (CCSDS 732.0-B-4, 4.1.2.2.2).
    #[error("transfer frame version number must be 01")]
    Version,
    /// The replay flag is 1, or the two bits after the usage flag of the count cycle aren't `00`
    /// (CCSDS 732.0-B-4, 4.1.2.5).
    #[error("the replay flag or a reserved bit of the frame header is set")]
    OtherProfile,
    /// The frame is of another spacecraft.
    #[error("the frame has another spacecraft id")]
    OtherSpacecraft,
    /// The frame is of virtual channel 63, and so holds only idle data (CCSDS 732.0-B-4, 4.1.2.3).
    #[error("the frame holds only idle data")]
    OnlyIdle,
    /// The frame is of a third virtual channel that carries packets.
    #[error("the frame is on another virtual channel")]
    OtherChannel,
}

impl FrameError {
    /// Returns the number of this refusal in reports.
    pub fn number(self) -> u8
        ensures { result ≡ refusal_number self }
    {
        match self {
            FrameError::Length => 1,
            FrameError::Damaged => 12,
            FrameError::Version => 2,
            FrameError::OtherProfile => 3,
            FrameError::OtherSpacecraft => 4,
            FrameError::OtherChannel => 5,
            FrameError::OnlyIdle => 6,
        }
    }

    /// Returns the name of this refusal in reports.
    pub fn name(self) -> &'static str
        ensures { result.now ≡ refusal_name self }
    {
        match self {
            FrameError::Length => "Length",
            FrameError::Damaged => "Damaged",
            FrameError::Version => "Version",
            FrameError::OtherProfile => "OtherProfile",
            FrameError::OtherSpacecraft => "OtherSpacecraft",
            FrameError::OtherChannel => "OtherChannel",
            FrameError::OnlyIdle => "OnlyIdle",
        }
    }
}
