//! What is dropped on the way up, and why.
ghost use Rattle.std.specs.Prelude.{◌≡◌};
ghost use Rattle.link_stack.specs.Drops.{drop_number, drop_name, drop_source};

use aos_frame::FrameError;
use thiserror::Error;

/// Why a frame, a part of its zone or a packet gave no PDU.
#[derive(Clone, Copy, Debug, PartialEq, Eq, Error)]
pub enum LinkDrop {
    /// The octets are no frame of the link, or the frame holds only idle data, which the first
    /// header pointer 2046 shows too.
    #[error("{0}")]
    Frame(FrameError),
    /// A begun packet was discarded, since a frame was missing or the first header pointer did not
    /// fit it, or the pointer lies outside the zone.
    #[error("an incomplete packet was discarded")]
    Resync,
    /// A packet's version isn't `000` (CCSDS 133.0-B-2, 4.1.3.2).
    #[error("packet version number must be 0")]
    BadPacket,
    /// A packet has another application process identifier than the link, and isn't idle.
    #[error("the packet has another APID")]
    OtherApid,
    /// A packet of the link is a segment, or has a secondary header.
    #[error("the packet is a segment or has a secondary header")]
    Segmented,
    /// There was no memory for what a zone holds.
    #[error("out of memory for the packets of a frame")]
    NoMemory,
}

impl LinkDrop {
    /// All drops, in the order of their numbers.
    pub const ALL: [LinkDrop; 12] = [
        LinkDrop::Frame(FrameError::Length),
        LinkDrop::Frame(FrameError::Version),
        LinkDrop::Frame(FrameError::OtherProfile),
        LinkDrop::Frame(FrameError::OtherSpacecraft),
        LinkDrop::Frame(FrameError::OtherChannel),
        LinkDrop::Frame(FrameError::OnlyIdle),
        LinkDrop::Resync,
        LinkDrop::BadPacket,
        LinkDrop::OtherApid,
        LinkDrop::Segmented,
        LinkDrop::NoMemory,
        LinkDrop::Frame(FrameError::Damaged),
    ];

    /// Returns why the octets are no frame of the link, if that is the cause.
    pub fn source(self) -> Option<FrameError>
        ensures { result ≡ drop_source self }
    {
        match self {
            LinkDrop::Frame(error) => Some(error),
            _ => None,
        }
    }

    /// Returns the number of this drop in reports, 1 to 12; if a frame was refused, the number of
    /// the refusal.
    pub fn number(self) -> u8
        ensures { result ≡ drop_number self }
    {
        match self {
            LinkDrop::Frame(error) => error.number(),
            LinkDrop::Resync => 7,
            LinkDrop::BadPacket => 8,
            LinkDrop::OtherApid => 9,
            LinkDrop::Segmented => 10,
            LinkDrop::NoMemory => 11,
        }
    }

    /// Returns the name of this drop in reports; if a frame was refused, the name of the refusal.
    pub fn name(self) -> &'static str
        ensures { result.now ≡ drop_name self }
    {
        match self {
            LinkDrop::Frame(error) => error.name(),
            LinkDrop::Resync => "Resync",
            LinkDrop::BadPacket => "BadPacket",
            LinkDrop::OtherApid => "OtherApid",
            LinkDrop::Segmented => "Segmented",
            LinkDrop::NoMemory => "NoMemory",
        }
    }
}
