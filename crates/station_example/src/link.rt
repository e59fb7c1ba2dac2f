//! A link of a program's own: a queue of frames for each direction, which loses every fourth frame.
use std::alloc::{AllocError, Global};
use std::collections::VecDeque;

/// One direction of the link.
#[derive(Drop)]
pub struct Channel {
    /// Frames that were sent and haven't arrived yet, the oldest first.
    frames: VecDeque<Vec<u8>>,
    /// How many frames were sent since the last one was lost.
    sent: u8,
    alloc: Global,
}

impl Channel {
    /// Returns a channel without frames.
    pub fn new(alloc: Global) -> Channel {
        Channel {
            frames: VecDeque::new(alloc),
            sent: 0,
            alloc,
        }
    }

    /// Sends a frame. Every fourth frame is lost.
    ///
    /// # Errors
    ///
    /// `AllocError` if there is no memory for the frame.
    pub fn send(&mut self, frame: &[u8]) -> Result<(), AllocError> {
        if self.sent >= 3 {
            self.sent = 0;
            return Ok(());
        }
        self.sent += 1;
        self.frames.push_back(Vec::from_slice(self.alloc, frame)?)?;
        Ok(())
    }

    /// Returns the oldest frame that hasn't arrived yet, which then has.
    pub fn receive(&mut self) -> Option<Vec<u8>> {
        self.frames.pop_front()
    }
}
