// The next frame that leaves a station.
ghost use Rattle.std.specs.Prelude.{◌≡◌, ◌+◌, None, length, IfOk, OnErr, OnOk};
ghost use Rattle.aos_frame.specs.Frame.{frame_len};
ghost use Rattle.cfdp_station.specs.declared.pumping.Until.TheVariants as until;
ghost use Rattle.cfdp_station.specs.Transmitting.{PollsInPart, Transmits, most_polls};

use crate::station::Station;
use cfdp_store::{Inbox, Outbox};
use link_stack::Lane;
use std::alloc::AllocError;

/// The most polls for one frame. A poll that moves a PDU brings a whole frame nearer, and one that
/// finds a file unreadable gives that file's transaction up: so there are never so many.
const MOST_POLLS: u32 = 8192;

impl<O: Outbox, I: Inbox> Station<O, I> {
    /// Writes the next frame that must leave, and returns its lane; `None` if there is nothing to
    /// send. It polls until a whole frame waits, or nothing is due or has room, at most 8,192
    /// times, and fills up what is begun. Directives go first. The vector then has the octets of a
    /// frame, whatever it had.
    ///
    /// ```
    /// if station.transmit(&mut frame)?.is_some() {
    ///     link.send(&frame);
    /// }
    /// ```
    ///
    /// # Errors
    ///
    /// `AllocError` if there is no memory for the frame, or for a poll: what was polled before
    /// stays, and waits for the next call.
    pub fn transmit(&mut self, frame: &mut Vec<u8>) -> Result<Option<Lane>, AllocError>
        ensures sent { IfOk result (λ lane. Transmits lane frame.new.items self.old self.new) }
        ensures err { OnErr result (PollsInPart until.Frame most_polls self.old self.new) }
        ensures len { OnOk result (length frame.new.items
            ≡ frame_len self.old.down.directives.link) }
    {
        fit(frame, self.frame_len())?;
        self.transmit_into(frame.as_mut_slice())
    }

    /// Writes that frame into a buffer, which must have [`frame_len`](Self::frame_len) octets.
    ///
    /// # Errors
    ///
    /// `AllocError` if there is no memory for a poll: what was polled before stays, and waits
    /// for the next call.
    pub fn transmit_into(&mut self, frame: &mut [u8]) -> Result<Option<Lane>, AllocError>
        requires { length frame.old ≡ frame_len self.old.down.directives.link }
        ensures sent { IfOk result (λ lane. Transmits lane frame.new self.old self.new) }
        ensures err { OnErr result (PollsInPart until.Frame most_polls self.old self.new) }
        // Except for a frame the buffer is as it was.
        ensures kept { IfOk result (λ lane. lane ≡ None → frame.new ≡ frame.old) }
        ensures unwritten { OnErr result (frame.new ≡ frame.old) }
    {
        self.pull(MOST_POLLS, &mut ())?;
        Ok(self.next_frame(frame))
    }
}

/// Gives a vector so many octets.
fn fit(frame: &mut Vec<u8>, len: usize) -> Result<(), AllocError>
    ensures { OnOk result (length frame.new.items ≡ len) }
{
    frame.resize(len, 0)
}
