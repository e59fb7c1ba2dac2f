//! What moves PDUs to frames: polls, one after another.
ghost use Rattle.std.specs.Prelude.{◌≡◌, IfOk, IsFalse, IsTrue, OnErr, OnOk};
ghost use Rattle.link_stack.specs.Downward.{KeepsLanes};
ghost use Rattle.cfdp_station.specs.declared.polled.Polled.{Polled as Answer};
ghost use Rattle.cfdp_station.specs.declared.pumping.Until.TheVariants as until;
ghost use Rattle.cfdp_station.specs.Transmitting.{GoOn, PollsInPart, PollsOnce};
ghost use Rattle.cfdp_station.specs.Transmitting.{PollsUntil, Pulls, StopAt};

use crate::polled::Polled;
use crate::station::Station;
use cfdp_store::{Inbox, Outbox};
use link_stack::Lane;
use std::alloc::AllocError;

/// Until when a station is polled.
#[derive(Clone, Copy, PartialEq, Eq)]
pub enum Until {
    /// Until a whole frame waits, or nothing is due or has room.
    Frame,
    /// Until nothing is due or has room.
    Rest,
}

/// One who is shown what a station answers to polls.
pub trait PollWatch {
    /// What it may do if it is shown an answer: this leads from one state of it to another.
    ghost shows: { Self → Answer → Self → Type 0 } = { λ _ _ _. Unit {0} };

    /// Sees what the station answered to a poll, and the station after that.
    fn polled<O: Outbox, I: Inbox>(&mut self, answer: Polled, station: &Station<O, I>)
        ensures { shows self.old answer self.new };
}

/// Nobody looks on.
impl PollWatch for () {
    fn polled<O: Outbox, I: Inbox>(&mut self, _answer: Polled, _station: &Station<O, I>) {}
}

impl<O: Outbox, I: Inbox> Station<O, I> {
    /// Polls until nothing is due or has room, or a whole frame waits, at most so often. Returns
    /// `true` if nothing is due or has room.
    ///
    /// # Errors
    ///
    /// `AllocError` if there is no memory for a poll: it changed nothing, and what was polled
    /// before stays.
    pub fn poll_until<W: PollWatch>(
        &mut self,
        until: Until,
        most: u32,
        watch: &mut W,
    ) -> Result<bool, AllocError>
        ensures ok { IfOk result (λ rests. PollsUntil until most rests self.old self.new) }
        ensures err { OnErr result (PollsInPart until most self.old self.new) }
        ensures lanes { KeepsLanes self.old.down self.new.down }
    {
        for _poll in 0..most {
            if self.stops_at(until) {
                return Ok(false);
            }
            let answer = poll_shown(self, watch)?;
            if !answer.is_more() {
                return Ok(true);
            }
        }
        Ok(false)
    }

    /// Returns `true` if polls stop ahead of the next one.
    fn stops_at(&self, until: Until) -> bool
        ensures stop { IsTrue result → StopAt until self.now }
        ensures go { IsFalse result → GoOn until self.now }
    {
        match until {
            Until::Frame => self.next_lane().is_some(),
            Until::Rest => false,
        }
    }

    /// Polls for the frame that leaves next, at most so often, and fills up what is begun: in both
    /// lanes if nothing is due or has room; otherwise in the lane of directives, so that none waits
    /// for the file data after it.
    ///
    /// # Errors
    ///
    /// `AllocError` if there is no memory for a poll: it changed nothing, and what was polled
    /// before stays.
    pub fn pull<W: PollWatch>(&mut self, most: u32, watch: &mut W) -> Result<(), AllocError>
        ensures ok { OnOk result (Pulls most self.old self.new) }
        ensures err { OnErr result (PollsInPart until.Frame most self.old self.new) }
        ensures lanes { KeepsLanes self.old.down self.new.down }
    {
        if self.poll_until(Until::Frame, most, watch)? {
            self.flush();
        } else {
            self.flush_lane(Lane::Directives);
        }
        Ok(())
    }
}

/// Polls a station once, and shows what it answered.
fn poll_shown<O: Outbox, I: Inbox, W: PollWatch>(
    station: &mut Station<O, I>,
    watch: &mut W,
) -> Result<Polled, AllocError>
    ensures once { IfOk result (λ answer. PollsOnce answer station.old station.new) }
    ensures err { OnErr result (station.new ≡ station.old) }
    ensures lanes { KeepsLanes station.old.down station.new.down }
    ensures shown { IfOk result (λ answer. W.shows watch.old answer watch.new) }
    ensures unshown { OnErr result (watch.new ≡ watch.old) }
{
    let answer = station.poll()?;
    watch.polled(answer, station);
    Ok(answer)
}
