//! The world of two stations over a link that keeps no order.
ghost use Rattle.std.specs.Prelude.{◌≡◌, ◌<◌, ◌^◌, List, None, Some, IfErr, IfOk, OnErr, OnOk};
ghost use Rattle.std.specs.Prelude.{MatchOption};
ghost use Rattle.std.specs.Prelude.{length};
ghost use Rattle.std.specs.Prelude.{slice_get};
ghost use Rattle.any_order.specs.Calls.{Call, other, setup_of};
ghost use Rattle.any_order.specs.Kept.{all_kept};
ghost use Rattle.link_stack.specs.Downward.{frame_lane};
ghost use Rattle.any_order.specs.Refusing.{AnswersFrame, AnswersOctets, AnswersResume};
ghost use Rattle.any_order.specs.Refusing.{AnswersStart, HasDue};
ghost use Rattle.any_order.specs.Refusing.{RefusesPut, RefusesRequest};
ghost use Rattle.any_order.specs.World.{ArePollCalls, AreFlushCalls, Happened, IsNewWorld};
ghost use Rattle.any_order.specs.World.{KeepsPromise, ResumesBy, deliver_calls, kept_at};
ghost use Rattle.any_order.specs.World.{octets_calls};
ghost use Rattle.any_order.specs.World.{put_calls, request_calls, restart_calls, setup, side_of};
ghost use Rattle.any_order.specs.World.{tick_calls};

use crate::answers::{Delivered, Restarted, Resumed, SentFrame};
use crate::laws::{a_world_resumes, the_promise_holds_where_stations_resume};
use crate::life::LifeFrames;
use crate::world::TwoEnds;
use cfdp_entity::Request;
use cfdp_header::TransactionId;
use cfdp_station::{Inbox, Polled, PutError, RequestError, ResumingInbox, Station, SteadyOutbox};
use link_sim::{Side, WorldConfig};
use std::alloc::{AllocError, Global};
use std::marker::Model;
use valid_config::Valid;

/// Two stations of CFDP, class 2, and all frames that each of them ever made, over a link that may
/// deliver any of these, in any order, any number of times or never, and among them other octets;
/// and either station may restart, or resume.
///
/// Whatever calls are made, the promise holds: each inbox is the first one, overwritten by the
/// files of the puts that its station indicated complete, over all its lives, in that order. From
/// one restart to the next no transaction is indicated finished twice; a put that is completed was
/// heard in full; a sender indicates a put complete only if the other station completed it; and
/// what a station says of a file is true.
///
/// Clauses see what is kept of both stations. The contract of a call says which calls of the
/// stations were made in it, whatever was done before at both.
#[derive(Drop)]
pub struct UnorderedWorld<O: SteadyOutbox, I: Inbox> {
    ends: TwoEnds<O, I>,
}

impl<O: SteadyOutbox, I: Inbox> Model for UnorderedWorld<O, I> {
    ghost use Rattle.cfdp_entity.specs.Coded.{state_codes};
    ghost use Rattle.any_order.specs.World.{HasRun, WorldKept};

    ghost Value = { WorldKept };

    ghost coded = { Prim.hlevel (state_codes) };

    ghost view = { λ w. w.ends };

    ghost invariant = { λ w. HasRun w.ends };
}

/// Shows that the spacecraft identifiers fit their field.
fn show_spacecraft(config: Valid<WorldConfig>)
    ensures one { config.one.sends.spacecraft < 2 ^ 8 }
    ensures two { config.two.sends.spacecraft < 2 ^ 8 }
{
    let config = config.get();
    let _one = config.one.sends.spacecraft;
    let _two = config.two.sends.spacecraft;
}

impl<O: SteadyOutbox, I: Inbox> UnorderedWorld<O, I> {
    /// Drops both stations, and all that they hold. A caller whose stores are its own drops the
    /// world by this call, so that its proof needn't look into it.
    pub fn close(self) {
        drop(self);
    }

    /// Makes two stations at which nothing was done yet, over these stores, the first station's
    /// stores first. The frames of both are numbered from 0 on.
    ///
    /// # Errors
    ///
    /// `AllocError` only if the memory for a station was refused.
    pub fn new(
        alloc: Global,
        config: Valid<WorldConfig>,
        outboxes: (O, O),
        inboxes: (I, I),
    ) -> Result<Self, AllocError>
        ensures { IfOk result (IsNewWorld config (O.files outboxes.0, O.files outboxes.1)
            (I.published inboxes.0, I.published inboxes.1)) }
    {
        // For the prover: it is valid.
        let _config = config.get();
        show_spacecraft(config);
        let ends = TwoEnds::new(alloc, config, outboxes, inboxes)?;
        Ok(UnorderedWorld { ends })
    }

    /// Sends a file of a station's outbox, to be published by the other one under the second name.
    ///
    /// # Errors
    ///
    /// The errors of `Station::put`, and `NoMemory` also if there was no memory to keep the names.
    /// No put was accepted then.
    pub fn put(
        &mut self,
        side: Side,
        source: &[u8],
        destination: &[u8],
    ) -> Result<TransactionId, PutError>
        ensures happened { Happened (side_of side) (put_calls source.now destination.now result)
            self.old self.new }
        ensures refused { IfErr result (λ by. RefusesPut by source.now destination.now
            (kept_at (side_of side) self.old)) }
    {
        self.ends.put(side, source, destination)
    }

    /// Does what the user of a station asks of a transaction.
    ///
    /// # Errors
    ///
    /// The errors of `Station::request`; nothing changed then.
    pub fn request(
        &mut self,
        side: Side,
        id: TransactionId,
        request: Request,
    ) -> Result<(), RequestError>
        ensures happened { Happened (side_of side) (request_calls id request result) self.old
            self.new }
        ensures refused { IfErr result (λ by. RefusesRequest by request id
            (kept_at (side_of side) self.old)) }
    {
        self.ends.request(side, id, request)
    }

    /// Gives a station the time.
    ///
    /// # Errors
    ///
    /// `AllocError` only if a timer's deadline has come; nothing changed then.
    pub fn tick(&mut self, side: Side, now: u64) -> Result<(), AllocError>
        ensures happened { Happened (side_of side) (tick_calls now result) self.old self.new }
        ensures lacks { OnErr result (HasDue now (kept_at (side_of side) self.old)) }
    {
        self.ends.tick(side, now)
    }

    /// Polls a station once, and takes all whole frames off that wait then; they are kept.
    ///
    /// # Errors
    ///
    /// `AllocError` if a poll found no memory, and nothing changed; or if there was none for a
    /// frame. Then that frame and those after it wait on, until the next poll or flush.
    pub fn poll(&mut self, side: Side) -> Result<Polled, AllocError>
        ensures happened { (calls : List Call) × ArePollCalls result calls
            × Happened (side_of side) calls self.old self.new }
        ensures none { OnOk result
            (frame_lane (kept_at (side_of side) self.new).station.down ≡ None) }
    {
        self.ends.poll(side)
    }

    /// Fills the begun frame of each lane of a station, and takes all whole frames off, as `poll`.
    ///
    /// # Errors
    ///
    /// `AllocError` if there was no memory for a frame: that and those after it wait on.
    pub fn flush(&mut self, side: Side) -> Result<(), AllocError>
        ensures happened { (calls : List Call) × AreFlushCalls calls
            × Happened (side_of side) calls self.old self.new }
        ensures none { OnOk result
            (frame_lane (kept_at (side_of side) self.new).station.down ≡ None) }
    {
        self.ends.flush(side)
    }

    /// Delivers a frame that this station made, in any of its lives, to the other one: whether it
    /// was delivered before or not, and whatever was delivered before it. If the answer isn't
    /// `Taken`, nothing changed.
    pub fn deliver(&mut self, side: Side, which: SentFrame) -> Delivered
        ensures happened { Happened (other (side_of side)) (deliver_calls which result) self.old
            self.new }
        ensures answers { AnswersFrame result which (kept_at (side_of side) self.old)
            (kept_at (other (side_of side)) self.old) (self.new ≡ self.old) }
    {
        self.ends.deliver(side, which)
    }

    /// Delivers octets to the other station over this one's link, such as a damaged frame: returns
    /// whether it took them. It doesn't if they are a frame of the link whose pointer doesn't say
    /// that it has idle data only; nothing changed then.
    pub fn deliver_octets(&mut self, side: Side, octets: &[u8]) -> bool
        ensures happened { Happened (other (side_of side)) (octets_calls octets.now result) self.old
            self.new }
        ensures answers { AnswersOctets result octets.now
            (setup_of (other (side_of side)) (setup self.old.config)).receives
            (self.new ≡ self.old) }
    {
        self.ends.deliver_octets(side, octets)
    }

    /// Restarts a station over these stores, which must have the files of those before: its puts
    /// are numbered from the first number on, and its frames from the second one. Nothing changes
    /// unless it answers `Done`.
    ///
    /// # Errors
    ///
    /// `AllocError` if the memory for the station was refused.
    pub fn restart(
        &mut self,
        side: Side,
        stores: (O, I),
        first_number: u64,
        first_frame: u32,
    ) -> Result<Restarted, AllocError>
        requires sources { O.files stores.0
            ≡ (kept_at (side_of side) self.old).station.entity.state.table.sources }
        requires files { I.published stores.1
            ≡ (kept_at (side_of side) self.old).station.entity.state.table.files }
        ensures happened { Happened (side_of side) (restart_calls first_frame first_number result)
            self.old self.new }
        ensures answers { AnswersStart first_frame first_number result
            (kept_at (side_of side) self.old) (self.new ≡ self.old) }
    {
        self.ends.restart(side, stores, first_number, first_frame)
    }

    /// Returns the inbox of a station, borrowed. The promise holds of it, and of all else.
    pub fn inbox(&self, side: Side) -> &I
        ensures files { I.published result.now
            ≡ (kept_at (side_of side) self.now).station.entity.state.table.files }
        ensures promised { KeepsPromise self.now }
    {
        the_promise_holds_where_stations_resume();
        self.ends.end(side).station().inbox()
    }

    /// Returns a station, borrowed.
    pub fn station(&self, side: Side) -> &Station<O, I>
        ensures { result.now ≡ (kept_at (side_of side) self.now).station }
    {
        self.ends.end(side).station()
    }

    /// Returns the frames that a station made in one of its lives, from 0 on, or `None` if there
    /// are fewer.
    pub fn life(&self, side: Side, life: usize) -> Option<&LifeFrames>
        ensures { MatchOption result (length (kept_at (side_of side) self.now).before < life)
            (λ l. slice_get (all_kept (kept_at (side_of side) self.now)) life ≡ Some l.now) }
    {
        self.ends.end(side).life(life)
    }
}

impl<O: SteadyOutbox, I: ResumingInbox> UnorderedWorld<O, I> {
    /// Kills a station and resumes it over these stores, which must have the files of those before.
    /// It goes on with the transactions that it had, as from a journal, and with the list of what
    /// it indicated: its puts are numbered from the first number on, and its frames from the second
    /// one. Of the files that it was receiving it holds nothing, so the other station sends them
    /// again. A put that is closed is forgotten. Nothing changes unless it answers `Done`.
    ///
    /// # Errors
    ///
    /// `AllocError` if the memory for the station, or for a record, was refused.
    pub fn resume(
        &mut self,
        side: Side,
        stores: (O, I),
        first_number: u64,
        first_frame: u32,
    ) -> Result<Resumed, AllocError>
        requires sources { O.files stores.0
            ≡ (kept_at (side_of side) self.old).station.entity.state.table.sources }
        requires files { I.published stores.1
            ≡ (kept_at (side_of side) self.old).station.entity.state.table.files }
        ensures happened { ResumesBy result (side_of side) first_frame first_number self.old
            self.new }
        ensures answers { AnswersResume first_frame first_number result
            (kept_at (side_of side) self.old) (self.new ≡ self.old) }
    {
        a_world_resumes();
        self.ends.resume(side, stores, first_number, first_frame)
    }
}
