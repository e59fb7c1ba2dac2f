//! One of two stations, with what a program keeps of its lives.
ghost use Rattle.std.specs.Prelude.{◌≡◌, ◌+◌, ◌++◌, ◌∷◌, [], ◌<◌, ◌≤◌, ℕ, List, true, false};
ghost use Rattle.std.specs.Prelude.{length, None, Some, map};
ghost use Rattle.std.specs.Prelude.{IfErr, IfOk, IfSome, OnErr, OnOk, MatchOption, IsTrue, ◌↔◌};
ghost use Rattle.std.specs.Prelude.{slice_get};
ghost use Rattle.aos_frame.specs.Frame.{other_lane};
ghost use Rattle.aos_frame.specs.declared.config.Lane.{Lane};
ghost use Rattle.any_order.specs.Refusing.{HasDue, IsFarFromLast, IsNearLast, IsUsedFrame};
ghost use Rattle.any_order.specs.Refusing.{RefusesPut, RefusesRequest};
ghost use Rattle.link_stack.specs.Downward.{Flushes, both_counted_from, first_down};
ghost use Rattle.link_stack.specs.Downward.{frame_lane, lane_down};
ghost use Rattle.link_stack.specs.Upward.{first_up};
ghost use Rattle.std.specs.List.{flat_map};
ghost use Rattle.cfdp_directives.specs.User.Put.{Put};
ghost use Rattle.cfdp_entity.specs.Entity.{first_entity};
ghost use Rattle.cfdp_entity.specs.Exchanging.{told_by};
ghost use Rattle.cfdp_entity.specs.Polling.{turn};
ghost use Rattle.cfdp_entity.specs.Putting.{Accepts};
ghost use Rattle.cfdp_entity.specs.Sound.{SpellsTurn};
ghost use Rattle.cfdp_station.specs.Polling.{Polls};
ghost use Rattle.cfdp_station.specs.Station.{KeepsLink, KeepsRest};
ghost use Rattle.cfdp_station.specs.Taking.{TakesFrame};
ghost use Rattle.cfdp_station.specs.declared.polled.Polled.TheVariants as answers;
ghost use Rattle.any_order.specs.Kept.{EndKept, GivesAll, IsNewKept, MadeFrame, Makes, all_kept};
ghost use Rattle.any_order.specs.Kept.{last_at, with_last};
ghost use Rattle.any_order.specs.Calls.{Call};
ghost use Rattle.any_order.specs.World.{ArePollCalls, AreFlushCalls, request_calls, tick_calls};
ghost use Rattle.cfdp_station.specs.declared.config.StationConfig.{StationConfig};

use crate::life::LifeFrames;
use aos_frame::FRAME_COUNTS;
use cfdp_entity::Request;
use cfdp_header::TransactionId;
use cfdp_station::{
    Inbox, Lane, Polled, PutError, RequestError, Station, StationConfig, SteadyOutbox,
};
use ghost_list::GhostList;
use std::alloc::{AllocError, Global};
use std::marker::Model;
use std::mem;
use std::snapshot::Snapshot;
use valid_config::Valid;

/// A station; all frames that it made in each of its lives; and what it took last in this one.
#[derive(Drop)]
pub(crate) struct OneEnd<O: SteadyOutbox, I: Inbox> {
    station: Station<O, I>,
    before: Vec<LifeFrames>,
    latest: LifeFrames,
    // the station as each of its lives before ended
    ended: GhostList<Snapshot<Station<O, I>>>,
    // the number of the frame of each lane that it took last in this life
    last_directives: Option<u64>,
    last_data: Option<u64>,
    // the number of the next put, none once the last of eight octets is used
    next: Option<u64>,
}

impl<O: SteadyOutbox, I: Inbox> Model for OneEnd<O, I> {
    ghost use Rattle.std.specs.Prelude.{◌≡◌};
    ghost use Rattle.std.specs.List.{flat_map};
    ghost use Rattle.cfdp_entity.specs.Coded.{state_codes};
    ghost use Rattle.cfdp_entity.specs.Entity.{next_of};
    ghost use Rattle.any_order.specs.Kept.{EndKept};

    ghost Value = { EndKept };

    ghost coded = { Prim.hlevel (state_codes) };

    ghost view = { λ e. record {
      station = e.station;
      before = e.before.items;
      latest = e.latest;
      told_before = flat_map (λ s. s.value.entity.state.table.told) e.ended;
      last_directives = e.last_directives;
      last_data = e.last_data;
    } };

    ghost invariant = { λ e. next_of e.next ≡ e.station.entity.state.next };
}

impl<O: SteadyOutbox, I: Inbox> OneEnd<O, I> {
    /// Returns the station, borrowed.
    pub(crate) fn station(&self) -> &Station<O, I>
        ensures { result.now ≡ self.now.station }
    {
        &self.station
    }

    /// Returns the frames of one of its lives, from 0 on, or `None` if there are fewer.
    pub(crate) fn life(&self, life: usize) -> Option<&LifeFrames>
        ensures { MatchOption result (length self.now.before < life)
            (λ l. slice_get (all_kept self.now) life ≡ Some l.now) }
    {
        if life == self.before.len() {
            return Some(&self.latest);
        }
        self.before.get(life)
    }

    /// Returns the number of its lives before this one.
    pub(crate) fn lives_before(&self) -> usize
        ensures { result ≡ length self.now.before }
    {
        self.before.len()
    }

    /// Accepts a put, or refuses it.
    pub(crate) fn put(
        &mut self,
        source: &[u8],
        destination: &[u8],
    ) -> Result<TransactionId, PutError>
        ensures accepted { IfOk result (λ id. Accepts source.now destination.now id
            self.old.station.entity.state self.new.station.entity.state) }
        ensures refused { IfErr result
            (λ by. RefusesPut by source.now destination.now self.old) }
        ensures err { OnErr result
            (self.new.station.entity.state ≡ self.old.station.entity.state) }
        ensures link { KeepsLink self.old.station self.new.station }
        ensures only { self.new ≡ record self.old { station = self.new.station } }
    {
        let id = self.station.put(source, destination)?;
        self.next = id.number.checked_add(1);
        Ok(id)
    }

    /// Does what is asked of a transaction.
    pub(crate) fn request(
        &mut self,
        id: TransactionId,
        request: Request,
    ) -> Result<(), RequestError>
        ensures makes { (c : StationConfig) (theirs : EndKept) (puts : List Put) →
            Makes (request_calls id request result) c self.old theirs self.new puts puts }
        ensures refused { IfErr result (λ by. RefusesRequest by request id self.old) }
    {
        self.station.request(id, request)
    }

    /// Gives it the time.
    pub(crate) fn tick(&mut self, now: u64) -> Result<(), AllocError>
        ensures makes { (c : StationConfig) (theirs : EndKept) (puts : List Put) →
            Makes (tick_calls now result) c self.old theirs self.new puts puts }
        ensures lacks { OnErr result (HasDue now self.old) }
    {
        self.station.tick(now)
    }

    /// Polls it once. What its outbox has always stands.
    fn poll(&mut self) -> Result<Polled, AllocError>
        ensures polled { IfOk result (λ answer. Polls answer self.old.station self.new.station) }
        ensures spells { IfOk result (λ answer. answer ≡ answers.Moved
            → SpellsTurn (turn self.old.station.entity.state) self.old.station.entity.state) }
        ensures err { OnErr result (self.new ≡ self.old) }
        ensures only { self.new ≡ record self.old { station = self.new.station } }
    {
        let answer = self.station.poll();
        // For the prover: its files always stand, so what was read is what they have.
        let _ = self.station.outbox();
        answer
    }

    /// Fills the begun frame of a lane.
    fn flush(&mut self, lane: Lane)
        ensures flushed { Flushes (lane_down lane self.old.station.down)
            (lane_down lane self.new.station.down) }
        ensures other { lane_down (other_lane lane) self.new.station.down
            ≡ lane_down (other_lane lane) self.old.station.down }
        ensures rest { KeepsRest self.old.station self.new.station }
        ensures only { self.new ≡ record self.old { station = self.new.station } }
    {
        self.station.flush_lane(lane);
    }

    /// Takes all whole frames off that wait, and keeps them.
    ///
    /// # Errors
    ///
    /// `AllocError` if there was no memory for one: that and those after it wait on.
    fn take_off(&mut self, alloc: Global) -> Result<(), AllocError>
        ensures gives { (made : List MadeFrame)
            × GivesAll made self.old.station self.new.station self.old.latest self.new.latest }
        ensures none { OnOk result (frame_lane self.new.station.down ≡ None) }
        ensures only { self.new
            ≡ record self.old { station = self.new.station; latest = self.new.latest } }
    {
        self.latest.take_all(alloc, &mut self.station)
    }

    /// Polls it once, and takes all whole frames off that wait then.
    pub(crate) fn send_next(&mut self, alloc: Global) -> Result<Polled, AllocError>
        ensures makes { (calls : List Call) × ArePollCalls result calls
            × ((c : StationConfig) (theirs : EndKept) (puts : List Put) →
            Makes calls c self.old theirs self.new puts puts) }
        ensures none { OnOk result (frame_lane self.new.station.down ≡ None) }
    {
        let answer = self.poll()?;
        self.take_off(alloc)?;
        Ok(answer)
    }

    /// Fills the begun frame of each lane, and takes all whole frames off that wait then.
    pub(crate) fn send_begun(&mut self, alloc: Global) -> Result<(), AllocError>
        ensures makes { (calls : List Call) × AreFlushCalls calls
            × ((c : StationConfig) (theirs : EndKept) (puts : List Put) →
            Makes calls c self.old theirs self.new puts puts) }
        ensures none { OnOk result (frame_lane self.new.station.down ≡ None) }
    {
        self.flush(Lane::Directives);
        self.flush(Lane::Data);
        self.take_off(alloc)
    }

    /// Returns `true` if a frame with this number may come in a lane: if one of the lane came
    /// before in this life, this number must be greater by at most 2^28, or smaller by less than
    /// 2^28 - 1.
    pub(crate) fn is_near(&self, lane: Lane, number: u64) -> bool
        ensures near { result ≡ true → IsNearLast (last_at lane self.now) number }
        ensures far { result ≡ false → IsFarFromLast (last_at lane self.now) number }
    {
        let counts = u64::from(FRAME_COUNTS);
        let last = match lane {
            Lane::Directives => self.last_directives,
            Lane::Data => self.last_data,
        };
        match last {
            None => true,
            Some(before) => {
                number.saturating_sub(before) <= counts
                    && before.saturating_sub(number) < counts - 1
            }
        }
    }

    /// Takes octets that came.
    pub(crate) fn receive(&mut self, octets: &[u8])
        ensures taken { TakesFrame octets.now self.old.station self.new.station }
        ensures only { self.new ≡ record self.old { station = self.new.station } }
    {
        self.station.receive(octets);
    }

    /// Takes a frame of a lane, with this number.
    pub(crate) fn take(&mut self, lane: Lane, number: u64, frame: &[u8])
        ensures taken { TakesFrame frame.now self.old.station self.new.station }
        ensures only { self.new
            ≡ with_last lane number (record self.old { station = self.new.station }) }
    {
        self.receive(frame);
        match lane {
            Lane::Directives => self.last_directives = Some(number),
            Lane::Data => self.last_data = Some(number),
        }
    }
}

/// Returns a station without transactions, over these stores, whose frames are counted from this
/// number on.
pub(crate) fn made_anew<O: SteadyOutbox, I: Inbox>(
    alloc: Global,
    config: Valid<StationConfig>,
    outbox: O,
    inbox: I,
    first: u32,
) -> Result<Station<O, I>, AllocError>
    ensures entity { IfOk result (λ s. s.entity.state
        ≡ first_entity (O.files outbox) (I.published inbox) config.entity) }
    ensures down { IfOk result (λ s. s.down
        ≡ both_counted_from first (first_down config.sends config.capacity)) }
    ensures up { IfOk result (λ s. s.up ≡ first_up config.receives) }
{
    let mut station = Station::new(alloc, config, outbox, inbox)?;
    station.count_frames_from(first);
    Ok(station)
}

/// Puts the frames of a life after those before, and begins others.
fn close(
    before: &mut Vec<LifeFrames>,
    latest: &mut LifeFrames,
    next: LifeFrames,
) -> Result<(), AllocError>
    ensures ok { OnOk result ((before.new.items ≡ before.old.items ++ latest.old ∷ [])
        × (latest.new ≡ next)) }
    ensures err { OnErr result ((before.new.items ≡ before.old.items)
        × (latest.new ≡ latest.old)) }
{
    before.reserve(1)?;
    let ended = mem::replace(latest, next);
    let _ = before.push(ended);
    Ok(())
}

/// Notes the station as it is when one of its lives ends.
fn note_end<O: SteadyOutbox, I: Inbox>(
    ended: &mut GhostList<Snapshot<Station<O, I>>>,
    station: &Station<O, I>,
)
    ensures { flat_map (λ s. s.value.entity.state.table.told) ended.new
        ≡ flat_map (λ s. s.value.entity.state.table.told) ended.old
        ++ station.now.entity.state.table.told }
{
    ended.put(&Snapshot::of(station));
}

impl<O: SteadyOutbox, I: Inbox> OneEnd<O, I> {
    /// Makes one at which nothing was done yet.
    pub(crate) fn new(
        alloc: Global,
        config: Valid<StationConfig>,
        outbox: O,
        inbox: I,
    ) -> Result<Self, AllocError>
        ensures { IfOk result (λ e. IsNewKept config (O.files outbox) (I.published inbox) e) }
    {
        let station = made_anew(alloc, config, outbox, inbox, 0)?;
        let next = Some(config.get().entity.first_number);
        Ok(OneEnd {
            station,
            before: Vec::new(alloc),
            latest: LifeFrames::new(alloc, 0),
            ended: GhostList::new(),
            last_directives: None,
            last_data: None,
            next,
        })
    }

    /// Returns `true` if no put of it had this number, or a later one.
    pub(crate) fn is_unused(&self, number: u64) -> bool
        ensures { result ≡ true ↔ self.now.station.entity.state.next ≤ number }
    {
        match self.next {
            Some(next) => next <= number,
            None => false,
        }
    }

    /// Returns `true` if this number is after the number of the next frame of each lane.
    pub(crate) fn ends_before(&self, number: u32) -> bool
        ensures directives { result ≡ true → self.now.latest.first
            + length self.now.latest.directives < number }
        ensures file_data { result ≡ true → self.now.latest.first
            + length self.now.latest.file_data < number }
        ensures used { result ≡ false → IsUsedFrame number self.now.latest }
    {
        self.latest.ends_before(number)
    }

    /// Goes on as another station, which is new: its puts are numbered from this number on, and its
    /// frames from that one.
    pub(crate) fn restart(
        &mut self,
        alloc: Global,
        station: Station<O, I>,
        number: u64,
        first: u32,
    ) -> Result<(), AllocError>
        requires { station.entity.state.next ≡ number }
        ensures ok { OnOk result (self.new ≡ record self.old {
          station = station;
          before = self.old.before ++ self.old.latest ∷ [];
          latest = record { first = first; directives = []; file_data = [] };
          told_before = self.old.told_before ++ self.old.station.entity.state.table.told;
          last_directives = None;
          last_data = None;
        }) }
        ensures err { OnErr result (self.new ≡ self.old) }
    {
        match close(
            &mut self.before,
            &mut self.latest,
            LifeFrames::new(alloc, first),
        ) {
            Ok(()) => {
                note_end(&mut self.ended, &self.station);
                let old = mem::replace(&mut self.station, station);
                self.last_directives = None;
                self.last_data = None;
                self.next = Some(number);
                drop(old);
                Ok(())
            }
            Err(AllocError) => {
                drop(station);
                Err(AllocError)
            }
        }
    }
}

/// Makes what a new station indicated go on after what another one indicated, and puts it in place
/// of that one, which is dropped.
fn replace_by<O: SteadyOutbox, I: Inbox>(killed: &mut Station<O, I>, station: Station<O, I>)
    ensures state { killed.new.entity.state
        ≡ told_by killed.old.entity.state station.entity.state }
    ensures down { killed.new.down ≡ station.down }
    ensures up { killed.new.up ≡ station.up }
{
    let mut station = station;
    station.exchange_indications(killed);
    let old = mem::replace(killed, station);
    drop(old);
}

impl<O: SteadyOutbox, I: Inbox> OneEnd<O, I> {
    /// Goes on as another station, on which its records were restored: its puts are numbered from
    /// this number on, and its frames from that one. What it indicated goes on.
    pub(crate) fn resume(
        &mut self,
        alloc: Global,
        station: Station<O, I>,
        number: u64,
        first: u32,
    ) -> Result<(), AllocError>
        requires { station.entity.state.next ≡ number }
        ensures state { OnOk result (self.new.station.entity.state
            ≡ told_by self.old.station.entity.state station.entity.state) }
        ensures down { OnOk result (self.new.station.down ≡ station.down) }
        ensures up { OnOk result (self.new.station.up ≡ station.up) }
        ensures ok { OnOk result (self.new ≡ record self.old {
          station = self.new.station;
          before = self.old.before ++ self.old.latest ∷ [];
          latest = record { first = first; directives = []; file_data = [] };
          last_directives = None;
          last_data = None;
        }) }
        ensures err { OnErr result (self.new ≡ self.old) }
    {
        match close(
            &mut self.before,
            &mut self.latest,
            LifeFrames::new(alloc, first),
        ) {
            Ok(()) => {
                replace_by(&mut self.station, station);
                self.last_directives = None;
                self.last_data = None;
                self.next = Some(number);
                Ok(())
            }
            Err(AllocError) => {
                drop(station);
                Err(AllocError)
            }
        }
    }
}
