//! Two stations and all frames that each of them ever made.
ghost use Rattle.std.specs.Prelude.{◌≡◌, ◌≢◌, ◌≤◌, ℕ, List, true, false, None, map};
ghost use Rattle.std.specs.Prelude.{IfErr, IfOk, IsTrue, OnErr, OnOk, Ok};
ghost use Rattle.aos_frame.specs.declared.config.Lane.{Lane};
ghost use Rattle.aos_frame.specs.Frame.{lane_channel};
ghost use Rattle.link_stack.specs.AnyOrder.{IsStray};
ghost use Rattle.cfdp_directives.specs.User.Put.{Put};
ghost use Rattle.cfdp_entity.specs.Sound.{next_put};
ghost use Rattle.cfdp_station.specs.declared.config.StationConfig.{StationConfig};
ghost use Rattle.cfdp_entity.specs.Config.{IsConfig};
ghost use Rattle.cfdp_entity.specs.Entity.{EntityState, first_entity};
ghost use Rattle.cfdp_entity.specs.Exchanging.{told_by};
ghost use Rattle.any_order.specs.Calls.{Call, numbered_from, other, setup_of};
ghost use Rattle.any_order.specs.Kept.{EndKept, Makes};
ghost use Rattle.cfdp_station.specs.Station.{KeepsLink};
ghost use Rattle.link_stack.specs.Downward.{both_counted_from, first_down, frame_lane};
ghost use Rattle.link_stack.specs.Upward.{first_up};
ghost use Rattle.any_order.specs.Refusing.{AnswersFrame, AnswersOctets, AnswersResume};
ghost use Rattle.any_order.specs.Refusing.{AnswersStart, CanStart, HasDue};
ghost use Rattle.any_order.specs.Refusing.{IsNoStray, RefusesPut, RefusesRequest};
ghost use Rattle.any_order.specs.Restoring.{ComesBackFrom, ResumesKept};
ghost use Rattle.any_order.specs.World.{ArePollCalls, AreFlushCalls, Happened, IsNewWorld};
ghost use Rattle.any_order.specs.World.{ResumesIn};
ghost use Rattle.any_order.specs.declared.answers.Resumed.TheVariants as resumed;
ghost use Rattle.any_order.specs.World.{deliver_calls, kept_at, octets_calls, put_calls};
ghost use Rattle.any_order.specs.World.{request_calls, restart_calls, setup, side_of, tick_calls};

use crate::answers::{Delivered, Restarted, Resumed, SentFrame};
use crate::end::{OneEnd, made_anew};
use crate::restoring::restore_all;
use aos_frame::{ChannelConfig, Lane, LinkConfig, decode};
use cfdp_directives::Octets;
use cfdp_entity::{EntityConfig, Request, RestoreError};
use cfdp_header::TransactionId;
use cfdp_station::{
    Inbox, Polled, PutError, RequestError, ResumingInbox, Station, StationConfig, SteadyOutbox,
};
use link_sim::{Side, WorldConfig};
use mpdu::{ONLY_IDLE, read_pointer};
use std::alloc::{AllocError, Global};
use std::marker::Model;
use std::snapshot::Snapshot;
use valid_config::Valid;

/// A put that was accepted: its names, and the station as it was before.
#[derive(Drop)]
struct TakenPut<O: SteadyOutbox, I: Inbox> {
    source: Octets,
    destination: Octets,
    station: Snapshot<Station<O, I>>,
}

/// Two stations with all frames that each made, the puts that were accepted, and the inboxes as
/// they were at first.
#[derive(Drop)]
pub(crate) struct TwoEnds<O: SteadyOutbox, I: Inbox> {
    alloc: Global,
    config: Valid<WorldConfig>,
    one: OneEnd<O, I>,
    two: OneEnd<O, I>,
    puts: Vec<TakenPut<O, I>>,
    first_one: Snapshot<I>,
    first_two: Snapshot<I>,
}

impl<O: SteadyOutbox, I: Inbox> Model for TwoEnds<O, I> {
    ghost use Rattle.std.specs.Prelude.{map};
    ghost use Rattle.cfdp_entity.specs.Coded.{state_codes};
    ghost use Rattle.cfdp_entity.specs.Sound.{next_put};
    ghost use Rattle.any_order.specs.World.{WorldKept};

    ghost Value = { WorldKept };

    ghost coded = { Prim.hlevel (state_codes) };

    ghost view = { λ w. record {
      one = w.one;
      two = w.two;
      puts = map (λ t. next_put t.source t.destination t.station.value.entity.state) w.puts.items;
      config = w.config;
      first_one = I.published w.first_one.value;
      first_two = I.published w.first_two.value;
    } };
}

/// Keeps the names of a put, and the station as it is before it.
fn prepare<O: SteadyOutbox, I: Inbox>(
    alloc: Global,
    end: &OneEnd<O, I>,
    source: &[u8],
    destination: &[u8],
) -> Result<TakenPut<O, I>, AllocError>
    ensures { IfOk result (λ t. next_put t.source t.destination t.station.value.entity.state
        ≡ next_put source.now destination.now end.now.station.entity.state) }
{
    Ok(TakenPut {
        source: Octets::copied(alloc, source)?,
        destination: Octets::copied(alloc, destination)?,
        station: Snapshot::of(end.station()),
    })
}

/// Makes a put at a station, and keeps it if it was accepted.
fn put_at<O: SteadyOutbox, I: Inbox>(
    alloc: Global,
    end: &mut OneEnd<O, I>,
    puts: &mut Vec<TakenPut<O, I>>,
    source: &[u8],
    destination: &[u8],
) -> Result<TransactionId, PutError>
    ensures makes { (c : StationConfig) (theirs : EndKept) →
        Makes (put_calls source.now destination.now result) c end.old theirs end.new
        (map (λ t. next_put t.source t.destination t.station.value.entity.state) puts.old.items)
        (map (λ t. next_put t.source t.destination t.station.value.entity.state) puts.new.items) }
    ensures refused { IfErr result (λ by. RefusesPut by source.now destination.now end.old) }
{
    let Ok(taken) = prepare(alloc, end, source, destination) else {
        return Err(PutError::NoMemory);
    };
    if puts.reserve(1).is_err() {
        return Err(PutError::NoMemory);
    }
    match end.put(source, destination) {
        Ok(id) => {
            puts.push_reserved(taken);
            Ok(id)
        }
        Err(error) => Err(error),
    }
}

/// Returns `true` if no packet can come of these octets in a lane: they are no frame of it, or one
/// whose pointer says that it has idle data only.
fn is_stray(octets: &[u8], channel: &ChannelConfig) -> bool
    ensures stray { result ≡ true → IsStray channel.now octets.now }
    ensures frame { result ≡ false → IsNoStray channel.now octets.now }
{
    match decode(octets, channel) {
        Ok((_, mpdu)) => read_pointer(mpdu) == ONLY_IDLE,
        Err(_) => true,
    }
}

/// Delivers octets to a station, unless they are a frame of a lane with more in it than idle data.
fn octets_to<O: SteadyOutbox, I: Inbox>(
    end: &mut OneEnd<O, I>,
    link: LinkConfig,
    octets: &[u8],
) -> bool
    ensures makes { (c : StationConfig) (theirs : EndKept) (puts : List Put) → c.receives ≡ link →
        Makes (octets_calls octets.now result) c end.old theirs end.new puts puts }
    ensures answers { AnswersOctets result octets.now link (end.new ≡ end.old) }
{
    if !is_stray(octets, &link.lane(Lane::Directives))
        || !is_stray(octets, &link.lane(Lane::Data))
    {
        return false;
    }
    end.receive(octets);
    true
}

/// Delivers a frame that one station made to the other one, if it is near enough.
fn hand_over<O: SteadyOutbox, I: Inbox>(
    from: &OneEnd<O, I>,
    to: &mut OneEnd<O, I>,
    which: SentFrame,
) -> Delivered
    ensures makes { (c : StationConfig) (puts : List Put) →
        Makes (deliver_calls which result) c to.old from.now to.new puts puts }
    ensures answers { AnswersFrame result which from.now to.old (to.new ≡ to.old) }
{
    let Some(life) = from.life(which.life) else {
        return Delivered::NoSuchFrame;
    };
    let Some(frame) = life.frame(which.lane, which.place) else {
        return Delivered::NoSuchFrame;
    };
    let Some(number) = life.number(which.place) else {
        return Delivered::TooFar;
    };
    if !to.is_near(which.lane, number) {
        return Delivered::TooFar;
    }
    to.take(which.lane, number, frame);
    Delivered::Taken
}

/// Restarts a station over these stores, if no put of it had this number or a later one, and at
/// least one number is left out before this one of its frames.
fn restart_at<O: SteadyOutbox, I: Inbox>(
    alloc: Global,
    config: Valid<StationConfig>,
    end: &mut OneEnd<O, I>,
    stores: (O, I),
    number: u64,
    first: u32,
) -> Result<Restarted, AllocError>
    requires sources { O.files stores.0 ≡ end.old.station.entity.state.table.sources }
    requires files { I.published stores.1 ≡ end.old.station.entity.state.table.files }
    ensures makes { (theirs : EndKept) (puts : List Put) →
        Makes (restart_calls first number result) config end.old theirs end.new puts puts }
    ensures answers { AnswersStart first number result end.old (end.new ≡ end.old) }
{
    if !end.is_unused(number) {
        return Ok(Restarted::NumberUsed);
    }
    if !end.ends_before(first) {
        return Ok(Restarted::FrameUsed);
    }
    let station = made_anew(
        alloc,
        numbered_from(config, number),
        stores.0,
        stores.1,
        first,
    )?;
    end.restart(alloc, station, number, first)?;
    Ok(Restarted::Done)
}

/// Shows that the files of a station's outbox stand.
fn show_stands<O: SteadyOutbox, I: Inbox>(station: &Station<O, I>)
    ensures { IsTrue station.now.entity.state.table.stands }
{
    let _ = station.outbox();
}

/// Restores on a new station what a journal would have of the station that was killed.
fn restore_from<O: SteadyOutbox, I: ResumingInbox>(
    alloc: Global,
    station: &mut Station<O, I>,
    killed: &Station<O, I>,
    config: Valid<StationConfig>,
    number: u64,
) -> Result<(), RestoreError>
    requires valid { IsConfig (numbered_from number config.entity) }
    requires unused { killed.now.entity.state.next ≤ number }
    requires new { station.old.entity.state ≡ first_entity
        killed.now.entity.state.table.sources killed.now.entity.state.table.files
        (numbered_from number config.entity) }
    ensures back { OnOk result ((new : EntityState)
        → new ≡ told_by killed.now.entity.state station.new.entity.state
        → ComesBackFrom number config.entity killed.now.entity.state new) }
    ensures next { OnOk result (station.new.entity.state.next ≡ number) }
    ensures link { KeepsLink station.old station.new }
{
    restore_all(alloc, station, killed)?;
    show_stands(station);
    Ok(())
}

/// Makes a new station over these stores, and restores on it what a journal would have of the
/// station that was killed.
fn made_again<O: SteadyOutbox, I: ResumingInbox>(
    alloc: Global,
    config: Valid<StationConfig>,
    killed: &Station<O, I>,
    stores: (O, I),
    number: u64,
    first: u32,
) -> Result<Station<O, I>, RestoreError>
    requires sources { O.files stores.0 ≡ killed.now.entity.state.table.sources }
    requires files { I.published stores.1 ≡ killed.now.entity.state.table.files }
    requires unused { killed.now.entity.state.next ≤ number }
    ensures back { IfOk result (λ s. (new : EntityState)
        → new ≡ told_by killed.now.entity.state s.entity.state
        → ComesBackFrom number config.entity killed.now.entity.state new) }
    ensures next { IfOk result (λ s. s.entity.state.next ≡ number) }
    ensures down { IfOk result (λ s. s.down
        ≡ both_counted_from first (first_down config.sends config.capacity)) }
    ensures up { IfOk result (λ s. s.up ≡ first_up config.receives) }
{
    let numbered = numbered_from(config, number);
    let Ok(mut station) = made_anew(alloc, numbered, stores.0, stores.1, first) else {
        return Err(RestoreError::NoMemory);
    };
    match restore_from(alloc, &mut station, killed, config, number) {
        Ok(()) => Ok(station),
        Err(error) => {
            drop(station);
            Err(error)
        }
    }
}

/// Returns the answer if this is why a station can't resume.
fn not_restored(error: RestoreError) -> Result<Resumed, AllocError>
    ensures answers { (first number : ℕ) (k : EndKept) → CanStart first number k
        → AnswersResume first number result k (k ≡ k) }
    ensures other { result ≢ Ok resumed.Done }
{
    match error {
        RestoreError::NoMemory => Err(AllocError),
        other => Ok(Resumed::NotRestored(other)),
    }
}

/// Resumes a station over these stores, if no put of it had this number or a later one, and at
/// least one number is left out before this one of its frames.
fn resume_at<O: SteadyOutbox, I: ResumingInbox>(
    alloc: Global,
    config: Valid<StationConfig>,
    end: &mut OneEnd<O, I>,
    stores: (O, I),
    number: u64,
    first: u32,
) -> Result<Resumed, AllocError>
    requires sources { O.files stores.0 ≡ end.old.station.entity.state.table.sources }
    requires files { I.published stores.1 ≡ end.old.station.entity.state.table.files }
    ensures resumes { result ≡ Ok resumed.Done
        → ResumesKept first number config end.old end.new }
    ensures answers { AnswersResume first number result end.old (end.new ≡ end.old) }
{
    if !end.is_unused(number) {
        return Ok(Resumed::NumberUsed);
    }
    if !end.ends_before(first) {
        return Ok(Resumed::FrameUsed);
    }
    let station = match made_again(alloc, config, end.station(), stores, number, first) {
        Ok(station) => station,
        Err(error) => return not_restored(error),
    };
    end.resume(alloc, station, number, first)?;
    Ok(Resumed::Done)
}

/// Returns the same configuration, of a station that numbers its puts from this one on.
fn numbered_from(config: Valid<StationConfig>, number: u64) -> Valid<StationConfig>
    ensures is { result ≡ record config { entity = numbered_from number config.entity } }
    ensures valid { IsConfig (numbered_from number config.entity) }
{
    let config = config.get();
    Valid::known(StationConfig {
        entity: EntityConfig {
            first_number: number,
            ..config.entity
        },
        ..config
    })
}

impl<O: SteadyOutbox, I: Inbox> TwoEnds<O, I> {
    /// Makes two stations over these stores, at which nothing was done yet.
    pub(crate) fn new(
        alloc: Global,
        config: Valid<WorldConfig>,
        outboxes: (O, O),
        inboxes: (I, I),
    ) -> Result<Self, AllocError>
        ensures { IfOk result (IsNewWorld config (O.files outboxes.0, O.files outboxes.1)
            (I.published inboxes.0, I.published inboxes.1)) }
    {
        let (first_one, first_two) = (Snapshot::of(&inboxes.0), Snapshot::of(&inboxes.1));
        let one = OneEnd::new(
            alloc,
            WorldConfig::station(config, Side::One),
            outboxes.0,
            inboxes.0,
        )?;
        match OneEnd::new(
            alloc,
            WorldConfig::station(config, Side::Two),
            outboxes.1,
            inboxes.1,
        ) {
            Ok(two) => Ok(TwoEnds {
                alloc,
                config,
                one,
                two,
                puts: Vec::new(alloc),
                first_one,
                first_two,
            }),
            Err(AllocError) => {
                drop(one);
                Err(AllocError)
            }
        }
    }

    /// Returns one of both, borrowed.
    pub(crate) fn end(&self, side: Side) -> &OneEnd<O, I>
        ensures { result.now ≡ kept_at (side_of side) self.now }
    {
        match side {
            Side::One => &self.one,
            Side::Two => &self.two,
        }
    }

    pub(crate) fn put(
        &mut self,
        side: Side,
        source: &[u8],
        destination: &[u8],
    ) -> Result<TransactionId, PutError>
        ensures happened { Happened (side_of side) (put_calls source.now destination.now result)
            self.old self.new }
        ensures refused { IfErr result (λ by. RefusesPut by source.now destination.now
            (kept_at (side_of side) self.old)) }
    {
        let alloc = self.alloc;
        match side {
            Side::One => put_at(alloc, &mut self.one, &mut self.puts, source, destination),
            Side::Two => put_at(alloc, &mut self.two, &mut self.puts, source, destination),
        }
    }

    pub(crate) fn request(
        &mut self,
        side: Side,
        id: TransactionId,
        request: Request,
    ) -> Result<(), RequestError>
        ensures happened { Happened (side_of side) (request_calls id request result) self.old
            self.new }
        ensures refused { IfErr result (λ by. RefusesRequest by request id
            (kept_at (side_of side) self.old)) }
    {
        match side {
            Side::One => self.one.request(id, request),
            Side::Two => self.two.request(id, request),
        }
    }

    pub(crate) fn tick(&mut self, side: Side, now: u64) -> Result<(), AllocError>
        ensures happened { Happened (side_of side) (tick_calls now result) self.old self.new }
        ensures lacks { OnErr result (HasDue now (kept_at (side_of side) self.old)) }
    {
        match side {
            Side::One => self.one.tick(now),
            Side::Two => self.two.tick(now),
        }
    }

    pub(crate) fn poll(&mut self, side: Side) -> Result<Polled, AllocError>
        ensures happened { (calls : List Call) × ArePollCalls result calls
            × Happened (side_of side) calls self.old self.new }
        ensures none { OnOk result
            (frame_lane (kept_at (side_of side) self.new).station.down ≡ None) }
    {
        let alloc = self.alloc;
        match side {
            Side::One => self.one.send_next(alloc),
            Side::Two => self.two.send_next(alloc),
        }
    }

    pub(crate) fn flush(&mut self, side: Side) -> Result<(), AllocError>
        ensures happened { (calls : List Call) × AreFlushCalls calls
            × Happened (side_of side) calls self.old self.new }
        ensures none { OnOk result
            (frame_lane (kept_at (side_of side) self.new).station.down ≡ None) }
    {
        let alloc = self.alloc;
        match side {
            Side::One => self.one.send_begun(alloc),
            Side::Two => self.two.send_begun(alloc),
        }
    }

    pub(crate) fn deliver(&mut self, side: Side, which: SentFrame) -> Delivered
        ensures happened { Happened (other (side_of side)) (deliver_calls which result) self.old
            self.new }
        ensures answers { AnswersFrame result which (kept_at (side_of side) self.old)
            (kept_at (other (side_of side)) self.old) (self.new ≡ self.old) }
    {
        match side {
            Side::One => hand_over(&self.one, &mut self.two, which),
            Side::Two => hand_over(&self.two, &mut self.one, which),
        }
    }

    pub(crate) fn deliver_octets(&mut self, side: Side, octets: &[u8]) -> bool
        ensures happened { Happened (other (side_of side)) (octets_calls octets.now result) self.old
            self.new }
        ensures answers { AnswersOctets result octets.now
            (setup_of (other (side_of side)) (setup self.old.config)).receives
            (self.new ≡ self.old) }
    {
        let config = self.config.get();
        match side {
            Side::One => octets_to(&mut self.two, config.two.receives, octets),
            Side::Two => octets_to(&mut self.one, config.one.receives, octets),
        }
    }

    pub(crate) fn restart(
        &mut self,
        side: Side,
        stores: (O, I),
        number: u64,
        first: u32,
    ) -> Result<Restarted, AllocError>
        requires sources { O.files stores.0
            ≡ (kept_at (side_of side) self.old).station.entity.state.table.sources }
        requires files { I.published stores.1
            ≡ (kept_at (side_of side) self.old).station.entity.state.table.files }
        ensures happened { Happened (side_of side) (restart_calls first number result) self.old
            self.new }
        ensures answers { AnswersStart first number result (kept_at (side_of side) self.old)
            (self.new ≡ self.old) }
    {
        let alloc = self.alloc;
        let config = WorldConfig::station(self.config, side);
        match side {
            Side::One => restart_at(alloc, config, &mut self.one, stores, number, first),
            Side::Two => restart_at(alloc, config, &mut self.two, stores, number, first),
        }
    }
}

impl<O: SteadyOutbox, I: ResumingInbox> TwoEnds<O, I> {
    pub(crate) fn resume(
        &mut self,
        side: Side,
        stores: (O, I),
        number: u64,
        first: u32,
    ) -> Result<Resumed, AllocError>
        requires sources { O.files stores.0
            ≡ (kept_at (side_of side) self.old).station.entity.state.table.sources }
        requires files { I.published stores.1
            ≡ (kept_at (side_of side) self.old).station.entity.state.table.files }
        ensures resumes { result ≡ Ok resumed.Done
            → ResumesIn (side_of side) first number self.old self.new }
        ensures answers { AnswersResume first number result (kept_at (side_of side) self.old)
            (self.new ≡ self.old) }
    {
        let alloc = self.alloc;
        let config = WorldConfig::station(self.config, side);
        match side {
            Side::One => resume_at(alloc, config, &mut self.one, stores, number, first),
            Side::Two => resume_at(alloc, config, &mut self.two, stores, number, first),
        }
    }
}
