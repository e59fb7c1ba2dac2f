//! Two stations over any link, with what they indicated in their lives before: a station that
//! restarts keeps nothing of that, and of one that resumes the list goes on.
ghost use Rattle.std.specs.FinMap as map;
ghost use Rattle.std.specs.Io.KnownBytes.{Appends};
ghost use Rattle.std.specs.List.{flat_map};
ghost use Rattle.std.specs.Prelude.{◌≡◌, ◌≢◌, ◌+◌, ◌<◌, ◌≤◌, ◌++◌, ◌∷◌, ◌^◌, ℕ, List, []};
ghost use Rattle.std.specs.Prelude.{IfOk, IfSome, OnOk, MatchOption, Ok, count_by, length};
ghost use Rattle.std.specs.Prelude.{vec_capacity, vec_len};
ghost use Rattle.station_pair.specs.declared.side.Side.TheVariants as sides;
ghost use Rattle.any_order.specs.Calls as calls;
ghost use Rattle.any_order.specs.Calls.{Call, Restarts, other, setup_of};
ghost use Rattle.any_order.specs.Onward.{AreNoStarts, GoesOn};
ghost use Rattle.any_order.specs.Refusing.{AnswersFrame, AnswersOctets};
ghost use Rattle.any_order.specs.World.{ArePollCalls, AreFlushCalls, Happened, IsNewWorld};
ghost use Rattle.any_order.specs.World.{HasResumed, KeepsPromise, ResumesBy, WorldKept};
ghost use Rattle.any_order.specs.World.{deliver_calls, kept_at};
ghost use Rattle.any_order.specs.World.{octets_calls, put_calls, request_calls, restart_calls};
ghost use Rattle.any_order.specs.World.{setup, side_of, tick_calls};
ghost use Rattle.any_order.specs.declared.answers.Restarted.TheVariants as restarted;
ghost use Rattle.cfdp_report.specs.Report.Lines.{indication_line, is_own_completion};
ghost use Rattle.cfdp_script.specs.Script.Outboxes.{outbox_of};
ghost use Rattle.cfdp_timers.specs.ButInactivity.{IsLeastOther, OnlyInactivity};
ghost use Rattle.cfdp_any_order_script.specs.Told.{IsFrame, IsNoted, kept_of, received, station_of};
ghost use Rattle.cfdp_any_order_script.specs.Told.{GoesOnward, HasSources, Resumes, Starts};
ghost use Rattle.cfdp_any_order_script.specs.Told.{AnswersNextLife, AnswersRestart, next_first};
ghost use Rattle.cfdp_any_order_script.specs.Told.{told_ever};

use crate::copies::copied;
use crate::links::Made;
use any_order::{
    Delivered, Restarted, Resumed, SentFrame, UnorderedWorld, a_resume_goes_on, lives_stay,
    the_files_to_send_stay,
};
use aos_frame::Lane;
use cfdp_entity::Request;
use cfdp_header::TransactionId;
use cfdp_report::{own_completions, write_indications};
use cfdp_script::{FileLine, outboxes};
use cfdp_station::{Inbox, Polled, PutError, RequestError, Station};
use cfdp_store::{Files, MemoryInbox, MemoryOutbox};
use link_sim::{Side, WorldConfig};
use std::alloc::{AllocError, Global};
use std::io;
use std::io::Write;
use std::marker::Model;
use valid_config::Valid;

/// Two stations with their files in memory.
type Stations = UnorderedWorld<MemoryOutbox, MemoryInbox>;

/// Of the lives that a station had before: how many there were, all that it indicated in them, as
/// lines of the report, and how many of its puts were complete by that. And the number of its next
/// put, `None` if the last one is used.
#[derive(Drop)]
struct Before {
    lives: usize,
    told: Vec<u8>,
    completed: u64,
    next: Option<u64>,
}

/// Two stations over any link, and what they indicated in all their lives. Clauses see the world.
#[derive(Drop)]
pub struct ToldWorld<'a> {
    alloc: Global,
    world: Stations,
    files: &'a [FileLine],
    one: Before,
    two: Before,
}

impl<'a> Model for ToldWorld<'a> {
    ghost use Rattle.cfdp_entity.specs.Coded.{state_codes};
    ghost use Rattle.any_order.specs.World.{WorldKept};
    ghost use Rattle.cfdp_any_order_script.specs.Told.{HasSources, IsNoted};

    ghost Value = { WorldKept };

    ghost coded = { Prim.hlevel (state_codes) };

    ghost view = { λ w. w.world };

    ghost invariant = { λ w.
        IsNoted 1 w.one.lives w.one.told.items w.one.completed w.world.one
        × IsNoted 2 w.two.lives w.two.told.items w.two.completed w.world.two
        × HasSources w.files.now w.world };
}

/// Returns the number of a station in reports.
fn number_of(side: Side) -> u64
    ensures { result ≡ station_of side }
{
    match side {
        Side::One => 1,
        Side::Two => 2,
    }
}

/// Returns the lines of what a station indicated in this life, if it dropped nothing of that.
///
/// # Errors
///
/// An error if there is no memory for them.
fn told_now(alloc: Global, world: &Stations, side: Side) -> io::Result<Vec<u8>>
    requires { (kept_of side world.now).station.entity.state.table.gone ≡ 0 }
    ensures { IfOk result (λ told. told.items ≡ flat_map (indication_line (station_of side))
        (kept_of side world.now).station.entity.state.table.told) }
{
    let mut told = Vec::new(alloc);
    write_indications(
        &mut told,
        number_of(side),
        world.station(side).indications(),
    )?;
    Ok(told)
}

/// Returns the stores of a station that restarts: with the files that it can send, and those that
/// it published.
///
/// # Errors
///
/// `AllocError` if there is no memory for them.
fn stores_of(
    world: &Stations,
    alloc: Global,
    side: Side,
    files: &[FileLine],
) -> Result<(MemoryOutbox, MemoryInbox), AllocError>
    ensures sources { IfOk result (λ stores. stores.0 ≡ outbox_of side files.now) }
    ensures files { IfOk result (λ stores. ⟦<MemoryInbox as Inbox>⟧.published stores.1
        ≡ received side world.now) }
{
    let published = copied(world.inbox(side).published())?;
    let (one, two) = outboxes(alloc, files)?;
    let files = match side {
        Side::One => one,
        Side::Two => two,
    };
    let outbox = MemoryOutbox::with_files(files);
    Ok((outbox, MemoryInbox::with_files(alloc, published)))
}

/// Returns the number of the first frame of a station that restarts: as small as it may be. `None`
/// if there is none.
#[tactic(auto, using(crate::proofs::Noted::latest_there))]
fn first_of(world: &Stations, side: Side, life: usize) -> Option<u32>
    requires { life ≡ length (kept_of side world.now).before }
    ensures { MatchOption result (2 ^ 32 ≤ next_first (kept_of side world.now))
        (λ first. first ≡ next_first (kept_of side world.now)) }
{
    let life = world.life(side, life)?;
    let directives = life.count(Lane::Directives);
    let next = life.number(directives.max(life.count(Lane::Data)))?;
    u32::try_from(next.checked_add(1)?).ok()
}

/// Puts octets after others, for which there is room.
fn append_reserved(text: &mut Vec<u8>, more: &[u8])
    requires { vec_len text.old + length more.now ≤ vec_capacity text.old }
    ensures { text.new.items ≡ text.old.items ++ more.now }
{
    let _ = text.extend_from_slice(more);
}

/// Shows what stays of a world in which no station restarts.
fn show_onward(world: &Stations)
    ensures { (side : calls.Side) (all : List Call) (new : WorldKept) →
        Happened side all world.now new → AreNoStarts all → GoesOnward world.now new }
{
    lives_stay();
    the_files_to_send_stay();
    let _ = world.inbox(Side::One);
}

/// Shows what a restart makes of a world.
fn show_start(world: &Stations)
    ensures { (side : calls.Side) (first number : ℕ) (new : WorldKept) →
        Happened side (Restarts first number ∷ []) world.now new → Starts side world.now new }
{
    lives_stay();
    the_files_to_send_stay();
    let _ = world.inbox(Side::One);
}

/// Shows what a resume makes of a world.
fn show_resume(world: &Stations)
    ensures { (side : calls.Side) (first number : ℕ) (new : WorldKept) →
        HasResumed side first number world.now new → Resumes side world.now new }
{
    a_resume_goes_on();
    let _ = world.inbox(Side::One);
}

/// Returns how many lives before it a station has, once it begins another one.
///
/// # Errors
///
/// `AllocError` if no number has it.
fn next_life(before: &Before) -> Result<usize, AllocError>
    ensures { IfOk result (λ lives. lives ≡ before.now.lives + 1) }
{
    before.lives.checked_add(1).ok_or(AllocError)
}

/// What must be there before a station restarts: what is noted then, and its stores.
#[derive(Drop)]
struct Prepared {
    lives: usize,
    told: Vec<u8>,
    completed: u64,
    stores: (MemoryOutbox, MemoryInbox),
}

/// Makes what must be there before a station restarts.
///
/// # Errors
///
/// `AllocError` if there is no memory for it.
fn prepare(
    alloc: Global,
    world: &Stations,
    side: Side,
    before: &Before,
    files: &[FileLine],
) -> Result<Prepared, AllocError>
    requires { (kept_of side world.now).station.entity.state.table.gone ≡ 0 }
    ensures lives { IfOk result (λ p. p.lives ≡ before.now.lives + 1) }
    ensures told { IfOk result (λ p. p.told.items ≡ flat_map (indication_line (station_of side))
        (kept_of side world.now).station.entity.state.table.told) }
    ensures completed { IfOk result (λ p. p.completed ≡ before.now.completed
        + count_by (is_own_completion (station_of side))
        (kept_of side world.now).station.entity.state.table.told) }
    ensures sources { IfOk result (λ p. p.stores.0 ≡ outbox_of side files.now) }
    ensures files { IfOk result (λ p. ⟦<MemoryInbox as Inbox>⟧.published p.stores.1
        ≡ received side world.now) }
{
    let Ok(told) = told_now(alloc, world, side) else {
        return Err(AllocError);
    };
    let lives = next_life(before)?;
    let completed = before
        .completed
        .checked_add(completed_now(world, side))
        .ok_or(AllocError)?;
    Ok(Prepared {
        lives,
        told,
        completed,
        stores: stores_of(world, alloc, side, files)?,
    })
}

/// Returns how many puts of a station were indicated as complete in this life, if it dropped none
/// of its indications.
fn completed_now(world: &Stations, side: Side) -> u64
    requires { (kept_of side world.now).station.entity.state.table.gone ≡ 0 }
    ensures { result ≡ count_by (is_own_completion (station_of side))
        (kept_of side world.now).station.entity.state.table.told }
{
    own_completions(number_of(side), world.station(side).indications()) as u64
}

/// Restarts a station, and notes what it indicated. If no number is left, it tries one that was
/// used.
fn restart_at(
    alloc: Global,
    world: &mut Stations,
    side: Side,
    before: &mut Before,
    files: &[FileLine],
) -> Result<Restarted, AllocError>
    requires noted { IsNoted (station_of side) before.old.lives before.old.told.items
        before.old.completed (kept_of side world.old) }
    requires sources { HasSources files.now world.old }
    ensures happened { (first number : ℕ)
        × Happened (side_of side) (restart_calls first number result) world.old world.new
        × AnswersRestart side first number result world.old world.new }
    ensures refused { result ≢ Ok restarted.Done → world.new ≡ world.old }
    ensures noted { IsNoted (station_of side) before.new.lives before.new.told.items
        before.new.completed (kept_of side world.new) }
    ensures other { GoesOn (kept_at (other (side_of side)) world.old)
        (kept_at (other (side_of side)) world.new) }
    ensures sources { HasSources files.now world.new }
{
    let prepared = prepare(alloc, world, side, before, files)?;
    before.told.reserve(prepared.told.len())?;
    let number = before.next.unwrap_or(0);
    let first = first_of(world, side, before.lives).unwrap_or(0);
    show_start(world);
    let answer = world.restart(side, prepared.stores, number, first)?;
    if answer == Restarted::Done {
        before.lives = prepared.lives;
        before.completed = prepared.completed;
        append_reserved(&mut before.told, prepared.told.as_slice());
    }
    Ok(answer)
}

/// Resumes a station, and notes that its link has another life. If no number is left, it tries one
/// that was used.
fn resume_at(
    alloc: Global,
    world: &mut Stations,
    side: Side,
    before: &mut Before,
    files: &[FileLine],
) -> Result<Resumed, AllocError>
    requires noted { IsNoted (station_of side) before.old.lives before.old.told.items
        before.old.completed (kept_of side world.old) }
    requires sources { HasSources files.now world.old }
    ensures happened { (first : ℕ) × (number : ℕ)
        × ResumesBy result (side_of side) first number world.old world.new
        × AnswersNextLife side first number result world.old world.new }
    ensures noted { IsNoted (station_of side) before.new.lives before.new.told.items
        before.new.completed (kept_of side world.new) }
    ensures other { GoesOn (kept_at (other (side_of side)) world.old)
        (kept_at (other (side_of side)) world.new) }
    ensures sources { HasSources files.now world.new }
{
    let lives = next_life(before)?;
    let stores = stores_of(world, alloc, side, files)?;
    let number = before.next.unwrap_or(0);
    let first = first_of(world, side, before.lives).unwrap_or(0);
    show_resume(world);
    match world.resume(side, stores, number, first)? {
        Resumed::Done => {
            before.lives = lives;
            Ok(Resumed::Done)
        }
        other => Ok(other),
    }
}

impl<'a> ToldWorld<'a> {
    /// Returns two stations at which nothing was done yet, with these files to send.
    ///
    /// # Errors
    ///
    /// `AllocError` if there is no memory for them.
    pub fn new(
        alloc: Global,
        config: Valid<WorldConfig>,
        files: &'a [FileLine],
    ) -> Result<Self, AllocError>
        ensures { IfOk result (IsNewWorld config
            (outbox_of sides.One files.now, outbox_of sides.Two files.now)
            (map.empty, map.empty)) }
    {
        let (one, two) = outboxes(alloc, files)?;
        let outboxes = (MemoryOutbox::with_files(one), MemoryOutbox::with_files(two));
        let inboxes = (MemoryInbox::new(alloc), MemoryInbox::new(alloc));
        let world = UnorderedWorld::new(alloc, config, outboxes, inboxes)?;
        let config = config.get();
        Ok(ToldWorld {
            alloc,
            world,
            files,
            one: Before::none(alloc, config.one.entity.first_number),
            two: Before::none(alloc, config.two.entity.first_number),
        })
    }

    /// Drops both stations.
    pub fn close(self) {
        let ToldWorld { world, .. } = self;
        world.close();
    }

    /// Does as `UnorderedWorld::put`.
    ///
    /// # Errors
    ///
    /// The errors of that call.
    pub fn put(
        &mut self,
        side: Side,
        source: &[u8],
        destination: &[u8],
    ) -> Result<TransactionId, PutError>
        ensures { Happened (side_of side) (put_calls source.now destination.now result) self.old
            self.new }
    {
        show_onward(&self.world);
        let id = self.world.put(side, source, destination)?;
        let next = id.number.checked_add(1);
        match side {
            Side::One => self.one.next = next,
            Side::Two => self.two.next = next,
        }
        Ok(id)
    }

    /// Does as `UnorderedWorld::request`.
    ///
    /// # Errors
    ///
    /// The errors of that call.
    pub fn request(
        &mut self,
        side: Side,
        id: TransactionId,
        request: Request,
    ) -> Result<(), RequestError>
        ensures { Happened (side_of side) (request_calls id request result) self.old self.new }
    {
        show_onward(&self.world);
        self.world.request(side, id, request)
    }

    /// Does as `UnorderedWorld::tick`.
    ///
    /// # Errors
    ///
    /// The errors of that call.
    pub fn tick(&mut self, side: Side, now: u64) -> Result<(), AllocError>
        ensures { Happened (side_of side) (tick_calls now result) self.old self.new }
    {
        show_onward(&self.world);
        self.world.tick(side, now)
    }

    /// Does as `UnorderedWorld::poll`.
    ///
    /// # Errors
    ///
    /// The errors of that call.
    pub fn poll(&mut self, side: Side) -> Result<Polled, AllocError>
        ensures { (calls : List Call) × ArePollCalls result calls
            × Happened (side_of side) calls self.old self.new }
    {
        show_onward(&self.world);
        self.world.poll(side)
    }

    /// Does as `UnorderedWorld::flush`.
    ///
    /// # Errors
    ///
    /// The errors of that call.
    pub fn flush(&mut self, side: Side) -> Result<(), AllocError>
        ensures { (calls : List Call) × AreFlushCalls calls
            × Happened (side_of side) calls self.old self.new }
    {
        show_onward(&self.world);
        self.world.flush(side)
    }

    /// Does as `UnorderedWorld::deliver`.
    pub fn deliver(&mut self, side: Side, which: SentFrame) -> Delivered
        ensures happened { Happened (other (side_of side)) (deliver_calls which result) self.old
            self.new }
        ensures answers { AnswersFrame result which (kept_of side self.old)
            (kept_at (other (side_of side)) self.old) (self.new ≡ self.old) }
    {
        show_onward(&self.world);
        self.world.deliver(side, which)
    }

    /// Does as `UnorderedWorld::deliver_octets`.
    pub fn deliver_octets(&mut self, side: Side, octets: &[u8]) -> bool
        ensures happened { Happened (other (side_of side)) (octets_calls octets.now result) self.old
            self.new }
        ensures answers { AnswersOctets result octets.now
            (setup_of (other (side_of side)) (setup self.old.config)).receives
            (self.new ≡ self.old) }
    {
        show_onward(&self.world);
        self.world.deliver_octets(side, octets)
    }

    /// Restarts a station, with the files that it can send and those that it published. Its puts
    /// are numbered from the next number on, and one number of its frames is left out. Nothing
    /// changes unless it returns `Done`: `NumberUsed` if no number of a put is left, `FrameUsed` if
    /// none of a frame is.
    ///
    /// # Errors
    ///
    /// `AllocError` if there is no memory for the station, or for what must be kept.
    pub fn restart(&mut self, side: Side) -> Result<Restarted, AllocError>
        ensures happened { (first number : ℕ)
            × Happened (side_of side) (restart_calls first number result) self.old self.new
            × AnswersRestart side first number result self.old self.new }
        ensures refused { result ≢ Ok restarted.Done → self.new ≡ self.old }
    {
        let (alloc, files) = (self.alloc, self.files);
        let world = &mut self.world;
        match side {
            Side::One => restart_at(alloc, world, side, &mut self.one, files),
            Side::Two => restart_at(alloc, world, side, &mut self.two, files),
        }
    }

    /// Kills a station and resumes it, with its transactions, the files that it can send and those
    /// that it published. Its numbers are as after a restart. Nothing changes unless it returns
    /// `Done`: `NumberUsed` if no number of a put is left, `FrameUsed` if none of a frame is.
    ///
    /// # Errors
    ///
    /// `AllocError` if there is no memory for the station.
    pub fn resume(&mut self, side: Side) -> Result<Resumed, AllocError>
        ensures { (first : ℕ) × (number : ℕ)
            × ResumesBy result (side_of side) first number self.old self.new
            × AnswersNextLife side first number result self.old self.new }
    {
        let (alloc, files) = (self.alloc, self.files);
        let world = &mut self.world;
        match side {
            Side::One => resume_at(alloc, world, side, &mut self.one, files),
            Side::Two => resume_at(alloc, world, side, &mut self.two, files),
        }
    }

    /// Returns a station, borrowed.
    fn station(&self, side: Side) -> &Station<MemoryOutbox, MemoryInbox>
        ensures { result.now ≡ (kept_of side self.now).station }
    {
        self.world.station(side)
    }

    /// Returns what was noted of its lives before, borrowed.
    fn before(&self, side: Side) -> &Before
        ensures { IsNoted (station_of side) result.now.lives result.now.told.items
            result.now.completed (kept_of side self.now) }
    {
        match side {
            Side::One => &self.one,
            Side::Two => &self.two,
        }
    }

    /// Returns how many frames a station made in this life.
    pub fn made(&self, side: Side) -> Made
        ensures life { result.life ≡ length (kept_of side self.now).before }
        ensures directives { result.directives
            ≡ length (kept_of side self.now).latest.directives }
        ensures file_data { result.file_data ≡ length (kept_of side self.now).latest.file_data }
    {
        let life = self.before(side).lives;
        match self.world.life(side, life) {
            Some(frames) => Made {
                life,
                directives: frames.count(Lane::Directives),
                file_data: frames.count(Lane::Data),
            },
            None => Made {
                life,
                directives: 0,
                file_data: 0,
            },
        }
    }

    /// Returns the octets of a frame that a station made; `None` if it made no such frame.
    pub fn frame(&self, side: Side, which: SentFrame) -> Option<&[u8]>
        ensures { IfSome result (λ octets. IsFrame which octets.now (kept_of side self.now)) }
    {
        self.world
            .life(side, which.life)?
            .frame(which.lane, which.place)
    }

    /// Returns the earliest deadline of a station's timers, those of Inactivity apart; `None` if
    /// none but these is armed.
    pub fn next_deadline(&self, side: Side) -> Option<u64>
        ensures { MatchOption result
            (OnlyInactivity (kept_of side self.now).station.entity.state.table.armed)
            (λ deadline. IsLeastOther (kept_of side self.now).station.entity.state.table.armed
            deadline) }
    {
        self.station(side).next_deadline()
    }

    /// Returns the files that a station published. The promise holds of the world.
    pub fn received(&self, side: Side) -> &Files
        ensures files { result.now ≡ received side self.now }
        ensures promised { KeepsPromise self.now }
    {
        self.world.inbox(side).published()
    }

    /// Writes a line for all that a station indicated, in all its lives.
    ///
    /// # Errors
    ///
    /// The error of the writer, if it fails.
    pub fn write_told<W: Write>(&self, out: &mut W, side: Side) -> io::Result<()>
        ensures { OnOk result (Appends (W.contents out.old) (W.contents out.new)
            (flat_map (indication_line (station_of side)) (told_ever side self.now))) }
    {
        out.write_all(self.before(side).told.as_slice())?;
        write_indications(out, number_of(side), self.station(side).indications())
    }

    /// Returns how many puts of a station were indicated as complete, in all its lives.
    pub fn completed(&self, side: Side) -> u128
        ensures bound { result < 2 ^ 65 }
        ensures is { result
            ≡ count_by (is_own_completion (station_of side)) (told_ever side self.now) }
    {
        let now = own_completions(number_of(side), self.station(side).indications());
        u128::from(self.before(side).completed) + now as u128
    }
}

impl Before {
    /// Returns what is noted before the first life; the first put has this number.
    fn none(alloc: Global, first_number: u64) -> Before
        ensures lives { result.lives ≡ 0 }
        ensures told { result.told.items ≡ [] }
        ensures completed { result.completed ≡ 0 }
    {
        Before {
            lives: 0,
            told: Vec::new(alloc),
            completed: 0,
            next: Some(first_number),
        }
    }
}
