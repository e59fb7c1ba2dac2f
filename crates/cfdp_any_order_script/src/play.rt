//! Two stations over any link, as a script drives them: the world, and which frames wait.
ghost use Rattle.std.specs.FinMap as map;
ghost use Rattle.std.specs.Prelude.{◌≡◌, ◌<◌, IfOk, Some, slice_get, vec_capacity, vec_len};
ghost use Rattle.station_pair.specs.declared.side.Side.TheVariants as sides;
ghost use Rattle.any_order.specs.World.{IsNewWorld, WorldKept};
ghost use Rattle.cfdp_script.specs.Script.Outboxes.{outbox_of};
ghost use Rattle.cfdp_any_order_script.specs.Links.{no_frames, shown};
ghost use Rattle.cfdp_any_order_script.specs.Performing as answers;
ghost use Rattle.cfdp_any_order_script.specs.Performing.{Asks, At, ComesAgain, ComesDamaged};
ghost use Rattle.cfdp_any_order_script.specs.Performing.{ComesFrom, behind_delivery, part_of};
ghost use Rattle.cfdp_any_order_script.specs.Performing.{FlushesOnce, GoesOn, HappensOnce, Loses};
ghost use Rattle.cfdp_any_order_script.specs.Performing.{PlayState, PollsOnce, StartsAnew, made_by};
ghost use Rattle.link_sim.specs.declared.event.Event.TheVariants as events;

use crate::answer::Answer;
use crate::links::{Frames, arrived_back, waiting_behind};
use crate::told::ToldWorld;
use any_order::{Delivered, Restarted, Resumed, SentFrame};
use aos_frame::Lane;
use cfdp_directives::Octets;
use cfdp_entity::Request;
use cfdp_header::TransactionId;
use cfdp_script::{Damage, FileLine, damaged};
use cfdp_station::{Polled, PutError, RequestError};
use link_sim::{Event, Refusal, Side, WorldConfig};
use std::alloc::{AllocError, Global};
use std::marker::Model;
use valid_config::Valid;

/// Two stations over any link, and the frames of each that wait and that arrived.
#[derive(Drop)]
pub struct Play<'a> {
    pub alloc: Global,
    pub world: ToldWorld<'a>,
    pub one: Frames,
    pub two: Frames,
}

impl<'a> Model for Play<'a> {
    ghost use Rattle.cfdp_entity.specs.Coded.{state_codes};
    ghost use Rattle.cfdp_any_order_script.specs.Performing.{PlayState};

    ghost Value = { PlayState };

    ghost coded = { Prim.hlevel (state_codes) };

    ghost view = { λ p. record {
      world = p.world;
      one = record { waiting = p.one.waiting.items; arrived = p.one.arrived.items };
      two = record { waiting = p.two.waiting.items; arrived = p.two.arrived.items };
    } };
}

/// What comes in the place of a frame.
#[derive(Clone, Copy)]
pub enum Instead<'a> {
    /// It, with an octet replaced.
    Damaged(Damage),
    /// These octets.
    Octets(&'a [u8]),
}

/// Returns the answer of a delivery.
fn arrival_answer(by: Delivered) -> Option<Answer>
    ensures { result ≡ answers.arrival_answer by }
{
    match by {
        Delivered::Taken => None,
        Delivered::NoSuchFrame => Some(Answer::NoSuchFrame),
        Delivered::TooFar => Some(Answer::TooFar),
    }
}

/// Returns the answer of a put.
fn put_answer(put: Result<TransactionId, PutError>) -> Option<Answer>
    ensures { result ≡ answers.put_answer put }
{
    match put {
        Ok(_) => None,
        Err(error) => Some(Answer::Usual(cfdp_report::Answer::Refused(Refusal::Put(error)))),
    }
}

/// Returns the answer of a request about a transaction.
fn request_answer(called: Result<(), RequestError>) -> Option<Answer>
    ensures { result ≡ answers.request_answer called }
{
    match called {
        Ok(()) => None,
        Err(error) => Some(Answer::Usual(cfdp_report::Answer::Refused(Refusal::Call(error)))),
    }
}

/// Returns the answer of a tick.
fn tick_answer(told: Result<(), AllocError>) -> Option<Answer>
    ensures { result ≡ answers.tick_answer told }
{
    match told {
        Ok(()) => None,
        Err(AllocError) => Some(Answer::NO_MEMORY),
    }
}

/// Returns the answer of a poll.
fn poll_answer(polled: Result<Polled, AllocError>) -> Option<Answer>
    ensures { result ≡ answers.poll_answer polled }
{
    match polled {
        Ok(Polled::Moved | Polled::SourceFailed) => None,
        Ok(Polled::Nothing | Polled::Full) => Some(Answer::NOTHING),
        Err(AllocError) => Some(Answer::NO_MEMORY),
    }
}

/// Returns the answer of a flush, by whether it made a frame.
fn flush_answer(flushed: Result<(), AllocError>, any: bool) -> Option<Answer>
    ensures { result ≡ answers.flush_answer flushed any }
{
    match flushed {
        Ok(()) if any => None,
        Ok(()) => Some(Answer::NOTHING),
        Err(AllocError) => Some(Answer::NO_MEMORY),
    }
}

/// Returns the answer of a restart.
fn start_answer(started: Result<Restarted, AllocError>) -> Option<Answer>
    ensures { result ≡ answers.start_answer started }
{
    match started {
        Ok(Restarted::Done) => None,
        Ok(Restarted::NumberUsed) => Some(Answer::NumbersSpent),
        Ok(Restarted::FrameUsed) => Some(Answer::FramesSpent),
        Err(AllocError) => Some(Answer::NO_MEMORY),
    }
}

/// Returns the answer of a resume.
fn resume_answer(resumed: Result<Resumed, AllocError>) -> Option<Answer>
    ensures { result ≡ answers.resume_answer resumed }
{
    match resumed {
        Ok(Resumed::Done) => None,
        Ok(Resumed::NumberUsed) => Some(Answer::NumbersSpent),
        Ok(Resumed::FrameUsed) => Some(Answer::FramesSpent),
        Ok(Resumed::NotRestored(_)) => Some(Answer::NotRestored),
        Err(AllocError) => Some(Answer::NO_MEMORY),
    }
}

/// Notes what becomes of a waiting frame after its delivery: if it was taken, it waits no more, and
/// is the last one that arrived.
fn move_on(frames: &mut Frames, place: usize, frame: SentFrame, by: Delivered)
    requires there { slice_get frames.old.waiting.items place ≡ Some frame }
    requires room { vec_len frames.old.arrived < vec_capacity frames.old.arrived }
    ensures { shown frames.new ≡ behind_delivery by frame place (shown frames.old) }
{
    match by {
        Delivered::Taken => {
            let _ = frames.waiting.remove(place);
            frames.arrived.push_reserved(frame);
        }
        Delivered::NoSuchFrame | Delivered::TooFar => {}
    }
}

/// Lets the waiting frame of a station arrive at the other one that has `before` frames of its
/// lane, or of both, before it; if there is none, `none` is answered.
fn arrive(
    world: &mut ToldWorld<'_>,
    frames: &mut Frames,
    from: Side,
    lane: Option<Lane>,
    before: u64,
    none: Answer,
) -> Option<Answer>
    ensures { ComesFrom none from lane before result (part_of world.old frames.old)
        (part_of world.new frames.new) }
{
    let Some((place, frame)) = waiting_behind(&frames.waiting, lane, before) else {
        return Some(none);
    };
    if frames.arrived.reserve(1).is_err() {
        return Some(Answer::NO_MEMORY);
    }
    let by = world.deliver(from, frame);
    move_on(frames, place, frame, by);
    arrival_answer(by)
}

/// Loses the oldest waiting frame of a lane, or of both.
fn lose(frames: &mut Frames, lane: Option<Lane>) -> Option<Answer>
    ensures { (w : WorldKept) → Loses lane result (part_of w frames.old) (part_of w frames.new) }
{
    let Some((place, _)) = waiting_behind(&frames.waiting, lane, 0) else {
        return Some(Answer::NOTHING);
    };
    let _ = frames.waiting.remove(place);
    None
}

/// Lets octets come in the place of the oldest waiting frame of a lane, or of both.
fn damage(
    alloc: Global,
    world: &mut ToldWorld<'_>,
    frames: &mut Frames,
    from: Side,
    lane: Option<Lane>,
    instead: Instead<'_>,
) -> Option<Answer>
    ensures { ComesDamaged (made_by instead.entry) from lane result (part_of world.old frames.old)
        (part_of world.new frames.new) }
{
    let Some((place, frame)) = waiting_behind(&frames.waiting, lane, 0) else {
        return Some(Answer::NOTHING);
    };
    let Some(octets) = world.frame(from, frame) else {
        return Some(Answer::NoSuchFrame);
    };
    let Ok(octets) = instead.of(alloc, octets) else {
        return Some(Answer::NO_MEMORY);
    };
    if !world.deliver_octets(from, octets.as_slice()) {
        let refused = cfdp_report::Answer::Refused(Refusal::NotDamaged);
        return Some(Answer::Usual(refused));
    }
    let _ = frames.waiting.remove(place);
    None
}

/// Lets the frame that arrived `back` frames ago arrive again.
fn again(
    world: &mut ToldWorld<'_>,
    frames: &Frames,
    from: Side,
    lane: Option<Lane>,
    back: u64,
) -> Option<Answer>
    ensures { ComesAgain from lane back result (part_of world.old frames.now)
        (part_of world.new frames.now) }
{
    if back < 1 {
        return Some(Answer::NoSuchFrame);
    }
    match arrived_back(frames.arrived.as_slice(), lane, back) {
        Some(frame) => arrival_answer(world.deliver(from, frame)),
        None => Some(Answer::NoSuchFrame),
    }
}

/// Polls a station, and lets its frames wait.
fn poll(alloc: Global, world: &mut ToldWorld<'_>, frames: &mut Frames, side: Side) -> Option<Answer>
    ensures { PollsOnce side result (part_of world.old frames.old)
        (part_of world.new frames.new) }
{
    let before = world.made(side);
    let polled = world.poll(side);
    let Ok(_any) = frames.note(alloc, before, world.made(side)) else {
        return Some(Answer::NO_MEMORY);
    };
    poll_answer(polled)
}

/// Flushes a station, and lets its frames wait.
fn flush(
    alloc: Global,
    world: &mut ToldWorld<'_>,
    frames: &mut Frames,
    side: Side,
) -> Option<Answer>
    ensures { FlushesOnce side result (part_of world.old frames.old)
        (part_of world.new frames.new) }
{
    let before = world.made(side);
    let flushed = world.flush(side);
    let Ok(any) = frames.note(alloc, before, world.made(side)) else {
        return Some(Answer::NO_MEMORY);
    };
    flush_answer(flushed, any)
}

impl Instead<'_> {
    /// Returns what comes in the place of this frame.
    fn of(self, alloc: Global, frame: &[u8]) -> Result<Octets, AllocError>
        ensures { IfOk result (λ octets. octets ≡ made_by self.entry frame.now) }
    {
        match self {
            Instead::Damaged(damage) => damaged(alloc, frame, damage),
            Instead::Octets(octets) => Octets::copied(alloc, octets),
        }
    }
}

impl<'a> Play<'a> {
    /// Returns two stations at which nothing was done yet, with these files to send.
    ///
    /// # Errors
    ///
    /// `AllocError` if there is no memory for them.
    pub fn new(
        alloc: Global,
        config: Valid<WorldConfig>,
        files: &'a [FileLine],
    ) -> Result<Self, AllocError>
        ensures world { IfOk result (λ p. IsNewWorld config
            (outbox_of sides.One files.now, outbox_of sides.Two files.now)
            (map.empty, map.empty) p.world) }
        ensures one { IfOk result (λ p. p.one ≡ no_frames) }
        ensures two { IfOk result (λ p. p.two ≡ no_frames) }
    {
        Ok(Play {
            alloc,
            world: ToldWorld::new(alloc, config, files)?,
            one: Frames::new(alloc),
            two: Frames::new(alloc),
        })
    }

    /// Drops both stations and their frames.
    pub fn close(self) {
        let Play { world, .. } = self;
        world.close();
    }

    /// Lets an event happen, of a lane the oldest waiting frame. Returns why it didn't, if so.
    pub fn once(&mut self, event: &Event) -> Option<Answer>
        ensures { HappensOnce event.now result self.old self.new }
    {
        match event {
            Event::Put {
                at,
                source,
                destination,
            } => self.put(*at, source, destination),
            Event::Cancel { at, id } => self.ask(*at, *id, Request::Cancel),
            Event::Suspend { at, id } => self.ask(*at, *id, Request::Suspend),
            Event::Resume { at, id } => self.ask(*at, *id, Request::Resume),
            Event::Prompt { at, id, keep_alive } => {
                let keep_alive = *keep_alive;
                self.ask(*at, *id, Request::Prompt { keep_alive })
            }
            Event::Poll(side) => self.poll(*side),
            Event::Flush(side) => self.flush(*side),
            Event::Tick { at, now } => self.tick(*at, *now),
            Event::Deliver(side, lane) => self.arrive(*side, Some(*lane), 0, Answer::NOTHING),
            Event::Strike(side, lane) => self.lose(*side, Some(*lane)),
            Event::Damage { side, lane, octets } => {
                self.damage(*side, Some(*lane), Instead::Octets(octets.as_slice()))
            }
        }
    }

    fn put(&mut self, at: Side, source: &Octets, destination: &Octets) -> Option<Answer>
        ensures { HappensOnce (events.Put at source.now destination.now) result self.old self.new }
    {
        put_answer(
            self.world
                .put(at, source.as_slice(), destination.as_slice()),
        )
    }

    fn ask(&mut self, at: Side, id: TransactionId, request: Request) -> Option<Answer>
        ensures { Asks at id request result self.old self.new }
    {
        request_answer(self.world.request(at, id, request))
    }

    fn tick(&mut self, at: Side, now: u64) -> Option<Answer>
        ensures { HappensOnce (events.Tick at now) result self.old self.new }
    {
        tick_answer(self.world.tick(at, now))
    }

    fn poll(&mut self, side: Side) -> Option<Answer>
        ensures { At side (PollsOnce side result) self.old self.new }
    {
        match side {
            Side::One => poll(self.alloc, &mut self.world, &mut self.one, side),
            Side::Two => poll(self.alloc, &mut self.world, &mut self.two, side),
        }
    }

    fn flush(&mut self, side: Side) -> Option<Answer>
        ensures { At side (FlushesOnce side result) self.old self.new }
    {
        match side {
            Side::One => flush(self.alloc, &mut self.world, &mut self.one, side),
            Side::Two => flush(self.alloc, &mut self.world, &mut self.two, side),
        }
    }

    /// Lets the waiting frame arrive that has `before` frames of its lane, or of both, before it.
    /// Returns why it didn't, if so, and `none` if fewer wait.
    pub fn arrive(
        &mut self,
        from: Side,
        lane: Option<Lane>,
        before: u64,
        none: Answer,
    ) -> Option<Answer>
        ensures { At from (ComesFrom none from lane before result) self.old self.new }
    {
        let world = &mut self.world;
        match from {
            Side::One => arrive(world, &mut self.one, from, lane, before, none),
            Side::Two => arrive(world, &mut self.two, from, lane, before, none),
        }
    }

    /// Loses the oldest waiting frame of a lane, or of both. Returns why it wasn't lost, if so.
    pub fn lose(&mut self, from: Side, lane: Option<Lane>) -> Option<Answer>
        ensures { At from (Loses lane result) self.old self.new }
    {
        match from {
            Side::One => lose(&mut self.one, lane),
            Side::Two => lose(&mut self.two, lane),
        }
    }

    /// Lets octets come in the place of the oldest waiting frame of a lane, or of both. Returns why
    /// they didn't, if so.
    pub fn damage(&mut self, from: Side, lane: Option<Lane>, instead: Instead<'_>) -> Option<Answer>
        ensures { At from (ComesDamaged (made_by instead.entry) from lane result) self.old self.new }
    {
        let world = &mut self.world;
        match from {
            Side::One => damage(self.alloc, world, &mut self.one, from, lane, instead),
            Side::Two => damage(self.alloc, world, &mut self.two, from, lane, instead),
        }
    }

    /// Lets the frame of a lane, or of both, that arrived `back` frames ago, arrive again. Returns
    /// why it didn't, if so.
    pub fn again(&mut self, from: Side, lane: Option<Lane>, back: u64) -> Option<Answer>
        ensures { At from (ComesAgain from lane back result) self.old self.new }
    {
        match from {
            Side::One => again(&mut self.world, &self.one, from, lane, back),
            Side::Two => again(&mut self.world, &self.two, from, lane, back),
        }
    }

    /// Restarts a station. Returns why it didn't, if so.
    pub fn restart(&mut self, side: Side) -> Option<Answer>
        ensures { StartsAnew side result self.old self.new }
    {
        start_answer(self.world.restart(side))
    }

    /// Kills a station, and resumes it. Returns why it didn't, if so.
    pub fn resume(&mut self, side: Side) -> Option<Answer>
        ensures { GoesOn side result self.old self.new }
    {
        resume_answer(self.world.resume(side))
    }
}
