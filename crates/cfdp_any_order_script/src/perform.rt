//! What each command of a script does over any link.
ghost use Rattle.std.specs.Prelude.{◌≡◌, ◌≤◌, None, Some, true, false, IfErr, IfOk, MatchOption};
ghost use Rattle.std.specs.Result.{result_err};
ghost use Rattle.link_sim.specs.declared.event.Event.TheVariants as events;
ghost use Rattle.cfdp_any_order_script.specs.Performing.{BefallsFirst, Bursts, HappensOnce};
ghost use Rattle.cfdp_any_order_script.specs.Performing.{IsNext, IsOther, IsRecovered, Often};
ghost use Rattle.cfdp_any_order_script.specs.Performing.{Performs, PerformsDisorder, PollsAll};
ghost use Rattle.cfdp_any_order_script.specs.Performing.{PollsAndFlushes, Recovers, RecoversOnce};
ghost use Rattle.cfdp_any_order_script.specs.Performing.{RoundEnds, SendingEnds, Settles, Spreads};
ghost use Rattle.cfdp_any_order_script.specs.Performing.{next_turn, nothing, turn_event};

use crate::answer::Answer;
use crate::play::{Instead, Play};
use aos_frame::Lane;
use cfdp_script::{Command, Disorder, Fate};
use link_sim::{Event, Side};

/// The most events of a command that goes on until nothing is left to do.
const MOST_EVENTS: u64 = 1_000_000;

/// The most rounds of a recovery: three for each record that two full tables hold.
const MOST_ROUNDS: u64 = 24_576;

/// Does what a command says. Returns why it wasn't done, or not to its end, if so: the first answer
/// of an event that isn't that it happened ends the command.
pub fn perform(play: &mut Play<'_>, command: &Command) -> Option<Answer>
    ensures { Performs command.now result play.old play.new }
{
    match command {
        Command::Once(event) => play.once(event),
        Command::Repeat(event, count) => repeat(play, event, *count),
        Command::First { fate, from, count } => repeat_first(play, *fate, *from, *count),
        Command::Damage { from, lane, damage } => {
            play.damage(*from, *lane, Instead::Damaged(*damage))
        }
        Command::Spread(side) => spread(play, *side).err(),
        Command::Burst(side) => burst(play, *side).err(),
        Command::Settle => settle(play).err(),
        Command::Recover => recover(play).err(),
        Command::Disorder(what) => disorder(play, *what),
    }
}

/// Lets a frame arrive before others or once more, or restarts or resumes a station.
fn disorder(play: &mut Play<'_>, what: Disorder) -> Option<Answer>
    ensures { PerformsDisorder what result play.old play.new }
{
    match what {
        Disorder::Overtake(pick) => {
            play.arrive(pick.from, pick.lane, pick.number, Answer::NoSuchFrame)
        }
        Disorder::Again(pick) => play.again(pick.from, pick.lane, pick.number),
        Disorder::Restart(side) => play.restart(side),
        Disorder::Resume(side) => play.resume(side),
    }
}

/// Lets an event happen `count` times. Returns why it didn't, if so, and after how many.
fn repeat(play: &mut Play<'_>, event: &Event, count: u64) -> Option<Answer>
    ensures { Often (HappensOnce event.now) count result play.old play.new }
{
    for done in 0..count {
        if let Some(answer) = play.once(event) {
            return Some(answer.told_after(done));
        }
    }
    None
}

/// Lets that happen to the oldest waiting frame of both lanes. Returns why it didn't, if so.
fn once_first(play: &mut Play<'_>, fate: Fate, from: Side) -> Option<Answer>
    ensures { BefallsFirst fate from result play.old play.new }
{
    match fate {
        Fate::Arrives => play.arrive(from, None, 0, Answer::NOTHING),
        Fate::IsLost => play.lose(from, None),
    }
}

/// Lets that happen to `count` frames, one by one. Returns why it didn't, if so, and how often it
/// did.
fn repeat_first(play: &mut Play<'_>, fate: Fate, from: Side, count: u64) -> Option<Answer>
    ensures { Often (BefallsFirst fate from) count result play.old play.new }
{
    for done in 0..count {
        if let Some(answer) = once_first(play, fate, from) {
            return Some(answer.told_after(done));
        }
    }
    None
}

/// Returns the event of a turn of a settling.
#[tactic(auto, using(crate::proofs::Ending::last_turn))]
fn turn_event(turn: u8) -> Event
    ensures { result ≡ turn_event turn }
{
    match turn {
        0 => Event::Poll(Side::One),
        1 => Event::Flush(Side::One),
        2 => Event::Poll(Side::Two),
        3 => Event::Flush(Side::Two),
        4 => Event::Deliver(Side::One, Lane::Directives),
        5 => Event::Deliver(Side::One, Lane::Data),
        6 => Event::Deliver(Side::Two, Lane::Directives),
        _ => Event::Deliver(Side::Two, Lane::Data),
    }
}

/// Lets an event happen, if there is anything to do for it. Returns whether there was.
///
/// # Errors
///
/// Any other answer of the event.
fn attempt(play: &mut Play<'_>, event: &Event) -> Result<bool, Answer>
    ensures done { IfOk result (λ moved. moved ≡ true
        → HappensOnce event.now None play.old play.new) }
    ensures idle { IfOk result (λ moved. moved ≡ false
        → HappensOnce event.now (Some nothing) play.old play.new) }
    ensures other { IfErr result IsOther }
    ensures ends { IfErr result (λ why. HappensOnce event.now (Some why) play.old play.new) }
{
    match play.once(event) {
        None => Ok(true),
        Some(answer) if answer.is_nothing() => Ok(false),
        Some(answer) => Err(answer),
    }
}

/// Polls, flushes and delivers by turns, each until there is nothing to do for it, until there is
/// nothing to do for all eight in a row.
///
/// # Errors
///
/// The first other answer of an event; `TooLong`.
fn settle(play: &mut Play<'_>) -> Result<(), Answer>
    ensures { Settles (result_err result) play.old play.new }
{
    let mut turn = 0;
    let mut idle: u8 = 0;
    for _done in 0..MOST_EVENTS {
        if attempt(play, &turn_event(turn))? {
            idle = 0;
        } else {
            idle += 1;
            turn = next_turn(turn);
            if idle == 8 {
                return Ok(());
            }
        }
    }
    Err(Answer::TooLong)
}

/// Returns the turn after one.
fn next_turn(turn: u8) -> u8
    requires { turn ≤ 7 }
    ensures is { result ≡ next_turn turn }
    ensures bound { result ≤ 7 }
{
    if turn < 7 { turn + 1 } else { 0 }
}

/// Polls a station, and flushes it if that did something. Returns whether it did.
///
/// # Errors
///
/// Any other answer of the poll or the flush.
fn spread_once(play: &mut Play<'_>, side: Side) -> Result<bool, Answer>
    ensures done { IfOk result (λ moved. moved ≡ true → PollsAndFlushes side play.old play.new) }
    ensures idle { IfOk result (λ moved. moved ≡ false
        → HappensOnce (events.Poll side) (Some nothing) play.old play.new) }
    ensures ends { IfErr result (λ why. SendingEnds side why play.old play.new) }
{
    if !attempt(play, &Event::Poll(side))? {
        return Ok(false);
    }
    let _any = attempt(play, &Event::Flush(side))?;
    Ok(true)
}

/// Polls a station until nothing is due there, and flushes it after each PDU.
///
/// # Errors
///
/// Any other answer of a poll or a flush; `TooLong`.
fn spread(play: &mut Play<'_>, side: Side) -> Result<(), Answer>
    ensures { Spreads side (result_err result) play.old play.new }
{
    for _done in 0..MOST_EVENTS {
        if !spread_once(play, side)? {
            return Ok(());
        }
    }
    Err(Answer::TooLong)
}

/// Polls a station until nothing is due there.
///
/// # Errors
///
/// Any other answer of a poll; `TooLong`.
fn poll_all(play: &mut Play<'_>, side: Side) -> Result<(), Answer>
    ensures { PollsAll side (result_err result) play.old play.new }
{
    for _done in 0..MOST_EVENTS {
        if !attempt(play, &Event::Poll(side))? {
            return Ok(());
        }
    }
    Err(Answer::TooLong)
}

/// Polls a station until nothing is due there, and flushes it once.
///
/// # Errors
///
/// Any other answer of a poll or of the flush; `TooLong`.
fn burst(play: &mut Play<'_>, side: Side) -> Result<(), Answer>
    ensures { Bursts side (result_err result) play.old play.new }
{
    poll_all(play, side)?;
    let _any = attempt(play, &Event::Flush(side))?;
    Ok(())
}

/// Returns the station that is given the time next, and which; `None` if no timer is armed except
/// those of Inactivity.
fn next_tick(play: &Play<'_>) -> Option<(Side, u64)>
    ensures { MatchOption result (IsRecovered play.now) (λ next. IsNext next.0 next.1 play.now) }
{
    if let Some(now) = play.world.next_deadline(Side::One) {
        return Some((Side::One, now));
    }
    let now = play.world.next_deadline(Side::Two)?;
    Some((Side::Two, now))
}

/// Gives a station the time that is next, and settles. Returns whether a timer was armed other than
/// Inactivity.
///
/// # Errors
///
/// Any other answer of the tick, and those of settling.
fn recover_once(play: &mut Play<'_>) -> Result<bool, Answer>
    ensures done { IfOk result (λ any. any ≡ true → RecoversOnce play.old play.new) }
    ensures none { IfOk result (λ any. any ≡ false
        → IsRecovered play.old × (play.new ≡ play.old)) }
    ensures ends { IfErr result (λ why. RoundEnds why play.old play.new) }
{
    let Some((at, now)) = next_tick(play) else {
        return Ok(false);
    };
    match play.once(&Event::Tick { at, now }) {
        None => {
            settle(play)?;
            Ok(true)
        }
        Some(answer) => Err(answer),
    }
}

/// Settles, and gives stations the time and settles again, until no timer is armed except those of
/// Inactivity.
///
/// # Errors
///
/// Those of settling and of a round; `StillArmed`.
fn recover(play: &mut Play<'_>) -> Result<(), Answer>
    ensures { Recovers (result_err result) play.old play.new }
{
    settle(play)?;
    for _round in 0..MOST_ROUNDS {
        if !recover_once(play)? {
            return Ok(());
        }
    }
    match next_tick(play) {
        Some(_) => Err(Answer::STILL_ARMED),
        None => Ok(()),
    }
}
