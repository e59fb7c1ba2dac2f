ghost use Rattle.std.specs.Prelude.{◌≡◌, IfOk};
ghost use Rattle.link_sim.specs.declared.event.Event.{Event};
ghost use Rattle.cfdp_script.specs.Script.Run.{HappensOften, HappensOnce, HappensToFirst};
ghost use Rattle.cfdp_script.specs.Script.Run.{HappensToFirsts, Performs};
ghost use Rattle.cfdp_script.specs.Script.Run.{ComesAs, HappensDamaged, IsDamagedIn, damaged};

use crate::script::command::{Command, Damage, Fate};
use cfdp_directives::Octets;
use cfdp_report::Answer;
use link_sim::{Applied, Event, Lane, RecoverError, Side, Stations};
use std::alloc::{AllocError, Global};

/// Does what a command says. Returns why it wasn't done, or not to its end, if so: the first answer
/// of an event that isn't that it happened ends the command.
pub fn perform<S: Stations>(alloc: Global, stations: &mut S, command: &Command) -> Option<Answer>
    ensures { Performs command.now result (S.world stations.old) (S.world stations.new) }
{
    match command {
        Command::Once(event) => once(stations, event),
        Command::Repeat(event, count) => repeat(stations, event, *count),
        Command::First { fate, from, count } => repeat_first(stations, *fate, *from, *count),
        Command::Damage { from, lane, damage } => {
            damage_oldest(alloc, stations, *from, *lane, *damage)
        }
        Command::Spread(side) => match stations.spread(*side) {
            Ok(()) => None,
            Err(AllocError) => Some(Answer::NO_MEMORY),
        },
        Command::Burst(side) => match stations.burst(*side) {
            Ok(()) => None,
            Err(AllocError) => Some(Answer::NO_MEMORY),
        },
        Command::Settle => match stations.settle() {
            Ok(()) => None,
            Err(error) => Some(Answer::Ended(RecoverError::Settle(error))),
        },
        Command::Recover => match stations.recover() {
            Ok(()) => None,
            Err(error) => Some(Answer::Ended(error)),
        },
        // A world that keeps the order of its frames does none of it.
        Command::Disorder(_) => Some(Answer::Nothing { after: 0 }),
    }
}

/// Lets an event happen. Returns why it didn't, if so.
fn once<S: Stations>(stations: &mut S, event: &Event) -> Option<Answer>
    ensures { HappensOnce event.now result (S.world stations.old) (S.world stations.new) }
{
    match stations.apply(event) {
        Ok(Applied::Applied) => None,
        Ok(Applied::Nothing) => Some(Answer::Nothing { after: 0 }),
        Ok(Applied::Refused(refusal)) => Some(Answer::Refused(refusal)),
        Err(AllocError) => Some(Answer::NO_MEMORY),
    }
}

/// Lets an event happen `count` times. Returns why it didn't, if so, and after how many.
fn repeat<S: Stations>(stations: &mut S, event: &Event, count: u64) -> Option<Answer>
    ensures { HappensOften event.now count result (S.world stations.old) (S.world stations.new) }
{
    for done in 0..count {
        if let Some(answer) = once(stations, event) {
            return Some(answer.told_after(done));
        }
    }
    None
}

/// Lets that happen to the frame which the station sent first, of all that wait in either lane.
/// Returns why it didn't, if so.
fn once_first<S: Stations>(stations: &mut S, fate: Fate, from: Side) -> Option<Answer>
    ensures { HappensToFirst fate from result (S.world stations.old) (S.world stations.new) }
{
    let lane = stations.first_sent(from).unwrap_or(Lane::Directives);
    once(stations, &fate.event(from, lane))
}

/// Lets that happen to `count` frames, one by one. Returns why it didn't, if so, and how often it
/// did.
fn repeat_first<S: Stations>(stations: &mut S, fate: Fate, from: Side, count: u64) -> Option<Answer>
    ensures { HappensToFirsts fate from count result (S.world stations.old)
        (S.world stations.new) }
{
    for done in 0..count {
        if let Some(answer) = once_first(stations, fate, from) {
            return Some(answer.told_after(done));
        }
    }
    None
}

/// Damages the oldest frame that waits in this lane, or, if no lane is given, the frame that the
/// station sent first, of all that wait in either lane. Returns why it didn't, if so.
fn damage_oldest<S: Stations>(
    alloc: Global,
    stations: &mut S,
    side: Side,
    said: Option<Lane>,
    damage: Damage,
) -> Option<Answer>
    ensures { HappensDamaged side said damage result (S.world stations.old)
        (S.world stations.new) }
{
    let lane = lane_of(stations, side, said);
    match oldest_damaged(alloc, stations, side, lane, damage) {
        Ok(octets) => once(stations, &Event::Damage { side, lane, octets }),
        Err(AllocError) => Some(Answer::NO_MEMORY),
    }
}

/// Returns the lane whose oldest frame is damaged: the given one, or the lane of the frame sent
/// first.
fn lane_of<S: Stations>(stations: &S, side: Side, said: Option<Lane>) -> Lane
    ensures { IsDamagedIn said side result (S.world stations.now) }
{
    match said {
        Some(lane) => lane,
        None => stations.first_sent(side).unwrap_or(Lane::Directives),
    }
}

/// Returns the oldest frame that waits in a lane, damaged; no octets if none waits.
///
/// # Errors
///
/// `AllocError` if there is no memory for it.
fn oldest_damaged<S: Stations>(
    alloc: Global,
    stations: &S,
    side: Side,
    lane: Lane,
    damage: Damage,
) -> Result<Octets, AllocError>
    ensures { IfOk result (λ octets. ComesAs damage side lane octets (S.world stations.now)) }
{
    match stations.oldest_frame(side, lane) {
        Some(frame) => damaged(alloc, frame, damage),
        None => Ok(Octets::from_vec(Vec::new(alloc))),
    }
}

/// Returns a frame with one octet replaced; the frame itself, if it has no octet there.
///
/// # Errors
///
/// `AllocError` if there is no memory for it.
pub fn damaged(alloc: Global, frame: &[u8], damage: Damage) -> Result<Octets, AllocError>
    ensures { IfOk result (λ octets. octets ≡ damaged damage frame.now) }
{
    if damage.at >= frame.len() as u64 {
        return Octets::copied(alloc, frame);
    }
    let (front, rest) = frame.split_at(damage.at as usize);
    let mut octets = Vec::from_slice(alloc, front)?;
    octets.push(damage.octet)?;
    octets.extend_from_slice(&rest[1..])?;
    Ok(Octets::from_vec(octets))
}
