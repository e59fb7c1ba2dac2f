//! Two ports that are joined by their wires, in turns.
ghost use Rattle.std.specs.Prelude.{◌≡◌, ◌↔◌, ◌⊎◌, None, Some, IsTrue, OnErr, OnOk};
ghost use Rattle.cfdp_port.specs.Pair.{IsClosed, RunsInPart, RunsTurns, TakesTurn, TurnsInPart};
ghost use Rattle.cfdp_port.specs.Pair.{pair};

use crate::lookout::Lookout;
use crate::port::Port;
use crate::wire::Wire;
use cfdp_directives::Phase;
use cfdp_header::TransactionId;
use cfdp_store::{Inbox, Outbox};
use std::alloc::AllocError;

/// Takes turns until a transaction is over at both stations, or so many were taken. In a turn both
/// are given its number as the time and send, the first one first, and then each takes what came.
/// If the transaction isn't over after so many, who looks on hears it.
///
/// # Errors
///
/// `AllocError` if a station that must send found no memory: the turns end there.
pub fn take_turns<O: Outbox, I: Inbox, P: Outbox, J: Inbox, W: Wire, L: Lookout>(
    id: TransactionId,
    most: u64,
    one: &mut Port<O, J, W>,
    two: &mut Port<P, I, W>,
    lookout: &mut L,
) -> Result<(), AllocError>
    ensures ok { OnOk result (RunsTurns W.steps id most (pair one.old two.old)
        (pair one.new two.new)) }
    ensures err { OnErr result (RunsInPart W.steps id most (pair one.old two.old)
        (pair one.new two.new)) }
{
    for before in 0..most {
        if are_closed(id, one, two) {
            return Ok(());
        }
        take_turn(before + 1, one, two, lookout)?;
    }
    tell_end(id, most, one, two, lookout);
    Ok(())
}

/// Lets a lookout hear that so many turns were taken, if the transaction isn't over.
fn tell_end<O: Outbox, I: Inbox, P: Outbox, J: Inbox, W: Wire, L: Lookout>(
    id: TransactionId,
    most: u64,
    one: &Port<O, J, W>,
    two: &Port<P, I, W>,
    lookout: &mut L,
) {
    if !are_closed(id, one, two) {
        lookout.runs_out(most);
    }
}

/// Takes one turn.
fn take_turn<O: Outbox, I: Inbox, P: Outbox, J: Inbox, W: Wire, L: Lookout>(
    now: u64,
    one: &mut Port<O, J, W>,
    two: &mut Port<P, I, W>,
    lookout: &mut L,
) -> Result<(), AllocError>
    ensures ok { OnOk result (TakesTurn W.steps now (pair one.old two.old)
        (pair one.new two.new)) }
    ensures err { OnErr result (TurnsInPart W.steps now (pair one.old two.old)
        (pair one.new two.new)) }
{
    lookout.begins(now);
    one.send(now, lookout)?;
    two.send(now, lookout)?;
    one.receive(lookout);
    two.receive(lookout);
    Ok(())
}

/// Returns `true` if a transaction is closed at the first station, and isn't open at the second:
/// the second may never have heard of it.
fn are_closed<O: Outbox, I: Inbox, P: Outbox, J: Inbox, W: Wire>(
    id: TransactionId,
    one: &Port<O, J, W>,
    two: &Port<P, I, W>,
) -> bool
    ensures { IsTrue result ↔ IsClosed id one.now.station two.now.station }
{
    has_closed(one.phase(id)) && isnt_open(two.phase(id))
}

fn has_closed(phase: Option<Phase>) -> bool
    ensures { IsTrue result ↔ (phase ≡ Some Phase.Closed) }
{
    matches!(phase, Some(Phase::Closed))
}

fn isnt_open(phase: Option<Phase>) -> bool
    ensures { IsTrue result ↔ ((phase ≡ None) ⊎ (phase ≡ Some Phase.Closed)) }
{
    matches!(phase, None | Some(Phase::Closed))
}
