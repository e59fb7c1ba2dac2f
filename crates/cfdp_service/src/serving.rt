//! A station that serves its user over a wire, in turns.
ghost use Rattle.std.specs.Prelude.{◌≡◌, ◌≢◌, ◌++◌, ◌<◌, ◌≤◌, ◌&&◌, ℕ, not, Bool, List, [], ◌∷◌};
ghost use Rattle.std.specs.Prelude.{false};
ghost use Rattle.std.specs.Prelude.{length};
ghost use Rattle.std.specs.Prelude.{map, is_err, OnOk};
ghost use Rattle.cfdp_port.specs.Gains.{Gains};
ghost use Rattle.cfdp_port.specs.Port.{AtStation, table_of};
ghost use Rattle.cfdp_service.specs.Calls.{Chain, Hears, Intends, UserCall};
ghost use Rattle.cfdp_service.specs.Serving.{AsksToEnd, Does, HearsGone, Obeys, Prepares};
ghost use Rattle.cfdp_service.specs.Serving.{PutsFile, Run, Serves, TakesTurns, is_done, once_told};
ghost use Rattle.cfdp_service.specs.Serving.{TakesSome, lacking_after, said_by};

use crate::user::{Intent, User};
use crate::wish::{PutNames, Reply, Wish};
use cfdp_header::TransactionId;
use cfdp_port::{Lookout, PeerWire, Port, Wire};
use cfdp_station::PutError;
use cfdp_store::{Inbox, Outbox, SeekingOutbox};
use std::alloc::AllocError;

/// The most wishes that are fulfilled between two turns.
const MOST_WISHES: u32 = 4096;

/// The most turns: those of more than 300 years, if one takes ten microseconds.
const MOST_TURNS: u64 = 1_000_000_000_000_000;

/// How many turns in a row may lack memory. After so many it gives up.
const MOST_LACKING: u32 = 100;

/// Serves a user: does what it wishes, takes turns, and lets it hear what the station indicates.
///
/// In a turn the station takes what came, is given the time, and sends. Before each turn the user
/// is asked what it wishes until that is nothing, at most 4,096 times, and each wish is done and
/// answered; it hears what the station indicated, and that is discarded, and so are the
/// transactions that are over. Turns end if the user intends to halt; or if it intends to end, all
/// transactions of the station are closed, and the wire is silent. If there was no memory for all
/// of a turn, the user hears that, and the next turn is taken.
///
/// # Errors
///
/// `AllocError` if there was no memory for 100 turns in a row.
pub fn serve<O: SeekingOutbox, I: Inbox, W: PeerWire, U: User, L: Lookout>(
    port: &mut Port<O, I, W>,
    user: &mut U,
    lookout: &mut L,
) -> Result<(), AllocError>
    requires { (table_of port.old.station).gone ≡ 0 }
    ensures { (calls : List UserCall)
        × Serves W.steps (is_err result) calls port.old port.new
        × Chain U.steps calls user.old user.new }
{
    let ended = serve_turns(port, user, lookout);
    tell(port, user, lookout);
    user.ends(port.station());
    lookout.ends();
    ended
}

/// Takes turns until the user intends to halt, or it is over.
///
/// # Errors
///
/// `AllocError` if there was no memory for 100 turns in a row.
fn serve_turns<O: SeekingOutbox, I: Inbox, W: PeerWire, U: User, L: Lookout>(
    port: &mut Port<O, I, W>,
    user: &mut U,
    lookout: &mut L,
) -> Result<(), AllocError>
    requires { (table_of port.old.station).gone ≡ 0 }
    ensures { (calls : List UserCall) × (lacking : ℕ)
        × TakesTurns W.steps (is_err result) (record { port = port.old; calls = []; lacking = 0 })
        (record { port = port.new; calls = calls; lacking = lacking })
        × Chain U.steps calls user.old user.new
        × HearsGone calls (table_of port.new.station) }
{
    let mut lacking = 0u32;
    for before in 0..MOST_TURNS {
        prepare(port, user, lookout);
        let intent = user.intends();
        if is_over(port, intent) {
            return Ok(());
        }
        lookout.begins(before + 1);
        let is_short = take_turn(port, user, lookout);
        lacking = lacking_after(is_short, lacking);
        if lacking >= MOST_LACKING {
            return Err(AllocError);
        }
    }
    Ok(())
}

/// Takes a turn. Returns `true` if there was no memory for all of it, which the user hears.
fn take_turn<O: SeekingOutbox, I: Inbox, W: PeerWire, U: User, L: Lookout>(
    port: &mut Port<O, I, W>,
    user: &mut U,
    lookout: &mut L,
) -> bool
    ensures turn { TakesSome W.steps result port.old port.new }
    ensures gains { Gains (table_of port.old.station) (table_of port.new.station) }
    ensures user { user.new ≡ user.old }
{
    match port.turn(lookout) {
        Ok(()) => false,
        Err(AllocError) => {
            user.runs_short();
            true
        }
    }
}

/// Returns how many turns in a row lacked memory, if this many did before one more was taken.
fn lacking_after(is_short: bool, before: u32) -> u32
    requires { before < 100 }
    ensures after { result ≡ lacking_after is_short before }
    ensures few { result ≤ 100 }
{
    if is_short { before + 1 } else { 0 }
}

/// Does what the user wishes, lets it hear what the station indicated, and discards that and the
/// transactions that are over.
fn prepare<O: SeekingOutbox, I: Inbox, W: PeerWire, U: User, L: Lookout>(
    port: &mut Port<O, I, W>,
    user: &mut U,
    lookout: &mut L,
)
    requires { (table_of port.old.station).gone ≤ length (table_of port.old.station).told }
    ensures prepares { (calls : List UserCall)
        × Prepares calls port.old.station port.new.station
        × Chain U.steps calls user.old user.new
        × ((before : List UserCall) → HearsGone before (table_of port.old.station)
        → HearsGone (before ++ calls) (table_of port.new.station)) }
    ensures wire { port.new.wire ≡ port.old.wire }
{
    obey(port, user, lookout);
    tell(port, user, lookout);
    port.forget_closed();
}

/// Does what the user wishes, until that is nothing, at most 4,096 times.
fn obey<O: SeekingOutbox, I: Inbox, W: PeerWire, U: User, L: Lookout>(
    port: &mut Port<O, I, W>,
    user: &mut U,
    lookout: &mut L,
)
    ensures obeys { (calls : List UserCall) × Obeys calls port.old.station port.new.station
        × Chain U.steps calls user.old user.new }
    ensures gains { Gains (table_of port.old.station) (table_of port.new.station) }
    ensures wire { port.new.wire ≡ port.old.wire }
{
    for _wish in 0..MOST_WISHES {
        let Some(wish) = user.asks(port.station()) else {
            return;
        };
        let reply = fulfil(port, &wish, lookout);
        user.answered(reply);
    }
}

/// Does what is wished.
fn fulfil<O: SeekingOutbox, I: Inbox, W: PeerWire, L: Lookout>(
    port: &mut Port<O, I, W>,
    wish: &Wish,
    lookout: &mut L,
) -> Reply
    ensures does { AtStation (Does wish.now result) port.old port.new }
    ensures gains { Gains (table_of port.old.station) (table_of port.new.station) }
{
    match wish {
        Wish::Put(names) => Reply::Put(put_file(port, names, lookout)),
        Wish::Change(id, request) => Reply::Change(port.request(*id, *request, lookout)),
    }
}

/// Looks for a file, and makes its put.
fn put_file<O: SeekingOutbox, I: Inbox, W: PeerWire, L: Lookout>(
    port: &mut Port<O, I, W>,
    names: &PutNames,
    lookout: &mut L,
) -> Result<TransactionId, PutError>
    ensures puts { AtStation (PutsFile names.now.source.items names.now.destination.items result)
        port.old port.new }
    ensures gains { Gains (table_of port.old.station) (table_of port.new.station) }
{
    match port.look_for(names.source.as_slice()) {
        Ok(_) => port.put(
            names.source.as_slice(),
            names.destination.as_slice(),
            lookout,
        ),
        Err(_) => Err(PutError::SourceFault),
    }
}

/// Returns `true` if it is over: at once if the user intends that; otherwise if it has all that it
/// wished for, all transactions are closed, and the wire has been silent for long enough.
fn is_over<O: Outbox, I: Inbox, W: PeerWire>(port: &mut Port<O, I, W>, intent: Intent) -> bool
    ensures over { AsksToEnd W.steps intent result port.old.station port.old.wire port.new.wire }
    ensures station { port.new.station ≡ port.old.station }
{
    match intent {
        Intent::Halt => true,
        Intent::GoOn => {
            let _ = port.is_silent(true);
            false
        }
        Intent::End => {
            let is_done = port.are_all_closed();
            port.is_silent(!is_done) && is_done
        }
    }
}

/// Lets the user hear what the station indicated, and discards that. Who looks on gives way before
/// that, if there is something. If 64 bits don't count what was indicated any more, nothing more is
/// reported.
fn tell<O: Outbox, I: Inbox, W: Wire, U: User, L: Lookout>(
    port: &mut Port<O, I, W>,
    user: &mut U,
    lookout: &mut L,
)
    requires { (table_of port.old.station).gone ≤ length (table_of port.old.station).told }
    ensures station { port.new.station ≡ once_told port.old.station }
    ensures wire { port.new.wire ≡ port.old.wire }
    ensures heard { Chain U.steps (map Hears (said_by (table_of port.old.station))) user.old
        user.new }
{
    let all = port.indications();
    let count = all.len();
    let most = u64::MAX - port.station().indications_gone();
    if most < count as u64 {
        return;
    }
    if count > 0 {
        lookout.yields();
    }
    hear_each(user, all);
    port.forget_indications(count);
}

/// Lets the user hear each of these indications.
fn hear_each<U: User>(user: &mut U, all: &[cfdp_directives::Indication])
    ensures { Chain U.steps (map Hears all.now) user.old user.new }
{
    for indication in all {
        user.hears(indication);
    }
}
