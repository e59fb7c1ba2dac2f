//! What the user asks of a transaction.
ghost use Rattle.std.specs.Prelude.{◌≡◌};
ghost use Rattle.cfdp_entity.specs.declared.request.Request.TheVariants as requests;
ghost use Rattle.cfdp_c.specs.Calls.{id_of, Requests};
ghost use Rattle.cfdp_c.specs.Handles.{Answers};
ghost use Rattle.cfdp_c.specs.Held.{has_folders, state_of};

use crate::calls::CfdpId;
use crate::codes::{CLOSED, of_request};
use crate::handle::CfdpStation;
use crate::held::{AnyStation, Held};
use cfdp_header::TransactionId;
use cfdp_station::Request;
use std::alloc::Global;

impl Held {
    fn request(&mut self, id: TransactionId, request: Request) -> u32
        ensures asks { Requests request id result (state_of self.old.station)
            (state_of self.new.station) }
        ensures place { has_folders self.new.station ≡ has_folders self.old.station }
    {
        let answer = match &mut self.station {
            AnyStation::Memory(station) => of_request(station.request(id, request)),
            AnyStation::Folders(station) => of_request(station.request(id, request)),
        };
        self.notes_request();
        answer
    }
}

/// Asks this of a transaction.
fn ask(alloc: Global, station: &mut CfdpStation, id: &CfdpId, request: Request) -> u32
    ensures { Answers result station.old station.new
        (λ x y. Requests request (id_of id.now) result (state_of x.station) (state_of y.station)) }
{
    let Some(mut held) = station.lift(alloc) else {
        return CLOSED;
    };
    let answer = held.request(id.id(), request);
    *station = CfdpStation::holding(held);
    answer
}

/// Cancels a transaction, and notifies the peer. Returns 0, `CLOSED`, `NO_MEMORY`, or why not.
#[unsafe(no_mangle)]
pub extern "C" fn cfdp_cancel(alloc: Global, station: &mut CfdpStation, id: &CfdpId) -> u32
    ensures { Answers result station.old station.new
        (λ x y. Requests requests.Cancel (id_of id.now) result (state_of x.station)
        (state_of y.station)) }
{
    ask(alloc, station, id, Request::Cancel)
}

/// Suspends a transaction: sends nothing of it, and lets no time run for it. Returns as
/// `cfdp_cancel`.
#[unsafe(no_mangle)]
pub extern "C" fn cfdp_suspend(alloc: Global, station: &mut CfdpStation, id: &CfdpId) -> u32
    ensures { Answers result station.old station.new
        (λ x y. Requests requests.Suspend (id_of id.now) result (state_of x.station)
        (state_of y.station)) }
{
    ask(alloc, station, id, Request::Suspend)
}

/// Resumes a transaction that was suspended. Returns as `cfdp_cancel`.
#[unsafe(no_mangle)]
pub extern "C" fn cfdp_resume(alloc: Global, station: &mut CfdpStation, id: &CfdpId) -> u32
    ensures { Answers result station.old station.new
        (λ x y. Requests requests.Resume (id_of id.now) result (state_of x.station)
        (state_of y.station)) }
{
    ask(alloc, station, id, Request::Resume)
}

/// Asks the receiver of a file that this station sends for a Keep Alive if true, otherwise for a
/// NAK. Returns as `cfdp_cancel`.
#[unsafe(no_mangle)]
pub extern "C" fn cfdp_prompt(
    alloc: Global,
    station: &mut CfdpStation,
    id: &CfdpId,
    keep_alive: bool,
) -> u32
    ensures { Answers result station.old station.new (λ x y.
        Requests (requests.Prompt keep_alive) (id_of id.now) result (state_of x.station)
        (state_of y.station)) }
{
    ask(alloc, station, id, Request::Prompt { keep_alive })
}
