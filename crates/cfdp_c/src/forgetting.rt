//! Records of transactions that are over: to drop them, and which ones were dropped.
ghost use Rattle.std.specs.Prelude.{◌≡◌, ◌≢◌, false};
ghost use Rattle.cfdp_entity.specs.Entity.{is_forgotten};
ghost use Rattle.cfdp_c.specs.Calls.{id_of, ForgetsOne, ForgetsClosed};
ghost use Rattle.cfdp_c.specs.Codes as codes;
ghost use Rattle.cfdp_c.specs.Handles.{Becomes};
ghost use Rattle.cfdp_c.specs.Held.{has_folders, state_of};
ghost use Rattle.cfdp_c.specs.Told.{bit};

use crate::calls::CfdpId;
use crate::codes::{CLOSED, OK, of_forget, of_memory};
use crate::handle::CfdpStation;
use crate::held::{AnyStation, Held};
use cfdp_header::TransactionId;
use cfdp_station::Station;
use cfdp_store::{Inbox, Outbox};
use std::alloc::Global;

/// Drops all records of a station that may be dropped.
fn forget_closed<O: Outbox, I: Inbox>(station: &mut Station<O, I>) -> u32
    ensures forgets { ForgetsClosed result station.old station.new }
{
    of_memory(station.forget_closed())
}

impl Held {
    fn forget(&mut self, id: TransactionId) -> u32
        ensures forgets { ForgetsOne id result (state_of self.old.station)
            (state_of self.new.station) }
        ensures place { has_folders self.new.station ≡ has_folders self.old.station }
    {
        match &mut self.station {
            AnyStation::Memory(station) => of_forget(station.forget(id)),
            AnyStation::Folders(station) => of_forget(station.forget(id)),
        }
    }

    fn forget_closed(&mut self) -> u32
        ensures forgets { ForgetsClosed result (state_of self.old.station)
            (state_of self.new.station) }
        ensures place { has_folders self.new.station ≡ has_folders self.old.station }
    {
        match &mut self.station {
            AnyStation::Memory(station) => forget_closed(station),
            AnyStation::Folders(station) => forget_closed(station),
        }
    }

    fn was_forgotten(&self, id: TransactionId) -> u8
        ensures { result ≡ bit (is_forgotten (state_of self.now.station).entity.state id) }
    {
        match &self.station {
            AnyStation::Memory(station) => u8::from(station.was_forgotten(id)),
            AnyStation::Folders(station) => u8::from(station.was_forgotten(id)),
        }
    }
}

/// Drops the record of a transaction that is over, which makes room for another one. It is
/// never opened again: an EOF or a Finished that still comes of it is acknowledged.
///
/// Returns 0, `CLOSED`, `UNKNOWN` if it has no record here, `STILL_OPEN` if it isn't over,
/// `ANSWER_DUE` if a poll must still send an acknowledgement of it, or `NO_MEMORY`: the first that
/// holds. Unless it is 0, nothing changed.
#[unsafe(no_mangle)]
pub extern "C" fn cfdp_forget(alloc: Global, station: &mut CfdpStation, id: &CfdpId) -> u32
    ensures open { station.new.is_open ≡ station.old.is_open }
    ensures closed { station.old.is_open ≡ false → result ≡ codes.closed }
    ensures forgets { Becomes station.old station.new (λ x y.
        ForgetsOne (id_of id.now) result (state_of x.station) (state_of y.station)) }
{
    let Some(mut held) = station.lift(alloc) else {
        return CLOSED;
    };
    let answer = held.forget(id.id());
    *station = CfdpStation::holding(held);
    answer
}

/// Drops the records of all transactions that are over and have no acknowledgement due, as
/// `cfdp_forget` does of one. Returns 0, `CLOSED`, or `NO_MEMORY`: some of them may be gone then.
#[unsafe(no_mangle)]
pub extern "C" fn cfdp_forget_closed(alloc: Global, station: &mut CfdpStation) -> u32
    ensures open { station.new.is_open ≡ station.old.is_open }
    ensures closed { station.old.is_open ≡ false → result ≡ codes.closed }
    ensures forgets { Becomes station.old station.new (λ x y.
        ForgetsClosed result (state_of x.station) (state_of y.station)) }
{
    let Some(mut held) = station.lift(alloc) else {
        return CLOSED;
    };
    let answer = held.forget_closed();
    *station = CfdpStation::holding(held);
    answer
}

/// Writes whether the record of a transaction was dropped: 1 if it was, otherwise 0. Returns 0 or
/// `CLOSED`.
#[unsafe(no_mangle)]
pub extern "C" fn cfdp_was_forgotten(
    alloc: Global,
    station: &mut CfdpStation,
    id: &CfdpId,
    was: &mut u8,
) -> u32
    ensures open { station.new.is_open ≡ station.old.is_open }
    ensures closed { station.old.is_open ≡ false → result ≡ codes.closed }
    ensures kept { result ≢ codes.ok → was.new ≡ was.old }
    ensures told { Becomes station.old station.new (λ x y. (y ≡ x) × (result ≡ codes.ok)
        × (was.new ≡ bit (is_forgotten (state_of x.station).entity.state (id_of id.now)))) }
{
    let Some(held) = station.lift(alloc) else {
        return CLOSED;
    };
    *was = held.was_forgotten(id.id());
    *station = CfdpStation::holding(held);
    OK
}
