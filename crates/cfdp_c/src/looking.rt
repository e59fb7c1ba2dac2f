//! The transactions, by a cursor, and how many more there is room for.
ghost use Rattle.std.specs.Prelude.{◌≡◌, ◌≢◌, ◌+◌, ◌<◌, false, length, slice_get, IfSome};
ghost use Rattle.cfdp_entity.specs.Walking.{phases_of};
ghost use Rattle.cfdp_c.specs.Codes as codes;
ghost use Rattle.cfdp_c.specs.Handles.{Answers, Becomes};
ghost use Rattle.cfdp_c.specs.Held.{state_of};
ghost use Rattle.cfdp_c.specs.Looking.{TellsNext};
ghost use Rattle.cfdp_c.specs.Looking as looks;

use crate::calls::CfdpId;
use crate::codes::{CLOSED, NOTHING, OK};
use crate::handle::CfdpStation;
use crate::held::{AnyStation, Held};
use cfdp_directives::Phase;
use cfdp_header::TransactionId;
use cfdp_station::Station;
use cfdp_store::{Inbox, Outbox};
use std::alloc::Global;

/// A transaction, and how far it has come.
#[repr(C)]
#[derive(Clone, Copy)]
pub struct CfdpTransaction {
    pub id: CfdpId,
    /// 1 Sending, 2 Cancelling, 3 Receiving, 4 Finishing, 5 Closed.
    pub phase: u8,
}

fn phase_number(phase: Phase) -> u8
    ensures { result ≡ looks.phase_number phase }
{
    match phase {
        Phase::Sending => 1,
        Phase::Cancelling => 2,
        Phase::Receiving => 3,
        Phase::Finishing => 4,
        Phase::Closed => 5,
    }
}

/// Returns the transaction at an index, in order of opening.
fn transaction_in<O: Outbox, I: Inbox>(
    station: &Station<O, I>,
    place: usize,
) -> Option<(TransactionId, Phase)>
    ensures at { result ≡ slice_get (phases_of station.now.entity.state.table) place }
    ensures few { IfSome result (λ t. place < 4096) }
{
    // For the prover: there are no more than 4,096.
    let _ = station.records_left();
    station.transactions().nth(place)
}

impl Held {
    fn records_left(&self) -> usize
        ensures { result + length (state_of self.now.station).entity.state.table.records ≡ 4096 }
    {
        match &self.station {
            AnyStation::Memory(station) => station.records_left(),
            AnyStation::Folders(station) => station.records_left(),
        }
    }

    /// Returns the transaction at an index, in order of opening.
    fn transaction_at(&self, place: usize) -> Option<(TransactionId, Phase)>
        ensures at { result
            ≡ slice_get (phases_of (state_of self.now.station).entity.state.table) place }
        ensures few { IfSome result (λ t. place < 4096) }
    {
        match &self.station {
            AnyStation::Memory(station) => transaction_in(station, place),
            AnyStation::Folders(station) => transaction_in(station, place),
        }
    }

    fn next_transaction(&self, cursor: &mut usize, out: &mut CfdpTransaction) -> u32
        ensures tells { TellsNext
            (slice_get (phases_of (state_of self.now.station).entity.state.table) cursor.old) result
            cursor.old cursor.new out.old out.new }
        ensures kept { result ≢ codes.ok → (cursor.new ≡ cursor.old) × (out.new ≡ out.old) }
    {
        let Some((id, phase)) = self.transaction_at(*cursor) else {
            return NOTHING;
        };
        *cursor += 1;
        *out = CfdpTransaction {
            id: CfdpId {
                source: id.source,
                number: id.number,
            },
            phase: phase_number(phase),
        };
        OK
    }
}

/// Writes the transaction at a cursor, which must begin as 0, and moves that on to the next one.
/// They stand in order of opening, closed ones too, until they are forgotten, which moves those
/// after them up. Returns 0, `CLOSED`, or `NOTHING` if there are no more.
#[unsafe(no_mangle)]
pub extern "C" fn cfdp_transactions(
    alloc: Global,
    station: &mut CfdpStation,
    cursor: &mut usize,
    out: &mut CfdpTransaction,
) -> u32
    ensures tells { Answers result station.old station.new (λ x y. (y ≡ x) × TellsNext
        (slice_get (phases_of (state_of x.station).entity.state.table) cursor.old) result
        cursor.old cursor.new out.old out.new) }
    ensures kept { result ≢ codes.ok → (cursor.new ≡ cursor.old) × (out.new ≡ out.old) }
{
    let Some(held) = station.lift(alloc) else {
        return CLOSED;
    };
    let answer = held.next_transaction(cursor, out);
    *station = CfdpStation::holding(held);
    answer
}

/// Returns how many more transactions there is room for, of 4,096 records; 0 if the handle is
/// closed.
#[unsafe(no_mangle)]
pub extern "C" fn cfdp_records_left(alloc: Global, station: &mut CfdpStation) -> usize
    ensures open { station.new.is_open ≡ station.old.is_open }
    ensures closed { station.old.is_open ≡ false → result ≡ 0 }
    ensures left { Becomes station.old station.new (λ x y. (y ≡ x)
        × (result + length (state_of x.station).entity.state.table.records ≡ 4096)) }
{
    let Some(held) = station.lift(alloc) else {
        return 0;
    };
    let left = held.records_left();
    *station = CfdpStation::holding(held);
    left
}
