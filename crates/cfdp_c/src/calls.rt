//! Files that the user of a station gives it and has sent, and the time.
ghost use Rattle.std.specs.Prelude.{◌≡◌, ◌≢◌, false, Some, None, MatchOption};
ghost use Rattle.cfdp_c.specs.Calls.{id_of, Adds, Puts, PutsFrom, Seeks, TellsTime, IsTimeout};
ghost use Rattle.cfdp_c.specs.Calls.{RemovesOne};
ghost use Rattle.cfdp_c.specs.Held.{has_folders, state_of, OfMemory};
ghost use Rattle.cfdp_c.specs.Codes as codes;
ghost use Rattle.cfdp_c.specs.Handles.{Becomes};

use crate::codes::{
    CLOSED, IN_FOLDERS, NOTHING, OK, of_add, of_look, of_memory, of_put, of_remove,
};
use crate::handle::CfdpStation;
use crate::held::{AnyStation, Held};
use cfdp_header::TransactionId;
use cfdp_station::Station;
use cfdp_store::{Inbox, Outbox, SeekingOutbox};
use std::alloc::Global;

/// Names a transaction: the entity that sends the file, and its number there.
#[repr(C)]
#[derive(Clone, Copy)]
pub struct CfdpId {
    pub source: u64,
    pub number: u64,
}

impl CfdpId {
    pub(crate) fn of(id: TransactionId) -> CfdpId
        ensures { id_of result ≡ id }
    {
        CfdpId {
            source: id.source,
            number: id.number,
        }
    }

    pub(crate) fn id(&self) -> TransactionId
        ensures { result ≡ id_of self.now }
    {
        TransactionId {
            source: self.source,
            number: self.number,
        }
    }
}

/// Makes a put of a file that the outbox has.
fn put<O: Outbox, I: Inbox>(
    station: &mut Station<O, I>,
    source: &[u8],
    destination: &[u8],
    id: &mut CfdpId,
) -> u32
    ensures puts { Puts source.now destination.now result id.new station.old station.new }
    ensures kept { result ≢ codes.ok → id.new ≡ id.old }
{
    let answer = station.put(source, destination);
    if let Ok(opened) = answer {
        *id = CfdpId::of(opened);
    }
    of_put(answer)
}

/// Looks for a file, and makes its put.
fn seek<O: SeekingOutbox, I: Inbox>(
    station: &mut Station<O, I>,
    source: &[u8],
    destination: &[u8],
    id: &mut CfdpId,
) -> u32
    ensures seeks { Seeks source.now destination.now result id.new station.old station.new }
    ensures kept { result ≢ codes.ok → id.new ≡ id.old }
{
    match station.look_for(source) {
        Ok(_) => put(station, source, destination, id),
        Err(error) => of_look(error),
    }
}

/// Gives a station the time.
fn tick<O: Outbox, I: Inbox>(station: &mut Station<O, I>, now: u64) -> u32
    ensures tells { TellsTime now result station.old station.new }
{
    of_memory(station.tick(now))
}

/// Writes a deadline, if there is one.
fn tell_deadline(next: Option<u64>, deadline: &mut u64) -> u32
    ensures { MatchOption next ((result ≡ codes.nothing) × (deadline.new ≡ deadline.old))
        (λ at. (result ≡ codes.ok) × (deadline.new ≡ at)) }
{
    match next {
        Some(at) => {
            *deadline = at;
            OK
        }
        None => NOTHING,
    }
}

impl Held {
    fn add(&mut self, name: &[u8], octets: &[u8]) -> u32
        ensures adds { OfMemory self.old.station result
            (Adds name.now octets.now result (state_of self.old.station)
            (state_of self.new.station))
            (state_of self.new.station ≡ state_of self.old.station) }
        ensures place { has_folders self.new.station ≡ has_folders self.old.station }
    {
        match &mut self.station {
            AnyStation::Memory(station) => of_add(station.add_source(name, octets)),
            AnyStation::Folders(_) => IN_FOLDERS,
        }
    }

    fn remove_source(&mut self, name: &[u8]) -> u32
        ensures removes { OfMemory self.old.station result
            (RemovesOne name.now result (state_of self.old.station) (state_of self.new.station))
            (state_of self.new.station ≡ state_of self.old.station) }
        ensures place { has_folders self.new.station ≡ has_folders self.old.station }
    {
        match &mut self.station {
            AnyStation::Memory(station) => of_remove(station.remove_source(name)),
            AnyStation::Folders(_) => IN_FOLDERS,
        }
    }

    fn put(&mut self, source: &[u8], destination: &[u8], id: &mut CfdpId) -> u32
        ensures puts { PutsFrom self.old.station source.now destination.now result id.new
            (state_of self.new.station) }
        ensures kept { result ≢ codes.ok → id.new ≡ id.old }
        ensures place { has_folders self.new.station ≡ has_folders self.old.station }
    {
        let answer = match &mut self.station {
            AnyStation::Memory(station) => put(station, source, destination, id),
            AnyStation::Folders(station) => seek(station, source, destination, id),
        };
        self.notes_request();
        answer
    }

    fn tick(&mut self, now: u64) -> u32
        ensures tells { TellsTime now result (state_of self.old.station)
            (state_of self.new.station) }
        ensures place { has_folders self.new.station ≡ has_folders self.old.station }
    {
        match &mut self.station {
            AnyStation::Memory(station) => tick(station, now),
            AnyStation::Folders(station) => tick(station, now),
        }
    }

    fn next_timeout(&self, deadline: &mut u64) -> u32
        ensures some { result ≡ codes.ok
            → IsTimeout (Some deadline.new) (state_of self.now.station) }
        ensures none { result ≢ codes.ok → (result ≡ codes.nothing)
            × (deadline.new ≡ deadline.old) × IsTimeout None (state_of self.now.station) }
    {
        match &self.station {
            AnyStation::Memory(station) => tell_deadline(station.next_timeout(), deadline),
            AnyStation::Folders(station) => tell_deadline(station.next_timeout(), deadline),
        }
    }
}

/// Adds a file to the outbox; both are copied. Returns the first that holds: 0, `CLOSED`,
/// `IN_FOLDERS` if the outbox is a folder, `NAME_TAKEN` if there is a file of that name, or
/// `NO_MEMORY`.
#[unsafe(no_mangle)]
pub extern "C" fn cfdp_add(
    alloc: Global,
    station: &mut CfdpStation,
    name: &[u8],
    octets: &[u8],
) -> u32
    ensures open { station.new.is_open ≡ station.old.is_open }
    ensures closed { station.old.is_open ≡ false → result ≡ codes.closed }
    ensures adds { Becomes station.old station.new (λ x y. OfMemory x.station result
        (Adds name.now octets.now result (state_of x.station) (state_of y.station))
        (state_of y.station ≡ state_of x.station)) }
{
    let Some(mut held) = station.lift(alloc) else {
        return CLOSED;
    };
    let answer = held.add(name, octets);
    *station = CfdpStation::holding(held);
    answer
}

/// Removes a file that no transaction is sending from the outbox, and gives its memory back. It
/// takes no memory. Returns 0, or the first of these that holds: `CLOSED`, `IN_FOLDERS`, 21 if
/// there is no file of that name, 15 if a transaction is sending it. Unless it returns 0, nothing
/// changed.
#[unsafe(no_mangle)]
pub extern "C" fn cfdp_remove_source(alloc: Global, station: &mut CfdpStation, name: &[u8]) -> u32
    ensures open { station.new.is_open ≡ station.old.is_open }
    ensures closed { station.old.is_open ≡ false → result ≡ codes.closed }
    ensures removes { Becomes station.old station.new (λ x y. OfMemory x.station result
        (RemovesOne name.now result (state_of x.station) (state_of y.station))
        (state_of y.station ≡ state_of x.station)) }
{
    let Some(mut held) = station.lift(alloc) else {
        return CLOSED;
    };
    let answer = held.remove_source(name);
    *station = CfdpStation::holding(held);
    answer
}

/// Sends a file of the outbox, to be published by the peer under the second name; `id` is the
/// transaction. In a folder the file is looked for first. Returns 0, `CLOSED`, `NO_MEMORY`, or why
/// the put is refused.
#[unsafe(no_mangle)]
pub extern "C" fn cfdp_put(
    alloc: Global,
    station: &mut CfdpStation,
    source: &[u8],
    destination: &[u8],
    id: &mut CfdpId,
) -> u32
    ensures open { station.new.is_open ≡ station.old.is_open }
    ensures closed { station.old.is_open ≡ false → result ≡ codes.closed }
    ensures kept { result ≢ codes.ok → id.new ≡ id.old }
    ensures puts { Becomes station.old station.new (λ x y.
        PutsFrom x.station source.now destination.now result id.new (state_of y.station)) }
{
    let Some(mut held) = station.lift(alloc) else {
        return CLOSED;
    };
    let answer = held.put(source, destination, id);
    *station = CfdpStation::holding(held);
    answer
}

/// Gives the time: each timer that is due expires once. If a time is earlier than the last one
/// given, it counts as that. Returns 0, `CLOSED`, or `NO_MEMORY`: then nothing changed, the time
/// neither.
#[unsafe(no_mangle)]
pub extern "C" fn cfdp_tick(alloc: Global, station: &mut CfdpStation, now: u64) -> u32
    ensures open { station.new.is_open ≡ station.old.is_open }
    ensures closed { station.old.is_open ≡ false → result ≡ codes.closed }
    ensures tells { Becomes station.old station.new (λ x y.
        TellsTime now result (state_of x.station) (state_of y.station)) }
{
    let Some(mut held) = station.lift(alloc) else {
        return CLOSED;
    };
    let answer = held.tick(now);
    held.notes_tick(now);
    *station = CfdpStation::holding(held);
    answer
}

/// Writes when `cfdp_tick` must be called at the latest: the earliest deadline of all armed timers.
/// Returns 0, `CLOSED`, or `NOTHING` if none is armed.
#[unsafe(no_mangle)]
pub extern "C" fn cfdp_next_timeout(
    alloc: Global,
    station: &mut CfdpStation,
    deadline: &mut u64,
) -> u32
    ensures open { station.new.is_open ≡ station.old.is_open }
    ensures closed { station.old.is_open ≡ false → result ≡ codes.closed }
    ensures kept { result ≢ codes.ok → deadline.new ≡ deadline.old }
    ensures some { Becomes station.old station.new (λ x y. (y ≡ x)
        × (result ≡ codes.ok → IsTimeout (Some deadline.new) (state_of x.station))) }
    ensures none { Becomes station.old station.new (λ x y. (y ≡ x)
        × (result ≢ codes.ok → (result ≡ codes.nothing) × IsTimeout None (state_of x.station))) }
{
    let Some(held) = station.lift(alloc) else {
        return CLOSED;
    };
    let answer = held.next_timeout(deadline);
    *station = CfdpStation::holding(held);
    answer
}
