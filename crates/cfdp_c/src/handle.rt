//! A station in a caller's memory: to open and to close it.
ghost use Rattle.std.specs.Prelude.{◌≡◌, ◌↔◌, ◌≢◌, ◌⊎◌, ◌≤◌, true, false, Some, IsSome, IsSomeAnd};
ghost use Rattle.std.specs.Prelude.{MatchOption, IfOk};
ghost use Rattle.cfdp_c.specs.Calls.{IsFirst};
ghost use Rattle.cfdp_c.specs.Codes as codes;
ghost use Rattle.cfdp_c.specs.declared.bad_field.BadField.{BadField};
ghost use Rattle.cfdp_c.specs.Held.{has_folders, state_of};
ghost use Rattle.cfdp_c.specs.Config.{config_of, IsUsable, Suits};

use crate::codes::{ALREADY_OPEN, NO_MEMORY, OK, of_folders, of_journaled};
use crate::config::CfdpConfig;
use crate::held::Held;
use crate::parts::Parts;
use crate::resuming::Paths;
use crate::station_slot::StationSlot;
use cfdp_station::{StationConfig, Valid};
use std::alloc::{AllocError, Global};
use std::mem;

/// A station in a caller's memory. All zero octets are a closed handle.
#[repr(C)]
#[derive(Drop)]
pub struct CfdpStation {
    pub slot: StationSlot,
    pub is_open: bool,
    ghost held: { is_open ≡ true → IsSome slot.value },
}

impl CfdpStation {
    fn closed(alloc: Global) -> CfdpStation
        ensures { result.is_open ≡ false }
    {
        CfdpStation {
            slot: StationSlot::empty(alloc),
            is_open: false,
        }
    }

    /// Returns an open handle on what a box has.
    pub(crate) fn holding(held: Box<Held>) -> CfdpStation
        ensures open { result.is_open ≡ true }
        ensures value { result.slot.value ≡ Some held.value }
    {
        CfdpStation {
            slot: StationSlot::of_parts(Parts::of(held)),
            is_open: true,
        }
    }

    /// Takes out what the handle has, which is closed then. Returns `None` if it was closed before.
    pub(crate) fn lift(&mut self, alloc: Global) -> Option<Box<Held>>
        ensures closed { self.new.is_open ≡ false }
        ensures lifted { MatchOption result (self.old.is_open ≡ false)
            (λ held. (self.old.is_open ≡ true) × (Some held.value ≡ self.old.slot.value)) }
    {
        let taken = mem::replace(self, CfdpStation::closed(alloc));
        if !taken.is_open {
            return None;
        }
        Some(taken.slot.into_parts().into_box())
    }
}

/// Opens a closed handle on a station that has no transactions, and whose stores, both in memory,
/// are empty.
///
/// Returns 0, `ALREADY_OPEN`, `NO_MEMORY`, or, if no station can be set up so, the number of a
/// field that isn't as it must be, 70 to 99. Unless it is 0, the handle is as it was.
#[unsafe(no_mangle)]
pub extern "C" fn cfdp_open(alloc: Global, station: &mut CfdpStation, config: &CfdpConfig) -> u32
    ensures answers { ((result ≡ codes.ok) ⊎ (result ≡ codes.already_open))
        ⊎ ((result ≡ codes.no_memory) ⊎ codes.NamesField result) }
    ensures twice { (result ≡ codes.already_open) ↔ (station.old.is_open ≡ true) }
    ensures bad { station.old.is_open ≡ false →
        ((codes.NamesField result → ⊥) ↔ IsUsable config.now) }
    ensures field { codes.NamesField result → (field : BadField)
        × (result ≡ codes.field_number field) × (Suits field config.now → ⊥) }
    ensures opened { result ≡ codes.ok → (station.new.is_open ≡ true)
        × IsSomeAnd station.new.slot.value (λ held. (has_folders held.station ≡ false)
        × IsFirst (config_of config.now) (state_of held.station)) }
    ensures refused { result ≢ codes.ok → station.new ≡ station.old }
{
    if station.is_open {
        return ALREADY_OPEN;
    }
    match config.config() {
        Ok(config) => open_in_memory(alloc, station, config),
        Err(field) => field.number(),
    }
}

/// Opens a closed handle on a station that has no transactions, sends the files of one folder, each
/// as it is asked for, and receives into another one. Both folders must be there, and are named by
/// their paths in UTF-8. No other station receives into the second one as long as the handle is
/// open.
///
/// Returns 0, `ALREADY_OPEN`, the number of a field as `cfdp_open`, `NO_OUTBOX` if the first folder
/// can't be read, `NO_INBOX` if the second one can't be, `INBOX_IN_USE` if another station receives
/// into it, or `NO_MEMORY`. Unless it is 0, the handle is as it was.
#[unsafe(no_mangle)]
pub extern "C" fn cfdp_open_folders(
    alloc: Global,
    station: &mut CfdpStation,
    config: &CfdpConfig,
    outbox: &[u8],
    inbox: &[u8],
) -> u32
    ensures answers { ((result ≡ codes.ok) ⊎ (result ≡ codes.already_open))
        ⊎ (((result ≡ codes.no_memory) ⊎ codes.NamesField result)
        ⊎ ((12 ≤ result) × (result ≤ 14))) }
    ensures twice { (result ≡ codes.already_open) ↔ (station.old.is_open ≡ true) }
    ensures bad { station.old.is_open ≡ false →
        ((codes.NamesField result → ⊥) ↔ IsUsable config.now) }
    ensures field { codes.NamesField result → (field : BadField)
        × (result ≡ codes.field_number field) × (Suits field config.now → ⊥) }
    ensures opened { result ≡ codes.ok → (station.new.is_open ≡ true)
        × IsSomeAnd station.new.slot.value (λ held. (has_folders held.station ≡ true)
        × IsFirst (config_of config.now) (state_of held.station)) }
    ensures refused { result ≢ codes.ok → station.new ≡ station.old }
{
    if station.is_open {
        return ALREADY_OPEN;
    }
    match config.config() {
        Ok(config) => open_in_folders(alloc, station, config, outbox, inbox),
        Err(field) => field.number(),
    }
}

/// Opens a closed handle on a station over two folders, as `cfdp_open_folders` does, that keeps a
/// journal in the file of the third path. If that is the journal of an earlier run, the
/// transactions that were open then go on, under their numbers, and those that were over are
/// refused. After each `every` units of time it is noted how much was sent and is held.
///
/// Returns 0, `ALREADY_OPEN`, the number of a field as `cfdp_open`, `NO_OUTBOX`, `NO_INBOX`,
/// `INBOX_IN_USE` or `NO_MEMORY` as `cfdp_open_folders`, `NO_JOURNAL` if the journal can't be read
/// or written, `JOURNAL_IN_USE` if another process has it, `JOURNAL_OF_OTHERS` if it is of another
/// entity or peer, or `JOURNAL_MISPLACED` if it would lie in a folder that a station receives into.
/// Unless it is 0, the handle is as it was.
#[unsafe(no_mangle)]
pub extern "C" fn cfdp_open_folders_journal(
    alloc: Global,
    station: &mut CfdpStation,
    config: &CfdpConfig,
    outbox: &[u8],
    inbox: &[u8],
    journal: &[u8],
    every: u64,
) -> u32
    ensures answers { ((result ≡ codes.ok) ⊎ (result ≡ codes.already_open))
        ⊎ (((result ≡ codes.no_memory) ⊎ codes.NamesField result)
        ⊎ (((12 ≤ result) × (result ≤ 14)) ⊎ ((16 ≤ result) × (result ≤ 19)))) }
    ensures twice { (result ≡ codes.already_open) ↔ (station.old.is_open ≡ true) }
    ensures bad { station.old.is_open ≡ false →
        ((codes.NamesField result → ⊥) ↔ IsUsable config.now) }
    ensures field { codes.NamesField result → (field : BadField)
        × (result ≡ codes.field_number field) × (Suits field config.now → ⊥) }
    ensures opened { result ≡ codes.ok → (station.new.is_open ≡ true)
        × IsSomeAnd station.new.slot.value (λ held. has_folders held.station ≡ true) }
    ensures refused { result ≢ codes.ok → station.new ≡ station.old }
{
    if station.is_open {
        return ALREADY_OPEN;
    }
    match config.config() {
        Ok(config) => {
            let paths = Paths {
                outbox,
                inbox,
                journal,
            };
            open_with_journal(alloc, station, config, paths, every)
        }
        Err(field) => field.number(),
    }
}

fn open_with_journal(
    alloc: Global,
    station: &mut CfdpStation,
    config: Valid<StationConfig>,
    paths: Paths<'_>,
    every: u64,
) -> u32
    ensures answers { ((result ≡ codes.ok) ⊎ (result ≡ codes.no_memory))
        ⊎ (((12 ≤ result) × (result ≤ 14)) ⊎ ((16 ≤ result) × (result ≤ 19))) }
    ensures opened { result ≡ codes.ok → (station.new.is_open ≡ true)
        × IsSomeAnd station.new.slot.value (λ held. has_folders held.station ≡ true) }
    ensures refused { result ≢ codes.ok → station.new ≡ station.old }
{
    match Held::resumed(alloc, config, paths, every) {
        Ok(held) => fill(alloc, station, held),
        Err(error) => of_journaled(error),
    }
}

fn open_in_memory(alloc: Global, station: &mut CfdpStation, config: Valid<StationConfig>) -> u32
    ensures answers { (result ≡ codes.ok) ⊎ (result ≡ codes.no_memory) }
    ensures opened { result ≡ codes.ok → (station.new.is_open ≡ true)
        × IsSomeAnd station.new.slot.value (λ held. (has_folders held.station ≡ false)
        × IsFirst config (state_of held.station)) }
    ensures refused { result ≢ codes.ok → station.new ≡ station.old }
{
    match Held::in_memory(alloc, config) {
        Ok(held) => fill(alloc, station, held),
        Err(_) => NO_MEMORY,
    }
}

fn open_in_folders(
    alloc: Global,
    station: &mut CfdpStation,
    config: Valid<StationConfig>,
    outbox: &[u8],
    inbox: &[u8],
) -> u32
    ensures answers { ((result ≡ codes.ok) ⊎ (result ≡ codes.no_memory))
        ⊎ ((12 ≤ result) × (result ≤ 14)) }
    ensures opened { result ≡ codes.ok → (station.new.is_open ≡ true)
        × IsSomeAnd station.new.slot.value (λ held. (has_folders held.station ≡ true)
        × IsFirst config (state_of held.station)) }
    ensures refused { result ≢ codes.ok → station.new ≡ station.old }
{
    match Held::in_folders(alloc, config, outbox, inbox) {
        Ok(held) => fill(alloc, station, held),
        Err(error) => of_folders(error),
    }
}

/// Opens a closed handle on this.
fn fill(alloc: Global, station: &mut CfdpStation, held: Held) -> u32
    ensures answers { (result ≡ codes.ok) ⊎ (result ≡ codes.no_memory) }
    ensures opened { result ≡ codes.ok → (station.new.is_open ≡ true)
        × (station.new.slot.value ≡ Some held) }
    ensures refused { result ≢ codes.ok → station.new ≡ station.old }
{
    match boxed(alloc, held) {
        Ok(held) => {
            *station = CfdpStation::holding(held);
            OK
        }
        Err(_) => NO_MEMORY,
    }
}

/// Gives back all that the handle has; it is closed then. A closed one stays closed.
#[unsafe(no_mangle)]
pub extern "C" fn cfdp_close(alloc: Global, station: &mut CfdpStation)
    ensures { station.new.is_open ≡ false }
{
    if let Some(held) = station.lift(alloc) {
        held.notes_end();
    }
}

fn boxed(alloc: Global, held: Held) -> Result<Box<Held>, AllocError>
    ensures { IfOk result (λ boxed. boxed.value ≡ held) }
{
    match Box::new(alloc, held) {
        Ok(boxed) => Ok(boxed),
        Err(refused) => {
            drop(refused);
            Err(AllocError)
        }
    }
}
