//! The published files of a station with its files in memory, by their indexes in ascending order
//! of their names, until they are dropped.
ghost use Rattle.std.specs.Prelude.{◌≡◌, ◌≢◌, ◌+◌, false, length, nat_le, slice_get};
ghost use Rattle.std.specs.BTreeMap.{IsOrdered};
ghost use Rattle.std.specs.Cmp.Lexicographic.{slice_cmp};
ghost use Rattle.std.specs.FinMap as map;
ghost use Rattle.std.specs.FinMap.{entries};
ghost use Rattle.std.specs.Option.{option_map};
ghost use Rattle.std.specs.Ordering.{nat_cmp};
ghost use Rattle.cfdp_c.specs.Codes as codes;
ghost use Rattle.cfdp_c.specs.Files.{NamesFile, ReadsFile, ReadsIf, RemovesFile, files_told};
ghost use Rattle.cfdp_c.specs.Handles.{Becomes};
ghost use Rattle.cfdp_c.specs.Held.{has_folders, state_of, OfMemory};

use crate::codes::{BAD_ARGUMENT, CLOSED, IN_FOLDERS, NO_ROOM, NOTHING, OK};
use crate::handle::CfdpStation;
use crate::held::{AnyStation, Held};
use crate::room::put;
use cfdp_station::Station;
use cfdp_store::{Files, MemoryInbox, Outbox};
use std::alloc::Global;
use std::collections::BTreeMap;

/// How long the name of a file is, and the file.
#[repr(C)]
#[derive(Clone, Copy)]
pub struct CfdpFile {
    pub name_len: usize,
    pub size: usize,
}

/// Returns the entry at an index of a map.
fn entry_at(files: &BTreeMap<Vec<u8>, Vec<u8>>, place: usize) -> Option<(&Vec<u8>, &Vec<u8>)>
    ensures at { option_map (λ e. (e.0.now, e.1.now)) result ≡ slice_get files.now.entries place }
    ensures ordered { IsOrdered (λ a b. slice_cmp nat_cmp a.items b.items) files.now }
{
    files.iter().nth(place)
}

/// Returns the name and the octets of the file at an index.
fn file_at(files: &Files, place: usize) -> Option<(&Vec<u8>, &Vec<u8>)>
    ensures { option_map (λ f. (f.0.now.items, f.1.now.items)) result
        ≡ slice_get (entries files.now) place }
{
    entry_at(files.entries(), place)
}

/// Returns how many entries a map has.
fn entry_count(files: &BTreeMap<Vec<u8>, Vec<u8>>) -> usize
    ensures count { result ≡ length files.now.entries }
    ensures ordered { IsOrdered (λ a b. slice_cmp nat_cmp a.items b.items) files.now }
{
    // For the prover: what is known of the order of the keys is known of an iterator.
    let _entries = files.iter();
    files.len()
}

/// Returns how many files there are.
fn count(files: &Files) -> usize
    ensures { result ≡ length (entries files.now) }
{
    entry_count(files.entries())
}

/// Copies octets from an offset on into borrowed room, if there are as many.
fn read(octets: &[u8], offset: usize, room: &mut [u8]) -> u32
    ensures reads { ReadsIf (nat_le (offset + length room.old) (length octets.now)) octets.now
        offset result room.old room.new }
    ensures kept { result ≢ codes.ok → room.new ≡ room.old }
{
    if octets.len() < offset || octets.len() - offset < room.len() {
        return BAD_ARGUMENT;
    }
    let end = offset + room.len();
    room.copy_from_slice(&octets[offset..end]);
    OK
}

/// Writes how long the name and the file at an index are, and the name.
fn tell_file(files: &Files, place: usize, out: &mut CfdpFile, name: &mut [u8]) -> u32
    ensures names { NamesFile (slice_get (entries files.now) place) result out.old out.new
        name.old name.new }
    ensures kept { result ≢ codes.ok → (out.new ≡ out.old) × (name.new ≡ name.old) }
{
    let Some((named, octets)) = file_at(files, place) else {
        return NOTHING;
    };
    if !put(named.as_slice(), name) {
        return NO_ROOM;
    }
    *out = CfdpFile {
        name_len: named.len(),
        size: octets.len(),
    };
    OK
}

/// Reads from the file at an index.
fn read_at(files: &Files, place: usize, offset: usize, out: &mut [u8]) -> u32
    ensures reads { ReadsFile (slice_get (entries files.now) place) offset result out.old
        out.new }
    ensures kept { result ≢ codes.ok → out.new ≡ out.old }
{
    match file_at(files, place) {
        Some((_, octets)) => read(octets.as_slice(), offset, out),
        None => NOTHING,
    }
}

/// Removes a published file.
fn remove<O: Outbox>(station: &mut Station<O, MemoryInbox>, name: &[u8]) -> u32
    ensures { RemovesFile (map.get station.old.entity.state.table.files name.now) name.now
        result station.old station.new }
{
    // If there is none, the clause says that nothing changed.
    if station.inbox().published().get(name).is_none() {
        return NOTHING;
    }
    let _ = station.remove_file(name);
    OK
}

impl Held {
    fn file_count(&self) -> usize
        ensures { result ≡ files_told self.now.station }
    {
        match &self.station {
            AnyStation::Memory(station) => count(station.inbox().published()),
            AnyStation::Folders(_) => 0,
        }
    }

    fn file(&self, place: usize, out: &mut CfdpFile, name: &mut [u8]) -> u32
        ensures names { OfMemory self.now.station result (NamesFile
            (slice_get (entries (state_of self.now.station).entity.state.table.files) place)
            result out.old out.new name.old name.new) (out.new ≡ out.old) }
        ensures kept { result ≢ codes.ok → (out.new ≡ out.old) × (name.new ≡ name.old) }
    {
        match &self.station {
            AnyStation::Memory(station) => {
                tell_file(station.inbox().published(), place, out, name)
            }
            AnyStation::Folders(_) => IN_FOLDERS,
        }
    }

    fn read_file(&self, place: usize, offset: usize, out: &mut [u8]) -> u32
        ensures reads { OfMemory self.now.station result (ReadsFile
            (slice_get (entries (state_of self.now.station).entity.state.table.files) place)
            offset result out.old out.new) (out.new ≡ out.old) }
        ensures kept { result ≢ codes.ok → out.new ≡ out.old }
    {
        match &self.station {
            AnyStation::Memory(station) => {
                read_at(station.inbox().published(), place, offset, out)
            }
            AnyStation::Folders(_) => IN_FOLDERS,
        }
    }

    fn remove_file(&mut self, name: &[u8]) -> u32
        ensures removes { OfMemory self.old.station result (RemovesFile
            (map.get (state_of self.old.station).entity.state.table.files name.now) name.now
            result (state_of self.old.station) (state_of self.new.station))
            (state_of self.new.station ≡ state_of self.old.station) }
        ensures place { has_folders self.new.station ≡ has_folders self.old.station }
    {
        match &mut self.station {
            AnyStation::Memory(station) => remove(station, name),
            AnyStation::Folders(_) => IN_FOLDERS,
        }
    }
}

/// Returns how many files are published in memory; 0 if the handle is closed, or has folders.
#[unsafe(no_mangle)]
pub extern "C" fn cfdp_file_count(alloc: Global, station: &mut CfdpStation) -> usize
    ensures open { station.new.is_open ≡ station.old.is_open }
    ensures closed { station.old.is_open ≡ false → result ≡ 0 }
    ensures count { Becomes station.old station.new (λ x y. (y ≡ x)
        × (result ≡ files_told x.station)) }
{
    let Some(held) = station.lift(alloc) else {
        return 0;
    };
    let count = held.file_count();
    *station = CfdpStation::holding(held);
    count
}

/// Writes the size of the published file at an index, and copies its name into borrowed room of 255
/// octets or less. Returns 0, `CLOSED`, `IN_FOLDERS` if they lie in a folder, `NOTHING` if there
/// are not so many files, or `NO_ROOM`.
#[unsafe(no_mangle)]
pub extern "C" fn cfdp_file(
    alloc: Global,
    station: &mut CfdpStation,
    place: usize,
    out: &mut CfdpFile,
    name: &mut [u8],
) -> u32
    ensures open { station.new.is_open ≡ station.old.is_open }
    ensures closed { station.old.is_open ≡ false → result ≡ codes.closed }
    ensures kept { result ≢ codes.ok → (out.new ≡ out.old) × (name.new ≡ name.old) }
    ensures names { Becomes station.old station.new (λ x y. (y ≡ x)
        × OfMemory x.station result (NamesFile
        (slice_get (entries (state_of x.station).entity.state.table.files) place) result
        out.old out.new name.old name.new) (out.new ≡ out.old)) }
{
    let Some(held) = station.lift(alloc) else {
        return CLOSED;
    };
    let answer = held.file(place, out, name);
    *station = CfdpStation::holding(held);
    answer
}

/// Fills borrowed room with octets of the published file at an index, from an offset on. Returns 0,
/// `CLOSED`, `IN_FOLDERS` if they lie in a folder, `NOTHING` if there are not so many files, or
/// `BAD_ARGUMENT` if the file ends before that.
#[unsafe(no_mangle)]
pub extern "C" fn cfdp_read_file(
    alloc: Global,
    station: &mut CfdpStation,
    place: usize,
    offset: usize,
    out: &mut [u8],
) -> u32
    ensures open { station.new.is_open ≡ station.old.is_open }
    ensures closed { station.old.is_open ≡ false → result ≡ codes.closed }
    ensures kept { result ≢ codes.ok → out.new ≡ out.old }
    ensures reads { Becomes station.old station.new (λ x y. (y ≡ x)
        × OfMemory x.station result (ReadsFile
        (slice_get (entries (state_of x.station).entity.state.table.files) place) offset result
        out.old out.new) (out.new ≡ out.old)) }
{
    let Some(held) = station.lift(alloc) else {
        return CLOSED;
    };
    let answer = held.read_file(place, offset, out);
    *station = CfdpStation::holding(held);
    answer
}

/// Drops the published file of a name: the indexes of those after it are one less then. Returns 0,
/// `CLOSED`, `IN_FOLDERS` if they lie in a folder, or `NOTHING` if there is no file of that name.
#[unsafe(no_mangle)]
pub extern "C" fn cfdp_remove_file(alloc: Global, station: &mut CfdpStation, name: &[u8]) -> u32
    ensures open { station.new.is_open ≡ station.old.is_open }
    ensures closed { station.old.is_open ≡ false → result ≡ codes.closed }
    ensures removes { Becomes station.old station.new (λ x y. OfMemory x.station result
        (RemovesFile (map.get (state_of x.station).entity.state.table.files name.now) name.now
        result (state_of x.station) (state_of y.station))
        (state_of y.station ≡ state_of x.station)) }
{
    let Some(mut held) = station.lift(alloc) else {
        return CLOSED;
    };
    let answer = held.remove_file(name);
    *station = CfdpStation::holding(held);
    answer
}
