ghost use Rattle.cfdp_store.specs.Files.{octets_in};
ghost use Rattle.cfdp_store.specs.Rereading.{LooksFor, Rereads};
ghost use Rattle.cfdp_store.specs.Shown.{AreLens, seen_by, there};
ghost use Rattle.std.specs.FinMap as map;
ghost use Rattle.std.specs.Option.{option_map};
ghost use Rattle.std.specs.Prelude.{◌≡◌, ◌+◌, ◌≤◌, [], None, IsSome, OnErr, OnOk, length};

use crate::known::{Stamp, Stamps};
use crate::sources::Shown;
use ghost_list::GhostList;
use std::alloc::{AllocError, Global};
use std::snapshot::Snapshot;

/// What is known of the files of a folder: the stamp of each that was found, and, for clauses
/// alone, what was expected of them and what the system showed.
#[derive(Drop)]
pub struct Catalog {
    alloc: Global,
    stamps: Stamps,
    pub expected: Snapshot<GhostList<GhostList<u8>>>,
    pub shown: GhostList<Shown>,
    ghost lens: { AreLens stamps (seen_by expected.value shown).files },
}

impl Catalog {
    /// Returns a catalog in which nothing was found yet.
    pub fn new(alloc: Global, expected: Snapshot<GhostList<GhostList<u8>>>) -> Self
        ensures shown { result.shown ≡ [] }
        ensures expected { result.expected.value ≡ expected.value }
    {
        Catalog {
            alloc,
            stamps: Stamps::new(alloc),
            expected,
            shown: GhostList::new(),
        }
    }

    /// Returns how long the file of that name is, if it was found.
    pub fn len(&self, name: &[u8]) -> Option<u64>
        ensures { result ≡ option_map length
            (map.get (seen_by self.now.expected.value self.now.shown).files name.now) }
    {
        match self.stamps.get(name) {
            Some(stamp) => Some(stamp.len),
            None => None,
        }
    }

    /// Returns the stamp of the file of that name, if it was found.
    pub fn stamp(&self, name: &[u8]) -> Option<Stamp> {
        self.stamps.get(name)
    }

    /// Notes that a look found a file.
    pub fn find(&mut self, name: &[u8], stamp: Stamp) -> Result<(), AllocError>
        ensures has { OnOk result (IsSome (map.get
            (seen_by self.new.expected.value self.new.shown).files name.now)) }
        ensures looks { OnOk result (LooksFor name.now
            (seen_by self.old.expected.value self.old.shown).stands
            (seen_by self.new.expected.value self.new.shown).stands
            (seen_by self.old.expected.value self.old.shown).files
            (seen_by self.new.expected.value self.new.shown).files) }
        ensures err { OnErr result (seen_by self.new.expected.value self.new.shown
            ≡ seen_by self.old.expected.value self.old.shown) }
    {
        self.stamps
            .insert(Vec::from_slice(self.alloc, name)?, stamp)?;
        self.shown
            .put(&Shown::Found(GhostList::of(name), stamp.len));
        Ok(())
    }

    /// Notes that a look found no file of this name.
    pub fn forget(&mut self, name: &[u8])
        ensures none { map.get (seen_by self.new.expected.value self.new.shown).files name.now
            ≡ None }
        ensures looks { LooksFor name.now
            (seen_by self.old.expected.value self.old.shown).stands
            (seen_by self.new.expected.value self.new.shown).stands
            (seen_by self.old.expected.value self.old.shown).files
            (seen_by self.new.expected.value self.new.shown).files }
    {
        self.stamps.remove(name);
        self.shown.put(&Shown::Missing(GhostList::of(name)));
    }

    /// Notes that a file has these octets, from an offset on.
    pub fn read(&mut self, name: &[u8], offset: u64, octets: &[u8])
        requires is_there { IsSome (map.get
            (seen_by self.old.expected.value self.old.shown).files name.now) }
        requires within { offset + length octets.now ≤ length
            (octets_in (seen_by self.old.expected.value self.old.shown).files name.now) }
        ensures gives { octets.now ≡ there octets.now offset
            (octets_in (seen_by self.new.expected.value self.new.shown).files name.now) }
        ensures rereads { Rereads
            (seen_by self.old.expected.value self.old.shown).stands
            (seen_by self.new.expected.value self.new.shown).stands
            (seen_by self.old.expected.value self.old.shown).files
            (seen_by self.new.expected.value self.new.shown).files }
    {
        self.shown.put(&Shown::Read(GhostList::of(name), offset, GhostList::of(octets)));
    }
}
