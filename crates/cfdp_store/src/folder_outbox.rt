ghost use Rattle.cfdp_store.specs.Files.{octets_in};
ghost use Rattle.cfdp_store.specs.Folder.{AnswersLook};
ghost use Rattle.cfdp_store.specs.Names.{Allows};
ghost use Rattle.cfdp_store.specs.Rereading.{LooksFor, Rereads};
ghost use Rattle.cfdp_store.specs.Shown.{seen_by};
ghost use Rattle.cfdp_store.specs.Stores.{failures_after};
ghost use Rattle.std.specs.FinMap as map;
ghost use Rattle.std.specs.Prelude.{◌≡◌, ◌+◌, ◌≤◌, ◌↔◌, Err, true, false, is_some, IsSome, IfOk};
ghost use Rattle.std.specs.Prelude.{OnErr, OnOk, length, take, drop};

use crate::catalog::Catalog;
use crate::sources::Sources;
use crate::{FolderError, NameRule, Outbox, SeekingOutbox, StoreError};
use ghost_list::GhostList;
use std::alloc::{AllocError, Global};
use std::fs::Files;
use std::io::ErrorKind;
use std::snapshot::Snapshot;

/// The files of a folder, read as they are asked for. It takes no more memory however long they
/// are, up to 2^63 - 1 octets each.
///
/// It has a file once it has looked for it, and as it was then: a plain file of the folder itself,
/// since no link is followed. At most 16 files are open at once, each with one block of 65,536
/// octets in memory.
///
/// A read fails, with the fault `Changed`, if the file isn't as it was when it was looked for. Its
/// device, its number there, its length and its time of change show that. They are asked for each
/// time that a block was read, before any octet of it is used. A change isn't seen if that time is
/// too coarse to show it, or if it was made in memory that is shared with the file.
#[derive(Drop)]
pub struct FolderOutbox<F: Files + Drop> {
    sources: Sources<F>,
    catalog: Catalog,
    names: NameRule,
    failed: u64,
    fault: Option<FolderError>,
}

impl<F: Files + Drop> FolderOutbox<F> {
    /// Returns an outbox over a folder, which must be there. Nothing was looked for yet. Files may
    /// have the names of [`NameRule::Portable`].
    ///
    /// `expected` is for clauses alone, and code may give anything: what each look that finds a
    /// file will find, in turn, as the octets of that file. If what is read agrees with them, the
    /// outbox's files are these. All that is promised of an outbox holds whatever is expected.
    ///
    /// # Errors
    ///
    /// `AllocError` if there is no memory for the folder's name.
    pub fn new(
        files: F,
        alloc: Global,
        folder: &str,
        expected: Snapshot<GhostList<GhostList<u8>>>,
    ) -> Result<Self, AllocError>
        ensures files { IfOk result (λ o. ⟦<FolderOutbox<F> as Outbox>⟧.files o ≡ map.empty) }
        ensures stands { IfOk result (λ o. ⟦<FolderOutbox<F> as Outbox>⟧.stands o ≡ true) }
        ensures failures { IfOk result (λ o. ⟦<FolderOutbox<F> as Outbox>⟧.failures o ≡ 0) }
        ensures names { IfOk result (λ o. o.names ≡ NameRule.Portable) }
        ensures expected { IfOk result (λ o. o.catalog.expected.value ≡ expected.value) }
    {
        FolderOutbox::with_names(files, alloc, folder, NameRule::Portable, expected)
    }

    /// Returns an outbox as [`new`](Self::new) does, whose files may have the names that a rule
    /// allows.
    ///
    /// # Errors
    ///
    /// `AllocError` if there is no memory for the folder's name.
    pub fn with_names(
        files: F,
        alloc: Global,
        folder: &str,
        names: NameRule,
        expected: Snapshot<GhostList<GhostList<u8>>>,
    ) -> Result<Self, AllocError>
        ensures files { IfOk result (λ o. ⟦<FolderOutbox<F> as Outbox>⟧.files o ≡ map.empty) }
        ensures stands { IfOk result (λ o. ⟦<FolderOutbox<F> as Outbox>⟧.stands o ≡ true) }
        ensures failures { IfOk result (λ o. ⟦<FolderOutbox<F> as Outbox>⟧.failures o ≡ 0) }
        ensures names { IfOk result (λ o. o.names ≡ names) }
        ensures expected { IfOk result (λ o. o.catalog.expected.value ≡ expected.value) }
    {
        Ok(FolderOutbox {
            sources: Sources::new(files, alloc, String::from_str(alloc, folder)?),
            catalog: Catalog::new(alloc, expected),
            names,
            failed: 0,
            fault: None,
        })
    }

    /// Returns why the last call that failed did so.
    pub fn fault(&self) -> Option<FolderError> {
        self.fault
    }

    /// Counts a call that failed, and keeps why.
    fn refuse(&mut self, error: FolderError) -> StoreError
        ensures name { (result ≡ StoreError.Name) ↔ (error ≡ FolderError.Name) }
        ensures catalog { self.new.catalog ≡ self.old.catalog }
        ensures names { self.new.names ≡ self.old.names }
        ensures failed { self.new.failed ≡ failures_after self.old.failed false }
    {
        self.failed = self.failed.saturating_add(1);
        self.fault = Some(error);
        StoreError::from(error)
    }

    fn try_read(&mut self, name: &[u8], offset: u64, out: &mut [u8]) -> Result<(), FolderError>
        requires is_there { IsSome (map.get (seen_by self.old.catalog.expected.value
            self.old.catalog.shown).files name.now) }
        requires within { offset + length out.old ≤ length (octets_in
            (seen_by self.old.catalog.expected.value self.old.catalog.shown).files name.now) }
        ensures octets { OnOk result (out.new ≡ take (length out.old) (drop offset (octets_in
            (seen_by self.new.catalog.expected.value self.new.catalog.shown).files name.now))) }
        ensures rereads { Rereads
            (seen_by self.old.catalog.expected.value self.old.catalog.shown).stands
            (seen_by self.new.catalog.expected.value self.new.catalog.shown).stands
            (seen_by self.old.catalog.expected.value self.old.catalog.shown).files
            (seen_by self.new.catalog.expected.value self.new.catalog.shown).files }
        ensures names { self.new.names ≡ self.old.names }
        ensures failed { self.new.failed ≡ self.old.failed }
    {
        let Some(stamp) = self.catalog.stamp(name) else {
            return Err(FolderError::System(ErrorKind::NotFound));
        };
        self.sources.read(name, stamp, offset, out)?;
        self.catalog.read(name, offset, out);
        Ok(())
    }

    fn try_look(&mut self, name: &[u8]) -> Result<bool, FolderError>
        ensures name { (result ≡ Err FolderError.Name) ↔ (Allows self.old.names name.now → ⊥) }
        ensures names { self.new.names ≡ self.old.names }
        ensures has { IfOk result (λ has. has ≡ is_some (map.get
            (seen_by self.new.catalog.expected.value self.new.catalog.shown).files name.now)) }
        ensures looks { LooksFor name.now
            (seen_by self.old.catalog.expected.value self.old.catalog.shown).stands
            (seen_by self.new.catalog.expected.value self.new.catalog.shown).stands
            (seen_by self.old.catalog.expected.value self.old.catalog.shown).files
            (seen_by self.new.catalog.expected.value self.new.catalog.shown).files }
        ensures err { OnErr result (
            seen_by self.new.catalog.expected.value self.new.catalog.shown
            ≡ seen_by self.old.catalog.expected.value self.old.catalog.shown) }
        ensures failed { self.new.failed ≡ self.old.failed }
    {
        if !self.names.allows(name) {
            return Err(FolderError::Name);
        }
        match self.sources.look(name)? {
            Some(stamp) => {
                self.catalog.find(name, stamp)?;
                Ok(true)
            }
            None => {
                self.catalog.forget(name);
                Ok(false)
            }
        }
    }
}

impl<F: Files + Drop> Outbox for FolderOutbox<F> {
    ghost files = { λ o. (seen_by o.catalog.expected.value o.catalog.shown).files };

    ghost stands = { λ o. (seen_by o.catalog.expected.value o.catalog.shown).stands };

    ghost failures = { λ o. o.failed };

    ghost steps = { λ o _ p. p.names ≡ o.names };

    fn len(&mut self, name: &[u8]) -> Result<Option<u64>, StoreError> {
        Ok(self.catalog.len(name))
    }

    fn read(&mut self, name: &[u8], offset: u64, out: &mut [u8]) -> Result<(), StoreError> {
        match self.try_read(name, offset, out) {
            Ok(()) => Ok(()),
            Err(error) => Err(self.refuse(error)),
        }
    }

    fn failures(&self) -> u64 {
        self.failed
    }
}

impl<F: Files + Drop> SeekingOutbox for FolderOutbox<F> {
    ghost answers = { λ o name answer p. AnswersLook o.names name answer × (p.names ≡ o.names) };

    /// Looks at the folder. It reads no octet of the file, and opens nothing.
    ///
    /// # Errors
    ///
    /// `Name` if a file in a folder can't have that name; `Device` if it is no plain file, or the
    /// system refused; `NoMemory` if there is none for it. [`fault`](Self::fault) says more.
    fn look_for(&mut self, name: &[u8]) -> Result<bool, StoreError> {
        match self.try_look(name) {
            Ok(has) => Ok(has),
            Err(error) => Err(self.refuse(error)),
        }
    }
}
