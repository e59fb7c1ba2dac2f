ghost use Rattle.std.specs.Prelude.{◌≡◌, ◌+◌, ◌<◌, ◌^◌, refl, Some, None, true, false, length};
ghost use Rattle.std.specs.Prelude.{IsSome, IfOk, OnErr, OnOk};
ghost use Rattle.std.specs.FinMap as map;
ghost use Rattle.std.specs.Option.{option_map};
ghost use Rattle.cfdp_header.specs.declared.value.TransactionId.{TransactionId};
ghost use Rattle.cfdp_store.specs.Resuming.{AreStaged, ReachesTo, ShowsStaged};
ghost use Rattle.cfdp_store.specs.Stores.{failures_after};
ghost use Rattle.cfdp_store.specs.Staged.{OthersKeep, written, front, staged_for};
ghost use Rattle.cfdp_store.specs.Memory.{octets_for, Succeeds, FailsForMemoryAlone};

use crate::pieces::Pieces;
use crate::{Files, Inbox, Outbox, ResumingInbox, SeekingOutbox, SteadyOutbox, StoreError};
use cfdp_header::TransactionId;
use std::alloc::{AllocError, Global};
use std::collections::HashMap;
use std::marker::Model;

/// Files in memory that can be sent. No call fails. Contracts see it as the map from their names to
/// their octets.
#[derive(Debug, Drop)]
pub struct MemoryOutbox {
    files: Files,
}

impl Model for MemoryOutbox {
    ghost use Rattle.std.specs.Prelude.{ℕ, List};
    ghost use Rattle.std.specs.Ordering.{nat_cmp};
    ghost use Rattle.std.specs.Cmp.Lexicographic.{slice_cmp};
    ghost use Rattle.std.specs.Coded.{coded_ℕ, coded_list};
    ghost use Rattle.std.specs.FinMap as map;

    ghost Value = { map.FinMap (slice_cmp nat_cmp) (List ℕ) };

    ghost coded = { map.code (coded_list coded_ℕ) (coded_list coded_ℕ) };

    ghost view = { λ o. o.files };
}

impl MemoryOutbox {
    /// Returns no files. It takes no memory; `alloc` serves what is added later.
    pub fn new(alloc: Global) -> Self
        ensures { result ≡ map.empty }
    {
        MemoryOutbox {
            files: Files::new(alloc),
        }
    }

    /// Returns an outbox with these files. It takes no memory.
    pub fn with_files(files: Files) -> Self
        ensures { result ≡ files }
    {
        MemoryOutbox { files }
    }

    /// Puts a file under a name, in place of the file that has it, if there is one.
    ///
    /// # Errors
    ///
    /// `AllocError` if there is no memory for it. The files are then as before.
    pub fn add(&mut self, name: Vec<u8>, octets: Vec<u8>) -> Result<(), AllocError>
        ensures ok { OnOk result (self.new ≡ map.insert self.old name.items octets.items) }
        ensures err { OnErr result (self.new ≡ self.old) }
    {
        self.files.insert(name, octets)
    }

    /// Removes the file of a name, if there is one, and returns its octets. The other files stay.
    pub fn remove(&mut self, name: &[u8]) -> Option<Vec<u8>>
        ensures octets { option_map (λ octets. octets.items) result
            ≡ map.get self.old name.now }
        ensures files { self.new ≡ map.remove self.old name.now }
    {
        self.files.remove(name)
    }
}

impl Outbox for MemoryOutbox {
    ghost files = { λ o. o };

    ghost failures = { λ _. 0 };

    ghost steps = { λ _ call _. Succeeds call };

    fn len(&mut self, name: &[u8]) -> Result<Option<u64>, StoreError> {
        Ok(self.files.get(name).map(|octets| octets.len() as u64))
    }

    fn read(&mut self, name: &[u8], offset: u64, out: &mut [u8]) -> Result<(), StoreError> {
        if let Some(octets) = self.files.get(name) {
            let start = offset as usize;
            out.copy_from_slice(&octets[start..start + out.len()]);
        }
        Ok(())
    }

    fn failures(&self) -> u64 {
        0
    }
}

impl SteadyOutbox for MemoryOutbox {
    ghost steady = { λ _. refl };
}

/// It has the files that it was given.
impl SeekingOutbox for MemoryOutbox {
    fn look_for(&mut self, name: &[u8]) -> Result<bool, StoreError> {
        Ok(self.files.get(name).is_some())
    }
}

/// Files in memory, as they were received. Any name is accepted, and a call fails only if memory
/// runs out; `discard` never fails.
#[derive(Debug, Drop)]
pub struct MemoryInbox {
    files: Files,
    staged: HashMap<TransactionId, Pieces>,
    failed: u64,
    alloc: Global,
}

impl MemoryInbox {
    /// Returns an inbox with nothing published and nothing staged. It takes no memory; `alloc`
    /// serves what comes later.
    pub fn new(alloc: Global) -> Self
        ensures published { ⟦<MemoryInbox as Inbox>⟧.published result ≡ map.empty }
        ensures staged { (id : TransactionId) → ⟦<MemoryInbox as Inbox>⟧.staged result id ≡ None }
        ensures failures { ⟦<MemoryInbox as Inbox>⟧.failures result ≡ 0 }
    {
        MemoryInbox {
            files: Files::new(alloc),
            staged: HashMap::new(alloc),
            failed: 0,
            alloc,
        }
    }

    /// Returns an inbox in which these files are published already. Nothing is staged. It takes no
    /// memory.
    pub fn with_files(alloc: Global, files: Files) -> Self
        ensures published { ⟦<MemoryInbox as Inbox>⟧.published result ≡ files }
        ensures staged { (id : TransactionId) → ⟦<MemoryInbox as Inbox>⟧.staged result id ≡ None }
        ensures failures { ⟦<MemoryInbox as Inbox>⟧.failures result ≡ 0 }
    {
        MemoryInbox {
            files,
            ..MemoryInbox::new(alloc)
        }
    }

    /// Returns the published files.
    pub fn published(&self) -> &Files
        ensures { result.now ≡ ⟦<MemoryInbox as Inbox>⟧.published self.now }
    {
        &self.files
    }

    /// Removes a published file, if there is one of that name, and returns its octets. What is
    /// staged, and the other files, stay.
    pub fn remove(&mut self, name: &[u8]) -> Option<Vec<u8>>
        ensures octets { option_map (λ octets. octets.items) result
            ≡ map.get (⟦<MemoryInbox as Inbox>⟧.published self.old) name.now }
        ensures published { ⟦<MemoryInbox as Inbox>⟧.published self.new
            ≡ map.remove (⟦<MemoryInbox as Inbox>⟧.published self.old) name.now }
        ensures staged { ⟦<MemoryInbox as Inbox>⟧.staged self.new
            ≡ ⟦<MemoryInbox as Inbox>⟧.staged self.old }
        ensures failures { ⟦<MemoryInbox as Inbox>⟧.failures self.new
            ≡ ⟦<MemoryInbox as Inbox>⟧.failures self.old }
    {
        self.files.remove(name)
    }

    /// Counts a failure that came because memory ran out, and returns it.
    fn no_memory(&mut self) -> StoreError
        ensures counted { self.new
            ≡ record self.old { failed = failures_after self.old.failed false } }
        ensures error { result ≡ StoreError.NoMemory }
    {
        self.failed = self.failed.saturating_add(1);
        StoreError::NoMemory
    }

    fn try_publish(&mut self, id: TransactionId, name: &[u8], size: u64) -> Result<(), AllocError>
        ensures ok { OnOk result (self.new.files ≡ map.insert self.old.files name.now
            (front (staged_for (octets_for self.old.staged) id) size)) }
        ensures err { OnErr result (self.new.files ≡ self.old.files) }
        ensures staged { octets_for self.new.staged id ≡ None }
        ensures others { OthersKeep id (octets_for self.old.staged) (octets_for self.new.staged) }
        ensures failed { self.new.failed ≡ self.old.failed }
    {
        let pieces = match self.staged.remove(&id) {
            Some(pieces) => pieces,
            None => Pieces::new(self.alloc),
        };
        let mut octets = pieces.into_front(size)?;
        // If a vector grew by doubling, it may have as much room again.
        octets.shrink_to_fit();
        self.files
            .insert(Vec::from_slice(self.alloc, name)?, octets)
    }
}

/// Stages octets of a transaction, which must be begun.
fn stage(
    staged: &mut HashMap<TransactionId, Pieces>,
    id: TransactionId,
    offset: u64,
    octets: &[u8],
) -> Result<(), AllocError>
    requires { IsSome (octets_for staged.old id) }
    ensures ok { OnOk result (octets_for staged.new id
        ≡ Some (written (staged_for (octets_for staged.old) id) offset octets.now)) }
    ensures others { OthersKeep id (octets_for staged.old) (octets_for staged.new) }
{
    match staged.get_mut(&id) {
        Some(pieces) => pieces.write(offset, octets),
        None => Ok(()),
    }
}

impl Inbox for MemoryInbox {
    ghost published = { λ i. i.files };

    ghost staged = { λ i. octets_for i.staged };

    ghost failures = { λ i. i.failed };

    ghost steps = { λ _ call _. FailsForMemoryAlone call };

    fn begin(&mut self, id: TransactionId) -> Result<(), StoreError> {
        match self.staged.insert(id, Pieces::new(self.alloc)) {
            Ok(_) => Ok(()),
            Err(_) => Err(self.no_memory()),
        }
    }

    fn write(&mut self, id: TransactionId, offset: u64, octets: &[u8]) -> Result<(), StoreError> {
        match stage(&mut self.staged, id, offset, octets) {
            Ok(()) => Ok(()),
            Err(_) => Err(self.no_memory()),
        }
    }

    fn publish(&mut self, id: TransactionId, name: &[u8], size: u64) -> Result<(), StoreError> {
        match self.try_publish(id, name, size) {
            Ok(()) => Ok(()),
            Err(_) => Err(self.no_memory()),
        }
    }

    fn discard(&mut self, id: TransactionId) -> Result<(), StoreError> {
        let _ = self.staged.remove(&id);
        Ok(())
    }

    fn failures(&self) -> u64 {
        self.failed
    }
}

/// Returns `true` if something is begun for a transaction, and the octet before `end` is staged, if
/// `end` isn't 0.
fn reaches(staged: &HashMap<TransactionId, Pieces>, id: TransactionId, end: u64) -> bool
    ensures yes { result ≡ true → ReachesTo end (octets_for staged.now id) }
    ensures no { result ≡ false → ReachesTo end (octets_for staged.now id) → ⊥ }
{
    match staged.get(&id) {
        Some(pieces) => end == 0 || pieces.octet_at(end - 1).is_some(),
        None => false,
    }
}

/// Copies staged octets of a transaction, and returns `true` if each of them was written.
fn show(
    staged: &HashMap<TransactionId, Pieces>,
    id: TransactionId,
    offset: u64,
    out: &mut [u8],
) -> bool
    requires { offset + length out.old < 2 ^ 64 }
    ensures staged { result ≡ true → octets_for staged.now id
        ≡ Some (written (staged_for (octets_for staged.now) id) offset out.new) }
    ensures yes { result ≡ true → AreStaged offset (length out.new) (octets_for staged.now id) }
    ensures no { result ≡ false
        → AreStaged offset (length out.new) (octets_for staged.now id) → ⊥ }
{
    match staged.get(&id) {
        Some(pieces) => pieces.read(offset, out),
        None => false,
    }
}

/// The part of a file is what was staged for its transaction before, by whatever run. No call
/// fails, and none changes anything.
impl ResumingInbox for MemoryInbox {
    ghost resumes = { λ old call new. ShowsStaged (octets_for old.staged) (octets_for new.staged)
        call };

    fn adopt(&mut self, id: TransactionId, end: u64) -> Result<bool, StoreError> {
        Ok(reaches(&self.staged, id, end))
    }

    fn read(&mut self, id: TransactionId, offset: u64, out: &mut [u8]) -> Result<bool, StoreError> {
        Ok(show(&self.staged, id, offset, out))
    }
}
