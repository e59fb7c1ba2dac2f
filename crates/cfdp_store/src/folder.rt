//! Received files in folders of the system.
ghost use Rattle.std.specs.FinMap as map;
ghost use Rattle.std.specs.Prelude.{◌≡◌, ◌↔◌, Bool, None, IsSome, IsTrue, is_ok, Err, IfOk, OnErr};
ghost use Rattle.std.specs.Prelude.{OnOk, Ok};
ghost use Rattle.cfdp_store.specs.Disk.{published_by, staged_by};
ghost use Rattle.cfdp_store.specs.Folder.{AnswersNames};
ghost use Rattle.cfdp_store.specs.Names.{Allows};
ghost use Rattle.cfdp_store.specs.Stores.{failures_after};
ghost use Rattle.cfdp_store.specs.Staged.{OthersKeep, front, staged_for};

use crate::folder_error::FolderError;
use crate::parts::Parts;
use crate::{Inbox, NameRule, ResumingInbox, StoreError};
use cfdp_header::TransactionId;
use std::alloc::{AllocError, Global};
use std::fs::Files;

/// Received files in a folder. What was staged or published lies there, and takes no memory here.
///
/// A file is published whole or not at all. Its octets are written as they come, under a name of
/// its own that begins with a point, which no published file has, and flushed to the device. Only
/// then is it given its name, in one step, in place of the file that has it. If a call fails, what
/// it leaves is removed if it can be. At most 16 of these files are open at once.
#[derive(Drop)]
pub struct FolderInbox<F: Files + Drop> {
    parts: Parts<F>,
    names: NameRule,
    failed: u64,
    fault: Option<FolderError>,
}

impl<F: Files + Drop> FolderInbox<F> {
    /// Returns an inbox over a folder, which must be there. Nothing is published or staged. Files
    /// may have the names of [`NameRule::Portable`].
    ///
    /// # Errors
    ///
    /// `AllocError` if there is no memory for the folder's name.
    pub fn new(files: F, alloc: Global, folder: &str) -> Result<Self, AllocError>
        ensures published { IfOk result (λ i. published_by i.parts.done ≡ map.empty) }
        ensures names { IfOk result (λ i. i.names ≡ NameRule.Portable) }
        ensures failures { IfOk result (λ i. i.failed ≡ 0) }
    {
        FolderInbox::with_names(files, alloc, folder, NameRule::Portable)
    }

    /// Returns an inbox as [`new`](Self::new) does, whose files may have the names that a rule
    /// allows.
    ///
    /// # Errors
    ///
    /// `AllocError` if there is no memory for the folder's name.
    pub fn with_names(
        files: F,
        alloc: Global,
        folder: &str,
        names: NameRule,
    ) -> Result<Self, AllocError>
        ensures published { IfOk result (λ i. published_by i.parts.done ≡ map.empty) }
        ensures names { IfOk result (λ i. i.names ≡ names) }
        ensures failures { IfOk result (λ i. i.failed ≡ 0) }
    {
        Ok(FolderInbox {
            parts: Parts::new(files, alloc, String::from_str(alloc, folder)?),
            names,
            failed: 0,
            fault: None,
        })
    }

    /// Returns why the last call that failed did so.
    pub fn fault(&self) -> Option<FolderError> {
        self.fault
    }

    /// Counts a call if it failed, and keeps why.
    fn answer(&mut self, done: Result<(), FolderError>) -> Result<(), StoreError>
        ensures ok { is_ok result ≡ is_ok done }
        ensures name { (result ≡ Err StoreError.Name) ↔ (done ≡ Err FolderError.Name) }
        ensures parts { self.new.parts ≡ self.old.parts }
        ensures names { self.new.names ≡ self.old.names }
        ensures failed { self.new.failed ≡ failures_after self.old.failed (is_ok done) }
    {
        match done {
            Ok(()) => Ok(()),
            Err(error) => {
                self.failed = self.failed.saturating_add(1);
                self.fault = Some(error);
                Err(StoreError::from(error))
            }
        }
    }

    /// Counts a call if it failed, and keeps why; otherwise returns what it answered.
    fn answer_of(&mut self, done: Result<bool, FolderError>) -> Result<bool, StoreError>
        ensures ok { (value : Bool) → (result ≡ Ok value) ↔ (done ≡ Ok value) }
        ensures is { is_ok result ≡ is_ok done }
        ensures parts { self.new.parts ≡ self.old.parts }
        ensures failed { self.new.failed ≡ failures_after self.old.failed (is_ok done) }
    {
        match done {
            Ok(value) => Ok(value),
            Err(error) => {
                self.failed = self.failed.saturating_add(1);
                self.fault = Some(error);
                Err(StoreError::from(error))
            }
        }
    }

    fn try_publish(&mut self, id: TransactionId, name: &[u8], size: u64) -> Result<(), FolderError>
        requires { IsSome (staged_by self.old.parts.done id) }
        ensures ok { OnOk result (published_by self.new.parts.done
            ≡ map.insert (published_by self.old.parts.done) name.now
            (front (staged_for (staged_by self.old.parts.done) id) size)) }
        ensures err { OnErr result (published_by self.new.parts.done
            ≡ published_by self.old.parts.done) }
        ensures name { (result ≡ Err FolderError.Name) ↔ (Allows self.old.names name.now → ⊥) }
        ensures names { self.new.names ≡ self.old.names }
        ensures staged { OnOk result (staged_by self.new.parts.done id ≡ None) }
        ensures others { OthersKeep id (staged_by self.old.parts.done)
            (staged_by self.new.parts.done) }
        ensures failed { self.new.failed ≡ self.old.failed }
    {
        if !self.names.allows(name) {
            return Err(FolderError::Name);
        }
        self.parts.publish(id, name, size)
    }
}

impl<F: Files + Drop> Inbox for FolderInbox<F> {
    ghost published = { λ i. published_by i.parts.done };

    ghost staged = { λ i. staged_by i.parts.done };

    ghost failures = { λ i. i.failed };

    ghost steps = { λ i call j. AnswersNames i.names call × (j.names ≡ i.names) };

    fn begin(&mut self, id: TransactionId) -> Result<(), StoreError> {
        let done = self.parts.make(id);
        self.answer(done)
    }

    fn write(&mut self, id: TransactionId, offset: u64, octets: &[u8]) -> Result<(), StoreError> {
        let done = self.parts.write(id, offset, octets);
        self.answer(done)
    }

    fn publish(&mut self, id: TransactionId, name: &[u8], size: u64) -> Result<(), StoreError> {
        let done = self.try_publish(id, name, size);
        self.answer(done)
    }

    fn discard(&mut self, id: TransactionId) -> Result<(), StoreError> {
        let done = self.parts.remove(id);
        self.answer(done)
    }

    fn failures(&self) -> u64 {
        self.failed
    }
}

/// The part of a file is the one that lies in the folder. If it can't be read, it stays there.
impl<F: Files + Drop> ResumingInbox for FolderInbox<F> {
    fn adopt(&mut self, id: TransactionId, end: u64) -> Result<bool, StoreError> {
        let done = self.parts.adopt(id, end);
        self.answer_of(done)
    }

    fn read(&mut self, id: TransactionId, offset: u64, out: &mut [u8]) -> Result<bool, StoreError> {
        let done = self.parts.read(id, offset, out);
        self.answer_of(done)
    }
}
