//! An inbox over a folder that notes in a journal what it is about to publish.
ghost use Rattle.std.specs.FinMap as map;
ghost use Rattle.std.specs.Prelude.{◌≡◌, IfOk};

use crate::journal_place::LibraryPlace;
use cfdp_header::TransactionId;
use cfdp_store::{FolderInbox, Inbox, NameRule, ResumingInbox, StoreError};
use libc_folders::SystemFiles;
use std::alloc::{AllocError, Global};
use transfer_journal::TransferJournal;

/// The journal of a station in a library.
pub type LibraryJournal = TransferJournal<LibraryPlace>;

/// Received files in a folder. If there is a journal, each file is noted there before it is
/// published.
#[derive(Drop)]
pub struct NotingInbox {
    inbox: FolderInbox<SystemFiles>,
    journal: Option<LibraryJournal>,
}

impl NotingInbox {
    /// Returns an inbox over a folder, which must be there.
    pub fn new(
        alloc: Global,
        folder: &str,
        journal: Option<LibraryJournal>,
    ) -> Result<NotingInbox, AllocError>
        ensures { IfOk result (λ i. ⟦<NotingInbox as Inbox>⟧.published i ≡ map.empty) }
    {
        Ok(NotingInbox {
            inbox: FolderInbox::new(SystemFiles, alloc, folder)?,
            journal,
        })
    }

    /// Returns the journal, if there is one.
    pub fn journal(&self) -> Option<&LibraryJournal> {
        self.journal.as_ref()
    }
}

impl Inbox for NotingInbox {
    ghost published = { λ i. ⟦<FolderInbox<SystemFiles> as Inbox>⟧.published i.inbox };

    ghost staged = { λ i. ⟦<FolderInbox<SystemFiles> as Inbox>⟧.staged i.inbox };

    ghost failures = { λ i. ⟦<FolderInbox<SystemFiles> as Inbox>⟧.failures i.inbox };

    ghost steps = { λ i call j. ⟦<FolderInbox<SystemFiles> as Inbox>⟧.steps i.inbox call j.inbox };

    fn begin(&mut self, id: TransactionId) -> Result<(), StoreError> {
        self.inbox.begin(id)
    }

    fn write(&mut self, id: TransactionId, offset: u64, octets: &[u8]) -> Result<(), StoreError> {
        self.inbox.write(id, offset, octets)
    }

    fn publish(&mut self, id: TransactionId, name: &[u8], size: u64) -> Result<(), StoreError> {
        if let Some(journal) = &self.journal
            && NameRule::Portable.allows(name)
        {
            journal.publishes(id, name, size);
        }
        self.inbox.publish(id, name, size)
    }

    fn discard(&mut self, id: TransactionId) -> Result<(), StoreError> {
        self.inbox.discard(id)
    }

    fn failures(&self) -> u64 {
        self.inbox.failures()
    }
}

impl ResumingInbox for NotingInbox {
    ghost resumes = { λ i call j.
        ⟦<FolderInbox<SystemFiles> as ResumingInbox>⟧.resumes i.inbox call j.inbox };

    fn adopt(&mut self, id: TransactionId, end: u64) -> Result<bool, StoreError> {
        self.inbox.adopt(id, end)
    }

    fn read(&mut self, id: TransactionId, offset: u64, out: &mut [u8]) -> Result<bool, StoreError> {
        self.inbox.read(id, offset, out)
    }
}
