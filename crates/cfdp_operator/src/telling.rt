//! Stores in folders that say on standard error why a call failed, and one who looks on at turns.
use crate::fault::fault_text;
use crate::teller::Teller;
use cfdp_exchange::NoteTopic;
use cfdp_files::InboxFiles;
use cfdp_header::TransactionId;
use cfdp_port::{Lookout, Passed};
use cfdp_report::Name;
use cfdp_station::{Polled, Station};
use cfdp_store::{
    FolderInbox, FolderOutbox, Inbox, NameRule, NoInbox, Outbox, ResumingInbox, SeekingOutbox,
    StoreError,
};
use cfdp_watch::{Onlooker, Progress, Reception};
use host_journal::HostJournal;
use station_pair::Side;
use std::alloc::AllocError;
use std::collections::BTreeSet;

/// One who looks on at the turns, and says how far the transfer is.
#[derive(Drop)]
pub struct LoopLookout<'a> {
    pub onlooker: Onlooker<'a>,
    pub progress: &'a Progress<'a>,
    /// How many turns were taken, if those were all and the transfer wasn't over.
    pub used_up: Option<u64>,
}

impl<'a> LoopLookout<'a> {
    /// Returns a lookout that has seen nothing yet.
    pub fn new(onlooker: Onlooker<'a>, progress: &'a Progress<'a>) -> LoopLookout<'a> {
        LoopLookout {
            onlooker,
            progress,
            used_up: None,
        }
    }
}

impl Lookout for LoopLookout<'_> {
    fn begins(&mut self, turn: u64) {
        self.onlooker.begins(turn);
    }

    fn sees<O: Outbox, I: Inbox>(
        &mut self,
        side: Side,
        passed: Passed<'_>,
        station: &Station<O, I>,
    ) {
        if let Passed::Polled(Polled::Moved) = passed {
            self.progress.counts_pdu();
        }
        self.progress.goes_on();
        self.onlooker.sees(side, passed, station);
    }

    fn runs_out(&mut self, turns: u64) {
        self.used_up = Some(turns);
    }

    fn yields(&mut self) {
        self.progress.yields();
    }

    fn ends(&mut self) {
        self.progress.ends();
    }
}

/// An inbox over a folder, which says on standard error why a call of it failed.
#[derive(Drop)]
pub struct TellingInbox<'a> {
    rt: &'a HostRuntime,
    folder: &'a str,
    inbox: FolderInbox<InboxFiles<'a>>,
    teller: Teller<'a>,
    progress: &'a Progress<'a>,
    reception: Reception<'a>,
    rules: InboxRules,
    // The journal by which transfers go on, if there is one.
    journal: Option<&'a HostJournal<'a>>,
}

/// Which files an inbox accepts.
#[derive(Clone, Copy)]
pub struct InboxRules {
    /// Whether a file that comes takes the place of the one that has its name; otherwise it is
    /// refused, and the other stays.
    pub replaces: bool,
    /// The most octets of a file; 0 for any number.
    pub most_size: u64,
    /// Which names files may have.
    pub names: NameRule,
}

impl<'a> TellingInbox<'a> {
    /// Returns an inbox over this folder, which must be there, that accepts files by these rules.
    ///
    /// # Errors
    ///
    /// `AllocError` if there is no memory for the folder's name.
    pub fn new(
        rt: &'a HostRuntime,
        folder: &'a str,
        rules: InboxRules,
        teller: Teller<'a>,
        progress: &'a Progress<'a>,
    ) -> Result<TellingInbox<'a>, AllocError> {
        let files = InboxFiles::new(rt, rules.replaces, rules.most_size);
        TellingInbox::over(rt, folder, (files, rules), teller, progress)
    }

    /// Returns such an inbox over these files.
    fn over(
        rt: &'a HostRuntime,
        folder: &'a str,
        files: (InboxFiles<'a>, InboxRules),
        teller: Teller<'a>,
        progress: &'a Progress<'a>,
    ) -> Result<TellingInbox<'a>, AllocError> {
        let (files, rules) = files;
        Ok(TellingInbox {
            rt,
            folder,
            inbox: FolderInbox::with_names(files, rt.alloc(), folder, rules.names)?,
            teller,
            progress,
            reception: Reception::new(rt.alloc(), progress),
            rules,
            journal: None,
        })
    }

    /// Returns such an inbox whose files are noted in a journal before they are published, and
    /// which has these part files of an earlier run.
    ///
    /// # Errors
    ///
    /// As with `new`.
    pub fn with_journal(
        rt: &'a HostRuntime,
        folder: &'a str,
        rules: InboxRules,
        teller: Teller<'a>,
        progress: &'a Progress<'a>,
        journal: (&'a HostJournal<'a>, &BTreeSet<String>),
    ) -> Result<TellingInbox<'a>, AllocError> {
        let (journal, parts) = journal;
        let files = InboxFiles::new(rt, rules.replaces, rules.most_size);
        for name in parts.iter() {
            let path = format!(in rt.alloc(); "{folder}/{name}")?;
            // If it isn't there any more, the file is received again.
            let _ = files.takes_back(path.as_str());
        }
        let mut inbox = TellingInbox::over(rt, folder, (files, rules), teller, progress)?;
        inbox.journal = Some(journal);
        Ok(inbox)
    }

    /// Says why a call of this transaction failed, if it did, of a file that has no name yet.
    fn tell_unnamed(&self, answer: Result<(), StoreError>, id: TransactionId) {
        if answer.is_err()
            && let Some(fault) = self.inbox.fault()
        {
            let (folder, cause) = (self.folder, fault_text(fault));
            let TransactionId { source, number } = id;
            let text = format!(in self.rt.alloc();
                "{folder}: {cause} (transaction {source}:{number})"
            );
            self.progress.ends();
            self.teller.fails(NoteTopic::Inbox, Some(id), text);
        }
    }

    /// Says why the file of this transaction could not be published, if that is so.
    fn tell(&self, answer: Result<(), StoreError>, id: TransactionId, name: &[u8]) {
        if answer.is_err()
            && let Some(fault) = self.inbox.fault()
        {
            let (folder, name, cause) = (self.folder, Name(name), fault_text(fault));
            let TransactionId { source, number } = id;
            let text = format!(in self.rt.alloc();
                "{folder}/{name}: {cause} (transaction {source}:{number})"
            );
            self.progress.ends();
            self.teller.fails(NoteTopic::Inbox, Some(id), text);
        }
    }
}

impl<'a> Inbox for TellingInbox<'a> {
    ghost published = { λ i. ⟦<FolderInbox<InboxFiles<'a>> as Inbox>⟧.published i.inbox };

    ghost staged = { λ i. ⟦<FolderInbox<InboxFiles<'a>> as Inbox>⟧.staged i.inbox };

    ghost failures = { λ i. ⟦<FolderInbox<InboxFiles<'a>> as Inbox>⟧.failures i.inbox };

    ghost steps = { λ i call j. ⟦<FolderInbox<InboxFiles<'a>> as Inbox>⟧.steps i.inbox call
        j.inbox };

    fn begin(&mut self, id: TransactionId) -> Result<(), StoreError> {
        self.reception.begins(id);
        let answer = self.inbox.begin(id);
        self.tell_unnamed(answer, id);
        answer
    }

    fn write(&mut self, id: TransactionId, offset: u64, octets: &[u8]) -> Result<(), StoreError> {
        self.reception.notes(id, offset, octets.len());
        let answer = self.inbox.write(id, offset, octets);
        self.tell_unnamed(answer, id);
        answer
    }

    fn publish(&mut self, id: TransactionId, name: &[u8], size: u64) -> Result<(), StoreError> {
        if let Some(journal) = self.journal
            && self.rules.names.allows(name)
        {
            journal.publishes(id, name, size);
        }
        let answer = self.inbox.publish(id, name, size);
        self.tell(answer, id, name);
        answer
    }

    fn discard(&mut self, id: TransactionId) -> Result<(), StoreError> {
        let answer = self.inbox.discard(id);
        self.tell_unnamed(answer, id);
        answer
    }

    fn failures(&self) -> u64 {
        self.inbox.failures()
    }
}

impl<'a> ResumingInbox for TellingInbox<'a> {
    ghost resumes = { λ i call j.
        ⟦<FolderInbox<InboxFiles<'a>> as ResumingInbox>⟧.resumes i.inbox call j.inbox };

    fn adopt(&mut self, id: TransactionId, end: u64) -> Result<bool, StoreError> {
        let answer = self.inbox.adopt(id, end);
        self.tell_unnamed(answer.map(|_| ()), id);
        answer
    }

    fn read(&mut self, id: TransactionId, offset: u64, out: &mut [u8]) -> Result<bool, StoreError> {
        let answer = self.inbox.read(id, offset, out);
        self.tell_unnamed(answer.map(|_| ()), id);
        answer
    }
}

/// No inbox: it takes no file, and says once on standard error that one came.
#[derive(Drop)]
pub struct TellingNoInbox<'a> {
    rt: &'a HostRuntime,
    inbox: NoInbox,
    teller: Teller<'a>,
}

impl<'a> TellingNoInbox<'a> {
    /// Returns an inbox that reports this through `teller`.
    pub fn new(rt: &'a HostRuntime, teller: Teller<'a>) -> TellingNoInbox<'a> {
        TellingNoInbox {
            rt,
            inbox: NoInbox::new(),
            teller,
        }
    }

    /// Says that a file came, if that wasn't said: the first one, of this transaction.
    fn tell(&self, id: TransactionId) {
        if self.inbox.failures() == 0 {
            let TransactionId { source, number } = id;
            let text = format!(in self.rt.alloc();
                "a file arrived, but there is no --inbox (transaction {source}:{number})"
            );
            self.teller.fails(NoteTopic::NoInbox, Some(id), text);
        }
    }
}

impl<'a> Inbox for TellingNoInbox<'a> {
    ghost published = { λ i. ⟦<NoInbox as Inbox>⟧.published i.inbox };

    ghost staged = { λ i. ⟦<NoInbox as Inbox>⟧.staged i.inbox };

    ghost failures = { λ i. ⟦<NoInbox as Inbox>⟧.failures i.inbox };

    ghost steps = { λ i call j. ⟦<NoInbox as Inbox>⟧.steps i.inbox call j.inbox };

    fn begin(&mut self, id: TransactionId) -> Result<(), StoreError> {
        self.tell(id);
        self.inbox.begin(id)
    }

    fn write(&mut self, id: TransactionId, offset: u64, octets: &[u8]) -> Result<(), StoreError> {
        self.tell(id);
        self.inbox.write(id, offset, octets)
    }

    fn publish(&mut self, id: TransactionId, name: &[u8], size: u64) -> Result<(), StoreError> {
        self.tell(id);
        self.inbox.publish(id, name, size)
    }

    fn discard(&mut self, id: TransactionId) -> Result<(), StoreError> {
        self.inbox.discard(id)
    }

    fn failures(&self) -> u64 {
        self.inbox.failures()
    }
}

/// It has no part of a file.
impl<'a> ResumingInbox for TellingNoInbox<'a> {
    fn adopt(&mut self, _id: TransactionId, _end: u64) -> Result<bool, StoreError> {
        Ok(false)
    }

    fn read(
        &mut self,
        _id: TransactionId,
        _offset: u64,
        _out: &mut [u8],
    ) -> Result<bool, StoreError> {
        Ok(false)
    }
}

/// An outbox over a folder, which says on standard error why a file of it can't be sent.
#[derive(Drop)]
pub struct TellingOutbox<'a> {
    rt: &'a HostRuntime,
    folder: &'a str,
    outbox: FolderOutbox<&'a HostRuntime>,
    teller: Teller<'a>,
}

impl<'a> TellingOutbox<'a> {
    /// Returns an outbox over `outbox`, which has this folder. It reports through `teller`.
    pub fn over(
        rt: &'a HostRuntime,
        folder: &'a str,
        outbox: FolderOutbox<&'a HostRuntime>,
        teller: Teller<'a>,
    ) -> TellingOutbox<'a> {
        TellingOutbox {
            rt,
            folder,
            outbox,
            teller,
        }
    }

    /// Says why the last call failed, which was of this file.
    fn tell(&self, name: &[u8]) {
        if let Some(fault) = self.outbox.fault() {
            let (folder, cause) = (self.folder, fault_text(fault));
            let text = format!(in self.rt.alloc(); "{folder}/{}: {cause}", Name(name));
            self.teller.fails(NoteTopic::Outbox, None, text);
        }
    }
}

impl<'a> Outbox for TellingOutbox<'a> {
    ghost files = { λ o. ⟦<FolderOutbox<&'a HostRuntime> as Outbox>⟧.files o.outbox };

    ghost stands = { λ o. ⟦<FolderOutbox<&'a HostRuntime> as Outbox>⟧.stands o.outbox };

    ghost failures = { λ o. ⟦<FolderOutbox<&'a HostRuntime> as Outbox>⟧.failures o.outbox };

    ghost steps = { λ o call p. ⟦<FolderOutbox<&'a HostRuntime> as Outbox>⟧.steps o.outbox call
        p.outbox };

    fn len(&mut self, name: &[u8]) -> Result<Option<u64>, StoreError> {
        let answer = self.outbox.len(name);
        if answer.is_err() {
            self.tell(name);
        }
        answer
    }

    fn read(&mut self, name: &[u8], offset: u64, out: &mut [u8]) -> Result<(), StoreError> {
        let answer = self.outbox.read(name, offset, out);
        if answer.is_err() {
            self.tell(name);
        }
        answer
    }

    fn failures(&self) -> u64 {
        self.outbox.failures()
    }
}

impl<'a> SeekingOutbox for TellingOutbox<'a> {
    ghost answers = { λ o name answer p.
        ⟦<FolderOutbox<&'a HostRuntime> as SeekingOutbox>⟧.answers o.outbox name answer p.outbox };

    fn look_for(&mut self, name: &[u8]) -> Result<bool, StoreError> {
        let answer = self.outbox.look_for(name);
        if answer.is_err() {
            self.tell(name);
        }
        answer
    }
}
