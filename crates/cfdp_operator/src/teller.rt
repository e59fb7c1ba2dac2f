//! What is reported to an operator while stations run: on standard error, and by a station's log.
use cfdp_exchange::{Note, NoteKind, NoteQueue, NoteTopic};
use cfdp_header::TransactionId;
use cfdp_spool::{SpoolNotice, SpoolTeller, StandardErrorTeller};
use cfdp_watch::Progress;
use std::alloc::AllocError;
use std::cell::Cell;

/// Reports to an operator what is wrong: on standard error, and if there is a log, by its queue.
#[derive(Clone, Copy)]
pub struct Teller<'a> {
    rt: &'a HostRuntime,
    // The line that says how far it is, which gives way to what is reported.
    progress: &'a Progress<'a>,
    // Whether it was said why a store failed.
    told: &'a Cell<bool>,
    notes: Option<&'a NoteQueue>,
}

impl<'a> Teller<'a> {
    /// Returns one that sets `told` once it said why a store failed.
    pub fn new(
        rt: &'a HostRuntime,
        progress: &'a Progress<'a>,
        told: &'a Cell<bool>,
        notes: Option<&'a NoteQueue>,
    ) -> Teller<'a> {
        Teller {
            rt,
            progress,
            told,
            notes,
        }
    }

    /// Reports something that needs attention, on this topic.
    pub fn notes(&self, topic: NoteTopic, text: Result<String, AllocError>) {
        self.progress.yields();
        says(self.rt, self.notes, (NoteKind::Note, topic, None), text);
    }

    /// Reports that the file of this transaction was refused.
    pub fn refuses(&self, topic: NoteTopic, id: TransactionId, text: Result<String, AllocError>) {
        self.progress.yields();
        says(self.rt, self.notes, (NoteKind::Note, topic, Some(id)), text);
    }

    /// Reports why a file of this transaction, or of none, can't be read or written.
    pub fn fails(
        &self,
        topic: NoteTopic,
        id: Option<TransactionId>,
        text: Result<String, AllocError>,
    ) {
        self.told.set(true);
        self.progress.yields();
        says(self.rt, self.notes, (NoteKind::Error, topic, id), text);
    }
}

/// Reports what a spool says, as a note.
#[derive(Clone, Copy)]
pub struct SpoolNotes<'a> {
    pub rt: &'a HostRuntime,
    pub notes: &'a NoteQueue,
}

impl SpoolTeller for SpoolNotes<'_> {
    fn tells(&self, notice: SpoolNotice<'_>) {
        StandardErrorTeller(self.rt).tells(notice);
        if let Ok(text) = format!(in self.rt.alloc(); "{notice}") {
            queues(self.notes, (NoteKind::Note, NoteTopic::Spool, None), text);
        }
    }
}

/// Says on standard error what a station does as it starts, and has the log say it.
pub fn note(
    rt: &HostRuntime,
    notes: &NoteQueue,
    topic: NoteTopic,
    text: Result<String, AllocError>,
) {
    says(rt, Some(notes), (NoteKind::Note, topic, None), text);
}

/// What a note is, its topic, and the transaction that it is about.
type About = (NoteKind, NoteTopic, Option<TransactionId>);

/// Says this on standard error, and has the log say it, if there is one.
fn says(
    rt: &HostRuntime,
    notes: Option<&NoteQueue>,
    about: About,
    text: Result<String, AllocError>,
) {
    let (kind, topic, _) = about;
    let word = kind.word();
    match text {
        Ok(text) => {
            let _ = eprintln!(rt; "{word}: {text}");
            if let Some(notes) = notes {
                queues(notes, about, text);
            }
        }
        Err(AllocError) => {
            let _ = eprintln!(rt; "{word}: {}: out of memory", topic.name());
        }
    }
}

/// Has the log say this.
fn queues(notes: &NoteQueue, about: About, text: String) {
    let (kind, topic, id) = about;
    let note = Note {
        kind,
        topic,
        text,
        id,
    };
    notes.adds(note);
}
