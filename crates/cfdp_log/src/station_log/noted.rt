//! What was reported to an operator since the start, by topics.
use cfdp_exchange::{Note, NoteKind, NoteTopic};
use std::alloc::{AllocError, Global};

/// A note holds for so many seconds. What goes on is reported once a minute.
const HOLDS: u64 = 90;

/// The last note on a topic.
#[derive(Drop)]
pub struct Noted {
    pub kind: NoteKind,
    pub topic: NoteTopic,
    /// Its text.
    pub text: String,
    /// How many notes there were on this topic, up to 2^64 - 1.
    pub count: u64,
    /// When that was last, in seconds since the start.
    pub second: u64,
}

impl Noted {
    /// Returns `true` if it is so new that it may still be so.
    pub fn holds(&self, second: u64) -> bool {
        second <= self.second.saturating_add(HOLDS)
    }
}

/// The last note on each topic since the start, and how many there were.
#[derive(Drop)]
pub struct NotedTopics {
    alloc: Global,
    topics: Vec<Noted>,
    notes: u64,
    errors: u64,
}

impl NotedTopics {
    /// Returns the topics before the first note.
    pub fn new(alloc: Global) -> NotedTopics {
        NotedTopics {
            alloc,
            topics: Vec::new(alloc),
            notes: 0,
            errors: 0,
        }
    }

    /// Returns the last note on each topic.
    pub fn topics(&self) -> &[Noted] {
        self.topics.as_slice()
    }

    /// Returns how many notes there were that are no errors.
    pub fn notes(&self) -> u64 {
        self.notes
    }

    /// Returns how many errors there were.
    pub fn errors(&self) -> u64 {
        self.errors
    }

    /// Counts a note of this second since the start. If there is no memory for its
    /// text, the topic keeps the text before.
    pub fn counts(&mut self, note: &Note, second: u64) {
        match note.kind {
            NoteKind::Note => self.notes = self.notes.saturating_add(1),
            NoteKind::Error => self.errors = self.errors.saturating_add(1),
        }
        for noted in self.topics.iter_mut() {
            if noted.topic.name() == note.topic.name() && noted.kind == note.kind {
                noted.count = noted.count.saturating_add(1);
                noted.second = second;
                if let Ok(text) = String::from_str(self.alloc, note.text.as_str()) {
                    noted.text = text;
                }
                return;
            }
        }
        if let Ok(noted) = first(self.alloc, note, second) {
            let _ = self.topics.push(noted);
        }
    }
}

/// The first note on its topic.
fn first(alloc: Global, note: &Note, second: u64) -> Result<Noted, AllocError> {
    Ok(Noted {
        kind: note.kind,
        topic: note.topic,
        text: String::from_str(alloc, note.text.as_str())?,
        count: 1,
        second,
    })
}
