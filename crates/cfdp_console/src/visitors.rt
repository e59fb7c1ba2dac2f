//! All connections of the console.
ghost use Rattle.std.specs.Prelude.{◌≡◌, ◌↔◌, ◌<◌, ◌≤◌, vec_len, IsTrue};
ghost use Rattle.cfdp_console.specs.Serving.{AreKnownOrNew, AttendsAt, AttendsInTurn};
ghost use Rattle.cfdp_console.specs.Serving.{most_visitors};
ghost use Rattle.cfdp_console.specs.Serving.{staying};

use crate::answer::WebAnswer;
use crate::asking::Ask;
use crate::guard::Guard;
use crate::stream::WebStream;
use crate::visitor::Visitor;
use std::alloc::{AllocError, Global};
use std::hash::RandomState;

/// The most connections at a time.
const MOST_VISITORS: usize = 16;

/// All connections of the console, at most 16, in the order in which they came or were answered
/// last.
#[derive(Drop)]
pub struct Visitors<S: WebStream> {
    alloc: Global,
    all: Vec<Visitor<S>>,
    // How many there were so far.
    numbered: u64,
    ghost within: { vec_len all ≤ most_visitors },
}

impl<S: WebStream> Visitors<S> {
    /// Returns no connections.
    pub fn new(alloc: Global) -> Visitors<S> {
        Visitors {
            alloc,
            all: Vec::new(alloc),
            numbered: 0,
        }
    }

    /// Returns `true` if one more may come.
    pub fn has_room(&self) -> bool
        ensures { IsTrue result ↔ (vec_len self.now.all < most_visitors) }
    {
        self.all.len() < MOST_VISITORS
    }

    /// Closes the connection that came or was answered least recently, if there are 16.
    pub fn makes_room(&mut self)
        ensures room { vec_len self.new.all < most_visitors }
        ensures known { AreKnownOrNew self.old.all.items self.new.all.items }
    {
        if self.all.len() >= MOST_VISITORS {
            let _ = self.all.remove(0);
        }
    }

    /// Returns those that are there, the first one first.
    pub fn all(&self) -> &[Visitor<S>] {
        self.all.as_slice()
    }

    /// Adds a connection that came at this time; if there are 16, or there is no memory, it is
    /// closed. The names of the fields of its requests are kept under secret keys.
    pub fn takes_in(&mut self, stream: S, keys: RandomState, now: u64)
        ensures { AreKnownOrNew self.old.all.items self.new.all.items }
    {
        if self.has_room() {
            self.numbered = self.numbered.saturating_add(1);
            let visitor = Visitor::new(self.alloc, self.numbered, stream, keys, now);
            let _ = self.all.push(visitor);
        } else {
            drop(stream);
        }
    }

    /// Attends to each connection once, up to the first one that asks something. Returns its
    /// number, and what it asks, which one of its requests may ask by the guard. That must be
    /// answered.
    pub fn next_ask(&mut self, guard: &Guard, now: u64) -> Option<(u64, Ask)>
        ensures { AttendsInTurn guard.now (staying self.old.all.items) self.new.all.items result }
    {
        self.all.retain(|visitor| !visitor.is_over());
        for place in 0..self.all.len() {
            if let Some(asked) = self.next_at(place, guard, now) {
                return Some(asked);
            }
        }
        None
    }

    /// Attends to the connection at this index. Returns its number, and what it asks.
    fn next_at(&mut self, place: usize, guard: &Guard, now: u64) -> Option<(u64, Ask)>
        requires { place < vec_len self.old.all }
        ensures attends { AttendsAt guard.now self.old.all.items self.new.all.items place result }
        ensures len { vec_len self.new.all ≡ vec_len self.old.all }
    {
        let visitor = &mut self.all[place];
        let ask = visitor.attend(guard, now)?;
        Some((visitor.number(), ask))
    }

    /// Answers the connection of this number. If it has gone, nothing is sent.
    pub fn answers(&mut self, number: u64, answer: Result<WebAnswer, AllocError>, now: u64) {
        if let Some(place) = self.all.iter().position(|it| it.number() == number) {
            let mut visitor = self.all.remove(place);
            visitor.answers(answer, now);
            let _ = self.all.push(visitor);
        }
    }
}
