//! What is known of the transactions of a station: those that are open, and the last that were
//! closed.
ghost use Rattle.std.specs.Prelude.{◌≡◌, ◌⊎◌, ◌↔◌, [], IfSome, is_none, true};
ghost use Rattle.cfdp_console.specs.Closings.{AreOthers, Closes, IsKeptOf, making_room};

use crate::passed::Traffic;
use cfdp_header::TransactionId;
use indexmap::IndexMap;
use std::alloc::{AllocError, Global};
use std::collections::VecDeque;

/// So many closed transactions are kept.
pub const MOST_CLOSED: usize = 200;

/// While more transactions are open, it isn't followed how far each file is read.
const MOST_FOLLOWED: usize = 64;

/// Which way a file goes.
#[derive(Clone, Copy, PartialEq, Eq)]
pub enum Way {
    /// From this station to its peer.
    Sends,
    /// From the peer to this station.
    Receives,
}

/// The names of a file, as a report prints them.
#[derive(Drop)]
pub struct Names {
    /// At its sender.
    pub source: String,
    /// At its receiver.
    pub destination: String,
}

impl Names {
    /// Copies both names into memory of their own.
    ///
    /// # Errors
    ///
    /// `AllocError` if there is none.
    pub fn copy(&self, alloc: Global) -> Result<Names, AllocError> {
        Ok(Names {
            source: String::from_str(alloc, self.source.as_str())?,
            destination: String::from_str(alloc, self.destination.as_str())?,
        })
    }
}

/// What is known of a transaction that isn't over.
#[derive(Drop)]
pub struct Known {
    pub way: Way,
    /// `None` until its Metadata came.
    pub names: Option<Names>,
    /// Octets of the file.
    pub size: Option<u64>,
    /// When it began, in milliseconds since 1970, if that is known.
    pub began: Option<u64>,
    /// How many octets were read to be sent, or were written, up to the highest of them.
    pub octets: Option<u64>,
    pub is_suspended: bool,
    /// Whether its EOF was sent or came.
    pub has_eof: bool,
    /// What passed of it over the link.
    pub passed: Traffic,
}

/// A transaction that is over.
#[derive(Drop)]
pub struct Closed {
    /// The first one since the start is 1.
    pub number: u64,
    pub id: TransactionId,
    pub known: Known,
    /// How it ended.
    pub ending: TransferEnd,
}

/// How a transaction ended.
#[derive(Clone, Copy)]
pub struct TransferEnd {
    /// Whether the file lies at its receiver.
    pub is_complete: bool,
    /// What its condition says.
    pub why: &'static str,
    /// The standard's name of the condition.
    pub condition: &'static str,
    /// When it was over, in milliseconds since 1970; 0 if the clock couldn't be read.
    pub time: u64,
}

/// What is known of the transactions of a station. If there is no memory, less is known.
#[derive(Drop)]
pub struct Ledger {
    alloc: Global,
    own: u64,
    open: IndexMap<TransactionId, Known>,
    closed: VecDeque<Closed>,
    closings: u64,
}

impl Ledger {
    /// Returns a ledger before the first transaction of the entity `own`.
    pub fn new(alloc: Global, own: u64) -> Ledger
        ensures { (result.closed.items ≡ []) × (result.closings ≡ 0) }
    {
        Ledger {
            alloc,
            own,
            open: IndexMap::new(alloc),
            closed: VecDeque::new(alloc),
            closings: 0,
        }
    }

    /// Returns what is known of a transaction, also if it is one of the last that were closed.
    pub fn get(&self, id: TransactionId) -> Option<&Known> {
        match self.open.get(&id) {
            Some(known) => Some(known),
            None => Some(&self.closed_one(id)?.known),
        }
    }

    /// Returns the transaction of this id, if it is one of the last that were closed.
    pub fn closed_one(&self, id: TransactionId) -> Option<&Closed>
        ensures none { (is_none result ≡ true) ↔ AreOthers id self.now.closed.items }
        ensures one { IfSome result (λ one. one.now.id ≡ id) }
    {
        self.closed.iter().find(|closed| closed.id == id)
    }

    /// Returns the last transactions that were closed, the first one first.
    pub fn closed(&self) -> &VecDeque<Closed>
        ensures { result.now ≡ self.now.closed }
    {
        &self.closed
    }

    /// Returns the number of the one that was closed last; 0 if none was.
    pub fn closings(&self) -> u64
        ensures { result ≡ self.now.closings }
    {
        self.closings
    }

    /// Notes that a transaction began at this time, in milliseconds since 1970, of a file of these
    /// names, and of so many octets if that is known.
    pub fn begins(
        &mut self,
        id: TransactionId,
        names: Option<Names>,
        size: Option<u64>,
        time: u64,
    ) {
        if let Some(known) = self.known_mut(id) {
            known.names = names;
            known.size = size;
            known.began = Some(known.began.unwrap_or(time));
        }
    }

    /// Notes that the file was read or written up to this offset.
    pub fn moves(&mut self, id: TransactionId, offset: u64) {
        if let Some(known) = self.known_mut(id) {
            known.octets = Some(known.octets.unwrap_or(0).max(offset));
        }
    }

    /// Notes that a file of this name was read, up to this offset, to be sent. If more than 64
    /// transactions are open, that isn't looked for.
    pub fn reads(&mut self, source: &[u8], offset: u64) {
        if self.open.len() > MOST_FOLLOWED {
            return;
        }
        for known in self.open.values_mut() {
            if is_sent_from(known, source) {
                known.octets = Some(known.octets.unwrap_or(0).max(offset));
            }
        }
    }

    /// Notes that the EOF was sent or came.
    pub fn notes_eof(&mut self, id: TransactionId) {
        if let Some(known) = self.known_mut(id) {
            known.has_eof = true;
        }
    }

    /// Returns what passed of a transaction that is open or is one of the last that were closed. If
    /// nothing is known of it and it `is_open`, that is nothing yet; otherwise `None`.
    pub fn passed_mut(&mut self, id: TransactionId, is_open: bool) -> Option<&mut Traffic> {
        if self.open.contains_key(&id) || is_open && self.closed_one(id).is_none() {
            return Some(&mut self.known_mut(id)?.passed);
        }
        let place = self.closed.iter().position(|closed| closed.id == id)?;
        Some(&mut self.closed.get_mut(place)?.known.passed)
    }

    /// Counts its EOFs, and its rounds of NAKs in a row, from 0 on again.
    pub fn counts_anew(&mut self, id: TransactionId) {
        if let Some(known) = self.open.get_mut(&id) {
            known.passed.counts_anew();
        }
    }

    /// Notes whether the transaction is suspended.
    pub fn suspends(&mut self, id: TransactionId, is_suspended: bool) {
        if let Some(known) = self.known_mut(id) {
            known.is_suspended = is_suspended;
        }
    }

    /// Notes that the transaction is over, and how it ended. One that is over already is not noted
    /// again, unless it is open again.
    pub fn ends(&mut self, id: TransactionId, ending: TransferEnd)
        ensures once { (self.new ≡ self.old) ⊎ Closes id ending self.old self.new }
        ensures new { AreOthers id self.old.closed.items → Closes id ending self.old self.new }
    {
        if self.closed_one(id).is_some() && !self.open.contains_key(&id) {
            return;
        }
        let known = match self.open.shift_remove(&id) {
            Some(known) => known,
            None => nothing(self.alloc, self.own, id),
        };
        self.closings = self.closings.saturating_add(1);
        let one = Closed {
            number: self.closings,
            id,
            known,
            ending,
        };
        keep(&mut self.closed, one);
    }

    /// What is known of a transaction, which is nothing if it is new; `None` if there is no
    /// memory for it.
    fn known_mut(&mut self, id: TransactionId) -> Option<&mut Known> {
        let (alloc, own) = (self.alloc, self.own);
        match self.open.entry(id) {
            Ok(entry) => Some(entry.or_insert(nothing(alloc, own, id))),
            Err(_) => None,
        }
    }
}

/// Keeps a transaction that was closed as the last one, if there is memory for it.
fn keep(closed: &mut VecDeque<Closed>, one: Closed)
    ensures { IsKeptOf one closed.old.items closed.new.items }
{
    make_room(closed);
    let _ = closed.push_back(one);
}

/// Drops the first of them if no more are kept.
fn make_room(closed: &mut VecDeque<Closed>)
    ensures { closed.new.items ≡ making_room closed.old.items }
{
    if closed.len() >= MOST_CLOSED {
        let _ = closed.pop_front();
    }
}

/// Nothing is known of this transaction, but which way its file goes.
fn nothing(alloc: Global, own: u64, id: TransactionId) -> Known {
    Known {
        way: if id.source == own {
            Way::Sends
        } else {
            Way::Receives
        },
        names: None,
        size: None,
        began: None,
        octets: None,
        is_suspended: false,
        has_eof: false,
        passed: Traffic::new(alloc),
    }
}

/// Whether a file of this name is sent in a transaction.
fn is_sent_from(known: &Known, source: &[u8]) -> bool {
    match &known.names {
        Some(names) => known.way == Way::Sends && names.source.as_bytes() == source,
        None => false,
    }
}
