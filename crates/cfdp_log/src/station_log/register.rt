//! What is known of the transactions that are open.
use cfdp_directives::{Condition, Indication, Octets};
use cfdp_header::TransactionId;
use cfdp_service::PutNames;
use cfdp_station::{Phase, Station};
use cfdp_store::{Inbox, Outbox};
use indexmap::IndexMap;
use std::alloc::{AllocError, Global};

/// So many transactions that are over may stay, before it is looked which of them are closed.
const SPARE: usize = 16;

/// What is known of a transaction.
#[derive(Drop)]
pub struct Known {
    /// The file's names at its sender and at its receiver.
    pub names: Option<PutNames>,
    /// Octets of the file.
    pub size: Option<u64>,
    /// Up to which offset its receiver said that it holds the file, by a Keep Alive.
    pub held: Option<u64>,
    /// When it began, in milliseconds since 1970, if that is known.
    pub began: Option<u64>,
    /// When it was suspended, if it is, in units of the station's clock.
    pub suspended_at: Option<u64>,
    /// What went wrong last, or why it is over.
    pub condition: Option<Condition>,
    /// Whether its end was indicated to the user.
    pub is_over: bool,
}

impl Known {
    /// Nothing is known.
    fn nothing() -> Known {
        Known {
            names: None,
            size: None,
            held: None,
            began: None,
            suspended_at: None,
            condition: None,
            is_over: false,
        }
    }
}

/// What time it is.
#[derive(Clone, Copy)]
pub struct Hour {
    /// In units of the station's clock.
    pub told: u64,
    /// In milliseconds since 1970; 0 if the clock can't be read.
    pub unix: u64,
}

/// What is known of the transactions that are open, by what the station's user hears. So many that
/// are closed may be in it too, at most twice those that are over and not closed, and 16 more: so
/// memory follows what is open. If there is no memory, less is known.
#[derive(Drop)]
pub struct Register {
    alloc: Global,
    known: IndexMap<TransactionId, Known>,
    // How many are over, and how many of them were not closed at the last look.
    over: usize,
    left: usize,
}

impl Register {
    /// Returns a register before the first transaction.
    pub fn new(alloc: Global) -> Register {
        Register {
            alloc,
            known: IndexMap::new(alloc),
            over: 0,
            left: 0,
        }
    }

    /// Returns what is known of a transaction; `None` if nothing is.
    pub fn get(&self, id: TransactionId) -> Option<&Known> {
        self.known.get(&id)
    }

    /// Returns the names of its file, if they are known.
    pub fn names(&self, id: TransactionId) -> Option<&PutNames> {
        match self.known.get(&id) {
            Some(known) => known.names.as_ref(),
            None => None,
        }
    }

    /// Returns the names of the file of a transaction, if there is one and they are known.
    pub fn names_of(&self, id: Option<TransactionId>) -> Option<&PutNames> {
        self.names(id?)
    }

    /// Returns how many octets its file has, if that is known.
    pub fn size(&self, id: TransactionId) -> Option<u64> {
        match self.known.get(&id) {
            Some(known) => known.size,
            None => None,
        }
    }

    /// Returns `true` if the end of the transaction was indicated to the user.
    pub fn is_over(&self, id: TransactionId) -> bool {
        match self.known.get(&id) {
            Some(known) => known.is_over,
            None => false,
        }
    }

    /// Notes that a put of these names was accepted at this time, in milliseconds since 1970, of a
    /// file of so many octets if that is known.
    pub fn begins(&mut self, id: TransactionId, names: &PutNames, size: Option<u64>, time: u64) {
        let names = copied(
            self.alloc,
            names.source.as_slice(),
            names.destination.as_slice(),
        );
        if let Some(known) = self.known_mut(id) {
            known.names = names.ok();
            known.size = size;
            known.began = Some(time);
        }
    }

    /// Notes what the user hears at this time.
    pub fn hears(&mut self, indication: &Indication, now: Hour) {
        match indication {
            Indication::MetadataRecv {
                id,
                source,
                destination,
                size,
            } => self.comes(*id, source, destination, *size, now.unix),
            Indication::Finished { id, condition, .. } => self.ends(*id, *condition),
            Indication::Abandoned(id, condition) => self.ends(*id, *condition),
            Indication::Suspended(id, _) => self.suspends(*id, Some(now.told)),
            Indication::Resumed(id) => self.suspends(*id, None),
            Indication::Fault(id, condition) => self.fails(*id, *condition),
            Indication::Progress(id, octets) => self.comes_to(*id, *octets),
            Indication::Transaction(_) | Indication::EofSent(_) | Indication::EofRecv(_) => {}
        }
    }

    /// Returns the condition by which a file of this entity failed last, by its name at either
    /// entity; `None` if none is known.
    pub fn condition_of(&self, own: u64, name: &[u8]) -> Option<Condition> {
        let mut found = None;
        for (id, known) in self.known.iter() {
            if id.source == own && is_named(known, name) && known.condition.is_some() {
                found = known.condition;
            }
        }
        found
    }

    /// Drops transactions that are over, once many are, and closed at this station.
    pub fn lets_go<O: Outbox, I: Inbox>(&mut self, station: &Station<O, I>) {
        if self.over <= self.left.saturating_mul(2).saturating_add(SPARE) {
            return;
        }
        self.known
            .retain(|id, known| !known.is_over || is_open(station, *id));
        self.over = self.known.values().filter(|known| known.is_over).count();
        self.left = self.over;
    }

    /// What is known of a transaction, which is nothing if it is new; `None` if there is no
    /// memory for it.
    fn known_mut(&mut self, id: TransactionId) -> Option<&mut Known> {
        match self.known.entry(id) {
            Ok(entry) => Some(entry.or_insert(Known::nothing())),
            Err(_) => None,
        }
    }

    fn comes(
        &mut self,
        id: TransactionId,
        source: &Octets,
        destination: &Octets,
        size: u64,
        time: u64,
    ) {
        let names = copied(self.alloc, source.as_slice(), destination.as_slice());
        if let Some(known) = self.known_mut(id) {
            known.names = names.ok();
            known.size = Some(size);
            known.began = Some(known.began.unwrap_or(time));
        }
    }

    fn comes_to(&mut self, id: TransactionId, octets: u64) {
        if let Some(known) = self.known.get_mut(&id) {
            known.held = Some(octets);
        }
    }

    fn suspends(&mut self, id: TransactionId, since: Option<u64>) {
        if let Some(known) = self.known_mut(id) {
            known.suspended_at = since;
        }
    }

    fn fails(&mut self, id: TransactionId, condition: Condition) {
        if let Some(known) = self.known.get_mut(&id) {
            known.condition = Some(condition);
        }
    }

    fn ends(&mut self, id: TransactionId, condition: Condition) {
        if let Some(known) = self.known.get_mut(&id) {
            known.condition = Some(condition);
            if !known.is_over {
                known.is_over = true;
                self.over = self.over.saturating_add(1);
            }
        }
    }
}

/// Returns the transaction that an indication is about.
pub fn told_id(indication: &Indication) -> TransactionId {
    match indication {
        Indication::Transaction(id)
        | Indication::EofSent(id)
        | Indication::MetadataRecv { id, .. }
        | Indication::EofRecv(id)
        | Indication::Finished { id, .. }
        | Indication::Suspended(id, _)
        | Indication::Resumed(id)
        | Indication::Fault(id, _)
        | Indication::Abandoned(id, _)
        | Indication::Progress(id, _) => *id,
    }
}

/// Whether a transaction has this name of its file, at either entity.
fn is_named(known: &Known, name: &[u8]) -> bool {
    match &known.names {
        Some(names) => is_one_of(name, names),
        None => false,
    }
}

/// Returns `true` if a name is one of these.
pub fn is_one_of(name: &[u8], names: &PutNames) -> bool {
    names.source.as_slice() == name || names.destination.as_slice() == name
}

/// Returns `true` if a transaction has a record at the station, and isn't closed there.
pub fn is_open<O: Outbox, I: Inbox>(station: &Station<O, I>, id: TransactionId) -> bool {
    match station.phase(id) {
        None | Some(Phase::Closed) => false,
        Some(Phase::Sending | Phase::Cancelling | Phase::Receiving | Phase::Finishing) => true,
    }
}

/// Copies names into memory of their own.
///
/// # Errors
///
/// `AllocError` if there is no memory for them.
pub fn copied(alloc: Global, source: &[u8], destination: &[u8]) -> Result<PutNames, AllocError> {
    Ok(PutNames {
        source: Vec::from_slice(alloc, source)?,
        destination: Vec::from_slice(alloc, destination)?,
    })
}
