//! The journal of a station that runs.
ghost use Rattle.std.specs.Prelude.{◌≡◌, ◌++◌, OnOk};
ghost use Rattle.std.specs.List.{flat_map};
ghost use Rattle.std.specs.Option.{option_to_list};
ghost use Rattle.transfer_journal.specs.Pending.{pending_by};

use crate::facts::{note_facts, note_progress, push_some};
use crate::file::{BeginError, JournalFile, begin, remove};
use crate::noted::Noted;
use crate::place::{JournalError, JournalPlace};
use crate::ranges::lacks_some;
use cfdp_directives::{Indication, Octets, Outcome};
use cfdp_entity::Record;
use cfdp_extents::Numbers;
use cfdp_header::TransactionId;
use cfdp_station::Station;
use cfdp_store::{Inbox, Outbox, part_path};
use journal_records::{JournalRecord, Owner, RangeList};
use std::alloc::{AllocError, Global};
use std::cell::{Cell, RefCell};
use std::collections::BTreeMap;
use std::fs::OpenFile;
use std::io::{ErrorKind, Write};
use std::{io, mem};

/// A new journal is written if the last one has more octets than this, and more than twice as many
/// as when it was begun.
const MOST_OCTETS: u64 = 65_536;

/// What a journal is of, and when it is written. Times are in the units of its place.
#[derive(Clone, Copy)]
pub struct JournalSetup {
    /// Whose it is.
    pub owner: Owner,
    /// After how long it is noted how much was sent and is held.
    pub every: u64,
    /// How long it is at least from one new journal to the next, if the last one has grown.
    pub pause: u64,
    /// After how long it is tried again to begin a journal that couldn't be written.
    pub again: u64,
}

/// What is written at the moment.
#[derive(Drop)]
struct Writing<F: Write + OpenFile + Drop> {
    file: JournalFile<F>,
    /// How many octets it had when it was begun.
    begun: u64,
    noted: BTreeMap<TransactionId, Noted>,
    /// How many indications were looked at.
    told: u64,
    /// How many directives but NAKs had been sent: EOFs are among them.
    directives: u64,
    /// When it was noted last how much was sent and is held.
    at: Option<u64>,
}

/// The journal of a station, in a file. It is shared by whoever looks on at the station and by the
/// station's inbox.
///
/// If it can't be written, it is removed, and the station goes on without; after a while it is
/// tried again.
#[derive(Drop)]
pub struct TransferJournal<P: JournalPlace> {
    alloc: Global,
    place: P,
    setup: JournalSetup,
    writing: RefCell<Option<Writing<P::File>>>,
    tried: Cell<Option<u64>>,
    fault: Cell<Option<ErrorKind>>,
    is_stuck: Cell<bool>,
}

impl<P: JournalPlace> TransferJournal<P> {
    /// Returns a journal that isn't written before it [`begins`](Self::begins), or before the
    /// station [`ticks`](Self::ticks).
    pub fn new(alloc: Global, place: P, setup: JournalSetup) -> TransferJournal<P> {
        TransferJournal {
            alloc,
            place,
            setup,
            writing: RefCell::new(None),
            tried: Cell::new(None),
            fault: Cell::new(None),
            is_stuck: Cell::new(false),
        }
    }

    /// Returns where it lies.
    pub fn place(&self) -> &P {
        &self.place
    }

    /// Returns why it couldn't be written, once for each time.
    pub fn take_fault(&self) -> Option<ErrorKind> {
        self.fault.take()
    }

    /// Returns `true` if it could neither be written nor removed: the station must halt, since a
    /// later start would take what it says for what is.
    pub fn is_stuck(&self) -> bool {
        self.is_stuck.get()
    }

    /// Returns `true` if it is written.
    pub fn is_kept(&self) -> bool {
        match self.writing.try_borrow() {
            Ok(slot) => slot.is_some(),
            Err(_) => false,
        }
    }

    /// Writes all that the station has as a new journal. If that fails, the one before it goes on,
    /// if this run wrote one and the new one didn't take its place. Otherwise what is there is
    /// removed: it says what isn't so any more.
    ///
    /// `pending` are ends that the user heard beside the station, or hears from elsewhere: if the
    /// station is killed, the user may not have heard them.
    pub fn begins<O: Outbox, I: Inbox>(&self, station: &Station<O, I>, pending: &[Indication]) {
        self.tried.set(self.place.now());
        let Ok(mut slot) = self.writing.try_borrow_mut() else {
            return;
        };
        match begun(self.alloc, &self.place, &self.setup, station, pending) {
            Ok(writing) => {
                *slot = Some(writing);
                self.is_stuck.set(false);
            }
            Err(BeginError::Unsynced(error)) => {
                *slot = None;
                self.gives_up(error.kind());
            }
            Err(BeginError::Unchanged(error)) => {
                if slot.is_none() {
                    self.gives_up(error.kind());
                }
            }
        }
    }

    /// Writes all that the station has as a new journal, as [`begins`](Self::begins) does.
    ///
    /// # Errors
    ///
    /// Why it can't be written. It isn't begun then: the journal of an earlier run stays, or the
    /// new one, which says the same.
    pub fn starts<O: Outbox, I: Inbox>(
        &self,
        station: &Station<O, I>,
        pending: &[Indication],
    ) -> Result<(), JournalError> {
        let writing = match begun(self.alloc, &self.place, &self.setup, station, pending) {
            Ok(writing) => writing,
            Err(BeginError::Unchanged(error)) => return Err(error),
            Err(BeginError::Unsynced(error)) => return Err(JournalError::System(error)),
        };
        self.tried.set(self.place.now());
        if let Ok(mut slot) = self.writing.try_borrow_mut() {
            *slot = Some(writing);
        }
        Ok(())
    }

    /// Notes what the station has once it was given the time. If there is no journal and the last
    /// try is long ago, or if it has grown, a new one is written; `pending` are as with
    /// [`begins`](Self::begins).
    pub fn ticks<O: Outbox, I: Inbox>(&self, station: &Station<O, I>, pending: &[Indication]) {
        self.commits(station);
        self.tries_again(station, pending);
    }

    /// Notes what the station has once it was polled, before a PDU leaves, if it may have sent an
    /// EOF that isn't noted.
    pub fn polls<O: Outbox, I: Inbox>(&self, station: &Station<O, I>) {
        if self.lacks_eof(station) {
            self.commits(station);
        }
    }

    /// Notes what the station has before its user hears its next indication, if that isn't noted.
    pub fn tells<O: Outbox, I: Inbox>(&self, station: &Station<O, I>) {
        if self.lacks_news(station) {
            self.commits(station);
        }
    }

    /// Notes that a file is about to be published, with its part on the device before that.
    pub fn publishes(&self, id: TransactionId, name: &[u8], size: u64) {
        let Ok(mut slot) = self.writing.try_borrow_mut() else {
            return;
        };
        if let Some(writing) = slot.as_mut()
            && let Err(error) = intend(self.alloc, &self.place, &mut writing.file, id, name, size)
        {
            self.gives_up(error.kind());
            *slot = None;
        }
    }

    /// Notes all that the station has and the journal lacks, and if that is due, how much was sent
    /// and is held.
    pub fn commits<O: Outbox, I: Inbox>(&self, station: &Station<O, I>) {
        let is_due = match self.writing.try_borrow() {
            Ok(slot) => match slot.as_ref() {
                Some(writing) => is_past(&self.place, writing.at, self.setup.every),
                None => false,
            },
            Err(_) => false,
        };
        self.commits_with(station, is_due);
    }

    /// Notes all that the station has and the journal lacks, and how much was sent and is held.
    pub fn ends<O: Outbox, I: Inbox>(&self, station: &Station<O, I>) {
        self.commits_with(station, true);
    }

    /// Appends what the journal lacks, and if it is due, how much was sent and is held.
    fn commits_with<O: Outbox, I: Inbox>(&self, station: &Station<O, I>, is_due: bool) {
        let Ok(mut slot) = self.writing.try_borrow_mut() else {
            return;
        };
        if let Some(writing) = slot.as_mut()
            && let Err(error) = writing.commits(self.alloc, &self.place, station, is_due)
        {
            self.gives_up(error.kind());
            *slot = None;
        }
    }

    /// Returns `true` if an EOF may have been sent that isn't noted.
    fn lacks_eof<O: Outbox, I: Inbox>(&self, station: &Station<O, I>) -> bool {
        match self.writing.try_borrow() {
            Ok(slot) => match slot.as_ref() {
                Some(writing) => writing.directives != station.counters().sent.other_directives,
                None => false,
            },
            Err(_) => false,
        }
    }

    /// Returns `true` if there is an indication that wasn't looked at.
    fn lacks_news<O: Outbox, I: Inbox>(&self, station: &Station<O, I>) -> bool {
        match self.writing.try_borrow() {
            Ok(slot) => match slot.as_ref() {
                Some(writing) => match station.indications_since(writing.told) {
                    Some(news) => !news.is_empty(),
                    None => true,
                },
                None => false,
            },
            Err(_) => false,
        }
    }

    /// Writes a new journal, if there is none and the last try is long ago, or if it has grown.
    fn tries_again<O: Outbox, I: Inbox>(&self, station: &Station<O, I>, pending: &[Indication]) {
        let is_due = match self.writing.try_borrow() {
            Ok(slot) => match slot.as_ref() {
                Some(writing) => {
                    writing.has_grown() && is_past(&self.place, self.tried.get(), self.setup.pause)
                }
                None => is_past(&self.place, self.tried.get(), self.setup.again),
            },
            Err(_) => false,
        };
        if is_due {
            self.begins(station, pending);
        }
    }

    /// Removes the journal, since it can't be written for this cause.
    fn gives_up(&self, cause: ErrorKind) {
        self.fault.set(Some(cause));
        self.tried.set(self.place.now());
        if remove(&self.place).is_err() {
            self.is_stuck.set(true);
        }
    }
}

/// Writes all that a station has as a new journal.
fn begun<P: JournalPlace, O: Outbox, I: Inbox>(
    alloc: Global,
    place: &P,
    setup: &JournalSetup,
    station: &Station<O, I>,
    pending: &[Indication],
) -> Result<Writing<P::File>, BeginError> {
    let mut noted = BTreeMap::new(alloc);
    let mut out = Vec::new(alloc);
    let told = station.indications_gone();
    push_some(&mut out, Some(JournalRecord::Station(setup.owner)))?;
    let count = snapshot(alloc, place, &mut out, &mut noted, station, pending)?;
    let told = told.saturating_add(count as u64);
    let file = begin(alloc, place, out.as_slice())?;
    let begun = file.len();
    Ok(Writing {
        file,
        begun,
        noted,
        told,
        directives: station.counters().sent.other_directives,
        at: place.now(),
    })
}

/// Appends all that a station has, and notes it. Returns how many indications were looked at.
fn snapshot<P: JournalPlace, O: Outbox, I: Inbox>(
    alloc: Global,
    place: &P,
    out: &mut Vec<JournalRecord>,
    noted: &mut BTreeMap<TransactionId, Noted>,
    station: &Station<O, I>,
    pending: &[Indication],
) -> io::Result<usize> {
    note_forgotten(alloc, out, station)?;
    note_all_facts(alloc, out, noted, station)?;
    note_pending(out, pending)?;
    note_pending(out, station.indications())?;
    sync_parts(alloc, place, noted, station)?;
    note_all_progress(alloc, out, noted, station)?;
    Ok(station.indications().len())
}

impl<F: Write + OpenFile + Drop> Writing<F> {
    /// Returns `true` if a new one should be written.
    fn has_grown(&self) -> bool {
        let len = self.file.len();
        len > MOST_OCTETS && len / 2 > self.begun
    }

    /// Appends the facts that it lacks and, if that is due, how much was sent and is held.
    fn commits<P: JournalPlace, O: Outbox, I: Inbox>(
        &mut self,
        alloc: Global,
        place: &P,
        station: &Station<O, I>,
        is_due: bool,
    ) -> io::Result<()> {
        let mut out = Vec::new(alloc);
        note_all_facts(alloc, &mut out, &mut self.noted, station)?;
        self.note_told(&mut out, station)?;
        self.directives = station.counters().sent.other_directives;
        if is_due {
            self.at = place.now();
            sync_parts(alloc, place, &self.noted, station)?;
            note_all_progress(alloc, &mut out, &mut self.noted, station)?;
        }
        if out.is_empty() {
            return Ok(());
        }
        self.file.append(alloc, out.as_slice())
    }

    /// Appends the ends that were indicated since it was looked at them last.
    fn note_told<O: Outbox, I: Inbox>(
        &mut self,
        out: &mut Vec<JournalRecord>,
        station: &Station<O, I>,
    ) -> Result<(), AllocError> {
        let news = match station.indications_since(self.told) {
            Some(news) => news,
            None => {
                self.told = station.indications_gone();
                station.indications()
            }
        };
        self.told = self.told.saturating_add(news.len() as u64);
        note_pending(out, news)
    }
}

/// Syncs the part of a file, and the folder, which must not lose the part's name, and appends that
/// it is about to be published.
fn intend<P: JournalPlace>(
    alloc: Global,
    place: &P,
    file: &mut JournalFile<P::File>,
    id: TransactionId,
    name: &[u8],
    size: u64,
) -> io::Result<()> {
    sync_part(alloc, place, id)?;
    if let Some(folder) = place.inbox() {
        place.open(folder)?.sync_all()?;
    }
    let name = Octets::copied(alloc, name)?;
    let mut out = Vec::new(alloc);
    out.push(JournalRecord::Publishing(id, name, size))?;
    file.append(alloc, out.as_slice())
}

/// Sees that the octets that came of a file are on the device.
fn sync_part<P: JournalPlace>(alloc: Global, place: &P, id: TransactionId) -> io::Result<()> {
    let Some(folder) = place.inbox() else {
        return Ok(());
    };
    let path = part_path(alloc, folder, id)?;
    place.open(path.as_str())?.sync_data()
}

/// Sees that the octets that came are on the device, of each file that has more than is noted.
fn sync_parts<P: JournalPlace, O: Outbox, I: Inbox>(
    alloc: Global,
    place: &P,
    noted: &BTreeMap<TransactionId, Noted>,
    station: &Station<O, I>,
) -> io::Result<()> {
    for (id, record) in station.records() {
        if let (Record::Receives(receiver), Some(Noted::Receives(noted))) = (record, noted.get(id))
            && lacks_some(receiver.held(), &noted.held)
        {
            sync_part(alloc, place, *id)?;
        }
    }
    Ok(())
}

/// Appends the facts that are lacked of all transactions of a station, and notes them.
fn note_all_facts<O: Outbox, I: Inbox>(
    alloc: Global,
    out: &mut Vec<JournalRecord>,
    noted: &mut BTreeMap<TransactionId, Noted>,
    station: &Station<O, I>,
) -> Result<(), AllocError> {
    for (id, record) in station.records() {
        // In its place: to remove and insert it would move all those after it.
        match noted.get_mut(id) {
            Some(place) => {
                let before = mem::replace(place, Noted::Gone);
                *place = note_facts(alloc, out, *id, record, Some(before))?;
            }
            None => {
                let now = note_facts(alloc, out, *id, record, None)?;
                let _ = noted.insert(*id, now)?;
            }
        }
    }
    note_gone(alloc, out, noted, station)
}

/// Appends how much was sent and is held of all files, and notes it.
fn note_all_progress<O: Outbox, I: Inbox>(
    alloc: Global,
    out: &mut Vec<JournalRecord>,
    noted: &mut BTreeMap<TransactionId, Noted>,
    station: &Station<O, I>,
) -> Result<(), AllocError> {
    for (id, record) in station.records() {
        if let Some(noted) = noted.get_mut(id) {
            note_progress(alloc, out, *id, record, noted)?;
        }
    }
    Ok(())
}

/// Appends that the transactions are forgotten that were noted and have had no record for a turn:
/// until then the log may not have their ends yet.
fn note_gone<O: Outbox, I: Inbox>(
    alloc: Global,
    out: &mut Vec<JournalRecord>,
    noted: &mut BTreeMap<TransactionId, Noted>,
    station: &Station<O, I>,
) -> Result<(), AllocError> {
    let gone = gone_of(alloc, noted, station)?;
    for id in gone {
        if let Some(Noted::Gone) = noted.remove(&id) {
            let mut range = Vec::new(alloc);
            range.push((id.number, id.number.saturating_add(1)))?;
            out.push(JournalRecord::Forgotten(id.source, RangeList::from_vec(range)))?;
        } else {
            let _ = noted.insert(id, Noted::Gone)?;
        }
    }
    Ok(())
}

/// Returns the transactions that were noted and have no record any more.
fn gone_of<O: Outbox, I: Inbox>(
    alloc: Global,
    noted: &BTreeMap<TransactionId, Noted>,
    station: &Station<O, I>,
) -> Result<Vec<TransactionId>, AllocError> {
    let mut gone = Vec::new(alloc);
    for id in noted.keys() {
        if station.phase(*id).is_none() {
            gone.push(*id)?;
        }
    }
    Ok(gone)
}

/// Appends all transactions that a station has forgotten.
fn note_forgotten<O: Outbox, I: Inbox>(
    alloc: Global,
    out: &mut Vec<JournalRecord>,
    station: &Station<O, I>,
) -> Result<(), AllocError> {
    for (source, numbers) in station.forgotten() {
        let ranges = RangeList::from_vec(ranges_of(alloc, numbers)?);
        out.push(JournalRecord::Forgotten(*source, ranges))?;
    }
    Ok(())
}

fn ranges_of(alloc: Global, numbers: &Numbers) -> Result<Vec<(u64, u64)>, AllocError> {
    let mut ranges = Vec::new(alloc);
    for range in numbers.ranges() {
        ranges.push(range)?;
    }
    Ok(ranges)
}

/// Appends the ends among indications.
fn note_pending(out: &mut Vec<JournalRecord>, news: &[Indication]) -> Result<(), AllocError>
    ensures { OnOk result (out.new.items ≡ out.old.items
        ++ flat_map (λ told. option_to_list (pending_by told)) news.now) }
{
    for told in news {
        push_some(out, pending_by(told))?;
    }
    Ok(())
}

/// Returns a record of an end that was indicated, if one was.
fn pending_by(told: &Indication) -> Option<JournalRecord>
    ensures { result ≡ pending_by told.now }
{
    match told {
        Indication::Finished {
            id,
            condition,
            delivery,
            status,
        } => {
            let outcome = Outcome {
                condition: *condition,
                delivery: *delivery,
                status: *status,
            };
            Some(JournalRecord::PendingFinished(*id, outcome))
        }
        Indication::Abandoned(id, condition) => {
            Some(JournalRecord::PendingAbandoned(*id, *condition))
        }
        _ => None,
    }
}

/// Returns `true` if so much time has gone since then, or nothing was then, or it isn't known.
fn is_past<P: JournalPlace>(place: &P, then: Option<u64>, time: u64) -> bool {
    match (then, place.now()) {
        (Some(then), Some(now)) => now.saturating_sub(then) >= time,
        (None, _) | (_, None) => true,
    }
}
