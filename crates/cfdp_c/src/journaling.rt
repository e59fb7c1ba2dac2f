//! What a station with a journal notes there, and what its user asks of that.
ghost use Rattle.std.specs.Prelude.{◌≡◌, ◌≢◌, ◌≤◌};
ghost use Rattle.cfdp_c.specs.Codes as codes;
ghost use Rattle.cfdp_c.specs.Handles.{Answers};
ghost use Rattle.cfdp_c.specs.Held.{has_folders, state_of};
ghost use Rattle.cfdp_c.specs.Journaling.{TellsUnheard, TellsJournal};

use crate::codes::{CLOSED, NOTHING, OK};
use crate::handle::CfdpStation;
use crate::held::{AnyStation, FoldersStation, Held};
use crate::indications::CfdpIndication;
use crate::noting_inbox::LibraryJournal;
use std::alloc::Global;

/// How the journal of a station fares.
#[repr(C)]
#[derive(Clone, Copy)]
pub struct CfdpJournal {
    /// How many open transactions went on when the handle was opened.
    pub resumed: u32,
    /// How many transactions of the journal did not.
    pub lost: u32,
    /// 0 None, 1 Kept, 2 NotKept, 3 Stuck.
    pub state: u8,
    /// 1 if a damaged journal was set aside when the handle was opened, otherwise 0.
    pub was_damaged: u8,
}

/// Returns the journal of a station over folders, with the station, if there is one.
fn journal_of(station: &AnyStation) -> Option<(&LibraryJournal, &FoldersStation)> {
    match station {
        AnyStation::Memory(_) => None,
        AnyStation::Folders(station) => {
            let journal = station.inbox().journal()?;
            Some((journal, station))
        }
    }
}

/// Returns the number of how a journal fares.
fn state_number(journal: &LibraryJournal) -> u8
    ensures { result ≤ 3 }
{
    if journal.is_stuck() {
        3
    } else if journal.is_kept() {
        1
    } else {
        2
    }
}

impl Held {
    /// Notes what the station has, once it was given the time.
    pub(crate) fn notes_tick(&self, now: u64) {
        if let Some((journal, station)) = journal_of(&self.station) {
            journal.place().give_time(now);
            journal.ticks(station, self.unheard.as_slice());
        }
    }

    /// Notes what the station has, once its user asked for something.
    pub(crate) fn notes_request(&self) {
        if let Some((journal, station)) = journal_of(&self.station) {
            journal.commits(station);
        }
    }

    /// Notes what the station has, before PDUs leave that it was polled for.
    pub(crate) fn notes_polls(&self) {
        if let Some((journal, station)) = journal_of(&self.station) {
            journal.polls(station);
        }
    }

    /// Notes what the station has, before its user hears of it.
    pub(crate) fn notes_news(&self) {
        if let Some((journal, station)) = journal_of(&self.station) {
            journal.tells(station);
        }
    }

    /// Notes all that the station has, since its handle is closed.
    pub(crate) fn notes_end(&self) {
        if let Some((journal, station)) = journal_of(&self.station) {
            journal.ends(station);
        }
    }

    /// Returns the number of how the journal fares; 0 if there is none.
    fn journal_state(&self) -> u8
        ensures { result ≤ 3 }
    {
        match journal_of(&self.station) {
            Some((journal, _)) => state_number(journal),
            None => 0,
        }
    }

    fn journal(&self) -> CfdpJournal
        ensures { TellsJournal self.now.resumption result }
    {
        CfdpJournal {
            resumed: self.resumption.resumed,
            lost: self.resumption.lost,
            state: self.journal_state(),
            was_damaged: u8::from(self.resumption.was_damaged),
        }
    }

    fn next_unheard(&mut self, out: &mut CfdpIndication) -> u32
        ensures tells { TellsUnheard self.old.unheard.items result out.old out.new
            self.new.unheard.items }
        ensures station { self.new.station ≡ self.old.station }
    {
        if self.unheard.is_empty() {
            return NOTHING;
        }
        let told = self.unheard.remove(0);
        *out = CfdpIndication::of(&told);
        OK
    }
}

/// Writes how the journal of a station fares, and what became of the transactions of an earlier
/// one. Returns 0 or `CLOSED`.
#[unsafe(no_mangle)]
pub extern "C" fn cfdp_journal_state(
    alloc: Global,
    station: &mut CfdpStation,
    out: &mut CfdpJournal,
) -> u32
    ensures tells { Answers result station.old station.new (λ x y. (y ≡ x) × (result ≡ codes.ok)
        × TellsJournal x.resumption out.new) }
    ensures kept { result ≢ codes.ok → out.new ≡ out.old }
{
    let Some(held) = station.lift(alloc) else {
        return CLOSED;
    };
    *out = held.journal();
    *station = CfdpStation::holding(held);
    OK
}

/// Writes the next end of a transaction that the user of an earlier run may not have heard: kind 5
/// or 9 of [`CfdpIndication`]. It isn't written again. Returns 0, `CLOSED`, or `NOTHING` if there
/// are no more.
#[unsafe(no_mangle)]
pub extern "C" fn cfdp_next_unheard(
    alloc: Global,
    station: &mut CfdpStation,
    out: &mut CfdpIndication,
) -> u32
    ensures tells { Answers result station.old station.new (λ x y. (y.station ≡ x.station)
        × TellsUnheard x.unheard.items result out.old out.new y.unheard.items) }
    ensures kept { result ≢ codes.ok → out.new ≡ out.old }
{
    let Some(mut held) = station.lift(alloc) else {
        return CLOSED;
    };
    let answer = held.next_unheard(out);
    *station = CfdpStation::holding(held);
    answer
}
