//! A station over two folders that keeps a journal, and goes on with what an earlier run left open.
ghost use Rattle.std.specs.Prelude.{◌≡◌, ◌∷◌, true, [], IfOk};
ghost use Rattle.cfdp_c.specs.Held.{has_folders};

use crate::held::{
    AnyStation, FolderUse, FoldersError, FoldersStation, Held, Resumption, of_inbox, outbox_path,
    receives_into, sends_from,
};
use crate::journal_place::LibraryPlace;
use crate::noting_inbox::LibraryJournal;
use cfdp_directives::Addressing;
use cfdp_header::TransactionId;
use cfdp_station::{Config, EntityConfig, Station, StationConfig, Valid};
use cfdp_store::{NameRule, folder_of};
use ghost_list::GhostList;
use libc_folders::{HeldFolder, SystemFiles, is_held};
use std::alloc::{AllocError, Global};
use std::io::ErrorKind;
use transfer_journal::{
    JournalError, JournalPlace, JournalSetup, Owner, PublishRules, Restored, Survey, SurveyError,
    publish_again, read_survey, restore,
};

/// How many times as long as from one note of progress to the next it is until it is tried again to
/// begin a journal that couldn't be written.
const AGAIN: u64 = 60;

/// Why a station over folders with a journal can't be opened.
#[derive(Clone, Copy)]
pub enum JournaledError {
    /// One of the folders can't be had, or there is no memory.
    Folders(FoldersError),
    /// The journal can't be read, or no new one can be written.
    NoJournal,
    /// Another process has the journal.
    InUse,
    /// It is the journal of another entity, or with another peer.
    OfOthers,
    /// It would lie in a folder that a station receives into.
    Misplaced,
}

impl From<AllocError> for JournaledError {
    fn from(_error: AllocError) -> JournaledError {
        JournaledError::Folders(FoldersError::NoMemory)
    }
}

impl From<FoldersError> for JournaledError {
    fn from(error: FoldersError) -> JournaledError {
        JournaledError::Folders(error)
    }
}

impl From<JournalError> for JournaledError {
    fn from(error: JournalError) -> JournaledError {
        match error {
            JournalError::InUse => JournaledError::InUse,
            JournalError::System(error) if error.kind() == ErrorKind::OutOfMemory => {
                JournaledError::Folders(FoldersError::NoMemory)
            }
            JournalError::System(_) => JournaledError::NoJournal,
        }
    }
}

/// The paths of a station over folders that keeps a journal.
#[derive(Clone, Copy)]
pub struct Paths<'a> {
    /// The folder that it sends from.
    pub outbox: &'a [u8],
    /// The folder that it receives into.
    pub inbox: &'a [u8],
    /// The file of its journal.
    pub journal: &'a [u8],
}

impl Held {
    /// Returns a station over two folders that keeps a journal in a file, with the transactions
    /// that an earlier run noted there. It is noted after each `every` units of time how much was
    /// sent and is held.
    pub fn resumed(
        alloc: Global,
        config: Valid<StationConfig>,
        paths: Paths<'_>,
        every: u64,
    ) -> Result<Held, JournaledError>
        ensures place { IfOk result (λ held. has_folders held.station ≡ true) }
        ensures folders { IfOk result (λ held. held.folders
            ≡ FolderUse.SendsFrom paths.entry.outbox.now
            ∷ FolderUse.ReceivesInto paths.entry.inbox.now ∷ []) }
    {
        let outbox = outbox_path(alloc, paths.outbox)?;
        let Ok(inbox) = str::from_utf8(paths.inbox) else {
            return Err(JournaledError::Folders(FoldersError::NoInbox));
        };
        let folder = match HeldFolder::hold(alloc, inbox) {
            Ok(folder) => folder,
            Err(refusal) => return Err(JournaledError::Folders(of_inbox(refusal))),
        };
        let place = journal_place(alloc, paths.journal, inbox)?;
        let entity = config.get().entity;
        let found = found_at(alloc, &place, &entity)?;
        let kept = found.survey.part_names()?;
        let (folders, journal) = ((outbox, inbox), (place, found));
        let held = held_over(alloc, config, folders, folder, journal, every)?;
        held.clears(alloc, inbox, &kept);
        Ok(held)
    }
}

/// Returns where the journal lies, which must be in no folder that a station receives into: a peer
/// could put a file in its place there.
fn journal_place(alloc: Global, path: &[u8], inbox: &str) -> Result<LibraryPlace, JournaledError> {
    let path = match str::from_utf8(path) {
        Ok(path) if !path.is_empty() => path,
        _ => return Err(JournaledError::NoJournal),
    };
    if is_held(alloc, folder_of(path)) {
        return Err(JournaledError::Misplaced);
    }
    Ok(LibraryPlace::new(alloc, path, inbox)?)
}

/// What an earlier run left.
#[derive(Drop)]
struct Found {
    survey: Survey,
    owner: Owner,
    was_damaged: bool,
}

/// Reads the journal of an earlier run, if there is one. A damaged one is set aside, and nothing
/// goes on. What was about to be published is published.
fn found_at(
    alloc: Global,
    place: &LibraryPlace,
    entity: &EntityConfig,
) -> Result<Found, JournaledError> {
    let own = Owner {
        entity: entity.entity,
        peer: entity.peer,
        start: 1,
    };
    let addressing = addressing_of(entity);
    let (survey, was_damaged) = match read_survey(alloc, place, own, addressing) {
        Ok(survey) => (survey, false),
        Err(SurveyError::Damaged) => (None, true),
        Err(SurveyError::OfOthers(..)) => return Err(JournaledError::OfOthers),
        Err(SurveyError::File(error)) => return Err(JournaledError::from(error)),
    };
    let Some(mut survey) = survey else {
        return Ok(Found {
            survey: Survey::of(alloc, addressing, Vec::new(alloc))?,
            owner: own,
            was_damaged,
        });
    };
    let start = match survey.owner() {
        Some(found) => found.start.saturating_add(1),
        None => 1,
    };
    let rules = PublishRules {
        folder: place.folder(),
        replaces: true,
        most_size: 0,
        names: NameRule::Portable,
    };
    publish_again(&SystemFiles, alloc, rules, &mut survey);
    Ok(Found {
        survey,
        owner: Owner { start, ..own },
        was_damaged,
    })
}

/// Returns how a file of the peer is addressed if only its name is known: as those that this
/// station sends.
fn addressing_of(entity: &EntityConfig) -> Addressing {
    Addressing {
        id: TransactionId {
            source: entity.peer,
            number: 0,
        },
        destination: entity.entity,
        id_width: entity.id_width,
        number_width: entity.number_width,
        crc: entity.pdu_crc,
    }
}

/// Makes the station on which what was found goes on, and begins its journal.
fn held_over(
    alloc: Global,
    config: Valid<StationConfig>,
    folders: (&str, &str),
    folder: HeldFolder,
    journal: (LibraryPlace, Found),
    every: u64,
) -> Result<Held, JournaledError>
    ensures place { IfOk result (λ held. has_folders held.station ≡ true) }
    ensures folders { IfOk result (λ held. held.folders
        ≡ FolderUse.SendsFrom folders.entry.0.now ∷ FolderUse.ReceivesInto folders.entry.1.now ∷ []) }
{
    let (place, found) = journal;
    let Found {
        survey,
        owner,
        was_damaged,
    } = found;
    let setup = JournalSetup {
        owner,
        every,
        pause: every,
        again: every.saturating_mul(AGAIN),
    };
    let config = numbered(config, survey.greatest_number(owner.entity));
    let journal = LibraryJournal::new(alloc, place, setup);
    let (station, uses) = station_over(alloc, config, folders, journal)?;
    let mut held = Held::of_folders(alloc, station, folder, uses);
    match held.goes_on(alloc, survey, was_damaged) {
        Ok(()) => Ok(held),
        Err(error) => {
            drop(held);
            Err(error)
        }
    }
}

/// Makes a station over two folders, with a journal that isn't begun, and notes what it does with
/// each.
fn station_over(
    alloc: Global,
    config: Valid<StationConfig>,
    folders: (&str, &str),
    journal: LibraryJournal,
) -> Result<(FoldersStation, GhostList<FolderUse>), AllocError>
    ensures { IfOk result (λ made. made.1
        ≡ FolderUse.SendsFrom folders.entry.0.now ∷ FolderUse.ReceivesInto folders.entry.1.now ∷ []) }
{
    let (outbox, inbox) = folders;
    let mut uses = GhostList::new();
    let sources = sends_from(alloc, outbox, &mut uses)?;
    let received = receives_into(alloc, inbox, Some(journal), &mut uses)?;
    Ok((Station::new(alloc, config, sources, received)?, uses))
}

impl Held {
    /// Goes on with the transactions of a journal, and begins the journal of this run.
    fn goes_on(
        &mut self,
        alloc: Global,
        survey: Survey,
        was_damaged: bool,
    ) -> Result<(), JournaledError>
        ensures place { has_folders self.new.station ≡ has_folders self.old.station }
        ensures folders { self.new.folders ≡ self.old.folders }
    {
        let AnyStation::Folders(station) = &mut self.station else {
            return Ok(());
        };
        let restored = restore(alloc, station, survey)?;
        starts(station, &restored)?;
        self.resumption = resumption_of(&restored, was_damaged);
        self.unheard = restored.pending;
        Ok(())
    }
}

/// Writes the journal of a station for the first time.
fn starts(station: &FoldersStation, restored: &Restored) -> Result<(), JournaledError> {
    if let Some(journal) = station.inbox().journal() {
        journal.starts(station, restored.pending.as_slice())?;
    }
    Ok(())
}

/// Counts what became of the transactions of a journal.
fn resumption_of(restored: &Restored, was_damaged: bool) -> Resumption {
    let open = restored.resumed.iter().filter(|one| one.is_open).count();
    Resumption {
        resumed: u32::try_from(open).unwrap_or(u32::MAX),
        lost: u32::try_from(restored.lost.len()).unwrap_or(u32::MAX),
        was_damaged,
    }
}

/// Returns a configuration by which the first put gets a number that is greater than this one.
fn numbered(config: Valid<StationConfig>, greatest: Option<u64>) -> Valid<StationConfig> {
    let mut own = config.get();
    if let Some(greatest) = greatest {
        own.entity.first_number = own.entity.first_number.max(greatest.saturating_add(1));
    }
    match own.validate() {
        Ok(numbered) => numbered,
        Err(_) => config,
    }
}
