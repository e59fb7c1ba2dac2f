// What an open handle has: a station with its stores in memory, or with both in folders.
ghost use Rattle.std.specs.FinMap as map;
ghost use Rattle.std.specs.Prelude.{◌≡◌, ◌++◌, ◌∷◌, true, false, [], IfOk};
ghost use Rattle.cfdp_c.specs.Calls.{IsFirst};
ghost use Rattle.cfdp_c.specs.declared.held.AnyStation.TheVariants as held;
ghost use Rattle.cfdp_c.specs.Held.{has_folders, none_resumed, state_of};

use crate::noting_inbox::{LibraryJournal, NotingInbox};
use cfdp_directives::Indication;
use cfdp_station::{Station, StationConfig, Valid};
use cfdp_store::{FolderOutbox, Inbox, MemoryInbox, MemoryOutbox, Outbox};
use ghost_list::GhostList;
use libc_folders::{FolderRefusal, HeldFolder, SystemFiles, look_at_folder};
use std::alloc::{AllocError, Global};
use std::collections::BTreeSet;
use std::snapshot::Snapshot;

/// A station with its stores in folders, which may have a journal.
pub type FoldersStation = Station<FolderOutbox<SystemFiles>, NotingInbox>;

/// A station, by where its stores are.
#[derive(Drop)]
pub enum AnyStation {
    /// Both in memory.
    Memory(Station<MemoryOutbox, MemoryInbox>),
    /// Both in folders.
    Folders(FoldersStation),
}

/// What became of the transactions of a journal when its station was opened.
#[derive(Clone, Copy)]
pub struct Resumption {
    /// How many open ones go on.
    pub resumed: u32,
    /// How many don't.
    pub lost: u32,
    /// Whether the journal was damaged, and was kept aside.
    pub was_damaged: bool,
}

impl Resumption {
    /// What is so if there was no journal.
    pub const NONE: Resumption = Resumption {
        resumed: 0,
        lost: 0,
        was_damaged: false,
    };
}

/// What a station does with the folder at this path.
#[derive(Drop)]
pub enum FolderUse {
    /// It sends files from it.
    SendsFrom(GhostList<u8>),
    /// It receives files into it.
    ReceivesInto(GhostList<u8>),
}

/// A station, and the folder that it receives into, if it has one.
#[derive(Drop)]
pub struct Held {
    /// What it does with folders. Only clauses see it.
    pub folders: GhostList<FolderUse>,
    pub station: AnyStation,
    pub resumption: Resumption,
    /// Ends of an earlier run that its user may not have heard, and hasn't asked for since.
    pub unheard: Vec<Indication>,
    inbox: Option<HeldFolder>,
}

/// Why a station over folders can't be opened.
#[derive(Clone, Copy)]
pub enum FoldersError {
    /// The folder to send from isn't there.
    NoOutbox,
    /// The folder to receive into isn't there.
    NoInbox,
    /// Another station receives into that one.
    InboxInUse,
    /// There is no memory for it.
    NoMemory,
}

impl From<AllocError> for FoldersError {
    fn from(_error: AllocError) -> FoldersError {
        FoldersError::NoMemory
    }
}

impl Held {
    /// Returns a station without transactions, both of whose stores are empty.
    pub fn in_memory(alloc: Global, config: Valid<StationConfig>) -> Result<Held, AllocError>
        ensures first { IfOk result (λ held. IsFirst config (state_of held.station)) }
        ensures place { IfOk result (λ held. has_folders held.station ≡ false) }
        ensures folders { IfOk result (λ held. held.folders ≡ []) }
    {
        let (outbox, inbox) = (MemoryOutbox::new(alloc), MemoryInbox::new(alloc));
        let station = Station::new(alloc, config, outbox, inbox)?;
        Ok(Held {
            folders: GhostList::new(),
            station: AnyStation::Memory(station),
            resumption: Resumption::NONE,
            unheard: Vec::new(alloc),
            inbox: None,
        })
    }

    /// Returns a station without transactions, over two folders, each by its path.
    pub fn in_folders(
        alloc: Global,
        config: Valid<StationConfig>,
        outbox: &[u8],
        inbox: &[u8],
    ) -> Result<Held, FoldersError>
        ensures first { IfOk result (λ held. IsFirst config (state_of held.station)) }
        ensures place { IfOk result (λ held. has_folders held.station ≡ true) }
        ensures folders { IfOk result (λ held. held.folders
            ≡ FolderUse.SendsFrom outbox.now ∷ FolderUse.ReceivesInto inbox.now ∷ []) }
    {
        let outbox = outbox_path(alloc, outbox)?;
        let (path, folder) = take_inbox(alloc, inbox)?;
        let mut folders = GhostList::new();
        let sources = sends_from(alloc, outbox, &mut folders)?;
        let received = receives_into(alloc, path, None, &mut folders)?;
        let station = Station::new(alloc, config, sources, received)?;
        Ok(Held::of_folders(alloc, station, folder, folders))
    }

    /// Returns what an open handle has over two folders, if it holds the second one.
    pub fn of_folders(
        alloc: Global,
        station: FoldersStation,
        inbox: HeldFolder,
        folders: GhostList<FolderUse>,
    ) -> Held
        ensures station { result.station ≡ held.Folders station }
        ensures resumption { result.resumption ≡ none_resumed }
        ensures folders { result.folders ≡ folders }
        ensures unheard { result.unheard.items ≡ [] }
    {
        Held {
            folders,
            station: AnyStation::Folders(station),
            resumption: Resumption::NONE,
            unheard: Vec::new(alloc),
            inbox: Some(inbox),
        }
    }

    /// Removes the part files of the folder at this path, which it receives into, except for those
    /// with these names.
    pub fn clears(&self, alloc: Global, path: &str, kept: &BTreeSet<String>) {
        if let Some(folder) = &self.inbox {
            folder.clear(alloc, path, kept);
        }
    }
}

/// Returns the files of a folder to send from, and notes that.
pub(crate) fn sends_from(
    alloc: Global,
    path: &str,
    folders: &mut GhostList<FolderUse>,
) -> Result<FolderOutbox<SystemFiles>, AllocError>
    ensures files { IfOk result (λ o. ⟦<FolderOutbox<SystemFiles> as Outbox>⟧.files o ≡ map.empty) }
    ensures stands { IfOk result (λ o. ⟦<FolderOutbox<SystemFiles> as Outbox>⟧.stands o ≡ true) }
    ensures noted { folders.new ≡ folders.old ++ FolderUse.SendsFrom path.now ∷ [] }
{
    folders.put(&FolderUse::SendsFrom(GhostList::of(path.as_bytes())));
    FolderOutbox::new(SystemFiles, alloc, path, Snapshot::of(&GhostList::new()))
}

/// Returns an inbox over a folder, which may have a journal, and notes that.
pub(crate) fn receives_into(
    alloc: Global,
    path: &str,
    journal: Option<LibraryJournal>,
    folders: &mut GhostList<FolderUse>,
) -> Result<NotingInbox, AllocError>
    ensures new { IfOk result (λ i. ⟦<NotingInbox as Inbox>⟧.published i ≡ map.empty) }
    ensures noted { folders.new ≡ folders.old ++ FolderUse.ReceivesInto path.now ∷ [] }
{
    folders.put(&FolderUse::ReceivesInto(GhostList::of(path.as_bytes())));
    NotingInbox::new(alloc, path, journal)
}

/// Returns the path of a folder to send from, which must be there.
pub(crate) fn outbox_path(alloc: Global, path: &[u8]) -> Result<&str, FoldersError>
    ensures { IfOk result (λ outbox. outbox.now ≡ path.now) }
{
    let Ok(path) = str::from_utf8(path) else {
        return Err(FoldersError::NoOutbox);
    };
    match look_at_folder(alloc, path) {
        Ok(()) => Ok(path),
        Err(FolderRefusal::NoMemory) => Err(FoldersError::NoMemory),
        Err(_) => Err(FoldersError::NoOutbox),
    }
}

/// Returns the path of a folder to receive into, and the folder, taken.
fn take_inbox(alloc: Global, path: &[u8]) -> Result<(&str, HeldFolder), FoldersError>
    ensures { IfOk result (λ taken. taken.0.now ≡ path.now) }
{
    let Ok(path) = str::from_utf8(path) else {
        return Err(FoldersError::NoInbox);
    };
    match HeldFolder::take(alloc, path) {
        Ok(folder) => Ok((path, folder)),
        Err(refusal) => Err(of_inbox(refusal)),
    }
}

/// Returns why no station receives into a folder that can't be had.
pub(crate) fn of_inbox(refusal: FolderRefusal) -> FoldersError {
    match refusal {
        FolderRefusal::Missing => FoldersError::NoInbox,
        FolderRefusal::InUse => FoldersError::InboxInUse,
        FolderRefusal::NoMemory => FoldersError::NoMemory,
    }
}
