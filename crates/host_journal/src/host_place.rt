//! Where the journal of the program's station lies.
use cfdp_directives::Addressing;
use cfdp_files::{LockError, Use, lock, open_plain};
use std::fs::File;
use std::time::Instant;
use std::{fs, io};
use transfer_journal::{JournalError, JournalPlace, JournalSetup, Owner, Survey, SurveyError};

/// The nanoseconds of a millisecond.
const MILLISECOND: u64 = 1_000_000;

/// The nanoseconds from one journal to the next.
const PAUSE: u64 = 1_000 * MILLISECOND;

/// The nanoseconds until it is tried again to begin a journal that couldn't be written.
const AGAIN: u64 = 60_000 * MILLISECOND;

/// The journal of the program's station.
pub type HostJournal<'a> = transfer_journal::TransferJournal<HostPlace<'a>>;

/// Where the journal of the program's station lies: in a file of the system. Its clock counts
/// nanoseconds.
#[derive(Drop)]
pub struct HostPlace<'a> {
    rt: &'a HostRuntime,
    path: &'a str,
    inbox: Option<&'a str>,
    began: Option<Instant>,
}

impl<'a> HostPlace<'a> {
    /// Returns the place with this path. If the station has an inbox, it is this folder.
    pub fn new(rt: &'a HostRuntime, path: &'a str, inbox: Option<&'a str>) -> HostPlace<'a> {
        HostPlace {
            rt,
            path,
            inbox,
            began: Instant::now(rt).ok(),
        }
    }

    /// Returns the path of the journal's file.
    pub fn full_path(&self) -> &'a str {
        self.path
    }
}

/// Why the files of this crate are locked or not, in the words of a journal.
fn of_lock(error: LockError) -> JournalError {
    match error {
        LockError::InUse => JournalError::InUse,
        LockError::System(error) => JournalError::System(error),
    }
}

/// Returns a file that other processes are kept away from.
fn alone(file: File) -> Result<File, JournalError> {
    match lock(&file) {
        Ok(()) => Ok(file),
        Err(error) => Err(of_lock(error)),
    }
}

impl JournalPlace for HostPlace<'_> {
    type File = File;

    fn path(&self) -> &str {
        self.path
    }

    fn inbox(&self) -> Option<&str> {
        self.inbox
    }

    fn make(&self, path: &str) -> Result<File, JournalError> {
        alone(File::create_new(self.rt, path)?)
    }

    fn open_alone(&self, path: &str) -> Result<File, JournalError> {
        alone(open_plain(self.rt, path, Use::Read)?)
    }

    fn open(&self, path: &str) -> io::Result<File> {
        File::open(self.rt, path)
    }

    fn rename(&self, from: &str, to: &str) -> io::Result<()> {
        fs::rename(self.rt, from, to)
    }

    fn remove(&self, path: &str) -> io::Result<()> {
        fs::remove_file(self.rt, path)
    }

    fn now(&self) -> Option<u64> {
        let began = self.began?;
        let now = Instant::now(self.rt).ok()?;
        u64::try_from(now.duration_since(began).as_nanos()).ok()
    }
}

/// Where a journal lies, what it is of, and when it is written.
#[derive(Clone, Copy)]
pub struct HostSetup<'a> {
    /// The path of its file.
    pub path: &'a str,
    /// The folder of the inbox, if the station has one.
    pub inbox: Option<&'a str>,
    /// Whose it is.
    pub owner: Owner,
    /// After how many milliseconds it is noted how much was sent and is held.
    pub every: u64,
}

/// Returns a journal that isn't written before it begins, or before the station's first turn. If it
/// couldn't be written, it is tried again each minute.
pub fn new_journal<'a>(rt: &'a HostRuntime, setup: HostSetup<'a>) -> HostJournal<'a> {
    let HostSetup {
        path,
        inbox,
        owner,
        every,
    } = setup;
    let times = JournalSetup {
        owner,
        every: every.saturating_mul(MILLISECOND),
        pause: PAUSE,
        again: AGAIN,
    };
    transfer_journal::TransferJournal::new(rt.alloc(), HostPlace::new(rt, path, inbox), times)
}

/// Returns what the journal at a path says, which must be of this station; `None` if there is no
/// journal.
///
/// # Errors
///
/// `File` if it can't be read; `OfOthers` if it is another station's; `Damaged` if a batch in it is
/// wrong that a crash didn't cut off.
pub fn read_survey<'a>(
    rt: &'a HostRuntime,
    path: &'a str,
    owner: Owner,
    addressing: Addressing,
) -> Result<Option<Survey>, SurveyError> {
    let place = HostPlace::new(rt, path, None);
    transfer_journal::read_survey(rt.alloc(), &place, owner, addressing)
}
