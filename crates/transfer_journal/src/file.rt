//! The file of a journal.
ghost use Rattle.std.specs.Prelude.{◌≡◌, ◌+◌, ◌<◌, ◌≤◌, length, IfOk, OnErr};

use crate::place::{JournalError, JournalPlace};
use batches::{HEAD_LEN, first_batch};
use cfdp_store::folder_of;
use journal_records::{JournalRecord, batch_of};
use std::alloc::{AllocError, Global};
use std::fs::OpenFile;
use std::io;
use std::io::{ErrorKind, Read, Write};

/// The most octets of a journal: a longer one is neither read nor written.
const MOST_OCTETS: u64 = 1 << 28;

/// A journal that is open to be written. No other process writes it meanwhile.
#[derive(Drop)]
pub struct JournalFile<F: Write + OpenFile + Drop> {
    file: F,
    len: u64,
}

/// Why a new journal can't be begun.
#[derive(Drop)]
pub enum BeginError {
    /// What was there stays so.
    Unchanged(JournalError),
    /// It has its name, but the device may not keep that. What was there isn't written any more.
    Unsynced(io::Error),
}

impl From<JournalError> for BeginError {
    fn from(error: JournalError) -> BeginError {
        BeginError::Unchanged(error)
    }
}

impl From<io::Error> for BeginError {
    fn from(error: io::Error) -> BeginError {
        BeginError::Unchanged(JournalError::System(error))
    }
}

impl From<AllocError> for BeginError {
    fn from(error: AllocError) -> BeginError {
        BeginError::Unchanged(JournalError::from(error))
    }
}

/// Returns what the file of a journal has; `None` if there is none.
///
/// # Errors
///
/// `InUse` if another process writes it; `System` with what the system says, for example
/// `FileTooLarge` if it has more than 2^28 octets.
pub fn read_file<P: JournalPlace>(
    alloc: Global,
    place: &P,
) -> Result<Option<Vec<u8>>, JournalError> {
    let file = match place.open_alone(place.path()) {
        Ok(file) => file,
        Err(JournalError::System(error)) if error.kind() == ErrorKind::NotFound => return Ok(None),
        Err(error) => return Err(error),
    };
    let mut octets = Vec::new(alloc);
    file.take(MOST_OCTETS + 1).read_to_end(&mut octets)?;
    let _ = grown(0, octets.as_slice())?;
    Ok(Some(octets))
}

/// Keeps a journal that can't be read, under the name with `.damaged` after it.
///
/// # Errors
///
/// What the system says.
pub fn set_aside<P: JournalPlace>(alloc: Global, place: &P) -> io::Result<()> {
    let path = place.path();
    let aside = format!(in alloc; "{path}.damaged")?;
    place.rename(path, aside.as_str())?;
    sync_folder(place)
}

/// Writes a new journal with these records, in place of the one that is there, if there is one. It
/// gets its name once it is whole and on the device.
///
/// # Errors
///
/// `Unchanged` with `InUse` if another process writes it, with what the system says, or with
/// `FileTooLarge` if it would have more than 2^28 octets; `Unsynced` with what the system says.
pub fn begin<P: JournalPlace>(
    alloc: Global,
    place: &P,
    records: &[JournalRecord],
) -> Result<JournalFile<P::File>, BeginError> {
    let path = place.path();
    let part = format!(in alloc; "{path}.new")?;
    let batch = batch_of(alloc, records)?;
    let len = grown(0, batch.as_slice())?;
    let _ = place.remove(part.as_str());
    let mut file = place.make(part.as_str())?;
    file.write_all(batch.as_slice())?;
    file.sync_all()?;
    let folder = place.open(folder_of(path))?;
    place.rename(part.as_str(), path)?;
    match folder.sync_all() {
        Ok(()) => Ok(JournalFile { file, len }),
        Err(error) => Err(BeginError::Unsynced(error)),
    }
}

impl<F: Write + OpenFile + Drop> JournalFile<F> {
    /// Returns how many octets it has.
    pub fn len(&self) -> u64 {
        self.len
    }

    /// Appends records as one batch, which is on the device then.
    ///
    /// # Errors
    ///
    /// What the system says, or `FileTooLarge` if it would have more than 2^28 octets. The batch
    /// may be there in part: nothing must be appended after it.
    pub fn append(&mut self, alloc: Global, records: &[JournalRecord]) -> io::Result<()> {
        let batch = batch_of(alloc, records)?;
        let len = grown(self.len, batch.as_slice())?;
        self.file.write_all(batch.as_slice())?;
        self.file.sync_data()?;
        self.len = len;
        Ok(())
    }
}

/// Removes the journal, also from the device, if there is one.
///
/// # Errors
///
/// What the system says.
pub fn remove<P: JournalPlace>(place: &P) -> io::Result<()> {
    match place.remove(place.path()) {
        Ok(()) => sync_folder(place),
        Err(error) if error.kind() == ErrorKind::NotFound => Ok(()),
        Err(error) => Err(error),
    }
}

/// Returns `true` if a whole batch stands somewhere in these octets, after their first one: they
/// aren't only what a crash left of the last batch.
pub fn has_batch_behind(octets: &[u8]) -> bool {
    (1..octets.len().saturating_sub(HEAD_LEN)).any(|at| first_batch(&octets[at..]).is_some())
}

/// Returns how many octets a journal of so many has with these after it.
///
/// # Errors
///
/// `FileTooLarge` if they are more than 2^28.
fn grown(len: u64, octets: &[u8]) -> io::Result<u64>
    ensures ok { IfOk result (λ all. (all ≡ len + length octets.now) × (all ≤ 268435456)) }
    ensures err { OnErr result (268435456 < len + length octets.now) }
{
    let len = len.saturating_add(octets.len() as u64);
    if len > MOST_OCTETS {
        return Err(io::Error::from(ErrorKind::FileTooLarge));
    }
    Ok(len)
}

/// Sees that the folder of the journal keeps what names were given in it.
fn sync_folder<P: JournalPlace>(place: &P) -> io::Result<()> {
    place.open(folder_of(place.path()))?.sync_all()
}
