//! Where the journal of a station in a library lies, by calls of the C library.
use libc_folders::{SystemFile, SystemFiles};
use std::alloc::{AllocError, Global};
use std::cell::Cell;
use std::fs::{Files, OpenFile, OpenOptions};
use std::io::{self, ErrorKind};
use transfer_journal::{JournalError, JournalPlace};

/// Where a journal lies: in a file of the system. Its clock is what the station's user gave it.
#[derive(Drop)]
pub struct LibraryPlace {
    alloc: Global,
    path: String,
    inbox: String,
    now: Cell<Option<u64>>,
}

impl LibraryPlace {
    /// Returns the place with this path, of a station that receives into this folder.
    pub fn new(alloc: Global, path: &str, inbox: &str) -> Result<LibraryPlace, AllocError> {
        Ok(LibraryPlace {
            alloc,
            path: String::from_str(alloc, path)?,
            inbox: String::from_str(alloc, inbox)?,
            now: Cell::new(None),
        })
    }

    /// Returns the folder that the station receives into.
    pub fn folder(&self) -> &str {
        self.inbox.as_str()
    }

    /// Gives it the time. A time that is earlier than the last one counts as that.
    pub fn give_time(&self, now: u64) {
        let last = self.now.get().unwrap_or(0);
        self.now.set(Some(now.max(last)));
    }
}

/// Opens a file or a folder to be read.
fn opened(path: &str) -> io::Result<SystemFile> {
    let mut how = OpenOptions::new();
    how.read(true);
    SystemFiles.open_file(&how, path)
}

/// Returns a file that others are kept away from.
fn alone(file: SystemFile) -> Result<SystemFile, JournalError> {
    match file.lock() {
        Ok(()) => Ok(file),
        Err(error) if error.kind() == ErrorKind::WouldBlock => Err(JournalError::InUse),
        Err(error) => Err(JournalError::System(error)),
    }
}

impl JournalPlace for LibraryPlace {
    type File = SystemFile;

    fn path(&self) -> &str {
        self.path.as_str()
    }

    fn inbox(&self) -> Option<&str> {
        Some(self.inbox.as_str())
    }

    fn make(&self, path: &str) -> Result<SystemFile, JournalError> {
        let mut how = OpenOptions::new();
        how.write(true).create_new(true);
        alone(SystemFiles.open_file(&how, path)?)
    }

    fn open_alone(&self, path: &str) -> Result<SystemFile, JournalError> {
        if !SystemFiles.metadata(path)?.is_file() {
            return Err(JournalError::System(io::Error::from(ErrorKind::InvalidInput)));
        }
        alone(opened(path)?)
    }

    fn open(&self, path: &str) -> io::Result<SystemFile> {
        opened(path)
    }

    fn rename(&self, from: &str, to: &str) -> io::Result<()> {
        SystemFiles.rename(from, to)
    }

    fn remove(&self, path: &str) -> io::Result<()> {
        SystemFiles.remove_file(path)
    }

    fn now(&self) -> Option<u64> {
        self.now.get()
    }
}
