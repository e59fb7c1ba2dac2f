//! Where a journal lies, and what it asks of the system there.
use std::alloc::AllocError;
use std::fs::OpenFile;
use std::io;
use std::io::{ErrorKind, Read, Write};

/// Why a journal can't be had.
#[derive(Drop)]
pub enum JournalError {
    /// Another process has it.
    InUse,
    /// The system refused, or memory ran out.
    System(io::Error),
}

impl JournalError {
    /// Returns what kind of error it is.
    pub fn kind(&self) -> ErrorKind {
        match self {
            JournalError::InUse => ErrorKind::ResourceBusy,
            JournalError::System(error) => error.kind(),
        }
    }
}

impl From<io::Error> for JournalError {
    fn from(error: io::Error) -> JournalError {
        JournalError::System(error)
    }
}

impl From<AllocError> for JournalError {
    fn from(_error: AllocError) -> JournalError {
        JournalError::System(io::Error::from(ErrorKind::OutOfMemory))
    }
}

/// The place of a journal: the path of its file, the folder of the station's inbox, and what a
/// journal asks of the system. So a journal is the same for a program and for a library.
pub trait JournalPlace: Drop {
    /// An open file, or an open folder.
    type File: Read + Write + OpenFile + Drop;

    /// Returns the path of the journal's file.
    fn path(&self) -> &str;

    /// Returns the folder of the inbox, if the station has one.
    fn inbox(&self) -> Option<&str>;

    /// Makes a file and opens it to be written. No other process has it as long as it is open.
    ///
    /// # Errors
    ///
    /// `InUse` if another process has it; `System` with what the system says, for example that
    /// something has that path.
    fn make(&self, path: &str) -> Result<Self::File, JournalError>;

    /// Opens a plain file to be read. No other process has it as long as it is open.
    ///
    /// # Errors
    ///
    /// `InUse` if another process has it; `System` with what the system says, for example that it
    /// is no plain file.
    fn open_alone(&self, path: &str) -> Result<Self::File, JournalError>;

    /// Opens a file or a folder, so that it can be flushed to the device.
    ///
    /// # Errors
    ///
    /// What the system says.
    fn open(&self, path: &str) -> io::Result<Self::File>;

    /// Gives a file another path, in place of what is there.
    ///
    /// # Errors
    ///
    /// What the system says.
    fn rename(&self, from: &str, to: &str) -> io::Result<()>;

    /// Removes a file.
    ///
    /// # Errors
    ///
    /// What the system says.
    fn remove(&self, path: &str) -> io::Result<()>;

    /// Returns the time, in units of its own and from any moment on; `None` if it isn't known.
    fn now(&self) -> Option<u64>;
}
