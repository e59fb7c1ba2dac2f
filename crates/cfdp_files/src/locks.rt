//! Locks on files and folders. The system releases a lock when the process that holds it ends,
//! however it ends.
ghost use Rattle.std.specs.Prelude.{◌≡◌, IfOk};

use ghost_list::GhostList;
use std::fs::{File, TryLockError};
use std::io;
use std::marker::Model;

/// Why a file or a folder can't be had alone.
#[derive(Drop)]
pub enum LockError {
    /// Another process has it.
    InUse,
    /// The system refused.
    System(io::Error),
}

impl From<io::Error> for LockError {
    fn from(error: io::Error) -> LockError {
        LockError::System(error)
    }
}

/// Keeps others away from a file or a folder that is open, as long as it is.
pub fn lock(file: &File) -> Result<(), LockError> {
    match file.try_lock() {
        Ok(()) => Ok(()),
        Err(TryLockError::WouldBlock) => Err(LockError::InUse),
        Err(TryLockError::Error(error)) => Err(LockError::System(error)),
    }
}

/// A file or a folder that others are kept away from, as long as this value lives. Clauses see the
/// path at which it was opened.
#[derive(Drop)]
pub struct LockedFile {
    _file: File,
    path: GhostList<u8>,
}

impl Model for LockedFile {
    ghost use Rattle.std.specs.Prelude.{ℕ, List};

    ghost Value = { List ℕ };

    ghost view = { λ locked. locked.path };
}

impl LockedFile {
    /// Opens the file or the folder at a path, and locks it.
    ///
    /// # Errors
    ///
    /// `InUse` if another process has locked it; `System` if the system refused.
    pub fn open(rt: &HostRuntime, path: &str) -> Result<LockedFile, LockError>
        ensures { IfOk result (λ locked. locked ≡ path.now) }
    {
        let file = File::open(rt, path)?;
        lock(&file)?;
        let path = GhostList::of(path.as_bytes());
        Ok(LockedFile { _file: file, path })
    }
}
