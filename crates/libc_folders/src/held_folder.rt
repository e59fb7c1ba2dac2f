//! Folders that a station has: one to send from, and one to receive into, which one station has at
//! a time.
use crate::system_file::SystemFile;
use crate::system_files::SystemFiles;
use cfdp_store::remove_parts;
use std::alloc::{AllocError, Global};
use std::collections::BTreeSet;
use std::io::{self, ErrorKind};

/// Why a folder can't be had.
#[derive(Clone, Copy, Debug, PartialEq)]
pub enum FolderRefusal {
    /// It isn't there, it is no folder, or the system refuses it.
    Missing,
    /// Another station receives into it.
    InUse,
    /// There is no memory for its path.
    NoMemory,
}

impl From<AllocError> for FolderRefusal {
    fn from(_error: AllocError) -> FolderRefusal {
        FolderRefusal::NoMemory
    }
}

/// Returns `true` if a folder is there that can be read.
///
/// # Errors
///
/// `Missing` if the folder isn't there or can't be read; `NoMemory` if there is no memory.
pub fn look_at_folder(alloc: Global, path: &str) -> Result<(), FolderRefusal> {
    let _folder = open_folder(alloc, path)?;
    Ok(())
}

/// A folder into which no other station receives, in this process or another one, as long as this
/// value lives.
#[derive(Drop)]
pub struct HeldFolder {
    _folder: SystemFile,
}

impl HeldFolder {
    /// Takes a folder, and removes from it the part files of a station that died.
    ///
    /// # Errors
    ///
    /// A [`FolderRefusal`], if the folder can't be had.
    pub fn take(alloc: Global, path: &str) -> Result<HeldFolder, FolderRefusal> {
        let held = HeldFolder::hold(alloc, path)?;
        held.clear(alloc, path, &BTreeSet::new(alloc));
        Ok(held)
    }

    /// Takes a folder, and leaves the part files in it.
    ///
    /// # Errors
    ///
    /// A [`FolderRefusal`], if the folder can't be had.
    pub fn hold(alloc: Global, path: &str) -> Result<HeldFolder, FolderRefusal> {
        let folder = open_folder(alloc, path)?;
        match folder.lock() {
            Ok(()) => Ok(HeldFolder { _folder: folder }),
            Err(error) => Err(refusal_of(&error)),
        }
    }

    /// Removes the part files of a station that died from this folder, whose path this is, except
    /// for those with these names.
    pub fn clear(&self, alloc: Global, path: &str, kept: &BTreeSet<String>) {
        remove_parts(&(SystemFiles, alloc), path, kept);
    }
}

/// Returns `true` if a folder is one that a [`HeldFolder`] has, of this process or another one, by
/// whatever path. It says so of no folder that can't be read.
pub fn is_held(alloc: Global, path: &str) -> bool {
    match open_folder(alloc, path) {
        Ok(folder) => folder.is_locked(),
        Err(_) => false,
    }
}

/// Opens a folder. By the point after its path nothing else is opened, so that no pipe is waited
/// for.
fn open_folder(alloc: Global, path: &str) -> Result<SystemFile, FolderRefusal> {
    if path.is_empty() {
        return Err(FolderRefusal::Missing);
    }
    let inside = format!(in alloc; "{path}/.")?;
    match SystemFile::open(inside.as_str(), libc::O_RDONLY) {
        Ok(folder) => Ok(folder),
        Err(_) => Err(FolderRefusal::Missing),
    }
}

fn refusal_of(error: &io::Error) -> FolderRefusal {
    if error.kind() == ErrorKind::WouldBlock {
        return FolderRefusal::InUse;
    }
    FolderRefusal::Missing
}
