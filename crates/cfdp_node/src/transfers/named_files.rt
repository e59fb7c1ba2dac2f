//! The folders and files that a command line names, looked at before anything is sent.
use crate::failure::FileError;
use cfdp_report::{Exit, Input, Name};
use cfdp_store::{FolderError, FolderOutbox, NameRule, SeekingOutbox};
use ghost_list::GhostList;
use std::alloc::AllocError;
use std::cell::Cell;
use std::fs;
use std::io::ErrorKind;
use std::snapshot::Snapshot;

/// Looks whether a file in a folder may have this name by a rule.
///
/// # Errors
///
/// `Name` if it may not.
pub fn check_name(rule: NameRule, name: &str) -> Result<(), FileError<'_>> {
    if rule.allows(name.as_bytes()) {
        Ok(())
    } else {
        Err(FileError::Name(rule, Name(name.as_bytes())))
    }
}

/// Looks whether this is a folder.
///
/// # Errors
///
/// `NotFolder` if it is none; `Folder` if the system refuses it.
pub fn folder<'a>(rt: &HostRuntime, path: &'a str) -> Result<(), FileError<'a>> {
    match fs::metadata(rt, path) {
        Ok(found) if found.is_dir() => Ok(()),
        Ok(_) => Err(FileError::NotFolder(path)),
        Err(error) => Err(FileError::Folder(path, error.kind())),
    }
}

/// Returns an outbox over this folder, which must be there, of files whose names a rule allows.
/// Nothing was looked for yet.
///
/// # Errors
///
/// `AllocError` if there is no memory for the folder's name.
pub fn folder_outbox<'a>(
    rt: &'a HostRuntime,
    path: &str,
    names: NameRule,
) -> Result<FolderOutbox<&'a HostRuntime>, AllocError> {
    // What is expected of files is for clauses alone, and none speaks of what a disk has.
    let expected = Snapshot::of(&GhostList::new());
    FolderOutbox::with_names(rt, rt.alloc(), path, names, expected)
}

/// Looks for a file in the folder of an outbox. It may be missing, which is reported.
///
/// # Errors
///
/// `File` if it can't be sent.
pub fn check_file<'a>(
    rt: &HostRuntime,
    outbox: &mut FolderOutbox<&HostRuntime>,
    folder: &'a str,
    name: &'a str,
) -> Result<(), FileError<'a>> {
    let name = Name(name.as_bytes());
    match outbox.look_for(name.0) {
        Ok(true) => Ok(()),
        Ok(false) => {
            let _ = eprintln!(rt; "note: {folder}/{name}: no such file");
            Ok(())
        }
        Err(_) => {
            let unknown = FolderError::System(ErrorKind::Other);
            let fault = outbox.fault().unwrap_or(unknown);
            Err(FileError::File(folder, name, fault))
        }
    }
}

/// Says on standard error what failed, unless that was said.
pub fn tell_untold(rt: &HostRuntime, exit: Exit, told: &Cell<bool>) {
    if let Exit::Device(fault) = exit
        && !told.get()
    {
        fault.tell(rt, Input::Standard);
    }
}
