//! Plain files, opened by their names, in whose place somebody may have put something else.
use cfdp_store::folder_of;
use std::fs::{File, Metadata};
use std::io::ErrorKind;
use std::os::unix::fs::MetadataExt;
use std::{fs, io};

/// Which file it is, whatever names it has.
#[derive(Clone, Copy, Debug, PartialEq, Eq)]
pub struct Identity {
    device: u64,
    inode: u64,
}

impl Identity {
    /// Returns the identity of what the system found.
    pub fn of(found: &Metadata) -> Identity {
        Identity {
            device: found.dev(),
            inode: found.ino(),
        }
    }
}

/// What a plain file is opened for.
#[derive(Clone, Copy, Debug, PartialEq, Eq)]
pub enum Use {
    /// It is read.
    Read,
    /// It is read and written. What it holds stays.
    Update,
}

/// Opens the plain file at a path, through links. What is there is looked at before it is opened,
/// since to open a pipe could wait for ever, and once more when it is open.
///
/// # Errors
///
/// The error of the system; `IsADirectory` for a folder, `NotSeekable` for what is neither a folder
/// nor a plain file.
pub fn open_plain(rt: &HostRuntime, path: &str, how: Use) -> io::Result<File> {
    check_plain(&fs::metadata(rt, path)?)?;
    let file = File::options()
        .read(true)
        .write(how == Use::Update)
        .open(rt, path)?;
    check_plain(&file.metadata()?)?;
    Ok(file)
}

/// Fails unless this is a plain file.
pub fn check_plain(found: &Metadata) -> io::Result<()> {
    if found.is_file() {
        return Ok(());
    }
    let kind = if found.is_dir() {
        ErrorKind::IsADirectory
    } else {
        ErrorKind::NotSeekable
    };
    Err(io::Error::from(kind))
}

/// Returns `true` if both paths lead to one folder, by whatever names and links.
///
/// # Errors
///
/// The system's, if it can't say what is at one of them.
pub fn is_same_folder(rt: &HostRuntime, one: &str, other: &str) -> io::Result<bool> {
    let (one, other) = (fs::metadata(rt, one)?, fs::metadata(rt, other)?);
    Ok(Identity::of(&one) == Identity::of(&other))
}

/// Returns `true` if the file at a path lies in this folder, or if what a link there leads to does.
pub fn lies_in(rt: &HostRuntime, path: &str, folder: &str) -> bool {
    if matches!(is_same_folder(rt, folder_of(path), folder), Ok(true)) {
        return true;
    }
    match fs::canonicalize(rt, path) {
        Ok(behind) => {
            let behind = behind.into_string();
            matches!(
                is_same_folder(rt, folder_of(behind.as_str()), folder),
                Ok(true)
            )
        }
        Err(_) => false,
    }
}
