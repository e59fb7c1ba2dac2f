//! A folder is tried before it is needed.
use std::fs::File;
use std::io::{ErrorKind, Write};
use std::{fs, io};

/// What the trial writes: a block of most file systems.
const TRIAL: [u8; 4096] = [0; 4096];

/// Why files can't be written into a folder.
#[derive(Drop)]
pub enum TrialError {
    /// Its file system has no hard links.
    NoLinks,
    /// The system refused.
    System(io::Error),
}

impl From<io::Error> for TrialError {
    fn from(error: io::Error) -> TrialError {
        TrialError::System(error)
    }
}

/// Tries whether files can be written into the folder of an inbox: makes one in it, under a name
/// that begins with a point, writes and flushes it, gives it a link if the inbox keeps files
/// that are there, and removes it.
///
/// # Errors
///
/// `NoLinks` if the link can't be made; `System` if anything else can't be done.
pub fn try_folder(rt: &HostRuntime, path: &str, replaces: bool) -> Result<(), TrialError> {
    written(rt, path)?;
    if !replaces && linked(rt, path).is_err() {
        return Err(TrialError::NoLinks);
    }
    Ok(())
}

/// Writes a file, and removes it, whatever failed.
fn written(rt: &HostRuntime, folder: &str) -> io::Result<()> {
    let path = format!(in rt.alloc(); "{folder}/.trial")?;
    remove(rt, path.as_str())?;
    let tried = write_new(rt, path.as_str());
    let removed = remove(rt, path.as_str());
    tried?;
    removed
}

fn write_new(rt: &HostRuntime, path: &str) -> io::Result<()> {
    let mut file = File::create_new(rt, path)?;
    file.write_all(TRIAL.as_slice())?;
    file.sync_all()
}

/// Gives a file a second name, and removes both.
fn linked(rt: &HostRuntime, folder: &str) -> io::Result<()> {
    let alloc = rt.alloc();
    let one = format!(in alloc; "{folder}/.trial")?;
    let other = format!(in alloc; "{folder}/.trial-link")?;
    remove(rt, other.as_str())?;
    let _ = File::create_new(rt, one.as_str())?;
    let tried = fs::hard_link(rt, one.as_str(), other.as_str());
    remove(rt, one.as_str())?;
    remove(rt, other.as_str())?;
    tried
}

/// Removes a file, if it is there.
fn remove(rt: &HostRuntime, path: &str) -> io::Result<()> {
    match fs::remove_file(rt, path) {
        Err(error) if error.kind() != ErrorKind::NotFound => Err(error),
        _ => Ok(()),
    }
}
