//! Files with secrets, which nobody but their owner may have access to.
use crate::plain_file::{Use, open_plain};
use cfdp_report::cause_text;
use frame_security::LinkKeys;
use key_file::KeyFileError;
use std::alloc::AllocError;
use std::io::{ErrorKind, Read};
use std::os::unix::fs::MetadataExt;
use std::{fmt, io};

/// The most octets of a file with a secret.
const MOST_OCTETS: usize = 4096;

/// The bits of a file's mode.
const MODE_BITS: u32 = 0o7777;

/// The bits of a file's mode that give others than its owner access.
const OTHERS: u32 = 0o077;

/// Why a file has no secret that can be used. Its text is what follows the file's path in a
/// message, and says nothing of what the file has.
#[derive(Drop)]
pub enum SecretError {
    /// The system refused.
    System(io::Error),
    /// Other users have access to it, by this mode.
    Open(u32),
    /// It has more than 4,096 octets.
    TooLong,
    /// It is no file of keys.
    Keys(KeyFileError),
}

impl fmt::Display for SecretError {
    fn fmt<W: fmt::Write>(&self, f: &mut fmt::Formatter<W>) -> fmt::Result {
        match self {
            SecretError::System(error) => f.write_str(cause_text(error.kind())),
            SecretError::Open(mode) => write!(
                f,
                "other users have access to it (mode {mode:04o}): run chmod 600 on it"
            ),
            SecretError::TooLong => write!(f, "has more than {MOST_OCTETS} octets"),
            SecretError::Keys(error) => write!(f, "{error}"),
        }
    }
}

impl From<io::Error> for SecretError {
    fn from(error: io::Error) -> SecretError {
        SecretError::System(error)
    }
}

impl From<AllocError> for SecretError {
    fn from(error: AllocError) -> SecretError {
        SecretError::System(io::Error::from(error))
    }
}

/// Returns the text of a plain file, which nobody but its owner may have access to.
///
/// # Errors
///
/// `System` if the system refuses it, or with `InvalidData` if it is no text; `Open` if others have
/// access; `TooLong` if it has more than 4,096 octets.
pub fn read_secret(rt: &HostRuntime, path: &str) -> Result<String, SecretError> {
    let file = open_plain(rt, path, Use::Read)?;
    let mode = file.metadata()?.mode() & MODE_BITS;
    if mode & OTHERS != 0 {
        return Err(SecretError::Open(mode));
    }
    let mut octets = Vec::new(rt.alloc());
    (&file)
        .take(MOST_OCTETS as u64 + 1)
        .read_to_end(&mut octets)?;
    if octets.len() > MOST_OCTETS {
        return Err(SecretError::TooLong);
    }
    match str::from_utf8(octets.as_slice()) {
        Ok(text) => Ok(String::from_str(rt.alloc(), text)?),
        Err(_) => Err(SecretError::System(io::Error::from(ErrorKind::InvalidData))),
    }
}

/// Returns the keys that a file has, which nobody but its owner may have access to.
///
/// # Errors
///
/// The errors of [`read_secret`], and `Keys` if the text is no file of keys.
pub fn read_keys(rt: &HostRuntime, path: &str) -> Result<LinkKeys, SecretError> {
    let text = read_secret(rt, path)?;
    key_file::parse(text.as_str()).map_err(SecretError::Keys)
}
