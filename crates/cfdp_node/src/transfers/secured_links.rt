//! The keys of links that are secured.
use crate::failure::FileError;
use cfdp_files::read_keys;
use frame_security::LinkKeys;

/// Reads the keys of a file.
///
/// # Errors
///
/// `Keys` if they can't be read.
pub fn keys_in<'a>(rt: &HostRuntime, path: &'a str) -> Result<LinkKeys, FileError<'a>> {
    match read_keys(rt, path) {
        Ok(keys) => Ok(keys),
        Err(error) => Err(FileError::Keys(path, error)),
    }
}
