//! The names of part files, the part files of stations that died, and the folder of a path.
ghost use Rattle.std.specs.Fs.{dir_entry_name};
ghost use Rattle.std.specs.Prelude.{◌≡◌, true};
ghost use Rattle.cfdp_store.specs.PartNames.{IsPartName};

use cfdp_header::TransactionId;
use std::alloc::{Alloc, AllocError, Global};
use std::collections::BTreeSet;
use std::fs::{self, DirEntry, FileType, Files};
use std::io;

/// What the name of a part file begins with. After it come the two numbers of its transaction.
const PART: &str = ".part-";

/// Returns the name of the part file of a transaction.
///
/// # Errors
///
/// `AllocError` if memory runs out.
pub fn part_name(alloc: Global, id: TransactionId) -> Result<String, AllocError> {
    let TransactionId { source, number } = id;
    format!(in alloc; "{PART}{source}-{number}")
}

/// Returns the path of the part file of a transaction in this folder.
///
/// # Errors
///
/// `AllocError` if memory runs out.
pub fn part_path(alloc: Global, folder: &str, id: TransactionId) -> Result<String, AllocError> {
    let name = part_name(alloc, id)?;
    format!(in alloc; "{folder}/{name}")
}

/// Returns the folder in which a path names something.
pub fn folder_of(path: &str) -> &str {
    match path.rsplit_once('/') {
        Some(("", _)) => "/",
        Some((folder, _)) => folder,
        None => ".",
    }
}

/// Removes the part files of a folder, as far as they can be removed, except for those with these
/// names.
pub fn remove_parts<R: Files + Alloc + Clone + Drop>(
    files: &R,
    folder: &str,
    kept: &BTreeSet<String>,
) {
    let Ok(entries) = fs::read_dir(files, folder) else {
        return;
    };
    for entry in entries {
        if let Ok(entry) = entry
            && is_part_name(entry.file_name())
            && is_plain(entry.file_type())
            && !kept.contains(entry.file_name())
        {
            remove_part(files, &entry);
        }
    }
}

/// Removes a part file, if it can be removed.
fn remove_part<R: Files + Alloc + Clone + Drop>(files: &R, entry: &DirEntry<R, R::A>)
    requires { IsPartName (dir_entry_name entry.now) }
{
    let _ = fs::remove_file(files, entry.path());
}

/// Returns `true` if this is the name of a part file.
fn is_part_name(name: &str) -> bool
    ensures { result ≡ true → IsPartName name.now }
{
    match name.strip_prefix(PART) {
        Some(numbers) => match numbers.split_once('-') {
            Some((source, number)) => is_number(source) && is_number(number),
            None => false,
        },
        None => false,
    }
}

fn is_number(word: &str) -> bool {
    !word.is_empty() && word.as_bytes().iter().all(|octet| octet.is_ascii_digit())
}

fn is_plain(kind: io::Result<FileType>) -> bool {
    match kind {
        Ok(kind) => kind.is_file(),
        Err(_) => false,
    }
}
