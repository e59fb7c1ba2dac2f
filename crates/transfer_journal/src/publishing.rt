//! Files that were about to be published when a station was killed.
ghost use Rattle.std.specs.Prelude.{◌≡◌, IfOk};
ghost use Rattle.cfdp_store.specs.Names.{Allows};

use crate::kept::{KeptTransfer, Publication};
use crate::survey::Survey;
use cfdp_directives::{Condition, Delivery, FileStatus, Outcome};
use cfdp_header::TransactionId;
use cfdp_store::{NameRule, part_path};
use std::alloc::Global;
use std::fs::{self, File, Files, OpenFile};
use std::io::{self, ErrorKind};
use std::os::unix::fs::MetadataExt;

/// Which files an inbox publishes, and where.
#[derive(Clone, Copy)]
pub struct PublishRules<'a> {
    /// The folder of the inbox.
    pub folder: &'a str,
    /// Whether a file takes the place of the one that has its name.
    pub replaces: bool,
    /// The most octets of a file; 0 for any number.
    pub most_size: u64,
    /// Which names files may have.
    pub names: NameRule,
}

/// Publishes each file of a journal that was about to be published, unless that was done, and notes
/// how its transaction ended by that. The folder must be held.
pub fn publish_again<F: Files>(
    files: &F,
    alloc: Global,
    rules: PublishRules<'_>,
    survey: &mut Survey,
) {
    for transfer in survey.transfers_mut() {
        if let Some(transfer) = transfer {
            publish_one(files, alloc, rules, transfer);
        }
    }
}

/// Publishes the file of a transaction if that was about to be done, and notes how it ended by
/// that.
fn publish_one<F: Files>(
    files: &F,
    alloc: Global,
    rules: PublishRules<'_>,
    transfer: &mut KeptTransfer,
) {
    let id = transfer.id;
    let Some(file) = transfer.publication() else {
        return;
    };
    let outcome = match publish_part(files, alloc, rules, id, file) {
        Ok(()) => Outcome {
            condition: Condition::NO_ERROR,
            delivery: Delivery::Complete,
            status: FileStatus::Retained,
        },
        Err(_) => Outcome {
            condition: Condition::FILESTORE_REJECTION,
            delivery: Delivery::Complete,
            status: FileStatus::Rejected,
        },
    };
    transfer.finishes(&outcome);
}

/// Publishes the file of a transaction, unless its part is gone and a file of its size has its
/// name: it was published then.
///
/// # Errors
///
/// Why it can't be published.
fn publish_part<F: Files>(
    files: &F,
    alloc: Global,
    rules: PublishRules<'_>,
    id: TransactionId,
    file: &Publication,
) -> io::Result<()> {
    let name = allowed_name(rules, file.name.as_slice(), file.size)?;
    let folder = rules.folder;
    let part = part_path(alloc, folder, id)?;
    let path = format!(in alloc; "{folder}/{name}")?;
    match fs::symlink_metadata(files, part.as_str()) {
        Ok(found) if found.is_file() => {}
        Ok(_) => return Err(io::Error::from(ErrorKind::InvalidInput)),
        // It was renamed before the station was killed, or removed since it couldn't be.
        Err(error) if error.kind() == ErrorKind::NotFound => {
            return find_published(files, path.as_str(), file.size);
        }
        Err(error) => return Err(error),
    }
    cut(files, part.as_str(), file.size)?;
    name_part(files, part.as_str(), path.as_str(), rules.replaces)?;
    File::open(files, folder)?.sync_all()
}

/// Returns the name of a file of this size as text, if the rules allow both.
fn allowed_name<'a>(rules: PublishRules<'_>, name: &'a [u8], size: u64) -> io::Result<&'a str>
    ensures { IfOk result (λ text. (text.now ≡ name.now) × Allows rules.entry.names name.now) }
{
    if !rules.names.allows(name) {
        return Err(io::Error::from(ErrorKind::InvalidFilename));
    }
    if rules.most_size > 0 && size > rules.most_size {
        return Err(io::Error::from(ErrorKind::FileTooLarge));
    }
    match str::from_utf8(name) {
        Ok(text) => Ok(text),
        Err(_) => Err(io::Error::from(ErrorKind::InvalidFilename)),
    }
}

/// Looks whether a plain file of this size has the path of a file whose part is gone.
fn find_published<F: Files>(files: &F, path: &str, size: u64) -> io::Result<()> {
    let found = fs::symlink_metadata(files, path)?;
    if found.is_file() && found.len() == size {
        Ok(())
    } else {
        Err(io::Error::from(ErrorKind::NotFound))
    }
}

/// Cuts a part to the size of its file.
fn cut<F: Files>(files: &F, part: &str, size: u64) -> io::Result<()> {
    let file = File::options().read(true).write(true).open(files, part)?;
    if file.metadata()?.len() < size {
        return Err(io::Error::from(ErrorKind::UnexpectedEof));
    }
    file.set_len(size)?;
    file.sync_all()
}

/// Gives a part the name of its file. If files aren't replaced, and that name is of the same file
/// already, only the other name goes.
fn name_part<F: Files>(files: &F, part: &str, path: &str, replaces: bool) -> io::Result<()> {
    if replaces {
        return fs::rename(files, part, path);
    }
    match fs::hard_link(files, part, path) {
        Ok(()) => {}
        Err(error) if error.kind() == ErrorKind::AlreadyExists => {
            if !is_same_file(files, part, path)? {
                return Err(error);
            }
        }
        Err(error) => return Err(error),
    }
    fs::remove_file(files, part)
}

/// Returns `true` if two paths are of one file.
fn is_same_file<F: Files>(files: &F, one: &str, other: &str) -> io::Result<bool> {
    let (one, other) = (
        fs::symlink_metadata(files, one)?,
        fs::symlink_metadata(files, other)?,
    );
    Ok(one.dev() == other.dev() && one.ino() == other.ino())
}
