//! The files that a station refuses: those that its operator asks for and that can't be sent, and
//! the peer's files that are beyond its limits; and the files that may be sent.
use crate::fault::fault_text;
use cfdp_directives::{Condition, Indication};
use cfdp_header::TransactionId;
use cfdp_report::{Name, cause_text};
use cfdp_service::PutNames;
use cfdp_spool::rule_text;
use cfdp_store::{FolderError, NameRule};
use std::alloc::{AllocError, Global};
use std::fs;
use std::fs::DirEntry;
use std::io::ErrorKind;

/// The most entries of a folder that are looked at, and the most names that are listed.
const MOST_LOOKED: usize = 1_024;

const MOST_LISTED: usize = 256;

/// The most files that are received if `--most-open` sets no limit.
const MOST_RECEIVED: u64 = 3_072;

/// The longest name of a file at the peer.
const LONGEST_NAME: usize = 255;

/// Returns why the file of a put can't be sent, if that is known before its turn comes.
pub fn put_fault(
    rt: &HostRuntime,
    outbox: Option<&str>,
    rule: NameRule,
    names: &PutNames,
) -> Option<String> {
    let alloc = rt.alloc();
    let Some(folder) = outbox else {
        return String::from_str(alloc, "this station has no --outbox and no --spool").ok();
    };
    let source = names.source.as_slice();
    if !rule.allows(source) {
        return format!(in alloc;
            "a file name must be {}, no leading dot (got {})",
            rule_text(rule),
            Name(source)
        )
        .ok();
    }
    if names.destination.len() > LONGEST_NAME {
        return format!(in alloc;
            "a file name must have at most {LONGEST_NAME} octets (got {})",
            names.destination.len()
        )
        .ok();
    }
    let cause = file_fault(rt, folder, source)?;
    format!(in alloc; "{folder}/{}: {cause}", Name(source)).ok()
}

/// Returns why a file of a folder can't be read, if it can't.
fn file_fault(rt: &HostRuntime, folder: &str, name: &[u8]) -> Option<&'static str> {
    let name = str::from_utf8(name).ok()?;
    let path = format!(in rt.alloc(); "{folder}/{name}").ok()?;
    match fs::symlink_metadata(rt, path.as_str()) {
        Ok(found) if found.is_file() => None,
        Ok(found) if found.is_dir() => Some(fault_text(FolderError::Folder)),
        Ok(found) if found.file_type().is_symlink() => Some(fault_text(FolderError::Link)),
        Ok(_) => Some(fault_text(FolderError::NoFile)),
        Err(error) if error.kind() == ErrorKind::NotFound => Some("no such file"),
        Err(error) => Some(cause_text(error.kind())),
    }
}

/// Returns the names of files in a folder that a rule allows to be sent, as names are printed, in
/// order: at most 256, of the first 1,024 entries of the folder, and none if the folder can't be
/// read.
///
/// # Errors
///
/// `AllocError` if there is no memory for them.
pub fn sendable_names(
    rt: &HostRuntime,
    folder: &str,
    rule: NameRule,
) -> Result<Vec<String>, AllocError> {
    let alloc = rt.alloc();
    let mut names = Vec::new(alloc);
    if let Ok(entries) = fs::read_dir(rt, folder) {
        for entry in entries.take(MOST_LOOKED) {
            if let Ok(entry) = entry
                && is_sendable(&entry, rule)
            {
                names.push(format!(in alloc; "{}", Name(entry.file_name().as_bytes()))?)?;
            }
        }
    }
    names.sort_unstable();
    names.truncate(MOST_LISTED);
    Ok(names)
}

/// Returns `true` if an entry of a folder is a plain file whose name a rule allows.
fn is_sendable(entry: &DirEntry, rule: NameRule) -> bool {
    rule.allows(entry.file_name().as_bytes())
        && match entry.file_type() {
            Ok(kind) => kind.is_file(),
            Err(_) => false,
        }
}

/// What limits the files that a station receives.
#[derive(Clone, Copy)]
pub struct FileLimits {
    /// The most octets of a file, and the most files at a time; 0 for any number.
    pub most_size: u64,
    pub most_open: u64,
}

impl FileLimits {
    /// Returns which file was refused, of what length, and why: for its memory, which is short, or
    /// by which limit.
    ///
    /// # Errors
    ///
    /// `AllocError` if there is no memory for the text.
    pub fn refusal_text(
        &self,
        alloc: Global,
        id: TransactionId,
        names: Option<&PutNames>,
        size: Option<u64>,
        is_short: bool,
    ) -> Result<String, AllocError> {
        let file = match names {
            Some(names) => format!(in alloc; "{}", Name(names.destination.as_slice()))?,
            None => String::from_str(alloc, "a file without a name yet")?,
        };
        let TransactionId { source, number } = id;
        let (most_size, most_open) = (self.most_size, self.most_open);
        match size {
            _ if is_short => format!(in alloc;
                "{source}:{number} refused: memory is short, and {file} has more gaps than others"
            ),
            Some(size) if most_size > 0 && size > most_size => format!(in alloc;
                "{source}:{number} refused: {file} has {size} octets, and --most-size is \
                 {most_size}"
            ),
            Some(size) if most_open > 0 => format!(in alloc;
                "{source}:{number} refused: {file}, {size} octets: --most-open {most_open} files \
                 are being received already"
            ),
            _ if most_open == 0 && most_size == 0 => format!(in alloc;
                "{source}:{number} refused: {file} was silent the longest of {MOST_RECEIVED} files"
            ),
            _ if most_open == 0 => format!(in alloc;
                "{source}:{number} refused: {file} is longer than --most-size {most_size}, or was \
                 silent the longest of {MOST_RECEIVED} files"
            ),
            _ => format!(in alloc;
                "{source}:{number} refused: {file} is beyond --most-size {most_size} or \
                 --most-open {most_open}"
            ),
        }
    }
}

/// The files that were cancelled since they are beyond the limits or memory is short, and didn't
/// end yet: how many they are, and which is the last one that was given up for its memory.
#[derive(Clone, Copy)]
pub struct Refusing {
    count: u64,
    short: Option<TransactionId>,
}

impl Refusing {
    /// None was.
    pub const NONE: Refusing = Refusing {
        count: 0,
        short: None,
    };

    /// Notes that one was cancelled.
    pub fn begins(&mut self) {
        self.count = self.count.saturating_add(1);
    }

    /// Notes that the next one is cancelled for its memory.
    pub fn gives_up(&mut self, id: TransactionId) {
        self.short = Some(id);
    }

    /// Returns `true` if this one was cancelled for its memory.
    pub fn is_short(&self, id: TransactionId) -> bool {
        self.short == Some(id)
    }

    /// Returns the transaction of one that ends by this, at the station of this id.
    pub fn ends(&mut self, own: u64, indication: &Indication) -> Option<TransactionId> {
        if self.count == 0 {
            return None;
        }
        let id = match indication {
            Indication::Finished { id, condition, .. }
                if *condition == Condition::CANCEL_REQUEST && id.source != own => *id,
            _ => return None,
        };
        self.count = self.count.saturating_sub(1);
        Some(id)
    }
}
