// One look through the folder of a spool.
use crate::folder_spool::folder::SpoolFolder;
use cfdp_store::NameRule;
use std::alloc::{AllocError, Global};
use std::collections::BTreeSet;
use std::fs::DirEntry;
use std::io;
use std::io::ErrorKind;
use std::os::unix::fs::MetadataExt;

/// The most names that are kept of a look. What isn't kept is found by a later one.
const MOST_KEPT: usize = 1024;

/// A file that lies in a folder. They are in the order in which they were written last, and then in
/// the order of their names.
#[derive(PartialEq, Eq, PartialOrd, Ord, Drop)]
pub struct Lying {
    seconds: i64,
    nanoseconds: i64,
    pub name: Vec<u8>,
}

/// What a look through a folder found.
#[derive(Drop)]
pub struct Scan {
    alloc: Global,
    /// Which names can be sent.
    names: NameRule,
    /// The files that can be sent, the first ones in their order.
    pub files: BTreeSet<Lying>,
    /// The names of files that can't be sent.
    pub unsendable: BTreeSet<String>,
    /// Whether a name is no text.
    pub has_no_text: bool,
}

impl Scan {
    /// Returns a look that found nothing.
    pub fn new(alloc: Global, names: NameRule) -> Scan {
        Scan {
            alloc,
            names,
            files: BTreeSet::new(alloc),
            unsendable: BTreeSet::new(alloc),
            has_no_text: false,
        }
    }

    /// Looks through a folder for names that its rule allows; leaves those out that `is_known`.
    ///
    /// # Errors
    ///
    /// The error of the system, or of memory.
    pub fn of<F: Fn(&[u8]) -> bool>(
        alloc: Global,
        folder: &SpoolFolder<'_>,
        is_known: F,
    ) -> io::Result<Scan>
        requires { F.IsAlwaysCallable is_known }
    {
        let mut scan = Scan::new(alloc, folder.names());
        for entry in folder.list()? {
            match entry {
                Ok(entry) if entry.file_name().starts_with('.') => {}
                Ok(entry) if is_known(entry.file_name().as_bytes()) => {}
                Ok(entry) => scan.takes(&entry)?,
                Err(error) if error.kind() == ErrorKind::InvalidFilename => scan.has_no_text = true,
                Err(error) => return Err(error),
            }
        }
        Ok(scan)
    }

    /// Takes what was listed, if it is a plain file that is still there.
    fn takes(&mut self, entry: &DirEntry) -> Result<(), AllocError> {
        let Ok(found) = entry.metadata() else {
            return Ok(());
        };
        if !found.is_file() {
            return Ok(());
        }
        let name = entry.file_name();
        if !self.names.allows(name.as_bytes()) {
            return self.notes(name);
        }
        let written = (found.mtime(), found.mtime_nsec());
        if self.is_full_before(written, name.as_bytes()) {
            return Ok(());
        }
        self.keeps(Lying {
            seconds: written.0,
            nanoseconds: written.1,
            name: Vec::from_slice(self.alloc, name.as_bytes())?,
        })
    }

    /// Returns `true` if there are as many files as are kept, and none of them is after one that
    /// was written then and has this name.
    fn is_full_before(&self, written: (i64, i64), name: &[u8]) -> bool {
        match self.files.last() {
            Some(last) if self.files.len() >= MOST_KEPT => {
                let end = (last.seconds, last.nanoseconds);
                end < written || end == written && last.name.as_slice() < name
            }
            _ => false,
        }
    }

    /// Keeps a file, and drops the last one if there are too many.
    fn keeps(&mut self, lying: Lying) -> Result<(), AllocError> {
        let _ = self.files.insert(lying)?;
        if self.files.len() > MOST_KEPT {
            let _ = self.files.pop_last();
        }
        Ok(())
    }

    /// Notes a name that can't be sent.
    fn notes(&mut self, name: &str) -> Result<(), AllocError> {
        if self.unsendable.len() < MOST_KEPT {
            let _ = self.unsendable.insert(String::from_str(self.alloc, name)?)?;
        }
        Ok(())
    }
}
