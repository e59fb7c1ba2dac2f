//! Which files were made, so that no other one is taken for them.
ghost use Rattle.std.specs.Fs.{IsFile, file_type, metadata_len};
ghost use Rattle.std.specs.Prelude.{◌≡◌, IfOk, OnOk, true};

use crate::plain_file::Identity;
use ghost_list::GhostList;
use std::alloc::Global;
use std::cell::RefCell;
use std::collections::BTreeMap;
use std::fs::Metadata;
use std::io;
use std::io::ErrorKind;

/// A plain file that was made at a path, as it was found there. Only `check` gives one.
#[derive(Drop)]
pub struct MadeFile {
    path: GhostList<u8>,
    size: u64,
}

impl MadeFile {
    /// Returns how many octets it had.
    pub fn size(&self) -> u64
        ensures { result ≡ self.now.size }
    {
        self.size
    }
}

/// The files that were made, by their paths, each until it is renamed or removed.
#[derive(Drop)]
pub struct MadeFiles {
    alloc: Global,
    by_path: RefCell<BTreeMap<String, Identity>>,
}

impl MadeFiles {
    /// Returns no files: none was made.
    pub fn new(alloc: Global) -> MadeFiles {
        MadeFiles {
            alloc,
            by_path: RefCell::new(BTreeMap::new(alloc)),
        }
    }

    /// Notes which file was made at a path.
    ///
    /// # Errors
    ///
    /// `OutOfMemory` if there is no memory for that.
    pub fn notes(&self, path: &str, made: &Metadata) -> io::Result<()> {
        let path = String::from_str(self.alloc, path)?;
        let Ok(mut by_path) = self.by_path.try_borrow_mut() else {
            return Err(io::Error::from(ErrorKind::ResourceBusy));
        };
        let _ = by_path.insert(path, Identity::of(made))?;
        Ok(())
    }

    /// Forgets which file was made at a path.
    pub fn forgets(&self, path: &str) {
        if let Ok(mut by_path) = self.by_path.try_borrow_mut() {
            let _ = by_path.remove(path);
        }
    }

    /// Fails unless this is the file that was made at a path.
    ///
    /// # Errors
    ///
    /// `StaleNetworkFileHandle`, the system's word for a file that isn't there any more.
    pub fn check(&self, path: &str, found: &Metadata) -> io::Result<MadeFile>
        ensures path { IfOk result (λ made. made.path ≡ path.now) }
        ensures size { IfOk result (λ made. made.size ≡ metadata_len found.now) }
        ensures plain { OnOk result (IsFile (file_type found.now)) }
    {
        if self.is_made(path, found) {
            let (path, size) = (GhostList::of(path.as_bytes()), found.len());
            return Ok(MadeFile { path, size });
        }
        Err(io::Error::from(ErrorKind::StaleNetworkFileHandle))
    }

    /// Returns `true` if this is the file that was made at a path.
    fn is_made(&self, path: &str, found: &Metadata) -> bool
        ensures { result ≡ true → IsFile (file_type found.now) }
    {
        let Ok(by_path) = self.by_path.try_borrow() else {
            return false;
        };
        found.is_file() && by_path.get(path) == Some(&Identity::of(found))
    }
}
