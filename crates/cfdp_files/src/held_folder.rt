//! A folder that files are received into, which one process has at a time.
ghost use Rattle.std.specs.Prelude.{◌≡◌, IfOk};

use crate::locks::{LockError, LockedFile};
use cfdp_store::remove_parts;
use std::collections::BTreeSet;
use std::marker::Model;

/// A folder into which no other process receives, as long as this value lives. Clauses see its
/// path.
#[derive(Drop)]
pub struct HeldFolder {
    folder: LockedFile,
}

impl Model for HeldFolder {
    ghost use Rattle.std.specs.Prelude.{ℕ, List};

    ghost Value = { List ℕ };

    ghost view = { λ held. held.folder };
}

impl HeldFolder {
    /// Takes a folder, and removes from it the part files of a run that died.
    ///
    /// # Errors
    ///
    /// `InUse` if another process holds it; `System` if the system refuses it.
    pub fn take(rt: &HostRuntime, path: &str) -> Result<HeldFolder, LockError>
        ensures { IfOk result (λ held. held ≡ path.now) }
    {
        HeldFolder::take_with(rt, path, &BTreeSet::new(rt.alloc()))
    }

    /// Takes a folder, and removes from it the part files of a run that died, except for those with
    /// these names.
    ///
    /// # Errors
    ///
    /// `InUse` if another process holds it; `System` if the system refuses it.
    pub fn take_with(
        rt: &HostRuntime,
        path: &str,
        kept: &BTreeSet<String>,
    ) -> Result<HeldFolder, LockError>
        ensures { IfOk result (λ held. held ≡ path.now) }
    {
        let folder = LockedFile::open(rt, path)?;
        remove_parts(rt, path, kept);
        Ok(HeldFolder { folder })
    }

    /// Removes the part files of this folder, whose path this is: of files that never came whole.
    pub fn clear(&self, rt: &HostRuntime, path: &str) {
        remove_parts(rt, path, &BTreeSet::new(rt.alloc()));
    }
}
