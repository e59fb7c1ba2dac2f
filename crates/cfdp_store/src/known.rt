ghost use Rattle.cfdp_store.specs.Files.{listed};
ghost use Rattle.std.specs.FinMap as map;
ghost use Rattle.std.specs.Option.{option_map};
ghost use Rattle.std.specs.Prelude.{◌≡◌, OnErr, OnOk};

use std::alloc::{AllocError, Global};
use std::collections::BTreeMap;
use std::fs::Metadata;
use std::marker::Model;
use std::os::unix::fs::MetadataExt;

/// How long a file is, which one it is, and when it was last changed. If this stays the same, so
/// does what the file has.
#[derive(Clone, Copy, Debug, PartialEq)]
pub struct Stamp {
    /// How many octets it has.
    pub len: u64,
    device: u64,
    inode: u64,
    changed_seconds: i64,
    changed_nanoseconds: i64,
}

impl Stamp {
    /// Returns the stamp of a file of the system.
    pub fn of(file: &Metadata) -> Stamp {
        Stamp {
            len: file.len(),
            device: file.dev(),
            inode: file.ino(),
            changed_seconds: file.ctime(),
            changed_nanoseconds: file.ctime_nsec(),
        }
    }
}

/// The stamps of the files that were found, by their names. Contracts see how long each is.
#[derive(Drop)]
pub struct Stamps {
    stamps: BTreeMap<Vec<u8>, Stamp>,
}

impl Model for Stamps {
    ghost use Rattle.std.specs.Prelude.{ℕ};
    ghost use Rattle.std.specs.Ordering.{nat_cmp};
    ghost use Rattle.std.specs.Cmp.Lexicographic.{slice_cmp};
    ghost use Rattle.std.specs.Coded.{coded_ℕ, coded_list};
    ghost use Rattle.std.specs.FinMap as map;
    ghost use Rattle.cfdp_store.specs.Files.{listed};

    ghost Value = { map.FinMap (slice_cmp nat_cmp) ℕ };

    ghost coded = { map.code (coded_list coded_ℕ) coded_ℕ };

    ghost view = { λ s. listed (λ stamp. stamp.len) s.stamps.entries };
}

impl Stamps {
    pub fn new(alloc: Global) -> Self
        ensures { result ≡ map.empty }
    {
        Stamps {
            stamps: BTreeMap::new(alloc),
        }
    }

    pub fn get(&self, name: &[u8]) -> Option<Stamp>
        ensures { option_map (λ stamp. stamp.len) result ≡ map.get self.now name.now }
    {
        let stamp = self.stamps.get(name)?;
        Some(*stamp)
    }

    pub fn insert(&mut self, name: Vec<u8>, stamp: Stamp) -> Result<(), AllocError>
        ensures ok { OnOk result (self.new ≡ map.insert self.old name.items stamp.len) }
        ensures err { OnErr result (self.new ≡ self.old) }
    {
        self.stamps.insert(name, stamp)?;
        Ok(())
    }

    pub fn remove(&mut self, name: &[u8])
        ensures { self.new ≡ map.remove self.old name.now }
    {
        let _ = self.stamps.remove(name);
    }
}
