ghost use Rattle.cfdp_store.specs.Files.{files_of, octets_in};
ghost use Rattle.std.specs.FinMap as map;
ghost use Rattle.std.specs.Option.{option_map};
ghost use Rattle.std.specs.Prelude.{◌≡◌, OnErr, OnOk};

use std::alloc::{AllocError, Global};
use std::collections::BTreeMap;
use std::marker::Model;

/// Files in memory by their names.
///
/// A name is any octets, also none, and so is what a file has in it. At most one file stands under
/// a name. Names ascend octet by octet; if a name begins another, it stands before it.
#[derive(Debug, Drop)]
pub struct Files {
    files: BTreeMap<Vec<u8>, Vec<u8>>,
}

impl Model for Files {
    ghost use Rattle.std.specs.Prelude.{ℕ, List};
    ghost use Rattle.std.specs.Ordering.{nat_cmp};
    ghost use Rattle.std.specs.Cmp.Lexicographic.{slice_cmp};
    ghost use Rattle.std.specs.Coded.{coded_ℕ, coded_list};
    ghost use Rattle.std.specs.FinMap as map;
    ghost use Rattle.cfdp_store.specs.Files.{files_of};

    ghost Value = { map.FinMap (slice_cmp nat_cmp) (List ℕ) };

    ghost coded = { map.code (coded_list coded_ℕ) (coded_list coded_ℕ) };

    ghost view = { λ f. files_of f.files.entries };
}

impl Files {
    /// Returns no files. It takes no memory; `alloc` serves what is added later.
    pub fn new(alloc: Global) -> Self
        ensures { result ≡ map.empty }
    {
        Files {
            files: BTreeMap::new(alloc),
        }
    }

    /// Returns the files of a map from names to octets. It takes no memory.
    pub fn from_map(files: BTreeMap<Vec<u8>, Vec<u8>>) -> Self
        ensures { result ≡ files_of files.entries }
    {
        Files { files }
    }

    /// Returns the map in which the files are kept, from names to octets. It takes no memory.
    pub fn into_map(self) -> BTreeMap<Vec<u8>, Vec<u8>>
        ensures { files_of result.entries ≡ self }
    {
        self.files
    }

    /// Returns the map in which the files are kept, from names to octets. Its `iter` goes over them
    /// in ascending order of their names.
    pub fn entries(&self) -> &BTreeMap<Vec<u8>, Vec<u8>>
        ensures { files_of result.now.entries ≡ self.now }
    {
        &self.files
    }

    /// Returns the octets of the file of that name, if there is one.
    pub fn get(&self, name: &[u8]) -> Option<&[u8]>
        ensures { option_map (λ octets. octets.now) result ≡ map.get self.now name.now }
    {
        let octets = self.files.get(name)?;
        Some(octets.as_slice())
    }

    /// Returns the octets of the file of that name; none if there is no such file.
    pub fn octets(&self, name: &[u8]) -> &[u8]
        ensures { result.now ≡ octets_in self.now name.now }
    {
        match self.get(name) {
            Some(octets) => octets,
            None => &[],
        }
    }

    /// Puts a file under a name, in place of the file that has it, if there is one.
    ///
    /// # Errors
    ///
    /// `AllocError` if there is no memory for it. The files are then as before.
    pub fn insert(&mut self, name: Vec<u8>, octets: Vec<u8>) -> Result<(), AllocError>
        ensures ok { OnOk result (self.new ≡ map.insert self.old name.items octets.items) }
        ensures err { OnErr result (self.new ≡ self.old) }
    {
        self.files.insert(name, octets)?;
        Ok(())
    }

    /// Removes the file of that name, if there is one, and returns its octets.
    pub fn remove(&mut self, name: &[u8]) -> Option<Vec<u8>>
        ensures octets { option_map (λ octets. octets.items) result ≡ map.get self.old name.now }
        ensures files { self.new ≡ map.remove self.old name.now }
    {
        self.files.remove(name)
    }
}
