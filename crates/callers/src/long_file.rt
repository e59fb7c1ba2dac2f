//! An outbox whose one file, `a.txt`, has any size, and octets that are all equal: none is kept.
ghost use Rattle.std.specs.Prelude.{[], ◌∷◌, replicate};
ghost use Rattle.std.specs.FinMap as map;

use cfdp_store::{Outbox, StoreError};

/// An outbox whose one file, `a.txt`, has a given number of octets, all of one value.
#[derive(Drop)]
pub struct LongFile {
    pub octets: u64,
    pub value: u8,
}

impl Outbox for LongFile {
    ghost files = { λ o.
        map.insert map.empty (97 ∷ 46 ∷ 116 ∷ 120 ∷ 116 ∷ []) (replicate o.octets o.value) };

    ghost failures = { λ _. 0 };

    #[tactic(auto, using(crate::proofs::LongFiles::is_there, crate::proofs::LongFiles::is_absent))]
    fn len(&mut self, name: &[u8]) -> Result<Option<u64>, StoreError> {
        if name.cmp(b"a.txt".as_slice()).is_eq() {
            Ok(Some(self.octets))
        } else {
            Ok(None)
        }
    }

    #[tactic(auto, using(crate::proofs::LongFiles::are_read))]
    fn read(&mut self, _name: &[u8], _offset: u64, out: &mut [u8]) -> Result<(), StoreError> {
        out.fill(self.value);
        Ok(())
    }

    fn failures(&self) -> u64 {
        0
    }
}
