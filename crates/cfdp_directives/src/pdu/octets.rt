ghost use Rattle.std.specs.Prelude.{◌≡◌, IfOk, nat_eq};
ghost use Rattle.std.specs.Cmp.{nat_eq_equiv, partial_equiv_from_equiv};
ghost use Rattle.std.specs.Cmp.Lexicographic.{pointwise, lists_per, lists_equiv};

use std::alloc::{AllocError, Global};
use std::marker::Model;

/// Octets with an owner: a name, a file or a PDU. Contracts see them as the list of their values.
#[derive(Debug, Drop)]
pub struct Octets {
    octets: Vec<u8>,
}

impl Model for Octets {
    ghost use Rattle.std.specs.Prelude.{List, ℕ};

    ghost Value = { List ℕ };

    ghost view = { λ o. o.octets.items };
}

impl PartialEq for Octets {
    ghost eq = { pointwise nat_eq };

    ghost laws = { lists_per (partial_equiv_from_equiv nat_eq_equiv) };

    fn eq(&self, other: &Self) -> bool {
        self.octets.as_slice() == other.octets.as_slice()
    }
}

impl Eq for Octets {
    ghost laws = { lists_equiv nat_eq_equiv };
}

impl Octets {
    /// Returns a copy of these octets.
    ///
    /// # Errors
    ///
    /// `AllocError` if there is no memory for it.
    pub fn copied(alloc: Global, octets: &[u8]) -> Result<Self, AllocError>
        ensures { IfOk result (λ copy. copy ≡ octets.now) }
    {
        Ok(Octets {
            octets: Vec::from_slice(alloc, octets)?,
        })
    }

    /// Returns a copy of these octets with an owner of its own.
    ///
    /// # Errors
    ///
    /// `AllocError` if there is no memory for it.
    pub fn copy(&self, alloc: Global) -> Result<Self, AllocError>
        ensures { IfOk result (λ copy. copy ≡ self.now) }
    {
        Octets::copied(alloc, self.as_slice())
    }

    /// Returns the octets of a vector, which is kept as it is. It takes no memory.
    pub fn from_vec(octets: Vec<u8>) -> Self
        ensures { result ≡ octets.items }
    {
        Octets { octets }
    }

    /// Returns the vector in which they are kept. It takes no memory.
    pub fn into_vec(self) -> Vec<u8>
        ensures { result.items ≡ self }
    {
        self.octets
    }

    /// Returns the octets, borrowed.
    pub fn as_slice(&self) -> &[u8]
        ensures { result.now ≡ self.now }
    {
        self.octets.as_slice()
    }
}
