//! Keys.
ghost use Rattle.std.specs.Prelude.{◌≡◌, ℕ, List, ◌++◌, map, replicate, length, drop};
ghost use Rattle.hmac.specs.Hmac.{MacState};
ghost use Rattle.hmac.specs.Hmac as hmac;
ghost use Rattle.sha2.specs.Hashers.{Holds256};

use crate::BLOCK_LEN;
use crate::mac::Mac;
use cfd_bits::put_bytes;
use ghost_list::GhostList;
use sha2::{Digest, Sha256};
use std::marker::Model;

/// A key, as the states of the hash function after each of its two blocks. Only clauses see the
/// octets of the key itself. It has no `Debug`, so that it is never printed.
///
/// # Examples
///
/// ```text
/// let key = Key::new(&octets);
/// let code = key.begin().finish(); // the MAC of the empty message
/// ```
#[derive(Drop)]
pub struct Key {
    inner: Sha256,
    outer: Sha256,
    octets: GhostList<u8>,
}

impl Model for Key {
    ghost use Rattle.std.specs.Prelude.{List, ℕ};
    ghost use Rattle.hmac.specs.Begun.{IsBegun};

    ghost Value = { List ℕ };

    ghost view = { λ k. k.octets };

    ghost invariant = { λ k. IsBegun k.octets k.inner k.outer };
}

impl Key {
    /// Returns the key that has these octets, in any number. A key should have 32 octets, drawn at
    /// random; fewer than 32 are strongly discouraged (RFC 2104, 3).
    pub fn new(octets: &[u8]) -> Key
        ensures { result ≡ octets.now }
    {
        let block = block_of(octets);
        Key {
            inner: begun(&block, 0x36),
            outer: begun(&block, 0x5C),
            octets: GhostList::of(octets),
        }
    }

    /// Begins the MAC of a message, which is empty at first.
    pub fn begin(&self) -> Mac
        ensures { result ≡ hmac.begun self.now }
    {
        Mac::of(&self.inner, &self.outer, &self.octets)
    }
}

/// Returns the key as a block: the key, or its digest if it is longer than a block, and zeros.
fn block_of(key: &[u8]) -> [u8; 64]
    ensures { result ≡ hmac.block_of key.now }
{
    let mut block = [0; BLOCK_LEN];
    if key.len() <= BLOCK_LEN {
        put_bytes(&mut block, 0, key);
    } else {
        put_bytes(&mut block, 0, &Sha256::digest(key));
    }
    block
}

/// Returns a hasher that has hashed the block, XORed with the pad.
fn begun(block: &[u8; 64], pad: u8) -> Sha256
    ensures { Holds256 result (hmac.xored pad block.now) }
{
    let mut xored = *block;
    xor_with(&mut xored, pad);
    let mut hasher = Sha256::new();
    hasher.update(&xored);
    hasher
}

/// XORs each octet with the pad.
fn xor_with(octets: &mut [u8], pad: u8)
    ensures { octets.new ≡ hmac.xored pad octets.old }
{
    for i in 0..octets.len() {
        octets[i] ^= pad;
    }
}
