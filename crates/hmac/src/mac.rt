//! MACs that are computed part by part.
ghost use Rattle.std.specs.Prelude.{◌≡◌, ℕ, List, [], ◌++◌};
ghost use Rattle.hmac.specs.Hmac.{MacState};
ghost use Rattle.hmac.specs.Hmac as hmac;
ghost use Rattle.hmac.specs.Begun.{IsBegun};

use ghost_list::GhostList;
use sha2::{Digest, Sha256};
use std::marker::Model;
use std::snapshot::Snapshot;

/// The MAC of a message that is given part by part. It has no `Debug`, as [`Key`](crate::Key).
///
/// # Examples
///
/// ```text
/// let mut mac = key.begin();
/// mac.update(header);
/// mac.update(data);
/// let code = mac.finish();
/// ```
#[derive(Drop)]
pub struct Mac {
    inner: Sha256,
    outer: Sha256,
    key: Snapshot<GhostList<u8>>,
    message: GhostList<u8>,
}

impl Model for Mac {
    ghost use Rattle.hmac.specs.Hmac.{MacState};
    ghost use Rattle.hmac.specs.Begun.{IsFed};

    ghost Value = { MacState };

    ghost view = { λ m. record { key = m.key.value; message = m.message } };

    ghost invariant = { λ m. IsFed m.key.value m.message m.inner m.outer };
}

impl Mac {
    /// Returns the MAC of an empty message, under the key whose blocks these hashers have hashed.
    pub(crate) fn of(inner: &Sha256, outer: &Sha256, key: &GhostList<u8>) -> Mac
        requires { IsBegun key.now inner.now outer.now }
        ensures { result ≡ hmac.begun key.now }
    {
        Mac {
            inner: inner.clone().unwrap(),
            outer: outer.clone().unwrap(),
            key: Snapshot::of(key),
            message: GhostList::new(),
        }
    }

    /// Appends octets to the message.
    pub fn update(&mut self, part: &[u8])
        ensures { self.new ≡ record self.old { message = self.old.message ++ part.now } }
    {
        self.inner.update(part);
        self.message.put_all(part);
    }

    /// Returns the MAC of the message: 32 octets.
    pub fn finish(self) -> [u8; 32]
        ensures { result ≡ hmac.hmac self.key self.message }
    {
        let Mac { inner, outer, .. } = self;
        let mut outer = outer;
        let digest = inner.finalize();
        outer.update(&digest);
        outer.finalize()
    }
}
