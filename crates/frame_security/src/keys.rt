//! The keys of one end of a link.
ghost use Rattle.std.specs.Prelude.{◌≡◌, None};
ghost use Rattle.frame_security.specs.Keys.{opener_with, sealer_with};
ghost use Rattle.frame_security.specs.Opening as opening;

use crate::config::Security;
use crate::opening::Opener;
use crate::sealing::Sealer;
use valid_config::Valid;

/// A key, and the SPI by which frames name it. It has no `Debug`, so that the key is never printed.
///
/// # Examples
///
/// ```text
/// let key = NamedKey { spi: 17, key: [0x5f; 32] };
/// ```
#[derive(Clone, Copy)]
pub struct NamedKey {
    /// The security parameter index: 1 to 65,534.
    pub spi: u16,
    /// The key: 32 octets, drawn at random.
    pub key: [u8; 32],
}

/// The keys of one end of a link: it sends with one key, and receives with one, or with two while
/// the peer changes its key. No key that it sends with may be one that it receives with.
///
/// # Examples
///
/// ```text
/// let keys = LinkKeys { send, receive, former: None };
/// let sealer = keys.sealer(security, next);
/// let opener = keys.opener(security, last);
/// ```
#[derive(Clone, Copy)]
pub struct LinkKeys {
    /// The key that this end seals with.
    pub send: NamedKey,
    /// The latest key that the peer seals with.
    pub receive: NamedKey,
    /// The former key of the peer, as long as frames under it may still arrive. If it has the same
    /// SPI as the latest one, it is never used.
    pub former: Option<NamedKey>,
}

impl LinkKeys {
    /// Returns a sealer with these keys and the next sequence number, which must be as
    /// [`Sealer::new`] says.
    pub fn sealer(&self, security: Valid<Security>, next: u64) -> Sealer
        ensures { result ≡ record {
          security = security;
          spi = self.now.send.spi;
          key = self.now.send.key;
          next = next;
        } }
    {
        Sealer::new(security, self.send.spi, &self.send.key, next)
    }

    /// Returns an opener with these keys and the last sequence number, which must be as
    /// [`Opener::new`] says.
    pub fn opener(&self, security: Valid<Security>, last: u64) -> Opener
        ensures { result ≡ opener_with self.now
            (opening.begun security self.now.receive.spi self.now.receive.key last) }
    {
        let mut opener = Opener::new(security, self.receive.spi, &self.receive.key, last);
        opener.change_keys(self);
        opener
    }
}
