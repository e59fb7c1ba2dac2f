//! A datagram that waits until there is room for it.
ghost use Rattle.std.specs.Prelude.{◌≡◌, ◌<◌, length, false, true, None, Some, IfNone, IfOk};
ghost use Rattle.std.specs.Prelude.{IfSome};

use cfd_bits::put_bytes;
use std::alloc::{AllocError, Global};
use std::marker::Model;

/// Room for one datagram that waits.
#[derive(Drop)]
pub struct KeptDatagram {
    octets: Vec<u8>,
    // How many octets the datagram has; `None` if none waits.
    len: Option<usize>,
}

impl Model for KeptDatagram {
    ghost use Rattle.std.specs.Prelude.{◌≤◌, length, IfSome};
    ghost use Rattle.cfdp_datagrams.specs.Paced.{KeptState, kept_in};

    ghost Value = { KeptState };

    ghost view = { λ k. record {
      datagram = kept_in k.len k.octets.items;
      room = length k.octets.items;
    } };

    ghost invariant = { λ k. IfSome k.len (λ len. len ≤ length k.octets.items) };
}

impl KeptDatagram {
    /// Returns room for a datagram of up to `most` octets. None waits.
    pub fn new(alloc: Global, most: usize) -> Result<KeptDatagram, AllocError>
        ensures { IfOk result (λ k. k ≡ record { datagram = None; room = most }) }
    {
        Ok(KeptDatagram {
            octets: vec![in alloc; 0u8; most]?,
            len: None,
        })
    }

    /// Returns the datagram that waits.
    pub fn get(&self) -> Option<&[u8]>
        ensures some { IfSome result (λ datagram. self.now.datagram ≡ Some datagram.now) }
        ensures none { IfNone result (self.now.datagram ≡ None) }
    {
        match self.len {
            Some(len) => Some(&self.octets[..len]),
            None => None,
        }
    }

    /// Keeps a datagram, in place of the one that waited. One that is longer than there is room for
    /// isn't kept. Returns whether it is.
    pub fn keep(&mut self, datagram: &[u8]) -> bool
        ensures kept { result ≡ true →
            self.new ≡ record self.old { datagram = Some datagram.now } }
        ensures long { result ≡ false →
            (self.old.room < length datagram.now) × (self.new ≡ self.old) }
    {
        if datagram.len() > self.octets.len() {
            return false;
        }
        self.len = Some(put_bytes(&mut self.octets, 0, datagram));
        true
    }

    /// Gives up the datagram that waits.
    pub fn clear(&mut self)
        ensures { self.new ≡ record self.old { datagram = None } }
    {
        self.len = None;
    }
}
