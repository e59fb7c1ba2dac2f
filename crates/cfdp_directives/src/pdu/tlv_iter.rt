ghost use Rattle.std.specs.Prelude.{◌≡◌, [], length, unwrap_or, is_some, true};
ghost use Rattle.std.specs.Iterator.{item_count, YieldsFirstBy};
ghost use Rattle.cfdp_directives.specs.Pdu.Tlv.{tlvs_of};

use crate::pdu::tlv::split_tlv;
use std::marker::Model;

/// The options of a PDU one by one, each its type and its value. Contracts see it as the list of
/// the options that are left.
#[derive(Debug, Drop)]
pub struct TlvIter<'a> {
    rest: &'a [u8],
}

impl<'a> Model for TlvIter<'a> {
    ghost use Rattle.std.specs.Prelude.{◌≡◌, List, [], unwrap_or, is_some, true};
    ghost use Rattle.cfdp_directives.specs.Pdu.Tlv.{Tlv, tlvs_of};

    ghost Value = { List Tlv };

    ghost view = { λ i. unwrap_or (tlvs_of i.rest.now) [] };

    ghost invariant = { λ i. is_some (tlvs_of i.rest.now) ≡ true };
}

impl<'a> TlvIter<'a> {
    /// Returns an iterator over the options that fill these octets.
    pub(crate) fn over(octets: &'a [u8]) -> Self
        requires { is_some (tlvs_of octets.now) ≡ true }
        ensures { result ≡ unwrap_or (tlvs_of octets.now) [] }
    {
        TlvIter { rest: octets }
    }
}

impl<'a> Iterator for TlvIter<'a> {
    type Item = (u8, &'a [u8]);

    ghost next_gives = { YieldsFirstBy (λ x. record { kind = x.0; value = x.1.now }) (λ i. i) };

    ghost remaining = { item_count (λ i. i) };

    fn next(&mut self) -> Option<(u8, &'a [u8])> {
        let (kind, value, rest) = split_tlv(self.rest)?;
        self.rest = rest;
        Some((kind, value))
    }
}
