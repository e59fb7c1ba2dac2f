ghost use Rattle.std.specs.Prelude.{◌≡◌, ◌+◌, ◌<◌, ◌^◌, ◌∷◌, [], length, Some, unwrap_or, is_some};
ghost use Rattle.std.specs.Prelude.{IfSome, IfNone, true, false, nat_eq};
ghost use Rattle.std.specs.Cmp.{partial_equiv_from_equiv};
ghost use Rattle.std.specs.Cmp.Lexicographic.{on_texts_equal, pointwise};
ghost use Rattle.std.specs.List.{flat_map};
ghost use Rattle.std.specs.Ordering.{on};
ghost use Rattle.cfdp_header.specs.Header.{IsWidth};
ghost use Rattle.cfdp_directives.specs.Pdu.Tlv.{tlv, tlvs_of, location_of, fault_location};
ghost use Rattle.cfdp_directives.specs.Pdu.Tlv.{octets_in, IsWhole};

use crate::pdu::tlv_iter::TlvIter;
use cfd_bits::{get, put_uint};
use std::marker::Model;

/// The type of a fault location (CCSDS 727.0-B-5, table 5-2).
const FAULT_LOCATION: u8 = 6;

/// Where options lie.
#[derive(Clone, Copy, Debug)]
enum Form<'a> {
    /// In octets that were read, which they fill.
    Read(&'a [u8]),
    /// In the first `len` of these octets.
    Made { octets: [u8; 10], len: usize },
}

/// Options of a PDU (TLV, CCSDS 727.0-B-5, 5.1.9): each has a type and up to 255 octets of value.
/// If the PDU was read, they lie in its octets. Contracts see them as a list.
#[derive(Debug, Drop)]
pub struct Tlvs<'a> {
    form: Form<'a>,
}

impl<'a> Model for Tlvs<'a> {
    ghost use Rattle.std.specs.Prelude.{List, [], unwrap_or};
    ghost use Rattle.cfdp_directives.specs.Pdu.Tlv.{Tlv, tlvs_of, octets_in, IsWhole};

    ghost Value = { List Tlv };

    ghost view = { λ t. unwrap_or (tlvs_of (octets_in t.form)) [] };

    ghost invariant = { λ t. IsWhole t.form };
}

impl<'a> Tlvs<'a> {
    /// Returns no options.
    #[tactic(auto, unfolding(crate::specs::Pdu::Tlv::tlvs_of, crate::specs::Pdu::Tlv::tlvs_at))]
    pub fn none() -> Self
        ensures { result ≡ [] }
    {
        Tlvs {
            form: Form::Made {
                octets: [0; 10],
                len: 0,
            },
        }
    }

    /// Returns a fault location, a TLV of type 6, that names this entity by an id of `width`
    /// octets, which must be 1 to 8 and hold it.
    pub fn fault_location_of(entity: u64, width: u8) -> Self
        requires width { IsWidth width }
        requires fits { entity < 256 ^ width }
        ensures value { result ≡ fault_location entity width ∷ [] }
        ensures len { length (flat_map tlv result) ≡ 2 + width }
    {
        let mut octets = [0; 10];
        let at = put_uint(&mut octets, 0, 1, u64::from(FAULT_LOCATION));
        let at = put_uint(&mut octets, at, 1, u64::from(width));
        let len = put_uint(&mut octets, at, width as usize, entity);
        Tlvs {
            form: Form::Made { octets, len },
        }
    }

    /// Returns the options that fill the octets, if some do.
    pub fn read(octets: &'a [u8]) -> Option<Self>
        ensures found { IfSome result (λ ts. tlvs_of octets.now ≡ Some ts) }
        ensures none { is_some result ≡ is_some (tlvs_of octets.now) }
    {
        if are_tlvs(octets) {
            Some(Tlvs {
                form: Form::Read(octets),
            })
        } else {
            None
        }
    }

    /// Returns the octets that spell the options, one after the other.
    #[tactic(auto, using(crate::proofs::Options::spelled_view))]
    pub fn octets(&self) -> &[u8]
        ensures { result.now ≡ flat_map tlv self.now }
    {
        octets_of(&self.form)
    }

    /// Returns the first option's type and value, and the options after it; `None` if there is
    /// none.
    pub fn split_first(&self) -> Option<(u8, &[u8], Tlvs<'_>)>
        ensures some { IfSome result (λ x. self.now
            ≡ record { kind = x.0; value = x.1.now } ∷ x.2) }
        ensures none { IfNone result (self.now ≡ []) }
    {
        let (kind, value, rest) = split_tlv(octets_of(&self.form))?;
        Some((
            kind,
            value,
            Tlvs {
                form: Form::Read(rest),
            },
        ))
    }

    /// Returns the options one by one, each its type and its value.
    pub fn iter(&self) -> TlvIter<'_>
        ensures { result ≡ self.now }
    {
        TlvIter::over(octets_of(&self.form))
    }

    /// Returns the entity that the first fault location of 1 to 8 octets names, if there is one.
    pub fn fault_location(&self) -> Option<u64>
        ensures { result ≡ location_of self.now }
    {
        let mut rest = octets_of(&self.form);
        while let Some((kind, value, others)) = split_tlv(rest) {
            if kind == FAULT_LOCATION && 1 <= value.len() && value.len() <= 8 {
                return Some(get(value, 0, 8 * value.len()));
            }
            rest = others;
        }
        None
    }
}

impl PartialEq for Tlvs<'_> {
    ghost eq = { on (λ ts. flat_map tlv ts) (pointwise nat_eq) };

    ghost laws = { partial_equiv_from_equiv (on_texts_equal (λ ts. flat_map tlv ts)) };

    fn eq(&self, other: &Self) -> bool {
        self.octets() == other.octets()
    }
}

impl Eq for Tlvs<'_> {
    ghost laws = { on_texts_equal (λ ts. flat_map tlv ts) };
}

impl<'a> IntoIterator for &'a Tlvs<'_> {
    type Item = (u8, &'a [u8]);

    type IntoIter = TlvIter<'a>;

    ghost into_iter_gives = { λ tlvs iter. iter ≡ tlvs.now };

    fn into_iter(self) -> TlvIter<'a> {
        self.iter()
    }
}

/// Returns the octets. Options must fill them.
fn octets_of<'a>(form: &'a Form<'_>) -> &'a [u8]
    requires { IsWhole form.now }
    ensures whole { is_some (tlvs_of result.now) ≡ true }
    ensures same { unwrap_or (tlvs_of result.now) [] ≡ unwrap_or (tlvs_of (octets_in form.now)) [] }
{
    match form {
        Form::Read(octets) => octets,
        Form::Made { octets, len } => &octets[..*len],
    }
}

/// Returns the type and the value of the option at the front, and what is after it.
#[tactic(auto, using(crate::proofs::Options::first, crate::proofs::Options::nothing, crate::proofs::Options::one_more, crate::proofs::Options::one_left, crate::proofs::Options::too_long))]
pub(crate) fn split_tlv(bytes: &[u8]) -> Option<(u8, &[u8], &[u8])>
    ensures whole { IfSome result (λ x. is_some (tlvs_of x.2.now) ≡ is_some (tlvs_of bytes.now)) }
    ensures first { IfSome result (λ x. is_some (tlvs_of bytes.now) ≡ true
        → unwrap_or (tlvs_of bytes.now) []
        ≡ record { kind = x.0; value = x.1.now } ∷ unwrap_or (tlvs_of x.2.now) []) }
    ensures shorter { IfSome result (λ x. length x.2.now < length bytes.now) }
    ensures none { IfNone result (unwrap_or (tlvs_of bytes.now) [] ≡ []) }
    ensures bad { IfNone result (0 < length bytes.now → is_some (tlvs_of bytes.now) ≡ false) }
{
    if bytes.len() < 2 {
        return None;
    }
    let kind = bytes[0];
    let len = bytes[1] as usize;
    let (_, rest) = bytes.split_at(2);
    if rest.len() < len {
        return None;
    }
    let (value, others) = rest.split_at(len);
    Some((kind, value, others))
}

/// Returns `true` if options fill the octets.
#[tactic(auto, using(crate::proofs::Options::none_left))]
fn are_tlvs(octets: &[u8]) -> bool
    ensures { result ≡ is_some (tlvs_of octets.now) }
{
    let mut rest = octets;
    while !rest.is_empty() {
        let Some((_, _, others)) = split_tlv(rest) else {
            return false;
        };
        rest = others;
    }
    true
}
