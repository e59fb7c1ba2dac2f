ghost use Rattle.std.specs.Prelude.{◌≡◌, ◌≢◌, false};
ghost use Rattle.cfdp_header.specs.Header.{FitsWidth};
ghost use Rattle.cfdp_directives.specs.Pdu.Codes.{modular};
ghost use Rattle.cfdp_directives.specs.User.Policy.{default_policy};
ghost use Rattle.cfdp_entity.specs.Config.{IsConfig};

use cfdp_directives::{ChecksumKind, Policy};
use cfdp_header::fits_width;

/// The most octets of an entity id, and of a sequence number (CCSDS 727.0-B-5, 5.1).
pub const MOST_WIDTH: u8 = 8;

/// How an entity is set up: who it is, to whom it sends, and how. It is valid only if the two ids
/// differ and fit their width, both widths are 1 to 8 octets, the segment and the times are in
/// their ranges, and the checksum is of a type that is known.
#[derive(Clone, Copy, Debug, PartialEq, Eq)]
pub struct EntityConfig {
    /// The id of this entity. It must fit its width, and must not be the peer's.
    pub entity: u64,
    /// The id of the other entity, to which it sends and from which it hears.
    pub peer: u64,
    /// Octets of an entity id in the PDUs of its own transactions: 1 to 8.
    pub id_width: u8,
    /// Octets of a sequence number there: 1 to 8.
    pub number_width: u8,
    /// The sequence number of its first transaction. If it doesn't fit its width, no put is
    /// accepted.
    pub first_number: u64,
    /// The most octets of the file that one PDU carries: 1 to 4,096.
    pub segment: u16,
    /// How checksums of the files that it sends are made.
    pub checksum_kind: ChecksumKind,
    /// `true` if the PDUs of its own transactions end in a CRC, and so the answers to them. If
    /// the peer's PDUs have one, so have the PDUs of the peer's transactions.
    pub pdu_crc: bool,
    /// How long it waits, how often it sends something again, and what it does after that.
    pub policy: Policy,
}

impl EntityConfig {
    /// Returns the configuration of an entity with these two ids, which must differ. Ids have the
    /// least of 1, 2, 4 and 8 octets that both fit, sequence numbers 4, the first of them 1; a PDU
    /// carries at most 1,024 octets of the file, checksums are modular, and PDUs have no CRC. The
    /// policy is the default one.
    #[tactic(auto, unfolding(cfdp_directives::specs::Pdu::Codes::is_known))]
    pub fn new(entity: u64, peer: u64) -> EntityConfig
        ensures valid { entity ≢ peer → IsConfig result }
        ensures is { result ≡ record {
          entity = entity;
          peer = peer;
          id_width = result.id_width;
          number_width = 4;
          first_number = 1;
          segment = 1024;
          checksum_kind = modular;
          pdu_crc = false;
          policy = default_policy;
        } }
    {
        EntityConfig {
            entity,
            peer,
            id_width: width_of(entity, peer),
            number_width: 4,
            first_number: 1,
            segment: 1024,
            checksum_kind: ChecksumKind::MODULAR,
            pdu_crc: false,
            policy: Policy::default(),
        }
    }
}

/// Returns the least of 1, 2, 4 and 8 octets that both ids fit.
fn width_of(one: u64, other: u64) -> u8
    ensures one { FitsWidth one result }
    ensures other { FitsWidth other result }
{
    for width in [1u8, 2, 4] {
        if fits_width(one, width) && fits_width(other, width) {
            return width;
        }
    }
    8
}
