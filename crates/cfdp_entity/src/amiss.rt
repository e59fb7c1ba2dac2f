// Which field of a configuration isn't as it must be.
ghost use Rattle.std.specs.Prelude.{◌↔◌, IsTrue, MatchOption};
ghost use Rattle.cfdp_header.specs.Header.{IsWidth};
ghost use Rattle.cfdp_directives.specs.User.Limits.{IsValidTimes};
ghost use Rattle.cfdp_entity.specs.Config.{IsConfig, HasIds, HasSending};
ghost use Rattle.cfdp_entity.specs.Fields.{Fits};

use crate::config::{EntityConfig, MOST_WIDTH};
use cfdp_header::fits_width;
use cfdp_sender::MOST_SEGMENT;
use thiserror::Error;
use valid_config::Config;

/// A field of an [`EntityConfig`](crate::EntityConfig) that isn't as it must be.
#[derive(Clone, Copy, Debug, PartialEq, Eq, Error)]
pub enum EntityField {
    /// The width of ids.
    #[error("id_width must be 1 to 8 octets")]
    IdWidth,
    /// The entity's own id.
    #[error("entity must fit in id_width octets")]
    Entity,
    /// The peer's id.
    #[error("peer must fit in id_width octets and differ from entity")]
    Peer,
    /// The width of sequence numbers.
    #[error("number_width must be 1 to 8 octets")]
    NumberWidth,
    /// The octets of the file in one PDU.
    #[error("segment must be 1 to 4096 octets")]
    Segment,
    /// The kind of checksum.
    #[error("checksum must be 0 to 3 or 15")]
    ChecksumKind,
    /// How long the ACK of an EOF is waited for.
    #[error("eof_time must be at least 1")]
    EofTime,
    /// How long what a NAK asked for is waited for.
    #[error("nak_time must be at least 1")]
    NakTime,
    /// How long the ACK of a Finished is waited for.
    #[error("finished_time must be at least 1")]
    FinishedTime,
    /// How long any PDU of a transaction is waited for.
    #[error("inactivity_time must be at least 1")]
    InactivityTime,
}

impl Config for EntityConfig {
    type Field = EntityField;

    ghost IsValid = { IsConfig };

    ghost Fits = { Fits };

    fn amiss(&self) -> Option<EntityField> {
        if let Some(field) = self.ids_amiss() {
            return Some(field);
        }
        if let Some(field) = self.sending_amiss() {
            return Some(field);
        }
        self.times_amiss()
    }
}

impl EntityConfig {
    fn ids_amiss(&self) -> Option<EntityField>
        ensures { MatchOption result (HasIds self.now)
            (λ field. (HasIds self.now → ⊥) × (Fits field self.now → ⊥)) }
    {
        if !is_width(self.id_width) {
            Some(EntityField::IdWidth)
        } else if !fits_width(self.entity, self.id_width) {
            Some(EntityField::Entity)
        } else if self.entity == self.peer || !fits_width(self.peer, self.id_width) {
            Some(EntityField::Peer)
        } else {
            None
        }
    }

    fn sending_amiss(&self) -> Option<EntityField>
        ensures { MatchOption result (HasSending self.now)
            (λ field. (HasSending self.now → ⊥) × (Fits field self.now → ⊥)) }
    {
        if !is_width(self.number_width) {
            Some(EntityField::NumberWidth)
        } else if self.segment == 0 || MOST_SEGMENT < self.segment {
            Some(EntityField::Segment)
        } else if !self.checksum_kind.is_known() {
            Some(EntityField::ChecksumKind)
        } else {
            None
        }
    }

    fn times_amiss(&self) -> Option<EntityField>
        ensures { MatchOption result (IsValidTimes self.now.policy.times)
            (λ field. (IsValidTimes self.now.policy.times → ⊥) × (Fits field self.now → ⊥)) }
    {
        let times = &self.policy.times;
        if times.eof == 0 {
            Some(EntityField::EofTime)
        } else if times.nak == 0 {
            Some(EntityField::NakTime)
        } else if times.finished == 0 {
            Some(EntityField::FinishedTime)
        } else if times.inactivity == 0 {
            Some(EntityField::InactivityTime)
        } else {
            None
        }
    }
}

/// Returns `true` if ids or sequence numbers may have so many octets.
fn is_width(width: u8) -> bool
    ensures { IsTrue result ↔ IsWidth width }
{
    1 <= width && width <= MOST_WIDTH
}
