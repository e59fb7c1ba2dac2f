// How a PDU of a transaction that has no record opens one.
ghost use Rattle.std.specs.Prelude.{◌≡◌};
ghost use Rattle.cfdp_directives.specs.Pdu.Content.{view};
ghost use Rattle.cfdp_entity.specs.Opening as openings;

use cfdp_directives::{Condition, Pdu};
use cfdp_store::Stored;

/// The most indications of a PDU that opens a record. If the inbox refuses to begin, there are
/// two. If it begins, there are none, and at most three of the PDU that is then heard.
pub(crate) const MOST_TOLD: usize = 3;

/// How the inbox answered when a PDU opened a record.
#[derive(Clone, Copy, Debug, PartialEq, Eq)]
pub struct Opened {
    /// `true` if it began the transaction. `Done` if it wasn't asked.
    pub begun: Stored,
    /// `true` if it did what the PDU asked of it. `Done` if the PDU wasn't taken further.
    pub stored: Stored,
}

/// Returns the condition of an EOF with an error.
pub(crate) fn closing(pdu: &Pdu<'_>) -> Option<Condition>
    ensures { result ≡ openings.closing (view pdu.now) }
{
    match pdu {
        Pdu::Eof { condition, .. } => error_of(*condition),
        _ => None,
    }
}

fn error_of(condition: Condition) -> Option<Condition>
    ensures { result ≡ openings.error_of condition }
{
    if condition == Condition::NO_ERROR {
        None
    } else {
        Some(condition)
    }
}
