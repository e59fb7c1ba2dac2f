// Armed timers with their deadlines.
ghost use Rattle.std.specs.Prelude.{◌≡◌, ◌≤◌, length, map, IfOk, OnErr};
ghost use Rattle.cfdp_timers.specs.Entries.{timer_of};

use crate::Kind;
use cfdp_header::TransactionId;
use std::alloc::{AllocError, Global};

/// An armed timer with its deadline. Alarms are ordered as they fire: by deadline, then by
/// transaction, then by kind.
#[derive(Clone, Copy, Debug, PartialEq, Eq, PartialOrd, Ord)]
pub(crate) struct Alarm {
    pub(crate) deadline: u64,
    pub(crate) id: TransactionId,
    pub(crate) kind: Kind,
}

/// Returns the timers of alarms.
pub(crate) fn timers_of(
    alloc: Global,
    alarms: &[Alarm],
) -> Result<Vec<(TransactionId, Kind)>, AllocError>
    ensures ok { IfOk result (λ timers. timers.items ≡ map timer_of alarms.now) }
    ensures err { OnErr result (1 ≤ length alarms.now) }
{
    if alarms.is_empty() {
        return Ok(Vec::new(alloc));
    }
    alarms
        .iter()
        .map(|alarm| (alarm.id, alarm.kind))
        .collect(alloc)
}
