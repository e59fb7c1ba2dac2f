// The deadlines of one transaction.
ghost use Rattle.std.specs.Prelude.{◌≡◌, ◌≤◌, ◌++◌, length, map, OnOk, OnErr, false};
ghost use Rattle.std.specs.Option.{option_map_or};
ghost use Rattle.cfdp_header.specs.declared.value.TransactionId.{TransactionId};
ghost use Rattle.cfdp_timers.specs.declared.kind.Kind.{Kind};
ghost use Rattle.cfdp_timers.specs.Entries as kept;
ghost use Rattle.cfdp_timers.specs.Entries.{deadline_at, with_deadline, alarm_if, alarms_of};
ghost use Rattle.cfdp_timers.specs.Entries.{entry_of, other_of};

use crate::Kind;
use crate::alarm::Alarm;
use cfdp_header::TransactionId;
use std::alloc::AllocError;

// Returns the earlier of two deadlines.
pub(crate) fn earlier(a: Option<u64>, b: Option<u64>) -> Option<u64>
    ensures { result ≡ kept.earlier a b }
{
    match (a, b) {
        (Some(x), Some(y)) => Some(x.min(y)),
        (Some(x), None) => Some(x),
        (None, _) => b,
    }
}

// Returns how many timers of one are due: 0 or 1.
fn due_count(deadline: Option<u64>, now: u64) -> usize
    ensures count { (id : TransactionId) (kind : Kind) →
        result ≡ length (kept.due now (alarm_if id kind deadline)) }
    ensures one { result ≤ 1 }
{
    match deadline {
        Some(deadline) if deadline <= now => 1,
        _ => 0,
    }
}

fn push_due(
    due: &mut Vec<Alarm>,
    id: TransactionId,
    kind: Kind,
    deadline: Option<u64>,
    now: u64,
) -> Result<(), AllocError>
    ensures ok { OnOk result (map entry_of due.new.items
        ≡ map entry_of due.old.items ++ kept.due now (alarm_if id kind deadline)) }
    ensures err { OnErr result (1 ≤ length (kept.due now (alarm_if id kind deadline))) }
{
    if let Some(deadline) = deadline
        && deadline <= now
    {
        due.push(Alarm { deadline, id, kind })?;
    }
    Ok(())
}

/// The deadlines of one transaction; `None` if the timer isn't armed.
#[derive(Clone, Copy, Debug)]
pub(crate) struct Deadlines {
    pub(crate) eof_ack: Option<u64>,
    pub(crate) nak: Option<u64>,
    pub(crate) finished_ack: Option<u64>,
    pub(crate) inactivity: Option<u64>,
}

impl Deadlines {
    /// No timer is armed.
    pub(crate) const NONE: Deadlines = Deadlines {
        eof_ack: None,
        nak: None,
        finished_ack: None,
        inactivity: None,
    };

    pub(crate) fn get(&self, kind: Kind) -> Option<u64>
        ensures { result ≡ deadline_at self.now kind }
    {
        match kind {
            Kind::EofAck => self.eof_ack,
            Kind::Nak => self.nak,
            Kind::FinishedAck => self.finished_ack,
            Kind::Inactivity => self.inactivity,
        }
    }

    pub(crate) fn set(&mut self, kind: Kind, deadline: Option<u64>)
        ensures { self.new ≡ with_deadline self.old kind deadline }
    {
        match kind {
            Kind::EofAck => self.eof_ack = deadline,
            Kind::Nak => self.nak = deadline,
            Kind::FinishedAck => self.finished_ack = deadline,
            Kind::Inactivity => self.inactivity = deadline,
        }
    }

    // Returns the earliest deadline.
    pub(crate) fn next(&self) -> Option<u64>
        ensures { (id : TransactionId) → result ≡ kept.earliest (alarms_of id self.now) }
    {
        let others = earlier(self.nak, earlier(self.finished_ack, self.inactivity));
        earlier(self.eof_ack, others)
    }

    // Returns the earliest deadline except Inactivity's.
    pub(crate) fn other(&self) -> Option<u64>
        ensures { result ≡ other_of self.now }
    {
        earlier(self.eof_ack, earlier(self.nak, self.finished_ack))
    }

    // Returns how many timers are due.
    pub(crate) fn due_count(&self, now: u64) -> usize
        ensures count { (id : TransactionId) → result
            ≡ length (kept.due now (alarms_of id self.now)) }
        ensures four { result ≤ 4 }
    {
        due_count(self.eof_ack, now)
            + due_count(self.nak, now)
            + due_count(self.finished_ack, now)
            + due_count(self.inactivity, now)
    }

    // Adds the timers that are due.
    #[tactic(auto, using(crate::proofs::Alarms::length_due_of))]
    pub(crate) fn push_due(
        &self,
        id: TransactionId,
        now: u64,
        due: &mut Vec<Alarm>,
    ) -> Result<(), AllocError>
        ensures ok { OnOk result (map entry_of due.new.items
            ≡ map entry_of due.old.items ++ kept.due now (alarms_of id self.now)) }
        ensures err { OnErr result (1 ≤ length (kept.due now (alarms_of id self.now))) }
    {
        push_due(due, id, Kind::EofAck, self.eof_ack, now)?;
        push_due(due, id, Kind::Nak, self.nak, now)?;
        push_due(due, id, Kind::FinishedAck, self.finished_ack, now)?;
        push_due(due, id, Kind::Inactivity, self.inactivity, now)?;
        Ok(())
    }
}
