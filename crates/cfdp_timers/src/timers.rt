// Which timers are armed, and until when.
ghost use Rattle.std.specs.Prelude.{◌≡◌, ◌≤◌, ◌<◌, ◌^◌, ◌+◌, ◌-◌, min, max, true, OnOk, OnErr};
ghost use Rattle.std.specs.Prelude.{IfOk, IsSome, IfSome, IfNone, None, Some, IsOk, MatchOption};
ghost use Rattle.std.specs.Prelude.{List, length, if◌then◌else◌, map as map_list};
ghost use Rattle.std.specs.List.{list_any};
ghost use Rattle.std.specs.FinMap as map;
ghost use Rattle.std.specs.FinSet as set;
ghost use Rattle.std.specs.Ordering.{eq_by_cmp};
ghost use Rattle.cfdp_header.specs.declared.value.TransactionId.{TransactionId};
ghost use Rattle.cfdp_timers.specs.declared.kind.Kind.{Kind};
ghost use Rattle.cfdp_timers.specs.Order.{Timer, timer_cmp};
ghost use Rattle.cfdp_timers.specs.Armed.{cleared, deadline_of, with_timer};
ghost use Rattle.cfdp_timers.specs.Due.{AreDue, IsLeast, due_count, still_armed};
ghost use Rattle.cfdp_timers.specs.ButInactivity.{OnlyInactivity, IsLeastOther};
ghost use Rattle.cfdp_timers.specs.Entries.{timer_of, deadline_at};
ghost use Rattle.cfdp_timers.specs.Waits.{deadline_after, with_wait, waited};

use crate::alarm::{Alarm, timers_of};
use crate::blocks::Blocks;
use crate::bounds::Bounds;
use crate::deadlines::Deadlines;
use crate::wait::{Wait, Waits};
use crate::{Kind, entries, walk};
use cfdp_header::TransactionId;
use indexmap::IndexMap;
use std::alloc::{AllocError, Global};
use std::marker::Model;

// More than memory holds: an entry takes over 16 octets.
const MOST_TRANSACTIONS: usize = 1 << 59;

/// When timers of transactions are due: each transaction that has room has one timer of each kind.
///
/// Times are in units of the caller's clock, from 0 on.
#[derive(Debug, Drop)]
pub struct Timers {
    entries: IndexMap<TransactionId, Deadlines>,
    // By index, the earliest deadline except Inactivity's.
    others: Blocks,
    // By block, no deadline is before its bound.
    bounds: Bounds,
    time: u64,
    alloc: Global,
}

impl Model for Timers {
    ghost use Rattle.std.specs.Prelude.{◌≡◌, ◌≤◌, ◌^◌, length};
    ghost use Rattle.std.specs.List.{IsDistinct};
    ghost use Rattle.std.specs.Map.{keys_of};
    ghost use Rattle.std.specs.Ordering.{eq_by_cmp};
    ghost use Rattle.cfdp_header.specs.Ids.{id_cmp};
    ghost use Rattle.cfdp_timers.specs.Armed.{TimersState, timers_code};
    ghost use Rattle.cfdp_timers.specs.Entries.{AreBounds, state_of, others_of};

    ghost Value = { TimersState };

    ghost coded = { timers_code };

    ghost view = { λ t. state_of t.time t.entries.entries };

    ghost invariant = { λ t. IsDistinct (eq_by_cmp id_cmp) (keys_of t.entries.entries)
        × (length t.entries.entries ≤ 2 ^ 59)
        × (t.others ≡ others_of t.entries.entries)
        × AreBounds t.entries.entries t.bounds };
}

impl Timers {
    /// Returns no timers, at time 0.
    pub fn new(alloc: Global) -> Self
        ensures time { result.time ≡ 0 }
        ensures roomy { result.roomy ≡ set.empty }
        ensures armed { result.armed ≡ map.empty }
    {
        Timers {
            entries: IndexMap::new(alloc),
            others: Blocks::new(alloc),
            bounds: Bounds::new(alloc),
            time: 0,
            alloc,
        }
    }

    /// Returns the latest time that was given to `fire`.
    pub fn now(&self) -> u64
        ensures { result ≡ self.now.time }
    {
        self.time
    }

    /// Returns the time so many units after now, or the greatest time if that is less.
    pub fn deadline_after(&self, duration: u32) -> u64
        ensures { result ≡ deadline_after self.now.time duration }
    {
        self.time.saturating_add(u64::from(duration))
    }

    /// Returns `true` if a transaction has room, so that its timers can be armed.
    pub fn has_room(&self, id: TransactionId) -> bool
        ensures { result ≡ set.contains self.now.roomy id }
    {
        self.entries.contains_key(&id)
    }

    /// Returns the deadline of a timer, if it is armed.
    pub fn deadline_of(&self, id: TransactionId, kind: Kind) -> Option<u64>
        ensures { result ≡ deadline_of self.now id kind }
    {
        self.entries.get(&id)?.get(kind)
    }

    /// Makes room for a transaction, so that its timers can be armed.
    ///
    /// # Errors
    ///
    /// If there is no memory for one more transaction. All is then unchanged.
    pub fn room(&mut self, id: TransactionId) -> Result<(), AllocError>
        ensures ok { OnOk result (self.new
            ≡ record self.old { roomy = set.insert self.old.roomy id }) }
        ensures err { OnErr result (self.new ≡ self.old) }
        // If a transaction has room, it takes no more memory.
        ensures again { set.contains self.old.roomy id ≡ true → IsOk result }
        // What `arm` requires: now it has room, and whoever had it keeps it.
        ensures has_room { OnOk result (set.contains self.new.roomy id ≡ true) }
        ensures keeps { (other : TransactionId) →
            set.contains self.old.roomy other ≡ true → set.contains self.new.roomy other ≡ true }
    {
        if self.entries.contains_key(&id) {
            return Ok(());
        }
        if self.entries.len() >= MOST_TRANSACTIONS {
            return Err(AllocError);
        }
        entries::add(&mut self.entries, &mut self.others, &mut self.bounds, id)?;
        Ok(())
    }

    /// Arms a timer, or gives an armed one another deadline, earlier or later. The transaction must
    /// have room.
    pub fn arm(&mut self, id: TransactionId, kind: Kind, deadline: u64)
        requires has_room { set.contains self.old.roomy id ≡ true }
        ensures armed { self.new
            ≡ record self.old { armed = map.insert self.old.armed (id, kind) deadline } }
        ensures roomy { self.new.roomy ≡ self.old.roomy }
    {
        self.set_deadline(id, kind, Some(deadline));
    }

    /// Clears a timer; if it isn't armed, it stays so.
    pub fn clear(&mut self, id: TransactionId, kind: Kind)
        ensures cleared { self.new
            ≡ record self.old { armed = map.remove self.old.armed (id, kind) } }
        ensures roomy { self.new.roomy ≡ self.old.roomy }
    {
        self.set_deadline(id, kind, None);
    }

    /// Returns the earliest deadline of the armed timers; `None` if none is armed. It looks only at
    /// transactions whose blocks may have an earlier deadline than the other kinds' earliest.
    pub fn next(&self) -> Option<u64>
        ensures { MatchOption result (self.now.armed
            ≡ map.empty) (λ deadline. IsLeast self.now.armed deadline) }
    {
        walk::earliest_of_all(&self.entries, &self.bounds, self.others.earliest())
    }

    /// Returns the earliest deadline of the armed timers except the timers of kind Inactivity;
    /// `None` if no other is armed.
    pub fn next_but_inactivity(&self) -> Option<u64>
        ensures { MatchOption result (OnlyInactivity self.now.armed)
            (λ deadline. IsLeastOther self.now.armed deadline) }
    {
        self.others.earliest()
    }

    /// Returns how many timers `fire` would give at that time.
    pub fn due_count(&self, now: u64) -> usize
        ensures count { result ≡ due_count self.now.armed (max self.now.time now) }
        // So a caller may count three things for each of them.
        ensures few { result < 2 ^ 62 }
    {
        walk::due_count(&self.entries, &self.bounds, self.time.max(now))
    }

    /// Sets the time, and returns and clears the timers whose deadline is then or before: by
    /// deadline, then by transaction, then by kind. If the time is before the latest given, the
    /// latest counts.
    ///
    /// # Errors
    ///
    /// If a timer is due, and there is no memory for the answer. All is then unchanged, the time
    /// too.
    pub fn fire(&mut self, now: u64) -> Result<Vec<(TransactionId, Kind)>, AllocError>
        ensures time { OnOk result (self.new.time ≡ max self.old.time now) }
        ensures roomy { OnOk result (self.new.roomy ≡ self.old.roomy) }
        ensures fired { IfOk result (λ fired. AreDue self.old.armed self.new.time fired.items) }
        // No other list is so.
        ensures only { IfOk result (λ fired. (others : List Timer) →
            AreDue self.old.armed self.new.time others → others ≡ fired.items) }
        ensures count { IfOk result (λ fired. length fired.items
            ≡ due_count self.old.armed self.new.time) }
        ensures left { OnOk result (self.new.armed ≡ still_armed self.new.time self.old.armed) }
        ensures err { OnErr result (self.new ≡ self.old) }
        ensures lacks { OnErr result (1 ≤ due_count self.old.armed (max self.old.time now)) }
    {
        let now = self.time.max(now);
        let due = self.due(now)?;
        let fired = timers_of(self.alloc, &due)?;
        self.time = now;
        self.clear_all(&fired);
        self.tighten();
        Ok(fired)
    }

    /// Arms and clears the four timers of a transaction by what it waits for. It clears a timer
    /// that isn't waited for, arms a timer that is waited for again or isn't armed, and leaves the
    /// others. It takes no memory: the transaction must have room.
    #[tactic(auto, unfolding(crate::specs::Waits::waited))]
    pub fn set(&mut self, id: TransactionId, waits: &Waits)
        requires has_room { set.contains self.old.roomy id ≡ true }
        ensures set { self.new
            ≡ record self.old { armed = waited self.old.time id waits.now self.old.armed } }
        ensures roomy { self.new.roomy ≡ self.old.roomy }
    {
        // One search for all four: most timers stay as they are.
        let old = self.deadlines(id);
        self.set_one(id, Kind::EofAck, waits.eof_ack, old.eof_ack);
        self.set_one(id, Kind::Nak, waits.nak, old.nak);
        self.set_one(id, Kind::FinishedAck, waits.finished_ack, old.finished_ack);
        self.set_one(id, Kind::Inactivity, waits.inactivity, old.inactivity);
    }

    /// Clears the timers of a transaction, and takes its room back. It takes no memory.
    pub fn let_go(&mut self, id: TransactionId)
        ensures time { self.new.time ≡ self.old.time }
        ensures roomy { self.new.roomy ≡ set.remove self.old.roomy id }
        ensures armed { self.new.armed ≡ cleared self.old.armed id }
    {
        self.clear(id, Kind::EofAck);
        self.clear(id, Kind::Nak);
        self.clear(id, Kind::FinishedAck);
        self.clear(id, Kind::Inactivity);
        self.take_out(id);
    }

    // Takes the room of a transaction back. None of its timers may be armed.
    fn take_out(&mut self, id: TransactionId)
        requires none { (kind : Kind) → deadline_of self.old id kind ≡ None }
        ensures { self.new ≡ record self.old { roomy = set.remove self.old.roomy id } }
    {
        entries::take_out(&mut self.entries, &mut self.others, &mut self.bounds, id);
    }

    // Returns the deadlines of a transaction; none if it has no room.
    fn deadlines(&self, id: TransactionId) -> Deadlines
        ensures { (kind : Kind) → deadline_at result kind ≡ deadline_of self.now id kind }
    {
        match self.entries.get(&id) {
            Some(deadlines) => *deadlines,
            None => Deadlines::NONE,
        }
    }

    // Sets one timer of a transaction that has room, if it had this deadline.
    #[tactic(auto, using(crate::proofs::Waited::with_timer_kept))]
    fn set_one(&mut self, id: TransactionId, kind: Kind, wait: Wait, old: Option<u64>)
        requires room { set.contains self.old.roomy id ≡ true }
        requires old { old ≡ deadline_of self.old id kind }
        ensures { self.new
            ≡ record self.old { armed = with_wait self.old.time id kind wait self.old.armed } }
    {
        let new = wait.deadline(self.time, old);
        if new != old {
            self.set_deadline(id, kind, new);
        }
    }

    // Arms a timer of a transaction that has room, or clears a timer.
    fn set_deadline(&mut self, id: TransactionId, kind: Kind, deadline: Option<u64>)
        requires { IsSome deadline → set.contains self.old.roomy id ≡ true }
        ensures { self.new ≡ record self.old {
          armed =
              with_timer self.old.armed (id, kind) deadline;
        } }
    {
        entries::set_deadline(
            &mut self.entries,
            &mut self.others,
            &mut self.bounds,
            id,
            kind,
            deadline,
        );
    }

    // Returns the timers that are due, in the order in which they fire.
    fn due(&self, now: u64) -> Result<Vec<Alarm>, AllocError>
        ensures fired { IfOk result (λ due. AreDue self.now.armed now (map_list timer_of due.items)) }
        ensures count { IfOk result (λ due. length due.items ≡ due_count self.now.armed now) }
        ensures err { OnErr result (1 ≤ due_count self.now.armed now) }
    {
        let mut due = walk::due(&self.entries, &self.bounds, now, self.alloc)?;
        due.sort_unstable();
        Ok(due)
    }

    fn clear_all(&mut self, timers: &[(TransactionId, Kind)])
        ensures time { self.new.time ≡ self.old.time }
        ensures roomy { self.new.roomy ≡ self.old.roomy }
        ensures cleared { (t : Timer) → map.get self.new.armed t
            ≡ (if list_any (eq_by_cmp timer_cmp t) timers.now then None
            else map.get self.old.armed t) }
    {
        for (id, kind) in timers {
            self.clear(*id, *kind);
        }
    }

    // Makes each bound later whose time has come: its timers have fired, or were put off.
    fn tighten(&mut self)
        ensures { self.new ≡ self.old }
    {
        walk::tighten(&self.entries, &mut self.bounds, self.time);
    }
}
