//! Laws of timers, as the contracts of functions that do nothing.
ghost use Rattle.std.specs.Prelude.{◌≡◌, ℕ, None, if◌then◌else◌};
ghost use Rattle.std.specs.FinMap as map;
ghost use Rattle.cfdp_timers.specs.Order.{Timer};
ghost use Rattle.cfdp_timers.specs.Armed.{Armed};
ghost use Rattle.cfdp_header.specs.declared.value.TransactionId.{TransactionId};
ghost use Rattle.cfdp_header.specs.Ids.{same_id};
ghost use Rattle.cfdp_timers.specs.declared.wait.Waits.{Waits};
ghost use Rattle.cfdp_timers.specs.Due.{is_due, still_armed};
ghost use Rattle.cfdp_timers.specs.Waits.{deadline_by, wait_for, waited};

/// Once the timers that are due have fired, they are armed no more, and all others keep their
/// deadlines.
pub fn what_fired_is_armed_no_more()
    ensures { (armed : Armed) (at : ℕ) (t : Timer) →
        map.get (still_armed at armed) t ≡ (if is_due armed at t then None else map.get armed t) }
{}

/// Once the timers of a transaction were set, each is armed if it is waited for, and the timers of
/// other transactions are as before.
pub fn what_is_waited_for_is_armed()
    ensures { (now : ℕ) (id : TransactionId) (waits : Waits) (armed : Armed) (t : Timer) →
        map.get (waited now id waits armed) t
        ≡ (if same_id id t.0 then deadline_by now (wait_for waits t.1) (map.get armed t)
        else map.get armed t) }
{}
