// What an expiry of a timer does.
ghost use Rattle.std.specs.Prelude.{◌+◌, ◌≤◌, vec_len, vec_capacity};
ghost use Rattle.cfdp_timers.specs.declared.kind.Kind.TheVariants as kinds;
ghost use Rattle.cfdp_timers.specs.Effects.{HasRoom, UsesAtMost};
ghost use Rattle.cfdp_sender.specs.Steps as steps;
ghost use Rattle.cfdp_sender.specs.Does.{Leaves, Does};

use crate::phase::SenderPhase;
use crate::sender::Sender;
use cfdp_directives::{Condition, Handler, Indication, Policy, another_try, indicate_fault};
use cfdp_timers::{Effects, Kind};

impl Sender {
    /// Handles a timer of the transaction that has fired. If no ACK of EOF came, the EOF is sent
    /// again, as often as the limit allows, and then that is fault 1; if nothing at all was heard,
    /// fault 8. The handler decides what follows, but if the transaction is cancelled, it is
    /// abandoned (CCSDS 727.0-B-5, 4.7 and 4.8). If the timer isn't waited for, nothing happens.
    /// Takes no memory.
    ///
    /// The effects must have room for a step of the transaction.
    pub fn expire(&mut self, effects: &mut Effects, policy: &Policy, kind: Kind)
        requires room { HasRoom self.old.addressing.id effects.old }
        ensures does { Does policy.now.times (steps.sender_expires kind policy.now self.old)
            self.new effects.old effects.new }
        ensures told_room { UsesAtMost 2 effects.old.told effects.new.told }
    {
        let mut anew = None;
        if self.waits(kind) {
            match kind {
                Kind::EofAck => self.miss_ack(policy, &mut effects.told),
                Kind::Inactivity => {
                    self.miss_all(policy.handlers.inactivity, &mut effects.told);
                    anew = Some(Kind::Inactivity);
                }
                Kind::Nak | Kind::FinishedAck => {}
            }
        }
        self.set_timers(anew, &mut effects.timers, &policy.times);
    }

    // No ACK of EOF has come: EOF is sent again if it may be.
    fn miss_ack(&mut self, policy: &Policy, told: &mut Vec<Indication>)
        requires room { vec_len told.old + 2 ≤ vec_capacity told.old }
        ensures leaves { Leaves (steps.expires kinds.EofAck policy.now self.old) self.new told.old
            told.new }
        ensures told_room { UsesAtMost 2 told.old told.new }
    {
        match another_try(self.count, policy.limits.eof) {
            Some(count) => {
                self.count = count;
                self.eof_due = true;
            }
            None => {
                let handler = match self.phase {
                    SenderPhase::Sending => policy.handlers.ack,
                    SenderPhase::Cancelling | SenderPhase::Closed => Handler::Abandon,
                };
                self.give_up_on_ack(handler, told);
            }
        }
    }

    // EOF was sent as often as is allowed.
    fn give_up_on_ack(&mut self, handler: Handler, told: &mut Vec<Indication>)
        requires room { vec_len told.old + 2 ≤ vec_capacity told.old }
        ensures leaves { Leaves (steps.unacknowledged handler self.old) self.new told.old told.new }
        ensures told_room { UsesAtMost 2 told.old told.new }
    {
        let condition = Condition::POSITIVE_ACK_LIMIT;
        indicate_fault(told, handler, self.addressing.id, condition);
        match handler {
            Handler::Cancel => self.enter_cancelling(condition),
            Handler::Suspend => self.suspended = true,
            Handler::Ignore => {
                self.count = 0;
                self.eof_due = true;
            }
            Handler::Abandon => self.close(),
        }
    }

    // Nothing has come for too long.
    fn miss_all(&mut self, handler: Handler, told: &mut Vec<Indication>)
        requires room { vec_len told.old + 2 ≤ vec_capacity told.old }
        ensures leaves { Leaves (steps.unheard handler self.old) self.new told.old told.new }
        ensures told_room { UsesAtMost 2 told.old told.new }
    {
        let condition = Condition::INACTIVITY;
        indicate_fault(told, handler, self.addressing.id, condition);
        match handler {
            Handler::Cancel => self.enter_cancelling(condition),
            Handler::Suspend => self.suspended = true,
            Handler::Ignore => self.count = 0,
            Handler::Abandon => self.close(),
        }
    }
}
