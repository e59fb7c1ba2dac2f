// What a receiver does once a timer expires, and the calls of its user.
ghost use Rattle.std.specs.Prelude.{◌≡◌, ◌+◌, ◌≤◌, vec_len, vec_capacity};
ghost use Rattle.cfdp_timers.specs.declared.kind.Kind.TheVariants as kinds;
ghost use Rattle.cfdp_timers.specs.Effects.{HasRoom, UsesAtMost};
ghost use Rattle.cfdp_receiver.specs.State.{IsReady};
ghost use Rattle.cfdp_receiver.specs.Steps as steps;
ghost use Rattle.cfdp_receiver.specs.Steps.{handled, expires_by, expires, cancels, suspends};
ghost use Rattle.cfdp_receiver.specs.Steps.{resumes};
ghost use Rattle.cfdp_receiver.specs.Does.{Advances, DoesAlone, IsOpen, Kept, KeptAlone};
ghost use Rattle.cfdp_receiver.specs.Does.{LeavesAlone, MakesIn, Performs, timers_set};
ghost use Rattle.cfdp_receiver.specs.Storing.{Settles};

use crate::receiver::Receiver;
use crate::state::ReceiverPhase;
use cfdp_directives::{
    Condition, Delivery, FileStatus, Handler, Indication, Policy, another_try, indicate,
    indicate_fault,
};
use cfdp_store::{Inbox, Stored};
use cfdp_timers::{Effects, Kind};

impl Receiver {
    /// Handles a fault for which there is a choice, while it receives.
    fn handle<I: Inbox>(
        &mut self,
        effects: &mut Effects,
        inbox: &mut I,
        handler: Handler,
        condition: Condition,
    )
        requires ready { IsOpen I.Inbox 2 self.old effects.old inbox.old }
        ensures advances { Advances I.Inbox Stored.Done (handled handler condition)
            self.old self.new effects.old effects.new inbox.old inbox.new }
        ensures told_room { UsesAtMost 2 effects.old.told effects.new.told }
    {
        let told = &mut effects.told;
        match handler {
            Handler::Cancel => self.fault(told, inbox, condition),
            Handler::Suspend => {
                indicate_fault(told, Handler::Suspend, self.addressing.id, condition);
                self.suspended = true;
            }
            Handler::Ignore => {
                indicate_fault(told, Handler::Ignore, self.addressing.id, condition);
                self.nak_count = 0;
                self.finished_count = 0;
            }
            Handler::Abandon => {
                self.discard(inbox);
                indicate_fault(told, Handler::Abandon, self.addressing.id, condition);
                self.end(ReceiverPhase::Closed);
            }
        }
    }

    /// Asks again for what is missing, if that may be asked for again.
    fn expire_nak<I: Inbox>(&mut self, effects: &mut Effects, inbox: &mut I, policy: &Policy)
        requires ready { IsOpen I.Inbox 2 self.old effects.old inbox.old }
        ensures advances { Advances I.Inbox Stored.Done (expires_by kinds.Nak policy.now)
            self.old self.new effects.old effects.new inbox.old inbox.new }
        ensures told_room { UsesAtMost 2 effects.old.told effects.new.told }
    {
        if let Some(count) = another_try(self.nak_count, policy.limits.nak) {
            self.nak_count = count;
            self.nak_cursor = Some(0);
            return;
        }
        self.handle(effects, inbox, policy.handlers.nak, Condition::NAK_LIMIT);
        if policy.handlers.nak == Handler::Ignore {
            self.nak_cursor = Some(0);
        }
    }

    /// Sends the Finished again that wasn't acknowledged, if it may be sent again.
    fn expire_finished(&mut self, told: &mut Vec<Indication>, policy: &Policy)
        requires room { vec_len told.old + 2 ≤ vec_capacity told.old }
        requires finishing { self.old.phase ≡ ReceiverPhase.Finishing }
        ensures leaves { LeavesAlone (expires_by kinds.FinishedAck policy.now) self.old self.new
            told.old told.new }
        ensures kept { KeptAlone self.old self.new }
        ensures told_room { UsesAtMost 2 told.old told.new }
    {
        match another_try(self.finished_count, policy.limits.finished) {
            Some(count) => {
                self.finished_count = count;
                self.finished_due = true;
            }
            None => {
                let condition = Condition::POSITIVE_ACK_LIMIT;
                indicate_fault(told, Handler::Abandon, self.addressing.id, condition);
                self.end(ReceiverPhase::Closed);
            }
        }
    }

    /// Handles the expiry of a timer. If the receiver waits for it, a NAK or the Finished is due
    /// again, up to its limit; at the limit, and if nothing was heard for too long, the fault is
    /// indicated and its handler decides. If a Finished is never acknowledged, it is given up, and
    /// what was published stays. Otherwise nothing changes. Takes no memory.
    pub fn expire<I: Inbox>(
        &mut self,
        effects: &mut Effects,
        inbox: &mut I,
        policy: &Policy,
        kind: Kind,
    )
        requires room { HasRoom self.old.addressing.id effects.old }
        requires ready { IsReady (I.staged inbox.old) self.old }
        ensures does { Performs I.Inbox (timers_set policy.now.times) Stored.Done
            (expires kind policy.now) self.old self.new effects.old effects.new
            inbox.old inbox.new }
        ensures kept { Kept I.Inbox self.old self.new inbox.old inbox.new }
        ensures calls { Settles (MakesIn I.Inbox) Stored.Done self.old self.new
            inbox.old inbox.new }
        ensures told_room { UsesAtMost 2 effects.old.told effects.new.told }
    {
        if !self.waits(kind) {
            self.set_timers(&mut effects.timers, policy, None);
            return;
        }
        match kind {
            Kind::Nak => self.expire_nak(effects, inbox, policy),
            Kind::FinishedAck => self.expire_finished(&mut effects.told, policy),
            Kind::Inactivity => {
                let handler = policy.handlers.inactivity;
                self.handle(effects, inbox, handler, Condition::INACTIVITY);
            }
            Kind::EofAck => {}
        }
        self.tidy();
        self.set_timers(&mut effects.timers, policy, anew_once_expired(kind));
    }

    /// Gives the transaction up, and says so to its sender by Finished. Changes nothing except in
    /// Receiving. Takes no memory.
    pub fn cancel<I: Inbox>(&mut self, effects: &mut Effects, inbox: &mut I, policy: &Policy)
        requires room { HasRoom self.old.addressing.id effects.old }
        requires ready { IsReady (I.staged inbox.old) self.old }
        ensures does { Performs I.Inbox (timers_set policy.now.times) Stored.Done cancels
            self.old self.new effects.old effects.new inbox.old inbox.new }
        ensures kept { Kept I.Inbox self.old self.new inbox.old inbox.new }
        ensures calls { Settles (MakesIn I.Inbox) Stored.Done self.old self.new
            inbox.old inbox.new }
    {
        if self.phase == ReceiverPhase::Receiving {
            self.discard(inbox);
            let condition = Condition::CANCEL_REQUEST;
            let told = &mut effects.told;
            self.finish(told, condition, Delivery::Incomplete, FileStatus::Discarded);
        }
        self.set_timers(&mut effects.timers, policy, None);
    }

    /// Suspends the transaction: until it is resumed nothing is sent, and no timer runs. Changes
    /// nothing except in Receiving, and nothing if it is suspended. Takes no memory.
    pub fn suspend(&mut self, effects: &mut Effects, policy: &Policy)
        requires room { HasRoom self.old.addressing.id effects.old }
        ensures does { DoesAlone policy.now.times suspends
            self.old self.new effects.old effects.new }
        ensures kept { KeptAlone self.old self.new }
    {
        if self.phase == ReceiverPhase::Receiving && !self.suspended {
            self.suspended = true;
            indicate(
                &mut effects.told,
                Indication::Suspended(self.addressing.id, Condition::SUSPEND_REQUEST),
            );
        }
        self.set_timers(&mut effects.timers, policy, None);
    }

    /// Resumes the transaction: what is waited for is armed, and what was repeated is counted from
    /// 0 again. Changes nothing if it isn't suspended. Takes no memory.
    pub fn resume(&mut self, effects: &mut Effects, policy: &Policy)
        requires room { HasRoom self.old.addressing.id effects.old }
        ensures does { DoesAlone policy.now.times resumes
            self.old self.new effects.old effects.new }
        ensures kept { KeptAlone self.old self.new }
    {
        if self.suspended {
            self.suspended = false;
            self.nak_count = 0;
            self.finished_count = 0;
            indicate(&mut effects.told, Indication::Resumed(self.addressing.id));
        }
        self.set_timers(&mut effects.timers, policy, None);
    }
}

/// Returns the timer that is armed again once one expired: Inactivity, if that is ignored.
fn anew_once_expired(kind: Kind) -> Option<Kind>
    ensures { result ≡ steps.anew_once_expired kind }
{
    match kind {
        Kind::Inactivity => Some(Kind::Inactivity),
        Kind::EofAck | Kind::Nak | Kind::FinishedAck => None,
    }
}
