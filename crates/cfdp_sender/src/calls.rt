// What the user asks of a sender.
ghost use Rattle.std.specs.Prelude.{◌≡◌};
ghost use Rattle.cfdp_timers.specs.Effects.{HasRoom};
ghost use Rattle.cfdp_sender.specs.Steps as steps;
ghost use Rattle.cfdp_sender.specs.Does.{HasTimers, Does};

use crate::phase::SenderPhase;
use crate::sender::Sender;
use cfdp_directives::{Condition, Indication, Policy, indicate};
use cfdp_timers::Effects;

impl Sender {
    /// Cancels the transaction at its user's request, with condition 15: an EOF that says so is
    /// due, and nothing of the file any more (CCSDS 727.0-B-5, 4.11.2). If it is cancelled
    /// already, or closed, it stays as it is. Takes no memory.
    ///
    /// The timers must have room for the transaction, as `open` made it.
    pub fn cancel(&mut self, effects: &mut Effects, policy: &Policy)
        requires timers { HasTimers self.old effects.old.timers }
        ensures does { Does policy.now.times (steps.sender_cancels self.old) self.new effects.old
            effects.new }
        ensures told { effects.new.told ≡ effects.old.told }
    {
        if self.phase == SenderPhase::Sending {
            self.enter_cancelling(Condition::CANCEL_REQUEST);
        }
        self.set_timers(None, &mut effects.timers, &policy.times);
    }

    /// Suspends the transaction at its user's request, with condition 14: nothing of it is sent and
    /// no timer runs until it is resumed, while PDUs are still heard. If it is suspended
    /// already, cancelled or closed, it stays as it is. Takes no memory.
    ///
    /// The effects must have room for a step of the transaction.
    pub fn suspend(&mut self, effects: &mut Effects, policy: &Policy)
        requires room { HasRoom self.old.addressing.id effects.old }
        ensures does { Does policy.now.times (steps.sender_suspends self.old) self.new effects.old
            effects.new }
    {
        if self.phase == SenderPhase::Sending && !self.suspended {
            self.suspended = true;
            let id = self.addressing.id;
            let suspended = Indication::Suspended(id, Condition::SUSPEND_REQUEST);
            indicate(&mut effects.told, suspended);
        }
        self.set_timers(None, &mut effects.timers, &policy.times);
    }

    /// Resumes the transaction: what is due is sent again, the count of EOFs begins again, and what
    /// is waited for is armed. If it isn't suspended, it stays as it is. Takes no memory.
    ///
    /// The effects must have room for a step of the transaction.
    pub fn resume(&mut self, effects: &mut Effects, policy: &Policy)
        requires room { HasRoom self.old.addressing.id effects.old }
        ensures does { Does policy.now.times (steps.sender_resumes self.old) self.new effects.old
            effects.new }
    {
        if self.phase == SenderPhase::Sending && self.suspended {
            self.suspended = false;
            self.count = 0;
            indicate(&mut effects.told, Indication::Resumed(self.addressing.id));
        }
        self.set_timers(None, &mut effects.timers, &policy.times);
    }

    /// Makes a Prompt due, for a Keep Alive or for a NAK (CCSDS 727.0-B-5, 5.2.7). If one is due
    /// already, or the transaction is cancelled or closed, all stays as it is. Takes no memory.
    ///
    /// The timers must have room for the transaction, as `open` made it.
    pub fn prompt(&mut self, effects: &mut Effects, policy: &Policy, keep_alive: bool)
        requires timers { HasTimers self.old effects.old.timers }
        ensures does { Does policy.now.times (steps.sender_prompts keep_alive self.old) self.new
            effects.old effects.new }
        ensures told { effects.new.told ≡ effects.old.told }
    {
        if self.phase == SenderPhase::Sending && self.prompt_due.is_none() {
            self.prompt_due = Some(keep_alive);
        }
        self.set_timers(None, &mut effects.timers, &policy.times);
    }
}
