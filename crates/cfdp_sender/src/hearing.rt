// What a sender hears.
ghost use Rattle.std.specs.Prelude.{◌≡◌, ◌+◌, ◌≤◌, ◌++◌, vec_len, vec_capacity, OnOk, OnErr};
ghost use Rattle.cfdp_timers.specs.Effects.{HasRoom};
ghost use Rattle.cfdp_sender.specs.declared.phase.SenderPhase.TheVariants as phases;
ghost use Rattle.cfdp_sender.specs.Steps as steps;
ghost use Rattle.cfdp_sender.specs.Does.{HasTimers, Leaves, Does, AsksSome};

use crate::phase::SenderPhase;
use crate::sender::Sender;
use cfdp_directives::{Condition, Indication, Outcome, Policy, SegmentRequests, indicate};
use cfdp_timers::{Effects, Kind};
use std::alloc::AllocError;

impl Sender {
    /// Hears an ACK of EOF, with its condition (CCSDS 727.0-B-5, 5.2.4). If it has no error, it
    /// acknowledges the EOF that was sent. If the transaction is cancelled, the ACK that has the
    /// condition of the cancel closes it, and Finished is indicated. Takes no memory.
    ///
    /// The effects must have room for a step of the transaction.
    pub fn on_ack(&mut self, effects: &mut Effects, policy: &Policy, condition: Condition)
        requires room { HasRoom self.old.addressing.id effects.old }
        ensures does { Does policy.now.times (steps.sender_hears_ack condition self.old) self.new
            effects.old effects.new }
    {
        self.hear_ack(condition, &mut effects.told);
        self.set_timers(Some(Kind::Inactivity), &mut effects.timers, &policy.times);
    }

    // The row of an ACK of EOF.
    fn hear_ack(&mut self, condition: Condition, told: &mut Vec<Indication>)
        requires room { vec_len told.old + 1 ≤ vec_capacity told.old }
        ensures { Leaves (steps.sender_hears_ack condition self.old) self.new told.old told.new }
    {
        match self.phase {
            SenderPhase::Sending => {
                if self.eof_taken && condition == Condition::NO_ERROR {
                    self.acknowledged = true;
                    self.eof_due = false;
                }
            }
            SenderPhase::Cancelling => {
                if condition == self.condition {
                    indicate(told, self.cancelled().indication(self.addressing.id));
                    self.close();
                }
            }
            SenderPhase::Closed => {}
        }
    }

    /// Hears a Finished (CCSDS 727.0-B-5, 5.2.3). It closes the transaction, and is acknowledged
    /// however often it comes. The first time it is indicated: as it says, or, if the transaction
    /// was cancelled before, that it was. Takes no memory.
    ///
    /// The effects must have room for a step of the transaction.
    pub fn on_finished(&mut self, effects: &mut Effects, policy: &Policy, outcome: Outcome)
        requires room { HasRoom self.old.addressing.id effects.old }
        ensures does { Does policy.now.times (steps.sender_hears_finished outcome self.old) self.new
            effects.old effects.new }
    {
        self.hear_finished(outcome, &mut effects.told);
        self.set_timers(Some(Kind::Inactivity), &mut effects.timers, &policy.times);
    }

    // The row of a Finished.
    fn hear_finished(&mut self, outcome: Outcome, told: &mut Vec<Indication>)
        requires room { vec_len told.old + 1 ≤ vec_capacity told.old }
        ensures { Leaves (steps.sender_hears_finished outcome self.old) self.new told.old told.new }
    {
        self.tell_end(&outcome, told);
        self.close();
        self.ack_due = Some(outcome.condition);
    }

    // Indicates how it ended, if that wasn't indicated before.
    fn tell_end(&self, outcome: &Outcome, told: &mut Vec<Indication>)
        requires room { vec_len told.old + 1 ≤ vec_capacity told.old }
        ensures { told.new.items
            ≡ told.old.items ++ steps.end_told self.now.phase outcome.now self.now }
    {
        match self.phase {
            SenderPhase::Sending => indicate(told, outcome.indication(self.addressing.id)),
            SenderPhase::Cancelling => {
                indicate(told, self.cancelled().indication(self.addressing.id));
            }
            SenderPhase::Closed => {}
        }
    }

    /// Hears a Keep Alive, with the offset up to which the receiver holds the file (CCSDS
    /// 727.0-B-5, 5.2.8). If the file is being sent, that is indicated. Takes no memory.
    ///
    /// The effects must have room for a step of the transaction.
    pub fn on_keep_alive(&mut self, effects: &mut Effects, policy: &Policy, progress: u64)
        requires room { HasRoom self.old.addressing.id effects.old }
        ensures does { Does policy.now.times (steps.sender_hears_keep_alive progress self.old)
            self.new effects.old effects.new }
    {
        if self.phase == SenderPhase::Sending {
            indicate(
                &mut effects.told,
                Indication::Progress(self.addressing.id, progress),
            );
        }
        self.set_timers(Some(Kind::Inactivity), &mut effects.timers, &policy.times);
    }

    /// Hears a NAK, with its requested ranges (CCSDS 727.0-B-5, 5.2.6). If the file is being sent,
    /// the pair (0, 0) makes Metadata due again, and each other range its offsets that were sent;
    /// an empty range and the scope of the NAK ask for nothing. Nothing is indicated.
    ///
    /// The timers must have room for the transaction, as `open` made it.
    ///
    /// # Errors
    ///
    /// `AllocError` if there is no memory for one more range. Some of the pairs, from the first on,
    /// may have been asked for, and nothing else has changed.
    pub fn on_nak(
        &mut self,
        effects: &mut Effects,
        policy: &Policy,
        pairs: &SegmentRequests<'_>,
    ) -> Result<(), AllocError>
        requires timers { HasTimers self.old effects.old.timers }
        ensures does { OnOk result (Does policy.now.times
            (steps.sender_hears_nak pairs.now self.old) self.new effects.old effects.new) }
        ensures err { OnErr result
            (AsksSome pairs.now self.old self.new × (effects.new ≡ effects.old)) }
        ensures told { effects.new.told ≡ effects.old.told }
    {
        self.hear_nak(pairs)?;
        self.set_timers(Some(Kind::Inactivity), &mut effects.timers, &policy.times);
        Ok(())
    }

    // The row of a NAK.
    fn hear_nak(&mut self, pairs: &SegmentRequests<'_>) -> Result<(), AllocError>
        ensures ok { OnOk result (self.new ≡ steps.asks_in self.old.phase pairs.now self.old) }
        ensures err { OnErr result (AsksSome pairs.now self.old self.new) }
        ensures same { self.new.addressing ≡ self.old.addressing }
    {
        if self.phase == SenderPhase::Sending {
            self.ask_all(pairs)?;
        }
        Ok(())
    }

    // Asks for what each pair of a NAK names.
    fn ask_all(&mut self, pairs: &SegmentRequests<'_>) -> Result<(), AllocError>
        ensures ok { OnOk result (self.new ≡ steps.asks_all pairs.now self.old) }
        ensures err { OnErr result (self.old.phase ≡ phases.Sending →
            AsksSome pairs.now self.old self.new) }
        ensures same { self.new.addressing ≡ self.old.addressing }
    {
        for (start, end) in pairs {
            self.ask(start, end)?;
        }
        Ok(())
    }

    // Asks for what one pair names.
    fn ask(&mut self, start: u64, end: u64) -> Result<(), AllocError>
        ensures ok { OnOk result (self.new ≡ steps.asks (start, end) self.old) }
        ensures err { OnErr result (self.new ≡ self.old) }
        ensures same { self.new.addressing ≡ self.old.addressing }
    {
        if start == 0 && end == 0 {
            self.metadata_due = true;
            return Ok(());
        }
        let end = end.min(self.sent);
        if start < end {
            return self.asked.insert(start, end);
        }
        Ok(())
    }
}
