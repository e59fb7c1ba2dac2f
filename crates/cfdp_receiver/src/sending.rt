// What a receiver sends.
ghost use Rattle.std.specs.Prelude.{◌≡◌, ◌≤◌, Some, is_some, IsSome, IfSome, length, true};
ghost use Rattle.std.specs.List.{flat_map};
ghost use Rattle.std.specs.FinSet as set;
ghost use Rattle.cfdp_directives.specs.Pdu.Content.{view};
ghost use Rattle.cfdp_directives.specs.Pdu.Tlv.{tlv};
ghost use Rattle.cfdp_receiver.specs.declared.due.Due.TheVariants as due_is;
ghost use Rattle.cfdp_receiver.specs.Asked.{IsAskedFrom};
ghost use Rattle.cfdp_receiver.specs.Due as dues;
ghost use Rattle.cfdp_receiver.specs.Due.{receiver_due, receiver_taken, nak_first, finished_by};
ghost use Rattle.cfdp_receiver.specs.Due.{due_len, location_told, IsWritableIn};
ghost use Rattle.cfdp_receiver.specs.Said.{said_len, CanSay, IsLenOf, Says, Writes};
ghost use Rattle.cfdp_receiver.specs.Steps as steps;
ghost use Rattle.cfdp_receiver.specs.Steps.{takes};
ghost use Rattle.cfdp_receiver.specs.Does.{DoesAlone, KeptAlone};

use crate::asked::{Asked, count_asked};
use crate::due::Due;
use crate::receiver::Receiver;
use crate::state::ReceiverPhase;
use cfdp_directives::{
    Acknowledged, Condition, Outcome, Pdu, Policy, Tlvs, TransactionStatus, nak_len,
};
use cfdp_header::Header;
use cfdp_timers::{Effects, Kind};

impl Receiver {
    /// Returns the number of octets of the PDU that is due, its header and its CRC too; `None` if
    /// none is, for example while the transaction is suspended. What is due can be written, and has
    /// at most 4,128 octets. Takes no memory.
    pub fn due(&self) -> Option<usize>
        ensures len { result ≡ due_len self.now }
        ensures short { IfSome result (λ len. len ≤ 4128) }
        ensures can_write { IfSome (receiver_due self.now) (λ d. CanSay self.now d) }
    {
        let due = self.next_due()?;
        Some(self.len_of(&due))
    }

    /// Returns `true` if a PDU is due, that is if [`due`](Self::due) answers a length, which costs
    /// more: it counts what a NAK asks for. Takes no memory.
    pub fn is_due(&self) -> bool
        ensures { result ≡ is_some (receiver_due self.now) }
    {
        self.next_due().is_some()
    }

    /// Writes the PDU that is due into the first octets of `out`, and returns how many they are.
    /// The octets after them stay. Takes no memory.
    pub fn take_pdu(&mut self, effects: &mut Effects, policy: &Policy, out: &mut [u8]) -> usize
        requires timers { set.contains effects.old.timers.roomy self.old.addressing.id ≡ true }
        requires due { IsSome (due_len self.old) }
        requires fits { IfSome (due_len self.old) (λ len. len ≤ length out.old) }
        ensures len { due_len self.old ≡ Some result }
        ensures writes { IfSome (receiver_due self.old) (λ d.
            Writes self.old d result out.old out.new) }
        ensures does { IfSome (receiver_due self.old) (λ d.
            DoesAlone policy.now.times (takes d) self.old self.new effects.old effects.new) }
        ensures told { effects.new.told ≡ effects.old.told }
        ensures kept { KeptAlone self.old self.new }
    {
        match self.next_due() {
            Some(due) => self.take_due(&due, effects, policy, out),
            None => 0,
        }
    }

    /// Writes the PDU that is due, which [`next_due`](Self::next_due) found: what
    /// [`take_pdu`](Self::take_pdu) does, without finding it again.
    pub fn take_due(
        &mut self,
        due: &Due,
        effects: &mut Effects,
        policy: &Policy,
        out: &mut [u8],
    ) -> usize
        requires timers { set.contains effects.old.timers.roomy self.old.addressing.id ≡ true }
        requires due { receiver_due self.old ≡ Some due.now }
        requires fits { said_len self.old due.now ≤ length out.old }
        ensures writes { Writes self.old due.now result out.old out.new }
        ensures does { DoesAlone policy.now.times (takes due.now) self.old self.new effects.old
            effects.new }
        ensures told { effects.new.told ≡ effects.old.told }
        ensures kept { KeptAlone self.old self.new }
    {
        // For the prover: the invariant.
        let _large = self.large;
        let len = self.send(due, out);
        self.set_timers(&mut effects.timers, policy, anew_once_taken(due));
        len
    }

    /// Returns what is due: the PDU that [`take_pdu`](Self::take_pdu) would write now.
    pub fn next_due(&self) -> Option<Due>
        ensures due { result ≡ receiver_due self.now }
        ensures writable { IfSome result (λ d. IsWritableIn self.now d) }
    {
        if self.suspended {
            return None;
        }
        if let Some(condition) = self.ack_due {
            return Some(Due::AckOfEof(condition));
        }
        match self.phase {
            ReceiverPhase::Receiving => self.due_while_receiving(),
            ReceiverPhase::Finishing => self.due_while_finishing(),
            ReceiverPhase::Closed => None,
        }
    }

    fn due_while_receiving(&self) -> Option<Due>
        requires { self.now.phase ≡ ReceiverPhase.Receiving }
        ensures due { result ≡ nak_first self.now.nak_cursor self.now }
        ensures writable { IfSome result (λ d. IsWritableIn self.now d) }
    {
        if let Some(cursor) = self.nak_cursor
            && self.is_missing(cursor)
        {
            return Some(Due::Nak(cursor));
        }
        if self.keep_alive_due {
            return Some(Due::KeepAlive);
        }
        None
    }

    fn due_while_finishing(&self) -> Option<Due>
        ensures due { result ≡ finished_by self.now.finished_due self.now.outcome }
        ensures writable { IfSome result (λ d. IsWritableIn self.now d) }
    {
        if !self.finished_due {
            return None;
        }
        match self.outcome {
            Some(outcome) => Some(Due::Finished(outcome)),
            None => None,
        }
    }

    /// Returns the number of octets of a PDU, its header and its CRC too: of the one that is due,
    /// what [`due`](Self::due) answers, without finding it again.
    pub fn len_of(&self, due: &Due) -> usize
        requires { IsWritableIn self.now due.now }
        ensures { IsLenOf self.now due.now result }
    {
        match due {
            Due::AckOfEof(condition) => self
                .addressing
                .written_len(self.large, &self.ack(*condition)),
            Due::Nak(cursor) => self.len_of_nak(*cursor),
            Due::KeepAlive => self.addressing.written_len(self.large, &self.keep_alive()),
            Due::Finished(outcome) => self
                .addressing
                .written_len(self.large, &self.finished(outcome)),
        }
    }

    /// Returns the number of octets of a NAK from an offset on, its header and its CRC too: what it
    /// asks for is counted here, and gathered once it is written.
    #[tactic(auto, using(crate::proofs::AskedLemmas::nak_fits))]
    fn len_of_nak(&self, cursor: u64) -> usize
        requires { IsWritableIn self.now (due_is.Nak cursor) }
        ensures { IsLenOf self.now (due_is.Nak cursor) result }
    {
        let gaps = self.held.missing_in(cursor, self.scope_limit());
        let pairs = count_asked(self.asks_for_metadata(cursor), gaps);
        let widths = (self.addressing.id_width, self.addressing.number_width);
        let around = Header::len_in_widths(widths.0, widths.1) + self.addressing.crc_len();
        around + nak_len(self.large, pairs)
    }

    /// Writes the PDU, and goes on after it.
    fn send(&mut self, due: &Due, out: &mut [u8]) -> usize
        requires writable { IsWritableIn self.old due.now }
        requires room { said_len self.old due.now ≤ length out.old }
        ensures writes { Writes self.old due.now result out.old out.new }
        ensures receiver { self.new ≡ receiver_taken due.now self.old }
        ensures kept { KeptAlone self.old self.new }
    {
        match due {
            Due::AckOfEof(condition) => {
                let len = self
                    .addressing
                    .write_pdu(self.large, &self.ack(*condition), out);
                self.ack_due = None;
                len
            }
            Due::Nak(cursor) => {
                let asked = self.asked(*cursor);
                let len = self
                    .addressing
                    .write_pdu(self.large, &self.nak(*cursor, &asked), out);
                self.nak_cursor = asked.next_cursor();
                len
            }
            Due::KeepAlive => {
                let len = self
                    .addressing
                    .write_pdu(self.large, &self.keep_alive(), out);
                self.keep_alive_due = false;
                len
            }
            Due::Finished(outcome) => {
                let len = self
                    .addressing
                    .write_pdu(self.large, &self.finished(outcome), out);
                self.finished_due = false;
                self.finished_taken = true;
                len
            }
        }
    }

    fn ack<'a>(&self, condition: Condition) -> Pdu<'a>
        ensures { Says self.now (due_is.AckOfEof condition) (view result) }
    {
        // For the prover: the invariant of the condition.
        let _any_condition_fits = condition.code();
        Pdu::Ack {
            of: Acknowledged::Eof,
            condition,
            status: status_in(self.phase),
        }
    }

    #[tactic(auto, using(crate::proofs::AskedLemmas::fits_field))]
    fn keep_alive<'a>(&self) -> Pdu<'a>
        ensures { Says self.now due_is.KeepAlive (view result) }
    {
        Pdu::KeepAlive {
            progress: self.held_end(),
        }
    }

    fn finished<'a>(&self, outcome: &Outcome) -> Pdu<'a>
        ensures { Says self.now (due_is.Finished outcome.now) (view result) }
    {
        let condition = outcome.condition;
        // For the prover: the invariant of the condition.
        let _any_condition_fits = condition.code();
        Pdu::Finished {
            condition,
            delivery: outcome.delivery,
            status: outcome.status,
            tlvs: self.location(condition),
        }
    }

    /// Returns the location of the transaction's fault, as its Finished says it, if it says one.
    fn location<'a>(&self, condition: Condition) -> Tlvs<'a>
        ensures value { result ≡ location_told self.now.addressing condition }
        ensures short { length (flat_map tlv result) ≤ 10 }
    {
        if condition == Condition::NO_ERROR || condition == Condition::UNSUPPORTED_CHECKSUM_TYPE {
            Tlvs::none()
        } else {
            Tlvs::fault_location_of(self.addressing.destination, self.addressing.id_width)
        }
    }

    #[tactic(auto, using(crate::proofs::AskedLemmas::fits_field))]
    fn nak<'a>(&self, cursor: u64, asked: &'a Asked) -> Pdu<'a>
        requires writable { IsWritableIn self.now (due_is.Nak cursor) }
        requires asked { IsAskedFrom cursor self.now asked.now }
        ensures { Says self.now (due_is.Nak cursor) (view result) }
    {
        Pdu::Nak {
            start: cursor,
            end: asked.scope_end(self.scope_limit()),
            requests: asked.pairs(),
        }
    }

    /// Returns what a NAK from an offset on asks for.
    fn asked(&self, cursor: u64) -> Asked
        requires { self.now.phase ≡ ReceiverPhase.Receiving }
        ensures { IsAskedFrom cursor self.now result }
    {
        let limit = self.scope_limit();
        let gaps = self.held.missing_in(cursor, limit);
        Asked::of(self.asks_for_metadata(cursor), gaps, cursor, limit)
    }
}

/// Returns the status in an ACK of EOF.
fn status_in(phase: ReceiverPhase) -> TransactionStatus
    ensures { result ≡ dues.status_in phase }
{
    match phase {
        ReceiverPhase::Receiving | ReceiverPhase::Finishing => TransactionStatus::Active,
        ReceiverPhase::Closed => TransactionStatus::Terminated,
    }
}

/// Returns the timer that is armed again once a PDU was taken.
fn anew_once_taken(due: &Due) -> Option<Kind>
    ensures { result ≡ steps.anew_once_taken due.now }
{
    match due {
        Due::Finished(_) => Some(Kind::FinishedAck),
        Due::AckOfEof(_) | Due::Nak(_) | Due::KeepAlive => None,
    }
}
