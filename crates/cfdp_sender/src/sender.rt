// One sender, and what it waits for.
ghost use Rattle.std.specs.Prelude.{◌≡◌, ◌+◌, ◌<◌, ◌≤◌, ◌++◌, [], ◌∷◌, true, vec_len, vec_capacity};
ghost use Rattle.std.specs.Prelude.{is_some, IfOk, OnOk, OnErr};
ghost use Rattle.std.specs.FinSet as set;
ghost use Rattle.cfdp_header.specs.declared.value.TransactionId.{TransactionId};
ghost use Rattle.cfdp_directives.specs.declared.user.indication.Indication.TheVariants as indication;
ghost use Rattle.cfdp_sender.specs.State.{IsSendable, IsSender, opened_sender};
ghost use Rattle.cfdp_sender.specs.Due as dues;
ghost use Rattle.cfdp_sender.specs.Steps as steps;
ghost use Rattle.cfdp_sender.specs.Steps.{sender_waits};
ghost use Rattle.cfdp_sender.specs.Does.{HasTimers, timers_set};

use crate::names::Names;
use crate::phase::SenderPhase;
use crate::transfer::Transfer;
use cfdp_directives::{
    Addressing, ChecksumKind, Checksums, Condition, Delivery, FileStatus, Indication, Outcome,
    Phase, Times, indicate,
};
use cfdp_extents::Extents;
use cfdp_header::TransactionId;
use cfdp_timers::{Effects, Kind, Timers, Wait, Waits, is_anew};
use std::alloc::{AllocError, Global};
use std::marker::Model;

/// The sending side of one transaction (CCSDS 727.0-B-5, 4.6.1.1): what was sent of its file, what
/// is due, and what is waited for. The time is that of the timers.
///
/// ```text
///            open
///              |                  Finished arrives: reported; ACK due
///              v      +-------------------------------------------------------+
///         +---------+ |                                                       v
///         | Sending |-+   limit reached, handler Abandon                  +--------+
///         +---------+---------------------------------------------------> | Closed |--+ Finished
///              | cancel, or a fault that cancels                          +--------+  | arrives:
///              v                                                              ^  ^----+ ACK due
///         +------------+  ACK of its EOF, or Finished: reported as cancelled; |
///         | Cancelling |------------------------------------------------------+
///         +------------+  limit reached: Abandoned
/// ```
///
/// It keeps no octet of the file, but what its checksum needs of the front that was sent. A closed
/// one keeps neither the names nor what was asked for. Only `open` and `on_nak` take memory.
#[derive(Debug, Drop)]
pub struct Sender {
    pub(crate) addressing: Addressing,
    pub(crate) checksum_kind: ChecksumKind,
    pub(crate) segment: u16,
    pub(crate) names: Names,
    pub(crate) size: u64,
    pub(crate) phase: SenderPhase,
    pub(crate) suspended: bool,
    pub(crate) sent: u64,
    pub(crate) sums: Checksums,
    pub(crate) asked: Extents,
    pub(crate) metadata_due: bool,
    pub(crate) prompt_due: Option<bool>,
    pub(crate) eof_due: bool,
    pub(crate) eof_taken: bool,
    pub(crate) acknowledged: bool,
    pub(crate) ack_due: Option<Condition>,
    pub(crate) condition: Condition,
    pub(crate) count: u8,
}

impl Model for Sender {
    ghost use Rattle.std.specs.Coded.{codes, coded_ℕ};
    ghost use Rattle.std.specs.Ordering.{nat_cmp};
    ghost use Rattle.std.specs.FinSet as set;
    ghost use Rattle.cfdp_sender.specs.State.{SenderState};

    ghost Value = { SenderState };

    ghost coded = { Prim.hlevel (codes, set.code {R = nat_cmp} coded_ℕ) };

    ghost use Rattle.cfdp_sender.specs.Inside.{state_of, IsInside};

    ghost view = { state_of };

    ghost invariant = { IsInside };
}

impl Sender {
    /// Opens the sender of a put, indicates Transaction, and makes room for its timers. Metadata is
    /// due then, and no timer is waited for.
    ///
    /// What it sends must be sendable, as `Transfer::is_sendable` says, and there must be room
    /// for three more indications.
    ///
    /// # Errors
    ///
    /// `AllocError` if there is no memory for its timers. All is then unchanged.
    pub fn open(
        alloc: Global,
        effects: &mut Effects,
        transfer: Transfer,
    ) -> Result<Sender, AllocError>
        requires sendable { IsSendable transfer }
        requires room { vec_len effects.old.told + 3 ≤ vec_capacity effects.old.told }
        ensures opens { IfOk result (λ sender. sender ≡ opened_sender transfer) }
        ensures tells { OnOk result (effects.new.told.items
            ≡ effects.old.told.items ++ indication.Transaction transfer.addressing.id ∷ []) }
        ensures timers { OnOk result (effects.new.timers ≡ record effects.old.timers
            { roomy = set.insert effects.old.timers.roomy transfer.addressing.id }) }
        // So its timers can be armed, and those of others as before.
        ensures has_room { OnOk result (HasTimers (opened_sender transfer) effects.new.timers) }
        ensures keeps { (other : TransactionId)
            → set.contains effects.old.timers.roomy other ≡ true
            → set.contains effects.new.timers.roomy other ≡ true }
        ensures err { OnErr result (effects.new ≡ effects.old) }
    {
        let id = transfer.addressing.id;
        effects.timers.room(id)?;
        indicate(&mut effects.told, Indication::Transaction(id));
        Ok(Sender {
            addressing: transfer.addressing,
            checksum_kind: transfer.checksum_kind,
            segment: transfer.segment,
            names: Names::new(transfer.source, transfer.destination),
            size: transfer.size,
            phase: SenderPhase::Sending,
            suspended: false,
            sent: 0,
            sums: Checksums::new(),
            asked: Extents::new(alloc),
            metadata_due: true,
            prompt_due: None,
            eof_due: false,
            eof_taken: false,
            acknowledged: false,
            ack_due: None,
            condition: Condition::NO_ERROR,
            count: 0,
        })
    }

    /// Returns how far it has come.
    pub fn phase(&self) -> Phase
        ensures { result ≡ dues.phase_told self.now.phase }
    {
        match self.phase {
            SenderPhase::Sending => Phase::Sending,
            SenderPhase::Cancelling => Phase::Cancelling,
            SenderPhase::Closed => Phase::Closed,
        }
    }

    /// Returns the offset up to which octets of the file were sent, even if they didn't come.
    pub fn progress(&self) -> u64
        ensures { result ≡ self.now.sent }
    {
        self.sent
    }

    /// Returns the transaction.
    pub fn id(&self) -> TransactionId
        ensures { result ≡ self.now.addressing.id }
    {
        self.addressing.id
    }

    /// Returns `true` if it is sending the file that the outbox has under this name.
    pub fn sends_file(&self, name: &[u8]) -> bool
        ensures { result ≡ dues.sends_file name.now self.now }
    {
        self.phase == SenderPhase::Sending && self.names.source() == name
    }

    /// Returns `true` if it is suspended: nothing is sent then, and nothing is waited for.
    pub fn is_suspended(&self) -> bool
        ensures { result ≡ self.now.suspended }
    {
        self.suspended
    }

    /// Returns `true` if a Prompt is due.
    pub fn has_prompt_due(&self) -> bool
        ensures { result ≡ is_some self.now.prompt_due }
    {
        self.prompt_due.is_some()
    }

    /// A law: for every sender, whatever may be due can be written, and its data are in the file.
    pub fn every_sender_can_send(&self)
        ensures { IsSender self.now }
    {
        // For the prover: the invariant.
        let _size = self.size;
    }

    // Returns `true` if it waits for this timer.
    pub(crate) fn waits(&self, kind: Kind) -> bool
        ensures { result ≡ sender_waits kind self.now }
    {
        if self.suspended {
            return false;
        }
        match (kind, self.phase) {
            (Kind::EofAck, SenderPhase::Sending) => {
                self.eof_taken && !self.eof_due && !self.acknowledged
            }
            (Kind::EofAck, SenderPhase::Cancelling) => self.eof_taken && !self.eof_due,
            (Kind::Inactivity, SenderPhase::Sending) => self.acknowledged,
            _ => false,
        }
    }

    // Arms what is waited for, and clears the other timers.
    pub(crate) fn set_timers(&self, anew: Option<Kind>, timers: &mut Timers, times: &Times)
        requires { HasTimers self.now timers.old }
        ensures { timers.new ≡ timers_set times.now anew self.now timers.old }
    {
        let waits = Waits {
            eof_ack: Wait::of(
                self.waits(Kind::EofAck),
                is_anew(anew, Kind::EofAck),
                times.eof,
            ),
            nak: Wait::of(self.waits(Kind::Nak), is_anew(anew, Kind::Nak), times.nak),
            finished_ack: Wait::of(
                self.waits(Kind::FinishedAck),
                is_anew(anew, Kind::FinishedAck),
                times.finished,
            ),
            inactivity: Wait::of(
                self.waits(Kind::Inactivity),
                is_anew(anew, Kind::Inactivity),
                times.inactivity,
            ),
        };
        timers.set(self.addressing.id, &waits);
    }

    // Cancels the transaction because of an error: its EOF is due, and no more of the file.
    pub(crate) fn enter_cancelling(&mut self, condition: Condition)
        requires { 0 < condition }
        ensures { self.new ≡ steps.cancelling condition self.old }
    {
        // For the prover: the invariant of the condition.
        let _code = condition.code();
        self.asked.clear();
        self.phase = SenderPhase::Cancelling;
        self.suspended = false;
        self.metadata_due = false;
        self.prompt_due = None;
        self.eof_due = true;
        self.condition = condition;
        self.count = 0;
    }

    // Closes it, and ends a suspension. Its record may stay for long until it is forgotten: so
    // memory releases the names, and what was asked for.
    pub(crate) fn close(&mut self)
        ensures { self.new ≡ steps.closed self.old }
    {
        self.phase = SenderPhase::Closed;
        self.suspended = false;
        self.names.let_go();
        self.asked.clear();
    }

    // Returns what a cancelled transaction comes to.
    pub(crate) fn cancelled(&self) -> Outcome
        ensures { result ≡ steps.cancelled self.now }
    {
        Outcome {
            condition: self.condition,
            delivery: Delivery::Incomplete,
            status: FileStatus::Unreported,
        }
    }
}
