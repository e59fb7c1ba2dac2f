// How a sender is restored after a restart of its station.
ghost use Rattle.std.specs.Prelude.{◌≡◌, ◌≤◌, ◌↔◌, true, None, IfOk, IfSome, IsSome, IsTrue};
ghost use Rattle.std.specs.Prelude.{OnOk, OnErr};
ghost use Rattle.std.specs.FinSet as set;
ghost use Rattle.cfdp_directives.specs.Pdu.Sums.{SumsFit};
ghost use Rattle.cfdp_sender.specs.Back.{IsCommitted, eof_due_in, sent_from};
ghost use Rattle.cfdp_sender.specs.Does.{timers_set};
ghost use Rattle.cfdp_sender.specs.Inside.{KeepsNames};
ghost use Rattle.cfdp_sender.specs.State.{IsCause};

use crate::names::Names;
use crate::phase::SenderPhase;
use crate::sender::Sender;
use crate::transfer::Transfer;
use cfdp_directives::{Addressing, ChecksumKind, Checksums, Condition, Octets, Times};
use cfdp_extents::Extents;
use cfdp_timers::Effects;
use std::alloc::{AllocError, Global};

/// What a journal keeps of a sender, except how much of its file was sent.
#[derive(Debug, Drop)]
pub struct CommittedSender {
    /// What it sends, and how.
    pub transfer: Transfer,
    /// How far the sender has come.
    pub phase: SenderPhase,
    /// `true` if it is suspended. It must be in `Sending` then.
    pub suspended: bool,
    /// `true` if an EOF was sent.
    pub eof_taken: bool,
    /// `true` if an EOF without an error was acknowledged.
    pub acknowledged: bool,
    /// Why it was cancelled. It must be an error in `Cancelling`.
    pub condition: Condition,
}

impl CommittedSender {
    /// Returns `true` if a sender can be restored from this: its transfer is sendable, it is
    /// cancelled only because of an error, and it is suspended only in `Sending`.
    pub fn is_valid(&self) -> bool
        ensures { IsTrue result ↔ IsCommitted self.now }
    {
        self.transfer.is_sendable()
            && self.has_cause()
            && (!self.suspended || self.phase == SenderPhase::Sending)
    }

    // Returns `true` if it isn't being cancelled, or is because of an error.
    fn has_cause(&self) -> bool
        ensures { IsTrue result ↔ IsCause self.now.phase self.now.condition }
    {
        match self.phase {
            SenderPhase::Cancelling => self.condition != Condition::NO_ERROR,
            SenderPhase::Sending | SenderPhase::Closed => true,
        }
    }
}

impl Sender {
    /// Restores a sender from what a journal kept of it, after this number of octets of its file,
    /// with their sums. Its timers are set, each from now on.
    ///
    /// # Errors
    ///
    /// `AllocError` if there is no memory for its timers. All is then unchanged.
    pub fn restored(
        alloc: Global,
        effects: &mut Effects,
        times: &Times,
        kept: CommittedSender,
        sent: u64,
        sums: Checksums,
    ) -> Result<Sender, AllocError>
        requires committed { IsCommitted kept }
        requires sent { sent ≤ kept.transfer.size }
        requires sums { SumsFit sums }
        ensures sender { IfOk result (λ x. x ≡ sent_from sent sums kept) }
        ensures timers { IfOk result (λ x. effects.new.timers ≡ timers_set times.now None x
            (record effects.old.timers
            { roomy = set.insert effects.old.timers.roomy kept.transfer.addressing.id })) }
        ensures told { OnOk result (effects.new.told ≡ effects.old.told) }
        ensures keeps { OnErr result (effects.new ≡ effects.old) }
    {
        let transfer = kept.transfer;
        effects.timers.room(transfer.addressing.id)?;
        let names = names_in(kept.phase, transfer.source, transfer.destination);
        // For the prover: the invariant of the condition.
        let _code = kept.condition.code();
        let sender = Sender {
            addressing: transfer.addressing,
            checksum_kind: transfer.checksum_kind,
            segment: transfer.segment,
            names,
            size: transfer.size,
            phase: kept.phase,
            suspended: kept.suspended,
            sent,
            sums,
            asked: Extents::new(alloc),
            metadata_due: kept.phase == SenderPhase::Sending && sent == 0,
            prompt_due: None,
            eof_due: has_eof_due(kept.phase, kept.eof_taken, kept.acknowledged),
            eof_taken: kept.eof_taken,
            acknowledged: kept.acknowledged,
            ack_due: None,
            condition: kept.condition,
            count: 0,
        };
        sender.set_timers(None, &mut effects.timers, times);
        Ok(sender)
    }

    /// Returns the transaction, its two ends, and how wide they are written.
    pub fn addressing(&self) -> Addressing
        ensures { result ≡ self.now.addressing }
    {
        self.addressing
    }

    /// Returns how the file's checksum is made.
    pub fn checksum_kind(&self) -> ChecksumKind
        ensures { result ≡ self.now.checksum_kind }
    {
        self.checksum_kind
    }

    /// Returns the most octets of the file that one PDU carries.
    pub fn segment(&self) -> u16
        ensures { result ≡ self.now.segment }
    {
        self.segment
    }

    /// Returns the file's name in the outbox and its name at the receiver, while memory has them:
    /// until the transaction is closed.
    pub fn names(&self) -> Option<(&[u8], &[u8])>
        ensures source { IfSome result (λ names. names.0.now ≡ self.now.source) }
        ensures destination { IfSome result (λ names. names.1.now ≡ self.now.destination) }
        ensures some { self.now.phase ≡ SenderPhase.Sending → IsSome result }
    {
        self.names.both()
    }

    /// Returns the number of octets of the file.
    pub fn size(&self) -> u64
        ensures { result ≡ self.now.size }
    {
        self.size
    }

    /// Returns how far the sender has come, as a journal keeps it.
    pub fn kept_phase(&self) -> SenderPhase
        ensures { result ≡ self.now.phase }
    {
        self.phase
    }

    /// Returns `true` if an EOF was sent.
    pub fn is_eof_taken(&self) -> bool
        ensures { result ≡ self.now.eof_taken }
    {
        self.eof_taken
    }

    /// Returns `true` if an EOF without an error was acknowledged.
    pub fn is_acknowledged(&self) -> bool
        ensures { result ≡ self.now.acknowledged }
    {
        self.acknowledged
    }

    /// Returns why the transaction was cancelled: no error if it wasn't.
    pub fn condition(&self) -> Condition
        ensures { result ≡ self.now.condition }
    {
        self.condition
    }
}

// Returns the names of a sender of this phase: a closed one doesn't keep them.
fn names_in(phase: SenderPhase, source: Octets, destination: Octets) -> Names
    ensures source { result.source ≡ source }
    ensures destination { result.destination ≡ destination }
    ensures kept { KeepsNames phase result.kept }
{
    let mut names = Names::new(source, destination);
    if phase == SenderPhase::Closed {
        names.let_go();
    }
    names
}

// Returns `true` if an EOF is due after a restart.
fn has_eof_due(phase: SenderPhase, taken: bool, acknowledged: bool) -> bool
    ensures { result ≡ eof_due_in phase taken acknowledged }
{
    match phase {
        SenderPhase::Sending => taken && !acknowledged,
        SenderPhase::Cancelling => true,
        SenderPhase::Closed => false,
    }
}
