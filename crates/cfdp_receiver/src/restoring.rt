// How a receiver is restored after a restart of its station.
ghost use Rattle.std.specs.Prelude.{◌≡◌, ◌<◌, ◌≤◌, ◌↔◌, ℕ, true, None, IfOk, IfSome};
ghost use Rattle.std.specs.Prelude.{OnOk, OnErr, IsTrue};
ghost use Rattle.std.specs.FinSet as set;
ghost use Rattle.std.specs.Option.{option_map};
ghost use Rattle.cfdp_directives.specs.Pdu.Codes as codes;
ghost use Rattle.cfdp_receiver.specs.Back.{IsCommitted, received_from};
ghost use Rattle.cfdp_receiver.specs.Does.{timers_set, with_room};

use crate::receiver::Receiver;
use crate::state::{Ending, FileInfo, ReceiverPhase};
use cfdp_directives::{Addressing, Checksums, Outcome, Policy, size_limit};
use cfdp_extents::Extents;
use cfdp_timers::Effects;
use std::alloc::{AllocError, Global};

/// What a journal keeps of a receiver, except the parts of its file that it holds.
#[derive(Debug, Drop)]
pub struct CommittedReceiver {
    /// The transaction, its two ends, and how wide they are written.
    pub addressing: Addressing,
    /// `true` if a PDU with the large file flag was received.
    pub large: bool,
    /// How far the receiver has come.
    pub phase: ReceiverPhase,
    /// `true` if it is suspended. It must be in `Receiving` then.
    pub suspended: bool,
    /// What Metadata said, if it was received.
    pub metadata: Option<FileInfo>,
    /// What the EOF without an error said, if it was received.
    pub ending: Option<Ending>,
    /// How the transaction ended.
    pub outcome: Option<Outcome>,
}

impl CommittedReceiver {
    /// Returns `true` if a receiver can be restored from this: its ids fit their widths, it is
    /// suspended only in `Receiving`, and the size of its file is at most the greatest size, by the
    /// large file flag.
    pub fn is_valid(&self) -> bool
        ensures { IsTrue result ↔ IsCommitted self.now }
    {
        self.addressing.is_writable()
            && (!self.suspended || self.phase == ReceiverPhase::Receiving)
            && self.has_size()
    }

    // Returns `true` if the size of its file, if it is known, is at most the greatest size.
    fn has_size(&self) -> bool
        ensures { IsTrue result ↔ IfSome self.now.ending
            (λ e. e.size ≤ codes.size_limit self.now.large) }
    {
        match self.ending {
            Some(ending) => ending.size <= size_limit(self.large),
            None => true,
        }
    }
}

impl Receiver {
    /// Restores a receiver from what a journal kept of it, with the parts of its file that are held
    /// and their sums. If it receives no more, it holds nothing. Its timers are set, each from now
    /// on.
    ///
    /// # Errors
    ///
    /// `AllocError` if there is no memory for its timers. All is then unchanged.
    #[tactic(auto, using(crate::proofs::Held::none_held))]
    pub fn restored(
        alloc: Global,
        effects: &mut Effects,
        policy: &Policy,
        kept: CommittedReceiver,
        held: Extents,
        sums: Checksums,
    ) -> Result<Receiver, AllocError>
        requires committed { IsCommitted kept }
        requires below { (n : ℕ) → set.contains held n ≡ true → n < codes.size_limit kept.large }
        ensures receiver { IfOk result (λ r. r ≡ received_from held sums kept) }
        ensures timers { IfOk result (λ r. effects.new.timers
            ≡ timers_set policy.now.times None r (with_room kept.addressing.id effects.old).timers) }
        ensures told { OnOk result (effects.new.told ≡ effects.old.told) }
        ensures keeps { OnErr result (effects.new ≡ effects.old) }
    {
        effects.timers.room(kept.addressing.id)?;
        let mut receiver = Receiver::new(alloc, kept.addressing);
        let phase = kept.phase;
        receiver.large = kept.large;
        receiver.suspended = kept.suspended;
        receiver.metadata = kept.metadata;
        receiver.outcome = kept.outcome;
        match phase {
            ReceiverPhase::Receiving => {
                receiver.held = held;
                receiver.sums = sums;
                receiver.nak_cursor = if kept.ending.is_some() { Some(0) } else { None };
                receiver.ending = kept.ending;
                receiver.tidy();
            }
            ReceiverPhase::Finishing => {
                receiver.ending = kept.ending;
                receiver.phase = phase;
                receiver.finished_due = true;
                receiver.finished_taken = true;
            }
            ReceiverPhase::Closed => {
                receiver.ending = kept.ending;
                receiver.phase = phase;
            }
        }
        receiver.set_timers(&mut effects.timers, policy, None);
        Ok(receiver)
    }

    /// Returns the transaction, its two ends, and how wide they are written.
    pub fn addressing(&self) -> Addressing
        ensures { result ≡ self.now.addressing }
    {
        self.addressing
    }

    /// Returns `true` if a PDU with the large file flag was received.
    pub fn is_large(&self) -> bool
        ensures { result ≡ self.now.large }
    {
        self.large
    }

    /// Returns how far the receiver has come, as a journal keeps it.
    pub fn kept_phase(&self) -> ReceiverPhase
        ensures { result ≡ self.now.phase }
    {
        self.phase
    }

    /// Returns what Metadata said, if it was received.
    pub fn metadata(&self) -> Option<&FileInfo>
        ensures { option_map (λ info. info.now) result ≡ self.now.metadata }
    {
        self.metadata.as_ref()
    }

    /// Returns what the EOF without an error said, if it was received.
    pub fn ending(&self) -> Option<Ending>
        ensures { result ≡ self.now.ending }
    {
        self.ending
    }

    /// Returns how the transaction ended, if it did.
    pub fn outcome(&self) -> Option<Outcome>
        ensures { result ≡ self.now.outcome }
    {
        self.outcome
    }

    /// Returns the parts of the file that are held: none if it receives no more.
    pub fn held(&self) -> &Extents
        ensures { result.now ≡ self.now.held }
    {
        &self.held
    }
}
