// How a transaction ends, and the completion test.
ghost use Rattle.std.specs.Prelude.{◌≡◌, ◌+◌, ◌≤◌, ◌++◌, ◌∷◌, [], vec_len, vec_capacity, false};
ghost use Rattle.cfdp_directives.specs.User.Policy.{finished_told, fault_told};
ghost use Rattle.cfdp_directives.specs.Pdu.Codes.{filestore_rejection};
ghost use Rattle.cfdp_timers.specs.Effects.{UsesAtMost};
ghost use Rattle.cfdp_receiver.specs.State.{is_receiving};
ghost use Rattle.cfdp_receiver.specs.Steps as steps;
ghost use Rattle.cfdp_receiver.specs.Steps.{ended, finishing, faulted, completed};
ghost use Rattle.cfdp_receiver.specs.Does.{Advances, IsOpen, LetsGo, Performs, timers_kept};

use crate::receiver::Receiver;
use crate::state::{Ending, FileInfo, ReceiverPhase};
use cfdp_directives::{
    ChecksumKind, Checksums, Condition, Delivery, FileStatus, Handler, Indication, Outcome,
    indicate, indicate_fault,
};
use cfdp_header::TransactionId;
use cfdp_store::{Inbox, Stored};
use cfdp_timers::Effects;

impl Receiver {
    /// Receives no more, and releases all that it kept for that.
    #[tactic(auto, using(crate::proofs::Held::none_held))]
    pub(crate) fn end(&mut self, phase: ReceiverPhase)
        requires { is_receiving phase ≡ false }
        ensures { self.new ≡ ended phase self.old }
    {
        self.phase = phase;
        self.suspended = false;
        self.held.clear();
        self.sums = Checksums::new();
        self.nak_cursor = None;
        self.keep_alive_due = false;
        self.finished_due = false;
        self.finished_taken = false;
        self.nak_count = 0;
        self.finished_count = 0;
    }

    /// Indicates how the transaction ended: Finished is due.
    pub(crate) fn finish(
        &mut self,
        told: &mut Vec<Indication>,
        condition: Condition,
        delivery: Delivery,
        status: FileStatus,
    )
        requires { vec_len told.old + 1 ≤ vec_capacity told.old }
        ensures receiver { self.new ≡ finishing
            (record { condition = condition; delivery = delivery; status = status }) self.old }
        ensures tells { told.new.items ≡ told.old.items ++ finished_told self.old.addressing.id
            (record { condition = condition; delivery = delivery; status = status }) ∷ [] }
        ensures told_room { UsesAtMost 1 told.old told.new }
    {
        tell_finished(told, self.addressing.id, condition, delivery, status);
        self.end(ReceiverPhase::Finishing);
        self.finished_due = true;
        self.outcome = Some(Outcome {
            condition,
            delivery,
            status,
        });
    }

    /// Discards what is staged for the transaction. If the inbox fails, nothing else follows.
    pub(crate) fn discard<I: Inbox>(&self, inbox: &mut I)
        ensures { LetsGo I.Inbox self.now.addressing.id inbox.old inbox.new }
    {
        let _ = inbox.discard(self.addressing.id);
    }

    /// Ends the transaction with a fault.
    pub(crate) fn fault<I: Inbox>(
        &mut self,
        told: &mut Vec<Indication>,
        inbox: &mut I,
        condition: Condition,
    )
        requires { vec_len told.old + 2 ≤ vec_capacity told.old }
        ensures receiver { self.new ≡ finishing (steps.failed condition) self.old }
        ensures tells { told.new.items ≡ told.old.items
            ++ (fault_told Handler.Cancel self.old.addressing.id condition
            ++ finished_told self.old.addressing.id (steps.failed condition) ∷ []) }
        ensures told_room { UsesAtMost 2 told.old told.new }
        ensures lets_go { LetsGo I.Inbox self.old.addressing.id inbox.old inbox.new }
    {
        self.discard(inbox);
        indicate_fault(told, Handler::Cancel, self.addressing.id, condition);
        self.finish(
            told,
            condition,
            Delivery::Incomplete,
            status_after(condition),
        );
    }

    /// Makes the completion test, and does what follows: if Metadata and EOF were heard and all of
    /// the file is held, the file is published if the checksum agrees.
    #[tactic(auto, using(crate::proofs::StagedLemmas::staged_is))]
    pub(crate) fn complete<I: Inbox>(&mut self, effects: &mut Effects, inbox: &mut I) -> Stored
        requires ready { IsOpen I.Inbox 2 self.old effects.old inbox.old }
        ensures advances { Advances I.Inbox result (completed result)
            self.old self.new effects.old effects.new inbox.old inbox.new }
        ensures refused { result ≡ Stored.Refused
            → Performs I.Inbox timers_kept result (faulted filestore_rejection)
            self.old self.new effects.old effects.new inbox.old inbox.new }
    {
        let (Some(info), Some(ending)) = (&self.metadata, self.ending) else {
            return Stored::Done;
        };
        if !self.held.covers(0, ending.size) {
            return Stored::Done;
        }
        if !agrees(info, &ending, &self.sums) {
            self.fault(&mut effects.told, inbox, Condition::FILE_CHECKSUM_FAILURE);
            return Stored::Done;
        }
        let name = info.destination.as_slice();
        match inbox.publish(self.addressing.id, name, ending.size) {
            Ok(()) => {
                let condition = Condition::NO_ERROR;
                let told = &mut effects.told;
                self.finish(told, condition, Delivery::Complete, FileStatus::Retained);
                Stored::Done
            }
            Err(_) => {
                self.fault(&mut effects.told, inbox, Condition::FILESTORE_REJECTION);
                Stored::Refused
            }
        }
    }
}

/// Returns `true` if the checksum of the held octets agrees with the EOF's, or if it is the null
/// checksum, which isn't compared.
fn agrees(info: &FileInfo, ending: &Ending, sums: &Checksums) -> bool
    ensures { result ≡ steps.agrees info.now ending.now sums.now }
{
    let kind = info.checksum_kind;
    kind == ChecksumKind::NULL || sums.value(kind) == ending.checksum
}

/// Returns the status of the file if its transaction fails with this condition.
fn status_after(condition: Condition) -> FileStatus
    ensures { result ≡ steps.status_after condition }
{
    if condition == Condition::FILESTORE_REJECTION {
        FileStatus::Rejected
    } else {
        FileStatus::Discarded
    }
}

/// Indicates that a transaction is over.
pub(crate) fn tell_finished(
    told: &mut Vec<Indication>,
    id: TransactionId,
    condition: Condition,
    delivery: Delivery,
    status: FileStatus,
)
    requires { vec_len told.old + 1 ≤ vec_capacity told.old }
    ensures tells { told.new.items ≡ told.old.items ++ finished_told id
        (record { condition = condition; delivery = delivery; status = status }) ∷ [] }
    ensures told_room { UsesAtMost 1 told.old told.new }
{
    indicate(
        told,
        Indication::Finished {
            id,
            condition,
            delivery,
            status,
        },
    );
}
