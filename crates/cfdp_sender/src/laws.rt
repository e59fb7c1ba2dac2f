//! Laws of senders, each the contract of a function that does nothing.
ghost use Rattle.std.specs.Prelude.{◌≡◌, ◌≤◌, ℕ, false, List, [], ◌∷◌, length, take, is_some};
ghost use Rattle.std.specs.Prelude.{Option, Some, Contains};
ghost use Rattle.cfdp_header.specs.declared.value.TransactionId.{TransactionId};
ghost use Rattle.cfdp_header.specs.Ids.{same_id};
ghost use Rattle.cfdp_timers.specs.declared.kind.Kind.{Kind};
ghost use Rattle.cfdp_timers.specs.Armed.{TimersState, deadline_of};
ghost use Rattle.cfdp_directives.specs.declared.pdu.codes.Delivery.TheVariants.{Complete};
ghost use Rattle.cfdp_directives.specs.declared.pdu.codes.FileStatus.TheVariants.{Retained};
ghost use Rattle.cfdp_directives.specs.declared.user.indication.Indication.TheVariants as indications;
ghost use Rattle.cfdp_directives.specs.declared.user.limits.Times.{Times};
ghost use Rattle.cfdp_directives.specs.declared.user.policy.Policy.{Policy};
ghost use Rattle.cfdp_directives.specs.Pdu.Checksum.{checksum_of};
ghost use Rattle.cfdp_directives.specs.Pdu.Codes.{no_error, filestore_rejection};
ghost use Rattle.cfdp_directives.specs.Pdu.Content.{Eof};
ghost use Rattle.cfdp_directives.specs.User.Put.{Put, IsTruthful};
ghost use Rattle.cfdp_directives.specs.Pdu.Tlv.{fault_location};
ghost use Rattle.cfdp_sender.specs.declared.phase.SenderPhase.TheVariants.{Sending, Cancelling};
ghost use Rattle.cfdp_sender.specs.declared.due.SenderDue.{SenderDue};
ghost use Rattle.cfdp_sender.specs.declared.due.SenderDue.TheVariants as dues;
ghost use Rattle.cfdp_sender.specs.declared.transfer.Transfer.{Transfer};
ghost use Rattle.cfdp_sender.specs.State.{SenderState, IsSender, opened_sender, transfer_of};
ghost use Rattle.cfdp_sender.specs.InFile.{IsInFile};
ghost use Rattle.cfdp_sender.specs.Due.{sender_due, sender_says};
ghost use Rattle.cfdp_sender.specs.Steps.{sender_waits};
ghost use Rattle.cfdp_sender.specs.Does.{AsksSome, timers_set};
ghost use Rattle.cfdp_sender.specs.Inputs.{SenderInput, HearsFinished, MayHappen, sender_step};
ghost use Rattle.cfdp_sender.specs.Inputs.{put_of, IsSenderOf, FinishesOnce, IsFailedRead};
ghost use Rattle.cfdp_sender.specs.Inputs.{delivered, RestsOnceClosed};

/// What a sender must send stays the same, whatever happens to it: the transaction, its two ends,
/// the names and the size. So its file is still there, and its timers still have room.
pub fn a_sender_keeps_what_it_sends()
    ensures step { (policy : Policy) (file : List ℕ) (input : SenderInput) (x : SenderState) →
        transfer_of (sender_step policy file input x).sender ≡ transfer_of x }
    ensures partly { (pairs : List (ℕ × ℕ)) (x y : SenderState) → AsksSome pairs x y
        → transfer_of y ≡ transfer_of x }
{}

/// A sender that is closed isn't suspended, and nothing of its file is asked for: whatever happens
/// to it before and after.
pub fn a_closed_sender_rests()
    ensures opened { (t : Transfer) → RestsOnceClosed (opened_sender t) }
    ensures stays { (policy : Policy) (file : List ℕ) (input : SenderInput) (x : SenderState) →
        RestsOnceClosed x → MayHappen input x
        → RestsOnceClosed (sender_step policy file input x).sender }
    ensures partly { (pairs : List (ℕ × ℕ)) (x y : SenderState) → AsksSome pairs x y
        → RestsOnceClosed y }
{}

/// What a sender has due is in its file. This holds of every sender, once it is opened, and
/// whatever happens to it.
pub fn what_is_due_is_in_the_file()
    ensures held { (x : SenderState) → IsSender x → IsInFile x }
    ensures opened { (t : Transfer) → 1 ≤ t.segment → IsInFile (opened_sender t) }
    ensures stays { (policy : Policy) (file : List ℕ) (input : SenderInput) (x : SenderState) →
        IsInFile x → MayHappen input x → IsInFile (sender_step policy file input x).sender }
{}

/// Each PDU that a sender of a put sends is true: Metadata, file data and an EOF without an
/// error are truthful. It is a sender of the put once it is opened, and stays one whatever happens
/// to it, even if a NAK is heard in part.
pub fn a_sender_says_what_is_so()
    ensures truthful { (put : Put) (x : SenderState) (d : SenderDue) →
        IsInFile x → IsSenderOf put x → sender_due x ≡ Some d
        → IsTruthful put (sender_says put.octets x d) }
    ensures opened { (t : Transfer) (file : List ℕ) → length file ≡ t.size
        → IsSenderOf (put_of t file) (opened_sender t) }
    ensures stays { (put : Put) (policy : Policy) (input : SenderInput) (x : SenderState) →
        IsInFile x → IsSenderOf put x → MayHappen input x
        → IsSenderOf put (sender_step policy put.octets input x).sender }
    ensures partly { (put : Put) (pairs : List (ℕ × ℕ)) (x y : SenderState) →
        IsSenderOf put x → AsksSome pairs x y → IsSenderOf put y }
{
    cfdp_directives::checksums_go_on();
}

/// The EOF of a sender of a put has the checksum and the size of the whole file, and no error. If
/// the transaction is cancelled, its EOF has those of the front that was sent, and names this end.
pub fn an_eof_has_the_checksum_of_what_was_sent()
    ensures whole { (put : Put) (x : SenderState) → IsSender x → IsSenderOf put x →
        x.phase ≡ Sending → sender_due x ≡ Some dues.Eof
        → sender_says put.octets x dues.Eof
        ≡ Eof no_error (checksum_of put.checksum_kind put.octets) (length put.octets) [] }
    ensures front { (put : Put) (x : SenderState) → IsSenderOf put x → x.phase ≡ Cancelling
        → sender_says put.octets x dues.Eof
        ≡ Eof x.condition (checksum_of put.checksum_kind (take x.sent put.octets)) x.sent
        (fault_location put.id.source x.addressing.id_width ∷ []) }
{
    cfdp_directives::checksums_go_on();
}

/// At most one Finished is ever indicated of a transaction: a step that indicates one closes it,
/// and if it is closed, it stays so and indicates none. Steps indicate none of other transactions.
pub fn a_sender_finishes_once()
    ensures { (policy : Policy) (file : List ℕ) (input : SenderInput) (x : SenderState) →
        MayHappen input x → FinishesOnce x (sender_step policy file input x) }
{}

/// That the file was delivered is indicated only if a Finished was heard that says so.
pub fn told_complete_by_a_finished_alone()
    ensures { (policy : Policy) (file : List ℕ) (input : SenderInput) (x : SenderState)
        (id : TransactionId) →
        Contains (sender_step policy file input x).told
        (indications.Finished id no_error Complete Retained)
        → input ≡ HearsFinished delivered }
{}

/// The fault of a filestore is indicated only if the outbox failed to give data.
pub fn a_source_fault_comes_of_a_failed_read()
    ensures { (policy : Policy) (file : List ℕ) (input : SenderInput) (x : SenderState)
        (id : TransactionId) →
        Contains (sender_step policy file input x).told (indications.Fault id filestore_rejection)
        → IsFailedRead input }
{}

/// After each step a timer of the transaction is armed if and only if the sender waits for it, and
/// those of other transactions are as they were.
pub fn a_sender_waits_with_armed_timers()
    ensures armed { (times : Times) (anew : Option Kind) (x : SenderState) (timers : TimersState)
        (kind : Kind) →
        is_some (deadline_of (timers_set times anew x timers) x.addressing.id kind)
        ≡ sender_waits kind x }
    ensures others { (times : Times) (anew : Option Kind) (x : SenderState) (timers : TimersState)
        (other : TransactionId) (kind : Kind) → same_id x.addressing.id other ≡ false
        → deadline_of (timers_set times anew x timers) other kind
        ≡ deadline_of timers other kind }
{
    cfdp_timers::what_is_waited_for_is_armed();
}
