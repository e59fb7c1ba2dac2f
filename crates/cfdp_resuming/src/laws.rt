//! The laws, each the contract of a function without a body.
ghost use Rattle.std.specs.Prelude.{◌≡◌, ◌≤◌, ℕ, true, length, take, slice_get, List};
ghost use Rattle.std.specs.Prelude.{Option, Some, None, IsSome, IsTrue, [], ◌∷◌, ◌++◌};
ghost use Rattle.std.specs.FinMap as map;
ghost use Rattle.std.specs.FinSet as set;
ghost use Rattle.cfdp_header.specs.declared.value.TransactionId.{TransactionId};
ghost use Rattle.cfdp_header.specs.Files.{FileMap};
ghost use Rattle.cfdp_directives.specs.User.Put.{Put};
ghost use Rattle.cfdp_directives.specs.declared.user.indication.Indication.{Indication};
ghost use Rattle.cfdp_directives.specs.Pdu.Sums.{all_summed, nothing_summed};
ghost use Rattle.cfdp_extents.specs.Offsets.{Offsets};
ghost use Rattle.cfdp_store.specs.Staged.{OctetMap};
ghost use Rattle.cfdp_directives.specs.declared.pdu.sums.Checksums.{Checksums};
ghost use Rattle.cfdp_sender.specs.State.{SenderState, IsCause};
ghost use Rattle.cfdp_sender.specs.Inputs.{IsSenderOf, front_sums};
ghost use Rattle.cfdp_sender.specs.InFile.{IsInFile};
ghost use Rattle.cfdp_directives.specs.declared.pdu.addressing.Addressing.{Addressing};
ghost use Rattle.cfdp_receiver.specs.State.{ReceiverState, kind_told, opened_receiver};
ghost use Rattle.cfdp_receiver.specs.Sound.{Sound, is_lacking, is_tidy, goes_well, owes_finished};
ghost use Rattle.cfdp_receiver.specs.Back.{received_back};
ghost use Rattle.cfdp_sender.specs.Back.{committed_of, sent_back};
ghost use Rattle.cfdp_resuming.specs.Later.{AreLater, IsLater, IsLaterSeen};
ghost use Rattle.cfdp_resuming.specs.Committed.{ComesAsEver, ComesBackAs, IsBack};
ghost use Rattle.cfdp_entity.specs.Exchanging.{with_told};
ghost use Rattle.cfdp_entity.specs.Restoring.{RestoresSender};
ghost use Rattle.cfdp_entity.specs.Seen.{Seen, Receives, Sends};
ghost use Rattle.cfdp_entity.specs.History.{Leads};
ghost use Rattle.cfdp_entity.specs.Table.{Entry, TableState};
ghost use Rattle.cfdp_receiver.specs.Sound.{ReceiverInput, receiver_step};
ghost use Rattle.cfdp_receiver.specs.declared.state.ReceiverPhase.TheVariants.{Receiving};
ghost use Rattle.cfdp_store.specs.declared.stored.Stored.{Stored};
ghost use Rattle.cfdp_entity.specs.Entity.{EntityState};
ghost use Rattle.cfdp_entity.specs.Sound.{IsSound};
ghost use Rattle.cfdp_resuming.specs.Sender.{IsRestoredSender};
ghost use Rattle.cfdp_resuming.specs.Receiver.{IsRestoredReceiver, SumsStaged};
ghost use Rattle.cfdp_resuming.specs.Anew.{AreReadOf, all_read};
ghost use Rattle.cfdp_resuming.specs.OneByOne.{AreStagedAgain, BeginsAs, IsLeftOf, RestoresEach};
ghost use Rattle.cfdp_resuming.specs.Entity.{ComesBack, IsResumed, IsRestored};

use cfdp_directives::cut_file_has_its_checksum;
use cfdp_extents::a_set_is_what_it_holds;
use cfdp_receiver::{a_transaction_is_finished_once, what_comes_is_kept};
use cfdp_sender::a_sender_keeps_what_it_sends;

/// If the held octets of a file are read, range by range in order, or in shorter pieces, that gives
/// the sums of the file.
pub fn what_is_read_anew_is_summed()
    ensures { (wanted : Option ℕ) (held : Offsets) (ranges : List (ℕ × ℕ)) (m : OctetMap) →
        AreReadOf held ranges
        → ((n : ℕ) → set.contains held n ≡ true → IsSome (map.get m n))
        → SumsStaged wanted held m (all_summed wanted nothing_summed (all_read m ranges)) }
{
    cut_file_has_its_checksum();
    a_set_is_what_it_holds();
}

/// A restored receiver knows nothing but the truth of its put, if the receiver before the kill did.
pub fn a_restored_receiver_knows_the_truth()
    ensures { (put : Put) (heard : List (List ℕ)) (r s : ReceiverState) (m n : OctetMap) →
        IsRestoredReceiver r m s n → Sound put heard r m → Sound put heard s n }
{}

/// A restored sender sends the put that it sent before the kill.
pub fn a_restored_sender_sends_its_put()
    ensures { (put : Put) (x s : SenderState) → IsRestoredSender put.octets x s
        → IsSenderOf put x → IsInFile x → IsSenderOf put s × IsInFile s }
{}

/// A receiver that is restored with some of what it held is restored in the sense of
/// `IsRestoredReceiver`, and so is a sender. What recovery asks of a receiver stays true: it lacks
/// something while it receives, a NAK that is due asks for something, and it must send a Finished
/// if it ended well.
pub fn what_comes_back_is_true()
    ensures restored { (r : ReceiverState) (m : OctetMap) (held : Offsets) (sums : Checksums)
        (n : OctetMap) →
        ((k : ℕ) → set.contains held k ≡ true → set.contains r.held k ≡ true)
        → ((k : ℕ) → set.contains held k ≡ true → map.get n k ≡ map.get m k)
        → SumsStaged (kind_told r.metadata) held n sums
        → IsRestoredReceiver r m (received_back held sums r) n }
    ensures lacking { (held : Offsets) (sums : Checksums) (r : ReceiverState) →
        ((k : ℕ) → set.contains held k ≡ true → set.contains r.held k ≡ true)
        → is_lacking r ≡ true → is_lacking (received_back held sums r) ≡ true }
    ensures tidy { (held : Offsets) (sums : Checksums) (r : ReceiverState) →
        is_tidy (received_back held sums r) ≡ true }
    ensures well { (held : Offsets) (sums : Checksums) (r : ReceiverState) →
        goes_well r ≡ true → goes_well (received_back held sums r) ≡ true }
    ensures owes { (held : Offsets) (sums : Checksums) (r : ReceiverState) →
        owes_finished r ≡ true → owes_finished (received_back held sums r) ≡ true }
    ensures sender { (file : List ℕ) (sent : ℕ) (sums : Checksums) (x : SenderState) →
        sent ≤ x.size → sums ≡ front_sums x.checksum_kind (take sent file)
        → IsCause x.phase x.condition → IsRestoredSender file x (sent_back sent sums x) }
{}

/// Each step of a receiver makes it a later one (`IsLater`), and so do several. What was committed
/// of a receiver restores each later one, with any part of what was held at the commit if the later
/// one still receives, and with nothing held if it doesn't.
pub fn a_committed_receiver_comes_back()
    ensures step { (stored : Stored) (input : ReceiverInput) (m : OctetMap) (files : FileMap)
        (r : ReceiverState) → IsLater r m (receiver_step stored input m files r).receiver
        (receiver_step stored input m files r).octets }
    ensures more { (r s t : ReceiverState) (m n o : OctetMap) → IsLater r m s n
        → IsLater s n t o → IsLater r m t o }
    ensures back { (r s : ReceiverState) (m n o : OctetMap) (held : Offsets) (sums : Checksums) →
        IsLater r m s n → ((k : ℕ) → set.contains held k ≡ true → (s.phase ≡ Receiving)
        × (set.contains r.held k ≡ true) × (map.get o k ≡ map.get n k))
        → SumsStaged (kind_told r.metadata) held o sums
        → IsRestoredReceiver s n (received_back held sums r) o }
{
    what_comes_is_kept();
    a_transaction_is_finished_once();
    a_set_is_what_it_holds();
}

/// All steps that a table makes after a commit make each of its records a later one, at the same
/// index. So what was committed of the records restores them.
pub fn records_come_to_something_later()
    ensures { (old new : TableState) → Leads old new → AreLater old.records new.records }
{
    a_committed_receiver_comes_back();
    a_sender_keeps_what_it_sends();
}

/// What was committed of a record, at whatever time, restores what the record is now. An entity
/// that is restored from a commit resumes, whatever steps it made since, if none of them published
/// a file. If its user received nothing of what it indicated since, all that the user received
/// stays indicated.
pub fn a_committed_entity_resumes()
    ensures each { (sources : FileMap) (saved old new : Seen) → IsLaterSeen saved old
        → IsBack sources saved old new → IsRestored sources old new }
    ensures ever { (sources : FileMap) (old : List Entry) (e : Entry) →
        ComesAsEver sources old e → ComesBack sources old e }
    ensures entity { (saved old new : EntityState) → ComesBackAs saved old new
        → IsResumed old new }
    ensures received { (saved old new : EntityState) → ComesBackAs saved old new
        → old.table.gone ≤ length saved.table.told
        → take old.table.gone new.table.told ≡ take old.table.gone old.table.told }
{
    records_come_to_something_later();
}

/// If an entity restores a sender from what was committed of it, it has one record more, after the
/// others. If the files of the outbox stand, this record is restored from what was committed,
/// whatever the sender was when the station was killed.
pub fn a_restored_sender_was_committed()
    ensures { (x y : SenderState) (sent : ℕ) (old new : EntityState) →
        RestoresSender (committed_of x) sent old new → IsTrue new.table.stands →
        (s : Seen) × ((new.table.records ≡ old.table.records ++ (x.addressing.id, s) ∷ [])
        × IsBack new.table.sources (Sends x) (Sends y) s) }
{}

/// An entity resumes if the records of the killed one are restored on it in their order, as
/// `restore_sender` and `restore_receiver` do: after some front of each file, and with some of what
/// was held. Records may be left out if their transactions are forgotten. The files of the outbox
/// must stand while they are read, and what is held must be staged as it was before the kill. If
/// nothing is held, that is so.
///
/// What the killed entity indicated must stay, as far as `IsLeftOf` says. Of a sound entity
/// everything that it indicated is enough.
pub fn an_entity_whose_records_are_restored_resumes()
    ensures resumes { (put_of : TransactionId → Option Put) (heard : List (List ℕ))
        (first : FileMap) (old begun mid : EntityState) (told : List Indication) (gone : ℕ) →
        IsSound put_of heard first old → BeginsAs old begun →
        RestoresEach old.table.records begun mid → IsTrue mid.table.stands →
        AreStagedAgain old.table.records mid.table.records → IsLeftOf old told →
        IsResumed old (with_told told gone mid) }
    ensures told { (put_of : TransactionId → Option Put) (heard : List (List ℕ))
        (first : FileMap) (old : EntityState) → IsSound put_of heard first old →
        IsLeftOf old old.table.told }
{}

/// What `IsResumed` asks can be met: a sound entity resumes as it was if, for each receiver that
/// receives, the sums are those of the octets that are staged (`SumsStaged`). If a receiver
/// was just opened, they are.
pub fn an_entity_may_resume_as_it_was()
    ensures entity { (put_of : TransactionId → Option Put) (heard : List (List ℕ))
        (first : FileMap) (e : EntityState) → IsSound put_of heard first e
        → ((place : ℕ) (id : TransactionId) (r : ReceiverState) (m : OctetMap) →
        slice_get e.table.records place ≡ Some (id, Receives r m) → r.phase ≡ Receiving
        → SumsStaged (kind_told r.metadata) r.held m r.sums) → IsResumed e e }
    ensures opened { (a : Addressing) (m : OctetMap) →
        SumsStaged None (opened_receiver a).held m (opened_receiver a).sums }
{
    cut_file_has_its_checksum();
}

/// An entity that resumes is as sound as it was: it knows and sends the truth of puts, and
/// indicates no transaction finished twice, before and after the kill together.
pub fn a_resumed_entity_is_sound()
    ensures { (put_of : TransactionId → Option Put) (heard : List (List ℕ)) (first : FileMap)
        (old new : EntityState) → IsResumed old new → IsSound put_of heard first old
        → IsSound put_of heard first new }
{
    a_restored_receiver_knows_the_truth();
    a_restored_sender_sends_its_put();
}
