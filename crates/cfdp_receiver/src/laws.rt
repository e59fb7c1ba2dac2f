//! Laws of a receiver's steps, each the contract of a function that does nothing: a caller's proof
//! must call it to use it. `receiver_step` is one function for every input, which computes to the
//! step that a call's contract names.
ghost use Rattle.std.specs.Prelude.{◌≡◌, ◌⊎◌, ℕ, ◌+◌, ◌-◌, ◌<◌, ◌≤◌, ◌&&◌, ◌||◌, not, Bool, true};
ghost use Rattle.std.specs.Prelude.{false, List, [], ◌∷◌, ◌++◌, length, slice_get, is_some};
ghost use Rattle.std.specs.Prelude.{count_by, Option, Some, None, IsSome, Contains, if◌then◌else◌};
ghost use Rattle.std.specs.List.{list_any};
ghost use Rattle.std.specs.FinMap as map;
ghost use Rattle.std.specs.FinSet as set;
ghost use Rattle.cfdp_header.specs.declared.value.Header.{Header};
ghost use Rattle.cfdp_header.specs.declared.value.TransactionId.{TransactionId};
ghost use Rattle.cfdp_header.specs.Files.{FileMap};
ghost use Rattle.cfdp_header.specs.Ids.{same_id};
ghost use Rattle.cfdp_directives.specs.declared.pdu.addressing.Addressing.{Addressing};
ghost use Rattle.cfdp_directives.specs.declared.user.limits.Times.{Times};
ghost use Rattle.cfdp_directives.specs.declared.user.telling.Outcome.{Outcome};
ghost use Rattle.cfdp_directives.specs.Pdu.Checksum.{checksum_of};
ghost use Rattle.cfdp_directives.specs.Pdu.Sums.{sum_told};
ghost use Rattle.cfdp_directives.specs.Pdu.Codes.{filestore_rejection};
ghost use Rattle.cfdp_directives.specs.User.Completions.{is_finished};
ghost use Rattle.cfdp_directives.specs.Pdu.Content.{Content};
ghost use Rattle.cfdp_directives.specs.Pdu.Grammar.{SpellsPdu};
ghost use Rattle.cfdp_directives.specs.User.Policy.{finished_told};
ghost use Rattle.cfdp_directives.specs.User.Put.{Put, IsTruthful};
ghost use Rattle.cfdp_extents.specs.Offsets.{Offsets, is_within};
ghost use Rattle.cfdp_store.specs.declared.stored.Stored.{Stored};
ghost use Rattle.cfdp_store.specs.declared.stored.Stored.TheVariants.{Done, Refused};
ghost use Rattle.cfdp_store.specs.Staged.{OctetMap};
ghost use Rattle.cfdp_timers.specs.declared.kind.Kind.{Kind};
ghost use Rattle.cfdp_timers.specs.Armed.{TimersState, deadline_of};
ghost use Rattle.cfdp_receiver.specs.declared.state.ReceiverPhase.TheVariants.{Receiving, Closed};
ghost use Rattle.cfdp_receiver.specs.State.{ReceiverState};
ghost use Rattle.cfdp_receiver.specs.declared.due.Due.TheVariants as due;
ghost use Rattle.cfdp_receiver.specs.Due.{receiver_due};
ghost use Rattle.cfdp_receiver.specs.Pieces.{new_pieces, staged_with};
ghost use Rattle.cfdp_receiver.specs.Steps.{opens, opened_closed, waits, with_data};
ghost use Rattle.cfdp_receiver.specs.Does.{timers_set};
ghost use Rattle.cfdp_receiver.specs.Sound.{ReceiverInput, receiver_step, opens_hearing};
ghost use Rattle.cfdp_receiver.specs.Sound.{timers_opened, open_count, fault_count, held_after};
ghost use Rattle.cfdp_receiver.specs.Sound.{brings_metadata, brings_ending, PublishesNone};
ghost use Rattle.cfdp_receiver.specs.Sound.{Publishes, Sound, IsAmong, IsTrueInput, BeginsWithin};
ghost use Rattle.cfdp_receiver.specs.Sound.{PublishesPut, is_file_fault, IsReceivable, is_lacking};
ghost use Rattle.cfdp_receiver.specs.Sound.{is_tidy, owes_finished, is_bad_end, goes_well};
ghost use Rattle.cfdp_receiver.specs.Alike.{PublishesAlike};

use cfdp_directives::cut_file_has_its_checksum;
use cfdp_extents::{
    a_set_is_what_it_holds, the_end_is_one_past_the_last, the_gaps_are_those_ranges,
};
use cfdp_store::written_octets_stand;
use cfdp_timers::what_is_waited_for_is_armed;

/// File data add the octets that weren't held, at their offsets. Octets that are held keep
/// their value, and all else that is staged stays.
pub fn octets_held_keep_their_value()
    ensures staged { (m : OctetMap) (held : Offsets) (offset : ℕ) (bytes : List ℕ) (n : ℕ) →
        map.get (staged_with m (new_pieces held offset bytes)) n
        ≡ (if is_within offset (offset + length bytes) n && not (set.contains held n)
        then slice_get bytes (n - offset) else map.get m n) }
    ensures held { (r : ReceiverState) (offset : ℕ) (bytes : List ℕ) (n : ℕ) →
        set.contains (with_data offset bytes r).held n
        ≡ (set.contains r.held n || is_within offset (offset + length bytes) n) }
{
    a_set_is_what_it_holds();
    the_gaps_are_those_ranges();
    written_octets_stand();
}

/// In any step, octets that are held keep their value. While the receiver still receives, it holds
/// what it held and what came, and it knows Metadata and EOF if it did or they came.
pub fn what_comes_is_kept()
    ensures octets { (stored : Stored) (input : ReceiverInput) (m : OctetMap) (files : FileMap)
        (r : ReceiverState) (n : ℕ) → set.contains r.held n ≡ true
        → map.get (receiver_step stored input m files r).octets n ≡ map.get m n }
    ensures held { (stored : Stored) (input : ReceiverInput) (m : OctetMap) (files : FileMap)
        (r : ReceiverState) (n : ℕ) →
        (receiver_step stored input m files r).receiver.phase ≡ Receiving
        → set.contains (receiver_step stored input m files r).receiver.held n
        ≡ set.contains (held_after input r.held) n }
    ensures metadata { (stored : Stored) (input : ReceiverInput) (m : OctetMap) (files : FileMap)
        (r : ReceiverState) → (receiver_step stored input m files r).receiver.phase ≡ Receiving
        → is_some (receiver_step stored input m files r).receiver.metadata
        ≡ (is_some r.metadata || brings_metadata input) }
    ensures ending { (stored : Stored) (input : ReceiverInput) (m : OctetMap) (files : FileMap)
        (r : ReceiverState) → (receiver_step stored input m files r).receiver.phase ≡ Receiving
        → is_some (receiver_step stored input m files r).receiver.ending
        ≡ (is_some r.ending || brings_ending input) }
{
    a_set_is_what_it_holds();
    octets_held_keep_their_value();
}

/// A transaction is indicated finished at most once, and only by the step that ends its reception:
/// a receiver that no longer receives never does again. No other transaction is indicated finished.
/// How a transaction ended is known only once that was indicated. What is closed stays so.
pub fn a_transaction_is_finished_once()
    ensures same { (stored : Stored) (input : ReceiverInput) (m : OctetMap) (files : FileMap)
        (r : ReceiverState) →
        (receiver_step stored input m files r).receiver.addressing ≡ r.addressing }
    ensures once { (stored : Stored) (input : ReceiverInput) (m : OctetMap) (files : FileMap)
        (r : ReceiverState) (id : TransactionId) →
        count_by (is_finished id) (receiver_step stored input m files r).told
        + open_count (receiver_step stored input m files r).receiver.phase ≤ open_count r.phase }
    ensures own { (stored : Stored) (input : ReceiverInput) (m : OctetMap) (files : FileMap)
        (r : ReceiverState) (id : TransactionId) → same_id r.addressing.id id ≡ false
        → count_by (is_finished id) (receiver_step stored input m files r).told ≡ 0 }
    ensures stays { (stored : Stored) (input : ReceiverInput) (m : OctetMap) (files : FileMap)
        (r : ReceiverState) → r.phase ≡ Closed
        → (receiver_step stored input m files r).receiver.phase ≡ Closed }
    ensures outcome { (stored : Stored) (input : ReceiverInput) (m : OctetMap) (files : FileMap)
        (r : ReceiverState) (o : Outcome) →
        (receiver_step stored input m files r).receiver.outcome ≡ Some o
        → (r.outcome ≡ Some o) ⊎ Contains (receiver_step stored input m files r).told
        (finished_told r.addressing.id o) }
{
    a_set_is_what_it_holds();
}

/// Opening a record indicates at most that it is finished, and only if the inbox refused to begin.
pub fn an_opening_may_finish()
    ensures once { (stored : Stored) (large : Bool) (files : FileMap) (addressing : Addressing)
        (id : TransactionId) → count_by (is_finished id) (opens stored large files addressing).told
        + open_count (opens stored large files addressing).receiver.phase ≤ 1 }
    ensures own { (stored : Stored) (large : Bool) (files : FileMap) (addressing : Addressing)
        (id : TransactionId) → same_id addressing.id id ≡ false
        → count_by (is_finished id) (opens stored large files addressing).told ≡ 0 }
    ensures none { (stored : Stored) (large : Bool) (files : FileMap) (addressing : Addressing) →
        PublishesNone files (opens stored large files addressing) }
    ensures outcome { (stored : Stored) (large : Bool) (files : FileMap) (addressing : Addressing)
        (o : Outcome) → (opens stored large files addressing).receiver.outcome ≡ Some o
        → Contains (opens stored large files addressing).told (finished_told addressing.id o) }
{}

/// In Finishing, a Finished is due or was taken. It says what was indicated.
pub fn a_finished_says_what_was_indicated()
    ensures step { (stored : Stored) (input : ReceiverInput) (m : OctetMap) (files : FileMap)
        (r : ReceiverState) → owes_finished r ≡ true
        → owes_finished (receiver_step stored input m files r).receiver ≡ true }
    ensures opened { (stored : Stored) (large : Bool) (files : FileMap) (addressing : Addressing) →
        owes_finished (opens stored large files addressing).receiver ≡ true }
    ensures closed { (large : Bool) (condition : ℕ) (addressing : Addressing) →
        owes_finished (opened_closed large condition addressing) ≡ true }
    ensures says { (r : ReceiverState) (o : Outcome) →
        receiver_due r ≡ Some (due.Finished o) → r.outcome ≡ Some o }
{}

/// A NAK that is due has something to ask for, even if one that was taken left the rest to it.
pub fn a_nak_that_is_due_asks_for_something()
    ensures step { (stored : Stored) (input : ReceiverInput) (m : OctetMap) (files : FileMap)
        (r : ReceiverState) → is_tidy r ≡ true
        → is_tidy (receiver_step stored input m files r).receiver ≡ true }
    ensures opened { (stored : Stored) (large : Bool) (files : FileMap) (addressing : Addressing) →
        is_tidy (opens stored large files addressing).receiver ≡ true }
    ensures closed { (large : Bool) (condition : ℕ) (addressing : Addressing) →
        is_tidy (opened_closed large condition addressing) ≡ true }
{
    a_set_is_what_it_holds();
    the_gaps_are_those_ranges();
}

/// A step either publishes the file and indicates it complete, and then Metadata and EOF are known
/// and every offset below the EOF's size is held, or does neither.
pub fn a_whole_file_is_published()
    ensures { (stored : Stored) (input : ReceiverInput) (m : OctetMap) (files : FileMap)
        (r : ReceiverState) → PublishesNone files (receiver_step stored input m files r)
        ⊎ Publishes stored r.addressing.id r.phase (held_after input r.held) files
        (receiver_step stored input m files r) }
{
    a_set_is_what_it_holds();
}

/// What a step does never depends on the files that were published before: if others were in their
/// place, it would publish the same, and leave all else the same.
pub fn published_files_change_no_step()
    ensures step { (stored : Stored) (input : ReceiverInput) (m : OctetMap) (files other : FileMap)
        (r : ReceiverState) → PublishesAlike files other (receiver_step stored input m files r)
        (receiver_step stored input m other r) }
    ensures opened { (stored : Stored) (large : Bool) (files other : FileMap)
        (addressing : Addressing) → PublishesAlike files other
        (opens stored large files addressing) (opens stored large other addressing) }
{}

/// While a file comes in, something of it is missing: Metadata, the EOF, or an offset below its
/// size.
pub fn a_file_that_comes_in_lacks_something()
    ensures step { (stored : Stored) (input : ReceiverInput) (m : OctetMap) (files : FileMap)
        (r : ReceiverState) → is_lacking r ≡ true
        → is_lacking (receiver_step stored input m files r).receiver ≡ true }
    ensures opened { (stored : Stored) (large : Bool) (files : FileMap) (addressing : Addressing) →
        is_lacking (opens stored large files addressing).receiver ≡ true }
    ensures closed { (large : Bool) (condition : ℕ) (addressing : Addressing) →
        is_lacking (opened_closed large condition addressing) ≡ true }
{}

/// If no end without a whole file is indicated, a transaction is received or came to a whole
/// file. Faults that are ignored and suspensions change nothing of that.
pub fn what_goes_well_ends_well()
    ensures step { (stored : Stored) (input : ReceiverInput) (m : OctetMap) (files : FileMap)
        (r : ReceiverState) →
        list_any is_bad_end (receiver_step stored input m files r).told ≡ false
        → goes_well r ≡ true
        → goes_well (receiver_step stored input m files r).receiver ≡ true }
    ensures opened { (stored : Stored) (large : Bool) (files : FileMap) (addressing : Addressing) →
        list_any is_bad_end (opens stored large files addressing).told ≡ false
        → goes_well (opens stored large files addressing).receiver ≡ true }
{}

/// A fault of the inbox is indicated only if the inbox refused. If it refused and no such
/// fault is indicated, the step is the one after an inbox that did as it was asked.
pub fn a_rejection_has_a_refusal()
    ensures step { (stored : Stored) (input : ReceiverInput) (m : OctetMap) (files : FileMap)
        (r : ReceiverState) →
        0 < fault_count filestore_rejection (receiver_step stored input m files r).told
        → stored ≡ Refused }
    ensures opened { (stored : Stored) (large : Bool) (files : FileMap) (addressing : Addressing) →
        0 < fault_count filestore_rejection (opens stored large files addressing).told
        → stored ≡ Refused }
    ensures indicated { (input : ReceiverInput) (m : OctetMap) (files : FileMap)
        (r : ReceiverState) →
        fault_count filestore_rejection (receiver_step Refused input m files r).told ≡ 0
        → receiver_step Refused input m files r ≡ receiver_step Done input m files r }
{}

/// Once a receiver's timers are set, each that it waits for is armed and each other of its
/// transaction is clear. Those of other transactions are as before.
pub fn timers_are_those_waited_for()
    ensures armed { (times : Times) (anew : Option Kind) (r : ReceiverState)
        (timers : TimersState) (k : Kind) → waits k r ≡ true
        → IsSome (deadline_of (timers_set times anew r timers) r.addressing.id k) }
    ensures clear { (times : Times) (anew : Option Kind) (r : ReceiverState)
        (timers : TimersState) (k : Kind) → waits k r ≡ false
        → deadline_of (timers_set times anew r timers) r.addressing.id k ≡ None }
    ensures others { (times : Times) (anew : Option Kind) (r : ReceiverState)
        (timers : TimersState) (id : TransactionId) (k : Kind) →
        same_id r.addressing.id id ≡ false
        → deadline_of (timers_set times anew r timers) id k ≡ deadline_of timers id k }
{
    what_is_waited_for_is_armed();
}

/// A receiver that was just opened and heard the PDU that opened it has its timers, if none of them
/// was armed before. If it isn't begun, or is closed at once, it waits for none.
pub fn an_opened_receiver_has_its_timers()
    ensures armed { (times : Times) (begun stored : Stored) (large : Bool) (v : Content)
        (files : FileMap) (addressing : Addressing) (timers : TimersState) (k : Kind) →
        waits k (opens_hearing begun stored large v files addressing).receiver ≡ true
        → IsSome (deadline_of (timers_opened times begun
        (opens_hearing begun stored large v files addressing) timers) addressing.id k) }
    ensures clear { (times : Times) (begun stored : Stored) (large : Bool) (v : Content)
        (files : FileMap) (addressing : Addressing) (timers : TimersState) (k : Kind) →
        deadline_of timers addressing.id k ≡ None
        → waits k (opens_hearing begun stored large v files addressing).receiver ≡ false
        → deadline_of (timers_opened times begun
        (opens_hearing begun stored large v files addressing) timers) addressing.id k ≡ None }
    ensures others { (times : Times) (begun stored : Stored) (large : Bool) (v : Content)
        (files : FileMap) (addressing : Addressing) (timers : TimersState) (id : TransactionId)
        (k : Kind) →
        same_id addressing.id id ≡ false
        → deadline_of (timers_opened times begun
        (opens_hearing begun stored large v files addressing) timers) id k
        ≡ deadline_of timers id k }
    ensures refused { (large : Bool) (files : FileMap) (addressing : Addressing) (k : Kind) →
        waits k (opens Refused large files addressing).receiver ≡ false }
    ensures closed { (large : Bool) (condition : ℕ) (addressing : Addressing) (k : Kind) →
        waits k (opened_closed large condition addressing) ≡ false }
{
    a_transaction_is_finished_once();
    timers_are_those_waited_for();
}

/// A receiver that hears nothing but the truth of a put knows nothing but that: its Metadata and
/// EOF, the octets that are held and their checksum are the put's, and were heard. So it stays in
/// every step, whatever the inbox answers.
pub fn what_is_heard_true_is_kept_true()
    ensures step { (put : Put) (heard : List (List ℕ)) (stored : Stored) (input : ReceiverInput)
        (m : OctetMap) (files : FileMap) (r : ReceiverState) →
        IsTrueInput put heard input → Sound put heard r m
        → Sound put heard (receiver_step stored input m files r).receiver
        (receiver_step stored input m files r).octets }
    ensures opened { (put : Put) (heard : List (List ℕ)) (stored : Stored) (large : Bool)
        (files : FileMap) (addressing : Addressing) → Sound put heard
        (opens stored large files addressing).receiver
        (opens stored large files addressing).octets }
    ensures closed { (put : Put) (heard : List (List ℕ)) (large : Bool) (condition : ℕ)
        (addressing : Addressing) (m : OctetMap) →
        Sound put heard (opened_closed large condition addressing) m }
{
    a_set_is_what_it_holds();
    the_end_is_one_past_the_last();
    the_gaps_are_those_ranges();
    cut_file_has_its_checksum();
    octets_held_keep_their_value();
}

/// What was heard stays heard, and the last PDU is among those heard. Of what is staged, only the
/// octets that are held matter, and those only while the file comes in.
pub fn more_is_heard()
    ensures more { (put : Put) (heard more : List (List ℕ)) (r : ReceiverState) (m : OctetMap) →
        Sound put heard r m → Sound put (heard ++ more) r m }
    ensures among { (put : Put) (heard others : List (List ℕ)) (r : ReceiverState) (m : OctetMap) →
        ((text : List ℕ) → Contains heard text → Contains others text)
        → Sound put heard r m → Sound put others r m }
    ensures last { (put : Put) (heard : List (List ℕ)) (text : List ℕ) (h : Header)
        (v : Content) → SpellsPdu h v text → h.id ≡ put.id → IsTruthful put v
        → IsAmong put (heard ++ text ∷ []) v }
    ensures staged { (put : Put) (heard : List (List ℕ)) (r : ReceiverState) (m n : OctetMap) →
        (r.phase ≡ Receiving → (k : ℕ) → set.contains r.held k ≡ true → map.get n k ≡ map.get m k)
        → Sound put heard r m → Sound put heard r n }
{}

/// If only the truth of a put is heard, what a step publishes is the put's file under its name,
/// and the put was heard in full.
pub fn a_completion_publishes_the_put()
    ensures { (put : Put) (heard : List (List ℕ)) (stored : Stored) (input : ReceiverInput)
        (m : OctetMap) (files : FileMap) (r : ReceiverState) →
        IsTrueInput put heard input → Sound put heard r m
        → PublishesNone files (receiver_step stored input m files r)
        ⊎ PublishesPut put heard r.addressing.id files (receiver_step stored input m files r) }
{
    a_set_is_what_it_holds();
    the_end_is_one_past_the_last();
    the_gaps_are_those_ranges();
    cut_file_has_its_checksum();
    octets_held_keep_their_value();
}

/// If only the truth of a put is heard, and all of its file is held, the checksum is the file's.
/// No fault of the checksum, the size or the checksum type is indicated, if the put can be
/// received.
pub fn a_true_file_raises_no_fault()
    ensures sum { (put : Put) (heard : List (List ℕ)) (r : ReceiverState) (m : OctetMap) →
        Sound put heard r m → r.phase ≡ Receiving
        → ((n : ℕ) → n < length put.octets → set.contains r.held n ≡ true)
        → sum_told put.checksum_kind r.sums ≡ checksum_of put.checksum_kind put.octets }
    ensures none { (put : Put) (heard : List (List ℕ)) (stored : Stored) (input : ReceiverInput)
        (m : OctetMap) (files : FileMap) (r : ReceiverState) →
        IsReceivable put → IsTrueInput put heard input → BeginsWithin put input
        → Sound put heard r m
        → list_any is_file_fault (receiver_step stored input m files r).told ≡ false }
{
    a_set_is_what_it_holds();
    the_end_is_one_past_the_last();
    the_gaps_are_those_ranges();
    cut_file_has_its_checksum();
    octets_held_keep_their_value();
}
