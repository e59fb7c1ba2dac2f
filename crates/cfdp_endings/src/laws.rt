//! Laws of records that nobody answers any more, each the contract of a function that does nothing.
ghost use Rattle.std.specs.Prelude.{◌≡◌, ℕ, ◌+◌, ◌*◌, ◌<◌, ◌≤◌, Bool, true, false, List};
ghost use Rattle.cfdp_directives.specs.declared.user.limits.Limits.{Limits};
ghost use Rattle.cfdp_directives.specs.declared.user.policy.Policy.{Policy};
ghost use Rattle.cfdp_sender.specs.declared.transfer.Transfer.{Transfer};
ghost use Rattle.cfdp_sender.specs.State.{SenderState, opened_sender};
ghost use Rattle.cfdp_sender.specs.Does.{AsksSome};
ghost use Rattle.cfdp_sender.specs.Inputs.{SenderInput, sender_step};
ghost use Rattle.cfdp_sender.specs.declared.phase.SenderPhase.TheVariants as phases;
ghost use Rattle.cfdp_header.specs.Files.{FileMap};
ghost use Rattle.cfdp_directives.specs.declared.pdu.addressing.Addressing.{Addressing};
ghost use Rattle.cfdp_store.specs.declared.stored.Stored.{Stored};
ghost use Rattle.cfdp_store.specs.Staged.{OctetMap};
ghost use Rattle.cfdp_receiver.specs.declared.state.ReceiverPhase.TheVariants as receiver_phases;
ghost use Rattle.cfdp_receiver.specs.State.{ReceiverState};
ghost use Rattle.cfdp_receiver.specs.Steps.{opens, opened_closed};
ghost use Rattle.cfdp_receiver.specs.Sound.{ReceiverInput, receiver_step, owes_finished};
ghost use Rattle.cfdp_endings.specs.Limits.{TellsEnd};
ghost use Rattle.cfdp_endings.specs.Receiver.{receiver_open, receiver_left, ReceiverGoesOn};
ghost use Rattle.cfdp_endings.specs.Receiver.{ReceiverAlone, ReceiverRuns, ReceiverGivesUp};
ghost use Rattle.cfdp_endings.specs.Receiver.{ReceiverEnds};
ghost use Rattle.cfdp_endings.specs.Receiver as receiving;
ghost use Rattle.cfdp_endings.specs.Sender.{owes_eof, sender_open, sender_left, SenderGoesOn};
ghost use Rattle.cfdp_endings.specs.Sender.{SenderAlone, SenderRuns, SenderGivesUp, SenderEnds};
ghost use Rattle.cfdp_endings.specs.Sender as sending;
ghost use Rattle.std.specs.Prelude.{◌≢◌, length, slice_get, Option, Some};
ghost use Rattle.cfdp_header.specs.declared.value.TransactionId.{TransactionId};
ghost use Rattle.cfdp_directives.specs.Pdu.Faults.{pdu_fault};
ghost use Rattle.cfdp_timers.specs.declared.kind.Kind.{Kind};
ghost use Rattle.cfdp_entity.specs.declared.error.EntityDrop.{EntityDrop};
ghost use Rattle.cfdp_entity.specs.declared.request.Request.{Request};
ghost use Rattle.cfdp_entity.specs.Config.{IsConfig};
ghost use Rattle.cfdp_entity.specs.declared.config.EntityConfig.{EntityConfig};
ghost use Rattle.cfdp_entity.specs.Entity.{Counted, EntityState, first_entity, with_table};
ghost use Rattle.cfdp_entity.specs.Forgetting.{Forgets, ForgetsSome};
ghost use Rattle.cfdp_entity.specs.Hearing.{DropsOctets, HearsOctets};
ghost use Rattle.cfdp_entity.specs.Polling.{Rests, served, turn};
ghost use Rattle.cfdp_entity.specs.Putting.{Accepts};
ghost use Rattle.cfdp_entity.specs.Requests.{IsCalled};
ghost use Rattle.cfdp_entity.specs.Table.{Entry, Ticks};
ghost use Rattle.cfdp_entity.specs.Timed.{is_armed};
ghost use Rattle.cfdp_endings.specs.Entity.{AllAwake, AllOver, AreRounds, EntryGoesOn, Ends};
ghost use Rattle.cfdp_endings.specs.Entity.{GivesUp, IsLively, IsRound};
ghost use Rattle.cfdp_endings.specs.Entity.{NoneOpen, most_left, open_count, records_left};
ghost use Rattle.cfdp_endings.specs.Entity.{seen_open};
ghost use Rattle.cfdp_endings.specs.Dues.{ArePolls, entity_dues};

use cfdp_receiver::a_finished_says_what_was_indicated;
use cfdp_sender::what_is_due_is_in_the_file;

/// If a sender is open, that is neither closed nor suspended, it has a PDU due or waits for a
/// timer. This holds of every sender, once it is opened, and whatever happens to it.
pub fn a_sender_is_never_silent()
    ensures goes_on { (x : SenderState) → owes_eof x ≡ true → sender_open x ≡ true
        → SenderGoesOn x }
    ensures opened { (t : Transfer) → owes_eof (opened_sender t) ≡ true }
    ensures stays { (policy : Policy) (file : List ℕ) (input : SenderInput) (x : SenderState) →
        owes_eof x ≡ true → owes_eof (sender_step policy file input x).sender ≡ true }
    ensures partly { (pairs : List (ℕ × ℕ)) (x y : SenderState) → AsksSome pairs x y
        → owes_eof y ≡ true }
{}

/// If a sender hears nothing more, it ends by its limits: once as many timers have expired as
/// `sender_left` says, it is closed or suspended, and closed if no handler suspends it. That
/// is indicated. At most that takes twice the tries of an EOF.
pub fn a_sender_ends_by_its_limits()
    ensures lowers { (policy : Policy) (file : List ℕ) (input : SenderInput) (x : SenderState) →
        SenderGivesUp policy → SenderAlone input x
        → sending.expiry input
        + sender_left policy.limits (sender_step policy file input x).sender
        ≤ sender_left policy.limits x }
    ensures run { (policy : Policy) (file : List ℕ) (inputs : List SenderInput)
        (old new : SenderState) → SenderGivesUp policy → SenderRuns policy file inputs old new
        → sending.expiries inputs + sender_left policy.limits new
        ≤ sender_left policy.limits old }
    ensures ends { (policy : Policy) (file : List ℕ) (inputs : List SenderInput)
        (old new : SenderState) → SenderGivesUp policy → SenderRuns policy file inputs old new
        → sender_left policy.limits old ≤ sending.expiries inputs → sender_open new ≡ false }
    ensures closes { (policy : Policy) (file : List ℕ) (inputs : List SenderInput)
        (old new : SenderState) → SenderEnds policy → SenderRuns policy file inputs old new
        → old.suspended ≡ false → sender_left policy.limits old ≤ sending.expiries inputs
        → new.phase ≡ phases.Closed }
    ensures told { (policy : Policy) (file : List ℕ) (input : SenderInput) (x : SenderState) →
        SenderAlone input x → sender_open x ≡ true
        → sender_open (sender_step policy file input x).sender ≡ false
        → TellsEnd x.addressing.id (sender_step policy file input x).told }
    ensures most { (limits : Limits) (x : SenderState) →
        sender_left limits x ≤ 2 * (limits.eof + 1) }
{}

/// If a receiver is open, that is neither closed nor suspended, it has a PDU due or waits for a
/// timer. This holds of every receiver, once it is opened, and whatever happens to it.
pub fn a_receiver_is_never_silent()
    ensures goes_on { (r : ReceiverState) → owes_finished r ≡ true → receiver_open r ≡ true
        → ReceiverGoesOn r }
    ensures opened { (stored : Stored) (large : Bool) (files : FileMap) (addressing : Addressing) →
        owes_finished (opens stored large files addressing).receiver ≡ true }
    ensures closed { (large : Bool) (condition : ℕ) (addressing : Addressing) →
        owes_finished (opened_closed large condition addressing) ≡ true }
    ensures stays { (stored : Stored) (input : ReceiverInput) (m : OctetMap) (files : FileMap)
        (r : ReceiverState) → owes_finished r ≡ true
        → owes_finished (receiver_step stored input m files r).receiver ≡ true }
{
    a_finished_says_what_was_indicated();
}

/// If a receiver hears nothing more, it ends by its limits: once as many timers have expired as
/// `receiver_left` says, it is closed or suspended, and closed if no handler suspends it. That
/// is indicated. At most that takes the tries of a NAK and those of a Finished.
pub fn a_receiver_ends_by_its_limits()
    ensures lowers { (policy : Policy) (stored : Stored) (input : ReceiverInput) (m : OctetMap)
        (files : FileMap) (r : ReceiverState) →
        ReceiverGivesUp policy → ReceiverAlone policy input r
        → receiving.expiry input
        + receiver_left policy.limits (receiver_step stored input m files r).receiver
        ≤ receiver_left policy.limits r }
    ensures run { (policy : Policy) (inputs : List ReceiverInput) (m : OctetMap)
        (files : FileMap) (old new : ReceiverState) →
        ReceiverGivesUp policy → ReceiverRuns policy inputs m files old new
        → receiving.expiries inputs + receiver_left policy.limits new
        ≤ receiver_left policy.limits old }
    ensures ends { (policy : Policy) (inputs : List ReceiverInput) (m : OctetMap)
        (files : FileMap) (old new : ReceiverState) →
        ReceiverGivesUp policy → ReceiverRuns policy inputs m files old new
        → receiver_left policy.limits old ≤ receiving.expiries inputs
        → receiver_open new ≡ false }
    ensures closes { (policy : Policy) (inputs : List ReceiverInput) (m : OctetMap)
        (files : FileMap) (old new : ReceiverState) →
        ReceiverEnds policy → ReceiverRuns policy inputs m files old new
        → old.suspended ≡ false → receiver_left policy.limits old ≤ receiving.expiries inputs
        → new.phase ≡ receiver_phases.Closed }
    ensures told { (policy : Policy) (stored : Stored) (input : ReceiverInput) (m : OctetMap)
        (files : FileMap) (r : ReceiverState) →
        ReceiverAlone policy input r → receiver_open r ≡ true
        → receiver_open (receiver_step stored input m files r).receiver ≡ false
        → TellsEnd r.addressing.id (receiver_step stored input m files r).told }
    ensures most { (limits : Limits) (r : ReceiverState) →
        receiver_left limits r ≤ (limits.nak + 1) + (limits.finished + 1) }
{}

/// If a record of an entity is open, that is neither closed nor suspended, a PDU of it is due, or
/// a timer of its transaction is armed. This holds of a new entity, and whatever happens to it:
/// whatever it hears, what it has no memory for, and whatever its user asks.
pub fn an_entity_is_never_silent()
    ensures goes_on { (e : EntityState) (place : ℕ) (d : Entry) → IsLively e
        → slice_get e.table.records place ≡ Some d → seen_open d.1 ≡ true
        → EntryGoesOn e.table d }
    ensures rests { (e : EntityState) (place : ℕ) (d : Entry) → IsLively e → turn e ≡ Rests
        → slice_get e.table.records place ≡ Some d → seen_open d.1 ≡ true
        → (k : Kind) × (is_armed d.0 k e.table ≡ true) }
    ensures first { (sources files : FileMap) (config : EntityConfig) → IsConfig config
        → IsLively (first_entity sources files config) }
    ensures put { (source destination : List ℕ) (id : TransactionId) (old new : EntityState) →
        Accepts source destination id old new → IsLively old → IsLively new }
    ensures called { (c : Request) (id : TransactionId) (old new : EntityState) →
        IsCalled c id old new → IsLively old → IsLively new }
    ensures ticked { (now : ℕ) (old new : EntityState) → Ticks now old.table new.table
        → new ≡ with_table old new.table → IsLively old → IsLively new }
    ensures heard { (pdu : List ℕ) (old new : Counted) → HearsOctets pdu old new
        → IsLively old.state → IsLively new.state }
    ensures dropped { (pdu : List ℕ) (by : EntityDrop) (old new : Counted) →
        DropsOctets (pdu_fault pdu) pdu by old new → IsLively old.state → IsLively new.state }
    ensures served { (stored : Stored) (e : EntityState) → IsLively e
        → IsLively (served stored (turn e) e) }
    ensures forgot { (id : TransactionId) (old new : EntityState) → Forgets id old new
        → IsLively old → IsLively new }
    ensures some { (old new : EntityState) → ForgetsSome old new → IsLively old
        → IsLively new }
    // Files and indications change nothing for it.
    ensures alike { (old new : EntityState) → new.config ≡ old.config
        → new.table.records ≡ old.table.records → new.table.armed ≡ old.table.armed
        → new.table.policy ≡ old.table.policy → IsLively old → IsLively new }
{
    a_receiver_is_never_silent();
    what_is_due_is_in_the_file();
}

/// If an entity hears nothing more, it ends all that is open, by its limits: after as many rounds
/// as `records_left` says no record is open. In each round it must be given a time by which a
/// timer's deadline has come, and must then be polled until nothing is due. There are no more
/// rounds than the records that are open times `most_left`.
pub fn an_entity_alone_ends()
    ensures round { (old new : EntityState) → GivesUp old.config.policy → IsLively old
        → IsRound old new → 1 + records_left old.config.policy.limits new.table.records
        ≤ records_left old.config.policy.limits old.table.records }
    ensures rounds { (n : ℕ) (old new : EntityState) → GivesUp old.config.policy → IsLively old
        → AreRounds n old new → n + records_left old.config.policy.limits new.table.records
        ≤ records_left old.config.policy.limits old.table.records }
    ensures ends { (n : ℕ) (old new : EntityState) → GivesUp old.config.policy → IsLively old
        → AreRounds n old new → records_left old.config.policy.limits old.table.records ≤ n
        → NoneOpen new.table.records }
    // If each fault ends its transaction and none was suspended, all records are closed then, and
    // if nothing is due, each may be discarded.
    ensures closes { (n : ℕ) (old new : EntityState) → Ends old.config.policy → IsLively old
        → AllAwake old.table.records → AreRounds n old new
        → records_left old.config.policy.limits old.table.records ≤ n → turn new ≡ Rests
        → AllOver new.table.records }
    ensures most { (limits : Limits) (records : List Entry) →
        records_left limits records ≤ open_count records * most_left limits }
    ensures lively { (old new : EntityState) → IsRound old new → IsLively old → IsLively new }
{
    a_receiver_is_never_silent();
    what_is_due_is_in_the_file();
}

/// If an entity is polled, it comes to rest: each poll that finds something due lowers how many
/// PDUs may still leave, even if the outbox fails. That rises only if a PDU is heard, a timer
/// expires, or the user asks for something.
pub fn polls_come_to_rest()
    ensures poll { (stored : Stored) (e : EntityState) → IsLively e → turn e ≢ Rests
        → entity_dues (served stored (turn e) e) < entity_dues e }
    ensures polls { (answers : List Stored) (old new : EntityState) → IsLively old
        → ArePolls answers old new → length answers + entity_dues new ≤ entity_dues old }
{
    a_receiver_is_never_silent();
    what_is_due_is_in_the_file();
}
