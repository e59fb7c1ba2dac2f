//! The laws, each the contract of a function without a body.
ghost use Rattle.std.specs.Prelude.{◌≡◌, ◌⊎◌, ◌+◌, ◌<◌, ℕ, List, length, IsTrue};
ghost use Rattle.aos_frame.specs.Counts.{frame_counts};
ghost use Rattle.aos_frame.specs.declared.config.Lane.{Lane};
ghost use Rattle.cfdp_header.specs.Files.{FileMap};
ghost use Rattle.cfdp_header.specs.declared.value.TransactionId.{TransactionId};
ghost use Rattle.cfdp_port.specs.Pair.{PairState, Turns};
ghost use Rattle.link_sim.specs.declared.event.AcceptedPut.{AcceptedPut};
ghost use Rattle.link_sim.specs.Waiting.{IsCompleted, IsWaiting};
ghost use Rattle.outages.specs.Lasting.{IsShort};
ghost use Rattle.outages.specs.Tries.{GoesOn, MayTry};
ghost use Rattle.outages_by_turns.specs.Turns.{AreCalmIn, AreTurns, HaveTurned, NoneShort, Turn};
ghost use Rattle.outages_by_turns.specs.Turns.{expiries_in, in_world, numbered, then_pair};
ghost use Rattle.outages_by_turns.specs.Whole.{GetsThroughIn};
ghost use Rattle.ports_in_order.specs.InOrder.{PassInOrder, Passage, nothing_passed};
ghost use Rattle.station_pair.specs.declared.world_config.WorldConfig.{WorldConfig};

use cfdp_port::Wire;

/// A transfer of two ports that take turns outlives an outage of their wires in which its timers
/// expire less often than it may try again, if the wires keep the order of each lane in what they
/// bring. It is [`a_transfer_outlives_its_losses`](outages::a_transfer_outlives_its_losses) for
/// whoever has two ports: an outage is any number of turns, at any times, whatever is lost in them.
///
/// As in [`turns_are_of_a_world`](ports_in_order::turns_are_of_a_world), the files that the
/// stations send must stand still to the end.
pub fn turns_outlive_their_losses<W: Wire>()
    // After an outage it goes on, or it is complete.
    ensures waits { (c : WorldConfig) (outboxes inboxes : FileMap × FileMap) (put : AcceptedPut)
        (old : PairState W) (before after : Passage) (outage : List (Turn W))
        → HaveTurned W.steps c outboxes inboxes put old before
        → AreTurns W.steps outage old before after → let new = then_pair old outage in
        IsTrue new.one.station.entity.state.table.stands
        → IsTrue new.two.station.entity.state.table.stands
        → NoneShort old new → IsWaiting put.id (in_world put old) → AreCalmIn put old outage
        → MayTry put.id (expiries_in put old outage) (in_world put old)
        → GoesOn put.id (in_world put new) ⊎ IsCompleted put.id (in_world put new) }
    // In an outage that is short enough, they expire that seldom.
    ensures lasts { (c : WorldConfig) (outboxes inboxes : FileMap × FileMap) (put : AcceptedPut)
        (old : PairState W) (before after : Passage) (outage : List (Turn W))
        → HaveTurned W.steps c outboxes inboxes put old before
        → AreTurns W.steps outage old before after → let new = then_pair old outage in
        IsTrue new.one.station.entity.state.table.stands
        → IsTrue new.two.station.entity.state.table.stands
        → NoneShort old new → IsShort put.id (in_world put old) (in_world put new)
        → MayTry put.id (expiries_in put old outage) (in_world put old) }
{
    outages::a_transfer_outlives_its_losses();
    cfdp_entity::an_entity_goes_on();
}

/// A transfer of two ports that take turns completes with the second expiry after which, for some
/// turns, each frame arrives in the turn in which it left, whatever was lost before the first one
/// and between both. What had not arrived when such turns began is lost, and of each lane fewer
/// than 2^28 frames leave in all.
pub fn turns_complete_a_transfer<W: Wire>()
    ensures { (c : WorldConfig) (outboxes inboxes : FileMap × FileMap) (put : AcceptedPut)
        (old : PairState W) (p0 p1 p2 p3 p4 : Passage) (before between : List (Turn W))
        (one two : Turn W) (later again : List (Turn W))
        → HaveTurned W.steps c outboxes inboxes put old p0
        → AreTurns W.steps before old p0 p1
        → GetsThroughIn W.steps put (then_pair old before) one later p1 p2
        → let through = then_pair one.after later in AreTurns W.steps between through p2 p3
        → GetsThroughIn W.steps put (then_pair through between) two again p3 p4
        → let new = then_pair two.after again in
        IsTrue new.one.station.entity.state.table.stands
        → IsTrue new.two.station.entity.state.table.stands
        → ((lane : Lane) → length (p4.from_one lane) < frame_counts)
        → ((lane : Lane) → length (p4.from_two lane) < frame_counts)
        → NoneShort old new → IsWaiting put.id (in_world put old)
        → AreCalmIn put old before → AreCalmIn put through between
        → MayTry put.id
        (λ s k. expiries_in put old before s k + expiries_in put through between s k)
        (in_world put old)
        → IsCompleted put.id (in_world put new) }
{
    outages::a_transfer_outlives_its_losses();
    cfdp_entity::an_entity_keeps_the_truth();
    cfdp_entity::an_entity_goes_on();
    cfdp_entity::an_entity_sends_the_truth();
    cfdp_entity::records_stay_for_good();
    cfdp_receiver::a_true_file_raises_no_fault();
    cfdp_receiver::what_is_heard_true_is_kept_true();
    mpdu::a_part_has_no_more();
}

/// Turns that are numbered from 1 on, as two ports take them (`Turns`), are turns at any times.
pub fn numbered_turns_are_turns<W: Wire>()
    ensures { (id : TransactionId) (count : ℕ) (old new : PairState W)
        (turns : Turns W.steps id count old new) (passed : Passage)
        → PassInOrder W.steps id count old new turns passed
        → (new ≡ then_pair old (numbered W.steps id count old new turns))
        × AreTurns W.steps (numbered W.steps id count old new turns) old nothing_passed passed }
{}
