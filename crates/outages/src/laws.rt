//! The law, the contract of a function that does nothing.
ghost use Rattle.std.specs.Prelude.{◌≡◌, ◌≢◌, ◌⊎◌, ◌+◌, ◌<◌, ℕ, List, true};
ghost use Rattle.cfdp_header.specs.Files.{FileMap};
ghost use Rattle.cfdp_header.specs.declared.value.TransactionId.{TransactionId};
ghost use Rattle.link_sim.specs.declared.event.Event.TheVariants as event;
ghost use Rattle.link_sim.specs.Recovering.{IsRound, Round, armed_at};
ghost use Rattle.link_sim.specs.Running.{Led};
ghost use Rattle.link_sim.specs.Waiting.{IsCompleted, IsWaiting};
ghost use Rattle.link_sim.specs.World.State.{IsFirst, WorldState};
ghost use Rattle.cfdp_timers.specs.declared.kind.Kind.{Kind};
ghost use Rattle.cfdp_timers.specs.declared.kind.Kind.TheVariants.{Inactivity};
ghost use Rattle.cfdp_timers.specs.Due.{is_due};
ghost use Rattle.outages.specs.Lasting.{IsInTime, IsShort, earliest, wait_at};
ghost use Rattle.station_pair.specs.declared.side.Side.{Side};
ghost use Rattle.outages.specs.Outage.{AreOfOutage, Happening};
ghost use Rattle.outages.specs.Spared.{GetsThrough};
ghost use Rattle.outages.specs.Tries.{AreCalm, GoesOn, IsCalm, MayTry, NoneExpires, expiries};
ghost use Rattle.outages.specs.Tries.{time_told};
ghost use Rattle.station_pair.specs.Stations.{IsWorldConfig};
ghost use Rattle.station_pair.specs.declared.world_config.WorldConfig.{WorldConfig};

/// A transfer outlives an outage of its link in which its timers expire less often than it may try
/// again, and completes with the second expiry after which nothing of it is lost.
///
/// So it is from every world to which calls led, of each transaction that waits below its limits
/// there, whatever the link loses of others meanwhile.
pub fn a_transfer_outlives_its_losses()
    // After an outage it goes on, or it is complete.
    ensures waits { (c : WorldConfig) (outboxes inboxes : FileMap × FileMap)
        (first old new : WorldState) (id : TransactionId) (outage : List Happening)
        → IsWorldConfig c → IsFirst c outboxes inboxes first → Led first old
        → IsWaiting id old → AreOfOutage id outage old new → AreCalm id old outage
        → MayTry id (expiries id old outage) old → GoesOn id new ⊎ IsCompleted id new }
    // In an outage that is short enough, they expire that seldom.
    ensures lasts { (c : WorldConfig) (outboxes inboxes : FileMap × FileMap)
        (first old new : WorldState) (id : TransactionId) (outage : List Happening)
        → IsWorldConfig c → IsFirst c outboxes inboxes first → Led first old
        → AreOfOutage id outage old new → IsShort id old new
        → MayTry id (expiries id old outage) old }
    // It is complete after two expiries if nothing of it was lost after either, whatever was lost
    // before the first one and between both.
    ensures completes { (c : WorldConfig) (outboxes inboxes : FileMap × FileMap)
        (first old held through again new : WorldState) (id : TransactionId)
        (before between : List Happening)
        → IsWorldConfig c → IsFirst c outboxes inboxes first → Led first old
        → IsWaiting id old → AreOfOutage id before old held → AreCalm id old before
        → GetsThrough id held through → AreOfOutage id between through again
        → AreCalm id through between → GetsThrough id again new
        → MayTry id (λ s k. expiries id old before s k + expiries id through between s k) old
        → IsCompleted id new }
    // So it is after an outage that is short enough, if the next two expiries are such ones.
    ensures completes_in_time { (c : WorldConfig) (outboxes inboxes : FileMap × FileMap)
        (first old held through again new : WorldState) (id : TransactionId)
        (outage between : List Happening)
        → IsWorldConfig c → IsFirst c outboxes inboxes first → Led first old
        → IsWaiting id old → AreOfOutage id outage old held → AreCalm id old outage
        → IsShort id old held → GetsThrough id held through
        → AreOfOutage id between through again → AreCalm id through between
        → NoneExpires id through between → GetsThrough id again new → IsCompleted id new }
{
    cfdp_entity::an_entity_keeps_the_truth();
    cfdp_entity::an_entity_goes_on();
    cfdp_entity::an_entity_sends_the_truth();
    cfdp_entity::records_stay_for_good();
    cfdp_receiver::a_true_file_raises_no_fault();
    cfdp_receiver::what_is_heard_true_is_kept_true();
    mpdu::a_part_has_no_more();
}

/// Each round of a recovery is an expiry after which nothing is lost, for each transaction with a
/// timer that expires in it. So the premise of [`a_transfer_outlives_its_losses`] is met as often
/// as `World::recover` makes rounds, and in each of them a timer expires.
pub fn rounds_of_a_recovery_get_through()
    ensures through { (c : WorldConfig) (outboxes inboxes : FileMap × FileMap)
        (first old : WorldState) (r : Round) (id : TransactionId) (k : Kind)
        → IsWorldConfig c → IsFirst c outboxes inboxes first → Led first old → IsRound old r
        → k ≢ Inactivity → is_due (armed_at r.side old) (time_told r.side r.now old) (id, k) ≡ true
        → IsCalm id old (event.Tick r.side r.now) → GetsThrough id old r.settled }
    ensures expires { (old : WorldState) (r : Round) → IsRound old r
        → (id : TransactionId) × (k : Kind) × (k ≢ Inactivity)
        × (is_due (armed_at r.side old) (time_told r.side r.now old) (id, k) ≡ true) }
{
    cfdp_entity::an_entity_keeps_the_truth();
    cfdp_entity::an_entity_goes_on();
    cfdp_entity::an_entity_sends_the_truth();
    cfdp_entity::records_stay_for_good();
    cfdp_receiver::a_true_file_raises_no_fault();
    cfdp_receiver::what_is_heard_true_is_kept_true();
    mpdu::a_part_has_no_more();
}

/// With three tries, ten units apart, the first of them after ten units, an outage is short enough
/// if it ends before 30, and otherwise not.
pub fn three_tries_last_thirty_units()
    ensures short { (id : TransactionId) (s : Side) (k : Kind) (w : WorldState) (clock : ℕ)
        → wait_at s k w ≡ 10 → earliest id s k w ≡ 10 → clock < 30
        → IsInTime id s k 0 3 clock w }
    ensures no_longer { (id : TransactionId) (s : Side) (k : Kind) (w : WorldState) (clock : ℕ)
        → wait_at s k w ≡ 10 → earliest id s k w ≡ 10 → IsInTime id s k 0 3 clock w
        → clock < 30 }
{}
