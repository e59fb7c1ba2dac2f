//! How many events a settling may have: a law, the contract of a function that does nothing.
ghost use Rattle.std.specs.Prelude.{◌+◌, ◌≤◌, ℕ, List};
ghost use Rattle.cfdp_header.specs.Files.{FileMap};
ghost use Rattle.link_sim.specs.Running.{Led};
ghost use Rattle.link_sim.specs.Settling.{AreOfSettling};
ghost use Rattle.station_pair.specs.Stations.{IsWorldConfig};
ghost use Rattle.link_sim.specs.Work.{world_work};
ghost use Rattle.link_sim.specs.World.State.{IsFirst, WorldState};
ghost use Rattle.link_sim.specs.declared.event.Applied.{Applied};
ghost use Rattle.link_sim.specs.declared.event.Event.{Event};
ghost use Rattle.station_pair.specs.declared.world_config.WorldConfig.{WorldConfig};
ghost use Rattle.promises.specs.Events.{done_count};

/// Polls, flushes and deliveries that did something are at most as many as `world_work` says of the
/// world before them, and what it says of the world after them is as much less. So it is from every
/// world, if calls led to it, in whatever order such events come.
pub fn a_settling_has_few_events()
    ensures { (c : WorldConfig) (outboxes inboxes : FileMap × FileMap)
        (first old new : WorldState) (steps : List (Event × Applied)) → IsWorldConfig c
        → IsFirst c outboxes inboxes first → Led first old → AreOfSettling steps old new
        → done_count steps + world_work new ≤ world_work old }
{
    cfdp_entity::an_entity_keeps_the_truth();
    cfdp_entity::an_entity_goes_on();
    cfdp_entity::an_entity_sends_the_truth();
    mpdu::a_part_has_no_more();
}
