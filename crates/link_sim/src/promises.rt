//! What every event keeps of two stations and the frames between them.
ghost use Rattle.std.specs.Prelude.{◌≡◌, ◌<◌, ℕ, List};
ghost use Rattle.cfdp_entity.specs.Sound.{FindsMore};
ghost use Rattle.cfdp_directives.specs.User.Put.{inbox_after};
ghost use Rattle.cfdp_header.specs.Files.{FileMap};
ghost use Rattle.link_sim.specs.Clean.{AllComplete, IsClean};
ghost use Rattle.link_sim.specs.EveryPut.{KeepsPuts};
ghost use Rattle.link_sim.specs.Observed.{seen};
ghost use Rattle.link_sim.specs.Running.{KeepsPromises, Led};
ghost use Rattle.link_sim.specs.Settling.{DropsWhereFull, IsOfSettling, IsSettled, KeepsAll};
ghost use Rattle.link_sim.specs.Settling.{all_shortages};
ghost use Rattle.link_sim.specs.Sound.{IsSound};
ghost use Rattle.link_sim.specs.Found.{ExpiresOn};
ghost use Rattle.link_sim.specs.Tracks.{KeepsPutsOf, RunsAlong};
ghost use Rattle.link_sim.specs.Theorem.{HoldsAt, FoldsAt, at, put_of, completions_at};
ghost use Rattle.link_sim.specs.World.State.{AreRested, AreWays, WorldState, IsFirst, entity_at};
ghost use Rattle.link_sim.specs.World.State.{files_at};
ghost use Rattle.link_sim.specs.World.Steps.{Stays, Steps, TakesPut, TellsTime};
ghost use Rattle.station_pair.specs.Stations.{IsWorldConfig};
ghost use Rattle.link_sim.specs.Work.{world_work};
ghost use Rattle.link_sim.specs.declared.event.Applied.TheVariants as dids;
ghost use Rattle.link_sim.specs.declared.event.Applied.{Applied};
ghost use Rattle.link_sim.specs.declared.event.Event.{Event};
ghost use Rattle.station_pair.specs.declared.side.Side.{Side};
ghost use Rattle.station_pair.specs.declared.world_config.WorldConfig.{WorldConfig};

/// Whatever calls are made on two stations from their start on, the promises hold of them; and if
/// all is settled and nothing went wrong so far, every put is complete.
pub fn worlds_keep_the_promises()
    ensures keeps { (c : WorldConfig) (outboxes inboxes : FileMap × FileMap)
        (first now : WorldState)
        → IsWorldConfig c → IsFirst c outboxes inboxes first → Led first now
        → KeepsPromises inboxes now }
    ensures completes { (c : WorldConfig) (outboxes inboxes : FileMap × FileMap)
        (first now : WorldState) → IsWorldConfig c → IsFirst c outboxes inboxes first
        → Led first now → IsSettled now → IsClean now → AllComplete now }
    // A station stays set up as it was.
    ensures config { (c : WorldConfig) (outboxes inboxes : FileMap × FileMap)
        (first now : WorldState) → IsWorldConfig c → IsFirst c outboxes inboxes first
        → Led first now → (s : Side) → (entity_at s now).config ≡ (entity_at s first).config }
{
    events_keep_the_promises();
}

/// What every world keeps holds of a new one and after each event, and the promises follow from it.
pub(crate) fn events_keep_the_promises()
    ensures first { (c : WorldConfig) (outboxes inboxes : FileMap × FileMap) (w : WorldState) →
        IsWorldConfig c → IsFirst c outboxes inboxes w → ((s : Side) → AreWays s w)
        → IsSound w }
    ensures inboxes { (c : WorldConfig) (outboxes inboxes : FileMap × FileMap) (w : WorldState)
        (s : Side) → IsWorldConfig c → IsFirst c outboxes inboxes w → (at s (seen w)).inbox
        ≡ inbox_after (put_of (seen w)) (files_at s inboxes) (completions_at s (seen w)) }
    ensures keeps { (e : Event) (did : Applied) (old new : WorldState) → IsSound old
        → Steps e did old new → IsSound new }
    ensures stays { (s : Side) (old new : WorldState) → IsSound old → Stays s old new
        → IsSound new }
    ensures puts { (e : Event) (did : Applied) (old new : WorldState) → IsSound old
        → Steps e did old new → FindsMore (put_of (seen old)) (put_of (seen new)) }
    ensures puts_stay { (s : Side) (old new : WorldState) → Stays s old new
        → FindsMore (put_of (seen old)) (put_of (seen new)) }
    ensures folds { (e : Event) (did : Applied) (old new : WorldState) (t : Side) → IsSound old
        → Steps e did old new → FoldsAt t (seen old) (seen new) }
    ensures folds_none { (s : Side) (old new : WorldState) (t : Side) → IsSound old
        → Stays s old new → FoldsAt t (seen old) (seen new) }
    ensures less { (e : Event) (old new : WorldState) → IsSound old
        → ((s : Side) → AreRested s old) → ((s : Side) → AreRested s new)
        → IsOfSettling e → Steps e dids.Applied old new → world_work new < world_work old }
    ensures holds { (w : WorldState) (s : Side) → IsSound w → HoldsAt s (seen w) }
    ensures puts_first { (c : WorldConfig) (outboxes inboxes : FileMap × FileMap)
        (w : WorldState) → IsFirst c outboxes inboxes w → KeepsPuts w }
    ensures puts_kept { (e : Event) (did : Applied) (old new : WorldState) → IsSound old
        → KeepsPuts old → Steps e did old new → KeepsPuts new }
    ensures puts_rest { (s : Side) (old new : WorldState) → IsSound old → KeepsPuts old
        → Stays s old new → KeepsPuts new }
    ensures clean_first { (c : WorldConfig) (outboxes inboxes : FileMap × FileMap)
        (w : WorldState) → IsFirst c outboxes inboxes w → IsClean w }
    ensures clean_put { (s : Side) (source destination : List ℕ) (old new : WorldState)
        → TakesPut s source destination old new → IsClean old → IsClean new }
    ensures clean { (e : Event) (old new : WorldState) → IsSound old → KeepsPuts old
        → IsOfSettling e → Steps e dids.Applied old new
        → KeepsAll (all_shortages old) (all_shortages new) → IsClean old → IsClean new }
    ensures runs { (e : Event) (old new : WorldState) → IsSound old → KeepsPuts old
        → IsOfSettling e → Steps e dids.Applied old new
        → KeepsAll (all_shortages old) (all_shortages new) → RunsAlong old new }
    ensures tells { (s : Side) (now : ℕ) (old new : WorldState) → IsSound old
        → TellsTime s now old new → ExpiresOn s now old new × KeepsPutsOf old new }
    ensures config { (e : Event) (did : Applied) (old new : WorldState) (s : Side) → IsSound old
        → Steps e did old new → (entity_at s new).config ≡ (entity_at s old).config }
    ensures full { (e : Event) (did : Applied) (old new : WorldState) → IsSound old → KeepsPuts old
        → Steps e did old new → DropsWhereFull old new }
    ensures full_none { (s : Side) (old new : WorldState) → Stays s old new
        → DropsWhereFull old new }
    ensures completes { (w : WorldState) → IsSound w → KeepsPuts w
        → ((s : Side) → AreRested s w) → IsSettled w → IsClean w → AllComplete w }
{
    cfdp_entity::an_entity_keeps_the_truth();
    cfdp_entity::an_entity_goes_on();
    cfdp_entity::an_entity_sends_the_truth();
    cfdp_entity::records_stay_for_good();
    cfdp_receiver::a_true_file_raises_no_fault();
    cfdp_receiver::what_is_heard_true_is_kept_true();
    mpdu::a_part_has_no_more();
}
