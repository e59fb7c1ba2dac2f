//! What is open ends, also if a station restarts: a law, the contract of a function that does
//! nothing.
ghost use Rattle.std.specs.Prelude.{◌≡◌, ◌≤◌, ℕ, List};
ghost use Rattle.cfdp_header.specs.Files.{FileMap};
ghost use Rattle.cfdp_entity.specs.Entity.{EntityState};
ghost use Rattle.any_order.specs.Calls.{AreJoined, Event, Happen, IsNew, Pair, Setup, Side, at};
ghost use Rattle.any_order.specs.Calls.{entity_of, setup_of};
ghost use Rattle.cfdp_endings.specs.Entity.{AreRounds, GivesUp, IsLively, NoneOpen, records_left};

use cfdp_endings::{an_entity_alone_ends, an_entity_is_never_silent};
use cfdp_entity::an_entity_goes_on;

/// Two stations are new and set up to send to each other, and any calls are made at both, whatever
/// their frames do on their way, and whenever either restarts. Then at each of them every record
/// that is open has something to do, as `IsLively` says, by the policy that it was set up with. And
/// whatever it had open then, of a peer that restarted and knows nothing of it or that answers no
/// more, ends by its limits if it receives nothing from then on: after as many rounds as
/// `records_left` says nothing is open.
pub fn what_is_open_ends_in_any_order()
    ensures lively { (c : Setup) (counts : Side → ℕ) (sources files : Side → FileMap)
        (events : List Event) (start now : Pair) → AreJoined c →
        ((s : Side) → IsNew (setup_of s c) (counts s) (sources s) (files s) (at s start)) →
        Happen c events start now → (s : Side) → IsLively (entity_of (at s now)) }
    ensures policy { (c : Setup) (counts : Side → ℕ) (sources files : Side → FileMap)
        (events : List Event) (start now : Pair) → AreJoined c →
        ((s : Side) → IsNew (setup_of s c) (counts s) (sources s) (files s) (at s start)) →
        Happen c events start now → (s : Side) →
        (entity_of (at s now)).config.policy ≡ (setup_of s c).entity.policy }
    ensures ends { (c : Setup) (counts : Side → ℕ) (sources files : Side → FileMap)
        (events : List Event) (start now : Pair) → AreJoined c →
        ((s : Side) → IsNew (setup_of s c) (counts s) (sources s) (files s) (at s start)) →
        Happen c events start now → (s : Side) → GivesUp (setup_of s c).entity.policy →
        (n : ℕ) (alone : EntityState) → AreRounds n (entity_of (at s now)) alone →
        records_left (setup_of s c).entity.policy.limits (entity_of (at s now)).table.records ≤ n →
        NoneOpen alone.table.records }
{
    an_entity_is_never_silent();
    an_entity_alone_ends();
    an_entity_goes_on();
}
