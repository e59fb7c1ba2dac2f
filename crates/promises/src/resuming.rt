//! What holds of stations that resume, call by call: laws, each the contract of a function without
//! a body.
ghost use Rattle.std.specs.Prelude.{◌≡◌, ◌≤◌, ℕ, Bool, List, [], Option};
ghost use Rattle.cfdp_header.specs.Files.{FileMap};
ghost use Rattle.cfdp_directives.specs.Pdu.Content.{Content};
ghost use Rattle.cfdp_directives.specs.User.Put.{Put};
ghost use Rattle.cfdp_sender.specs.State.{SenderState};
ghost use Rattle.cfdp_receiver.specs.State.{ReceiverState};
ghost use Rattle.link_sim.specs.Course.{IsTrueBetween};
ghost use Rattle.cfdp_resuming.specs.Entity.{AreSomeOf};
ghost use Rattle.any_order.specs.Calls.{entity_of};
ghost use Rattle.cfdp_entity.specs.Entity.{EntityState};
ghost use Rattle.cfdp_endings.specs.Entity.{AreRounds, GivesUp, IsLively, NoneOpen, records_left};
ghost use Rattle.promises.specs.Owing.{HappenOwing};
ghost use Rattle.promises.specs.Commits.{ReceiverCommits, SenderCommits};
ghost use Rattle.any_order.specs.Calls.{AreJoined, IsNew, Pair, Setup, Side, at, setup_of};
ghost use Rattle.any_order.specs.Resuming.{LifeEvent};

use cfdp_endings::{an_entity_alone_ends, an_entity_is_never_silent};
use cfdp_entity::an_entity_goes_on;

/// What is true between the sender and the receiver of a put, whatever was lost, stays true if one
/// of them is restored and what must be on disk before a PDU leaves was there (`SenderCommits`,
/// `ReceiverCommits`). Any PDUs on their way may be lost by it. Recovery rests on that alone.
pub fn resumes_keep_what_losses_keep()
    ensures sender { (put : Put) (x y : SenderState) (o : Option ReceiverState)
        (forth back forth_then back_then : List Content) (told told_then told_there : Bool) →
        IsTrueBetween put x o forth back told told_there → AreSomeOf forth forth_then →
        AreSomeOf back back_then → SenderCommits x y o forth_then told_then →
        IsTrueBetween put y o forth_then back_then told_then told_there }
    ensures receiver { (put : Put) (x : SenderState) (o p : Option ReceiverState)
        (forth back forth_then back_then : List Content) (told told_there told_then : Bool) →
        IsTrueBetween put x o forth back told told_there → AreSomeOf forth forth_then →
        AreSomeOf back back_then → ReceiverCommits put o p x back_then told_then →
        IsTrueBetween put x p forth_then back_then told told_then }
{}

/// What is open ends also if stations resume. At any time each open record has something to do; and
/// a station that receives nothing from then on ends all that it has open, by its limits.
pub fn what_is_open_ends_where_stations_resume()
    ensures lively { (c : Setup) (counts : Side → ℕ) (sources files : Side → FileMap)
        (events : List LifeEvent) (start now : Pair) → AreJoined c →
        ((s : Side) → IsNew (setup_of s c) (counts s) (sources s) (files s) (at s start)) →
        HappenOwing c events start now → (s : Side) → IsLively (entity_of (at s now)) }
    ensures ends { (c : Setup) (counts : Side → ℕ) (sources files : Side → FileMap)
        (events : List LifeEvent) (start now : Pair) → AreJoined c →
        ((s : Side) → IsNew (setup_of s c) (counts s) (sources s) (files s) (at s start)) →
        HappenOwing c events start now → (s : Side) → GivesUp (setup_of s c).entity.policy →
        (n : ℕ) (alone : EntityState) → AreRounds n (entity_of (at s now)) alone →
        records_left (setup_of s c).entity.policy.limits (entity_of (at s now)).table.records ≤ n →
        NoneOpen alone.table.records }
{
    an_entity_is_never_silent();
    an_entity_alone_ends();
    an_entity_goes_on();
}
