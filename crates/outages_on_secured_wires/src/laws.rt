//! The laws, each the contract of a function without a body.
ghost use Rattle.std.specs.Prelude.{◌⊎◌, ◌+◌, ◌<◌, ◌≤◌, ℕ, List, ◌++◌, length, map};
ghost use Rattle.std.specs.Prelude.{Contains, IsTrue};
ghost use Rattle.aos_frame.specs.Counts.{frame_counts};
ghost use Rattle.aos_frame.specs.declared.config.Lane.{Lane};
ghost use Rattle.cfdp_header.specs.Files.{FileMap};
ghost use Rattle.cfdp_port.specs.Pair.{PairState};
ghost use Rattle.frame_security.specs.Opening.{OpenerState};
ghost use Rattle.link_sim.specs.declared.event.AcceptedPut.{AcceptedPut};
ghost use Rattle.link_sim.specs.Waiting.{IsCompleted, IsWaiting};
ghost use Rattle.outages.specs.Lasting.{IsShort};
ghost use Rattle.outages.specs.Tries.{GoesOn, MayTry};
ghost use Rattle.outages_by_turns.specs.Turns.{AreCalmIn, NoneShort, Turn};
ghost use Rattle.outages_by_turns.specs.Turns.{expiries_in, in_world, then_pair};
ghost use Rattle.outages_on_secured_wires.specs.Turns.{AreSecured, FewLostIn, Gone, HaveBegun};
ghost use Rattle.outages_on_secured_wires.specs.Turns.{nothing_gone};
ghost use Rattle.outages_on_secured_wires.specs.Whole.{GetsThroughSecured};
ghost use Rattle.ports_in_order.specs.InOrder.{nothing_passed};
ghost use Rattle.secured_link.specs.Lives.{NumbersRise};
ghost use Rattle.secured_link.specs.Turns.{WereSealed};
ghost use Rattle.secured_wire.specs.Direction.{Arrival, SealedIn};
ghost use Rattle.secured_wire.specs.Secured.{SecuredState};
ghost use Rattle.station_pair.specs.declared.world_config.WorldConfig.{WorldConfig};

use cfdp_port::Wire;
use outages_by_turns::{turns_complete_a_transfer, turns_outlive_their_losses};
use secured_wire::{Keeper, SecuredWire};

/// A transfer of two ports that take turns over secured wires outlives an outage of the network in
/// which its timers expire less often than it may try again. It is
/// [`turns_outlive_their_losses`](outages_by_turns::turns_outlive_their_losses) without its premise
/// on the wires: frames may be lost, damaged, late, repeated or invented, in turns at any times.
///
/// Only what was sealed may be accepted (`AreSecured`), as it is unless a MAC is forged. In no lane
/// more frames may be lost in a row than there are frame counts, 2^28 (`FewLostIn`). The files that
/// the stations send must stand still to the end.
pub fn secured_turns_outlive_their_losses<W: Wire, K: Keeper>()
    // After an outage it goes on, or it is complete.
    ensures waits { (c : WorldConfig) (outboxes inboxes : FileMap × FileMap) (put : AcceptedPut)
        (first : PairState (SecuredState W)) (before outage : List (Turn (SecuredState W)))
        (gone : Gone) → HaveBegun c outboxes inboxes put first
        → (turns : AreSecured W.steps K.calls (before ++ outage) first nothing_gone gone)
        → FewLostIn W.steps K.calls (before ++ outage) first nothing_gone gone turns
        nothing_passed
        → let old = then_pair first before in let new = then_pair old outage in
        IsTrue new.one.station.entity.state.table.stands
        → IsTrue new.two.station.entity.state.table.stands
        → NoneShort old new → IsWaiting put.id (in_world put old) → AreCalmIn put old outage
        → MayTry put.id (expiries_in put old outage) (in_world put old)
        → GoesOn put.id (in_world put new) ⊎ IsCompleted put.id (in_world put new) }
    // In an outage that is short enough, they expire that seldom.
    ensures lasts { (c : WorldConfig) (outboxes inboxes : FileMap × FileMap) (put : AcceptedPut)
        (first : PairState (SecuredState W)) (before outage : List (Turn (SecuredState W)))
        (gone : Gone) → HaveBegun c outboxes inboxes put first
        → (turns : AreSecured W.steps K.calls (before ++ outage) first nothing_gone gone)
        → FewLostIn W.steps K.calls (before ++ outage) first nothing_gone gone turns
        nothing_passed
        → let old = then_pair first before in let new = then_pair old outage in
        IsTrue new.one.station.entity.state.table.stands
        → IsTrue new.two.station.entity.state.table.stands
        → NoneShort old new → IsShort put.id (in_world put old) (in_world put new)
        → MayTry put.id (expiries_in put old outage) (in_world put old) }
{
    turns_outlive_their_losses::<SecuredWire<W, K>>();
}

/// A transfer of two ports that take turns over secured wires completes with the second expiry
/// after which, for some turns, each frame is handed on in the turn in which it left, whatever the
/// network did before the first one and between both. What had not been accepted when such turns
/// began is lost (`GetsThroughSecured`), and of each lane fewer than 2^28 frames leave in all.
pub fn secured_turns_complete_a_transfer<W: Wire, K: Keeper>()
    ensures { (c : WorldConfig) (outboxes inboxes : FileMap × FileMap) (put : AcceptedPut)
        (first : PairState (SecuredState W)) (g0 g1 g2 g3 g4 : Gone)
        (earlier before between : List (Turn (SecuredState W)))
        (one two : Turn (SecuredState W)) (later again : List (Turn (SecuredState W)))
        → HaveBegun c outboxes inboxes put first
        → AreSecured W.steps K.calls earlier first nothing_gone g0
        → let old = then_pair first earlier in AreSecured W.steps K.calls before old g0 g1
        → GetsThroughSecured W.steps K.calls put (then_pair old before) one later g1 g2
        → let through = then_pair one.after later in
        AreSecured W.steps K.calls between through g2 g3
        → GetsThroughSecured W.steps K.calls put (then_pair through between) two again g3 g4
        → let new = then_pair two.after again in
        IsTrue new.one.station.entity.state.table.stands
        → IsTrue new.two.station.entity.state.table.stands
        → ((lane : Lane) → length (g4.left_one lane) < frame_counts)
        → ((lane : Lane) → length (g4.left_two lane) < frame_counts)
        → NoneShort old new → IsWaiting put.id (in_world put old)
        → AreCalmIn put old before → AreCalmIn put through between
        → MayTry put.id
        (λ s k. expiries_in put old before s k + expiries_in put through between s k)
        (in_world put old)
        → IsCompleted put.id (in_world put new) }
{
    turns_complete_a_transfer::<SecuredWire<W, K>>();
}

/// A frame that is late is refused once a frame that was sealed after it was accepted. So what
/// [`secured_turns_complete_a_transfer`] asks of late frames holds by itself in each direction from
/// the first frame on that is accepted of those that were sealed in such turns.
pub fn late_frames_are_refused()
    ensures { (first : ℕ) (before since : List SealedIn) (x : SealedIn) (o : OpenerState)
        (came : List Arrival) → NumbersRise first (map (λ y. y.frame) (before ++ since))
        → Contains since x → x.frame.number ≤ o.last → WereSealed o (before ++ since) came
        → WereSealed o since came }
{}
