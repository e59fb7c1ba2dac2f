//! The laws, each the contract of a function without a body.
ghost use Rattle.std.specs.Prelude.{◌≡◌, ◌⊎◌, ℕ, ◌+◌, ◌<◌, ◌≤◌, ◌^◌, List, [], ◌∷◌, ◌++◌, length};
ghost use Rattle.std.specs.Prelude.{map, Contains, IfSome, IsTrue, None, Ok, Some, true};
ghost use Rattle.aos_frame.specs.Counts.{frame_counts};
ghost use Rattle.aos_frame.specs.declared.config.LinkConfig.{LinkConfig};
ghost use Rattle.promises.specs.Passing.{Comes, EndRead, with_sent};
ghost use Rattle.promises.specs.Promise.{AreDelivered, KeepPromise};
ghost use Rattle.promises.specs.Serving.{Goes, HaveServed, Served, StartsAnew, served_at};
ghost use Rattle.any_order.specs.Calls.{AreJoined, Setup, Side};
ghost use Rattle.any_order.specs.Kept.{EndKept, last_at, with_last};
ghost use Rattle.cfdp_header.specs.Files.{FileMap};
ghost use Rattle.cfdp_header.specs.declared.value.TransactionId.{TransactionId};
ghost use Rattle.cfdp_port.specs.Asking.{Puts};
ghost use Rattle.cfdp_port.specs.Pair.{PairState, Turns};
ghost use Rattle.cfdp_port.specs.Passing.{frames_came};
ghost use Rattle.cfdp_port.specs.Port.{AtStation, PortState, port_state};
ghost use Rattle.cfdp_port.specs.PeerTurn.{SendsNext, TakesInPart};
ghost use Rattle.cfdp_port.specs.Turn.{AsksOn};
ghost use Rattle.cfdp_service.specs.Calls.{Chain};
ghost use Rattle.cfdp_service.specs.Clerk.{ClerkState, ClerkSteps};
ghost use Rattle.cfdp_station.specs.New.{IsFirstAt};
ghost use Rattle.cfdp_station.specs.Transmitting.{Times};
ghost use Rattle.cfdp_station.specs.declared.config.StationConfig.{StationConfig};
ghost use Rattle.frame_security.specs.Opening.{OpenerState, key_of};
ghost use Rattle.frame_security.specs.Frames.{IsSecurity};
ghost use Rattle.frame_security.specs.Lives.{AreSomeOf, Sealed};
ghost use Rattle.frame_security.specs.Sealing.{SealerState, secured_frame};
ghost use Rattle.ports_in_order.specs.InOrder.{AreOfWorld, PassInOrder, Passage};
ghost use Rattle.station_pair.specs.Stations.{IsWorldConfig};
ghost use Rattle.station_pair.specs.declared.world_config.WorldConfig.{WorldConfig};
ghost use Rattle.secured_link.specs.Copies.{Accepts, AreKept, AreKeptIn, AreNear, Numbered};
ghost use Rattle.secured_link.specs.Copies.{TookLast};
ghost use Rattle.secured_link.specs.Lives.{NoneForgedOver, NotesOutlast, NumbersRise, Receiving};
ghost use Rattle.secured_link.specs.Lives.{all_handed_on};
ghost use Rattle.secured_link.specs.Serving.{EndsSecuredEarly, GoesSecured};
ghost use Rattle.secured_link.specs.Serving.{HaveServedSecured, Rests, SecuredEnd, SecuredPair};
ghost use Rattle.secured_link.specs.Serving.{sealed_of, stations_of};
ghost use Rattle.secured_link.specs.Turns.{BothBegin, FewLost, NoneForgedIn};
ghost use Rattle.secured_wire.specs.Direction.{Arrival, NoneForgedOf};
ghost use Rattle.secured_wire.specs.Passing.{arrivals};
ghost use Rattle.secured_wire.specs.Secured.{SecuredState, Secures};

use cfdp_port::{PeerWire, Wire};
use cfdp_service::Spool;
use ports_in_order::turns_are_of_a_world;
use promises::{stations_keep_the_promise_in_any_order, what_left_the_spool_lies_in_the_inbox};
use secured_wire::{Keeper, SecuredWire};

/// Over secured wires each lane keeps its order, whatever the network does and whoever else sends:
/// what each of two stations receives in their turns is in the order in which it left the other
/// station, and nothing else is received. It is the premise of
/// [`turns_are_of_a_world`](ports_in_order::turns_are_of_a_world) on the wires. This holds if no
/// octets that arrived were forged (`NoneForgedIn`), and if in no lane as many frames were lost in
/// a row as there are frame counts, 2^28 (`FewLost`). What was sealed before these turns counts as
/// forged, so the keys must be new.
pub fn secured_wires_keep_the_order<W: Wire, K: Keeper>()
    ensures { (id : TransactionId) (count : ℕ) (first last : PairState (SecuredState W))
        (turns : Turns (Secures W.steps K.calls) id count first last) → BothBegin first
        → NoneForgedIn W.steps K.calls id count first last turns
        → FewLost W.steps K.calls id count first last turns → (passed : Passage)
        × PassInOrder (Secures W.steps K.calls) id count first last turns passed }
{}

/// Two stations that take turns over secured wires are the stations of a world in which the same
/// frames left and arrived, if the files that they send stood still to the end. So all promises of
/// a world hold for them, though the network loses, alters, repeats, delays and invents whatever it
/// likes. For example, a sender that indicates its put complete can rely on it
/// ([`told_complete_is_published`](ports_in_order::told_complete_is_published)).
pub fn secured_turns_are_of_a_world<W: Wire, K: Keeper>()
    ensures { (c : WorldConfig) (outboxes inboxes : FileMap × FileMap)
        (source destination : List ℕ) (id : TransactionId) (count : ℕ)
        (first : PairState (SecuredState W)) (one : PortState (SecuredState W))
        (last : PairState (SecuredState W))
        → IsWorldConfig c → IsFirstAt c.one outboxes.0 inboxes.0 first.one.station
        → IsFirstAt c.two outboxes.1 inboxes.1 first.two.station
        → AtStation (Puts source destination (Ok id)) first.one one
        → (turns : Turns (Secures W.steps K.calls) id count (record first { one = one }) last)
        → BothBegin (record first { one = one })
        → NoneForgedIn W.steps K.calls id count (record first { one = one }) last turns
        → FewLost W.steps K.calls id count (record first { one = one }) last turns
        → IsTrue last.one.station.entity.state.table.stands
        → IsTrue last.two.station.entity.state.table.stands
        → (passed : Passage) × AreOfWorld c outboxes inboxes
        (record { id = id; source = source; destination = destination }) passed
        last.one.station last.two.station }
{
    secured_wires_keep_the_order::<W, K>();
    turns_are_of_a_world::<SecuredWire<W, K>>();
}

/// **Only what was sealed is handed on over a secured wire, in the same order, and nothing twice**,
/// over all lives of its receiving end, whatever octets arrive. This holds if each number that its
/// keeper noted outlasts a restart (`NotesOutlast`), if no octets were forged (`NoneForgedOver`),
/// and if the sequence numbers of what was sealed rise (`NumbersRise`). A frame that the keeper
/// couldn't note is lost, and nothing is asked of its number.
pub fn only_what_was_sealed_is_handed_on()
    ensures { (all : List Sealed) (receivers : List Receiving) → NumbersRise 1 all
        → NotesOutlast 0 receivers → NoneForgedOver all receivers
        → AreSomeOf (map (λ x. x.bare) all) (all_handed_on receivers) }
{}

/// What a station seals over a secured wire are the frames that it makes, in their order: while
/// frames leave it, and if it restarts with a sequence number that goes on.
pub fn what_is_sealed_are_the_frames_of_a_station<W: Wire, K: Keeper>()
    ensures sent { (count : ℕ) (old new : PortState (SecuredState W))
        (sent : Times (SendsNext (Secures W.steps K.calls)) count old new) (all : List Numbered)
        (k : EndKept) → AreKept all old.wire.sealer.next k
        → AreKeptIn (all ++ sealed_of W.steps K.calls count old new sent k.latest)
        new.wire.sealer.next k.before
        (with_sent (Secures W.steps K.calls) count old new sent k.latest) }
    ensures started { (all : List Numbered) (next now first number : ℕ) (c : StationConfig)
        (old new : Served) → StartsAnew first number c old new → AreKept all next old.kept
        → next ≤ now → AreKept all now new.kept }
{}

/// What a station in service receives over a secured wire are copies of frames that the other
/// station made in any of its lives, each near the one of its lane before it, whatever the network
/// does and whoever else sends. It is the premise on what arrives (`Comes`) in the laws of
/// `promises`. This holds if what was accepted was not forged, if few frames were lost in a row
/// (`Accepts`), and if what was sealed are frames of the other station in their order (`AreKept`),
/// as [`what_is_sealed_are_the_frames_of_a_station`] shows. `TookLast` holds if nothing was
/// received yet, and goes on.
pub fn secured_wires_bring_copies<W: Wire, K: Keeper>()
    ensures { (link : LinkConfig) (theirs old new : EndKept) (all : List Numbered) (next count : ℕ)
        (before after : PortState (SecuredState W))
        (heard : Times (AsksOn (Secures W.steps K.calls)) count before after)
        → AreKept all next theirs → before.wire.opener.security.mac_len ≤ 32
        → TookLast all before.wire.opener.last old
        → Accepts all before.wire.opener (arrivals W.steps K.calls count before after heard) old new
        → Comes link (frames_came (Secures W.steps K.calls) count before after heard) theirs old new
        × TookLast all after.wire.opener.last new }
{}

/// Two stations in service over secured wires are two stations in service over any link, and go on
/// to be: whatever arrives, and whichever station restarts. So all that module `in_service` of
/// `promises` says holds for them. Nothing is asked of the datagrams that arrive, except what
/// `IsAccepted` says of those that are accepted. A station that restarts must go on with its
/// sequence numbers; nothing is asked of the number that it accepted last.
pub fn service_over_secured_wires_is_service<W: PeerWire, K: Keeper>()
    ensures so_far { (c : Setup) (files : Side → FileMap) (now : SecuredPair W)
        → HaveServedSecured W.steps K.calls c files now
        → HaveServed (Secures W.steps K.calls) c files (stations_of now) }
    ensures later { (c : Setup) (files : Side → FileMap) (mid now : SecuredPair W) (more : ℕ)
        → HaveServedSecured W.steps K.calls c files mid
        → Times (GoesSecured W.steps K.calls c) more mid now
        → Times (Goes (Secures W.steps K.calls) c) more (stations_of mid) (stations_of now) }
{}

/// A turn over a secured wire for which memory ran out is one that ended early.
pub fn a_secured_turn_in_part_ends_early<W: PeerWire, K: Keeper>()
    ensures { (files : FileMap) (theirs : List Numbered) (old : SecuredEnd W) (heard : EndKept)
        (last : PortState (SecuredState W)) (wire : SecuredState W) → Rests old.wire wire
        → (turn : TakesInPart (Secures W.steps K.calls)
        (port_state old.served.kept.station wire) last)
        → Accepts theirs wire.opener (arrivals W.steps K.calls turn.hears.count
        (port_state old.served.kept.station wire) turn.hears.last turn.hears.heard)
        old.served.kept heard
        → EndRead (Secures W.steps K.calls) files turn.now turn.heard turn.timed last turn.ends
        → (new : SecuredEnd W) × EndsSecuredEarly W.steps K.calls files theirs old new
        × (new.served.kept.station ≡ last.station) × (new.wire ≡ last.wire)
        × (new.served.calls ≡ old.served.calls) × (new.served.has ≡ old.served.has) }
{}

/// What arrives over a secured wire is accepted as it must be (`Accepts`), whatever it is, if none
/// of the octets was forged (`NoneForgedOf`), and the frames of each lane that may still be
/// accepted are near each other (`AreNear`).
pub fn what_is_not_forged_is_accepted()
    ensures { (o : OpenerState) (came : List Arrival) (all : List Numbered) (next : ℕ)
        (theirs old : EndKept) → AreKept all next theirs → o.security.mac_len ≤ 32
        → TookLast all o.last old → NoneForgedOf o (map (λ x. x.sealed) all) came
        → AreNear all o.last old → (new : EndKept) × Accepts all o came old new }
{}

/// A frame that was sealed with a key of the receiver is accepted as it must be (`Accepts`), if its
/// sequence number is greater than the last one, and its number is at most 2^28 greater than the
/// number of the frame of its lane before it. So an undisturbed link meets what is asked of what
/// arrives.
pub fn what_is_sealed_is_accepted()
    ensures { (s : SealerState) (o : OpenerState) (control : ℕ) (all : List Numbered)
        (x : Numbered) (old : EndKept) → IsSecurity s.security → o.security ≡ s.security
        → s.spi < 2 ^ 16 → s.next < 2 ^ 64 → key_of o s.spi ≡ Some s.key → o.last < s.next
        → 6 ≤ length x.sealed.frame.bare → control < 2 ^ 32 → Contains all x
        → x.sealed.frame.spi ≡ s.spi → x.sealed.frame.key ≡ s.key
        → x.sealed.frame.number ≡ s.next
        → IfSome (last_at x.sealed.lane old) (λ before. x.number ≤ before + frame_counts)
        → Accepts all o
        (record { octets = secured_frame s x.sealed.frame.bare control; handed_on = true } ∷ [])
        old (with_last x.sealed.lane x.number old) }
{}

/// Two stations in service over secured wires keep the promise of delivery, whatever arrives and
/// whichever station restarts: each inbox is the first one, overwritten by the files of the puts
/// that its station completed, in that order. This holds if no octets that arrived were forged and
/// few frames were lost in a row (`IsAccepted`), if a station that restarts goes on with its
/// sequence numbers, and if the files to send are as
/// [`stations_keep_the_promise_in_any_order`](promises::stations_keep_the_promise_in_any_order)
/// asks. Nothing is asked of what the network does.
pub fn stations_over_secured_wires_keep_the_promise<W: PeerWire, K: Keeper>()
    ensures { (c : Setup) (files : Side → FileMap) (now : SecuredPair W) → AreJoined c
        → HaveServedSecured W.steps K.calls c files now → KeepPromise c files (stations_of now) }
{
    service_over_secured_wires_is_service::<W, K>();
    stations_keep_the_promise_in_any_order::<SecuredWire<W, K>>();
}

/// What left a spool as sent lies in the inbox of the other station, over secured wires: at any
/// moment of any life of its station, and at each later one, whatever arrives and whichever station
/// restarts. What is asked is said at [`stations_over_secured_wires_keep_the_promise`].
pub fn what_left_the_spool_lies_beyond_secured_wires<S: Spool, W: PeerWire, K: Keeper>()
    ensures { (c : Setup) (files : Side → FileMap) (mid now : SecuredPair W) (more : ℕ)
        → AreJoined c → HaveServedSecured W.steps K.calls c files mid
        → Times (GoesSecured W.steps K.calls c) more mid now → (s : Side)
        (old new : ClerkState S)
        → Chain (ClerkSteps S.sent S.failed) (served_at s (stations_of mid)).calls old new
        → old.asked ≡ None → old.files ≡ [] → (left : List (List ℕ))
        × (S.sent new.spool ≡ S.sent old.spool ++ left)
        × AreDelivered s (served_at s (stations_of mid)).calls left (stations_of now) }
{
    service_over_secured_wires_is_service::<W, K>();
    what_left_the_spool_lies_in_the_inbox::<S, SecuredWire<W, K>>();
}
