//! What two stations in service do, and what is promised of it: laws, each the contract of a
//! function that does nothing.
ghost use Rattle.std.specs.Prelude.{◌≡◌, ◌+◌, ◌<◌, ◌≤◌, ◌%◌, ◌++◌, ℕ, List, [], length, None};
ghost use Rattle.std.specs.Prelude.{Option, IsTrue, true};
ghost use Rattle.aos_frame.specs.Counts.{frame_counts};
ghost use Rattle.aos_frame.specs.declared.config.Lane.{Lane};
ghost use Rattle.aos_frame.specs.declared.config.LinkConfig.{LinkConfig};
ghost use Rattle.cfdp_header.specs.Files.{FileMap};
ghost use Rattle.cfdp_directives.specs.User.Put.{Put};
ghost use Rattle.cfdp_entity.specs.Config.{IsConfig};
ghost use Rattle.cfdp_entity.specs.Entity.{EntityState};
ghost use Rattle.cfdp_endings.specs.Entity.{AreRounds, GivesUp, IsLively, NoneOpen, records_left};
ghost use Rattle.cfdp_station.specs.New.{IsNewAt};
ghost use Rattle.cfdp_station.specs.Station.{StationState};
ghost use Rattle.cfdp_station.specs.Transmitting.{Times, Transmits};
ghost use Rattle.cfdp_station.specs.declared.config.StationConfig.{StationConfig};
ghost use Rattle.any_order.specs.Calls.{AreJoined, Call, Setup, Side, numbered_from, setup_of};
ghost use Rattle.any_order.specs.Kept.{EndKept, Makes, frames_in};
ghost use Rattle.cfdp_port.specs.Asking.{CountsFrom};
ghost use Rattle.cfdp_port.specs.Passing.{frames_came};
ghost use Rattle.cfdp_port.specs.PeerTurn.{TakesInPart};
ghost use Rattle.cfdp_port.specs.Port.{PortState, port_state, table_of};
ghost use Rattle.cfdp_service.specs.Calls.{Chain, UserCall};
ghost use Rattle.cfdp_service.specs.Serving.{Does};
ghost use Rattle.cfdp_service.specs.declared.wish.Reply.{Reply};
ghost use Rattle.cfdp_service.specs.declared.wish.Wish.{Wish};
ghost use Rattle.cfdp_service.specs.Clerk.{ClerkState, ClerkSteps};
ghost use Rattle.shown_sources.specs.Shown.{AreAsLong};
ghost use Rattle.promises.specs.Passing.{Comes, EndRead, EndsEarly, TakesTurn, with_given};
ghost use Rattle.promises.specs.Promise.{AreDelivered, KeepPromise};
ghost use Rattle.promises.specs.Serving.{Fulfils, Goes, HaveServed, IsBegun, IsFree, IsPrepared};
ghost use Rattle.promises.specs.Serving.{Leads};
ghost use Rattle.promises.specs.Serving.{MayFind, Served, StartsAnew, Stations, kept_sending};
ghost use Rattle.promises.specs.Serving.{served_at, served_on, with_has};

use cfdp_endings::{an_entity_alone_ends, an_entity_is_never_silent};
use cfdp_entity::{
    an_entity_goes_on, an_entity_keeps_the_truth, an_entity_may_forget, an_entity_sends_the_truth,
};
use cfdp_port::PeerWire;
use cfdp_service::Spool;
use link_stack::what_comes_up_was_put_in_once;

/// What a port does in a turn is calls of its station, as [`any_order`] has them: whole, or ended
/// early. Each datagram that comes is a frame that the other station made in one of its lives, and
/// near the one of its lane before it, or octets from which no packet can come; and what is read of
/// the files that are sent is what these files have. They are calls of the station with what its
/// files have in the place of what its outbox has.
pub fn a_turn_is_calls<W: PeerWire>()
    ensures whole { (c : StationConfig) (files : FileMap) (theirs old new : EndKept)
        (puts : List Put) → TakesTurn W.steps c.receives files theirs old new
        → AreAsLong (table_of old.station).sources files → (calls : List Call)
        × Makes calls c (kept_sending files old) theirs (kept_sending files new) puts puts }
    ensures early { (c : StationConfig) (files : FileMap) (theirs old new : EndKept)
        (puts : List Put) → EndsEarly W.steps c.receives files theirs old new
        → AreAsLong (table_of old.station).sources files → (calls : List Call)
        × Makes calls c (kept_sending files old) theirs (kept_sending files new) puts puts }
{
    an_entity_goes_on();
}

/// What [`Station::transmit`](cfdp_station::Station::transmit) does is calls of its station, as
/// [`any_order`] has them, if its files stand: polls, lanes that are filled, and the frame that is
/// given. So a loop of puts, ticks, frames that are received and transmissions is such calls, and
/// [`any_order::the_promise_holds_in_any_order`] is about it.
pub fn a_transmission_is_calls()
    ensures { (c : StationConfig) (theirs old new : EndKept) (answer : Option Lane)
        (frame : List ℕ) (puts : List Put) → Transmits answer frame old.station new.station
        → IsTrue (table_of new.station).stands
        → new ≡ record old { station = new.station; latest = with_given answer frame old.latest }
        → (calls : List Call) × Makes calls c old theirs new puts puts }
{
    an_entity_goes_on();
}

/// A turn for which memory ran out is one that ended early.
pub fn a_turn_in_part_ends_early<W: PeerWire>()
    ensures { (link : LinkConfig) (files : FileMap) (theirs old heard : EndKept) (wire : W)
        (last : PortState W) (turn : TakesInPart W.steps (port_state old.station wire) last)
        → Comes link (frames_came W.steps turn.hears.count (port_state old.station wire)
        turn.hears.last turn.hears.heard) theirs old heard
        → EndRead W.steps files turn.now turn.heard turn.timed last turn.ends
        → (new : EndKept) × EndsEarly W.steps link files theirs old new
        × (new.station ≡ last.station) }
{}

/// What a station does for a wish in service is what `Serving` says of it, if a record is sending
/// the file that is wished, or none is left that has its name: whatever the file has then that was
/// looked for, if it is as long as the outbox found it.
pub fn what_is_wished_is_fulfilled()
    ensures { (wish : Wish) (reply : Reply) (has now : FileMap) (old new : StationState)
        (does : Does wish reply old new) → IsFree wish (table_of old)
        → MayFind wish reply old new does has now
        → (added : List Put) × Fulfils wish reply has now old new added }
{}

/// All that a station in service does between two turns is deeds of it, with the very calls of its
/// user: its wishes are done, what it indicated is reported and discarded, transactions that are
/// over are released, and the user says what it intends.
pub fn what_is_done_between_turns_is_deeds<W: PeerWire>()
    ensures { (c : Setup) (s : Side) (old : Stations) (calls : List UserCall)
        (now : FileMap) (station : StationState) →
        IsPrepared calls (served_at s old).has now (served_at s old).kept.station station
        → (puts : List Put)
        × Leads W.steps c s old (with_has now (served_on station calls (served_at s old))) puts }
{}

/// Each new station may be what a station becomes at a start, whatever files it sends and its
/// inbox says that it has, if its numbers are apart from those before: so an inbox over a folder,
/// which says at a start that it published nothing, meets what is asked of a start.
pub fn a_new_station_starts_anew()
    ensures { (c : StationConfig) (count first number : ℕ) (old : Served)
        (sources files has : FileMap) (fresh station : StationState)
        → IsConfig (numbered_from number c.entity)
        → IsNewAt (record c { entity = numbered_from number c.entity }) true sources files fresh
        → CountsFrom count fresh station → count % frame_counts ≡ first % frame_counts
        → old.kept.station.entity.state.next ≤ number
        → ((lane : Lane)
        → old.kept.latest.first + length (frames_in lane old.kept.latest) < first)
        → AreAsLong sources has → (new : Served) × StartsAnew first number c old new
        × (new.kept.station ≡ station) × (new.begun ≡ files) × (new.has ≡ has) }
{}

/// Any two new stations have served, with nothing done yet: whatever files they send and their
/// inboxes say that they have, and from whatever numbers on their frames are counted.
pub fn two_new_stations_have_served<W: PeerWire>()
    ensures { (c : Setup) (counts : Side → ℕ) (sources files has : Side → FileMap)
        (stations : Side → StationState)
        → ((s : Side) → IsBegun (setup_of s c) (counts s) (sources s) (files s) (stations s))
        → ((s : Side) → AreAsLong (sources s) (has s))
        → (now : Stations) × HaveServed W.steps c files now
        × ((s : Side) → (served_at s now).kept.station ≡ stations s) }
{}

/// Two stations in service keep the promise of delivery in whatever order and however often their
/// frames come, whatever octets come among them from which no packet can come, and whenever either
/// restarts: after anything that was done at either, one thing after another.
///
/// At each station the wishes of any user are done; what the station indicates is reported and
/// discarded, and transactions that are over are released; and turns are taken, and each may
/// end early. A station may restart at any time, with any files in its inbox; it must count its
/// frames so that at least one number is left out, and must number its puts after all before. The
/// link must be as [`any_order::the_promise_holds_in_any_order`] asks; and no read of the files to
/// send, whatever they have, may show a change: what is read of a file is what it had when it was
/// looked for, and none becomes another one as long as a record is left that sent it.
pub fn stations_keep_the_promise_in_any_order<W: PeerWire>()
    ensures { (c : Setup) (files : Side → FileMap) (now : Stations) → AreJoined c
        → HaveServed W.steps c files now → KeepPromise c files now }
{
    what_comes_up_was_put_in_once();
    an_entity_keeps_the_truth();
    an_entity_goes_on();
    an_entity_sends_the_truth();
    an_entity_may_forget();
}

/// Whatever is done at two stations in service, every record that is open at either has something
/// to do, as `IsLively` says, by the policy that it was set up with. So whatever it has open ends
/// by its limits if it receives nothing from then on: after as many rounds as `records_left` says
/// nothing is open.
pub fn what_is_open_ends_in_service<W: PeerWire>()
    ensures lively { (c : Setup) (files : Side → FileMap) (now : Stations) → AreJoined c
        → HaveServed W.steps c files now → (s : Side)
        → IsLively (served_at s now).kept.station.entity.state }
    ensures policy { (c : Setup) (files : Side → FileMap) (now : Stations) → AreJoined c
        → HaveServed W.steps c files now → (s : Side)
        → (served_at s now).kept.station.entity.state.config.policy
        ≡ (setup_of s c).entity.policy }
    ensures ends { (c : Setup) (files : Side → FileMap) (now : Stations) → AreJoined c
        → HaveServed W.steps c files now → (s : Side) → GivesUp (setup_of s c).entity.policy
        → (n : ℕ) (alone : EntityState)
        → AreRounds n (served_at s now).kept.station.entity.state alone
        → records_left (setup_of s c).entity.policy.limits
        (table_of (served_at s now).kept.station).records ≤ n → NoneOpen alone.table.records }
{
    what_comes_up_was_put_in_once();
    an_entity_keeps_the_truth();
    an_entity_goes_on();
    an_entity_sends_the_truth();
    an_entity_may_forget();
    an_entity_is_never_silent();
    an_entity_alone_ends();
}

/// What left a spool as sent lies in the inbox of the other station, if a clerk is the user: at any
/// moment of any life of its station, and at each later one, whatever was lost, repeated or late,
/// and whichever station restarted. For each file that left there is a put of its own: in this life
/// it was put under its own name, the put was accepted, and the station indicated it complete. So
/// the other station has published it in one of its lives, and under that name had it as this life
/// ended, or has it now, or a file that was completed later in this life under the same name.
pub fn what_left_the_spool_lies_in_the_inbox<S: Spool, W: PeerWire>()
    ensures { (c : Setup) (files : Side → FileMap) (mid now : Stations) (more : ℕ) → AreJoined c
        → HaveServed W.steps c files mid → Times (Goes W.steps c) more mid now → (s : Side)
        (old new : ClerkState S)
        → Chain (ClerkSteps S.sent S.failed) (served_at s mid).calls old new
        → old.asked ≡ None → old.files ≡ [] → (left : List (List ℕ))
        × (S.sent new.spool ≡ S.sent old.spool ++ left) × AreDelivered s (served_at s mid).calls left now }
{
    what_comes_up_was_put_in_once();
    an_entity_keeps_the_truth();
    an_entity_goes_on();
    an_entity_sends_the_truth();
    an_entity_may_forget();
}
