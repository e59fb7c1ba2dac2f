//! What is promised of stations in service that resume: laws, each the contract of a function that
//! does nothing.
ghost use Rattle.std.specs.Prelude.{◌≡◌, ◌++◌, ◌+◌, ◌<◌, ℕ, List, None, Contains, length, take};
ghost use Rattle.aos_frame.specs.declared.config.Lane.{Lane};
ghost use Rattle.cfdp_header.specs.Files.{FileMap};
ghost use Rattle.cfdp_directives.specs.User.Completions.{FinishedOnce};
ghost use Rattle.cfdp_directives.specs.declared.user.indication.Indication.{Indication};
ghost use Rattle.cfdp_station.specs.Transmitting.{Times};
ghost use Rattle.any_order.specs.Calls.{AreJoined, Setup, Side};
ghost use Rattle.any_order.specs.Kept.{frames_in};
ghost use Rattle.cfdp_service.specs.Calls.{Chain};
ghost use Rattle.cfdp_service.specs.Clerk.{ClerkState, ClerkSteps};
ghost use Rattle.cfdp_service.specs.declared.clerk.OpenFile.{OpenFile};
ghost use Rattle.promises.specs.Promise.{KeepPromise};
ghost use Rattle.promises.specs.Serving.{HaveServed, Stations};
ghost use Rattle.promises.specs.ResumedPromise.{AreDelivered, CameBack};
ghost use Rattle.promises.specs.Resuming.{AreSummed, BothLives, GoesOrResumes};
ghost use Rattle.promises.specs.Resuming.{HaveServedOrResumed, calls_in, entity_in};
ghost use Rattle.promises.specs.Resuming.{life_of, stations_of};

use cfdp_entity::{
    an_entity_goes_on, an_entity_keeps_the_truth, an_entity_may_forget, an_entity_sends_the_truth,
};
use cfdp_port::PeerWire;
use cfdp_resuming::{a_resumed_entity_is_sound, an_entity_may_resume_as_it_was};
use cfdp_service::Spool;
use link_stack::what_comes_up_was_put_in_once;

/// Stations that only restart are a case of stations that restart or resume.
pub fn stations_that_restart_are_such<W: PeerWire>()
    ensures { (c : Setup) (files : Side → FileMap) (now : Stations)
        → HaveServed W.steps c files now → (lives : BothLives)
        × HaveServedOrResumed W.steps c files lives × (stations_of lives ≡ now) }
{}

/// What is asked of a station that resumes can be met: at any moment of any such history each
/// station may be killed, and resume as it was, if the sums of its receivers are those of what is
/// staged, and its frames are counted on. Its user may hear again whatever was discarded.
pub fn a_station_may_resume_at_any_time<W: PeerWire>()
    ensures { (c : Setup) (files : Side → FileMap) (now : BothLives) → AreJoined c
        → HaveServedOrResumed W.steps c files now → (s : Side) (first : ℕ)
        (again : List Indication) → ((lane : Lane) → (life_of s now).served.kept.latest.first
        + length (frames_in lane (life_of s now).served.kept.latest) < first)
        → ((i : Indication) → Contains again i
        → Contains (take (entity_in (life_of s now)).table.gone
        (entity_in (life_of s now)).table.told) i) → FinishedOnce again
        → AreSummed (entity_in (life_of s now)).table.records → (next : BothLives)
        × GoesOrResumes W.steps c now next
        × ((life_of s next).back ≡ (entity_in (life_of s now)).table.records)
        × ((life_of s next).again ≡ again) }
{
    what_comes_up_was_put_in_once();
    an_entity_keeps_the_truth();
    an_entity_goes_on();
    an_entity_sends_the_truth();
    an_entity_may_forget();
    a_resumed_entity_is_sound();
    an_entity_may_resume_as_it_was();
}

/// Two stations in service keep the promise of delivery also if either restarts or resumes, any
/// number of times: after anything that was done at either, one thing after another.
///
/// All is as in
/// [`stations_keep_the_promise_in_any_order`](crate::stations_keep_the_promise_in_any_order). A
/// station that resumes must do so as `ResumesFrom` says. Its inbox goes on then: in each life that
/// a start began, through all times that the station resumed, the inbox is what it was as that life
/// began, overwritten by the files of the puts that the station completed in it.
pub fn stations_keep_the_promise_where_they_resume<W: PeerWire>()
    ensures { (c : Setup) (files : Side → FileMap) (now : BothLives) → AreJoined c
        → HaveServedOrResumed W.steps c files now → KeepPromise c files (stations_of now) }
{
    what_comes_up_was_put_in_once();
    an_entity_keeps_the_truth();
    an_entity_goes_on();
    an_entity_sends_the_truth();
    an_entity_may_forget();
    a_resumed_entity_is_sound();
}

/// What left a spool as sent lies in the inbox of the other station, if a clerk is the user, also
/// where stations resume: at any moment of any life of its station, and at each later one, whatever
/// was lost, repeated or late, and whichever station restarted or resumed.
///
/// The clerk may begin a life with open files if its station resumed: each must be the file of a
/// record that came back, which sends it under its own name. It may then hear ends again that the
/// clerk before may have heard. For each file that left in this life there is a put of its own: it
/// was put under its own name, in this life or before, and the station indicated it complete. So
/// the other station has published it, and under that name had it as that life of its inbox ended,
/// or has it now, or a file that was completed later in that life under the same name.
pub fn what_left_a_spool_lies_in_the_inbox_where_stations_resume<S: Spool, W: PeerWire>()
    ensures { (c : Setup) (files : Side → FileMap) (then now : BothLives) (more : ℕ) → AreJoined c
        → HaveServedOrResumed W.steps c files then → Times (GoesOrResumes W.steps c) more then now
        → (s : Side) (old new : ClerkState S)
        → Chain (ClerkSteps S.sent S.failed) (calls_in (life_of s then)) old new
        → old.asked ≡ None
        → ((file : OpenFile) → Contains old.files file
        → CameBack (life_of s then).back file.name.items file.id) → (left : List (List ℕ))
        × (S.sent new.spool ≡ S.sent old.spool ++ left) × AreDelivered s left then now }
{
    what_comes_up_was_put_in_once();
    an_entity_keeps_the_truth();
    an_entity_goes_on();
    an_entity_sends_the_truth();
    an_entity_may_forget();
    a_resumed_entity_is_sound();
}
