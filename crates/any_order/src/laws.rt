//! The laws, each the contract of a function that does nothing.
ghost use Rattle.std.specs.Prelude.{◌≡◌, ◌∷◌, ℕ, List, []};
ghost use Rattle.cfdp_header.specs.Files.{FileMap};
ghost use Rattle.any_order.specs.Calls.{AreJoined, Event, Happen, IsNew, Pair, Setup, Side, at};
ghost use Rattle.any_order.specs.Calls.{setup_of};
ghost use Rattle.any_order.specs.Calls.{Call, Restarts, other};
ghost use Rattle.any_order.specs.Onward.{AreNoStarts, BeginsAnew, GoesOn, GoesOnInNewLife};
ghost use Rattle.any_order.specs.Promise.{HoldsAt};
ghost use Rattle.any_order.specs.Resuming.{HappenOrResume, LifeEvent};
ghost use Rattle.any_order.specs.World.{Happened, HasResumed, HasRun, KeepsPromise, ResumesIn};
ghost use Rattle.any_order.specs.World.{WorldKept, kept_at, sources_at};

use cfdp_entity::{an_entity_goes_on, an_entity_keeps_the_truth, an_entity_sends_the_truth};
use cfdp_resuming::{a_resumed_entity_is_sound, an_entity_whose_records_are_restored_resumes};
use link_stack::what_comes_up_was_put_in_once;

/// What is promised of the delivery of files holds in whatever order and however often the frames
/// of a lane come, whatever octets come among them from which no packet can come, and whenever
/// either station restarts.
///
/// Two stations are new, and set up to send to each other. Any calls are made at both. What a
/// station receives is a copy of a frame that the other one gave, any of its frames; or octets that
/// are no frame of the link, as a damaged frame is if there is frame error control, or a frame of
/// idle data. Of two copies of a lane, one received right after the other, the number of the second
/// must be greater by at most 2^28, or smaller by less than 2^28 - 1. A station that restarts keeps
/// the files of its inbox and those that it can send, and nothing else; it must number its puts
/// from a number on that it never used, and its frames so that at least one number is left out.
/// Then for each station: its inbox is the first files, overwritten by those of the puts that it
/// indicated complete, in that order, over all its lives; in one life no transaction was finished
/// twice; each of those puts was heard in full; if a sender indicated its put complete, the other
/// station has completed it, in some life; and what either says of a file is true.
pub fn the_promise_holds_in_any_order()
    ensures { (c : Setup) (counts : Side → ℕ) (sources files : Side → FileMap)
        (events : List Event) (start now : Pair) → AreJoined c →
        ((s : Side) → IsNew (setup_of s c) (counts s) (sources s) (files s) (at s start)) →
        start.puts ≡ [] → Happen c events start now → (s : Side) → HoldsAt s (files s) now }
{
    what_comes_up_was_put_in_once();
    an_entity_keeps_the_truth();
    an_entity_goes_on();
    an_entity_sends_the_truth();
}

/// The promise of delivery holds also if stations that were killed resume.
///
/// All is as in [`the_promise_holds_in_any_order`], and besides restarts, either station may
/// resume, any number of times. After that its link is new and leaves out at least one number of
/// frames. Its records are restored as `IsResumed` says. Then the five promises hold for each
/// station. That no transaction is finished twice is said of all that a station indicated since its
/// last restart, through all times that it resumed.
pub fn the_promise_holds_where_stations_resume()
    ensures { (c : Setup) (counts : Side → ℕ) (sources files : Side → FileMap)
        (events : List LifeEvent) (start now : Pair) → AreJoined c →
        ((s : Side) → IsNew (setup_of s c) (counts s) (sources s) (files s) (at s start)) →
        start.puts ≡ [] → HappenOrResume c events start now → (s : Side) → HoldsAt s (files s) now }
{
    what_comes_up_was_put_in_once();
    an_entity_keeps_the_truth();
    an_entity_goes_on();
    an_entity_sends_the_truth();
    a_resumed_entity_is_sound();
}

/// If a station of a world is restored on a new one as `ResumesIn` says, it resumes in the sense of
/// the promise.
pub(crate) fn a_world_resumes()
    ensures { (side : Side) (first number : ℕ) (old new : WorldKept) → HasRun old →
        ResumesIn side first number old new → HasResumed side first number old new }
{
    what_comes_up_was_put_in_once();
    an_entity_keeps_the_truth();
    an_entity_goes_on();
    an_entity_sends_the_truth();
    a_resumed_entity_is_sound();
    an_entity_whose_records_are_restored_resumes();
}

/// If a station resumes, the life of its link that it had is the last of those before, and the list
/// of what it indicated goes on. The other station goes on, and the files that both can send stay.
pub fn a_resume_goes_on()
    ensures { (side : Side) (first number : ℕ) (old new : WorldKept) → KeepsPromise old →
        HasResumed side first number old new →
        GoesOnInNewLife (kept_at side old) (kept_at side new)
        × (GoesOn (kept_at (other side) old) (kept_at (other side) new)
        × ((s : Side) → sources_at s new ≡ sources_at s old)) }
{}

/// The files that both stations can send stay, whatever is called: so those of stores over the same
/// files are what [`UnorderedWorld::restart`](crate::UnorderedWorld::restart) asks for, at any
/// time.
pub fn the_files_to_send_stay()
    ensures { (side : Side) (calls : List Call) (old new : WorldKept) → KeepsPromise old →
        Happened side calls old new → (s : Side) → sources_at s new ≡ sources_at s old }
{
    an_entity_keeps_the_truth();
    an_entity_goes_on();
    an_entity_sends_the_truth();
}

/// What was indicated and sent in the lives before stays, and no indication is discarded, whatever
/// is called: a start makes the life that a station had the last of those before. What a resume
/// does is said by [`a_resume_goes_on`].
pub fn lives_stay()
    ensures calls { (side : Side) (calls : List Call) (old new : WorldKept) → KeepsPromise old →
        Happened side calls old new → AreNoStarts calls →
        (s : Side) → GoesOn (kept_at s old) (kept_at s new) }
    ensures start { (side : Side) (first number : ℕ) (old new : WorldKept) → KeepsPromise old →
        Happened side (Restarts first number ∷ []) old new →
        BeginsAnew (kept_at side old) (kept_at side new)
        × GoesOn (kept_at (other side) old) (kept_at (other side) new) }
{
    an_entity_keeps_the_truth();
    an_entity_goes_on();
    an_entity_sends_the_truth();
}
