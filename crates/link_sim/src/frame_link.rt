//! The frames of one lane of a direction of a link.
ghost use Rattle.std.specs.Prelude.{◌≡◌, ◌≢◌, ◌+◌, ◌*◌, ◌<◌, ◌≤◌, ◌↔◌, ◌++◌, [], ◌∷◌, true, false};
ghost use Rattle.std.specs.Prelude.{length, take, drop, slice_get, slice_index_or, OnOk, Some};
ghost use Rattle.std.specs.Prelude.{IfSome, MatchOption};
ghost use Rattle.aos_frame.specs.Frame.{frame_len};
ghost use Rattle.link_stack.specs.Downward.{MakesFrame, frame_lane, lane_down};
ghost use Rattle.link_sim.specs.FrameLink.{most_struck, mark_at, oldest, oldest_place};
ghost use Rattle.link_sim.specs.AtStation.{AddsNone, AreSameEnds, IsSameMarks, OnlyLane};
ghost use Rattle.link_sim.specs.declared.mark.Loss.TheVariants as losses;

use crate::loss_run::LossRun;
use crate::mark::{Loss, Mark};
use aos_frame::Lane;
use cfdp_station::Station;
use cfdp_store::{Inbox, Outbox};
use std::alloc::{AllocError, Global};
use std::marker::Model;

/// Makes the oldest whole zone that waits at a station a frame, in the octets from octet `at` on.
/// It is one of this lane. All other octets stay.
fn write_frame<O: Outbox, I: Inbox>(
    station: &mut Station<O, I>,
    lane: Lane,
    octets: &mut [u8],
    at: usize,
)
    requires lane { frame_lane station.old.down ≡ Some lane }
    requires room { at + frame_len (lane_down lane station.old.down).link ≤ length octets.old }
    ensures made { MakesFrame
        (take (frame_len (lane_down lane station.old.down).link) (drop at octets.new))
        (lane_down lane station.old.down) (lane_down lane station.new.down) }
    ensures only { OnlyLane lane station.old station.new }
    ensures front { take at octets.new ≡ take at octets.old }
    ensures whole { length octets.new ≡ length octets.old }
{
    let (_, behind) = octets.split_at_mut(at);
    let (frame, _) = behind.split_at_mut(station.frame_len());
    let _ = station.next_frame(frame);
}

/// Returns how many octets so many frames have, and so many more, or `None` if that is no `usize`.
fn octets_of(frames: usize, more: usize, len: usize) -> Option<usize>
    ensures { IfSome result (λ n. n ≡ (frames + more) * len) }
{
    frames.checked_add(more)?.checked_mul(len)
}

/// The frames that one station sent in one lane, in order, and what became of them.
///
/// They stand in one buffer. Room for more must be made ahead, by [`make_room`](Self::make_room);
/// so to take one from the station's end needs no memory, nor to mark it.
#[derive(Debug, Drop)]
pub struct FrameLink {
    // octets of each frame
    len: usize,
    // how many frames there are
    count: usize,
    // how many more have room
    blanks: usize,
    // The frames, one after the other, and after them the octets of those to come.
    octets: Vec<u8>,
    // Of each frame: how many of both lanes were sent before it. All frames have room.
    places: Vec<usize>,
    // Of those that no longer wait: `true` if delivered. All frames have room, those to come too.
    marks: Vec<bool>,
    run: LossRun,
}

impl Model for FrameLink {
    ghost use Rattle.std.specs.Prelude.{◌≡◌, ◌+◌, ◌*◌, ◌≤◌, vec_capacity, length};
    ghost use Rattle.link_sim.specs.FrameLink.{FrameLinkState, pieces};

    ghost Value = { FrameLinkState };

    ghost view = { λ l. record {
      frames = pieces l.len l.count l.octets.items;
      places = l.places.items;
      marks =
          l.marks.items;
      run = l.run;
      blanks = l.blanks;
      len = l.len;
    } };

    ghost invariant = { λ l. (length l.octets.items ≡ (l.count + l.blanks) * l.len)
        × (l.count + l.blanks ≤ vec_capacity l.marks)
        × (length l.places.items ≡ l.count)
        × (l.count + l.blanks ≤ vec_capacity l.places) };
}

impl FrameLink {
    /// Makes a link on which nothing was sent; frames will have `len` octets. It takes no memory.
    #[tactic(auto, using(crate::proofs::Ways::Placing::pieces_none))]
    pub fn new(alloc: Global, len: usize) -> Self
        ensures { result ≡ record {
          frames = [];
          places = [];
          marks = [];
          run = 0;
          blanks = 0;
          len = len;
        } }
    {
        FrameLink {
            len,
            count: 0,
            blanks: 0,
            octets: Vec::new(alloc),
            places: Vec::new(alloc),
            marks: Vec::new(alloc),
            run: LossRun::new(),
        }
    }

    /// Makes room until so many frames to come have it.
    ///
    /// # Errors
    ///
    /// `AllocError` if the memory was refused: as many have room as before.
    pub fn make_room(&mut self, count: usize) -> Result<(), AllocError>
        ensures ok { OnOk result (count ≤ self.new.blanks) }
        ensures grows { self.old.blanks ≤ self.new.blanks }
        ensures kept { (self.new.frames ≡ self.old.frames) × (self.new.marks ≡ self.old.marks)
            × (self.new.run ≡ self.old.run) × (self.new.len ≡ self.old.len) }
        ensures places { self.new.places ≡ self.old.places }
    {
        if count <= self.blanks {
            return Ok(());
        }
        let Some(octets) = octets_of(self.count, count, self.len) else {
            return Err(AllocError);
        };
        let marks = self.count.saturating_add(count);
        self.marks.reserve(marks.saturating_sub(self.marks.len()))?;
        self.places.reserve(count)?;
        self.octets.resize(octets, 0)?;
        self.blanks = count;
        Ok(())
    }

    /// Takes the oldest whole zone that waits at a station in this lane as a frame, if it has room;
    /// it leaves next. So many frames of both lanes were sent before it.
    ///
    /// Returns `false` if there is no room: nothing changed then.
    pub fn pull<O: Outbox, I: Inbox>(
        &mut self,
        station: &mut Station<O, I>,
        lane: Lane,
        place: usize,
    ) -> bool
        requires lane { frame_lane station.old.down ≡ Some lane }
        requires len { self.old.len ≡ frame_len (lane_down lane station.old.down).link }
        ensures none { (result ≡ false) ↔ (self.old.blanks ≡ 0) }
        ensures kept { result ≡ false → (self.new ≡ self.old) × (station.new ≡ station.old) }
        // It adds nothing to what was sent in the lane, nor to what was delivered.
        ensures way { AddsNone (lane_down lane station.old.down) (lane_down lane station.new.down)
            self.old self.new }
        ensures left { result ≡ true → (lane_down lane station.new.down).waiting
            ≡ drop (lane_down lane station.old.down).link.zone
            (lane_down lane station.old.down).waiting }
        ensures used { result ≡ true → self.new.blanks + 1 ≡ self.old.blanks }
        ensures grown { result ≡ true →
            length self.new.frames ≡ length self.old.frames + 1 }
        ensures placed { result ≡ true → self.new.places ≡ self.old.places ++ place ∷ [] }
        ensures only { OnlyLane lane station.old station.new }
        ensures fixed { AreSameEnds station.old.down station.new.down }
        ensures marks { IsSameMarks self.old self.new }
    {
        if self.blanks == 0 {
            return false;
        }
        let at = self.count * self.len;
        write_frame(station, lane, &mut self.octets, at);
        let _ = self.places.push(place);
        self.count += 1;
        self.blanks -= 1;
        true
    }

    /// Returns how many frames of both lanes were sent before the oldest that waits in this one, or
    /// `None` if none waits.
    pub fn oldest_place(&self) -> Option<usize>
        ensures place { result ≡ oldest_place self.now }
        ensures waits { MatchOption result (length self.now.frames ≤ length self.now.marks)
            (λ _. length self.now.marks < length self.now.frames) }
    {
        self.place(self.marks.len())
    }

    fn place(&self, frame: usize) -> Option<usize>
        ensures { result ≡ slice_get self.now.places frame }
    {
        self.places.get(frame).copied()
    }

    /// Returns how many frames were sent.
    #[tactic(auto, using(crate::proofs::Ways::Placing::pieces_len))]
    pub fn count(&self) -> usize
        ensures { result ≡ length self.now.frames }
    {
        self.count
    }

    /// Returns the frame at a place, from 0 on, in the order sent, or `None` if there is no such
    /// frame.
    #[tactic(auto, using(crate::proofs::Ways::Placing::pieces_len, crate::proofs::Ways::Placing::pieces_at, crate::proofs::Ways::Placing::room_at))]
    pub fn frame(&self, place: usize) -> Option<&[u8]>
        ensures { MatchOption result (length self.now.frames ≤ place)
            (λ f. (place < length self.now.frames)
            × (f.now ≡ slice_index_or self.now.frames place [])) }
    {
        if place >= self.count {
            return None;
        }
        let (_, behind) = self.octets.split_at(place * self.len);
        let (frame, _) = behind.split_at(self.len);
        Some(frame)
    }

    /// Returns the oldest frame that waits, or `None` if none does.
    pub fn oldest(&self) -> Option<&[u8]>
        ensures { MatchOption result (length self.now.frames ≤ length self.now.marks)
            (λ f. (length self.now.marks < length self.now.frames) × (f.now ≡ oldest self.now)) }
    {
        self.frame(self.marks.len())
    }

    /// Marks the oldest frame that waits as delivered; one must wait.
    #[tactic(auto, using(crate::proofs::Ways::Placing::pieces_len))]
    pub fn deliver(&mut self)
        requires { length self.old.marks < length self.old.frames }
        ensures { self.new ≡ record self.old { marks = self.old.marks ++ true ∷ []; run = 0 } }
    {
        self.run.deliver();
        let _ = self.marks.push(true);
    }

    /// Strikes the oldest frame that waits, unless the last [`MOST_STRUCK`](crate::MOST_STRUCK)
    /// frames taken were struck.
    #[tactic(auto, using(crate::proofs::Ways::Placing::pieces_len))]
    pub fn strike(&mut self) -> Loss
        ensures done { result ≡ losses.Done → (length self.old.marks < length self.old.frames)
            × (self.old.run < most_struck)
            × (self.new ≡ record self.old {
              marks = self.old.marks ++ false ∷ [];
              run =
                  self.old.run + 1;
            }) }
        ensures none { (result ≡ losses.NoneWaits)
            ↔ (length self.old.frames ≤ length self.old.marks) }
        ensures long { (result ≡ losses.TooMany)
            ↔ ((length self.old.marks < length self.old.frames) × (self.old.run ≡ most_struck)) }
        ensures kept { result ≢ losses.Done → self.new ≡ self.old }
    {
        if self.marks.len() >= self.count {
            return Loss::NoneWaits;
        }
        if !self.run.strike() {
            return Loss::TooMany;
        }
        let _ = self.marks.push(false);
        Loss::Done
    }

    /// Returns what became of the frame at a place, from 0 on, or `None` if there is no such frame.
    pub fn mark(&self, place: usize) -> Option<Mark>
        ensures { MatchOption result (length self.now.frames ≤ place)
            (λ m. (place < length self.now.frames) × (m ≡ mark_at self.now place)) }
    {
        if place >= self.count() {
            return None;
        }
        match self.marks.get(place) {
            None => Some(Mark::Waiting),
            Some(true) => Some(Mark::Delivered),
            Some(false) => Some(Mark::Struck),
        }
    }
}
