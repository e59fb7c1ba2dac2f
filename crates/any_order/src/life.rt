//! The frames that a station made in one of its lives.
ghost use Rattle.std.specs.Prelude.{◌≡◌, ◌+◌, ◌++◌, ◌∷◌, [], ◌<◌, ◌≤◌, ℕ, List, true, false};
ghost use Rattle.std.specs.Prelude.{◌^◌, length, None, Some};
ghost use Rattle.std.specs.Prelude.{IfOk, IfSome, OnErr, OnOk, MatchOption, IsTrue, ◌↔◌};
ghost use Rattle.std.specs.Prelude.{slice_index_or};
ghost use Rattle.aos_frame.specs.declared.config.Lane.{Lane};
ghost use Rattle.mpdu.specs.Feeding.{octets_of_each};
ghost use Rattle.link_stack.specs.Downward.{frame_lane};
ghost use Rattle.cfdp_station.specs.Transmitting.{GivesFrame};
ghost use Rattle.any_order.specs.Kept.{GivesAll, MadeFrame, frames_in, with_frame};
ghost use Rattle.any_order.specs.Refusing.{IsUsedFrame};

use cfdp_station::{Inbox, Lane, Outbox, Station};
use std::alloc::{AllocError, Global};
use std::marker::Model;

/// All frames that a station made in one of its lives, in the order made, lane by lane.
#[derive(Debug, Drop)]
pub struct LifeFrames {
    first: u32,
    directives: Vec<Vec<u8>>,
    file_data: Vec<Vec<u8>>,
}

impl Model for LifeFrames {
    ghost use Rattle.mpdu.specs.Feeding.{octets_of_each};
    ghost use Rattle.any_order.specs.Kept.{LifeKept};

    ghost Value = { LifeKept };

    ghost view = { λ l. record {
      first = l.first;
      directives = octets_of_each l.directives.items;
      file_data = octets_of_each l.file_data.items;
    } };
}

/// Makes the whole frame that leaves a station next, in this lane, and puts it after these.
fn take_into<O: Outbox, I: Inbox>(
    alloc: Global,
    station: &mut Station<O, I>,
    lane: Lane,
    frames: &mut Vec<Vec<u8>>,
) -> Result<(), AllocError>
    requires { frame_lane station.old.down ≡ Some lane }
    ensures ok { OnOk result ((frame : List ℕ) × GivesFrame lane frame station.old station.new
        × (octets_of_each frames.new.items ≡ octets_of_each frames.old.items ++ frame ∷ [])) }
    ensures err { OnErr result ((station.new ≡ station.old)
        × (octets_of_each frames.new.items ≡ octets_of_each frames.old.items)) }
{
    let mut frame = vec![in alloc; 0u8; station.frame_len()]?;
    frames.reserve(1)?;
    let _ = station.next_frame(frame.as_mut_slice());
    let _ = frames.push(frame);
    Ok(())
}

impl LifeFrames {
    /// Makes a life in which no frame was made yet. Its frames are numbered from this number on.
    pub(crate) fn new(alloc: Global, first: u32) -> Self
        ensures { result ≡ record { first = first; directives = []; file_data = [] } }
    {
        LifeFrames {
            first,
            directives: Vec::new(alloc),
            file_data: Vec::new(alloc),
        }
    }

    /// Returns the frame at a place of those made of a lane, from 0 on, or `None` if there is none.
    pub fn frame(&self, lane: Lane, place: usize) -> Option<&[u8]>
        ensures { MatchOption result (length (frames_in lane self.now) ≤ place)
            (λ f. (place < length (frames_in lane self.now))
            × (f.now ≡ slice_index_or (frames_in lane self.now) place [])) }
    {
        let frames = match lane {
            Lane::Directives => &self.directives,
            Lane::Data => &self.file_data,
        };
        match frames.get(place) {
            Some(frame) => Some(frame.as_slice()),
            None => None,
        }
    }

    /// Returns the number of the frame at a place of either lane: as many after the number of the
    /// first one. Returns `None` if that is no `u64`.
    pub fn number(&self, place: usize) -> Option<u64>
        ensures { MatchOption result (2 ^ 64 ≤ self.now.first + place)
            (λ n. n ≡ self.now.first + place) }
    {
        u64::from(self.first).checked_add(place as u64)
    }

    /// Returns how many frames were made of a lane.
    pub fn count(&self, lane: Lane) -> usize
        ensures { result ≡ length (frames_in lane self.now) }
    {
        match lane {
            Lane::Directives => self.directives.len(),
            Lane::Data => self.file_data.len(),
        }
    }

    /// Returns `true` if this number is after the number of the next frame of each lane.
    pub(crate) fn ends_before(&self, number: u32) -> bool
        ensures directives { result ≡ true → self.now.first + length self.now.directives < number }
        ensures file_data { result ≡ true → self.now.first + length self.now.file_data < number }
        ensures used { result ≡ false → IsUsedFrame number self.now }
    {
        let first = self.first as usize;
        let number = number as usize;
        first < number
            && self.directives.len() < number - first
            && self.file_data.len() < number - first
    }

    /// Takes the whole frame off a station that leaves next, and keeps it: returns whether there
    /// was one.
    fn take_next<O: Outbox, I: Inbox>(
        &mut self,
        alloc: Global,
        station: &mut Station<O, I>,
    ) -> Result<bool, AllocError>
        ensures some { IfOk result (λ some. some ≡ true → (m : MadeFrame)
            × GivesFrame m.lane m.octets station.old station.new
            × (self.new ≡ with_frame m.lane m.octets self.old)) }
        ensures none { IfOk result (λ some. some ≡ false →
            (frame_lane station.old.down ≡ None) × (station.new ≡ station.old)
            × (self.new ≡ self.old)) }
        ensures err { OnErr result ((station.new ≡ station.old) × (self.new ≡ self.old)) }
    {
        match station.next_lane() {
            Some(Lane::Directives) => {
                take_into(alloc, station, Lane::Directives, &mut self.directives)?;
                Ok(true)
            }
            Some(Lane::Data) => {
                take_into(alloc, station, Lane::Data, &mut self.file_data)?;
                Ok(true)
            }
            None => Ok(false),
        }
    }

    /// Takes all whole frames off a station that wait, and keeps them.
    ///
    /// # Errors
    ///
    /// `AllocError` if there was no memory for one: that and those after it wait on.
    pub(crate) fn take_all<O: Outbox, I: Inbox>(
        &mut self,
        alloc: Global,
        station: &mut Station<O, I>,
    ) -> Result<(), AllocError>
        ensures gives { (made : List MadeFrame)
            × GivesAll made station.old station.new self.old self.new }
        ensures none { OnOk result (frame_lane station.new.down ≡ None) }
    {
        for _ in 0..u64::MAX {
            if !self.take_next(alloc, station)? {
                return Ok(());
            }
        }
        // So many frames find no memory.
        Err(AllocError)
    }
}
