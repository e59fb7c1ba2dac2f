//! The frames of both lanes of a direction of a link.
ghost use Rattle.std.specs.Prelude.{◌≡◌, ◌<◌, ◌≤◌, length, [], MatchOption};
ghost use Rattle.aos_frame.specs.declared.config.Lane.{Lane};
ghost use Rattle.link_sim.specs.FrameLink.{first_sent, frames_sent, lane_of_links};

use crate::frame_link::FrameLink;
use aos_frame::Lane;
use std::alloc::Global;
use std::marker::Model;

/// The frames that one station sent, in both lanes, and what became of them.
#[derive(Debug, Drop)]
pub struct FrameLinks {
    pub(crate) directives: FrameLink,
    pub(crate) file_data: FrameLink,
}

impl Model for FrameLinks {
    ghost use Rattle.link_sim.specs.FrameLink.{FrameLinksState};

    ghost Value = { FrameLinksState };

    ghost view = { λ k. record { directives = k.directives; file_data = k.file_data } };
}

impl FrameLinks {
    /// Makes a link on which nothing was sent; frames will have `len` octets. It takes no memory.
    pub(crate) fn new(alloc: Global, len: usize) -> Self
        ensures { (lane : Lane) → lane_of_links lane result ≡ record {
          frames = [];
          places = [];
          marks = [];
          run = 0;
          blanks = 0;
          len = len;
        } }
    {
        FrameLinks {
            directives: FrameLink::new(alloc, len),
            file_data: FrameLink::new(alloc, len),
        }
    }

    /// Returns how many frames were sent, of both lanes.
    pub fn count(&self) -> usize
        ensures { result ≡ frames_sent self.now }
    {
        self.directives
            .count()
            .saturating_add(self.file_data.count())
    }

    /// Returns how many frames were sent in a lane.
    pub fn count_in(&self, lane: Lane) -> usize
        ensures { result ≡ length (lane_of_links lane self.now).frames }
    {
        self.lane(lane).count()
    }

    /// Returns the frames of a lane.
    pub fn lane(&self, lane: Lane) -> &FrameLink
        ensures { result.now ≡ lane_of_links lane self.now }
    {
        match lane {
            Lane::Directives => &self.directives,
            Lane::Data => &self.file_data,
        }
    }

    /// Returns the lane of the frame that was sent first, of all that wait, or `None` if none does.
    pub fn first_sent(&self) -> Option<Lane>
        ensures lane { result ≡ first_sent self.now }
        ensures waits { MatchOption result
            ((lane : Lane) → length (lane_of_links lane self.now).frames
            ≤ length (lane_of_links lane self.now).marks)
            (λ lane. length (lane_of_links lane self.now).marks
            < length (lane_of_links lane self.now).frames) }
    {
        match (
            self.directives.oldest_place(),
            self.file_data.oldest_place(),
        ) {
            (None, None) => None,
            (Some(_), None) => Some(Lane::Directives),
            (None, Some(_)) => Some(Lane::Data),
            (Some(directives), Some(file_data)) => {
                if file_data < directives {
                    Some(Lane::Data)
                } else {
                    Some(Lane::Directives)
                }
            }
        }
    }
}
