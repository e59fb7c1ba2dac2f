//! Frames up to PDUs.
ghost use Rattle.std.specs.Prelude.{◌≡◌, ℕ, ◌≤◌, Bool, List, [], length, IfOk};
ghost use Rattle.cfd_bits.specs.Field.{field};
ghost use Rattle.aos_frame.specs.Frame.{lane_channel, other_lane};
ghost use Rattle.mpdu.specs.Stream.{ArePackets};
ghost use Rattle.link_stack.specs.Frames.{AreOfLink};
ghost use Rattle.link_stack.specs.Upward.{IsUpOf, LaneTakes, drop_count, first_up, lane_of};
ghost use Rattle.link_stack.specs.Upward.{lane_up};

use crate::up_lane::UpLane;
use aos_frame::{ChannelConfig, Lane, LinkConfig};
use cfd_bits::get;
use octet_strings::OctetStrings;
use std::alloc::{AllocError, Global};
use std::marker::Model;
use valid_config::Valid;

/// The receiving end of one direction of a link: what it takes of the frames of each lane are the
/// PDUs all of whose frames came, in order.
///
/// If something can't be read, it is dropped, and counted under one number.
#[derive(Debug, Drop)]
pub struct Up {
    directives: UpLane,
    file_data: UpLane,
}

impl Model for Up {
    ghost use Rattle.aos_frame.specs.Frame.{AreLanes};
    ghost use Rattle.link_stack.specs.Upward.{UpState};

    ghost Value = { UpState };

    ghost view = { λ u. record { directives = u.directives; file_data = u.file_data } };

    ghost invariant = { λ u. AreLanes u.directives.link u.file_data.link };
}

impl Up {
    /// Returns the end of a valid link, which has taken no frame.
    ///
    /// `AllocError` comes only if the buffer of a reassembler was refused.
    pub fn new(alloc: Global, link: Valid<LinkConfig>) -> Result<Self, AllocError>
        ensures new { IfOk result (λ u. u ≡ first_up link) }
        // Each lane is as no frame of a stream of the link leaves it.
        ensures stream { (lane : Lane) (all : Bool) (ps : List (List ℕ)) → ArePackets ps →
            AreOfLink (lane_channel lane link) ps →
            IfOk result (λ u. IsUpOf all (lane_up lane u) ps [] 0) }
    {
        Ok(Up {
            directives: UpLane::new(alloc, ChannelConfig::of(link, Lane::Directives))?,
            file_data: UpLane::new(alloc, ChannelConfig::of(link, Lane::Data))?,
        })
    }

    /// Returns how often something was dropped under a number, on either lane: 1 to 6 and 12 are
    /// the numbers of [`FrameError`](aos_frame::FrameError), 7 to 11 of
    /// [`LinkDrop`](crate::LinkDrop). If the count is the greatest `u64`, it stays so; for any
    /// other number it is 0.
    pub fn drops(&self, number: u8) -> u64
        ensures { result ≡ drop_count self.now number }
    {
        self.directives
            .drops(number)
            .saturating_add(self.file_data.drops(number))
    }

    /// Returns the operational control field of the last frame of a lane that was one of its
    /// channel; `None` if none came, or the link has no such field.
    pub fn control_field(&self, lane: Lane) -> Option<u32>
        ensures { result ≡ (lane_up lane self.now).control }
    {
        match lane {
            Lane::Directives => self.directives.control(),
            Lane::Data => self.file_data.control(),
        }
    }

    /// Returns the lane that takes a frame: the lane of its virtual channel. If it is of neither
    /// channel, or no frame, it goes to the lane of directives.
    fn lane_of(&self, frame: &[u8]) -> Lane
        ensures { result ≡ lane_of self.now frame.now }
    {
        if frame.len() >= 2 && get(frame, 10, 6) == u64::from(self.file_data.virtual_channel()) {
            Lane::Data
        } else {
            Lane::Directives
        }
    }

    /// Takes a frame, whatever its octets are, appends the PDUs that it completes, and counts what
    /// is dropped of it.
    ///
    /// If `decode` of `aos_frame` refuses a frame, it counts as its refusal, 1 to 6 or 12, and
    /// changes nothing else: for example if it has the wrong length, or its check shows that it was
    /// damaged. A first header pointer of 2046 counts as 6 alone, and discards a begun packet of
    /// its lane. Otherwise a zone counts at most one `Resync`, a `BadPacket` for each header of
    /// another version than `000`, and an `OtherApid` or else a `Segmented` for each whole packet
    /// that isn't idle and carries no PDU of the link.
    ///
    /// If a growth was refused at a zone that completes a packet, `NoMemory` is counted in place of
    /// the zone's drops: a front of its PDUs was appended, the lane's begun packet and the rest of
    /// the zone are discarded, and its next zone is read from its pointer, as if this frame had
    /// been lost.
    pub fn receive(&mut self, frame: &[u8], out: &mut OctetStrings)
        // The end of its lane takes it, and the other one stays as it was.
        ensures taken { LaneTakes frame.now (lane_up (lane_of self.old frame.now) self.old)
            (lane_up (lane_of self.old frame.now) self.new) out.old out.new }
        ensures other { lane_up (other_lane (lane_of self.old frame.now)) self.new
            ≡ lane_up (other_lane (lane_of self.old frame.now)) self.old }
        // A lane's frames have its channel, and so they go to it.
        ensures lane { (lane : Lane) → 2 ≤ length frame.now →
            field frame.now 10 6 ≡ (lane_up lane self.old).link.virtual_channel →
            lane_of self.old frame.now ≡ lane }
    {
        match self.lane_of(frame) {
            Lane::Directives => self.directives.take(frame, out),
            Lane::Data => self.file_data.take(frame, out),
        }
    }
}
