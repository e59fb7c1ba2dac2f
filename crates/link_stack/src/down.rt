//! PDUs down to frames.
ghost use Rattle.std.specs.Prelude.{◌≡◌, ◌+◌, ◌*◌, ◌%◌, ◌<◌, ◌≤◌, ◌↔◌, [], length, Some, None};
ghost use Rattle.std.specs.Prelude.{IfOk, IfSome, OnOk, OnErr, IsErr};
ghost use Rattle.aos_frame.specs.Frame.{frame_len, other_lane};
ghost use Rattle.link_stack.specs.Downward.{Flushes, IsBounded, IsDown, KeepsLanes, MakesFrame};
ghost use Rattle.link_stack.specs.Downward.{SendsPdu, both_controlled, both_counted_from};
ghost use Rattle.link_stack.specs.Downward.{first_down, frame_lane, idle_zones, lane_down};
ghost use Rattle.link_stack.specs.Downward as downward;

use crate::down_lane::DownLane;
use aos_frame::{ChannelConfig, Lane, LinkConfig};
use mpdu::Full;
use space_packet::Counter;
use std::alloc::{AllocError, Global};
use std::marker::Model;
use valid_config::Valid;

/// The sending end of one direction of a link: each PDU in a packet of its own, the packets of each
/// lane end to end over the frames of its virtual channel.
///
/// Each lane has the capacity, and its own frame count and flush. The packets of both are counted
/// together. All that waits lies in buffers made with it, and a frame is written only when it is
/// asked for. So no call takes memory.
#[derive(Debug, Drop)]
pub struct Down {
    directives: DownLane,
    file_data: DownLane,
    packets: Counter,
}

impl Model for Down {
    ghost use Rattle.std.specs.Prelude.{◌≡◌, ◌+◌, ◌<◌, ◌≤◌, length};
    ghost use Rattle.aos_frame.specs.Frame.{AreLanes};
    ghost use Rattle.link_stack.specs.Downward.{DownState};

    ghost Value = { DownState };

    ghost view = { λ d. record {
      directives = d.directives;
      file_data = d.file_data;
      packet_count = d.packets;
    } };

    ghost invariant = { λ d. AreLanes d.directives.link d.file_data.link
        × (d.file_data.capacity ≡ d.directives.capacity)
        × (d.packets < 16384)
        × (length d.directives.waiting ≤ d.directives.capacity + 2047)
        × (length d.file_data.waiting ≤ d.file_data.capacity + 2047) };
}

impl Down {
    /// Returns the end of a valid link, with no PDU sent. In each lane at most `capacity` octets of
    /// packets may wait, which must be at most 65,536.
    ///
    /// `AllocError` comes only if one of its buffers was refused.
    pub fn new(alloc: Global, link: Valid<LinkConfig>, capacity: usize) -> Result<Self, AllocError>
        requires most { capacity ≤ 65536 }
        ensures new { IfOk result (λ d. d ≡ first_down link capacity) }
        ensures stream { (lane : Lane) → IfOk result (λ d. IsDown (lane_down lane d) [] 0) }
    {
        Ok(Down {
            directives: DownLane::new(alloc, ChannelConfig::of(link, Lane::Directives), capacity)?,
            file_data: DownLane::new(alloc, ChannelConfig::of(link, Lane::Data), capacity)?,
            packets: Counter::new(),
        })
    }

    /// Counts the frames of both lanes from this number on, modulo 2^28 (CCSDS 732.0-B-4, 4.1.2.4).
    ///
    /// Call it before the first frame if another end sent before this one: so its first frame isn't
    /// taken for the next one of the other end.
    pub fn count_from(&mut self, count: u32)
        ensures from { self.new ≡ both_counted_from count self.old }
        // If a lane sent nothing, it is then as one that made so many frames, each filled by an
        // idle packet.
        ensures stream { (lane : Lane) → IsDown (lane_down lane self.old) [] 0 →
            IsDown (lane_down lane self.new)
            (idle_zones (lane_down lane self.old).link.zone count) count }
        ensures fixed { KeepsLanes self.old self.new }
        ensures bounded { IsBounded self.new }
    {
        self.directives.count_from(count);
        self.file_data.count_from(count);
    }

    /// Sets the operational control field of the frames of both lanes from now on (CCSDS 732.0-B-4,
    /// 4.1.5), if the link has one; at first it is 0.
    pub fn set_control_field(&mut self, control: u32)
        ensures set { self.new ≡ both_controlled control self.old }
        ensures fixed { KeepsLanes self.old self.new }
        ensures bounded { IsBounded self.new }
    {
        self.directives.set_control(control);
        self.file_data.set_control(control);
    }

    fn lane(&self, lane: Lane) -> &DownLane
        ensures { result.now ≡ lane_down lane self.now }
    {
        match lane {
            Lane::Directives => &self.directives,
            Lane::Data => &self.file_data,
        }
    }

    /// Returns the number of octets of the longest PDU for which there is room in a lane; 0 if
    /// there is none.
    pub fn room(&self, lane: Lane) -> usize
        ensures room { result ≡ downward.room (lane_down lane self.now) }
        ensures bounded { IsBounded self.now }
    {
        // For the prover: the invariant.
        let _ = &self.packets;
        self.lane(lane).room()
    }

    /// Returns the number of octets of each frame, of either lane: 8 more than a zone has, and the
    /// octets of the fields of the link.
    pub fn frame_len(&self) -> usize
        ensures { (lane : Lane) → result ≡ frame_len (lane_down lane self.now).link }
    {
        self.directives.link().frame_len()
    }

    /// Returns the number of octets of packets that wait in a lane to become frames.
    pub fn waiting_len(&self, lane: Lane) -> usize
        ensures len { result ≡ length (lane_down lane self.now).waiting }
        ensures most { result ≤ (lane_down lane self.now).capacity + 2047 }
    {
        self.lane(lane).waiting_len()
    }

    /// Returns the most whole frames that can ever wait in a lane, whatever is sent and flushed: if
    /// a caller has room for so many of each lane, it can always take them all.
    pub fn frames_ahead(&self, lane: Lane) -> usize
        ensures enough { (lane_down lane self.now).capacity + 2047
            < result * (lane_down lane self.now).link.zone
            + (lane_down lane self.now).link.zone }
        ensures no_more { result * (lane_down lane self.now).link.zone
            ≤ (lane_down lane self.now).capacity + 2047 }
    {
        (self.lane(lane).capacity() + 2047) / usize::from(self.lane(lane).link().zone)
    }

    /// Puts a PDU after the others of its lane, in a packet of its own. It must have at least one
    /// octet.
    ///
    /// `Full` if the PDU is longer than [`room`](Self::room) of that lane; nothing changed then.
    pub fn send(&mut self, pdu: &[u8], lane: Lane) -> Result<(), Full>
        requires { 1 ≤ length pdu.now }
        ensures full { IsErr result ↔ (downward.room (lane_down lane self.old) < length pdu.now) }
        ensures err { OnErr result (self.new ≡ self.old) }
        // The lane's stream is then longer by one packet, which has the PDU and the running count.
        ensures sent { OnOk result (SendsPdu pdu.now self.old.packet_count
            (lane_down lane self.old) (lane_down lane self.new)) }
        ensures packet_count { OnOk result (self.new.packet_count
            ≡ (self.old.packet_count + 1) % 16384) }
        ensures counts { (self.old.packet_count < 16384) × (self.new.packet_count < 16384) }
        ensures most { OnOk result (length (lane_down lane self.new).waiting
            ≤ (lane_down lane self.old).capacity) }
        ensures other { lane_down (other_lane lane) self.new
            ≡ lane_down (other_lane lane) self.old }
        ensures fixed { KeepsLanes self.old self.new }
        ensures bounded { IsBounded self.new }
    {
        // For the prover: the invariant.
        let _ = &self.packets;
        if pdu.len() > self.room(lane) {
            return Err(Full);
        }
        self.send_in(pdu, lane);
        Ok(())
    }

    /// Puts a PDU after the others of its lane. There must be room for it.
    fn send_in(&mut self, pdu: &[u8], lane: Lane)
        requires some { 1 ≤ length pdu.now }
        requires room { length pdu.now ≤ downward.room (lane_down lane self.old) }
        ensures sent { SendsPdu pdu.now self.old.packet_count (lane_down lane self.old)
            (lane_down lane self.new) }
        ensures packet_count { self.new.packet_count ≡ (self.old.packet_count + 1) % 16384 }
        ensures other { lane_down (other_lane lane) self.new
            ≡ lane_down (other_lane lane) self.old }
        ensures fixed { KeepsLanes self.old self.new }
        ensures bounded { IsBounded self.new }
    {
        let count = self.packets.next();
        match lane {
            Lane::Directives => self.directives.send(pdu, count),
            Lane::Data => self.file_data.send(pdu, count),
        }
    }

    /// Fills the begun zone of a lane with an idle packet, if one is begun, so that all PDUs sent
    /// in it can leave in whole frames.
    ///
    /// If less is free than an idle packet needs, its rest opens the next zone, and waits there. A
    /// zone that holds nothing, or only such a rest, isn't begun: a second flush adds nothing.
    pub fn flush(&mut self, lane: Lane)
        // The lane's stream is then longer by the idle packet, or as it was.
        ensures flushed { Flushes (lane_down lane self.old) (lane_down lane self.new) }
        ensures bounded { IsBounded self.new }
        ensures other { lane_down (other_lane lane) self.new
            ≡ lane_down (other_lane lane) self.old }
        ensures packet_count { self.new.packet_count ≡ self.old.packet_count }
        ensures fixed { KeepsLanes self.old self.new }
    {
        match lane {
            Lane::Directives => self.directives.flush(),
            Lane::Data => self.file_data.flush(),
        }
    }

    /// Returns the lane whose frame [`next_frame`](Self::next_frame) gives next: directives go
    /// first. `None` if no whole zone waits in either.
    pub fn next_lane(&self) -> Option<Lane>
        ensures { result ≡ frame_lane self.now }
    {
        if self.directives.has_whole() {
            Some(Lane::Directives)
        } else if self.file_data.has_whole() {
            Some(Lane::Data)
        } else {
            None
        }
    }

    /// Writes the oldest whole zone of [`next_lane`](Self::next_lane) as a frame with the lane's
    /// next count and the fields of the link, takes it off, and returns the lane. The buffer must
    /// have [`frame_len`](Self::frame_len) octets.
    ///
    /// `None` if no whole zone waits: nothing changed then.
    pub fn next_frame(&mut self, out: &mut [u8]) -> Option<Lane>
        requires { length out.old ≡ frame_len self.old.directives.link }
        // Directives go first.
        ensures lane { result ≡ frame_lane self.old }
        ensures kept { result ≡ None → (self.new ≡ self.old) × (out.new ≡ out.old) }
        // It is the frame of the lane's stream after the frames made.
        ensures made { IfSome result (λ lane. MakesFrame out.new (lane_down lane self.old)
            (lane_down lane self.new)) }
        ensures other { IfSome result (λ lane. lane_down (other_lane lane) self.new
            ≡ lane_down (other_lane lane) self.old) }
        ensures packet_count { self.new.packet_count ≡ self.old.packet_count }
        ensures fixed { KeepsLanes self.old self.new }
    {
        if self.directives.next_frame(out) {
            Some(Lane::Directives)
        } else if self.file_data.next_frame(out) {
            Some(Lane::Data)
        } else {
            None
        }
    }
}
