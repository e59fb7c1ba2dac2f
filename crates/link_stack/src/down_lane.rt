//! One lane of the way down: PDUs to the frames of one virtual channel.
ghost use Rattle.std.specs.Prelude.{◌≡◌, ℕ, ◌+◌, ◌*◌, ◌<◌, ◌≤◌, ◌++◌, List, [], ◌∷◌, true, false};
ghost use Rattle.std.specs.Prelude.{length, take, drop, IfOk};
ghost use Rattle.aos_frame.specs.LinkFields.{bare_in};
ghost use Rattle.aos_frame.specs.Frame.{IsChannel, frame_len};
ghost use Rattle.mpdu.specs.Stream.{stream};
ghost use Rattle.mpdu.specs.Packing.{flush_of};
ghost use Rattle.mpdu.specs.Packets.{busy};
ghost use Rattle.link_stack.specs.Frames.{packet_of, pdus_in};
ghost use Rattle.link_stack.specs.Downward.{packing, IsDown, IsFixed, MakesBare, MakesFrame};
ghost use Rattle.link_stack.specs.Downward.{controlled, counted_from, first_lane_down, idle_zones};
ghost use Rattle.link_stack.specs.Downward as downward;

use aos_frame::{ChannelConfig, FrameHeader, HEADER_LEN as FRAME_HEADER_LEN, VcCounter, seal};
use mpdu::{MPDU_HEADER_LEN, Packer, put_pointer};
use space_packet::header::HEADER_LEN as PACKET_HEADER_LEN;
use space_packet::{Packet, PacketType, SequenceFlags, header_of};
use std::alloc::{AllocError, Global};
use std::marker::Model;
use valid_config::Valid;

/// A lane of the sending end: each PDU in a packet of its own, the packets end to end over the
/// frames of one virtual channel.
#[derive(Debug, Drop)]
pub(crate) struct DownLane {
    link: ChannelConfig,
    packer: Packer,
    frames: VcCounter,
    // what the operational control field of the next frame says
    control: u32,
}

impl Model for DownLane {
    ghost use Rattle.std.specs.Prelude.{◌≡◌, ◌≤◌};
    ghost use Rattle.aos_frame.specs.Frame.{IsChannel};
    ghost use Rattle.link_stack.specs.Downward.{LinkSenderState};

    ghost Value = { LinkSenderState };

    ghost view = { λ d. record {
      link = d.link;
      capacity = d.packer.capacity;
      waiting =
          d.packer.waiting;
      first = d.packer.first;
      flushed = d.packer.flushed;
      frame_count = d.frames;
      control = d.control;
    } };

    ghost invariant = { λ d. IsChannel d.link × (d.packer.size ≡ d.link.zone)
        × (d.packer.capacity ≤ 65536) };
}

impl DownLane {
    /// Returns a lane with no PDU sent.
    pub(crate) fn new(
        alloc: Global,
        link: Valid<ChannelConfig>,
        capacity: usize,
    ) -> Result<Self, AllocError>
        requires most { capacity ≤ 65536 }
        ensures new { IfOk result (λ d. d ≡ first_lane_down link capacity) }
        ensures stream { IfOk result (λ d. IsDown d [] 0) }
    {
        let link = link.get();
        Ok(DownLane {
            link,
            packer: Packer::new(alloc, link.zone as usize, capacity)?,
            frames: VcCounter::new(),
            control: 0,
        })
    }

    /// Counts the frames from this number on, modulo 2^28.
    pub(crate) fn count_from(&mut self, count: u32)
        ensures from { self.new ≡ counted_from count self.old }
        // If a lane sent nothing, it is then as one that made so many frames, each filled by an
        // idle packet.
        ensures stream { IsDown self.old [] 0 →
            IsDown self.new (idle_zones self.old.link.zone count) count }
    {
        self.frames = VcCounter::from_count(count);
    }

    /// Sets the operational control field of the frames from now on.
    pub(crate) fn set_control(&mut self, control: u32)
        ensures { self.new ≡ controlled control self.old }
    {
        self.control = control;
    }

    /// Returns its virtual channel, and what is in the frames of that.
    pub(crate) fn link(&self) -> ChannelConfig
        ensures is { result ≡ self.now.link }
        ensures valid { IsChannel result }
    {
        self.link
    }

    /// Returns the number of octets of the longest PDU for which there is room; 0 if there is none.
    pub(crate) fn room(&self) -> usize
        ensures { result ≡ downward.room self.now }
    {
        self.packer.room().saturating_sub(PACKET_HEADER_LEN)
    }

    /// Returns how many octets of packets may wait.
    pub(crate) fn capacity(&self) -> usize
        ensures is { result ≡ self.now.capacity }
        ensures most { result ≤ 65536 }
    {
        self.packer.capacity()
    }

    /// Returns the number of octets of packets that wait to become frames.
    pub(crate) fn waiting_len(&self) -> usize
        ensures len { result ≡ length self.now.waiting }
        ensures most { result ≤ self.now.capacity + 2047 }
    {
        self.packer.waiting_len()
    }

    /// Returns `true` if a whole zone waits.
    pub(crate) fn has_whole(&self) -> bool
        ensures { result ≡ downward.has_whole self.now }
    {
        usize::from(self.link.zone) <= self.packer.waiting_len()
    }

    /// Puts a PDU after the others, in a packet with this count. It must have at least one octet,
    /// and there must be room for it.
    pub(crate) fn send(&mut self, pdu: &[u8], count: u16)
        requires some { 1 ≤ length pdu.now }
        requires room { length pdu.now ≤ downward.room self.old }
        requires count { count < 16384 }
        // The stream is then longer by one packet, which has the PDU and this count.
        ensures stream { (ps : List (List ℕ)) (made : ℕ) → IsDown self.old ps made →
            IsDown self.new (ps ++ packet_of self.old.link count pdu.now ∷ []) made }
        ensures pdu { pdus_in (busy (packet_of self.old.link count pdu.now ∷ []))
            ≡ pdu.now ∷ [] }
        ensures waiting { self.new.waiting ≡ self.old.waiting
            ++ packet_of self.old.link count pdu.now }
        ensures len { length self.new.waiting ≡ length self.old.waiting + 6 + length pdu.now }
        ensures unflushed { self.new.flushed ≡ false }
        ensures fixed { IsFixed self.old self.new }
    {
        let packet = Packet {
            apid: self.link.apid,
            packet_type: PacketType::Telemetry,
            has_secondary_header: false,
            sequence_flags: SequenceFlags::Unsegmented,
            count,
            body: pdu,
        };
        let header = header_of(&packet);
        let _ = self.packer.push_pieces(&header, pdu);
    }

    /// Fills the begun zone with an idle packet, if one is begun.
    pub(crate) fn flush(&mut self)
        // The stream is then longer by the idle packet, or as it was.
        ensures stream { (ps : List (List ℕ)) (made : ℕ) → IsDown self.old ps made →
            IsDown self.new (ps ++ flush_of (packing self.old)) made }
        ensures idle { (length (flush_of (packing self.old)) ≤ 1)
            × (busy (flush_of (packing self.old)) ≡ []) }
        ensures once { flush_of (packing self.new) ≡ [] }
        ensures same { flush_of (packing self.old) ≡ [] → self.new ≡ self.old }
        ensures waiting { self.new.waiting ≡ self.old.waiting
            ++ stream (flush_of (packing self.old)) }
        ensures most { length self.new.waiting ≤ self.old.capacity + 2047 }
        ensures fixed { IsFixed self.old self.new }
    {
        self.packer.flush();
    }

    /// Writes the oldest whole zone as a frame with the next count and the fields of the channel,
    /// and takes it off. Returns `false` if no whole zone waits: nothing changed then.
    pub(crate) fn next_frame(&mut self, out: &mut [u8]) -> bool
        requires { length out.old ≡ frame_len self.old.link }
        ensures whole { result ≡ downward.has_whole self.old }
        ensures kept { result ≡ false → (self.new ≡ self.old) × (out.new ≡ out.old) }
        ensures made { result ≡ true → MakesFrame out.new self.old self.new }
        ensures link { self.new.link ≡ self.old.link }
        ensures fixed { (self.new.capacity ≡ self.old.capacity)
            × (length self.new.waiting ≤ length self.old.waiting) }
    {
        if !self.put_bare(out) {
            return false;
        }
        seal(Valid::known(self.link.fields), self.control, out);
        true
    }

    /// Writes the oldest whole zone as a bare frame with the next count, where it stands in a frame
    /// of the channel, and takes it off. Returns `false` if no whole zone waits: nothing changed
    /// then.
    fn put_bare(&mut self, out: &mut [u8]) -> bool
        requires { length out.old ≡ frame_len self.old.link }
        ensures whole { result ≡ downward.has_whole self.old }
        ensures kept { result ≡ false → (self.new ≡ self.old) × (out.new ≡ out.old) }
        ensures made { result ≡ true →
            MakesBare (bare_in self.old.link.fields out.new) self.old self.new }
        ensures len { length out.new ≡ length out.old }
    {
        let (header, behind) = out.split_at_mut(FRAME_HEADER_LEN);
        let (_insert, behind) = behind.split_at_mut(usize::from(self.link.fields.insert_zone));
        let (mpdu, _fields) = behind.split_at_mut(MPDU_HEADER_LEN + usize::from(self.link.zone));
        self.next_bare(header, mpdu)
    }

    /// Writes the oldest whole zone as a bare frame with the next count, its header and its M_PDU
    /// apart, and takes it off. Returns `false` if no whole zone waits: nothing changed then.
    fn next_bare(&mut self, header: &mut [u8], mpdu: &mut [u8]) -> bool
        requires header { length header.old ≡ 6 }
        requires mpdu { length mpdu.old ≡ 2 + self.old.link.zone }
        ensures whole { result ≡ downward.has_whole self.old }
        ensures kept { result ≡ false → (self.new ≡ self.old) × (header.new ≡ header.old)
            × (mpdu.new ≡ mpdu.old) }
        ensures made { result ≡ true → MakesBare (header.new ++ mpdu.new) self.old self.new }
    {
        let (pointer_octets, zone) = mpdu.split_at_mut(MPDU_HEADER_LEN);
        let Some(pointer) = self.packer.zone(zone) else {
            return false;
        };
        put_pointer(pointer_octets, pointer);
        let frame = FrameHeader {
            spacecraft: self.link.spacecraft,
            virtual_channel: self.link.virtual_channel,
            count: self.frames.next(),
            cycle: true,
        };
        aos_frame::encode(&frame, header);
        true
    }
}
