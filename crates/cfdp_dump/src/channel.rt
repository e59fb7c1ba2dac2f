//! One virtual channel of a spacecraft.
ghost use Rattle.std.specs.Prelude.{◌≡◌, ◌≤◌, length, IfOk, OnErr, Some};
ghost use Rattle.cfdp_dump.specs.Carrying.{Carries, IsMissing, carried_text, count_of, fresh};
ghost use Rattle.cfdp_dump.specs.Carrying.{is_of, seen_only};

use aos_frame::{Continuity, FrameHeader, VcMonitor, one_number_is_missing};
use mpdu::{MPDU_HEADER_LEN, Notes, ONLY_IDLE, Reassembler, read_pointer};
use octet_strings::OctetStrings;
use std::alloc::{AllocError, Global};

/// What a frame carries.
#[derive(Debug, Drop)]
pub struct Carried {
    /// How many frames of its channel are missing between the last one seen and this one.
    pub missing: u32,
    /// True if it has only idle data: its first header pointer is [`ONLY_IDLE`](mpdu::ONLY_IDLE).
    pub only_idle: bool,
    /// What is out of order in its packet zone.
    pub notes: Notes,
    /// The packets that end in it and aren't idle, in order.
    pub packets: OctetStrings,
}

/// A virtual channel whose frames were seen.
#[derive(Debug, Drop)]
pub(crate) struct Channel {
    spacecraft: u8,
    virtual_channel: u8,
    monitor: VcMonitor,
    reassembler: Reassembler,
}

impl Channel {
    /// Returns the channel of a frame, if none of its frames was seen.
    ///
    /// # Errors
    ///
    /// `AllocError` if there is no memory for its packets.
    pub(crate) fn of(alloc: Global, header: FrameHeader) -> Result<Channel, AllocError>
        ensures { IfOk result (λ channel. channel ≡ fresh header) }
    {
        Ok(Channel {
            spacecraft: header.spacecraft,
            virtual_channel: header.virtual_channel,
            monitor: VcMonitor::new(),
            reassembler: Reassembler::new(alloc)?,
        })
    }

    /// Returns `true` if a frame is of this channel.
    pub(crate) fn is_of(&self, header: FrameHeader) -> bool
        ensures { result ≡ is_of header self.now }
    {
        self.spacecraft == header.spacecraft && self.virtual_channel == header.virtual_channel
    }

    /// Takes a frame of the channel, by its header and its M_PDU, which must have 18 to 2,042
    /// octets.
    ///
    /// # Errors
    ///
    /// `AllocError` if there is no memory for a packet. Its packets aren't reported then, and
    /// nothing is held of a begun one.
    pub(crate) fn take(
        &mut self,
        alloc: Global,
        header: FrameHeader,
        mpdu: &[u8],
    ) -> Result<Carried, AllocError>
        requires least { 18 ≤ length mpdu.now }
        requires most { length mpdu.now ≤ 2042 }
        ensures ok { IfOk result (λ carried. Carries self.old header mpdu.now (carried_text carried)
            self.new) }
        ensures err { OnErr result (self.new ≡ seen_only header self.old) }
    {
        let missing = missing_before(&mut self.monitor, header);
        let mut packets = OctetStrings::new(alloc);
        let pointer = read_pointer(mpdu);
        if pointer == ONLY_IDLE {
            self.reassembler.let_go();
            return Ok(Carried {
                missing,
                only_idle: true,
                notes: Notes {
                    resync: false,
                    bad: 0,
                },
                packets,
            });
        }
        let zone = &mpdu[MPDU_HEADER_LEN..];
        let notes = self
            .reassembler
            .feed(pointer, zone, missing == 0, &mut packets)?;
        Ok(Carried {
            missing,
            only_idle: false,
            notes,
            packets,
        })
    }
}

/// Returns how many frames are missing before one with this header. The frame is then seen.
fn missing_before(monitor: &mut VcMonitor, header: FrameHeader) -> u32
    ensures missing { IsMissing monitor.old (count_of header) result }
    ensures seen { monitor.new ≡ Some (count_of header) }
{
    one_number_is_missing();
    match monitor.see(header.count, header.cycle) {
        Continuity::Follows => 0,
        Continuity::Gap(missing) => missing,
    }
}
