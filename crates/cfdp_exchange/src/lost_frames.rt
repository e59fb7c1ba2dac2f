//! The frames that were lost on their way to a station, and those that came late.
ghost use Rattle.std.specs.Prelude.{◌≤◌, ◌*◌, ◌↔◌, IsTrue};
ghost use Rattle.cfdp_exchange.specs.Order.{IsOften};

use aos_frame::{Continuity, Lane, LinkConfig, VcMonitor, decode};
use std::cell::Cell;

/// A frame before which so many seem to be missing came late, or once more: its count isn't greater
/// than the last one.
const LATE: u32 = 8_388_608;

/// If fewer frames come late, that isn't reported.
const LEAST_LATE: u64 = 8;

/// If each tenth frame comes late, that is reported.
const MOST_IN_TIME: u64 = 10;

/// How many datagrams left a station and came to it; how often frames were missing between those
/// that came, and how many; how many came late or once more; and how many datagrams were thrown
/// away: shared by who counts them and who says it.
/// Each count stays at the greatest `u64`.
#[derive(Drop)]
pub struct FrameGaps {
    sent: Cell<u64>,
    came: Cell<u64>,
    gaps: Cell<u64>,
    missing: Cell<u64>,
    late: Cell<u64>,
    thrown_away: Cell<u64>,
}

impl FrameGaps {
    /// Returns counts that are all 0.
    pub fn new() -> FrameGaps {
        FrameGaps {
            sent: Cell::new(0),
            came: Cell::new(0),
            gaps: Cell::new(0),
            missing: Cell::new(0),
            late: Cell::new(0),
            thrown_away: Cell::new(0),
        }
    }

    /// Returns how many datagrams left.
    pub fn sent(&self) -> u64 {
        self.sent.get()
    }

    /// Counts one more of these.
    pub fn adds_sent(&self) {
        self.sent.set(self.sent.get().saturating_add(1));
    }

    /// Returns how many datagrams came while the link wasn't down by plan.
    pub fn came(&self) -> u64 {
        self.came.get()
    }

    /// Counts one more of these.
    pub fn adds_came(&self) {
        self.came.set(self.came.get().saturating_add(1));
    }

    /// Returns how often frames were missing.
    pub fn gaps(&self) -> u64 {
        self.gaps.get()
    }

    /// Returns how many frames were missing in all.
    pub fn missing(&self) -> u64 {
        self.missing.get()
    }

    /// Returns how many frames came after a later one of their lane, or once more.
    pub fn late(&self) -> u64 {
        self.late.get()
    }

    /// Counts one more of these.
    pub fn adds_late(&self) {
        self.late.set(self.late.get().saturating_add(1));
    }

    /// Returns how many datagrams were discarded while the link was down by plan.
    pub fn thrown_away(&self) -> u64 {
        self.thrown_away.get()
    }

    /// Counts one more of these.
    pub fn throws_away(&self) {
        self.thrown_away
            .set(self.thrown_away.get().saturating_add(1));
    }

    fn adds(&self, missing: u32) {
        self.gaps.set(self.gaps.get().saturating_add(1));
        self.missing
            .set(self.missing.get().saturating_add(u64::from(missing)));
    }
}

/// Looks at the frames of a link that come to a station, and counts those that are missing between
/// them, by the virtual channel frame counts in their headers (CCSDS 732.0-B-4, 4.1.2.4). A peer
/// that is restarted leaves counts out, up to 1,048,576 in each lane, which seem to be missing.
#[derive(Drop)]
pub struct FrameMonitor<'a> {
    link: LinkConfig,
    directives: VcMonitor,
    file_data: VcMonitor,
    found: &'a FrameGaps,
}

impl<'a> FrameMonitor<'a> {
    /// Returns a monitor before the first frame of this link. It adds what it finds to `found`.
    pub fn new(link: LinkConfig, found: &'a FrameGaps) -> FrameMonitor<'a> {
        FrameMonitor {
            link,
            directives: VcMonitor::new(),
            file_data: VcMonitor::new(),
            found,
        }
    }

    /// Looks at a frame that came. One that isn't of the link is left out.
    pub fn takes(&mut self, frame: &[u8]) {
        let (link, found) = (&self.link, self.found);
        if is_on(frame, link.data_virtual_channel) {
            look_at(link, Lane::Data, &mut self.file_data, found, frame);
        } else {
            look_at(link, Lane::Directives, &mut self.directives, found, frame);
        }
    }
}

/// Whether a frame's header says that it is of this virtual channel (CCSDS 732.0-B-4, 4.1.2.2).
fn is_on(frame: &[u8], virtual_channel: u8) -> bool {
    match frame.get(1) {
        Some(octet) => *octet & 63 == virtual_channel,
        None => false,
    }
}

/// Looks at a frame, if it is of this lane.
fn look_at(
    link: &LinkConfig,
    lane: Lane,
    monitor: &mut VcMonitor,
    found: &FrameGaps,
    frame: &[u8],
) {
    if let Ok((header, _)) = decode(frame, &link.lane(lane))
        && let Continuity::Gap(missing) = monitor.see(header.count, header.cycle)
    {
        if missing < LATE {
            found.adds(missing);
        } else {
            found.adds_late();
        }
    }
}

/// Returns `true` if of `came` frames so many came late, or once more, that a link that changes
/// their order or repeats them is the likely cause: eight, and each tenth one.
pub fn is_often_late(late: u64, came: u64) -> bool
    ensures { IsTrue result ↔ IsOften late came }
{
    late >= LEAST_LATE && came <= late.saturating_mul(MOST_IN_TIME)
}
