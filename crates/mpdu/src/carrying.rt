//! Packets down to zones and up again, over a list of losses.
ghost use Rattle.std.specs.Prelude.{◌≡◌, ℕ, ◌+◌, ◌<◌, ◌≤◌, ◌++◌, List, IsTrue, ◌↔◌, false, length};
ghost use Rattle.std.specs.Prelude.{min, slice_index_or as get_or, IfOk, OnOk};
ghost use Rattle.mpdu.specs.Stream.{ArePackets};
ghost use Rattle.mpdu.specs.Feeding.{octets_of_each};
ghost use Rattle.mpdu.specs.Carrying.{AreFewInARow, AreSurvivors, fill_of};
ghost use Rattle.mpdu.specs.Draining.{IsCarried};

use crate::packer::Packer;
use crate::reassembler::Reassembler;
use aos_frame::{FRAME_COUNTS, VcCounter, VcMonitor};
use octet_strings::OctetStrings;
use std::alloc::{AllocError, Global};

/// The capacity of the packer that [`carry`] uses: each packet fits, even after a zone that isn't
/// whole.
const CARRY_CAPACITY: usize = 131_072;

/// Returns whether the next frame is struck, and the index of the mark after its own. A frame past
/// the list's end isn't struck.
fn next_mark(struck: &[bool], sent: usize) -> (bool, usize)
    requires { sent ≤ length struck.now }
    ensures lost { (n : ℕ) → sent ≡ min n (length struck.now) → get_or struck.now n false
        ≡ result.0 }
    ensures sent { (n : ℕ) → sent ≡ min n (length struck.now) → result.1
        ≡ min (n + 1) (length struck.now) }
    ensures place { result.1 ≤ length struck.now }
{
    if sent < struck.len() {
        (struck[sent], sent + 1)
    } else {
        (false, sent)
    }
}

/// The frame counts at both ends of the channel.
#[derive(Drop)]
struct Counts {
    counter: VcCounter,
    monitor: VcMonitor,
}

/// Returns `true` if so few frames in a row are lost that the 28-bit frame counts show each loss.
///
/// It holds if fewer than 268,435,456 are. Frame n is lost if `struck[n]` is true.
pub fn are_few_in_a_row(struck: &[bool]) -> bool
    ensures { IsTrue result ↔ AreFewInARow struck.now }
{
    let mut run = 0;
    for &lost in struck {
        if !lost {
            run = 0;
            continue;
        }
        run += 1;
        if run == FRAME_COUNTS as usize {
            return false;
        }
    }
    true
}

/// Takes all whole zones out of the packer, and reads each zone that isn't struck.
fn drain(
    packer: &mut Packer,
    reassembler: &mut Reassembler,
    counts: &mut Counts,
    buffer: &mut [u8],
    struck: &[bool],
    sent: &mut usize,
    out: &mut OctetStrings,
) -> Result<(), AllocError>
    requires size { length buffer.old ≡ packer.old.size }
    requires least { 16 ≤ length buffer.old }
    requires most { length buffer.old ≤ 2040 }
    requires place { sent.old ≤ length struck.now }
    requires few { AreFewInARow struck.now }
    ensures stream { (ps : List (List ℕ)) →
        IsCarried ps struck.now (length buffer.old) packer.old reassembler.old counts.old.counter
        counts.old.monitor sent.old out.old →
        OnOk result (IsCarried ps struck.now
        (length buffer.old) packer.new reassembler.new counts.new.counter counts.new.monitor
        sent.new out.new) }
    ensures flag { packer.new.flushed ≡ packer.old.flushed }
    ensures emptied { OnOk result (length packer.new.waiting < packer.new.size) }
    ensures fixed { (packer.new.size ≡ packer.old.size)
        × (packer.new.capacity ≡ packer.old.capacity) }
    ensures place { sent.new ≤ length struck.now }
{
    while let Some(pointer) = packer.zone(buffer) {
        let (lost, next) = next_mark(struck, *sent);
        *sent = next;
        let count = counts.counter.next();
        if lost {
            continue;
        }
        let in_order = counts.monitor.follows(count, true);
        reassembler.feed(pointer, buffer, in_order, out)?;
    }
    Ok(())
}

/// Sends packets over a channel that loses frames, and returns the packets that come whole.
///
/// Packs the packets into zones of `zone` octets (16 to 2,040), flushes, strikes frame n if
/// `struck[n]` is true, and puts packets together again from the zones of the others, whose 28-bit
/// frame counts show if some are missing. A frame past the list's end is not struck.
///
/// It returns exactly the packets that aren't idle and lost no frame, in order. Each
/// item of `packets` must be one whole packet, which [`are_packets`](crate::are_packets) tests, and
/// fewer than 268,435,456 frames in a row must be struck, which [`are_few_in_a_row`] tests.
/// `AllocError` comes only if a growth was refused.
pub fn carry(
    alloc: Global,
    packets: &[Vec<u8>],
    zone: usize,
    struck: &[bool],
) -> Result<OctetStrings, AllocError>
    requires whole { ArePackets (octets_of_each packets.now) }
    requires few { AreFewInARow struck.now }
    requires least { 16 ≤ zone }
    requires most { zone ≤ 2040 }
    ensures { IfOk result (λ v. AreSurvivors (octets_of_each packets.now
        ++ fill_of zone (octets_of_each packets.now)) struck.now zone v) }
{
    let mut packer = Packer::new(alloc, zone, CARRY_CAPACITY)?;
    let mut reassembler = Reassembler::new(alloc)?;
    let mut buffer = vec![in alloc; 0u8; zone]?;
    let mut out = OctetStrings::new(alloc);
    let mut sent = 0;
    let mut counts = Counts {
        counter: VcCounter::new(),
        monitor: VcMonitor::new(),
    };
    for packet in packets {
        let _ = packer.push(packet);
        drain(
            &mut packer,
            &mut reassembler,
            &mut counts,
            &mut buffer,
            struck,
            &mut sent,
            &mut out,
        )?;
    }
    packer.flush();
    drain(
        &mut packer,
        &mut reassembler,
        &mut counts,
        &mut buffer,
        struck,
        &mut sent,
        &mut out,
    )?;
    Ok(out)
}
