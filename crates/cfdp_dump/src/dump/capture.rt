//! What the packets of a capture carry.
ghost use Rattle.std.specs.Prelude.{◌≡◌, ◌≤◌, length, OnOk};
ghost use Rattle.captures.specs.Packets.{CaptureState, item_text, packet_text};
ghost use Rattle.cfdp_dump.specs.Spelled.Shape.{IsShape};
ghost use Rattle.cfdp_dump.specs.Dump.{WritesCapture};
ghost use Rattle.cfdp_dump.specs.Dump.Units.{TellsItem, WritesUnit};

use crate::channels::Channels;
use crate::dump::DumpRequest;
use crate::dump::remark::Remark;
use crate::dump::unit::{write_remark, write_unit};
use captures::{Capture, CapturedPacket, Item, unit_of};
use std::alloc::Global;
use std::io;
use std::io::Write;

/// Writes what the packets of a capture carry, in order, and what can't be read of it.
///
/// # Errors
///
/// The error of the writer, or `OutOfMemory`.
pub(crate) fn write_capture<W: Write>(
    alloc: Global,
    request: DumpRequest,
    capture: &mut Capture,
    file: &[u8],
    out: &mut W,
) -> io::Result<()>
    requires { IsShape request.shape }
    ensures { OnOk result (WritesCapture request capture.old file.now
        (W.contents out.old) (W.contents out.new)) }
{
    let mut channels = Channels::new(alloc);
    let mut rest = file;
    while !rest.is_empty() {
        let (item, behind) = capture.take(rest)?;
        write_item(request, file.len(), item, &mut channels, out)?;
        rest = behind;
    }
    Ok(())
}

/// Writes what stands in a capture of so many octets.
///
/// # Errors
///
/// The error of the writer, or `OutOfMemory`.
fn write_item<W: Write>(
    request: DumpRequest,
    whole: usize,
    item: Item<'_>,
    channels: &mut Channels,
    out: &mut W,
) -> io::Result<()>
    requires { IsShape request.shape }
    ensures { OnOk result (WritesUnit (TellsItem whole request channels.old (item_text item.entry))
        request channels.new (W.contents out.old) (W.contents out.new)) }
{
    match item {
        Item::Packet(packet) => match unit_of(packet) {
            Ok(octets) => write_unit(request, octets, channels, out),
            Err(passed) => write_remark(request, Remark::PassedBy(passed), out),
        },
        Item::Passed => Ok(()),
        Item::Faulty(fault) => {
            let place = whole.saturating_sub(fault.left);
            write_remark(request, Remark::BadCapture(fault.cause, place), out)
        }
    }
}
