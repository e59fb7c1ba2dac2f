//! Captures of PDUs, as Wireshark reads them.
ghost use Rattle.std.specs.Prelude.{◌≡◌, ◌+◌, ◌*◌, ◌<◌, [], OnOk};
ghost use Rattle.std.specs.Int.{to_be_bytes, w32};
ghost use Rattle.std.specs.Io.Buffered.{writer_buffer, writer_contents};
ghost use Rattle.std.specs.Io.KnownBytes.{Appends};
ghost use Rattle.std.specs.List.{flat_map};
ghost use Rattle.cfdp_watch.specs.Capture.{CapturesSoFar, interface_of, packet_octets};
ghost use Rattle.cfdp_watch.specs.Capture.{record_octets};
ghost use Rattle.cfdp_watch.specs.Continues.{Continues};

use crate::sighting::{Deed, Sighting};
use aos_frame::Lane;
use std::io;
use std::io::{BufWriter, ErrorKind, Write};

/// The header of a capture: version 1.0, and an interface for each lane, with its name, records of
/// at most 65,535 octets, and link type 147, the first of those that stand for what a user says.
const HEADER: [u8; 92] = [
    0x0A, 0x0D, 0x0D, 0x0A, 0, 0, 0, 28, 0x1A, 0x2B, 0x3C, 0x4D, 0, 1, 0, 0, // version
    0xFF, 0xFF, 0xFF, 0xFF, 0xFF, 0xFF, 0xFF, 0xFF, 0, 0, 0, 28, // no length
    0, 0, 0, 1, 0, 0, 0, 32, 0, 147, 0, 0, 0, 0, 0xFF, 0xFF, // link type
    0, 2, 0, 3, b'd', b'i', b'r', 0, 0, 0, 0, 0, 0, 0, 0, 32, // name
    0, 0, 0, 1, 0, 0, 0, 32, 0, 147, 0, 0, 0, 0, 0xFF, 0xFF, // link type
    0, 2, 0, 4, b'd', b'a', b't', b'a', 0, 0, 0, 0, 0, 0, 0, 32, // name
];

/// The kind of a block that has a packet.
pub const PACKET: u32 = 6;

/// The octets of such a block around the packet.
const AROUND: u32 = 32;

/// Begins a capture in the pcapng format, in which each lane is an interface. Its header has left
/// the buffer then.
///
/// # Errors
///
/// The error of the writer, if it fails.
pub fn begin_capture<V: Write + Drop>(out: &mut BufWriter<V>) -> io::Result<()>
    ensures begun { OnOk result (CapturesSoFar [] (writer_contents V.contents out.old)
        (writer_contents V.contents out.new)) }
    ensures flushed { OnOk result (writer_buffer out.new ≡ []) }
{
    out.write_all(&HEADER)?;
    out.flush()
}

/// Writes the PDUs that were sent, in order, after those of a capture, which must have been begun.
/// They have left the buffer then. The time of each is the number of its event in seconds, and its
/// place in it in microseconds.
///
/// # Errors
///
/// The error of the writer, and `InvalidInput` if a PDU has more than 65,535 octets.
pub fn write_capture<V: Write + Drop>(
    out: &mut BufWriter<V>,
    sightings: &[Sighting],
) -> io::Result<()>
    ensures goes_on { OnOk result (Continues CapturesSoFar CapturesSoFar sightings.now
        (writer_contents V.contents out.old) (writer_contents V.contents out.new)) }
    ensures flushed { OnOk result (writer_buffer out.new ≡ []) }
{
    write_records(out, sightings)?;
    out.flush()
}

/// Writes the PDUs that were sent, in order.
fn write_records<W: Write>(out: &mut W, sightings: &[Sighting]) -> io::Result<()>
    ensures { OnOk result (Appends (W.contents out.old) (W.contents out.new)
        (flat_map record_octets sightings.now)) }
{
    for sighting in sightings {
        write_record(out, sighting)?;
    }
    Ok(())
}

/// Writes a PDU that was sent, and nothing for anything else.
fn write_record<W: Write>(out: &mut W, sighting: &Sighting) -> io::Result<()>
    ensures { OnOk result (Appends (W.contents out.old) (W.contents out.new)
        (record_octets sighting.now)) }
{
    match sighting.deed {
        Deed::SendsPdu(lane) => {
            let time = microseconds(sighting.event, sighting.place);
            write_packet(out, lane, time, &sighting.octets)
        }
        Deed::SendsFrame(_)
        | Deed::TakesFrame(_)
        | Deed::HearsPdu
        | Deed::LosesFrame(_)
        | Deed::Ticks
        | Deed::Drops
        | Deed::Tells => Ok(()),
    }
}

/// Writes the block of a PDU that left in this lane at this time, which is in microseconds. Its
/// length stands twice, as captured and as sent, and the length of the block at both its ends.
fn write_packet<W: Write>(out: &mut W, lane: Lane, time: u64, pdu: &[u8]) -> io::Result<()>
    ensures { OnOk result (Appends (W.contents out.old) (W.contents out.new)
        (packet_octets lane time pdu.now)) }
{
    let Ok(len) = u16::try_from(pdu.len()) else {
        return Err(io::Error::from(ErrorKind::InvalidInput));
    };
    let len = u32::from(len);
    let padding = padding_len(len);
    let block_len = AROUND + len + padding;
    write_number(out, PACKET)?;
    write_number(out, block_len)?;
    write_number(out, interface(lane))?;
    out.write_all(&time.to_be_bytes())?;
    write_number(out, len)?;
    write_number(out, len)?;
    out.write_all(pdu)?;
    out.write_all(&[0; 3][..padding as usize])?;
    write_number(out, block_len)
}

/// Returns how many octets of padding follow so many octets, up to a multiple of four.
pub fn padding_len(len: u32) -> u32
    ensures within { result < 4 }
    ensures same { result ≡ Rattle.cfdp_watch.specs.Capture.padding_len len }
{
    (4 - len % 4) % 4
}

/// Returns the time in microseconds at a place of an event.
fn microseconds(event: u32, place: u32) -> u64
    ensures { result ≡ event * 1000000 + place }
{
    u64::from(event) * 1_000_000 + u64::from(place)
}

/// Returns the number of a lane's interface.
fn interface(lane: Lane) -> u32
    ensures { result ≡ interface_of lane }
{
    match lane {
        Lane::Directives => 0,
        Lane::Data => 1,
    }
}

/// Writes a number as four octets, the highest first.
pub fn write_number<W: Write>(out: &mut W, number: u32) -> io::Result<()>
    ensures { OnOk result (Appends (W.contents out.old) (W.contents out.new)
        (to_be_bytes w32 number)) }
{
    out.write_all(&number.to_be_bytes())
}
