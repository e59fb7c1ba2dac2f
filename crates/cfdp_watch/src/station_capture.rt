//! Captures of what one station sends and receives, as Wireshark reads them without any setting.
ghost use Rattle.std.specs.Prelude.{◌≡◌, ◌≤◌, [], IfSome, OnOk, length};
ghost use Rattle.std.specs.Io.Buffered.{writer_buffer, writer_contents};
ghost use Rattle.std.specs.Io.KnownBytes.{Appends};
ghost use Rattle.cfdp_watch.specs.StationCapture.{flag_octets, station_header_octets};
ghost use Rattle.cfdp_watch.specs.StationCapture.{station_record_octets, station_records};
ghost use Rattle.cfdp_watch.specs.StationCapture.{upper_packet_octets};
ghost use Rattle.cfdp_watch.specs.StationCapture as spelled;

use crate::capture::{PACKET, padding_len, write_number};
use crate::sighting::{Deed, Sighting};
use std::io;
use std::io::{BufWriter, ErrorKind, Write};

/// The header of a capture: version 1.0, and an interface for directives and one for file data,
/// with its name, records of any length, and link type 252, Wireshark's upper PDUs.
const HEADER: [u8; 92] = [
    0x0A, 0x0D, 0x0D, 0x0A, 0, 0, 0, 28, 0x1A, 0x2B, 0x3C, 0x4D, 0, 1, 0, 0, // version
    0xFF, 0xFF, 0xFF, 0xFF, 0xFF, 0xFF, 0xFF, 0xFF, 0, 0, 0, 28, // no length
    0, 0, 0, 1, 0, 0, 0, 32, 0, 252, 0, 0, 0, 0, 0, 0, // link type
    0, 2, 0, 3, b'd', b'i', b'r', 0, 0, 0, 0, 0, 0, 0, 0, 32, // name
    0, 0, 0, 1, 0, 0, 0, 32, 0, 252, 0, 0, 0, 0, 0, 0, // link type
    0, 2, 0, 4, b'd', b'a', b't', b'a', 0, 0, 0, 0, 0, 0, 0, 32, // name
];

/// The tags before a PDU: the name of the dissector, and their end.
const TAGS: [u8; 12] = [0, 12, 0, 4, b'c', b'f', b'd', b'p', 0, 0, 0, 0];

/// How many octets they have.
const TAGS_LEN: u32 = 12;

/// The flags of a packet that was received, and of one that was sent, as an option, and the end of
/// options.
const INBOUND: [u8; 12] = [0, 2, 0, 4, 0, 0, 0, 1, 0, 0, 0, 0];

const OUTBOUND: [u8; 12] = [0, 2, 0, 4, 0, 0, 0, 2, 0, 0, 0, 0];

/// The octets of a block around a PDU and its padding.
const AROUND: u32 = 56;

/// The most octets of a PDU: a space packet holds no more.
const MOST_PDU: u32 = 65_536;

/// Whether a PDU was received or sent.
#[derive(Clone, Copy)]
pub enum Way {
    /// The station received it.
    Inbound,
    /// The station sent it.
    Outbound,
}

/// Begins the capture of a station in the pcapng format, in which directives are an interface and
/// file data are. Its header has left the buffer then.
///
/// # Errors
///
/// The error of the writer, if it fails.
pub fn begin_station_capture<V: Write + Drop>(out: &mut BufWriter<V>) -> io::Result<()>
    ensures begun { OnOk result (Appends (writer_contents V.contents out.old)
        (writer_contents V.contents out.new) station_header_octets) }
    ensures flushed { OnOk result (writer_buffer out.new ≡ []) }
{
    out.write_all(&HEADER)?;
    out.flush()
}

/// Writes the PDUs that the station sent and received, in order, after those of a capture, which
/// must have been begun. They have left the buffer then. Each has this time, in microseconds since
/// 1970.
///
/// # Errors
///
/// The error of the writer, and `InvalidInput` if a PDU has more than 65,536 octets.
pub fn write_station_capture<V: Write + Drop>(
    out: &mut BufWriter<V>,
    time: u64,
    sightings: &[Sighting],
) -> io::Result<()>
    ensures written { OnOk result (Appends (writer_contents V.contents out.old)
        (writer_contents V.contents out.new) (station_records time sightings.now)) }
    ensures flushed { OnOk result (writer_buffer out.new ≡ []) }
{
    write_station_records(out, time, sightings)?;
    out.flush()
}

/// Writes the PDUs that the station sent and received, in order.
fn write_station_records<W: Write>(out: &mut W, time: u64, sightings: &[Sighting]) -> io::Result<()>
    ensures { OnOk result (Appends (W.contents out.old) (W.contents out.new)
        (station_records time sightings.now)) }
{
    for sighting in sightings {
        write_station_record(out, time, sighting)?;
    }
    Ok(())
}

/// Writes a PDU that the station sent or received, and nothing for anything else.
fn write_station_record<W: Write>(out: &mut W, time: u64, sighting: &Sighting) -> io::Result<()>
    ensures { OnOk result (Appends (W.contents out.old) (W.contents out.new)
        (station_record_octets time sighting.now)) }
{
    match sighting.deed {
        Deed::SendsPdu(_) => write_upper_packet(out, Way::Outbound, time, &sighting.octets),
        Deed::HearsPdu => write_upper_packet(out, Way::Inbound, time, &sighting.octets),
        Deed::SendsFrame(_)
        | Deed::TakesFrame(_)
        | Deed::LosesFrame(_)
        | Deed::Ticks
        | Deed::Drops
        | Deed::Tells => Ok(()),
    }
}

/// Writes the block of a PDU that was seen at this time, in microseconds since 1970. The length of
/// the packet stands twice, as captured and as sent, and the length of the block at both its ends.
fn write_upper_packet<W: Write>(out: &mut W, way: Way, time: u64, pdu: &[u8]) -> io::Result<()>
    ensures { OnOk result (Appends (W.contents out.old) (W.contents out.new)
        (upper_packet_octets way time pdu.now)) }
{
    let Some(len) = pdu_len(pdu) else {
        return Err(io::Error::from(ErrorKind::InvalidInput));
    };
    let padding = padding_len(len);
    let block_len = AROUND + len + padding;
    write_number(out, PACKET)?;
    write_number(out, block_len)?;
    write_number(out, type_interface(pdu))?;
    out.write_all(&time.to_be_bytes())?;
    write_number(out, TAGS_LEN + len)?;
    write_number(out, TAGS_LEN + len)?;
    out.write_all(&TAGS)?;
    out.write_all(pdu)?;
    out.write_all(&[0; 3][..padding as usize])?;
    write_flags(out, way)?;
    write_number(out, block_len)
}

/// Returns how many octets a PDU has; `None` if a packet can't hold so many.
fn pdu_len(pdu: &[u8]) -> Option<u32>
    ensures { IfSome result (λ len. (len ≡ length pdu.now) × (len ≤ 65536)) }
{
    match u32::try_from(pdu.len()) {
        Ok(len) if len <= MOST_PDU => Some(len),
        _ => None,
    }
}

/// Returns the number of the interface of a PDU, by its type.
fn type_interface(pdu: &[u8]) -> u32
    ensures { result ≡ spelled.type_interface pdu.now }
{
    match pdu {
        [first, ..] => u32::from(*first / 16 % 2),
        [] => 0,
    }
}

/// Writes the flags of a packet, and the end of its options.
fn write_flags<W: Write>(out: &mut W, way: Way) -> io::Result<()>
    ensures { OnOk result (Appends (W.contents out.old) (W.contents out.new) (flag_octets way)) }
{
    match way {
        Way::Inbound => out.write_all(&INBOUND),
        Way::Outbound => out.write_all(&OUTBOUND),
    }
}
