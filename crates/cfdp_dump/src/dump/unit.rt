//! What one unit spells, a PDU or a frame, and what a frame carries.
ghost use Rattle.std.specs.Prelude.{◌≡◌, ◌≤◌, ◌∷◌, [], length, IfOk, OnOk};
ghost use Rattle.std.specs.List.{flat_map};
ghost use Rattle.std.specs.Option.{option_map};
ghost use Rattle.std.specs.Result.{result_err};
ghost use Rattle.aos_frame.specs.Frame.{SpellsFrame, frame_fault};
ghost use Rattle.aos_frame.specs.LinkFields.{mpdu_in};
ghost use Rattle.cfdp_dump.specs.Spelled.Lines.{WritesLines};
ghost use Rattle.cfdp_dump.specs.Spelled.Shape.{IsShape, channel_in};
ghost use Rattle.cfdp_dump.specs.Dump.Told as told;
ghost use Rattle.cfdp_dump.specs.Dump.Told.{Says, TellsTold, carried_told, packet_told, said};
ghost use Rattle.cfdp_dump.specs.Dump.Units.{TellsDeep, TellsUnit, WritesUnit};
ghost use Rattle.cfdp_dump.specs.Carrying.{carried_text};

use crate::channel::Carried;
use crate::channels::Channels;
use crate::dump::remark::Remark;
use crate::dump::{DumpKind, DumpRequest};
use crate::spelled::shape::FrameShape;
use crate::spelled::{write_frame, write_pdu};
use aos_frame::{ChannelConfig, FrameError, FrameHeader, HEADER_LEN, decode};
use cfd_bits::get;
use octet_strings::OctetStrings;
use space_packet::header;
use std::io;
use std::io::Write;

/// Writes what a unit spells, and in a deep dump what a frame carries.
///
/// # Errors
///
/// The error of the writer, or `OutOfMemory`.
pub(crate) fn write_unit<W: Write>(
    request: DumpRequest,
    octets: &[u8],
    channels: &mut Channels,
    out: &mut W,
) -> io::Result<()>
    requires { IsShape request.shape }
    ensures { OnOk result (WritesUnit (TellsUnit request channels.old octets.now) request
        channels.new (W.contents out.old) (W.contents out.new)) }
{
    match request.kind {
        DumpKind::Pdus => write_pdu(octets, request.form, out),
        DumpKind::Frames if request.deep => write_deep(request, octets, channels, out),
        DumpKind::Frames => write_frame(octets, request.shape, request.form, out),
    }
}

/// Writes a frame, and what it carries.
///
/// # Errors
///
/// The error of the writer, or `OutOfMemory`.
fn write_deep<W: Write>(
    request: DumpRequest,
    octets: &[u8],
    channels: &mut Channels,
    out: &mut W,
) -> io::Result<()>
    requires { IsShape request.shape }
    ensures { OnOk result (WritesUnit (TellsDeep request channels.old octets.now) request
        channels.new (W.contents out.old) (W.contents out.new)) }
{
    write_frame(octets, request.shape, request.form, out)?;
    match frame_of(octets, request.shape) {
        Ok((header, mpdu)) => match channels.take(header, mpdu)? {
            Some(carried) => write_carried(request, &carried, out),
            None => write_remark(request, Remark::Unfollowed, out),
        },
        Err(_) => Ok(()),
    }
}

/// Returns the header and the M_PDU of a frame of this shape, of the channel that it names.
///
/// # Errors
///
/// Why the octets are no such frame.
fn frame_of(octets: &[u8], shape: FrameShape) -> Result<(FrameHeader, &[u8]), FrameError>
    requires { IsShape shape }
    ensures found { IfOk result (λ x. SpellsFrame (channel_in octets.now shape) x.0 octets.now) }
    ensures mpdu { IfOk result (λ x. x.1.now ≡ mpdu_in shape.fields octets.now) }
    ensures least { IfOk result (λ x. 18 ≤ length x.1.now) }
    ensures most { IfOk result (λ x. length x.1.now ≤ 2042) }
    ensures refused { result_err result ≡ frame_fault octets.now (channel_in octets.now shape) }
{
    if octets.len() < HEADER_LEN {
        return Err(FrameError::Length);
    }
    let own = ChannelConfig {
        spacecraft: get(octets, 2, 8) as u8,
        virtual_channel: get(octets, 10, 6) as u8,
        zone: shape.zone,
        apid: 0,
        fields: shape.fields,
    };
    decode(octets, &own)
}

/// Writes what a frame carries.
///
/// # Errors
///
/// The error of the writer, if it fails.
fn write_carried<W: Write>(request: DumpRequest, carried: &Carried, out: &mut W) -> io::Result<()>
    ensures { OnOk result (WritesLines (TellsTold request) (carried_told (carried_text carried.now))
        (W.contents out.old) (W.contents out.new)) }
{
    let missing = missing_remark(carried.missing);
    let idle = idle_remark(carried.only_idle);
    let cut = cut_remark(carried.notes.resync);
    let bad = bad_remark(carried.notes.bad);
    write_said(request, missing, out)?;
    write_said(request, idle, out)?;
    write_said(request, cut, out)?;
    write_said(request, bad, out)?;
    write_packets(request, &carried.packets, out)
}

/// Returns what is said of frames that are missing.
fn missing_remark(frames: u32) -> Option<Remark>
    ensures { result ≡ told.missing_remark frames }
{
    if frames == 0 {
        None
    } else {
        Some(Remark::Missing(frames))
    }
}

/// Returns what is said of a frame of idle data only.
fn idle_remark(only_idle: bool) -> Option<Remark>
    ensures { result ≡ told.idle_remark only_idle }
{
    if only_idle {
        Some(Remark::OnlyIdle)
    } else {
        None
    }
}

/// Returns what is said of a packet that is cut off.
fn cut_remark(cut_off: bool) -> Option<Remark>
    ensures { result ≡ told.cut_remark cut_off }
{
    if cut_off { Some(Remark::CutOff) } else { None }
}

/// Returns what is said of bad packet headers.
fn bad_remark(headers: u8) -> Option<Remark>
    ensures { result ≡ told.bad_remark headers }
{
    if headers == 0 {
        None
    } else {
        Some(Remark::BadHeaders(headers))
    }
}

/// Writes a remark, if there is one.
///
/// # Errors
///
/// The error of the writer, if it fails.
fn write_said<W: Write>(request: DumpRequest, remark: Option<Remark>, out: &mut W) -> io::Result<()>
    ensures { OnOk result (WritesLines (TellsTold request) (said remark)
        (W.contents out.old) (W.contents out.new)) }
{
    match remark {
        Some(remark) => write_remark(request, remark, out),
        None => Ok(()),
    }
}

/// Writes packets, in order, each with its PDU.
///
/// # Errors
///
/// The error of the writer, if it fails.
fn write_packets<W: Write>(
    request: DumpRequest,
    packets: &OctetStrings,
    out: &mut W,
) -> io::Result<()>
    ensures { OnOk result (WritesLines (TellsTold request) (flat_map packet_told packets.now)
        (W.contents out.old) (W.contents out.new)) }
{
    for place in 0..packets.len() {
        write_packet(request, packets.get(place), out)?;
    }
    Ok(())
}

/// Writes a packet, and its PDU, if it has one.
///
/// # Errors
///
/// The error of the writer, if it fails.
fn write_packet<W: Write>(request: DumpRequest, packet: &[u8], out: &mut W) -> io::Result<()>
    ensures { OnOk result (WritesLines (TellsTold request) (packet_told packet.now)
        (W.contents out.old) (W.contents out.new)) }
{
    write_remark(request, packet_remark(packet), out)?;
    match pdu_in(packet) {
        Some(pdu) => write_pdu(pdu, request.form, out),
        None => Ok(()),
    }
}

/// Returns what is said of a packet.
fn packet_remark(packet: &[u8]) -> Remark
    ensures { result ≡ told.packet_remark packet.now }
{
    if packet.len() < header::HEADER_LEN {
        Remark::Packet(0, 0, packet.len())
    } else {
        Remark::Packet(get(packet, 5, 11), get(packet, 18, 14), packet.len())
    }
}

/// Writes what is said beside what octets spell.
///
/// # Errors
///
/// The error of the writer, if it fails.
pub(crate) fn write_remark<W: Write>(
    _request: DumpRequest,
    remark: Remark,
    out: &mut W,
) -> io::Result<()>
    ensures { OnOk result (WritesLines (TellsTold _request) (Says remark ∷ [])
        (W.contents out.old) (W.contents out.new)) }
{
    writeln!(out, "{remark}")
}

/// Returns the PDU of a packet, if it has one: if it is no segment, and has no secondary header.
fn pdu_in(packet: &[u8]) -> Option<&[u8]>
    ensures { option_map (λ pdu. pdu.now) result ≡ told.pdu_in packet.now }
{
    if packet.len() < header::HEADER_LEN {
        return None;
    }
    if get(packet, 16, 2) != 3 {
        return None;
    }
    if get(packet, 4, 1) != 0 {
        return None;
    }
    let (_, pdu) = packet.split_at(header::HEADER_LEN);
    Some(pdu)
}
