//! What octets spell, as a line.
ghost use Rattle.std.specs.Prelude.{◌≡◌, ◌≢◌, ◌+◌, ◌≤◌, length, IfOk, OnOk, Some};
ghost use Rattle.std.specs.Result.{result_err};
ghost use Rattle.aos_frame.specs.LinkFields.{extra, insert_in, mpdu_in};
ghost use Rattle.aos_frame.specs.Frame.{SpellsFrame, frame_fault};
ghost use Rattle.mpdu.specs.MpduHeader.{pointer_of};
ghost use Rattle.cfdp_dump.specs.Spelled.Shape.{channel_in, check_octets, control_octets};
ghost use Rattle.cfdp_dump.specs.Spelled.Lines.{WritesLine};
ghost use Rattle.cfdp_dump.specs.Spelled.Told.{TellsAsFrame, TellsAsPdu};

mod field;
mod fields;
pub mod form;
pub mod line;
pub mod refusal;
pub mod shape;

use crate::spelled::form::DumpForm;
use crate::spelled::line::{DumpedFrame, DumpedPdu, FrameLine, FrameParts};
use crate::spelled::refusal::{FrameRefusal, LineRefusal};
use crate::spelled::shape::FrameShape;
use aos_frame::{ChannelConfig, FrameError, FrameFields, HEADER_LEN, decode};
use cfd_bits::get;
use mpdu::read_pointer;
use std::io;
use std::io::Write;

/// Writes which PDU the octets are, or why they are none.
pub fn write_pdu<W: Write>(octets: &[u8], form: DumpForm, out: &mut W) -> io::Result<()>
    ensures { OnOk result (WritesLine (TellsAsPdu form octets.now)
        (W.contents out.old) (W.contents out.new)) }
{
    match cfdp_directives::decode(octets) {
        Ok((header, pdu)) => writeln!(
            out,
            "{}",
            DumpedPdu {
                header,
                pdu: &pdu,
                octets,
                form
            }
        ),
        Err(error) => writeln!(out, "{}{}", LineRefusal::Pdu(error), form.end()),
    }
}

/// Writes which frame the octets are, or why they are none.
pub fn write_frame<W: Write>(
    octets: &[u8],
    shape: FrameShape,
    form: DumpForm,
    out: &mut W,
) -> io::Result<()>
    ensures { OnOk result (WritesLine (TellsAsFrame form shape octets.now)
        (W.contents out.old) (W.contents out.new)) }
{
    match read_frame(octets, shape) {
        Ok((frame, parts)) => {
            let zone = shape.zone;
            writeln!(
                out,
                "{}",
                DumpedFrame {
                    frame,
                    zone,
                    parts,
                    form
                }
            )
        }
        Err(error) => {
            let count = octets.len();
            let refusal = FrameRefusal {
                error,
                shape,
                count,
                form,
            };
            writeln!(out, "{refusal}{}", form.end())
        }
    }
}

/// Returns the frame of this shape that the octets are, of the link that its own header names, and
/// its fields.
///
/// # Errors
///
/// `Length`, `Damaged`, `Version`, `OtherProfile` or `OnlyIdle`, the first that holds: the frame is
/// never one of another link.
fn read_frame(octets: &[u8], shape: FrameShape) -> Result<(FrameLine, FrameParts<'_>), FrameError>
    ensures found { IfOk result (λ x. SpellsFrame (channel_in octets.now shape) x.0.header
        octets.now) }
    ensures pointer { IfOk result (λ x. x.0.pointer
        ≡ pointer_of (mpdu_in shape.fields octets.now)) }
    ensures insert { IfOk result (λ x. x.1.insert.now ≡ insert_in shape.fields octets.now) }
    ensures control { IfOk result (λ x. x.1.control.now
        ≡ control_octets shape.fields octets.now) }
    ensures check { IfOk result (λ x. x.1.check.now ≡ check_octets shape.fields octets.now) }
    ensures refused { result_err result ≡ frame_fault octets.now (channel_in octets.now shape) }
    ensures own { (result_err result ≢ Some FrameError.OtherSpacecraft)
        × (result_err result ≢ Some FrameError.OtherChannel) }
{
    if octets.len() < HEADER_LEN {
        return Err(FrameError::Length);
    }
    let own = own_channel(octets, shape);
    let (header, mpdu) = decode(octets, &own)?;
    let frame = FrameLine {
        header,
        pointer: read_pointer(mpdu),
    };
    Ok((frame, parts_of(octets, shape.fields)))
}

/// Returns the channel that the header of a frame of this shape names.
fn own_channel(octets: &[u8], shape: FrameShape) -> ChannelConfig
    requires { 6 ≤ length octets.now }
    ensures { result ≡ channel_in octets.now shape }
{
    ChannelConfig {
        spacecraft: get(octets, 2, 8) as u8,
        virtual_channel: get(octets, 10, 6) as u8,
        zone: shape.zone,
        apid: 0,
        fields: shape.fields,
    }
}

/// Returns the fields of a frame beside its M_PDU.
fn parts_of(octets: &[u8], fields: FrameFields) -> FrameParts<'_>
    requires { 6 + extra fields ≤ length octets.now }
    ensures insert { result.insert.now ≡ insert_in fields octets.now }
    ensures control { result.control.now ≡ control_octets fields octets.now }
    ensures check { result.check.now ≡ check_octets fields octets.now }
{
    let mpdu_len = octets.len() - HEADER_LEN - fields.extra();
    let (_, rest) = octets.split_at(HEADER_LEN);
    let (insert, rest) = rest.split_at(usize::from(fields.insert_zone));
    let (_, behind) = rest.split_at(mpdu_len);
    let (control, check) = behind.split_at(if fields.control_field { 4 } else { 0 });
    FrameParts {
        insert,
        control,
        check,
    }
}
