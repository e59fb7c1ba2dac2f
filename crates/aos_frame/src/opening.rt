//! From the frames of a link to bare ones.
ghost use Rattle.std.specs.Prelude.{◌≡◌, ◌+◌, ◌-◌, ◌≤◌, length, take, drop, IfOk};
ghost use Rattle.std.specs.Result.{result_err};
ghost use Rattle.cfd_bits.specs.Field.{field};
ghost use Rattle.aos_frame.specs.LinkFields.{control_in, control_len, control_of};
ghost use Rattle.aos_frame.specs.LinkFields.{extra, fields_fault, insert_in};
ghost use Rattle.aos_frame.specs.LinkFields as parts;
ghost use Rattle.aos_frame.specs.LinkFields.{mpdu_in};

use crate::fields::{CHECK_LEN, CONTROL_LEN, FrameFields};
use crate::header::HEADER_LEN;
use cfd_bits::read_uint;
use crc::crc16;
use thiserror::Error;

/// Why octets are no frame of a link with these fields: the first cause that holds, in the order of
/// the variants.
#[derive(Clone, Copy, Debug, PartialEq, Eq, Error)]
pub enum FieldsFault {
    /// The octets are fewer than a header and the fields have.
    #[error("the frame is shorter than its header and fields")]
    Short,
    /// The check of the frame differs from its frame error control field: some of it is not as it
    /// was sent.
    #[error("the frame was damaged on the way")]
    Damaged,
}

/// The parts of a frame. The bare frame is the header with the M_PDU after it.
#[derive(Clone, Copy, Debug)]
pub struct OpenedFrame<'a> {
    /// The header.
    pub header: &'a [u8],
    /// The insert zone.
    pub insert: &'a [u8],
    /// The M_PDU: what stands between the insert zone and the fields after it.
    pub mpdu: &'a [u8],
    /// The operational control field, if the link has one.
    pub control: Option<u32>,
}

/// Finds the parts of a frame that came. Its error control field is checked first.
///
/// # Errors
///
/// The first of these that holds: `Short` if the octets are too few, `Damaged` if the check
/// differs.
pub fn open<'a>(fields: FrameFields, frame: &'a [u8]) -> Result<OpenedFrame<'a>, FieldsFault>
    ensures header { IfOk result (λ x. x.header.now ≡ take 6 frame.now) }
    ensures insert { IfOk result (λ x. x.insert.now ≡ insert_in fields frame.now) }
    ensures mpdu { IfOk result (λ x. x.mpdu.now ≡ mpdu_in fields frame.now) }
    ensures control { IfOk result (λ x. x.control ≡ control_in fields frame.now) }
    ensures refused { result_err result ≡ fields_fault fields frame.now }
{
    if frame.len() < HEADER_LEN + fields.extra() {
        return Err(FieldsFault::Short);
    }
    if fields.error_control && !is_intact(frame) {
        return Err(FieldsFault::Damaged);
    }
    let mpdu_len = frame.len() - HEADER_LEN - fields.extra();
    let (header, rest) = frame.split_at(HEADER_LEN);
    let (insert, rest) = rest.split_at(usize::from(fields.insert_zone));
    let (mpdu, behind) = rest.split_at(mpdu_len);
    Ok(OpenedFrame {
        header,
        insert,
        mpdu,
        control: control_at(fields, behind),
    })
}

/// Returns the operational control field of a frame that was opened, if the link has one.
pub fn control_field(fields: FrameFields, frame: &[u8]) -> Option<u32>
    requires { 6 + extra fields ≤ length frame.now }
    ensures { result ≡ control_in fields frame.now }
{
    let mpdu_len = frame.len() - HEADER_LEN - fields.extra();
    let (_, rest) = frame.split_at(HEADER_LEN);
    let (_, rest) = rest.split_at(usize::from(fields.insert_zone));
    let (_, behind) = rest.split_at(mpdu_len);
    control_at(fields, behind)
}

/// Returns `true` if the last two octets are the check of all before them.
fn is_intact(frame: &[u8]) -> bool
    requires { 2 ≤ length frame.now }
    ensures { result ≡ parts.is_intact frame.now }
{
    let (covered, check) = frame.split_at(frame.len() - CHECK_LEN);
    read_uint(check, CHECK_LEN) == u64::from(crc16(covered))
}

/// Returns the operational control field at the front of the octets after an M_PDU, if there is
/// one.
fn control_at(fields: FrameFields, behind: &[u8]) -> Option<u32>
    requires { control_len fields ≤ length behind.now }
    ensures { result ≡ control_of fields behind.now }
{
    if fields.control_field {
        Some(read_uint(behind, CONTROL_LEN) as u32)
    } else {
        None
    }
}
