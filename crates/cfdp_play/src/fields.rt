//! The fields of frames and of PDUs.
ghost use Rattle.std.specs.Prelude.{◌≡◌, IfOk, IfSome, Some, []};
ghost use Rattle.cfdp_dump.specs.Spelled.Shape.{IsShape};
ghost use Rattle.cfdp_report.specs.Numbers.{number_of};
ghost use Rattle.cfdp_dump.specs.Dump.{WritesFile};
ghost use Rattle.cfdp_report.specs.Words.{left};
ghost use Rattle.cfdp_play.specs.Fields.{IsCut, SayShape, Says, TellsFields, flag_of};

use aos_frame::FrameFields;
use cfdp_dump::{DumpForm, DumpKind, DumpRequest, FrameShape, run_dump};
use cfdp_report::{Exit, Words, cut_at_first, parse_number};
use std::alloc::{AllocError, Global};
use std::io::BufWriter;

/// The fewest and the most octets of a packet zone, and the most of an insert zone.
const LEAST_ZONE: u64 = 16;

const MOST_ZONE: u64 = 2040;

const MOST_INSERT: u64 = 64;

/// What frames are made of if PDUs are printed, which say nothing of it.
const ANY_SHAPE: FrameShape = FrameShape {
    zone: 16,
    fields: FrameFields {
        insert_zone: 0,
        control_field: false,
        error_control: false,
    },
};

/// Returns what the lines after the first one spell, field by field, as `cfdp_node dump --fields`
/// prints it. The first line must say what they are: `pdus`, or `frames ZONE INSERT CONTROL CHECK`
/// with the octets of the packet zone and of the insert zone, and 1 or 0 for the operational
/// control field and the frame error control field. Returns `None` if it says neither.
///
/// # Errors
///
/// `AllocError` if there is no memory.
pub fn fields(alloc: Global, text: &[u8]) -> Result<Option<Vec<u8>>, AllocError>
    ensures { IfOk result (λ found. IfSome found (λ told. TellsFields text.now told.items)) }
{
    let (first, lines) = cut_first(text);
    let Some((kind, shape)) = kind_and_shape(first) else {
        return Ok(None);
    };
    let request = DumpRequest {
        kind,
        shape,
        form: DumpForm::Fields,
        deep: false,
        by_tools: false,
    };
    Ok(Some(told(alloc, request, lines)?))
}

/// Returns the first line of a text, and what stands after it.
fn cut_first(text: &[u8]) -> (&[u8], &[u8])
    ensures { IsCut text.now result.0.now result.1.now }
{
    match cut_at_first(text, b'\n') {
        (first, Some(behind)) => (first, behind),
        (first, None) => (first, b"".as_slice()),
    }
}

/// Returns what the lines are and, if they are frames, what these are made of.
fn kind_and_shape(line: &[u8]) -> Option<(DumpKind, FrameShape)>
    ensures says { IfSome result (λ found. Says line.now found.0 found.1) }
    ensures shape { IfSome result (λ found. IsShape found.1) }
{
    let mut words = Words::of(line);
    let kind = words.next_word().ok()?;
    if kind == b"pdus".as_slice() && words.is_empty() {
        Some((DumpKind::Pdus, ANY_SHAPE))
    } else if kind == b"frames".as_slice() {
        Some((DumpKind::Frames, shape(words)?))
    } else {
        None
    }
}

/// Returns what frames are made of, by these words; `None` if they don't say it.
fn shape(words: Words<'_>) -> Option<FrameShape>
    ensures says { IfSome result (SayShape (left words.entry)) }
    ensures shape { IfSome result IsShape }
{
    let (zone, insert, control, check) = words.four().ok()?;
    let (zone, insert) = (parse_number(zone)?, parse_number(insert)?);
    if !(LEAST_ZONE..=MOST_ZONE).contains(&zone) || insert > MOST_INSERT {
        return None;
    }
    Some(FrameShape {
        zone: zone as u16,
        fields: FrameFields {
            insert_zone: insert as u8,
            control_field: flag(control)?,
            error_control: flag(check)?,
        },
    })
}

/// Returns `true` if a field is there, by 1 or 0; `None` if the word is another.
fn flag(word: &[u8]) -> Option<bool>
    ensures { IfSome result (λ flag. number_of word.now ≡ Some (flag_of flag)) }
{
    match parse_number(word)? {
        0 => Some(false),
        1 => Some(true),
        _ => None,
    }
}

/// Returns what lines spell.
///
/// # Errors
///
/// `AllocError` if there is no memory.
fn told(alloc: Global, request: DumpRequest, text: &[u8]) -> Result<Vec<u8>, AllocError>
    requires { IsShape request.shape }
    ensures { IfOk result (λ told. WritesFile request text.now (Some []) (Some told.items)) }
{
    let Ok(mut out) = BufWriter::new(alloc, Vec::new(alloc)) else {
        return Err(AllocError);
    };
    let exit = run_dump(alloc, request, text, &mut out);
    let Exit::Complete = exit else {
        return Err(AllocError);
    };
    let (mut told, waiting) = out.into_parts();
    told.extend_from_slice(waiting.as_slice())?;
    Ok(told)
}
