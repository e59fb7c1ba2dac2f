//! Lines that begin with an offset, as tools write them that show octets.
ghost use Rattle.std.specs.Prelude.{◌≡◌, ◌≤◌, length, IfOk};
ghost use Rattle.std.specs.Option.{option_map};
ghost use Rattle.cfdp_dump.specs.Dump.Rows as spelled;
ghost use Rattle.cfdp_dump.specs.Dump.Stepping.{row_text};

use crate::dump::parse_digits;
use cfd_bits::read_uint;
use std::alloc::{AllocError, Global};

/// A line that begins with an offset: how many octets of the unit stand before it.
#[derive(Clone, Copy)]
pub(crate) struct Row<'a> {
    /// The offset.
    pub offset: u64,
    /// How many octets of the line stand before its digits.
    pub before: u8,
    /// Its digits, with what stands between.
    pub digits: &'a [u8],
}

/// Reads a line as a row, which must have this offset; returns `None` if it is none.
pub(crate) fn row_at<'a>(
    alloc: Global,
    offset: usize,
    line: &'a [u8],
) -> Result<Option<Row<'a>>, AllocError>
    ensures { IfOk result (λ row. option_map row_text row ≡ spelled.row_at offset line.now) }
{
    match row_of(alloc, line)? {
        Some(row) if row.offset == offset as u64 => Ok(Some(row)),
        _ => Ok(None),
    }
}

/// Reads a line as `xxd`, `hexdump -C` or Wireshark writes it; returns `None` if it is none.
fn row_of<'a>(alloc: Global, line: &'a [u8]) -> Result<Option<Row<'a>>, AllocError>
    ensures { IfOk result (λ row. option_map row_text row ≡ spelled.row_of line.now) }
{
    if let Some(row) = row_with(alloc, 8, ": ", "  ", line)? {
        return Ok(Some(row));
    }
    if let Some(row) = row_with(alloc, 8, "  ", "|", line)? {
        return Ok(Some(row));
    }
    if let Some(row) = row_with(alloc, 4, "  ", "   ", line)? {
        return Ok(Some(row));
    }
    last_row(alloc, line)
}

/// Reads a line of an offset of so many digits, which this mark must follow, and of digits up to
/// this gap.
fn row_with<'a>(
    alloc: Global,
    width: usize,
    mark: &str,
    gap: &str,
    line: &'a [u8],
) -> Result<Option<Row<'a>>, AllocError>
    requires narrow { width ≤ 8 }
    requires short { length mark.now ≤ 2 }
    ensures { IfOk result (λ row. option_map row_text row
        ≡ spelled.row_with width mark.now gap.now line.now) }
{
    if line.len() < width || !line[width..].starts_with(mark.as_bytes()) {
        return Ok(None);
    }
    let Some(offset) = offset_of(alloc, &line[..width])? else {
        return Ok(None);
    };
    let before = width + mark.len();
    Ok(Some(Row {
        offset,
        before: before as u8,
        digits: up_to(gap.as_bytes(), &line[before..]),
    }))
}

/// Reads an offset alone, which ends what `hexdump -C` writes.
fn last_row<'a>(alloc: Global, line: &'a [u8]) -> Result<Option<Row<'a>>, AllocError>
    ensures { IfOk result (λ row. option_map row_text row ≡ spelled.last_row line.now) }
{
    if line.len() != 8 {
        return Ok(None);
    }
    match offset_of(alloc, line)? {
        Some(offset) => Ok(Some(Row {
            offset,
            before: 8,
            digits: &line[8..],
        })),
        None => Ok(None),
    }
}

/// Returns the number that these hexadecimal digits spell, or `None` if they aren't such pairs, or
/// spell more than eight octets.
fn offset_of(alloc: Global, digits: &[u8]) -> Result<Option<u64>, AllocError>
    ensures { IfOk result (λ offset. offset ≡ spelled.offset_of digits.now) }
{
    match parse_digits(alloc, digits)? {
        Some(octets) if octets.len() <= 8 => Ok(Some(read_uint(octets.as_slice(), octets.len()))),
        _ => Ok(None),
    }
}

/// Returns what stands before the first such gap in a text; all of it, if there is none.
fn up_to<'a>(gap: &[u8], text: &'a [u8]) -> &'a [u8]
    ensures { result.now ≡ spelled.up_to gap.now text.now }
{
    for place in 0..text.len() {
        if text[place..].starts_with(gap) {
            return &text[..place];
        }
    }
    text
}
