//! What lines of digits spell, line after line.
ghost use Rattle.std.specs.Prelude.{◌≡◌, ◌∷◌, [], None, Some, IfOk};
ghost use Rattle.std.specs.Option.{option_map};
ghost use Rattle.cfdp_dump.specs.Dump.Rows as spelled;
ghost use Rattle.cfdp_dump.specs.Dump.Stepping.{row_text, step_text};

use crate::dump::rows::{Row, row_at};
use crate::dump::{parse_digits, parse_hex};
use cfdp_report::without_return;
use std::alloc::{AllocError, Global};

/// What a line spells that is no row of a unit which goes on.
#[derive(Drop)]
pub(crate) enum Piece<'a> {
    /// The octets of a unit.
    Octets(Vec<u8>),
    /// What isn't pairs of digits, after so many octets of the line.
    Bad { before: u8, digits: &'a [u8] },
}

/// What is whole with a line, and what is begun.
#[derive(Drop)]
pub(crate) struct Step<'a> {
    /// The octets of a unit of several lines that has ended before the line or with it.
    pub ended: Option<Vec<u8>>,
    /// What the line itself is, if it is no row.
    pub piece: Option<Piece<'a>>,
    /// The octets so far of a unit that goes on, if one does.
    pub begun: Option<Vec<u8>>,
}

impl<'a> Step<'a> {
    /// Returns this piece, and nothing else.
    fn whole(piece: Piece<'a>) -> Step<'a>
        ensures { result ≡ record { ended = None; piece = Some piece.entry; begun = None } }
    {
        Step {
            ended: None,
            piece: Some(piece),
            begun: None,
        }
    }
}

/// Returns what a line is, if these octets of a unit are begun, or none is: digits alone, or as
/// tools write it.
pub(crate) fn take_line<'a>(
    alloc: Global,
    by_tools: bool,
    begun: Option<Vec<u8>>,
    line: &'a [u8],
) -> Result<Step<'a>, AllocError>
    ensures { IfOk result (λ step. step_text step
        ≡ spelled.step by_tools (option_map (λ v. v.items) begun) line.now) }
{
    if by_tools {
        take_row(alloc, begun, without_return(line))
    } else {
        bare_line(alloc, line)
    }
}

/// Returns what a line of digits alone is.
fn bare_line<'a>(alloc: Global, line: &'a [u8]) -> Result<Step<'a>, AllocError>
    ensures { IfOk result (λ step. step_text step ≡ spelled.bare_line line.now) }
{
    let piece = match parse_digits(alloc, line)? {
        Some(octets) => Piece::Octets(octets),
        None => Piece::Bad {
            before: 0,
            digits: line,
        },
    };
    Ok(Step::whole(piece))
}

/// Returns what a line is as tools write it, if these octets of a unit are begun, or none is.
fn take_row<'a>(
    alloc: Global,
    begun: Option<Vec<u8>>,
    line: &'a [u8],
) -> Result<Step<'a>, AllocError>
    ensures { IfOk result (λ step. step_text step
        ≡ spelled.row_or_alone (option_map (λ v. v.items) begun) line.now) }
{
    let Some(octets) = begun else {
        return alone(alloc, line);
    };
    match row_at(alloc, octets.len(), line)? {
        Some(row) => goes_on(alloc, octets, row),
        None => after(alloc, octets, line),
    }
}

/// Returns what a line is after the end of a unit of these octets, for which an empty one stands.
fn after<'a>(alloc: Global, octets: Vec<u8>, line: &'a [u8]) -> Result<Step<'a>, AllocError>
    ensures { IfOk result (λ step. step_text step ≡ spelled.after octets.items line.now) }
{
    if line.is_empty() {
        return Ok(Step {
            ended: Some(octets),
            piece: None,
            begun: None,
        });
    }
    let step = alone(alloc, line)?;
    Ok(Step {
        ended: Some(octets),
        piece: step.piece,
        begun: step.begun,
    })
}

/// Returns what a line is if no unit is begun.
fn alone<'a>(alloc: Global, line: &'a [u8]) -> Result<Step<'a>, AllocError>
    ensures whole { IfOk result (λ step. step_text step ≡ spelled.alone line.now) }
    ensures none { IfOk result (λ step. step.ended ≡ None) }
{
    if let Some(octets) = parse_hex(alloc, line)? {
        return Ok(Step::whole(Piece::Octets(octets)));
    }
    match row_at(alloc, 0, line)? {
        Some(row) => begins(alloc, row),
        None => Ok(Step::whole(Piece::Bad {
            before: 0,
            digits: line,
        })),
    }
}

/// Returns a unit whose first row this is; or that its digits aren't pairs.
fn begins<'a>(alloc: Global, row: Row<'a>) -> Result<Step<'a>, AllocError>
    ensures whole { IfOk result (λ step. step_text step
        ≡ spelled.row_step [] [] (row_text row.entry)) }
    ensures none { IfOk result (λ step. step.ended ≡ None) }
{
    match parse_hex(alloc, row.digits)? {
        Some(octets) => Ok(Step {
            ended: None,
            piece: None,
            begun: Some(octets),
        }),
        None => Ok(Step::whole(Piece::Bad {
            before: row.before,
            digits: row.digits,
        })),
    }
}

/// Returns a unit of these octets and of this row, which goes on with it; or that it ends, if the
/// digits of the row aren't pairs.
fn goes_on<'a>(alloc: Global, octets: Vec<u8>, row: Row<'a>) -> Result<Step<'a>, AllocError>
    ensures { IfOk result (λ step. step_text step
        ≡ spelled.row_step (spelled.Octets octets.items ∷ []) octets.items (row_text row.entry)) }
{
    let Some(more) = parse_hex(alloc, row.digits)? else {
        return Ok(Step {
            ended: Some(octets),
            piece: Some(Piece::Bad {
                before: row.before,
                digits: row.digits,
            }),
            begun: None,
        });
    };
    let mut octets = octets;
    octets.extend_from_slice(more.as_slice())?;
    Ok(Step {
        ended: None,
        piece: None,
        begun: Some(octets),
    })
}
