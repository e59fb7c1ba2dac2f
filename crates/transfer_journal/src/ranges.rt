//! Which offsets of a file are held and not noted.
ghost use Rattle.std.specs.Prelude.{◌≡◌, ◌++◌, not, IfOk, OnOk};
ghost use Rattle.std.specs.FinSet as set;
ghost use Rattle.cfdp_extents.specs.Offsets.{range, union_of};
ghost use Rattle.cfdp_extents.specs.Terms.{gaps_of};

use cfdp_extents::Extents;
use std::alloc::{AllocError, Global};

/// Returns `true` if offsets are held that aren't noted.
pub fn lacks_some(held: &Extents, noted: &Extents) -> bool
    ensures { result ≡ not (set.is_subset held.now noted.now) }
{
    for range in held.ranges() {
        if !is_noted(noted, range.0, range.1) {
            return true;
        }
    }
    false
}

// Returns `true` if all offsets of a range are noted.
#[tactic(auto, using(crate::proofs::Held::empty_noted))]
fn is_noted(noted: &Extents, start: u64, end: u64) -> bool
    ensures { result ≡ set.is_subset (range start end) noted.now }
{
    if end <= start {
        return true;
    }
    noted.covers(start, end)
}

/// Returns the ranges that are held and weren't noted, and notes them.
///
/// # Errors
///
/// `AllocError` if there is no memory for them.
pub fn new_ranges(
    alloc: Global,
    held: &Extents,
    noted: &mut Extents,
) -> Result<Vec<(u64, u64)>, AllocError>
    ensures ranges { IfOk result (λ ranges.
        union_of ranges.items ≡ set.difference held.now noted.old) }
    ensures noted { OnOk result (noted.new ≡ set.union noted.old held.now) }
{
    let mut ranges = Vec::new(alloc);
    for range in held.ranges() {
        push_missing(&mut ranges, noted, range.0, range.1)?;
    }
    add_all(noted, ranges.as_slice())?;
    Ok(ranges)
}

// Appends the parts of a range that aren't noted.
fn push_missing(
    ranges: &mut Vec<(u64, u64)>,
    noted: &Extents,
    start: u64,
    end: u64,
) -> Result<(), AllocError>
    ensures { OnOk result (ranges.new.items
        ≡ ranges.old.items ++ gaps_of noted.now start end) }
{
    for missing in noted.missing_in(start, end) {
        ranges.push(missing)?;
    }
    Ok(())
}

/// Adds ranges.
///
/// # Errors
///
/// `AllocError` if there is no memory for them.
pub fn add_all(held: &mut Extents, ranges: &[(u64, u64)]) -> Result<(), AllocError>
    ensures { OnOk result (held.new ≡ set.union held.old (union_of ranges.now)) }
{
    for range in ranges {
        add_one(held, range.0, range.1)?;
    }
    Ok(())
}

// Adds a range.
#[tactic(auto, using(crate::proofs::Held::union_nothing))]
fn add_one(held: &mut Extents, start: u64, end: u64) -> Result<(), AllocError>
    ensures { OnOk result (held.new ≡ set.union held.old (range start end)) }
{
    if start < end {
        held.insert(start, end)
    } else {
        Ok(())
    }
}
