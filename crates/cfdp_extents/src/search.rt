// Steps on a map from each range's end to its start.
ghost use Rattle.std.specs.Prelude.{◌≡◌, OnOk, OnErr};
ghost use Rattle.cfdp_extents.specs.Offsets.{AreApart};
ghost use Rattle.cfdp_extents.specs.Ranges.{turned, first_from, first_behind, low_of, key_at};
ghost use Rattle.cfdp_extents.specs.Ranges.{put_in, outside, Untouched};

use std::alloc::AllocError;
use std::collections::BTreeMap;
use std::ops::Bound;

/// Returns the first range that ends at an offset or after it: its start and its end.
pub(crate) fn range_from(ranges: &BTreeMap<u64, u64>, offset: u64) -> Option<(u64, u64)>
    ensures { result ≡ first_from offset (turned ranges.now.entries) }
{
    match ranges.range(offset..).next() {
        Some((end, start)) => Some((*start, *end)),
        None => None,
    }
}

/// Returns the first range that ends after an offset: its start and its end.
pub(crate) fn range_behind(ranges: &BTreeMap<u64, u64>, offset: u64) -> Option<(u64, u64)>
    ensures { result ≡ first_behind offset (turned ranges.now.entries) }
{
    match ranges
        .range((Bound::Excluded(offset), Bound::Unbounded))
        .next()
    {
        Some((end, start)) => Some((*start, *end)),
        None => None,
    }
}

/// Returns where a range starts that is joined with the first one that ends at its start or after
/// it.
pub(crate) fn lowest(ranges: &BTreeMap<u64, u64>, start: u64) -> u64
    ensures { result ≡ low_of start (turned ranges.now.entries) }
{
    match range_from(ranges, start) {
        Some(range) => start.min(range.0),
        None => start,
    }
}

/// Returns the end of the range that `end` touches, if that isn't before it, otherwise `end`.
fn touched_end(ranges: &BTreeMap<u64, u64>, end: u64) -> u64
    ensures { result ≡ key_at end (first_from end (turned ranges.now.entries)) }
{
    match range_from(ranges, end) {
        Some(range) if range.0 <= end => range.1,
        _ => end,
    }
}

/// Moves the start of the range that `end` touches to `low`, or puts in the range from `low` to
/// `end`. Only the latter takes memory.
pub(crate) fn put(ranges: &mut BTreeMap<u64, u64>, low: u64, end: u64) -> Result<(), AllocError>
    requires { AreApart (turned ranges.old.entries) }
    ensures ok { OnOk result (turned ranges.new.entries
        ≡ put_in low end (turned ranges.old.entries)) }
    ensures err { OnErr result (ranges.new.entries ≡ ranges.old.entries) }
    // It fails only if no range touches the end.
    ensures touched { OnErr result (Untouched end (first_from end (turned ranges.old.entries))) }
{
    ranges.insert(touched_end(ranges, end), low)?;
    Ok(())
}

/// Removes the ranges that end at `start` or after it, and before `end`.
pub(crate) fn remove_within(ranges: &mut BTreeMap<u64, u64>, start: u64, end: u64)
    ensures { turned ranges.new.entries ≡ outside start end (turned ranges.old.entries) }
{
    while let Some(range) = range_from(ranges, start) {
        if range.1 >= end {
            return;
        }
        ranges.remove(&range.1);
    }
}
