// Steps on ranges. The greatest stands beside the map of the others, so that a range put in at the
// end, as most are, changes that one alone.
ghost use Rattle.std.specs.Prelude.{◌≡◌, ◌<◌, ◌≤◌, ℕ, [], None, Some, IsOk, OnOk, OnErr, drop, set};
ghost use Rattle.cfdp_extents.specs.Offsets.{AreApart};
ghost use Rattle.cfdp_extents.specs.Ranges.{turned, with_last, first_from, first_behind};
ghost use Rattle.cfdp_extents.specs.Ranges.{with_range, Untouched};
ghost use Rattle.cfdp_extents.specs.Count.{gaps_among};

use crate::search::{lowest, put, range_behind, range_from, remove_within};
use std::alloc::AllocError;
use std::collections::BTreeMap;

/// Returns the first range that ends at an offset or after it: its start and its end.
pub(crate) fn first_at(
    ranges: &BTreeMap<u64, u64>,
    last: Option<(u64, u64)>,
    offset: u64,
) -> Option<(u64, u64)>
    requires { AreApart (with_last (turned ranges.now.entries) last) }
    ensures { result ≡ first_from offset (with_last (turned ranges.now.entries) last) }
{
    match last {
        Some(range) if range.0 <= offset => { if offset <= range.1 { Some(range) } else { None } }
        // Mostly the set has one range at most, and then this is the faster answer.
        _ if ranges.is_empty() => last,
        _ => match range_from(ranges, offset) {
            Some(range) => Some(range),
            None => last,
        },
    }
}

/// Returns the first range that ends after an offset: its start and its end.
pub(crate) fn first_past(
    ranges: &BTreeMap<u64, u64>,
    last: Option<(u64, u64)>,
    offset: u64,
) -> Option<(u64, u64)>
    requires { AreApart (with_last (turned ranges.now.entries) last) }
    ensures { result ≡ first_behind offset (with_last (turned ranges.now.entries) last) }
{
    match last {
        Some(range) if range.0 <= offset => { if offset < range.1 { Some(range) } else { None } }
        _ => match range_behind(ranges, offset) {
            Some(range) => Some(range),
            None => last,
        },
    }
}

/// Returns the number of gaps before ranges and between them.
pub(crate) fn count_gaps(ranges: &BTreeMap<u64, u64>, last: Option<(u64, u64)>) -> usize
    requires apart { AreApart (with_last (turned ranges.now.entries) last) }
    requires none { last ≡ None → ranges.now.entries ≡ [] }
    ensures { result ≡ gaps_among (with_last (turned ranges.now.entries) last) }
{
    // The greatest one is in no map, so the map's length is that of all others.
    match first_at(ranges, last, 0) {
        Some((start, _)) => {
            if start == 0 {
                ranges.len()
            } else {
                ranges.len() + 1
            }
        }
        None => 0,
    }
}

/// Joins a range in that ends before the greatest one.
fn join_between(ranges: &mut BTreeMap<u64, u64>, start: u64, end: u64) -> Result<(), AllocError>
    requires { AreApart (turned ranges.old.entries) }
    ensures ok { OnOk result (turned ranges.new.entries
        ≡ with_range start end (turned ranges.old.entries)) }
    ensures err { OnErr result (ranges.new.entries ≡ ranges.old.entries) }
    ensures touched { OnErr result (Untouched end (first_from end (turned ranges.old.entries))) }
{
    let low = lowest(ranges, start);
    put(ranges, low, end)?;
    remove_within(ranges, start, end);
    Ok(())
}

/// Joins a range in. It takes memory only if there is one more range then.
pub(crate) fn join(
    ranges: &mut BTreeMap<u64, u64>,
    last: &mut Option<(u64, u64)>,
    start: u64,
    end: u64,
) -> Result<(), AllocError>
    requires some { start < end }
    requires apart { AreApart (with_last (turned ranges.old.entries) last.old) }
    requires none { last.old ≡ None → ranges.old.entries ≡ [] }
    ensures ok { OnOk result (with_last (turned ranges.new.entries) last.new
        ≡ with_range start end (with_last (turned ranges.old.entries) last.old)) }
    ensures err { OnErr result (ranges.new.entries ≡ ranges.old.entries) }
    ensures err_last { OnErr result (last.new ≡ last.old) }
    // It fails only if no range touches the end.
    ensures touched { OnErr result
        (Untouched end (first_from end (with_last (turned ranges.old.entries) last.old))) }
    // What follows the greatest range takes no memory.
    ensures next { (low : ℕ) → last.old ≡ Some (low, start) → low ≤ start → IsOk result }
    ensures none { last.new ≡ None → ranges.new.entries ≡ [] }
{
    let Some((low, high)) = *last else {
        *last = Some((start, end));
        return Ok(());
    };
    if high < start {
        ranges.insert(high, low)?;
        *last = Some((start, end));
        return Ok(());
    }
    if end < low {
        return join_between(ranges, start, end);
    }
    if low <= start {
        *last = Some((low, high.max(end)));
        return Ok(());
    }
    let from = lowest(ranges, start);
    remove_within(ranges, start, end);
    *last = Some((from, high.max(end)));
    Ok(())
}

/// Removes the first range.
pub(crate) fn drop_first(
    ranges: &mut BTreeMap<u64, u64>,
    last: &mut Option<(u64, u64)>,
    first: (u64, u64),
)
    requires first { first_from 0 (with_last (turned ranges.old.entries) last.old) ≡ Some first }
    requires none { last.old ≡ None → ranges.old.entries ≡ [] }
    ensures rest { with_last (turned ranges.new.entries) last.new
        ≡ drop 1 (with_last (turned ranges.old.entries) last.old) }
    ensures none { last.new ≡ None → ranges.new.entries ≡ [] }
{
    if ranges.is_empty() {
        *last = None;
    } else {
        ranges.remove(&first.1);
    }
}

/// Moves the start of the first range to another offset. It takes no memory.
pub(crate) fn cut_first(
    ranges: &mut BTreeMap<u64, u64>,
    last: &mut Option<(u64, u64)>,
    first: (u64, u64),
    start: u64,
)
    requires first { first_from 0 (with_last (turned ranges.old.entries) last.old) ≡ Some first }
    requires none { last.old ≡ None → ranges.old.entries ≡ [] }
    ensures cut { with_last (turned ranges.new.entries) last.new
        ≡ set (with_last (turned ranges.old.entries) last.old) 0 (start, first.1) }
    ensures none { last.new ≡ None → ranges.new.entries ≡ [] }
{
    if ranges.is_empty() {
        *last = Some((start, first.1));
    } else {
        // The key is there, so this takes no memory.
        let _ = ranges.insert(first.1, start);
    }
}
