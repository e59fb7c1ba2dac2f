// The deadlines of each transaction; beside them, by index, the earliest except Inactivity's, and,
// by block, the bounds.
ghost use Rattle.std.specs.Prelude.{◌≡◌, ◌*◌, ◌/◌, ◌<◌, ◌≤◌, ◌++◌, [], ◌∷◌, true, None, IsSome};
ghost use Rattle.std.specs.Prelude.{OnOk, OnErr, cond, length, get_or, slice_set};
ghost use Rattle.std.specs.List.{IsDistinct};
ghost use Rattle.std.specs.Map.{keys_of, lookup};
ghost use Rattle.std.specs.FinSet as set;
ghost use Rattle.std.specs.Ordering.{eq_by_cmp};
ghost use Rattle.indexmap.specs.IndexMap.{get, spare, set_value_at};
ghost use Rattle.cfdp_header.specs.Ids.{id_cmp, same_id};
ghost use Rattle.cfdp_timers.specs.declared.kind.Kind.TheVariants.{Inactivity};
ghost use Rattle.cfdp_timers.specs.Armed.{with_timer};
ghost use Rattle.cfdp_timers.specs.Entries.{AreBounds, no_deadlines, deadlines_in, with_deadline};
ghost use Rattle.cfdp_timers.specs.Entries.{other_of, others_of, roomy_of, armed_of};

use crate::Kind;
use crate::blocks::{BLOCK, Blocks};
use crate::bounds::Bounds;
use crate::deadlines::Deadlines;
use crate::walk::earliest_at;
use cfdp_header::TransactionId;
use indexmap::IndexMap;
use std::alloc::AllocError;

/// Adds a transaction, with no timer armed.
pub(crate) fn add(
    entries: &mut IndexMap<TransactionId, Deadlines>,
    others: &mut Blocks,
    bounds: &mut Bounds,
    id: TransactionId,
) -> Result<(), AllocError>
    requires absent { get same_id entries.old id ≡ None }
    requires others { others.old ≡ others_of entries.old.entries }
    requires bounds { AreBounds entries.old.entries bounds.old }
    ensures added { OnOk result (entries.new.entries
        ≡ entries.old.entries ++ (id, no_deadlines) ∷ []) }
    ensures err { OnErr result (entries.new.entries ≡ entries.old.entries) }
    ensures distinct { IsDistinct (eq_by_cmp id_cmp) (keys_of entries.new.entries) }
    ensures others { others.new ≡ others_of entries.new.entries }
    ensures bounds { AreBounds entries.new.entries bounds.new }
{
    entries.reserve(1)?;
    cover(entries, bounds)?;
    others.push()?;
    insert(entries, id);
    Ok(())
}

// Adds a block if all are full.
fn cover(
    entries: &IndexMap<TransactionId, Deadlines>,
    bounds: &mut Bounds,
) -> Result<(), AllocError>
    requires bounds { AreBounds entries.now.entries bounds.old }
    ensures bounds { AreBounds entries.now.entries bounds.new }
    ensures room { OnOk result (length entries.now.entries < 64 * length bounds.new) }
{
    if entries.len() / BLOCK >= bounds.len() {
        bounds.push()?;
    }
    Ok(())
}

// There is room for it.
fn insert(entries: &mut IndexMap<TransactionId, Deadlines>, id: TransactionId)
    requires absent { get same_id entries.old id ≡ None }
    requires room { 0 < spare entries.old }
    ensures added { entries.new.entries ≡ entries.old.entries ++ (id, no_deadlines) ∷ [] }
    ensures distinct { IsDistinct (eq_by_cmp id_cmp) (keys_of entries.new.entries) }
{
    let _ = entries.insert(id, Deadlines::NONE);
}

/// Arms or clears a timer of a transaction, if it has an entry.
pub(crate) fn set_deadline(
    entries: &mut IndexMap<TransactionId, Deadlines>,
    others: &mut Blocks,
    bounds: &mut Bounds,
    id: TransactionId,
    kind: Kind,
    deadline: Option<u64>,
)
    requires distinct { IsDistinct (eq_by_cmp id_cmp) (keys_of entries.old.entries) }
    requires others { others.old ≡ others_of entries.old.entries }
    requires bounds { AreBounds entries.old.entries bounds.old }
    requires room { IsSome deadline → set.contains (roomy_of entries.old.entries) id ≡ true }
    ensures keys { keys_of entries.new.entries ≡ keys_of entries.old.entries }
    ensures armed { armed_of entries.new.entries
        ≡ with_timer (armed_of entries.old.entries) (id, kind) deadline }
    ensures others { others.new ≡ others_of entries.new.entries }
    ensures bounds { AreBounds entries.new.entries bounds.new }
{
    let Some(place) = entries.get_index_of(&id) else {
        return;
    };
    let deadlines = write(entries, place, kind, deadline);
    set_other(others, place, kind, &deadlines);
    bounds.lower(place / BLOCK, deadline);
}

// Sets one deadline of the entry at an index. Returns all that it has then.
fn write(
    entries: &mut IndexMap<TransactionId, Deadlines>,
    place: usize,
    kind: Kind,
    deadline: Option<u64>,
) -> Deadlines
    requires within { place < length entries.old.entries }
    ensures entries { entries.new.entries ≡ set_value_at entries.old.entries place
        (with_deadline (deadlines_in entries.old.entries place) kind deadline) }
    ensures deadlines { result
        ≡ with_deadline (deadlines_in entries.old.entries place) kind deadline }
{
    match entries.get_index_mut(place) {
        Some(deadlines) => {
            deadlines.set(kind, deadline);
            *deadlines
        }
        None => Deadlines::NONE,
    }
}

// Sets a deadline if it isn't Inactivity's: Inactivity's changes nothing here, so the others
// aren't looked at.
fn set_other(others: &mut Blocks, place: usize, kind: Kind, deadlines: &Deadlines)
    requires within { place < length others.old }
    requires same { kind ≡ Inactivity → get_or others.old place None ≡ other_of deadlines.now }
    ensures { others.new ≡ slice_set others.old place (other_of deadlines.now) }
{
    match kind {
        Kind::EofAck | Kind::Nak | Kind::FinishedAck => others.set(place, deadlines.other()),
        Kind::Inactivity => {}
    }
}

/// Removes a transaction, if it has an entry. The last one takes its index.
pub(crate) fn take_out(
    entries: &mut IndexMap<TransactionId, Deadlines>,
    others: &mut Blocks,
    bounds: &mut Bounds,
    id: TransactionId,
)
    requires distinct { IsDistinct (eq_by_cmp id_cmp) (keys_of entries.old.entries) }
    requires others { others.old ≡ others_of entries.old.entries }
    requires bounds { AreBounds entries.old.entries bounds.old }
    ensures found { (q : TransactionId) → lookup (eq_by_cmp id_cmp q) entries.new.entries
        ≡ cond (eq_by_cmp id_cmp q id) None (lookup (eq_by_cmp id_cmp q) entries.old.entries) }
    ensures distinct { IsDistinct (eq_by_cmp id_cmp) (keys_of entries.new.entries) }
    ensures few { length entries.new.entries ≤ length entries.old.entries }
    ensures others { others.new ≡ others_of entries.new.entries }
    ensures bounds { AreBounds entries.new.entries bounds.new }
{
    let Some(place) = entries.get_index_of(&id) else {
        return;
    };
    let moved = earliest_at(entries, entries.len() - 1);
    let _ = entries.swap_remove_index(place);
    others.swap_remove(place);
    bounds.lower(place / BLOCK, moved);
}
