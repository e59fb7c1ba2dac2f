// Transactions by their sources.
ghost use Rattle.std.specs.Prelude.{◌≡◌, ◌<◌, ◌++◌, [], ◌∷◌, true, None, nat_eq, length, OnOk};
ghost use Rattle.std.specs.Prelude.{OnErr, IsOk};
ghost use Rattle.std.specs.FinSet as set;
ghost use Rattle.indexmap.specs.IndexMap.{get, set_value_at, spare};
ghost use Rattle.cfdp_extents.specs.Offsets.{range};
ghost use Rattle.cfdp_extents.specs.Forgotten.{ids_in, ids_of, numbers_at};

use crate::numbers::Numbers;
use cfdp_header::TransactionId;
use indexmap::IndexMap;
use indexmap::map::Iter;
use std::alloc::{AllocError, Global};
use std::marker::Model;

/// A set of transactions: of each source the numbers, as ranges.
#[derive(Debug, Drop)]
pub struct Forgotten {
    alloc: Global,
    by_source: IndexMap<u64, Numbers>,
}

impl Model for Forgotten {
    ghost use Rattle.cfdp_extents.specs.Forgotten.{IdSet, ids_code, ids_of};

    ghost Value = { IdSet };

    ghost coded = { ids_code };

    ghost view = { λ f. ids_of f.by_source.entries };
}

impl Forgotten {
    /// Returns a set of no transactions.
    pub fn new(alloc: Global) -> Self
        ensures { result ≡ set.empty }
    {
        Forgotten {
            alloc,
            by_source: IndexMap::new(alloc),
        }
    }

    /// Returns `true` if a transaction is among them.
    pub fn contains(&self, id: TransactionId) -> bool
        ensures { result ≡ set.contains self.now id }
    {
        let Some(place) = self.by_source.get_index_of(&id.source) else {
            return false;
        };
        holds(&self.by_source, place, id.number)
    }

    /// Adds a transaction.
    ///
    /// # Errors
    ///
    /// If there is no memory for one more range of numbers. The set is then unchanged.
    pub fn insert(&mut self, id: TransactionId) -> Result<(), AllocError>
        ensures ok { OnOk result (self.new ≡ set.insert self.old id) }
        ensures err { OnErr result (self.new ≡ self.old) }
        // If a transaction is among them already, it takes no memory.
        ensures held { set.contains self.old id ≡ true → IsOk result }
    {
        match self.by_source.get_index_of(&id.source) {
            Some(place) => insert_at(&mut self.by_source, place, id.number),
            None => insert_first(&mut self.by_source, self.alloc, id),
        }
    }

    /// Adds the transactions of a source whose numbers are `start` or more, and less than `end`.
    ///
    /// # Errors
    ///
    /// `AllocError` if there is no memory for one more range of numbers. The set is then unchanged.
    pub fn insert_range(&mut self, source: u64, start: u64, end: u64) -> Result<(), AllocError>
        ensures ok { OnOk result (self.new ≡ set.union self.old (ids_in source start end)) }
        ensures err { OnErr result (self.new ≡ self.old) }
    {
        match self.by_source.get_index_of(&source) {
            Some(place) => insert_range_at(&mut self.by_source, place, start, end),
            None => insert_first_range(&mut self.by_source, self.alloc, source, start, end),
        }
    }

    /// Returns each source with its numbers, in the order in which the sources were added first.
    pub fn sources(&self) -> Iter<'_, u64, Numbers>
        ensures { ids_of result ≡ self.now }
    {
        self.by_source.iter()
    }
}

// Returns `true` if the source at an index has a number.
fn holds(by_source: &IndexMap<u64, Numbers>, place: usize, number: u64) -> bool
    requires within { place < length by_source.now.entries }
    ensures { result ≡ set.contains (numbers_at by_source.now.entries place) number }
{
    match by_source.get_index(place) {
        Some((_, numbers)) => numbers.contains(number),
        None => false,
    }
}

// Adds a number of the source at an index, which must be there.
fn insert_at(
    by_source: &mut IndexMap<u64, Numbers>,
    place: usize,
    number: u64,
) -> Result<(), AllocError>
    requires within { place < length by_source.old.entries }
    ensures ok { OnOk result (by_source.new.entries ≡ set_value_at by_source.old.entries place
        (set.insert (numbers_at by_source.old.entries place) number)) }
    ensures err { OnErr result (by_source.new.entries ≡ by_source.old.entries) }
    ensures held { set.contains (numbers_at by_source.old.entries place) number ≡ true
        → IsOk result }
{
    match by_source.get_index_mut(place) {
        Some(numbers) => numbers.insert(number),
        None => Ok(()),
    }
}

// Adds the first transaction of a source.
fn insert_first(
    by_source: &mut IndexMap<u64, Numbers>,
    alloc: Global,
    id: TransactionId,
) -> Result<(), AllocError>
    requires absent { get nat_eq by_source.old id.source ≡ None }
    ensures ok { OnOk result (by_source.new.entries ≡ by_source.old.entries
        ++ (id.source, set.insert set.empty id.number) ∷ []) }
    ensures err { OnErr result (by_source.new.entries ≡ by_source.old.entries) }
{
    by_source.reserve(1)?;
    let mut numbers = Numbers::new(alloc);
    numbers.insert(id.number)?;
    push(by_source, id.source, numbers);
    Ok(())
}

// Adds numbers of the source at an index.
fn insert_range_at(
    by_source: &mut IndexMap<u64, Numbers>,
    place: usize,
    start: u64,
    end: u64,
) -> Result<(), AllocError>
    requires within { place < length by_source.old.entries }
    ensures ok { OnOk result (by_source.new.entries ≡ set_value_at by_source.old.entries place
        (set.union (numbers_at by_source.old.entries place) (range start end))) }
    ensures err { OnErr result (by_source.new.entries ≡ by_source.old.entries) }
{
    match by_source.get_index_mut(place) {
        Some(numbers) => numbers.insert_range(start, end),
        None => Ok(()),
    }
}

// Adds the first transactions of a source.
fn insert_first_range(
    by_source: &mut IndexMap<u64, Numbers>,
    alloc: Global,
    source: u64,
    start: u64,
    end: u64,
) -> Result<(), AllocError>
    requires absent { get nat_eq by_source.old source ≡ None }
    ensures ok { OnOk result (by_source.new.entries ≡ by_source.old.entries
        ++ (source, set.union set.empty (range start end)) ∷ []) }
    ensures err { OnErr result (by_source.new.entries ≡ by_source.old.entries) }
{
    by_source.reserve(1)?;
    let mut numbers = Numbers::new(alloc);
    numbers.insert_range(start, end)?;
    push(by_source, source, numbers);
    Ok(())
}

// Adds a source after the others. There must be room for it.
fn push(by_source: &mut IndexMap<u64, Numbers>, source: u64, numbers: Numbers)
    requires absent { get nat_eq by_source.old source ≡ None }
    requires room { 0 < spare by_source.old }
    ensures { by_source.new.entries ≡ by_source.old.entries ++ (source, numbers) ∷ [] }
{
    let _ = by_source.insert(source, numbers);
}
