// The transactions of a table one by one.
ghost use Rattle.std.specs.Prelude.{◌≡◌, Some, length, map, IfSome};
ghost use Rattle.std.specs.Iterator.{at_most, item_count, UpTo, YieldsFirst};
ghost use Rattle.std.specs.Iterator.SizeHint.{IsWithinCount};
ghost use Rattle.cfdp_entity.specs.Walking.{record_told};

use crate::record::Record;
use cfdp_directives::Phase;
use cfdp_header::TransactionId;
use indexmap::map::Iter;
use std::marker::Model;

/// The transactions of an entity one by one, in order of opening, each with how far it has come.
/// Contracts see it as the list of those that are left.
#[derive(Drop)]
pub struct Transactions<'a> {
    rest: Iter<'a, TransactionId, Record>,
}

impl<'a> Model for Transactions<'a> {
    ghost use Rattle.std.specs.Prelude.{List, map};
    ghost use Rattle.cfdp_header.specs.declared.value.TransactionId.{TransactionId};
    ghost use Rattle.cfdp_directives.specs.declared.user.phase.Phase.{Phase};
    ghost use Rattle.cfdp_entity.specs.Walking.{record_told};

    ghost Value = { List (TransactionId × Phase) };

    ghost view = { λ t. map record_told t.rest };
}

impl<'a> Transactions<'a> {
    /// Returns the transactions of these records, one by one.
    pub(crate) fn over(records: Iter<'a, TransactionId, Record>) -> Self
        ensures { result ≡ map record_told records.entry }
    {
        Transactions { rest: records }
    }
}

impl<'a> Iterator for Transactions<'a> {
    type Item = (TransactionId, Phase);

    ghost next_gives = { YieldsFirst (λ i. i) };

    ghost remaining = { item_count (λ i. i) };

    fn next(&mut self) -> Option<(TransactionId, Phase)> {
        let (id, record) = self.rest.next()?;
        Some((*id, record.phase()))
    }

    fn size_hint(&self) -> (usize, Option<usize>)
        ensures lower { IsWithinCount result.0 (at_most (length self.now)) }
        ensures upper { IfSome result.1 (UpTo (at_most (length self.now))) }
        ensures exact { (result.0 ≡ length self.now) × (result.1 ≡ Some result.0) }
    {
        let left = self.rest.len();
        (left, Some(left))
    }
}
