// What was indicated, exchanged between two entities.
ghost use Rattle.std.specs.Prelude.{◌≡◌};
ghost use Rattle.cfdp_entity.specs.Exchanging.{told_by};

use crate::entity::Entity;
use cfdp_store::{Inbox, Outbox};

impl<O: Outbox, I: Inbox> Entity<O, I> {
    /// Exchanges what both entities indicated, with how many of these indications were discarded.
    ///
    /// Call it on an entity on which the records of a killed one were restored, with the killed
    /// one: then what the entity indicates follows what was indicated before the kill.
    pub fn exchange_indications(&mut self, other: &mut Self)
        ensures own { self.new ≡ record self.old {
          state = told_by other.old.state self.old.state;
        } }
        ensures other { other.new ≡ record other.old {
          state = told_by self.old.state other.old.state;
        } }
    {
        self.table.exchange_told(&mut other.table);
    }
}
