//! Files that are removed from a station's outbox in memory.
ghost use Rattle.std.specs.Prelude.{◌≡◌, IfErr, OnOk, OnErr};
ghost use Rattle.cfdp_entity.specs.RemovingSources.{RefusesToRemove, RemovesItsSource};
ghost use Rattle.cfdp_station.specs.Station.{KeepsLink};

use crate::station::Station;
use cfdp_entity::RemoveError;
use cfdp_store::{Inbox, MemoryOutbox};

impl<I: Inbox> Station<MemoryOutbox, I> {
    /// Removes a file that no transaction is sending from the outbox, and gives its memory back. It
    /// takes no memory. A transaction sends its file until it is cancelled or closed.
    ///
    /// # Errors
    ///
    /// `NoSuchFile` if the outbox has no file of that name; `InUse` if a transaction is sending it.
    /// Nothing changed then.
    pub fn remove_source(&mut self, name: &[u8]) -> Result<(), RemoveError>
        ensures removed { OnOk result (RemovesItsSource name.now self.old.entity.state
            self.new.entity.state) }
        ensures refused { IfErr result (RefusesToRemove name.now self.old.entity.state.table) }
        ensures err { OnErr result (self.new ≡ self.old) }
        ensures inbox { self.new.entity.inbox_failures ≡ self.old.entity.inbox_failures }
        ensures outbox { self.new.entity.outbox_failures ≡ self.old.entity.outbox_failures }
        ensures link { KeepsLink self.old self.new }
    {
        self.entity.remove_source(name)
    }
}
