// Files that are removed from an outbox in memory while an entity is at work.
ghost use Rattle.std.specs.Prelude.{◌≡◌, IfErr, OnOk, OnErr};
ghost use Rattle.cfdp_entity.specs.RemovingSources.{RefusesToRemove, RemovesItsSource};

use crate::entity::Entity;
use crate::error::RemoveError;
use cfdp_store::{Inbox, MemoryOutbox};

impl<I: Inbox> Entity<MemoryOutbox, I> {
    /// Removes a file that no transaction is sending from the outbox, and gives its memory back. It
    /// takes no memory. A transaction sends its file until it is cancelled or closed.
    ///
    /// # Errors
    ///
    /// `NoSuchFile` if the outbox has no file of that name; `InUse` if a transaction is sending it.
    /// Nothing changed then.
    pub fn remove_source(&mut self, name: &[u8]) -> Result<(), RemoveError>
        ensures removed { OnOk result (RemovesItsSource name.now self.old.state self.new.state) }
        ensures refused { IfErr result (RefusesToRemove name.now self.old.state.table) }
        ensures err { OnErr result (self.new ≡ self.old) }
        ensures inbox { self.new.inbox_failures ≡ self.old.inbox_failures }
        ensures outbox { self.new.outbox_failures ≡ self.old.outbox_failures }
    {
        self.table.remove_source(name)
    }
}
