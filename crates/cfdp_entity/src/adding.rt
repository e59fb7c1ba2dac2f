// Files that an outbox is given, or looks for, while an entity is at work.
ghost use Rattle.std.specs.FinMap as map;
ghost use Rattle.std.specs.Prelude.{◌≡◌, is_ok, is_some, IfErr, IfOk, OnOk, OnErr};
ghost use Rattle.cfdp_store.specs.Stores.{failures_after};
ghost use Rattle.cfdp_entity.specs.Adding.{AddsFile, RefusesToAdd};
ghost use Rattle.cfdp_entity.specs.Looking.{LooksUp};

use crate::entity::Entity;
use crate::error::AddError;
use cfdp_store::{Inbox, MemoryOutbox, SeekingOutbox, StoreError};

impl<I: Inbox> Entity<MemoryOutbox, I> {
    /// Adds a file to the outbox, under a name that it has no file of: so no file changes that is
    /// being sent. Its octets are copied, and stay until the file is removed.
    ///
    /// # Errors
    ///
    /// The first cause that holds, if one does, in the order of [`AddError`]; nothing changed then.
    pub fn add_source(&mut self, name: &[u8], octets: &[u8]) -> Result<(), AddError>
        ensures added { OnOk result (AddsFile name.now octets.now self.old.state self.new.state) }
        ensures refused { IfErr result (RefusesToAdd name.now self.old.state.table.sources) }
        ensures err { OnErr result (self.new ≡ self.old) }
        ensures inbox { self.new.inbox_failures ≡ self.old.inbox_failures }
        ensures outbox { self.new.outbox_failures ≡ self.old.outbox_failures }
    {
        self.table.add_source(name, octets)
    }
}

impl<O: SeekingOutbox, I: Inbox> Entity<O, I> {
    /// Looks for the file of a name, so that a put can send it as it is now. Returns `true` if
    /// there is one. If the file of that name is being sent already, it isn't looked for: a put
    /// sends what is sent then.
    ///
    /// # Errors
    ///
    /// The error of the outbox, if it fails, which is counted. Nothing else changed then.
    pub fn look_for(&mut self, name: &[u8]) -> Result<bool, StoreError>
        ensures has { IfOk result (λ has. has
            ≡ is_some (map.get self.new.state.table.sources name.now)) }
        ensures looks { OnOk result (LooksUp name.now self.old.state self.new.state) }
        ensures err { OnErr result (self.new.state ≡ self.old.state) }
        ensures inbox { self.new.inbox_failures ≡ self.old.inbox_failures }
        ensures outbox { self.new.outbox_failures
            ≡ failures_after self.old.outbox_failures (is_ok result) }
    {
        self.table.look_for(name)
    }
}
