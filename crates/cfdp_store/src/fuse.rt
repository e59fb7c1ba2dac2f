ghost use Rattle.std.specs.Prelude.{◌≡◌, ◌-◌, ◌<◌, IsOk};
ghost use Rattle.cfdp_store.specs.Calls.{OutboxRefuses, InboxRefuses};
ghost use Rattle.cfdp_store.specs.Fuse.{Passes, all_failures, blown, burnt};

use crate::{Inbox, Outbox, ResumingInbox, SeekingOutbox, SteadyOutbox, StoreError};
use cfdp_header::TransactionId;

/// How many more calls go through to a store, and how many were refused since.
#[derive(Debug, Drop)]
pub struct Fuse {
    left: u64,
    refused: u64,
}

impl Fuse {
    /// Returns a fuse that blows at the given call, counted from 1. If it is 0, the fuse blows at
    /// the first call, too.
    fn new(call: u64) -> Self
        ensures { result ≡ record { left = call - 1; refused = 0 } }
    {
        Fuse {
            left: call.saturating_sub(1),
            refused: 0,
        }
    }

    /// Lets a call through, or refuses it if none is left.
    fn pass(&mut self) -> Result<(), StoreError>
        ensures through { 0 < self.old.left → IsOk result × (self.new ≡ burnt self.old) }
        ensures refused { self.old.left ≡ 0
            → (result ≡ Err StoreError.Device) × (self.new ≡ blown self.old) }
    {
        if self.left == 0 {
            self.refused = self.refused.saturating_add(1);
            return Err(StoreError::Device);
        }
        self.left -= 1;
        Ok(())
    }
}

/// An outbox that fails from a chosen call on, for tests of what comes after a failure.
///
/// A call before the chosen one is one call of the store inside, with the same arguments, and gives
/// the store's own answer. The chosen call and all later ones answer `Device`, and the store inside
/// isn't called.
#[derive(Debug, Drop)]
pub struct FuseOutbox<O> {
    store: O,
    fuse: Fuse,
}

impl<O: Outbox> FuseOutbox<O> {
    /// Returns an outbox over `store`. Its call number `call`, counted from 1, and all later ones
    /// fail. `failures` isn't counted as a call. If `call` is 0, all calls fail, as at 1.
    pub fn new(store: O, call: u64) -> Self
        ensures { result ≡ record {
          store = store;
          fuse =
              record { left = call - 1; refused = 0 };
        } }
    {
        FuseOutbox {
            store,
            fuse: Fuse::new(call),
        }
    }

    /// Returns the store inside the fuse.
    pub fn inner(&self) -> &O
        ensures { result.now ≡ self.now.store }
    {
        &self.store
    }

    /// Returns the store inside the fuse; the fuse itself is dropped.
    pub fn into_inner(self) -> O
        ensures { result ≡ self.store }
    {
        self.store
    }
}

impl<O: Outbox> Outbox for FuseOutbox<O> {
    ghost files = { λ f. O.files f.store };

    ghost stands = { λ f. O.stands f.store };

    ghost failures = { λ f. all_failures (O.failures f.store) f.fuse };

    ghost steps = { λ f call g. Passes O.steps OutboxRefuses f.store f.fuse call g.store g.fuse };

    fn len(&mut self, name: &[u8]) -> Result<Option<u64>, StoreError> {
        self.fuse.pass()?;
        self.store.len(name)
    }

    fn read(&mut self, name: &[u8], offset: u64, out: &mut [u8]) -> Result<(), StoreError> {
        self.fuse.pass()?;
        self.store.read(name, offset, out)
    }

    fn failures(&self) -> u64 {
        self.store.failures().saturating_add(self.fuse.refused)
    }
}

impl<O: SteadyOutbox> SteadyOutbox for FuseOutbox<O> {
    ghost steady = { λ f. O.steady f.store };
}

impl<O: SeekingOutbox> SeekingOutbox for FuseOutbox<O> {
    fn look_for(&mut self, name: &[u8]) -> Result<bool, StoreError> {
        self.fuse.pass()?;
        self.store.look_for(name)
    }
}

/// An inbox that fails from a chosen call on, for tests of what comes after a failure.
///
/// A call before the chosen one is one call of the store inside, with the same arguments, and gives
/// the store's own answer. The chosen call and all later ones answer `Device`, and the store inside
/// isn't called.
#[derive(Debug, Drop)]
pub struct FuseInbox<I> {
    store: I,
    fuse: Fuse,
}

impl<I: Inbox> FuseInbox<I> {
    /// Returns an inbox over `store`. Its call number `call`, counted from 1, and all later ones
    /// fail. `failures` isn't counted as a call. If `call` is 0, all calls fail, as at 1.
    pub fn new(store: I, call: u64) -> Self
        ensures { result ≡ record {
          store = store;
          fuse =
              record { left = call - 1; refused = 0 };
        } }
    {
        FuseInbox {
            store,
            fuse: Fuse::new(call),
        }
    }

    /// Returns the store inside the fuse.
    pub fn inner(&self) -> &I
        ensures { result.now ≡ self.now.store }
    {
        &self.store
    }

    /// Returns the store inside the fuse; the fuse itself is dropped.
    pub fn into_inner(self) -> I
        ensures { result ≡ self.store }
    {
        self.store
    }
}

impl<I: Inbox> Inbox for FuseInbox<I> {
    ghost published = { λ f. I.published f.store };

    ghost staged = { λ f. I.staged f.store };

    ghost failures = { λ f. all_failures (I.failures f.store) f.fuse };

    ghost steps = { λ f call g. Passes I.steps InboxRefuses f.store f.fuse call g.store g.fuse };

    fn begin(&mut self, id: TransactionId) -> Result<(), StoreError> {
        self.fuse.pass()?;
        self.store.begin(id)
    }

    fn write(&mut self, id: TransactionId, offset: u64, octets: &[u8]) -> Result<(), StoreError> {
        self.fuse.pass()?;
        self.store.write(id, offset, octets)
    }

    fn publish(&mut self, id: TransactionId, name: &[u8], size: u64) -> Result<(), StoreError> {
        self.fuse.pass()?;
        self.store.publish(id, name, size)
    }

    fn discard(&mut self, id: TransactionId) -> Result<(), StoreError> {
        self.fuse.pass()?;
        self.store.discard(id)
    }

    fn failures(&self) -> u64 {
        self.store.failures().saturating_add(self.fuse.refused)
    }
}

impl<I: ResumingInbox> ResumingInbox for FuseInbox<I> {
    fn adopt(&mut self, id: TransactionId, end: u64) -> Result<bool, StoreError> {
        self.fuse.pass()?;
        self.store.adopt(id, end)
    }

    fn read(&mut self, id: TransactionId, offset: u64, out: &mut [u8]) -> Result<bool, StoreError> {
        self.fuse.pass()?;
        self.store.read(id, offset, out)
    }
}
