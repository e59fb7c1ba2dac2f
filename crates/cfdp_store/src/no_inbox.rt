ghost use Rattle.std.specs.FinMap.{empty};
ghost use Rattle.std.specs.Prelude.{◌≡◌, Some, false};
ghost use Rattle.cfdp_store.specs.Calls.{InboxRefuses};
ghost use Rattle.cfdp_store.specs.Stores.{failures_after};

use crate::{Inbox, StoreError};
use cfdp_header::TransactionId;

/// An inbox that takes no file: each call of it answers `Device`. It is for a station that only
/// sends. Any call may be made at any time, as if each transaction were begun with nothing staged.
#[derive(Debug, Drop)]
pub struct NoInbox {
    refused: u64,
}

impl NoInbox {
    /// Returns an inbox that has refused nothing yet.
    pub fn new() -> Self
        ensures { result ≡ record { refused = 0 } }
    {
        NoInbox { refused: 0 }
    }

    fn refuse(&mut self) -> Result<(), StoreError>
        ensures result { result ≡ Err StoreError.Device }
        ensures refused { self.new.refused ≡ failures_after self.old.refused false }
    {
        self.refused = self.refused.saturating_add(1);
        Err(StoreError::Device)
    }
}

impl Inbox for NoInbox {
    ghost published = { λ _. empty };

    ghost staged = { λ _ _. Some empty };

    ghost failures = { λ n. n.refused };

    ghost steps = { λ _ call _. InboxRefuses call };

    fn begin(&mut self, _id: TransactionId) -> Result<(), StoreError> {
        self.refuse()
    }

    fn write(
        &mut self,
        _id: TransactionId,
        _offset: u64,
        _octets: &[u8],
    ) -> Result<(), StoreError> {
        self.refuse()
    }

    fn publish(&mut self, _id: TransactionId, _name: &[u8], _size: u64) -> Result<(), StoreError> {
        self.refuse()
    }

    fn discard(&mut self, _id: TransactionId) -> Result<(), StoreError> {
        self.refuse()
    }

    fn failures(&self) -> u64 {
        self.refused
    }
}
