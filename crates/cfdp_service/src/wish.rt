//! What a user wishes of its station, and how that is answered.
ghost use Rattle.std.specs.Prelude.{◌≡◌, ◌↔◌, IfOk, IsTrue};

use cfdp_header::TransactionId;
use cfdp_station::{PutError, Request, RequestError};
use std::alloc::{AllocError, Global};

/// A file that a station must send.
#[derive(Drop)]
pub struct PutNames {
    /// Its name in the outbox.
    pub source: Vec<u8>,
    /// The name under which the peer must publish it.
    pub destination: Vec<u8>,
}

impl PutNames {
    /// Returns the same file, in memory of its own.
    ///
    /// # Errors
    ///
    /// `AllocError` if there is none.
    pub fn copy(&self, alloc: Global) -> Result<PutNames, AllocError>
        ensures { IfOk result (λ copy. (copy.source.items ≡ self.now.source.items)
            × (copy.destination.items ≡ self.now.destination.items)) }
    {
        Ok(PutNames {
            source: Vec::from_slice(alloc, self.source.as_slice())?,
            destination: Vec::from_slice(alloc, self.destination.as_slice())?,
        })
    }

    /// Returns the names of a file that keeps its name at the peer.
    ///
    /// # Errors
    ///
    /// `AllocError` if there is no memory for them.
    pub fn alike(alloc: Global, name: &[u8]) -> Result<PutNames, AllocError>
        ensures { IfOk result (λ names. (names.source.items ≡ name.now)
            × (names.destination.items ≡ name.now)) }
    {
        Ok(PutNames {
            source: Vec::from_slice(alloc, name)?,
            destination: Vec::from_slice(alloc, name)?,
        })
    }

    /// Returns `true` if the file keeps its name at the peer.
    pub fn are_alike(&self) -> bool
        ensures { IsTrue result ↔ (self.now.source.items ≡ self.now.destination.items) }
    {
        self.source.as_slice() == self.destination.as_slice()
    }
}

/// What a user wishes of its station (CCSDS 727.0-B-5, 3.4).
#[derive(Drop)]
pub enum Wish {
    /// To send a file: a Put.request.
    Put(PutNames),
    /// To change a transaction: a Cancel.request, a Suspend.request, a Resume.request, or a Prompt.
    Change(TransactionId, Request),
}

/// How a wish was answered.
#[derive(Clone, Copy)]
pub enum Reply {
    /// A put: its transaction, or why there is none.
    Put(Result<TransactionId, PutError>),
    /// A request of a transaction: why nothing was changed, if it wasn't.
    Change(Result<(), RequestError>),
}
