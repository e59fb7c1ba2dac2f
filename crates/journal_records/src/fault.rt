//! Why octets can't be read.
ghost use Rattle.std.specs.Prelude.{◌≡◌};
ghost use Rattle.journal_records.specs.declared.fault.ReadError.TheVariants.{Memory};

use std::alloc::{AllocError, AllocFailed};
use thiserror::Error;

/// What is wrong with the text of a batch: the first fault from its front.
#[derive(Clone, Copy, Debug, PartialEq, Eq, Error)]
pub enum BatchFault {
    /// A field passes the end.
    #[error("a record is cut off")]
    Short,
    /// An octet has none of the values that it may have there, such as the code of an unknown kind
    /// of record.
    #[error("a record has an unknown value")]
    Unknown,
    /// Octets follow the last record.
    #[error("octets follow the last record")]
    Trailing,
}

/// Why a journal can't be read.
#[derive(Debug, Drop, Error)]
pub enum ReadError {
    /// Memory ran out.
    #[error("out of memory")]
    Memory,
    /// A whole batch has a text that is wrong.
    #[error("{0}")]
    Fault(BatchFault),
}

impl From<AllocError> for ReadError {
    ghost from_gives = { λ _ e. e ≡ Memory };

    fn from(_error: AllocError) -> ReadError {
        ReadError::Memory
    }
}

impl<T: Drop> From<AllocFailed<T>> for ReadError {
    ghost from_gives = { λ _ e. e ≡ Memory };

    fn from(_error: AllocFailed<T>) -> ReadError {
        ReadError::Memory
    }
}
