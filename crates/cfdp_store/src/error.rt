ghost use Rattle.std.specs.Prelude.{◌≡◌, ◌≢◌};
ghost use Rattle.std.specs.IoError.{error_kind};
ghost use Rattle.std.specs.declared.io.ErrorKind.TheVariants.{OutOfMemory};
ghost use Rattle.cfdp_store.specs.Stores.{refusal_number, refusal_name};
ghost use Rattle.cfdp_store.specs.declared.error.StoreError.TheVariants.{Device, NoMemory};

use std::alloc::AllocError;
use std::io::{self, ErrorKind};
use thiserror::Error;

/// Why a call of a store failed.
#[derive(Clone, Copy, Debug, PartialEq, Eq, Error)]
pub enum StoreError {
    /// The device that holds the files refused.
    #[error("the storage device failed")]
    Device,
    /// The store takes no file of that name.
    #[error("the store cannot hold a file of that name")]
    Name,
    /// There is no memory for it.
    #[error("out of memory")]
    NoMemory,
}

impl StoreError {
    /// Returns the number of this error in reports, from 1 on.
    pub fn number(self) -> u8
        ensures { result ≡ refusal_number self }
    {
        match self {
            StoreError::Device => 1,
            StoreError::Name => 2,
            StoreError::NoMemory => 3,
        }
    }

    /// Returns the name of this error in reports.
    pub fn name(self) -> &'static str
        ensures { result.now ≡ refusal_name self }
    {
        match self {
            StoreError::Device => "Device",
            StoreError::Name => "Name",
            StoreError::NoMemory => "NoMemory",
        }
    }
}

impl From<AllocError> for StoreError {
    ghost from_gives = { λ _ e. e ≡ NoMemory };

    fn from(_error: AllocError) -> StoreError {
        StoreError::NoMemory
    }
}

/// For stores on a device: any error is `Device` unless memory ran out.
impl From<io::Error> for StoreError {
    ghost from_gives = { λ error e. (error_kind error ≡ OutOfMemory → e ≡ NoMemory)
        × (error_kind error ≢ OutOfMemory → e ≡ Device) };

    fn from(error: io::Error) -> StoreError {
        match error.kind() {
            ErrorKind::OutOfMemory => StoreError::NoMemory,
            _ => StoreError::Device,
        }
    }
}
