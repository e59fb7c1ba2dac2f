ghost use Rattle.std.specs.Prelude.{◌≡◌, ◌≢◌, ◌↔◌};
ghost use Rattle.cfdp_store.specs.Folder.{refusal_of};
ghost use Rattle.cfdp_store.specs.declared.folder_error.FolderError.TheVariants.{Name};

use crate::StoreError;
use std::alloc::AllocError;
use std::io::{self, ErrorKind};
use thiserror::Error;

/// Why a file of a folder can't be read or written.
#[derive(Clone, Copy, Debug, Error)]
pub enum FolderError {
    /// A file in a folder can't have that name.
    #[error("a file cannot have that name here")]
    Name,
    /// A link has that name.
    #[error("is a symbolic link")]
    Link,
    /// A folder has that name.
    #[error("is a folder")]
    Folder,
    /// A device, a pipe or a socket has that name.
    #[error("not a plain file")]
    NoFile,
    /// It was changed, or removed, after it was looked for.
    #[error("the file changed while it was sent")]
    Changed,
    /// The system refused, or there is no memory.
    #[error("{0}")]
    System(ErrorKind),
}

impl From<FolderError> for StoreError {
    ghost from_gives = { λ error e. e ≡ refusal_of error };

    fn from(error: FolderError) -> StoreError {
        match error {
            FolderError::Name => StoreError::Name,
            FolderError::System(ErrorKind::OutOfMemory) => StoreError::NoMemory,
            FolderError::Link
            | FolderError::Folder
            | FolderError::NoFile
            | FolderError::Changed
            | FolderError::System(_) => StoreError::Device,
        }
    }
}

impl From<io::Error> for FolderError {
    ghost from_gives = { λ _ e. e ≢ Name };

    fn from(error: io::Error) -> FolderError {
        FolderError::System(error.kind())
    }
}

impl From<AllocError> for FolderError {
    ghost from_gives = { λ _ e. e ≢ Name };

    fn from(_error: AllocError) -> FolderError {
        FolderError::System(ErrorKind::OutOfMemory)
    }
}
