//! Copies of files.
ghost use Rattle.std.specs.Prelude.{◌≡◌, IfOk};

use cfdp_store::Files;
use std::alloc::AllocError;

/// Returns the same files once more.
///
/// # Errors
///
/// `AllocError` if there is no memory for them.
pub fn copied(files: &Files) -> Result<Files, AllocError>
    ensures { IfOk result (λ copy. copy ≡ files.now) }
{
    let entries = files.entries().clone()?;
    Ok(Files::from_map(entries))
}
