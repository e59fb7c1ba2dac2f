//! The answers to commands.
ghost use Rattle.std.specs.Prelude.{◌≡◌, IfOk};
ghost use Rattle.cfdp_console.specs.Serving.{status_of};

use crate::answer::WebAnswer;
use std::alloc::{AllocError, Global};

/// Returns the answer to a command: 200 if it was done, and 409 with the reason if it wasn't, and
/// nothing was changed.
///
/// # Errors
///
/// `AllocError` if there is no memory for the answer.
pub fn reply(alloc: Global, outcome: Result<(), &str>) -> Result<WebAnswer, AllocError>
    ensures { IfOk result (λ answer. answer.status ≡ status_of outcome.entry) }
{
    match outcome {
        Ok(()) => WebAnswer::done(alloc),
        Err(why) => WebAnswer::refused(alloc, why),
    }
}
