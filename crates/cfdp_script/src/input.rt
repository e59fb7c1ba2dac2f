//! Reading a script, to its end.
ghost use Rattle.std.specs.Prelude.{◌≡◌, ◌≤◌, IfErr, IfOk, IfSome, vec_len};
ghost use Rattle.cfdp_script.specs.Script.Simulated.{EndsReading};

use cfdp_report::{Fault, read_up_to};
use std::alloc::Global;
use std::io::Read;

/// The longest script that is read, in octets.
pub const MAX_SCRIPT: usize = 1_048_576;

/// Reads all that the reader gives, to its end, as a script of at most `MAX_SCRIPT` octets.
///
/// # Errors
///
/// The `Fault` of `read_up_to`, if the script can't be read or is too long.
pub fn read_script<R: Read + Drop>(alloc: Global, reader: R) -> Result<Vec<u8>, Fault>
    ensures short { IfOk result (λ script. vec_len script ≤ MAX_SCRIPT) }
    ensures whole { IfOk result (λ script. IfSome (R.remaining reader) (λ all. script.items
        ≡ all)) }
    ensures fault { IfErr result (λ fault. EndsReading fault (R.remaining reader)) }
{
    read_up_to(alloc, reader, MAX_SCRIPT)
}
