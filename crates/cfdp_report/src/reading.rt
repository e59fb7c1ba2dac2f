//! Reading what a run reads, to its end.
ghost use Rattle.std.specs.Prelude.{◌≡◌, ◌≤◌, IfErr, IfOk, IfSome, vec_len};
ghost use Rattle.cfdp_report.specs.Reading.{EndsReadingUpTo};

use crate::exit::Fault;
use std::alloc::Global;
use std::io::{ErrorKind, Read};

const MAX_READS: u32 = 1_100_000;

/// Reads all that the reader gives, to its end, which must be at most `most` octets. If a read is
/// interrupted, it is asked again.
///
/// # Errors
///
/// `TooLong` if it gives more than `most` octets; `Unreadable` if a read fails, or none of
/// 1,100,000 finds the end; `NoMemoryAtStart` if there is no memory.
pub fn read_up_to<R: Read + Drop>(
    alloc: Global,
    mut reader: R,
    most: usize,
) -> Result<Vec<u8>, Fault>
    ensures short { IfOk result (λ file. vec_len file ≤ most) }
    ensures whole { IfOk result (λ file. IfSome (R.remaining reader) (λ all. file.items ≡ all)) }
    ensures fault { IfErr result (λ fault. EndsReadingUpTo most fault (R.remaining reader)) }
{
    let mut file = Vec::new(alloc);
    let mut part = [0; 4096];
    for _ in 0..MAX_READS {
        match reader.read(&mut part) {
            Ok(0) => return Ok(file),
            Ok(count) => {
                if count > most - file.len() {
                    return Err(Fault::TooLong);
                }
                file.extend_from_slice(&part[..count])?;
            }
            Err(error) => match error.kind() {
                ErrorKind::Interrupted => {}
                ErrorKind::OutOfMemory => return Err(Fault::NoMemoryAtStart),
                kind => return Err(Fault::Unreadable(kind)),
            },
        }
    }
    Err(Fault::Unreadable(ErrorKind::TimedOut))
}
