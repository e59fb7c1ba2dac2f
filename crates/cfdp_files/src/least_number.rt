//! From which number on a station counts its transactions.
use std::fs::File;
use std::io::Read;
use std::time::{SystemTime, UNIX_EPOCH};

/// How many random bits a number has, and above how many of its lowest bits these stand.
const RANDOM_BITS: u32 = 42;

const BELOW_RANDOM: u32 = 20;

/// Returns the least number of a station's first transaction, for numbers of `width` octets: the
/// microseconds since 1970, or 0 if these don't fit. A new station, which
/// has no file of what it used, adds a random number if its numbers have 8 octets. So used numbers
/// don't come back if the clock does, and strangers don't guess them.
pub fn least_number(rt: &HostRuntime, width: u64, is_new: bool) -> u64 {
    let clock = clock_number(rt, width);
    if is_new && width >= 8 {
        clock.saturating_add(random_number(rt) << BELOW_RANDOM)
    } else {
        clock
    }
}

/// Returns the microseconds since 1970, if a number of `width` octets holds them and all after that
/// may be reserved; otherwise 0.
fn clock_number(rt: &HostRuntime, width: u64) -> u64 {
    let micros = microseconds(rt);
    if width >= 8 || micros >> (8 * width) == 0 {
        micros
    } else {
        0
    }
}

/// Returns the microseconds since 1970; 0 if the clock can't be read.
pub fn microseconds(rt: &HostRuntime) -> u64 {
    match SystemTime::now(rt) {
        Ok(now) => match now.duration_since(UNIX_EPOCH) {
            Ok(since) => u64::try_from(since.as_micros()).unwrap_or(0),
            Err(_) => 0,
        },
        Err(_) => 0,
    }
}

/// Returns a random number of 42 bits; 0 if the system gives none.
fn random_number(rt: &HostRuntime) -> u64 {
    let mut octets = [0; 8];
    let Ok(mut source) = File::open(rt, "/dev/urandom") else {
        return 0;
    };
    match source.read_exact(&mut octets) {
        Ok(()) => u64::from_le_bytes(octets) >> (u64::BITS - RANDOM_BITS),
        Err(_) => 0,
    }
}
