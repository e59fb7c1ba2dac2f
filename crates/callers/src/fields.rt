//! Callers of `cfd_bits`: fields, and a number in octets.
ghost use Rattle.std.specs.Prelude.{◌≡◌, ◌^◌, ◌<◌, ◌≤◌, length};
ghost use Rattle.cfd_bits.specs.Field.{field};

use cfd_bits::{get, put_bits, read_uint, what_is_written_is_read, write_uint};

/// Writes three fields into the first two octets, and returns the first field. Each is read as
/// written after the others.
pub fn three_fields(bytes: &mut [u8]) -> u64
    requires room { 2 ≤ length bytes.old }
    ensures first { result ≡ 1 }
    ensures second { field bytes.new 2 8 ≡ 42 }
    ensures third { field bytes.new 10 6 ≡ 5 }
{
    put_bits(bytes, 10, 6, 5);
    put_bits(bytes, 0, 2, 1);
    put_bits(bytes, 2, 8, 42);
    get(bytes, 0, 2)
}

/// Writes a value into the first `count` octets, 0 to 8, and returns what it reads there.
pub fn written_and_read(bytes: &mut [u8], count: usize, value: u64) -> u64
    requires room { count ≤ length bytes.old }
    requires narrow { count ≤ 8 }
    requires fits { value < 256 ^ count }
    ensures same { result ≡ value }
{
    write_uint(bytes, count, value);
    what_is_written_is_read();
    read_uint(bytes, count)
}
