//! Bit fields of octets, and whole numbers in octets, the most significant bit and octet first.
//!
//! Every codec of the stack reads and writes by these calls. Bits are numbered as the CCSDS books
//! number them: bit 0 is the most significant bit of the first octet, and the first bit of a field
//! is its most significant (CCSDS 133.0-B-2, 1.6.3). None of the calls takes memory or can fail:
//! the range must lie in the octets, and a value must fit its field.
//!
//! Tested by `tests/transcripts/bits.txt`.
#![tactic(auto)]

ghost use Rattle.std.specs.Prelude.{◌≡◌, ℕ, ◌+◌, ◌-◌, ◌*◌, ◌/◌, ◌%◌, ◌^◌, ◌<◌, ◌≤◌, ◌++◌, length};
ghost use Rattle.std.specs.Prelude.{take, drop};
ghost use Rattle.cfd_bits.specs.Field.{field, octets, SameOutside};

mod laws;
mod words;

pub use laws::{a_field_is_its_bits, octets_read_are_written, what_is_written_is_read};
pub use words::{put_eight, put_four, read_eight, read_four};

/// Returns the number in the `width` bits (0 to 64) from bit `at_bit` on. The first of them is the
/// most significant. All of them must lie in the octets.
#[inline]
#[tactic(auto, using(crate::proofs::Steps::field_none))]
pub fn get(bytes: &[u8], at_bit: usize, width: usize) -> u64
    requires room { at_bit + width ≤ 8 * length bytes.now }
    requires fits { at_bit + width < 2 ^ 64 }
    requires narrow { width ≤ 64 }
    ensures value { result ≡ field bytes.now at_bit width }
    ensures below { result < 2 ^ width }
{
    if width == 0 {
        return 0;
    }
    let first = at_bit / 8;
    let in_first = 8 - at_bit % 8;
    let front = u64::from(bytes[first]) % (1 << in_first);
    if width <= in_first {
        return front >> (in_first - width);
    }
    let end = at_bit + width;
    let last = end / 8;
    let mut value = front;
    for place in first + 1..last {
        value = 256 * value + u64::from(bytes[place]);
    }
    let in_last = end % 8;
    if in_last == 0 {
        return value;
    }
    (value << in_last) + u64::from(bytes[last] >> (8 - in_last))
}

/// Returns the number in the first `count` octets (0 to 8), the most significant first.
#[inline]
pub fn read_uint(bytes: &[u8], count: usize) -> u64
    requires room { count ≤ length bytes.now }
    requires narrow { count ≤ 8 }
    ensures value { result ≡ field bytes.now 0 (8 * count) }
    ensures below { result < 256 ^ count }
{
    let mut value = 0u64;
    for i in 0..count {
        value = 256 * value + u64::from(bytes[i]);
    }
    value
}

/// Sets the `width` bits (0 to 64) from bit `at_bit` on to the value, which must fit them. Other
/// bits stay as they were.
pub fn put_bits(bytes: &mut [u8], at_bit: usize, width: usize, value: u64)
    requires room { at_bit + width ≤ 8 * length bytes.old }
    requires reach { at_bit + width < 2 ^ 64 }
    requires narrow { width ≤ 64 }
    requires fits { value < 2 ^ width }
    ensures written { field bytes.new at_bit width ≡ value }
    ensures before { (i v : ℕ) → i + v ≤ at_bit → field bytes.new i v ≡ field bytes.old i v }
    ensures behind { (i v : ℕ) → at_bit + width ≤ i → field bytes.new i v ≡ field bytes.old i v }
    ensures others { SameOutside at_bit width bytes.old bytes.new }
{
    let mut left = value;
    let mut end = at_bit + width;
    while at_bit < end {
        let place = (end - 1) / 8;
        let start = at_bit.max(8 * place);
        let here = end - start;
        bytes[place] = with_bits(
            bytes[place],
            start - 8 * place,
            here,
            (left % (1 << here)) as u8,
        );
        left >>= here;
        end = start;
    }
}

/// Returns the octet with the `width` bits from its bit `from` on set to the value.
fn with_bits(octet: u8, from: usize, width: usize, value: u8) -> u8
    requires room { from + width ≤ 8 }
    requires fits { value < 2 ^ width }
    ensures { result ≡ (octet / 2 ^ (8 - from) * 2 ^ width + value) * 2 ^ (8 - (from + width))
        + octet % 2 ^ (8 - (from + width)) }
{
    let behind = 8 - (from + width);
    let front = u32::from(octet) >> (8 - from);
    let back = u32::from(octet) % (1 << behind);
    ((((front << width) + u32::from(value)) << behind) + back) as u8
}

/// Writes the number into the first `count` octets (0 to 8), the most significant first. The octets
/// after them stay as they were.
#[tactic(auto, using(crate::proofs::Steps::octets_more, crate::proofs::Steps::octets_none))]
pub fn write_uint(out: &mut [u8], count: usize, value: u64)
    requires room { count ≤ length out.old }
    requires narrow { count ≤ 8 }
    requires fits { value < 256 ^ count }
    ensures { out.new ≡ octets count value ++ drop count out.old }
{
    let mut left = value;
    for i in (0..count).rev() {
        out[i] = (left % 256) as u8;
        left /= 256;
    }
}

/// Writes the number into `count` octets (0 to 8) from octet `at` on, the most significant first,
/// and returns the offset of their end, so that a codec writes one part after another. The octets
/// before and after them stay as they were.
pub fn put_uint(out: &mut [u8], at: usize, count: usize, value: u64) -> usize
    requires room { at + count ≤ length out.old }
    requires narrow { count ≤ 8 }
    requires fits { value < 256 ^ count }
    ensures end { result ≡ at + count }
    ensures front { take result out.new ≡ take at out.old ++ octets count value }
    ensures behind { drop result out.new ≡ drop result out.old }
{
    let end = at + count;
    write_uint(&mut out[at..end], count, value);
    end
}

/// Writes the octets from octet `at` on, and returns the offset of their end. The octets before and
/// after them stay as they were.
pub fn put_bytes(out: &mut [u8], at: usize, bytes: &[u8]) -> usize
    requires room { at + length bytes.now ≤ length out.old }
    ensures end { result ≡ at + length bytes.now }
    ensures front { take result out.new ≡ take at out.old ++ bytes.now }
    ensures behind { drop result out.new ≡ drop result out.old }
{
    let end = at + bytes.len();
    out[at..end].copy_from_slice(bytes);
    end
}
