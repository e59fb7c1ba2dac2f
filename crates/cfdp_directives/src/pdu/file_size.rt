// The octets of a file-size field, such as an offset, and the greatest size of a file: their
// numbers stand here alone.
ghost use Rattle.std.specs.Prelude.{◌≡◌, ◌+◌, ◌*◌, ◌^◌, ◌<◌, ◌≤◌, ◌++◌, ◌↔◌, false, length, take};
ghost use Rattle.std.specs.Prelude.{drop, IsTrue};
ghost use Rattle.cfd_bits.specs.Field.{field, octets};
ghost use Rattle.cfdp_directives.specs.Pdu.Codes as codes;

use cfd_bits::{put_eight, put_four, read_eight, read_four};

/// Octets if the file isn't large.
const SMALL: usize = 4;

/// Octets if the file is large.
const LARGE: usize = 8;

/// The largest number that a field holds if the file isn't large.
const LARGEST_SMALL: u64 = u64::MAX >> (64 - 8 * SMALL);

/// The greatest size of a file that is large, in octets.
const LARGEST_FILE: u64 = 1 << 48;

/// Returns the number of octets of a file-size field, such as an offset (CCSDS 727.0-B-5, 5.1.10):
/// 8 if the file is large, otherwise 4.
#[inline]
pub(crate) fn file_size_octets(large: bool) -> usize
    ensures value { result ≡ codes.file_size_octets large }
    ensures some { 1 ≤ result }
    ensures most { result ≤ 8 }
{
    if large { LARGE } else { SMALL }
}

/// Returns `true` if a size or an offset fits a file-size field.
#[inline]
pub fn is_file_size(large: bool, value: u64) -> bool
    ensures { IsTrue result ↔ (value < 256 ^ codes.file_size_octets large) }
{
    large || value <= LARGEST_SMALL
}

/// Returns the greatest size of a file, in octets: 2^48 if it is large, otherwise 4,294,967,295.
#[inline]
#[tactic(auto, unfolding(crate::specs::Pdu::Codes::size_limit))]
pub fn size_limit(large: bool) -> u64
    ensures value { result ≡ codes.size_limit large }
    ensures fits { result < 256 ^ codes.file_size_octets large }
    ensures most { result ≤ 2 ^ 48 }
{
    if large { LARGEST_FILE } else { LARGEST_SMALL }
}

/// Returns `true` if a file of so many octets is large: all that is sent of it then has the large
/// file flag.
#[inline]
pub fn is_large(size: u64) -> bool
    ensures { result ≡ codes.is_large size }
{
    size_limit(false) < size
}

/// Returns the number in the file-size field at the front.
#[inline(always)]
pub(crate) fn read_file_size(large: bool, bytes: &[u8]) -> u64
    requires { codes.file_size_octets large ≤ length bytes.now }
    ensures { result ≡ field bytes.now 0 (8 * codes.file_size_octets large) }
{
    if large {
        read_eight(bytes)
    } else {
        u64::from(read_four(bytes))
    }
}

/// Writes the number as a file-size field from octet `at` on, and returns where it ends. The octets
/// before and after it stay as they were.
#[inline(always)]
pub(crate) fn put_file_size(out: &mut [u8], at: usize, large: bool, value: u64) -> usize
    requires room { at + codes.file_size_octets large ≤ length out.old }
    requires fits { value < 256 ^ codes.file_size_octets large }
    ensures end { result ≡ at + codes.file_size_octets large }
    ensures front { take result out.new
        ≡ take at out.old ++ octets (codes.file_size_octets large) value }
    ensures behind { drop result out.new ≡ drop result out.old }
{
    if large {
        put_eight(out, at, value)
    } else {
        put_four(out, at, value as u32)
    }
}
