// Numbers of four and of eight octets, read and written at once. The octets are loaded as one
// number, which reverses their order, and the order is then reversed again: if it is written so,
// LLVM makes one load of it; a loop that multiplies gets none.
ghost use Rattle.std.specs.Prelude.{◌≡◌, ◌+◌, ◌≤◌, ◌++◌, length, take, drop};
ghost use Rattle.cfd_bits.specs.Field.{field, octets};

use crate::put_bytes;

/// Returns the number in the first four octets, the most significant first.
#[inline(always)]
pub fn read_four(bytes: &[u8]) -> u32
    requires { 4 ≤ length bytes.now }
    ensures { result ≡ field bytes.now 0 32 }
{
    let turned = u32::from_le_bytes([bytes[0], bytes[1], bytes[2], bytes[3]]);
    turned.swap_bytes()
}

/// Returns the number in the first eight octets, the most significant first.
#[inline(always)]
pub fn read_eight(bytes: &[u8]) -> u64
    requires { 8 ≤ length bytes.now }
    ensures { result ≡ field bytes.now 0 64 }
{
    let turned = u64::from_le_bytes([
        bytes[0], bytes[1], bytes[2], bytes[3], bytes[4], bytes[5], bytes[6], bytes[7],
    ]);
    turned.swap_bytes()
}

/// Writes the number into four octets from octet `at` on, the most significant first, and returns
/// the offset of their end. The octets before and after them stay as they were.
#[inline(always)]
#[tactic(auto, using(crate::proofs::Turned::four_written))]
pub fn put_four(out: &mut [u8], at: usize, value: u32) -> usize
    requires { at + 4 ≤ length out.old }
    ensures end { result ≡ at + 4 }
    ensures front { take result out.new ≡ take at out.old ++ octets 4 value }
    ensures behind { drop result out.new ≡ drop result out.old }
{
    put_bytes(out, at, &value.to_be_bytes())
}

/// Writes the number into eight octets from octet `at` on, the most significant first, and returns
/// the offset of their end. The octets before and after them stay as they were.
#[inline(always)]
#[tactic(auto, using(crate::proofs::Turned::eight_written))]
pub fn put_eight(out: &mut [u8], at: usize, value: u64) -> usize
    requires { at + 8 ≤ length out.old }
    ensures end { result ≡ at + 8 }
    ensures front { take result out.new ≡ take at out.old ++ octets 8 value }
    ensures behind { drop result out.new ≡ drop result out.old }
{
    put_bytes(out, at, &value.to_be_bytes())
}
