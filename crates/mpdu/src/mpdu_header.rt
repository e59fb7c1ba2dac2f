//! The M_PDU header before a packet zone (CCSDS 732.0-B-4, 4.1.4.2.2).
ghost use Rattle.std.specs.Prelude.{◌≡◌, ◌<◌, ◌≤◌, ◌++◌, length, drop};
ghost use Rattle.mpdu.specs.MpduHeader.{pointer_of, pointer_octets};

use cfd_bits::{get, write_uint};

/// Octets of the M_PDU header, which stands before each packet zone.
///
/// They are 5 spare bits, and the 11 bits of the first header pointer.
pub const MPDU_HEADER_LEN: usize = 2;

/// Returns the first header pointer of an M_PDU: the offset in its zone at which the first packet
/// starts.
///
/// It is 0 to 2,047, the last 11 bits of the first 2 octets. Any value of the spare bits is
/// accepted.
pub fn read_pointer(mpdu: &[u8]) -> u16
    requires { 2 ≤ length mpdu.now }
    ensures pointer { result ≡ pointer_of mpdu.now }
    ensures below { result < 2048 }
{
    get(mpdu, 5, 11) as u16
}

/// Writes the M_PDU header, which says where in its zone the first packet starts.
///
/// The first header pointer, which must be 0 to 2,047, goes into the first 2 octets, with the spare
/// bits 0. The octets after them stay as they were.
pub fn put_pointer(out: &mut [u8], pointer: u16)
    requires room { 2 ≤ length out.old }
    requires fits { pointer < 2048 }
    ensures { out.new ≡ pointer_octets pointer ++ drop 2 out.old }
{
    write_uint(out, MPDU_HEADER_LEN, u64::from(pointer));
}
