//! The check of sixteen bits.
ghost use Rattle.std.specs.Prelude.{◌≡◌, ◌*◌, ◌%◌, ◌^◌, ◌≤◌, bit_xor, length, take};
ghost use Rattle.crc.specs.Checks.{crc16_behind, crc16_of, divisor16};
ghost use Rattle.crc.specs.Division.{moved};

use crate::sixteen_tables::TABLES;

/// Returns the check of the octets, as frames and PDUs carry it: by x^16 + x^12 + x^5 + 1, begun
/// with ones (CCSDS 732.0-B-4, 4.1.6.2).
pub fn crc16(octets: &[u8]) -> u16
    ensures { result ≡ crc16_of octets.now }
{
    crc16_more(u16::MAX, octets)
}

/// Returns the check of the octets if it is begun with another value. So a check can be taken in
/// parts: the check of the octets before must be passed as `before`.
pub fn crc16_more(before: u16, octets: &[u8]) -> u16
    ensures { result ≡ crc16_behind before octets.now }
{
    let whole = octets.len() / 8 * 8;
    let mut check = eights(before, octets, whole);
    for place in whole..octets.len() {
        check = with_octet(check, octets[place]);
    }
    check
}

/// Returns `crc16_more` of the first octets, so many eights of them.
fn eights(before: u16, octets: &[u8], whole: usize) -> u16
    requires within { whole ≤ length octets.now }
    requires eights { whole % 8 ≡ 0 }
    ensures { result ≡ crc16_behind before (take whole octets.now) }
{
    let mut check = before;
    let mut place = 0;
    while place < whole {
        let first = (check >> 8) as u8 ^ octets[place];
        let second = (check % 256) as u8 ^ octets[place + 1];
        check = TABLES[7][usize::from(first)]
            ^ TABLES[6][usize::from(second)]
            ^ TABLES[5][usize::from(octets[place + 2])]
            ^ TABLES[4][usize::from(octets[place + 3])]
            ^ TABLES[3][usize::from(octets[place + 4])]
            ^ TABLES[2][usize::from(octets[place + 5])]
            ^ TABLES[1][usize::from(octets[place + 6])]
            ^ TABLES[0][usize::from(octets[place + 7])];
        place += 8;
    }
    check
}

/// Returns the check with one more octet.
#[inline(always)]
fn with_octet(check: u16, octet: u8) -> u16
    ensures { result ≡ moved 16 divisor16 8 (bit_xor check (octet * 2 ^ 8)) }
{
    let place = (check >> 8) as u8 ^ octet;
    TABLES[0][usize::from(place)] ^ (check << 8)
}
