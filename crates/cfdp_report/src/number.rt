// Numbers in words, as they are read and written.
ghost use Rattle.std.specs.Prelude.{◌≡◌, ◌<◌, ◌↔◌, length, IsSome, IfSome, Some};
ghost use Rattle.std.specs.Char.{digit_value};
ghost use Rattle.std.specs.Str.Parse.{AllDigits, digits_value};
ghost use Rattle.cfdp_report.specs.Numbers.{hex_number_text, number_of};

use std::fmt;

/// Returns the number that decimal digits spell, below 2^64. They may begin with zeros.
pub fn parse_number(word: &[u8]) -> Option<u64>
    ensures { result ≡ number_of word.now }
{
    if word.is_empty() {
        return None;
    }
    let mut number: u64 = 0;
    for digit in word {
        if !digit.is_ascii_digit() {
            return None;
        }
        let tens = number.checked_mul(10)?;
        number = tens.checked_add(u64::from(*digit - b'0'))?;
    }
    Some(number)
}

/// Returns the octet that two hexadecimal digits spell, in either case.
pub fn parse_hex_octet(word: &[u8]) -> Option<u8>
    ensures some { IsSome result ↔ ((length word.now ≡ 2) × AllDigits 16 word.now) }
    ensures value { IfSome result (λ octet. octet ≡ digits_value 16 word.now) }
{
    match word {
        [high, low] => Some(16 * hex_value(*high)? + hex_value(*low)?),
        _ => None,
    }
}

/// Returns what a hexadecimal digit, of either case, stands for: 0 to 15.
fn hex_value(digit: u8) -> Option<u8>
    ensures some { IsSome result ↔ (digit_value digit < 16) }
    ensures value { IfSome result (λ value. value ≡ digit_value digit) }
{
    match digit {
        b'0'..=b'9' => Some(digit - b'0'),
        b'A'..=b'F' => Some(digit - b'A' + 10),
        b'a'..=b'f' => Some(digit - b'a' + 10),
        _ => None,
    }
}

/// A number as eight upper-case hexadecimal digits.
#[derive(Clone, Copy)]
pub struct HexNumber(pub u32);

impl fmt::Display for HexNumber {
    ghost output = { λ number. Some (hex_number_text number.0) };

    fn fmt<W: fmt::Write>(&self, f: &mut fmt::Formatter<W>) -> fmt::Result {
        write!(f, "{:08X}", self.0)
    }
}
