ghost use Rattle.std.specs.Prelude.{◌≡◌, ◌<◌, Some};
ghost use Rattle.std.specs.List.{flat_map};
ghost use Rattle.cfdp_report.specs.Report.Name.{printed_octet};

use std::fmt;

/// A file name, as the report prints it: `%` and what isn't a visible ASCII character as `%` and
/// two upper-case hexadecimal digits.
#[derive(Clone, Copy)]
pub struct Name<'a>(pub &'a [u8]);

impl fmt::Display for Name<'_> {
    ghost output = { λ name. Some (flat_map printed_octet name.0.now) };

    fn fmt<W: fmt::Write>(&self, f: &mut fmt::Formatter<W>) -> fmt::Result {
        for octet in self.0 {
            write!(f, "{}", NameOctet(*octet))?;
        }
        Ok(())
    }
}

/// One octet of a name.
#[derive(Clone, Copy)]
struct NameOctet(u8);

impl fmt::Display for NameOctet {
    ghost output = { λ octet. Some (printed_octet octet.0) };

    #[tactic(auto, using(std::proofs::lemmas::Str::encode_ascii))]
    fn fmt<W: fmt::Write>(&self, f: &mut fmt::Formatter<W>) -> fmt::Result {
        let octet = self.0;
        if is_plain(octet) {
            write!(f, "{}", char::from(octet))
        } else {
            write!(f, "%{}{}", hex_digit(octet / 16), hex_digit(octet % 16))
        }
    }
}

/// Returns `true` if an octet is printed as it is.
fn is_plain(octet: u8) -> bool
    ensures { result ≡ Rattle.cfdp_report.specs.Report.Name.is_plain octet }
{
    octet.is_ascii_graphic() && octet != b'%'
}

/// Returns the upper-case hexadecimal digit of a value.
pub fn hex_digit(value: u8) -> char
    requires { value < 16 }
    ensures { result ≡ Rattle.cfdp_report.specs.Report.Name.hex_digit value }
{
    if value < 10 {
        char::from(b'0' + value)
    } else {
        char::from(b'A' + (value - 10))
    }
}
