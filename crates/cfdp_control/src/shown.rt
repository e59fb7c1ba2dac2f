//! The answer of a station, as it is shown to whoever asked.
ghost use Rattle.std.specs.Prelude.{◌≡◌, ◌||◌, ◌==◌, Some};
ghost use Rattle.std.specs.List.{flat_map};
ghost use Rattle.cfdp_control.specs.Shown.{shown_octet};

use cfdp_report::Name;
use std::{fmt, slice};

/// An answer, as it is shown: visible ASCII characters, spaces and line feeds as they are, and any
/// other octet as in the name of a file, by `%` and two hexadecimal digits. So what answers in
/// place of a station does nothing to a terminal.
#[derive(Clone, Copy)]
pub struct ShownAnswer<'a>(pub &'a [u8]);

impl fmt::Display for ShownAnswer<'_> {
    ghost output = { λ answer. Some (flat_map shown_octet answer.0.now) };

    fn fmt<W: fmt::Write>(&self, f: &mut fmt::Formatter<W>) -> fmt::Result {
        for octet in self.0 {
            write!(f, "{}", ShownOctet(*octet))?;
        }
        Ok(())
    }
}

/// One octet of an answer.
#[derive(Clone, Copy)]
struct ShownOctet(u8);

impl fmt::Display for ShownOctet {
    ghost output = { λ octet. Some (shown_octet octet.0) };

    #[tactic(auto, using(std::proofs::lemmas::Str::encode_ascii))]
    fn fmt<W: fmt::Write>(&self, f: &mut fmt::Formatter<W>) -> fmt::Result {
        let octet = self.0;
        if is_shown(octet) {
            write!(f, "{}", char::from(octet))
        } else {
            write!(f, "{}", Name(slice::from_ref(&octet)))
        }
    }
}

/// Whether an octet is shown as it is.
fn is_shown(octet: u8) -> bool
    ensures { result ≡ Rattle.cfdp_control.specs.Shown.is_shown octet }
{
    octet.is_ascii_graphic() || octet == b' ' || octet == b'\n'
}
