//! A field, as a line of a dump.
ghost use Rattle.std.specs.Prelude.{◌≡◌, Some};
ghost use Rattle.cfdp_dump.specs.Spelled.Fields.{code_field, flag_field, number_field};
ghost use Rattle.cfdp_dump.specs.Spelled.Fields.{filled_field, octets_field};
ghost use Rattle.cfdp_dump.specs.Spelled.Fields.{part_field, text_field};

use crate::spelled::line::HexOctets;
use std::fmt;

/// A number: its name, its value, and the section of the standard.
#[derive(Clone, Copy)]
pub struct NumberField(pub &'static str, pub u64, pub &'static str);

impl fmt::Display for NumberField {
    ghost output = { λ field. Some (number_field field.0.now field.1 field.2.now) };

    fn fmt<W: fmt::Write>(&self, f: &mut fmt::Formatter<W>) -> fmt::Result {
        write!(f, "{}: {} ({})\n", self.0, self.1, self.2)
    }
}

/// A number with what it means: its name, its value, its meaning, and the section of the standard.
#[derive(Clone, Copy)]
pub struct CodeField(
    pub &'static str,
    pub u64,
    pub &'static str,
    pub &'static str,
);

impl fmt::Display for CodeField {
    ghost output = { λ field. Some (code_field field.0.now field.1 field.2.now field.3.now) };

    fn fmt<W: fmt::Write>(&self, f: &mut fmt::Formatter<W>) -> fmt::Result {
        write!(f, "{}: {} {} ({})\n", self.0, self.1, self.2, self.3)
    }
}

/// A number of octets: its name, its value, and the section of the standard.
#[derive(Clone, Copy)]
pub struct OctetsField(pub &'static str, pub u64, pub &'static str);

impl fmt::Display for OctetsField {
    ghost output = { λ field. Some (octets_field field.0.now field.1 field.2.now) };

    fn fmt<W: fmt::Write>(&self, f: &mut fmt::Formatter<W>) -> fmt::Result {
        write!(f, "{}", CodeField(self.0, self.1, "octets", self.2))
    }
}

/// A flag: its name, whether it is set, and the section of the standard.
#[derive(Clone, Copy)]
pub struct FlagField(pub &'static str, pub bool, pub &'static str);

impl fmt::Display for FlagField {
    ghost output = { λ field. Some (flag_field field.0.now field.1 field.2.now) };

    fn fmt<W: fmt::Write>(&self, f: &mut fmt::Formatter<W>) -> fmt::Result {
        write!(f, "{}", TextField(self.0, flag_word(self.1), self.2))
    }
}

/// Returns whether a flag is set, in a word.
fn flag_word(is_set: bool) -> &'static str
    ensures { result.now ≡ Rattle.cfdp_dump.specs.Spelled.Fields.flag_word is_set }
{
    if is_set { "yes" } else { "no" }
}

/// A word: the field's name, this, and the section of the standard.
#[derive(Clone, Copy)]
struct TextField(&'static str, &'static str, &'static str);

impl fmt::Display for TextField {
    ghost output = { λ field. Some (text_field field.0.now field.1.now field.2.now) };

    fn fmt<W: fmt::Write>(&self, f: &mut fmt::Formatter<W>) -> fmt::Result {
        write!(f, "{}: {} ({})\n", self.0, self.1, self.2)
    }
}

/// Octets in hexadecimal digits: the field's name, these, and the section of the standard. Nothing
/// if there are none.
#[derive(Clone, Copy)]
pub struct PartField<'a>(pub &'static str, pub &'a [u8], pub &'static str);

impl fmt::Display for PartField<'_> {
    ghost output = { λ field. Some (part_field field.0.now field.1.now field.2.now) };

    fn fmt<W: fmt::Write>(&self, f: &mut fmt::Formatter<W>) -> fmt::Result {
        if self.1.len() == 0 {
            write!(f, "")
        } else {
            write!(f, "{}", FilledField(self.0, self.1, self.2))
        }
    }
}

/// The same, whether there are some or not.
#[derive(Clone, Copy)]
struct FilledField<'a>(&'static str, &'a [u8], &'static str);

impl fmt::Display for FilledField<'_> {
    ghost output = { λ field. Some (filled_field field.0.now field.1.now field.2.now) };

    fn fmt<W: fmt::Write>(&self, f: &mut fmt::Formatter<W>) -> fmt::Result {
        write!(f, "{}: {} ({})\n", self.0, HexOctets(self.1), self.2)
    }
}
