//! What may stand in place of a key that is none.
use crate::own_key::OwnKey;
use cfdp_report::{Keys, Nearest, consider_keys};
use cfdp_settings_file::OPTIONS;
use std::alloc::{AllocError, Global};
use std::fmt;

/// What may stand in place of a key that is none.
#[derive(Clone, Copy)]
pub enum KeyHint {
    /// The key that is most like it.
    Nearest(&'static str),
    /// It is an option, and no key.
    Option(&'static str),
    /// All keys.
    All,
}

/// What goes on from the sentence that there is no such key.
impl fmt::Display for KeyHint {
    fn fmt<W: fmt::Write>(&self, f: &mut fmt::Formatter<W>) -> fmt::Result {
        match self {
            KeyHint::Nearest(key) => write!(f, "; did you mean {key}"),
            KeyHint::Option(name) => write!(
                f,
                "; it is the option --{name}, which stands above [set] in a settings file"
            ),
            KeyHint::All => {
                write!(f, "; the keys are {Keys}")?;
                for key in &OwnKey::ALL {
                    let name = key.name();
                    write!(f, ", {name}")?;
                }
                Ok(())
            }
        }
    }
}

/// Returns what may stand in the place of this word, which is no key.
pub fn key_hint(alloc: Global, word: &str) -> KeyHint {
    for option in OPTIONS {
        if option.name == word {
            return KeyHint::Option(option.name);
        }
    }
    match nearest(alloc, word) {
        Ok(Some(key)) => KeyHint::Nearest(key),
        Ok(None) | Err(AllocError) => KeyHint::All,
    }
}

/// The key that is most like a word, if one is near to it.
fn nearest(alloc: Global, word: &str) -> Result<Option<&'static str>, AllocError> {
    let mut nearest = Nearest::to(word.as_bytes());
    consider_keys(alloc, &mut nearest)?;
    for key in &OwnKey::ALL {
        nearest.consider(alloc, key.name())?;
    }
    Ok(nearest.found())
}
