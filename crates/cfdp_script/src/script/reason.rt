//! What is wrong with a line of a script, as it is reported.
ghost use Rattle.std.specs.Prelude.{◌≡◌, ◌<◌};

use cfdp_report::{
    BadLine, Hint, LineError, Nearest, Quote, consider_keys, cut_at_first, parse_setting,
};
use std::alloc::{AllocError, Global};

/// How a command is written.
#[derive(Clone, Copy)]
struct Form {
    /// Its first word.
    verb: &'static str,
    /// All of it, with words in capitals for what a script says.
    form: &'static str,
}

const FORMS: [Form; 21] = [
    Form {
        verb: "set",
        form: "set KEY N",
    },
    Form {
        verb: "file",
        form: "file S NAME TEXT",
    },
    Form {
        verb: "fill",
        form: "fill S NAME N HH",
    },
    Form {
        verb: "put",
        form: "put S SRC DST",
    },
    Form {
        verb: "cancel",
        form: "cancel S ID",
    },
    Form {
        verb: "suspend",
        form: "suspend S ID",
    },
    Form {
        verb: "resume",
        form: "resume S ID",
    },
    Form {
        verb: "prompt",
        form: "prompt S ID nak|keep",
    },
    Form {
        verb: "poll",
        form: "poll S",
    },
    Form {
        verb: "flush",
        form: "flush S",
    },
    Form {
        verb: "tick",
        form: "tick S N",
    },
    Form {
        verb: "deliver",
        form: "deliver S [dir|data] [N]",
    },
    Form {
        verb: "strike",
        form: "strike S [dir|data] [N]",
    },
    Form {
        verb: "damage",
        form: "damage S [dir|data] AT HH",
    },
    Form {
        verb: "spread",
        form: "spread S",
    },
    Form {
        verb: "burst",
        form: "burst S",
    },
    Form {
        verb: "settle",
        form: "settle",
    },
    Form {
        verb: "recover",
        form: "recover",
    },
    Form {
        verb: "overtake",
        form: "overtake S [dir|data] N",
    },
    Form {
        verb: "repeat",
        form: "repeat S [dir|data] N",
    },
    Form {
        verb: "restart",
        form: "restart S [resume]",
    },
];

/// Returns a line that is bad, as it is reported: with the word that is wrong, and what may stand
/// there.
pub fn bad_line(alloc: Global, line: usize, text: &[u8], error: LineError) -> BadLine
    ensures { result.line ≡ line }
{
    let word = wrong_word(text, error);
    BadLine {
        line,
        error,
        word: Quote::of(word),
        hint: hint(alloc, text, word, error).unwrap_or(Hint::Nothing),
    }
}

/// Returns the word of a line that this error is about; nothing if it isn't about one of its words.
fn wrong_word(text: &[u8], error: LineError) -> &[u8] {
    match error {
        LineError::UnknownCommand => word_behind(text, 0),
        LineError::UnknownKey | LineError::UnknownStation => word_behind(text, 1),
        LineError::UnknownLane | LineError::BadId => word_behind(text, 2),
        LineError::BadNumber => word_behind(text, words_before_number(text)),
        LineError::UnknownPrompt | LineError::FileTooLong => word_behind(text, 3),
        LineError::BadOctet => word_behind(text, words_before_number(text) + 1),
        _ => &[],
    }
}

/// Returns how many words stand before the number of a command that has one: a name or a lane may
/// be among them.
fn words_before_number(text: &[u8]) -> u64
    ensures { result < 4 }
{
    let (verb, third) = (word_behind(text, 0), word_behind(text, 2));
    if verb == b"fill".as_slice() || third == b"dir".as_slice() || third == b"data".as_slice() {
        3
    } else {
        2
    }
}

/// Returns the word after `before` words of a line; nothing if there are fewer.
fn word_behind(text: &[u8], before: u64) -> &[u8] {
    let mut rest = text;
    for _ in 0..before {
        match cut_at_first(rest, b' ').1 {
            Some(behind) => rest = behind,
            None => return &[],
        }
    }
    cut_at_first(rest, b' ').0
}

/// Returns what may stand in place of what is wrong in a line.
///
/// # Errors
///
/// `AllocError` if there is no memory to look for the nearest word.
fn hint(alloc: Global, text: &[u8], word: &[u8], error: LineError) -> Result<Hint, AllocError> {
    match error {
        LineError::UnknownCommand => command_hint(alloc, word),
        LineError::UnknownKey => key_hint(alloc, word),
        LineError::MissingWord | LineError::ExtraWord => Ok(form_hint(text)),
        LineError::BadNumber => Ok(number_hint(text)),
        _ => Ok(Hint::Nothing),
    }
}

/// Returns the command that is most like a word.
fn command_hint(alloc: Global, word: &[u8]) -> Result<Hint, AllocError> {
    let mut nearest = Nearest::to(word);
    for form in &FORMS {
        nearest.consider(alloc, form.verb)?;
    }
    match nearest.found() {
        Some(verb) => Ok(Hint::Nearest(Quote::of(verb.as_bytes()))),
        None => Ok(Hint::Help),
    }
}

/// Returns the key that is most like a word, or all keys.
fn key_hint(alloc: Global, word: &[u8]) -> Result<Hint, AllocError> {
    let mut nearest = Nearest::to(word);
    consider_keys(alloc, &mut nearest)?;
    match nearest.found() {
        Some(key) => Ok(Hint::Nearest(Quote::of(key.as_bytes()))),
        None => Ok(Hint::Keys),
    }
}

/// Returns how the command of a line is written.
fn form_hint(text: &[u8]) -> Hint {
    let verb = word_behind(text, 0);
    for form in &FORMS {
        if verb == form.verb.as_bytes() {
            return Hint::Form(Quote::of(form.form.as_bytes()));
        }
    }
    Hint::Nothing
}

/// Returns the range of the setting that a line sets, if it sets one.
fn number_hint(text: &[u8]) -> Hint {
    match parse_setting(word_behind(text, 1)) {
        Some(setting) => Hint::Value(setting),
        None => Hint::Nothing,
    }
}
