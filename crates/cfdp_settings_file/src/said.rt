//! What the words of a command line say themselves.
ghost use Rattle.std.specs.Prelude.{◌≡◌, map, option_map};
ghost use Rattle.cfdp_settings_file.specs.Said as said;

/// Returns `true` if an option of this name stands among these words, with or without a value after
/// an equals sign. After the word `--` none is an option.
pub fn is_said(words: &[String], name: &str) -> bool
    ensures { result ≡ said.is_said name.now (map (λ word. word.bytes.items) words.now) }
{
    for word in words {
        if word.as_str() == "--" {
            return false;
        }
        if says(word.as_bytes(), name.as_bytes()) {
            return true;
        }
    }
    false
}

/// Whether a word is `--NAME` or begins with `--NAME=`.
fn says(word: &[u8], name: &[u8]) -> bool
    ensures { result ≡ said.says name.now word.now }
{
    match behind(word, name) {
        Some([]) => true,
        Some([b'=', ..]) => true,
        _ => false,
    }
}

/// What stands after `--NAME` in a word that begins so.
fn behind<'a>(word: &'a [u8], name: &[u8]) -> Option<&'a [u8]>
    ensures { option_map (λ rest. rest.now) result ≡ said.behind name.now word.now }
{
    word.strip_prefix(b"--".as_slice())?.strip_prefix(name)
}

/// Returns the value of the first option of this name among these words: after an equals sign, or
/// else the next word, unless that is an option.
pub fn value_said<'a>(words: &'a [String], name: &str) -> Option<&'a str> {
    let mut is_next = false;
    for word in words {
        let word = word.as_str();
        if is_next {
            return if word.starts_with('-') {
                None
            } else {
                Some(word)
            };
        }
        if word == "--" {
            return None;
        }
        match text_behind(word, name) {
            Some("") => is_next = true,
            Some(value) if value.starts_with('=') => return value.strip_prefix("="),
            _ => {}
        }
    }
    None
}

/// Returns what `behind` returns, as text.
fn text_behind<'a>(word: &'a str, name: &str) -> Option<&'a str> {
    word.strip_prefix("--")?.strip_prefix(name)
}
