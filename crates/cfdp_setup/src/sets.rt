//! What words set: keys, each with its value after it.
ghost use Rattle.std.specs.Prelude.{◌≡◌, map};
ghost use Rattle.std.specs.Result.{result_ok};
ghost use Rattle.cfdp_setup.specs.Sets.{begun, set_all, set_pair};

use crate::station_setup::StationSetup;
use cfdp_report::parse_number;

/// Why a key and the word after it set nothing.
#[derive(Clone, Copy)]
pub enum SetFault<'a> {
    /// The word after this key is no number.
    Number { key: &'a str, word: &'a str },
    /// There is no such key, after which this word stands.
    Key { key: &'a str, word: &'a str },
}

impl StationSetup {
    /// Returns what these words set of a station, keys with a value after each, from what holds
    /// without `--set` on. `is_lesser` says whether its id is less than its peer's, `is_secured`
    /// whether frames are secured.
    ///
    /// # Errors
    ///
    /// The first word that isn't understood.
    pub fn by_words(
        is_lesser: bool,
        is_secured: bool,
        first_number: u64,
        words: &[String],
    ) -> Result<StationSetup, SetFault<'_>>
        ensures { result_ok result ≡ set_all (map (λ word. word.bytes.items) words.now)
            (begun is_lesser is_secured first_number) }
    {
        let start = StationSetup::new(is_lesser)
            .beginning_at(first_number)
            .with_security(is_secured);
        all_set(start, words)
    }
}

/// What is set after these words; each second word is the value of the key before it.
///
/// # Errors
///
/// The first word that isn't understood.
fn all_set(before: StationSetup, words: &[String]) -> Result<StationSetup, SetFault<'_>>
    ensures { result_ok result ≡ set_all (map (λ word. word.bytes.items) words.now) before }
{
    let (mut setup, mut rest) = (before, words);
    while let [key, value, others @ ..] = rest {
        setup = set_one(setup, key.as_str(), value.as_str())?;
        rest = others;
    }
    Ok(setup)
}

/// What is set after one key with its value.
///
/// # Errors
///
/// The word that isn't understood.
fn set_one<'a>(
    before: StationSetup,
    key: &'a str,
    word: &'a str,
) -> Result<StationSetup, SetFault<'a>>
    ensures { result_ok result ≡ set_pair key.now word.now before }
{
    let Some(number) = parse_number(word.as_bytes()) else {
        return Err(SetFault::Number { key, word });
    };
    match before.with_key(key, number) {
        Some(setup) => Ok(setup),
        None => Err(SetFault::Key { key, word }),
    }
}
