//! What pairs of words set: the keys of settings, each with its value after it.
ghost use Rattle.std.specs.Prelude.{◌≡◌, map, IfOk, OnErr};
ghost use Rattle.std.specs.Result.{result_ok};
ghost use Rattle.cfdp_command_line.specs.Sets.{CannotBeSet, IsSetBy, set_all, set_by};

use cfdp_report::{
    Hint, LineError, Nearest, Quote, Setting, Settings, consider_keys, parse_number, parse_setting,
};
use station_pair::WorldConfig;
use std::alloc::{AllocError, Global};
use valid_config::Valid;

/// Why words set no configuration of two stations.
#[derive(Clone, Copy)]
pub enum SetError<'a> {
    /// There is no such key, after which this value stands.
    Key { key: &'a str, value: &'a str },
    /// The value after this key is no number.
    Number { key: &'a str, value: &'a str },
    /// This value of the setting is out of its range.
    OutOfRange(Setting, u64),
    /// The stations can't be set up so.
    Misfit,
}

impl SetError<'_> {
    /// Prints it on standard error, in one line.
    pub fn tell(self, rt: &HostRuntime) {
        let _ = match self {
            SetError::Key { key, value } => {
                let (error, hint) = (LineError::UnknownKey, key_hint(rt.alloc(), key));
                eprintln!(rt; "error: --set {key} {value}: {error}{hint}")
            }
            SetError::Number { key, value } => {
                let (error, hint) = (LineError::BadNumber, value_hint(key));
                eprintln!(rt; "error: --set {key} {value}: {error}{hint}")
            }
            SetError::OutOfRange(setting, value) => {
                let (key, range) = (setting.key(), setting.range());
                eprintln!(rt; "error: {key} must be {range} (got {value})")
            }
            SetError::Misfit => eprintln!(rt; "error: these settings do not fit together"),
        };
    }
}

/// What may stand in the place of this word, which is no key.
fn key_hint(alloc: Global, word: &str) -> Hint {
    match nearest_key(alloc, word) {
        Ok(Some(key)) => Hint::Nearest(Quote::of(key.as_bytes())),
        Ok(None) | Err(AllocError) => Hint::Keys,
    }
}

/// The key that is most like a word, if one is near to it.
fn nearest_key(alloc: Global, word: &str) -> Result<Option<&'static str>, AllocError> {
    let mut nearest = Nearest::to(word.as_bytes());
    consider_keys(alloc, &mut nearest)?;
    Ok(nearest.found())
}

/// Which values this key takes.
fn value_hint(key: &str) -> Hint {
    match parse_setting(key.as_bytes()) {
        Some(setting) => Hint::Value(setting),
        None => Hint::Nothing,
    }
}

/// Returns the configuration of both stations of a loop that these words set: keys, each with its
/// value after it.
///
/// # Errors
///
/// The first word that isn't understood; otherwise the first setting that is out of its range.
pub fn configuration(words: &[String]) -> Result<Valid<WorldConfig>, SetError<'_>>
    ensures set { IfOk result (IsSetBy (map (λ word. word.bytes.items) words.now)) }
    ensures refused { OnErr result (CannotBeSet (map (λ word. word.bytes.items) words.now)) }
{
    let settings = match all_set(Settings::DEFAULT, words) {
        Ok(settings) => settings,
        Err(error) => return Err(error),
    };
    match settings.config() {
        Some(config) => Ok(config),
        None => Err(misfit(&settings)),
    }
}

/// Why no stations can be set up by these settings.
fn misfit<'a>(settings: &Settings) -> SetError<'a> {
    match settings.out_of_range() {
        Some((setting, value)) => SetError::OutOfRange(setting, value),
        None => SetError::Misfit,
    }
}

/// The settings after these words; each second word is the value of the key before it.
///
/// # Errors
///
/// The first word that isn't understood.
fn all_set(before: Settings, words: &[String]) -> Result<Settings, SetError<'_>>
    ensures { result_ok result ≡ set_all (map (λ word. word.bytes.items) words.now) before }
{
    let (mut settings, mut rest) = (before, words);
    while let [key, value, others @ ..] = rest {
        settings = set_one(settings, key.as_str(), value.as_str())?;
        rest = others;
    }
    Ok(settings)
}

/// The settings after one key with its value.
///
/// # Errors
///
/// The word that isn't understood.
fn set_one<'a>(before: Settings, key: &'a str, value: &'a str) -> Result<Settings, SetError<'a>>
    ensures { result_ok result ≡ set_by key.now value.now before }
{
    let Some(setting) = parse_setting(key.as_bytes()) else {
        return Err(SetError::Key { key, value });
    };
    let Some(number) = parse_number(value.as_bytes()) else {
        return Err(SetError::Number { key, value });
    };
    let mut settings = before;
    settings.set(setting, number);
    Ok(settings)
}
