//! The settings file that `--config` names, and the one that `--print-config` prints.
ghost use Rattle.std.specs.Prelude.{◌≡◌, ◌⊎◌, ◌++◌, map, take, drop, IfErr, IfOk, OnOk};

use cfdp_report::cause_text;
use cfdp_settings_file::{
    EXAMPLE, OPTIONS, SettingsError, is_said, key_line, settings_words, value_said,
};
use std::alloc::{AllocError, Global};
use std::{env, fs};

const MISTAKE: u8 = 2;

const DEVICE: u8 = 3;

/// Returns the words of a command line, with those of the settings file that they name, if they ask
/// for a station and name one. The first is the program's name.
///
/// # Errors
///
/// The status with which the process ends: if a settings file was asked for, which went to
/// standard output, or if theirs can't be read or says nothing, as standard error says.
pub fn with_settings(rt: &HostRuntime, words: Vec<String>) -> Result<Vec<String>, u8>
    ensures { IfErr result (λ status. (status ≡ 0) ⊎ (status ≡ 2) ⊎ (status ≡ 3)) }
{
    let said = station_words(words.as_slice());
    if is_said(said, "print-config") {
        return Err(printed_status(rt));
    }
    let joint = match value_said(said, "config") {
        Some(path) => joined(
            rt.alloc(),
            words.as_slice(),
            read(rt, path, said)?.as_slice(),
        ),
        None => return Ok(words),
    };
    match joint {
        Ok(joint) => Ok(joint),
        Err(AllocError) => Err(DEVICE),
    }
}

/// The words after `station`; none if something else is asked for.
fn station_words(words: &[String]) -> &[String] {
    match words {
        [_, command, said @ ..] if command.as_str() == "station" => said,
        _ => &[],
    }
}

/// Prints a settings file with all options. Answers the exit status.
fn printed_status(rt: &HostRuntime) -> u8
    ensures { (result ≡ 0) ⊎ (result ≡ 3) }
{
    match print!(rt; "{EXAMPLE}") {
        Ok(()) => 0,
        Err(_) => DEVICE,
    }
}

/// The words that the settings file of this path says beside those that are said.
///
/// # Errors
///
/// The exit status, if it can't be read or says nothing, as standard error says.
fn read(rt: &HostRuntime, path: &str, said: &[String]) -> Result<Vec<String>, u8>
    ensures { IfErr result (λ status. (status ≡ 2) ⊎ (status ≡ 3)) }
{
    let octets = match fs::read(rt, path) {
        Ok(octets) => octets,
        Err(error) => {
            let _ = eprintln!(rt; "error: {path}: {}", cause_text(error.kind()));
            return Err(DEVICE);
        }
    };
    let text = match str::from_utf8(octets.as_slice()) {
        Ok(text) => text,
        Err(error) => {
            let place = error.valid_up_to();
            let _ = eprintln!(rt; "error: {path}: not valid UTF-8 at octet {place}");
            return Err(DEVICE);
        }
    };
    match settings_words(rt.alloc(), text, &OPTIONS, said) {
        Ok(words) => Ok(words),
        Err(SettingsError::NoMemory) => Err(DEVICE),
        Err(error) => {
            let _ = eprintln!(rt; "error: {path}: {error}");
            Err(MISTAKE)
        }
    }
}

/// The first two words of a command line, those of its settings file, and its others.
///
/// # Errors
///
/// `AllocError` if there is no memory for them.
fn joined(alloc: Global, words: &[String], file: &[String]) -> Result<Vec<String>, AllocError>
    ensures { IfOk result (λ all. map (λ word. word.bytes.items) all.items
        ≡ take 2 (map (λ word. word.bytes.items) words.now)
        ++ (map (λ word. word.bytes.items) file.now
        ++ drop 2 (map (λ word. word.bytes.items) words.now))) }
{
    let (front, others) = words.split_at(words.len().min(2));
    let mut all = Vec::new(alloc);
    push_all(alloc, &mut all, front)?;
    push_all(alloc, &mut all, file)?;
    push_all(alloc, &mut all, others)?;
    Ok(all)
}

/// Puts copies of these words after others.
fn push_all(alloc: Global, all: &mut Vec<String>, words: &[String]) -> Result<(), AllocError>
    ensures { OnOk result (map (λ word. word.bytes.items) all.new.items
        ≡ map (λ word. word.bytes.items) all.old.items
        ++ map (λ word. word.bytes.items) words.now) }
{
    for word in words {
        all.push(String::from_str(alloc, word.as_str())?)?;
    }
    Ok(())
}

/// Says on standard error in which line of the settings file a key stands, if the program was given
/// one that has it, and the command line doesn't say the option or the key itself.
pub fn tell_line(rt: &HostRuntime, key: &str) {
    let Ok(args) = env::args(rt) else {
        return;
    };
    let words: Vec<String> = match args.collect(rt.alloc()) {
        Ok(words) => words,
        Err(AllocError) => return,
    };
    let said = station_words(words.as_slice());
    if let Some(path) = value_said(said, "config")
        && !is_said(said, key)
        && !said.iter().any(|word| word.as_str() == key)
        && let Ok(octets) = fs::read(rt, path)
        && let Ok(text) = str::from_utf8(octets.as_slice())
        && let Some(line) = key_line(text, key)
    {
        let _ = eprintln!(rt; "help: {key} is set in line {line} of {path}");
    }
}

/// Says the same of the option that a mistake names in the first line of its text.
pub fn tell_option_line(rt: &HostRuntime, mistake: &str) {
    let first = mistake.lines().next().unwrap_or("");
    for option in OPTIONS {
        if names(first, option.name) {
            tell_line(rt, option.name);
            return;
        }
    }
}

/// Whether a text has `--NAME` and then a space.
fn names(text: &str, name: &str) -> bool {
    for (place, _) in text.match_indices("--") {
        let behind = text.get(place..).unwrap_or("");
        if let Some(rest) = behind.strip_prefix("--")
            && let Some(rest) = rest.strip_prefix(name)
            && rest.starts_with(' ')
        {
            return true;
        }
    }
    false
}
