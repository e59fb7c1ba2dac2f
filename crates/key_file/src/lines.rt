//! Lines of keys.
ghost use Rattle.std.specs.Prelude.{◌≡◌, ◌↔◌, Some, IfOk, IfSome, OnOk, codes};
ghost use Rattle.key_file.specs.declared.draft.Direction.TheVariants.{Send, Receive};
ghost use Rattle.key_file.specs.Apart.{Adds, AreApart, IsDraft, IsSpi};
ghost use Rattle.key_file.specs.declared.draft.Direction.{Direction as ADirection};
ghost use Rattle.key_file.specs.Text.{AddsLine, AreWordsOf, IsFileOf, SayKey, SpellsSpi, before_comment, direction_word};

use crate::draft::{Direction, Draft};
use crate::fault::{KeyFileError, KeyLineFault};
use frame_security::{LinkKeys, NamedKey};
use hex::FromHex;

/// The greatest SPI that a user may choose; the standard reserves 0 and 65,535 (CCSDS 355.0-B-2,
/// Security Header).
const MOST_SPI: u16 = 65_534;

/// Returns the keys that a text has: one to send with, and one or two to receive with, the latest
/// first. A line must be an SPI, 1 to 65,534, `send` or `receive`, and a key of 64
/// hexadecimal digits. `#` begins a comment, and a line may be empty.
///
/// # Errors
///
/// `Line` for the first line that is wrong; `NoSend` or `NoReceive` if a direction has no key.
pub fn parse(text: &str) -> Result<LinkKeys, KeyFileError>
    ensures apart { IfOk result AreApart }
    ensures says { IfOk result (IsFileOf text.now) }
{
    let mut draft = Draft::EMPTY;
    let mut line: u64 = 0;
    for words in text.lines() {
        line = line.saturating_add(1);
        if let Err(fault) = add_line(&mut draft, words) {
            return Err(KeyFileError::Line { line, fault });
        }
    }
    draft.keys()
}

/// Adds the key of a line, if it has one.
fn add_line(draft: &mut Draft, line: &str) -> Result<(), KeyLineFault>
    ensures apart { IsDraft draft.old → OnOk result (IsDraft draft.new) }
    ensures adds { OnOk result (AddsLine line.now draft.old draft.new) }
{
    let Some((spi, direction, key)) = words_in(before_comment(line))? else {
        return Ok(());
    };
    let (direction, key) = key_in(spi, direction, key)?;
    draft.add(direction, key)
}

/// Returns what a line says, without its comment, if it has one.
fn before_comment(line: &str) -> &str
    ensures { result.now ≡ before_comment line.now }
{
    match line.split_once('#') {
        Some((text, _comment)) => text,
        None => line,
    }
}

/// Returns the three words of a text; `None` if it has no word.
///
/// # Errors
///
/// `Words` if it has another number of words.
fn words_in(text: &str) -> Result<Option<(&str, &str, &str)>, KeyLineFault>
    ensures { IfOk result (AreWordsOf text.now) }
{
    let mut words = text.split_whitespace();
    let Some(spi) = words.next() else {
        return Ok(None);
    };
    let (Some(direction), Some(key), None) = (words.next(), words.next(), words.next()) else {
        return Err(KeyLineFault::Words);
    };
    Ok(Some((spi, direction, key)))
}

/// Returns the key that three words say, and what it is for.
///
/// # Errors
///
/// `Spi`, `Direction` or `Key`, by the first word that says none.
fn key_in(spi: &str, direction: &str, key: &str) -> Result<(Direction, NamedKey), KeyLineFault>
    ensures apart { IfOk result (λ entry. IsSpi entry.1.spi) }
    ensures says { IfOk result (λ it. SayKey spi.now direction.now key.now it.0 it.1) }
{
    let spi = parse_spi(spi).ok_or(KeyLineFault::Spi)?;
    let direction = parse_direction(direction).ok_or(KeyLineFault::Direction)?;
    let key = <[u8; 32] as FromHex>::from_hex(key).map_err(|_| KeyLineFault::Key)?;
    Ok((direction, NamedKey { spi, key }))
}

/// Returns the SPI that decimal digits spell.
fn parse_spi(word: &str) -> Option<u16>
    ensures apart { IfSome result IsSpi }
    ensures spells { IfSome result (SpellsSpi word.now) }
{
    if word.starts_with('+') {
        return None;
    }
    match word.parse::<u16>() {
        Ok(spi) if (1..=MOST_SPI).contains(&spi) => Some(spi),
        _ => None,
    }
}

/// Returns the direction that a word names.
fn parse_direction(word: &str) -> Option<Direction>
    ensures { (d : ADirection) → (result ≡ Some d) ↔ (word.now ≡ direction_word d) }
{
    match word {
        "send" => Some(Direction::Send),
        "receive" => Some(Direction::Receive),
        _ => None,
    }
}
