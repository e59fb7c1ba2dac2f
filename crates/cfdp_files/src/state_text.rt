//! The text of a file of reserved numbers.
ghost use Rattle.std.specs.Prelude.{◌≡◌, ℕ, ◌++◌, ◌∷◌, ◌^◌, ◌<◌, List, Option, Some, IfOk, IfSome};
ghost use Rattle.std.specs.Prelude.{IsSomeAnd, decimal, string_bytes};
ghost use Rattle.cfdp_files.specs.declared.reserving.Reserved.{Reserved as AReserved};
ghost use Rattle.cfdp_files.specs.StateText.{AreNumbers, Says, first_text, lines_text, state_text};

use crate::reserving::Reserved;
use cfdp_report::{HexNumber, parse_number};
use crc::Crc32;
use std::alloc::{AllocError, Global};

/// Returns what a file says that reserves these numbers: their lines, and the check of these.
///
/// # Errors
///
/// `AllocError` if there is no memory for it.
pub fn text_of(alloc: Global, reserved: Reserved) -> Result<String, AllocError>
    ensures { IfOk result (λ text. string_bytes text ≡ state_text reserved) }
{
    let lines = lines_of(alloc, reserved)?;
    let (lines, sum) = (lines.as_str(), HexNumber(Crc32::Ieee.of(lines.as_bytes())));
    format!(in alloc; "{lines}sum {sum}\n")
}

/// Returns the lines of the numbers, which older versions wrote without a check.
///
/// # Errors
///
/// `AllocError` if there is no memory for them.
fn lines_of(alloc: Global, reserved: Reserved) -> Result<String, AllocError>
    ensures { IfOk result (λ text. string_bytes text ≡ lines_text reserved) }
{
    let first = first_of(alloc, reserved.accepted)?;
    format!(in alloc;
        "{}numbers {}\nframes {}\n",
        first.as_str(),
        reserved.numbers,
        reserved.frames
    )
}

/// Returns the first line, and with it how far the peer's secured frames were accepted.
///
/// # Errors
///
/// `AllocError` if there is no memory for it.
fn first_of(alloc: Global, accepted: Option<u64>) -> Result<String, AllocError>
    ensures { IfOk result (λ text. string_bytes text ≡ first_text accepted) }
{
    match accepted {
        None => String::from_str(alloc, "cfdp_node station 1\n"),
        Some(number) => format!(in alloc; "cfdp_node station 2\naccepted {number}\n"),
    }
}

/// Returns what a file says that has this text; `None` if no station wrote it.
///
/// # Errors
///
/// `AllocError` if there is no memory to compare it.
pub fn parse(alloc: Global, text: &str) -> Result<Option<Reserved>, AllocError>
    ensures only { IfOk result (λ answer. IfSome answer (Says text.now)) }
    ensures each { (r : AReserved) → AreNumbers r → Says text.now r
        → IfOk result (λ answer. answer ≡ Some r) }
{
    let Some(reserved) = numbers_in(text) else {
        return Ok(None);
    };
    let whole = text_of(alloc, reserved)?;
    if text == whole.as_str() {
        return Ok(Some(reserved));
    }
    let lines = lines_of(alloc, reserved)?;
    if reserved.accepted.is_none() && text == lines.as_str() {
        return Ok(Some(reserved));
    }
    Ok(None)
}

/// Returns the numbers in the lines at the front of a text, if there are such lines.
fn numbers_in(text: &str) -> Option<Reserved>
    ensures { (r : AReserved) (rest : List ℕ) → AreNumbers r
        → text.now ≡ lines_text r ++ rest → result ≡ Some r }
{
    let (accepted, rest) = first_in(text)?;
    let (numbers, rest) = number_behind("numbers ", rest)?;
    let (frames, _rest) = number_behind("frames ", rest)?;
    Some(Reserved {
        numbers,
        frames,
        accepted,
    })
}

/// Returns what the first line of a text says, and what is after that.
fn first_in(text: &str) -> Option<(Option<u64>, &str)>
    ensures { (accepted : Option ℕ) (rest : List ℕ) → IfSome accepted (λ number. number < 2 ^ 64)
        → text.now ≡ first_text accepted ++ rest
        → IsSomeAnd result (λ found. (found.0 ≡ accepted) × (found.1.now ≡ rest)) }
{
    if let Some(rest) = text.strip_prefix("cfdp_node station 1\n") {
        return Some((None, rest));
    }
    let (number, rest) = number_behind("cfdp_node station 2\naccepted ", text)?;
    Some((Some(number), rest))
}

/// Returns the number between this front of a text and the end of its line, and what is after that
/// line.
fn number_behind<'a>(front: &str, text: &'a str) -> Option<(u64, &'a str)>
    ensures { (n : ℕ) (rest : List ℕ) → n < 2 ^ 64
        → text.now ≡ front.now ++ (decimal n ++ (10 ∷ rest))
        → IsSomeAnd result (λ found. (found.0 ≡ n) × (found.1.now ≡ rest)) }
{
    let (word, rest) = text.strip_prefix(front)?.split_once('\n')?;
    Some((parse_number(word.as_bytes())?, rest))
}
