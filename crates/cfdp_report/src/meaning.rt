//! What single words of commands mean: a transaction, and what a prompt asks for.
ghost use Rattle.std.specs.Prelude.{◌≡◌};
ghost use Rattle.std.specs.Result.{result_ok};
ghost use Rattle.cfdp_report.specs.Meaning.{asked_of, id_of};

use crate::line_error::LineError;
use crate::number::parse_number;
use crate::words::cut_at_first;
use cfdp_header::TransactionId;

/// Reads a transaction, which must be two numbers with a colon between, such as `1:7`.
///
/// # Errors
///
/// `BadId` if the word is no transaction.
pub fn parse_id(word: &[u8]) -> Result<TransactionId, LineError>
    ensures { result_ok result ≡ id_of word.now }
{
    let (source, behind) = cut_at_first(word, b':');
    let Some(number) = behind else {
        return Err(LineError::BadId);
    };
    match (parse_number(source), parse_number(number)) {
        (Some(source), Some(number)) => Ok(TransactionId { source, number }),
        _ => Err(LineError::BadId),
    }
}

/// Reads whether a prompt asks for a Keep Alive or for a NAK, which must be `keep` or `nak`.
///
/// # Errors
///
/// `UnknownPrompt` if the word is neither.
pub fn parse_asked(word: &[u8]) -> Result<bool, LineError>
    ensures { result_ok result ≡ asked_of word.now }
{
    if word == b"nak".as_slice() {
        Ok(false)
    } else if word == b"keep".as_slice() {
        Ok(true)
    } else {
        Err(LineError::UnknownPrompt)
    }
}
