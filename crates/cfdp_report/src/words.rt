// Lines and words.
ghost use Rattle.std.specs.Prelude.{◌≡◌, ◌≢◌, ◌∷◌, ◌++◌, [], All, MatchOption, is_some};
ghost use Rattle.std.specs.Option.{option_map, option_map_or};
ghost use Rattle.std.specs.Result.{result_ok};
ghost use Rattle.cfdp_report.specs.Words.{parts, words_of, left, next_word, nothing_of};
ghost use Rattle.cfdp_report.specs.Words.{text_of, one_of, two_of, three_of, four_of};
ghost use Rattle.cfdp_report.specs.Words.{without_return};

use crate::line_error::LineError;

/// Returns what stands before the first `separator`, and what stands after it. Returns all, and
/// `None`, if there is no separator.
pub fn cut_at_first(text: &[u8], separator: u8) -> (&[u8], Option<&[u8]>)
    ensures parts { MatchOption result.1 (result.0.now ≡ text.now)
        (λ behind. text.now ≡ result.0.now ++ separator ∷ behind.now) }
    ensures first { All (λ octet. octet ≢ separator) result.0.now }
    ensures split { parts separator text.now
        ≡ result.0.now ∷ option_map_or (λ behind. parts separator behind.now) result.1 [] }
{
    match text.iter().position(|octet| *octet == separator) {
        Some(at) => (&text[..at], Some(&text[at + 1..])),
        None => (text, None),
    }
}

/// What is left to read of a line of words with one space between.
#[derive(Clone, Copy)]
pub struct Words<'a> {
    // `None` after the last word.
    rest: Option<&'a [u8]>,
}

impl<'a> Words<'a> {
    /// Returns the words of this line.
    pub fn of(line: &'a [u8]) -> Words<'a>
        ensures { left result ≡ words_of line.now }
    {
        Words { rest: Some(line) }
    }

    /// Returns `true` if no word is left.
    pub fn is_empty(&self) -> bool
        ensures { result ≡ is_some (nothing_of (left self.now)) }
    {
        self.rest.is_none()
    }

    /// Takes the next word.
    ///
    /// # Errors
    ///
    /// `MissingWord` after the last one, `EmptyWord` if it has no octet: two spaces stand together,
    /// or one begins or ends the line.
    pub fn next_word(&mut self) -> Result<&'a [u8], LineError>
        ensures { option_map (λ word. (word.now, left self.new)) (result_ok result)
            ≡ next_word (left self.old) }
    {
        let Some(rest) = self.rest else {
            return Err(LineError::MissingWord);
        };
        let (word, behind) = cut_at_first(rest, b' ');
        self.rest = behind;
        if word.is_empty() {
            Err(LineError::EmptyWord)
        } else {
            Ok(word)
        }
    }

    /// Returns the only word that is left.
    ///
    /// # Errors
    ///
    /// `MissingWord` if there is none, `EmptyWord` if it has no octet, and `ExtraWord` if there are
    /// more.
    pub fn one(mut self) -> Result<&'a [u8], LineError>
        ensures { option_map (λ word. word.now) (result_ok result) ≡ one_of (left self.entry) }
    {
        let word = self.next_word()?;
        self.end()?;
        Ok(word)
    }

    /// Returns the only two words that are left.
    ///
    /// # Errors
    ///
    /// As for `one`, if there are fewer words or more.
    pub fn two(mut self) -> Result<(&'a [u8], &'a [u8]), LineError>
        ensures { option_map (λ words. (words.0.now, words.1.now)) (result_ok result)
            ≡ two_of (left self.entry) }
    {
        let first = self.next_word()?;
        let second = self.one()?;
        Ok((first, second))
    }

    /// Returns the only three words that are left.
    ///
    /// # Errors
    ///
    /// As for `one`, if there are fewer words or more.
    pub fn three(mut self) -> Result<(&'a [u8], &'a [u8], &'a [u8]), LineError>
        ensures { option_map (λ words. (words.0.now, words.1.now, words.2.now)) (result_ok result)
            ≡ three_of (left self.entry) }
    {
        let first = self.next_word()?;
        let (second, third) = self.two()?;
        Ok((first, second, third))
    }

    /// Returns the only four words that are left.
    ///
    /// # Errors
    ///
    /// As for `one`, if there are fewer words or more.
    pub fn four(mut self) -> Result<(&'a [u8], &'a [u8], &'a [u8], &'a [u8]), LineError>
        ensures { option_map (λ words. (words.0.now, words.1.now, words.2.now, words.3.now))
            (result_ok result) ≡ four_of (left self.entry) }
    {
        let first = self.next_word()?;
        let (second, third, fourth) = self.three()?;
        Ok((first, second, third, fourth))
    }

    /// Returns the rest of the line as it stands, spaces and all.
    ///
    /// # Errors
    ///
    /// `MissingWord` if nothing is left.
    pub fn into_text(self) -> Result<&'a [u8], LineError>
        ensures { option_map (λ text. text.now) (result_ok result) ≡ text_of (left self.entry) }
    {
        let Some(text) = self.rest else {
            return Err(LineError::MissingWord);
        };
        if text.is_empty() {
            return Err(LineError::MissingWord);
        }
        Ok(text)
    }

    /// Checks that nothing is left.
    ///
    /// # Errors
    ///
    /// `ExtraWord` if something is, and `EmptyWord` if that is a word without an octet.
    pub fn end(self) -> Result<(), LineError>
        ensures { result_ok result ≡ nothing_of (left self.entry) }
    {
        match self.rest {
            Some(rest) => Err(extra_word(rest)),
            None => Ok(()),
        }
    }
}

/// Returns what is wrong with a word that is too many.
fn extra_word(rest: &[u8]) -> LineError {
    if rest.is_empty() || rest[0] == b' ' {
        LineError::EmptyWord
    } else {
        LineError::ExtraWord
    }
}

/// Returns a line without the carriage return that ends it, if one does.
pub fn without_return(line: &[u8]) -> &[u8]
    ensures { result.now ≡ without_return line.now }
{
    if !line.is_empty() && line[line.len() - 1] == b'\r' {
        &line[..line.len() - 1]
    } else {
        line
    }
}
