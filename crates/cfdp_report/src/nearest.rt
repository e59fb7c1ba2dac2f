//! Which of the words that may stand somewhere is most like the one that does.
use std::alloc::{AllocError, Global};
use strsim::levenshtein;

/// The most letters in which a word may differ from one that is near to it.
const NEAR: usize = 2;

/// A longer word is near to none.
const LONGEST: usize = 32;

/// The search for the word that is most like a given one.
#[derive(Clone, Copy)]
pub struct Nearest<'a> {
    // `None` if it can't be near to any.
    word: Option<&'a str>,
    least: usize,
    found: Option<&'static str>,
}

impl<'a> Nearest<'a> {
    /// Begins the search, before any word is looked at.
    pub fn to(word: &'a [u8]) -> Nearest<'a> {
        let text = if word.len() > LONGEST {
            None
        } else {
            str::from_utf8(word).ok()
        };
        Nearest {
            word: text,
            least: NEAR + 1,
            found: None,
        }
    }

    /// Looks at a word that may stand there.
    ///
    /// # Errors
    ///
    /// `AllocError` if there is no memory.
    pub fn consider(&mut self, alloc: Global, name: &'static str) -> Result<(), AllocError> {
        let Some(word) = self.word else {
            return Ok(());
        };
        let edits = levenshtein(alloc, word, name)?;
        if edits < self.least {
            self.least = edits;
            self.found = Some(name);
        }
        Ok(())
    }

    /// Returns the word that is most like it, if at most two letters differ.
    pub fn found(self) -> Option<&'static str> {
        self.found
    }
}
