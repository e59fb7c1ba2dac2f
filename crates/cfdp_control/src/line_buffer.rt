//! Lines, as their octets come.
ghost use Rattle.std.specs.Prelude.{◌≡◌, ◌≢◌, ◌==◌, ◌+◌, ◌≤◌, ◌++◌, ◌∷◌, [], length, vec_len};
ghost use Rattle.std.specs.Prelude.{false, true, None, Ok, IfNone, IfOk, IsFalse, IsTrue, OnErr};
ghost use Rattle.std.specs.Prelude.{OnOk};

use crate::line::{LineFault, text_of};
use cfdp_report::cut_at_first;
use ghost_list::GhostList;
use std::alloc::{AllocError, Global};

/// The longest line, in octets, without its line feed.
pub const MOST_LINE: usize = 4096;

/// The most octets that are kept: with one more than the longest line has, and no line feed among
/// them, a line is too long.
const MOST_KEPT: usize = MOST_LINE + 1;

/// What is taken of the octets that came.
#[derive(Drop)]
pub enum Taken {
    /// A line, without its line feed.
    Line(Vec<u8>),
    /// The beginning of a line that is too long: it is dropped, and so is its rest as it comes.
    TooLong,
}

/// The octets of a source of lines that came and weren't taken yet.
#[derive(Drop)]
pub struct LineBuffer {
    alloc: Global,
    pub octets: Vec<u8>,
    // Whether what comes is the rest of a line that was too long.
    pub is_skipping: bool,
    // The octets that came before these: they were taken or dropped. Only clauses see them.
    pub gone: GhostList<u8>,
    ghost within: { vec_len octets ≤ 4097 },
    ghost none_waits: { is_skipping ≡ true → octets.items ≡ [] },
}

impl LineBuffer {
    ghost use Rattle.cfdp_console.specs.LastLines.{HasNoEnd};
    ghost use Rattle.cfdp_control.specs.Lines.{Gives, GoesWith, Takes, came_to};

    /// Returns an empty buffer.
    pub fn new(alloc: Global) -> LineBuffer
        ensures gone { result.gone ≡ [] }
        ensures whole { result.is_skipping ≡ false }
    {
        LineBuffer {
            alloc,
            octets: Vec::new(alloc),
            is_skipping: false,
            gone: GhostList::new(),
        }
    }

    /// Returns for how many octets there is room, until lines are taken.
    pub fn room(&self) -> usize
        ensures { result + vec_len self.now.octets ≡ 4097 }
    {
        MOST_KEPT - self.octets.len()
    }

    /// Returns `true` if nothing lies here that wasn't taken.
    pub fn is_empty(&self) -> bool
        ensures { result ≡ (vec_len self.now.octets == 0) }
    {
        self.octets.is_empty()
    }

    /// Returns `true` if something may be taken: a whole line, or one that is too long.
    pub fn has_line(&self) -> bool
        ensures some { IsTrue result → self.now.octets.items ≢ [] }
        ensures none { IsFalse result → HasNoEnd self.now.octets.items }
    {
        self.octets.len() > MOST_LINE || self.octets.as_slice().contains(&b'\n')
    }

    /// Adds octets that came.
    ///
    /// # Errors
    ///
    /// `AllocError` if there is no memory for them.
    pub fn add(&mut self, octets: &[u8]) -> Result<(), AllocError>
        requires { vec_len self.old.octets + length octets.now ≤ 4097 }
        ensures kept { OnOk result (self.old.is_skipping ≡ false →
            self.new.octets.items ≡ self.old.octets.items ++ octets.now) }
        ensures all { OnOk result (came_to self.new ≡ came_to self.old ++ octets.now) }
        ensures err { OnErr result (self.new.octets.items ≡ self.old.octets.items) }
    {
        if !self.is_skipping {
            return self.octets.extend_from_slice(octets);
        }
        match cut_at_first(octets, b'\n') {
            (rest, Some(behind)) => {
                self.octets.extend_from_slice(behind)?;
                self.is_skipping = false;
                self.gone.put_all(rest);
                self.gone.put(&b'\n');
            }
            (rest, None) => self.gone.put_all(rest),
        }
        Ok(())
    }

    /// Takes the next line; `None` if none is whole.
    ///
    /// # Errors
    ///
    /// `AllocError` if there is no memory for it: nothing was taken.
    pub fn take(&mut self) -> Result<Option<Taken>, AllocError>
        ensures taken { IfOk result (λ taken. Takes self.old.octets.items taken
            self.new.octets.items) }
        ensures all { came_to self.new ≡ came_to self.old }
        ensures gone { IfOk result (λ taken. GoesWith self.old.gone taken self.new.gone) }
        ensures none { result ≡ Ok None → self.new ≡ self.old }
        ensures err { OnErr result (self.new.octets.items ≡ self.old.octets.items) }
    {
        let (line, behind) = cut_at_first(self.octets.as_slice(), b'\n');
        if let Some(behind) = behind {
            let line = Vec::from_slice(self.alloc, line)?;
            self.octets = Vec::from_slice(self.alloc, behind)?;
            self.gone.put_all(line.as_slice());
            self.gone.put(&b'\n');
            return Ok(Some(Taken::Line(line)));
        }
        if self.octets.len() <= MOST_LINE {
            return Ok(None);
        }
        self.gone.put_all(self.octets.as_slice());
        self.octets.clear();
        self.is_skipping = true;
        Ok(Some(Taken::TooLong))
    }

    /// Takes the text of the next line; `None` if none is whole. If there is no memory for it, all
    /// that lies here is dropped.
    #[tactic(auto, using(crate::proofs::Giving::gives_text))]
    pub fn next_text(&mut self) -> Option<Result<String, LineFault>>
        ensures given { Gives self.old result self.new }
        ensures none { IfNone result (HasNoEnd self.old.octets.items) }
    {
        match self.take() {
            Ok(Some(taken)) => Some(text_of(taken)),
            Ok(None) => None,
            Err(AllocError) => {
                self.clear();
                Some(Err(LineFault::NoMemory))
            }
        }
    }

    /// Drops what lies here. If the beginning of a line is dropped, its rest is dropped as it
    /// comes.
    pub fn clear(&mut self)
        ensures none { self.new.octets.items ≡ [] }
        ensures all { came_to self.new ≡ came_to self.old }
    {
        self.gone.put_all(self.octets.as_slice());
        if self
            .octets
            .as_slice()
            .last()
            .is_some_and(|octet| *octet != b'\n')
        {
            self.is_skipping = true;
        }
        self.octets.clear();
    }
}
