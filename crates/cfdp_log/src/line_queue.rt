//! Lines that wait to be written, and how many were lost since there was no room for them.
ghost use Rattle.std.specs.Prelude.{◌≡◌, ◌≤◌, ◌+◌, ◌-◌, ◌==◌, ◌↔◌, [], IfOk, IsTrue, drop};
ghost use Rattle.std.specs.Prelude.{length, vec_capacity, vec_len};
ghost use Rattle.cfdp_log.specs.Queue.{HasRoom, KeepsLine, KeepsOrLoses, LosesLine, TellsLost};
ghost use Rattle.cfdp_log.specs.Queue.{WritesFirst};

use ghost_list::GhostList;
use std::alloc::{AllocError, Global};
use std::io;
use std::io::Write;
use std::marker::Model;

/// The most octets that wait.
pub const MOST_WAITING: usize = 65_536;

/// Whole lines that wait to be written, up to 64 KiB, and how many were lost. Once one was lost no
/// further one is kept until a line reports that: so the lines that are missing in the log are
/// those before that line.
#[derive(Drop)]
pub struct LineQueue {
    octets: Vec<u8>,
    lost: u64,
    // What was written. Only clauses see it.
    written: GhostList<u8>,
}

impl Model for LineQueue {
    ghost use Rattle.std.specs.Prelude.{◌≤◌, vec_capacity};
    ghost use Rattle.cfdp_log.specs.Queue.{QueueState, most_waiting};

    ghost Value = { QueueState };

    ghost view = { λ queue. record {
      written = queue.written;
      waits = queue.octets.items;
      lost = queue.lost;
    } };

    ghost invariant = { λ queue. most_waiting ≤ vec_capacity queue.octets };
}

impl LineQueue {
    /// Returns a queue in which nothing waits, with the memory for all that may.
    ///
    /// # Errors
    ///
    /// `AllocError` if there is no memory.
    pub fn new(alloc: Global) -> Result<LineQueue, AllocError>
        ensures written { IfOk result (λ queue. queue.written ≡ []) }
        ensures waits { IfOk result (λ queue. queue.waits ≡ []) }
        ensures lost { IfOk result (λ queue. queue.lost ≡ 0) }
    {
        Ok(LineQueue {
            octets: Vec::with_capacity(alloc, MOST_WAITING)?,
            lost: 0,
            written: GhostList::new(),
        })
    }

    /// Returns how many octets wait.
    pub fn len(&self) -> usize
        ensures { result ≡ length self.now.waits }
    {
        self.octets.len()
    }

    /// Returns `true` if nothing waits.
    pub fn is_empty(&self) -> bool
        ensures { result ≡ (length self.now.waits == 0) }
    {
        self.octets.is_empty()
    }

    /// Returns how many lines were lost that nothing reports yet.
    pub fn lost(&self) -> u64
        ensures { result ≡ self.now.lost }
    {
        self.lost
    }

    /// Returns `true` if a line of `count` octets would be kept.
    pub fn has_room(&self, count: usize) -> bool
        ensures { IsTrue result ↔ HasRoom self.now count }
    {
        self.lost == 0
            && self.octets.len() <= MOST_WAITING
            && count <= MOST_WAITING - self.octets.len()
    }

    /// Takes a line, with its line feed: it waits after the others, if it is whole and there is
    /// room for it. Otherwise it is lost.
    pub fn take(&mut self, line: &[u8], is_whole: bool)
        ensures { KeepsOrLoses line.now is_whole self.old self.new }
    {
        if is_whole && self.has_room(line.len()) {
            self.add(line);
        } else {
            self.lose();
        }
    }

    /// Adds a line, with its line feed, to what waits, if there is room for it. Otherwise it is
    /// lost.
    pub fn add(&mut self, line: &[u8])
        ensures kept { HasRoom self.old (length line.now) → KeepsLine line.now self.old self.new }
        ensures lost { (HasRoom self.old (length line.now) → ⊥) → LosesLine self.old self.new }
    {
        if self.has_room(line.len()) {
            let _ = self.octets.extend_from_slice(line);
        } else {
            self.lose();
        }
    }

    /// Counts a line as lost.
    pub fn lose(&mut self)
        ensures { LosesLine self.old self.new }
    {
        self.lost = self.lost.saturating_add(1);
    }

    /// Adds a line that says how many were lost. Nothing else may wait.
    pub fn tell_lost(&mut self, line: &[u8])
        requires waits { self.old.waits ≡ [] }
        requires short { length line.now ≤ 65536 }
        ensures { TellsLost line.now self.old self.new }
    {
        let _ = self.octets.extend_from_slice(line);
        self.lost = 0;
    }

    /// Writes at most `most` octets of what waits first, and returns how many were written: the
    /// rest waits.
    ///
    /// # Errors
    ///
    /// That of the writer: nothing was written, and all waits as before.
    pub fn write_first<W: Write>(&mut self, out: &mut W, most: usize) -> io::Result<usize>
        ensures { WritesFirst (W.contents out.old) (W.contents out.new) self.old self.new }
    {
        let most = most.min(self.octets.len());
        let written = out.write(&self.octets[..most])?;
        self.written.put_all(&self.octets[..written]);
        remove_first(&mut self.octets, written);
        Ok(written)
    }
}

/// Removes the first octets.
fn remove_first(octets: &mut Vec<u8>, count: usize)
    requires { count ≤ vec_len octets.old }
    ensures items { octets.new.items ≡ drop count octets.old.items }
    ensures capacity { vec_capacity octets.new ≡ vec_capacity octets.old }
{
    let len = octets.len();
    octets.as_mut_slice().copy_within(count..len, 0);
    octets.truncate(len - count);
}
