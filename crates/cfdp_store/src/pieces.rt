// The octets staged for one transaction.
ghost use Rattle.std.specs.FinMap as map;
ghost use Rattle.std.specs.Prelude.{◌≡◌, ℕ, ◌+◌, ◌-◌, ◌<◌, ◌≤◌, ◌^◌, ◌++◌, [], ◌∷◌, length};
ghost use Rattle.std.specs.Prelude.{slice_index};
ghost use Rattle.std.specs.Prelude.{true, false, vec_len, vec_capacity, Some, IfOk, IfSome, IfNone};
ghost use Rattle.std.specs.Prelude.{OnErr, OnOk};
ghost use Rattle.cfdp_store.specs.Pieces.{octets_of};
ghost use Rattle.cfdp_store.specs.Resuming.{AreStaged};
ghost use Rattle.cfdp_store.specs.Staged.{OctetMap, written, front};

use std::alloc::{AllocError, Global};
use std::marker::Model;

/// Octets that were written one after another, the first of them at an offset of the file.
#[derive(Debug, Drop)]
pub struct Piece {
    offset: u64,
    octets: Vec<u8>,
}

/// Appends a piece. There must be room for it.
fn put(pieces: &mut Vec<Piece>, piece: Piece)
    requires { vec_len pieces.old < vec_capacity pieces.old }
    ensures { pieces.new.items ≡ pieces.old.items ++ piece ∷ [] }
{
    let _ = pieces.push(piece);
}

/// Takes off the last piece, if octets at this offset come right after it.
fn take_last(pieces: &mut Vec<Piece>, offset: u64) -> Option<Piece>
    ensures last { IfSome result (λ last. pieces.old.items ≡ pieces.new.items ++ last ∷ []) }
    ensures ends { IfSome result (λ last. offset ≡ last.offset + length last.octets.items) }
    ensures room { IfSome result (λ last. vec_len pieces.new < vec_capacity pieces.new) }
    ensures none { IfNone result (pieces.new.items ≡ pieces.old.items) }
{
    let last = pieces.pop()?;
    if offset >= last.offset && offset - last.offset == last.octets.len() as u64 {
        return Some(last);
    }
    put(pieces, last);
    None
}

/// Takes off the only piece, if it is the first `size` octets.
fn take_whole(pieces: &mut Vec<Piece>, size: u64) -> Option<Vec<u8>>
    ensures whole { IfSome result (λ octets. octets.items
        ≡ front (octets_of pieces.old.items) size) }
    ensures none { IfNone result (pieces.new.items ≡ pieces.old.items) }
{
    let last = pieces.pop()?;
    if pieces.is_empty() && last.offset == 0 && last.octets.len() as u64 == size {
        return Some(last.octets);
    }
    put(pieces, last);
    None
}

/// Octets of a file by their offsets, kept as the pieces in which they were written, the oldest
/// first. If octets are written right after the last piece, they lengthen it. So a file that comes
/// in order is one piece, and octets at a high offset take at most twice the memory that they are.
#[derive(Debug, Drop)]
pub struct Pieces {
    pieces: Vec<Piece>,
    alloc: Global,
}

impl Model for Pieces {
    ghost use Rattle.std.specs.Prelude.{ℕ};
    ghost use Rattle.std.specs.Ordering.{nat_cmp};
    ghost use Rattle.std.specs.Coded.{coded_ℕ};
    ghost use Rattle.std.specs.FinMap as map;
    ghost use Rattle.cfdp_store.specs.Pieces.{octets_of};

    ghost Value = { map.FinMap nat_cmp ℕ };

    ghost coded = { map.code coded_ℕ coded_ℕ };

    ghost view = { λ p. octets_of p.pieces.items };
}

impl Pieces {
    /// Returns no octets. It takes no memory.
    pub fn new(alloc: Global) -> Self
        ensures { result ≡ map.empty }
    {
        Pieces {
            pieces: Vec::new(alloc),
            alloc,
        }
    }

    /// Writes octets from an offset on, over what stands there.
    ///
    /// # Errors
    ///
    /// `AllocError` if there is no memory for them. All is then as before.
    pub fn write(&mut self, offset: u64, octets: &[u8]) -> Result<(), AllocError>
        ensures ok { OnOk result (self.new ≡ written self.old offset octets.now) }
        ensures err { OnErr result (self.new ≡ self.old) }
    {
        let Some(mut last) = take_last(&mut self.pieces, offset) else {
            return self.add(offset, octets);
        };
        let done = last.octets.extend_from_slice(octets);
        put(&mut self.pieces, last);
        done
    }

    /// Writes octets as a piece of their own.
    fn add(&mut self, offset: u64, octets: &[u8]) -> Result<(), AllocError>
        ensures ok { OnOk result (self.new ≡ written self.old offset octets.now) }
        ensures err { OnErr result (self.new ≡ self.old) }
    {
        let octets = Vec::from_slice(self.alloc, octets)?;
        self.pieces.push(Piece { offset, octets })?;
        Ok(())
    }

    /// Returns the first `size` octets, each 0 if it wasn't written. If they came in order, none is
    /// copied.
    ///
    /// # Errors
    ///
    /// `AllocError` if there is no memory for them.
    pub fn into_front(mut self, size: u64) -> Result<Vec<u8>, AllocError>
        ensures { IfOk result (λ octets. octets.items ≡ front self size) }
    {
        match take_whole(&mut self.pieces, size) {
            Some(octets) => Ok(octets),
            None => self.front(size),
        }
    }

    /// Returns the octet at an offset, if it was written.
    pub fn octet_at(&self, at: u64) -> Option<u8>
        ensures { result ≡ map.get self.now at }
    {
        let mut found = None;
        for piece in &self.pieces {
            if let Some(octet) = octet_in(piece, at) {
                found = Some(octet);
            }
        }
        found
    }

    /// Copies octets from an offset on, as many as `out` has, and returns `true` if each of them
    /// was written.
    pub fn read(&self, offset: u64, out: &mut [u8]) -> bool
        requires { offset + length out.old < 2 ^ 64 }
        ensures whole { result ≡ true → written self.now offset out.new ≡ self.now }
        ensures staged { result ≡ true → AreStaged offset (length out.new) (Some self.now) }
        ensures lacks { result ≡ false → AreStaged offset (length out.new) (Some self.now) → ⊥ }
    {
        for at in 0..out.len() {
            match self.octet_at(offset + at as u64) {
                Some(octet) => out[at] = octet,
                None => return false,
            }
        }
        true
    }

    fn front(&self, size: u64) -> Result<Vec<u8>, AllocError>
        ensures { IfOk result (λ octets. octets.items ≡ front self.now size) }
    {
        let mut octets = vec![in self.alloc; 0u8; size as usize]?;
        for piece in &self.pieces {
            copy_into(&mut octets, piece.offset, &piece.octets);
        }
        Ok(octets)
    }
}

/// Returns the octet at an offset of the file, if a piece has it.
fn octet_in(piece: &Piece, at: u64) -> Option<u8>
    ensures has { IfSome result (λ octet. (m : OctetMap) →
        map.get (written m piece.now.offset piece.now.octets.items) at ≡ Some octet) }
    ensures lacks { IfNone result ((m : OctetMap) →
        map.get (written m piece.now.offset piece.now.octets.items) at ≡ map.get m at) }
{
    if at < piece.offset {
        return None;
    }
    let index = (at - piece.offset) as usize;
    if piece.octets.len() <= index {
        return None;
    }
    Some(piece.octets[index])
}

/// Copies a piece into `octets` from the offset `offset` on, as far as it reaches.
fn copy_into(octets: &mut [u8], offset: u64, piece: &[u8])
    ensures below { (k : ℕ) → k < offset → slice_index octets.new k ≡ slice_index octets.old k }
    ensures within { (k : ℕ) → offset ≤ k → k < offset + length piece.now → k < length octets.old
        → slice_index octets.new k ≡ slice_index piece.now (k - offset) }
    ensures behind { (k : ℕ) → offset + length piece.now ≤ k
        → slice_index octets.new k ≡ slice_index octets.old k }
{
    let start = octets.len().min(offset as usize);
    let len = piece.len().min(octets.len() - start);
    octets[start..start + len].copy_from_slice(&piece[..len]);
}
