//! The check of a file whose pieces come in any order.
ghost use Rattle.std.specs.Prelude.{◌≡◌, ◌+◌, ◌-◌, ◌^◌, ◌<◌, length, min};
ghost use Rattle.crc.specs.FileChecks.{written32};
ghost use Rattle.crc.specs.Pieces.{kept_with, nothing_kept};

use crate::Crc32;

/// The check of a file whose pieces come in any order, each octet once. It keeps the remainder of
/// the octets up to the end of the octets that came, with zeros where none came yet. So a piece
/// costs its octets and, if it doesn't follow the last one, some forty products.
#[derive(Clone, Copy, Debug, PartialEq, Eq)]
pub struct FileCheck {
    kind: Crc32,
    end: u64,
    left: u32,
}

impl FileCheck {
    /// Returns the check of a file without octets so far.
    pub fn new(kind: Crc32) -> FileCheck
        ensures { result ≡ nothing_kept kind }
    {
        FileCheck {
            kind,
            end: 0,
            left: kind.start(),
        }
    }

    /// Adds a piece of the file: octets, the first of them at this offset. No octet may come twice.
    pub fn add(&mut self, offset: u64, bytes: &[u8])
        requires { offset + length bytes.now < 2 ^ 64 }
        ensures { self.new ≡ kept_with self.old (record { offset = offset; bytes = bytes.now }) }
    {
        let before = self.before_end(offset, bytes.len());
        let (front, back) = bytes.split_at(before);
        let seam = offset + before as u64;
        let front_left = self.kind.more(0, front);
        let added = self.kind.moved(self.end.saturating_sub(seam), front_left);
        let gap = seam.saturating_sub(self.end);
        let reached = self.kind.moved(gap, self.left ^ added);
        self.left = self.kind.more(reached, back);
        self.end = self.end.max(offset + bytes.len() as u64);
    }

    /// Returns the check of the file. Each octet of the file must have come.
    pub fn value(&self) -> u32
        ensures { result ≡ written32 self.now.kind self.now.left }
    {
        self.kind.written(self.left)
    }

    // Returns how many of so many octets at this offset lie before the end.
    fn before_end(&self, offset: u64, count: usize) -> usize
        ensures { result ≡ min count (self.now.end - offset) }
    {
        let room = self.end.saturating_sub(offset);
        if room < count as u64 {
            room as usize
        } else {
            count
        }
    }
}
