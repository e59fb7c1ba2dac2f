// The pairs of a NAK.
ghost use Rattle.std.specs.Prelude.{◌≡◌, ◌≤◌, Bool, [], Some, None, length, if◌then◌else◌};
ghost use Rattle.std.specs.List.{All};
ghost use Rattle.cfdp_extents.specs.Offsets.{LiesIn};
ghost use Rattle.cfdp_directives.specs.Pdu.Codes.{size_limit};
ghost use Rattle.cfdp_receiver.specs.Asked.{pairs_of, with_metadata, IsFilled, IsWritable, AsksFor};
ghost use Rattle.cfdp_receiver.specs.Missing.{asked};

use cfdp_directives::SegmentRequests;
use cfdp_extents::Gaps;

/// The most pairs of one NAK.
const MOST_PAIRS: usize = 32;

/// What one NAK asks for, out of all that is missing.
#[derive(Clone, Copy)]
pub(crate) struct Asked {
    pub(crate) pairs: [(u64, u64); 32],
    // How many of them count.
    pub(crate) count: usize,
    // The end of the last of them.
    pub(crate) end: u64,
    // `true` if more is missing.
    pub(crate) more: bool,
}

impl Asked {
    /// Asks for nothing, or for Metadata.
    pub(crate) fn new(metadata: bool) -> Asked
        ensures asks { AsksFor (with_metadata metadata []) result }
        ensures filled { IsFilled result }
        ensures writable { (large : Bool) → IsWritable large result }
    {
        Asked {
            pairs: [(0, 0); 32],
            count: usize::from(metadata),
            end: 0,
            more: false,
        }
    }

    /// Asks for the first of these gaps, and before them for Metadata if `metadata` is set.
    pub(crate) fn of(metadata: bool, gaps: Gaps<'_>, start: u64, limit: u64) -> Asked
        requires inside { All (LiesIn start limit) gaps }
        ensures asks { AsksFor (with_metadata metadata gaps.entry) result }
        ensures filled { IsFilled result }
        ensures writable { (large : Bool) → limit ≤ size_limit large → IsWritable large result }
    {
        let mut asked = Asked::new(metadata);
        for (from, to) in gaps {
            if asked.count == MOST_PAIRS {
                asked.more = true;
                return asked;
            }
            asked.pairs[asked.count] = (from, to);
            asked.count += 1;
            asked.end = to;
        }
        asked
    }

    /// Returns the pairs.
    pub(crate) fn pairs(&self) -> SegmentRequests<'_>
        requires { IsFilled self.now }
        ensures { result ≡ pairs_of self.now }
    {
        SegmentRequests::of(&self.pairs[..self.count])
    }

    /// Returns the end of the NAK's scope, if nothing is missing from this limit on.
    pub(crate) fn scope_end(&self, limit: u64) -> u64
        ensures { result ≡ (if self.now.more then self.now.end else limit) }
    {
        if self.more { self.end } else { limit }
    }

    /// Returns the offset from which the next NAK is due, if more is missing.
    pub(crate) fn next_cursor(&self) -> Option<u64>
        ensures { result ≡ (if self.now.more then Some self.now.end else None) }
    {
        if self.more { Some(self.end) } else { None }
    }
}

/// Returns how many pairs one NAK has for these gaps, and for Metadata if it is asked for too.
pub(crate) fn count_asked(metadata: bool, gaps: Gaps<'_>) -> usize
    ensures count { result ≡ length (asked (with_metadata metadata gaps.entry)) }
    ensures few { result ≤ 32 }
{
    let mut count = usize::from(metadata);
    for _gap in gaps {
        if count == MOST_PAIRS {
            return count;
        }
        count += 1;
    }
    count
}
