// File data on its way into the inbox, and into the checksum.
ghost use Rattle.std.specs.Prelude.{◌≡◌, [], ◌∷◌, ◌+◌, ◌-◌, ◌<◌, ◌^◌, IsSome, length, take, drop};
ghost use Rattle.std.specs.List.{All};
ghost use Rattle.cfdp_extents.specs.Offsets.{LiesIn};
ghost use Rattle.cfdp_directives.specs.Pdu.Sums.{all_summed};
ghost use Rattle.cfdp_receiver.specs.Pieces.{pieces_in, new_pieces};
ghost use Rattle.cfdp_receiver.specs.State.{kind_told};
ghost use Rattle.cfdp_receiver.specs.Does.{StagesAll};

use crate::receiver::Receiver;
use cfdp_directives::{ChecksumKind, Checksums};
use cfdp_extents::Gaps;
use cfdp_header::TransactionId;
use cfdp_store::{Inbox, Stored};

/// Returns the octets in a range, of file data from an offset on.
fn piece(offset: u64, bytes: &[u8], start: u64, end: u64) -> &[u8]
    requires fits { offset + length bytes.now < 2 ^ 64 }
    requires inside { LiesIn offset (offset + length bytes.now) (start, end) }
    ensures { result.now ≡ take (end - start) (drop (start - offset) bytes.now) }
{
    let (_, behind) = bytes.split_at((start - offset) as usize);
    let (piece, _) = behind.split_at((end - start) as usize);
    piece
}

/// Stages a piece of file data.
fn stage_piece<I: Inbox>(inbox: &mut I, id: TransactionId, start: u64, piece: &[u8]) -> Stored
    requires begun { IsSome (I.staged inbox.old id) }
    ensures { StagesAll I.Inbox result id (record { offset = start; bytes = piece.now } ∷ [])
        inbox.old inbox.new }
{
    match inbox.write(id, start, piece) {
        Ok(()) => Stored::Done,
        Err(_) => Stored::Refused,
    }
}

/// Stages those octets of file data that lie in gaps, by a write for each gap.
pub(crate) fn stage<I: Inbox>(
    inbox: &mut I,
    id: TransactionId,
    gaps: Gaps<'_>,
    offset: u64,
    bytes: &[u8],
) -> Stored
    requires begun { IsSome (I.staged inbox.old id) }
    requires fits { offset + length bytes.now < 2 ^ 64 }
    requires inside { All (LiesIn offset (offset + length bytes.now)) gaps }
    ensures { StagesAll I.Inbox result id (pieces_in offset bytes.now gaps.entry)
        inbox.old inbox.new }
{
    for (start, end) in gaps {
        let piece = piece(offset, bytes, start, end);
        match stage_piece(inbox, id, start, piece) {
            Stored::Done => {}
            Stored::Refused => return Stored::Refused,
        }
    }
    Stored::Done
}

impl Receiver {
    /// Returns what is kept for the checksum, if those octets of file data came that aren't held.
    pub(crate) fn sums_with(&self, offset: u64, bytes: &[u8]) -> Checksums
        requires fits { offset + length bytes.now < 2 ^ 64 }
        ensures { result ≡ all_summed (kind_told self.now.metadata) self.now.sums
            (new_pieces self.now.held offset bytes.now) }
    {
        let end = offset + bytes.len() as u64;
        let gaps = self.held.missing_in(offset, end);
        let wanted = self.checksum_kind();
        sums_of_gaps(self.sums, &wanted, gaps, offset, bytes)
    }
}

/// Returns what is kept for the checksum of the known type, or for all types, if those octets of
/// file data came that lie in gaps.
fn sums_of_gaps(
    before: Checksums,
    wanted: &Option<ChecksumKind>,
    gaps: Gaps<'_>,
    offset: u64,
    bytes: &[u8],
) -> Checksums
    requires fits { offset + length bytes.now < 2 ^ 64 }
    requires inside { All (LiesIn offset (offset + length bytes.now)) gaps }
    ensures { result ≡ all_summed wanted.now before (pieces_in offset bytes.now gaps.entry) }
{
    let mut sums = before;
    for (start, end) in gaps {
        sums.add(*wanted, start, piece(offset, bytes, start, end));
    }
    sums
}
