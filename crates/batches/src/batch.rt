ghost use Rattle.std.specs.Prelude.{◌≡◌, ◌+◌, ◌++◌, ◌<◌, ◌≤◌, ℕ, List, length, take, drop};
ghost use Rattle.std.specs.Prelude.{IfSome, IsSomeAnd};
ghost use Rattle.batches.specs.Batch.{batch, FitsBatch};

use cfd_bits::{put_bytes, put_eight, put_four, read_eight, read_four};
use crc::Crc32;

/// Octets of a batch before its text: the text's length, and its check.
pub const HEAD_LEN: usize = 12;

/// Returns the text of the batch at the front of `bytes`, or `None` if no batch stands there.
///
/// The next batch, if there is one, begins [`HEAD_LEN`] octets after as many octets as the text
/// has.
pub fn first_batch(bytes: &[u8]) -> Option<&[u8]>
    ensures found { IfSome result (λ text. FitsBatch text.now
        × (bytes.now ≡ batch text.now ++ drop (12 + length text.now) bytes.now)) }
    ensures only { (text rest : List ℕ) → FitsBatch text → bytes.now ≡ batch text ++ rest
        → IsSomeAnd result (λ found. found.now ≡ text) }
{
    if bytes.len() <= HEAD_LEN {
        return None;
    }
    let count = read_eight(bytes) as usize;
    let check = read_four(&bytes[8..]);
    if count == 0 || bytes.len() - HEAD_LEN < count {
        return None;
    }
    let text = &bytes[HEAD_LEN..HEAD_LEN + count];
    if Crc32::Castagnoli.of(text) == check {
        Some(text)
    } else {
        None
    }
}

/// Writes the batch of a text from octet `at` on, and returns the offset of its end. There must be
/// room for it. The octets before and after it stay. An empty text has no batch: [`first_batch`]
/// finds none.
pub fn write_batch(out: &mut [u8], at: usize, text: &[u8]) -> usize
    requires room { at + 12 + length text.now ≤ length out.old }
    ensures end { result ≡ at + 12 + length text.now }
    ensures front { take result out.new ≡ take at out.old ++ batch text.now }
    ensures behind { drop result out.new ≡ drop result out.old }
{
    let checked = put_eight(out, at, text.len() as u64);
    let begun = put_four(out, checked, Crc32::Castagnoli.of(text));
    put_bytes(out, begun, text)
}
