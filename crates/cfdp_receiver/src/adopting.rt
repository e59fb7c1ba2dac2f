// The part of a file that an earlier run staged: how it is adopted and read again.
ghost use Rattle.std.specs.Prelude.{◌≡◌, ◌+◌, ◌<◌, ◌≤◌, ◌^◌, ℕ, true, false, length, is_ok, Ok};
ghost use Rattle.std.specs.Prelude.{Some, IfOk, IfSome, IfNone, IsSome};
ghost use Rattle.std.specs.FinSet as set;
ghost use Rattle.cfdp_directives.specs.Pdu.Sums.{summed};
ghost use Rattle.cfdp_extents.specs.Offsets.{Offsets};
ghost use Rattle.cfdp_receiver.specs.Summed.{IsAdopted, SumsBelow};
ghost use Rattle.cfdp_store.specs.Staged.{OthersKeep, staged_for, written};
ghost use Rattle.cfdp_store.specs.Stores.{failures_after};

use cfdp_directives::{ChecksumKind, Checksums, cut_file_has_its_checksum};
use cfdp_extents::{Extents, a_set_is_what_it_holds};
use cfdp_header::TransactionId;
use cfdp_store::{ResumingInbox, StoreError, written_octets_stand};

/// Adopts the part of a file that an earlier run staged for a transaction, reads what is held of
/// it, and returns the sums of that for the known checksum type, or for all types. It is read in
/// pieces, each at most as long as `buffer`, which must take one octet at least.
///
/// If nothing is held, the transaction is begun again, without that part.
///
/// Returns `None` if there is no part, or it lacks something that is held.
///
/// # Errors
///
/// Any `StoreError` of the inbox.
pub fn adopt_held<I: ResumingInbox>(
    inbox: &mut I,
    id: TransactionId,
    wanted: &Option<ChecksumKind>,
    held: &Extents,
    buffer: &mut [u8],
) -> Result<Option<Checksums>, StoreError>
    requires room { 1 ≤ length buffer.old }
    ensures adopted { IfOk result (λ sums. IfSome sums
        (IsAdopted wanted.now held.now (I.staged inbox.new id))) }
    ensures others { OthersKeep id (I.staged inbox.old) (I.staged inbox.new) }
    ensures published { I.published inbox.new ≡ I.published inbox.old }
    ensures failures { I.failures inbox.new
        ≡ failures_after (I.failures inbox.old) (is_ok result) }
{
    cut_file_has_its_checksum();
    if held.is_empty() {
        inbox.begin(id)?;
        return Ok(Some(Checksums::new()));
    }
    if !inbox.adopt(id, held.end())? {
        return Ok(None);
    }
    sums_of_held(inbox, id, wanted, held, buffer)
}

// Reads what is held of a file whose transaction is begun, and returns its sums; `None` if some of
// it isn't there.
fn sums_of_held<I: ResumingInbox>(
    inbox: &mut I,
    id: TransactionId,
    wanted: &Option<ChecksumKind>,
    held: &Extents,
    buffer: &mut [u8],
) -> Result<Option<Checksums>, StoreError>
    requires begun { IsSome (I.staged inbox.old id) }
    requires room { 1 ≤ length buffer.old }
    ensures adopted { IfOk result (λ sums. IfSome sums
        (IsAdopted wanted.now held.now (I.staged inbox.new id))) }
    ensures others { OthersKeep id (I.staged inbox.old) (I.staged inbox.new) }
    ensures published { I.published inbox.new ≡ I.published inbox.old }
    ensures failures { I.failures inbox.new
        ≡ failures_after (I.failures inbox.old) (is_ok result) }
{
    cut_file_has_its_checksum();
    a_set_is_what_it_holds();
    let mut sums = Checksums::new();
    for (start, end) in held.ranges() {
        if !add_range(inbox, id, wanted, start, end, &mut sums, buffer)? {
            return Ok(None);
        }
    }
    Ok(Some(sums))
}

// Reads the octets of a file from an offset up to another one, and adds them; returns `false` if
// some of them aren't there.
fn add_range<I: ResumingInbox>(
    inbox: &mut I,
    id: TransactionId,
    wanted: &Option<ChecksumKind>,
    start: u64,
    end: u64,
    sums: &mut Checksums,
    buffer: &mut [u8],
) -> Result<bool, StoreError>
    requires begun { IsSome (I.staged inbox.old id) }
    requires room { 1 ≤ length buffer.old }
    requires ascends { start ≤ end }
    ensures begun { result ≡ Ok true → IsSome (I.staged inbox.new id) }
    ensures added { result ≡ Ok true → (held : Offsets) →
        SumsBelow wanted.now held start (staged_for (I.staged inbox.old) id) sums.old
        → ((n : ℕ) → start ≤ n → n < end → set.contains held n ≡ true)
        → SumsBelow wanted.now held end (staged_for (I.staged inbox.new) id) sums.new }
    ensures others { OthersKeep id (I.staged inbox.old) (I.staged inbox.new) }
    ensures published { I.published inbox.new ≡ I.published inbox.old }
    ensures failures { I.failures inbox.new
        ≡ failures_after (I.failures inbox.old) (is_ok result) }
{
    cut_file_has_its_checksum();
    written_octets_stand();
    let mut at = start;
    while at < end {
        let count = (end - at).min(buffer.len() as u64);
        if !add_piece(inbox, id, wanted, at, sums, &mut buffer[..count as usize])? {
            return Ok(false);
        }
        at += count;
    }
    Ok(true)
}

// Reads the octets of a file from an offset on that fill `buffer`, and adds them; returns `false`
// if some of them aren't there.
fn add_piece<I: ResumingInbox>(
    inbox: &mut I,
    id: TransactionId,
    wanted: &Option<ChecksumKind>,
    at: u64,
    sums: &mut Checksums,
    buffer: &mut [u8],
) -> Result<bool, StoreError>
    requires begun { IsSome (I.staged inbox.old id) }
    requires limit { at + length buffer.old < 2 ^ 64 }
    ensures staged { result ≡ Ok true → I.staged inbox.new id
        ≡ Some (written (staged_for (I.staged inbox.old) id) at buffer.new) }
    ensures sums { result ≡ Ok true → sums.new
        ≡ summed wanted.now sums.old (record { offset = at; bytes = buffer.new }) }
    ensures others { OthersKeep id (I.staged inbox.old) (I.staged inbox.new) }
    ensures published { I.published inbox.new ≡ I.published inbox.old }
    ensures failures { I.failures inbox.new
        ≡ failures_after (I.failures inbox.old) (is_ok result) }
{
    if !inbox.read(id, at, buffer)? {
        return Ok(false);
    }
    sums.add(*wanted, at, buffer);
    Ok(true)
}
