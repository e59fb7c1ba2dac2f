// The sums of a front of a file, made again by reading it.
ghost use Rattle.std.specs.Prelude.{◌≡◌, ◌+◌, ◌<◌, ◌≤◌, ◌^◌, length, take, drop, is_ok, Some};
ghost use Rattle.std.specs.Prelude.{IfOk, OnOk, IsSome, IsTrue};
ghost use Rattle.std.specs.FinMap as map;
ghost use Rattle.cfdp_directives.specs.Pdu.Sums.{SumsFit, summed};
ghost use Rattle.cfdp_store.specs.Files.{octets_in};
ghost use Rattle.cfdp_store.specs.Rereading.{Rereads};
ghost use Rattle.cfdp_store.specs.Stores.{failures_after};
ghost use Rattle.cfdp_sender.specs.Inputs.{front_sums};

use cfdp_directives::{ChecksumKind, Checksums, checksums_go_on};
use cfdp_store::{Outbox, StoreError};

/// Reads the first octets of a file of the outbox, up to an offset, and returns what a sender keeps
/// of them for the checksum of this type. They are read in pieces, each as long as `buffer`, which
/// must take one octet at least.
///
/// # Errors
///
/// Any `StoreError` of the outbox.
pub fn sums_of_front<O: Outbox>(
    outbox: &mut O,
    kind: ChecksumKind,
    name: &[u8],
    end: u64,
    buffer: &mut [u8],
) -> Result<Checksums, StoreError>
    requires there { 0 < end → IsSome (map.get (O.files outbox.old) name.now) }
    requires within { end ≤ length (octets_in (O.files outbox.old) name.now) }
    requires room { 1 ≤ length buffer.old }
    ensures sums { IfOk result (λ sums. IsTrue (O.stands outbox.new)
        → sums ≡ front_sums kind (take end (octets_in (O.files outbox.new) name.now))) }
    ensures fits { IfOk result SumsFit }
    ensures rereads { Rereads (O.stands outbox.old) (O.stands outbox.new) (O.files outbox.old)
        (O.files outbox.new) }
    ensures failures { O.failures outbox.new
        ≡ failures_after (O.failures outbox.old) (is_ok result) }
{
    checksums_go_on();
    let mut sums = Checksums::new();
    let mut at = 0;
    while at < end {
        let count = (end - at).min(buffer.len() as u64);
        add_piece(
            outbox,
            kind,
            name,
            at,
            &mut sums,
            &mut buffer[..count as usize],
        )?;
        at += count;
    }
    Ok(sums)
}

// Reads the octets of a file from an offset on that fill `buffer`, and adds them.
fn add_piece<O: Outbox>(
    outbox: &mut O,
    kind: ChecksumKind,
    name: &[u8],
    at: u64,
    sums: &mut Checksums,
    buffer: &mut [u8],
) -> Result<(), StoreError>
    requires there { IsSome (map.get (O.files outbox.old) name.now) }
    requires within { at + length buffer.old ≤ length (octets_in (O.files outbox.old) name.now) }
    requires limit { at + length buffer.old < 2 ^ 64 }
    ensures sums { OnOk result (sums.new ≡ summed (Some kind) sums.old (record {
      offset = at;
      bytes = take (length buffer.old) (drop at (octets_in (O.files outbox.new) name.now));
    })) }
    ensures fits { OnOk result (SumsFit sums.new) }
    ensures rereads { Rereads (O.stands outbox.old) (O.stands outbox.new) (O.files outbox.old)
        (O.files outbox.new) }
    ensures failures { O.failures outbox.new
        ≡ failures_after (O.failures outbox.old) (is_ok result) }
{
    outbox.read(name, at, buffer)?;
    sums.add(Some(kind), at, buffer);
    Ok(())
}
