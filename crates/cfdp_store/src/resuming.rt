ghost use Rattle.std.specs.Prelude.{◌≡◌, ◌+◌, ◌<◌, ◌^◌, true, false, length, is_ok};
ghost use Rattle.std.specs.Prelude.{Some, IsSome, Ok};
ghost use Rattle.cfdp_header.specs.declared.value.TransactionId.{TransactionId};
ghost use Rattle.cfdp_store.specs.Resuming.{PartCall, Adopt, Read};
ghost use Rattle.cfdp_store.specs.Staged.{OthersKeep, written, staged_for};
ghost use Rattle.cfdp_store.specs.Stores.{failures_after};

use crate::{Inbox, StoreError};
use cfdp_header::TransactionId;

/// An inbox that goes on with what an earlier run staged.
///
/// The *part* of a file is what was staged for its transaction when the earlier run ended. It is
/// adopted, and then what is held of it is read, so that its checksum can be computed again:
///
/// ```text
/// let mut octets = [0; 3];
/// if inbox.adopt(id, 5)? && inbox.read(id, 2, &mut octets)? {
///     assert_eq!(octets, *b"llo");
/// }
/// ```
pub trait ResumingInbox: Inbox {
    /// What a call may do: it leads from one state of the store, with its arguments and its answer,
    /// to another. Here a store may say what is true of this store alone, for example that a read
    /// shows what was staged before.
    ghost resumes: { Self → PartCall → Self → Type 0 } = { λ _ _ _. Unit {0} };

    /// Begins a transaction with the part that an earlier run staged for it, and returns `true`.
    /// Its octets may be written as after `begin`. What an octet of the part is isn't known before
    /// it is read.
    ///
    /// Returns `false` if there is no part, or it has fewer than `end` octets. Nothing changes
    /// then.
    ///
    /// # Errors
    ///
    /// Any `StoreError`, at the store's will. It is counted as a failure, and nothing is known of
    /// what is then staged for this transaction. The part stays, and may be adopted again.
    fn adopt(&mut self, id: TransactionId, end: u64) -> Result<bool, StoreError>
        ensures resumes { resumes self.old (Adopt id end result) self.new }
        ensures staged { result ≡ Ok true → IsSome (Self.staged self.new id) }
        ensures short { result ≡ Ok false → Self.staged self.new ≡ Self.staged self.old }
        ensures others { OthersKeep id (Self.staged self.old) (Self.staged self.new) }
        ensures published { Self.published self.new ≡ Self.published self.old }
        ensures failures { Self.failures self.new
            ≡ failures_after (Self.failures self.old) (is_ok result) };

    /// Reads octets of a transaction, from an offset on, as many as `out` has, and returns `true`.
    /// What was read is staged from then on. The transaction must be begun, as with `write`, or be
    /// adopted.
    ///
    /// Returns `false` if these octets aren't all there. Nothing changes then, but `out` may hold
    /// anything.
    ///
    /// # Errors
    ///
    /// As with `adopt`. `out` may then hold anything.
    fn read(&mut self, id: TransactionId, offset: u64, out: &mut [u8]) -> Result<bool, StoreError>
        requires begun { IsSome (Self.staged self.old id) }
        requires fits { offset + length out.old < 2 ^ 64 }
        ensures resumes { resumes self.old (Read id offset result out.new) self.new }
        ensures staged { result ≡ Ok true → Self.staged self.new id
            ≡ Some (written (staged_for (Self.staged self.old) id) offset out.new) }
        ensures short { result ≡ Ok false → Self.staged self.new ≡ Self.staged self.old }
        ensures others { OthersKeep id (Self.staged self.old) (Self.staged self.new) }
        ensures published { Self.published self.new ≡ Self.published self.old }
        ensures failures { Self.failures self.new
            ≡ failures_after (Self.failures self.old) (is_ok result) };
}
