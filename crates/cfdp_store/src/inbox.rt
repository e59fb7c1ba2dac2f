ghost use Rattle.std.specs.Prelude.{◌≡◌, ℕ, Option, Some, None, is_ok, IsSome, OnOk, OnErr};
ghost use Rattle.std.specs.FinMap as map;
ghost use Rattle.cfdp_header.specs.declared.value.TransactionId.{TransactionId};
ghost use Rattle.cfdp_store.specs.Calls.{InboxCall, Begin, Write, Publish, Discard};
ghost use Rattle.cfdp_store.specs.Stores.{failures_after};
ghost use Rattle.cfdp_header.specs.Files.{FileMap};
ghost use Rattle.cfdp_store.specs.Staged.{OctetMap, Covers, OthersKeep, written, front, staged_for};

use crate::StoreError;
use cfdp_header::TransactionId;

/// A place that takes received files.
///
/// The octets of a file come in any order, so they are staged first, for the transaction that
/// brings them. Once all of them are there, the file is published under its name, and only then do
/// others see it. A name is a list of octets, and so is what a file has in it.
pub trait Inbox: Drop {
    /// The octets of each published file by its name. Of these calls only a `publish` that answers
    /// `Ok` changes them.
    ghost published: { Self → FileMap };

    /// The octets staged for a transaction, by their offsets in the file. `None` if nothing may be
    /// written for it: it wasn't begun, was published or discarded since, or a call of it failed
    /// since.
    ghost staged: { Self → TransactionId → Option OctetMap };

    /// How many calls failed.
    ghost failures: { Self → ℕ };

    /// What a call may do: it leads from one state of the store, with its arguments and its answer,
    /// to another. Here a store may say what is true of this store alone, for example that it fails
    /// only if memory runs out. If a store wraps another, it says here that the answer is the
    /// other's own, after one call of it.
    ghost steps: { Self → InboxCall → Self → Type 0 } = { λ _ _ _. Unit {0} };

    /// Begins a transaction, with nothing staged for it. What was staged for it before is dropped.
    ///
    /// # Errors
    ///
    /// Any `StoreError`, at the store's will. It is counted as a failure, and nothing is known of
    /// what is then staged for this transaction.
    fn begin(&mut self, id: TransactionId) -> Result<(), StoreError>
        ensures steps { steps self.old (Begin id result) self.new }
        ensures staged { OnOk result (staged self.new id ≡ Some map.empty) }
        ensures others { OthersKeep id (staged self.old) (staged self.new) }
        ensures published { published self.new ≡ published self.old }
        ensures failures { failures self.new ≡ failures_after (failures self.old) (is_ok result) };

    /// Stages octets of a transaction, the first of them at an offset of its file. They replace
    /// what was staged there. The transaction must be begun: its last `begin` answered `Ok`, and no
    /// call of it failed, published or discarded since.
    ///
    /// # Errors
    ///
    /// As with `begin`.
    fn write(&mut self, id: TransactionId, offset: u64, octets: &[u8]) -> Result<(), StoreError>
        requires { IsSome (staged self.old id) }
        ensures steps { steps self.old (Write id offset octets.now result) self.new }
        ensures staged { OnOk result (staged self.new id
            ≡ Some (written (staged_for (staged self.old) id) offset octets.now)) }
        ensures others { OthersKeep id (staged self.old) (staged self.new) }
        ensures published { published self.new ≡ published self.old }
        ensures failures { failures self.new ≡ failures_after (failures self.old) (is_ok result) };

    /// Publishes the first `size` staged octets of a transaction under a name, in place of the file
    /// that has it, if there is one. The transaction must be begun, as with `write`, and all these
    /// octets must have been written. What is staged for it is dropped.
    ///
    /// # Errors
    ///
    /// As with `begin`. The published files are then as before.
    fn publish(&mut self, id: TransactionId, name: &[u8], size: u64) -> Result<(), StoreError>
        requires begun { IsSome (staged self.old id) }
        requires whole { Covers size (staged_for (staged self.old) id) }
        ensures steps { steps self.old (Publish id name.now size result) self.new }
        ensures ok { OnOk result (published self.new
            ≡ map.insert (published self.old) name.now
            (front (staged_for (staged self.old) id) size)) }
        ensures err { OnErr result (published self.new ≡ published self.old) }
        ensures staged { OnOk result (staged self.new id ≡ None) }
        ensures others { OthersKeep id (staged self.old) (staged self.new) }
        ensures failures { failures self.new ≡ failures_after (failures self.old) (is_ok result) };

    /// Discards what is staged for a transaction, if anything is.
    ///
    /// # Errors
    ///
    /// As with `begin`.
    fn discard(&mut self, id: TransactionId) -> Result<(), StoreError>
        ensures steps { steps self.old (Discard id result) self.new }
        ensures staged { OnOk result (staged self.new id ≡ None) }
        ensures others { OthersKeep id (staged self.old) (staged self.new) }
        ensures published { published self.new ≡ published self.old }
        ensures failures { failures self.new ≡ failures_after (failures self.old) (is_ok result) };

    /// Returns how many calls failed so far. If the count is the greatest `u64`, it stays so.
    fn failures(&self) -> u64
        ensures { result ≡ failures self.now };
}
