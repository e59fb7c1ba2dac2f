ghost use Rattle.std.specs.Prelude.{◌≡◌, ℕ, ◌+◌, ◌≤◌, Bool, List, true, length, take, drop};
ghost use Rattle.std.specs.Prelude.{is_ok, is_some, IsSome, IsTrue, IfOk, OnErr, OnOk};
ghost use Rattle.std.specs.FinMap as map;
ghost use Rattle.std.specs.Option.{option_map};
ghost use Rattle.cfdp_store.specs.Files.{octets_in};
ghost use Rattle.cfdp_store.specs.Calls.{Looked, OutboxCall, Len, Read};
ghost use Rattle.cfdp_store.specs.Rereading.{LooksFor, Rereads};
ghost use Rattle.cfdp_store.specs.Stores.{failures_after};
ghost use Rattle.cfdp_header.specs.Files.{FileMap};

use crate::StoreError;

/// A place that has the files to send, by their names.
///
/// A name is a list of octets, and so is what a file has in it. Nothing here changes a file, and
/// its length stays. If others can change what is in it, as on a disk, a read may show that they
/// did: then the files stand no more, and what rests on them is promised no more.
pub trait Outbox: Drop {
    /// The octets of each file by its name. If a read shows other octets, they are put here.
    ghost files: { Self → FileMap };

    /// Whether the files stood still so far: all that was read is what they had from the start. No
    /// code can read it. It never rises. The files of a store in memory always stand.
    ghost stands: { Self → Bool } = { λ _. true };

    /// How many calls failed.
    ghost failures: { Self → ℕ };

    /// What a call may do: it leads from one state of the store, with its arguments and its answer,
    /// to another. Here a store may say what is true of this store alone, for example that it never
    /// fails. If a store wraps another, it says here that the answer is the other's own, after one
    /// call of it.
    ghost steps: { Self → OutboxCall → Self → Type 0 } = { λ _ _ _. Unit {0} };

    /// Returns how many octets the file of that name has; `None` if there is no such file.
    ///
    /// # Errors
    ///
    /// Any `StoreError`, at the store's will. It is counted as a failure, and nothing else changes.
    fn len(&mut self, name: &[u8]) -> Result<Option<u64>, StoreError>
        ensures steps { steps self.old (Len name.now result) self.new }
        ensures answer { IfOk result (λ len. len
            ≡ option_map length (map.get (files self.old) name.now)) }
        ensures files { files self.new ≡ files self.old }
        ensures stands { stands self.new ≡ stands self.old }
        ensures failures { failures self.new ≡ failures_after (failures self.old) (is_ok result) };

    /// Reads octets of a file, from an offset on, as many as `out` has. The file must be there and
    /// have them all: the caller must know it from `len`.
    ///
    /// # Errors
    ///
    /// Any `StoreError`, at the store's will. It is counted as a failure. `out` may then hold
    /// anything.
    fn read(&mut self, name: &[u8], offset: u64, out: &mut [u8]) -> Result<(), StoreError>
        requires there { IsSome (map.get (files self.old) name.now) }
        requires within { offset + length out.old ≤ length (octets_in (files self.old) name.now) }
        ensures steps { steps self.old (Read name.now offset out.old result out.new) self.new }
        ensures octets { OnOk result (out.new
            ≡ take (length out.old) (drop offset (octets_in (files self.new) name.now))) }
        ensures rereads { Rereads (stands self.old) (stands self.new) (files self.old)
            (files self.new) }
        ensures failures { failures self.new ≡ failures_after (failures self.old) (is_ok result) };

    /// Returns how many calls failed so far. If the count is the greatest `u64`, it stays so.
    fn failures(&self) -> u64
        ensures { result ≡ failures self.now };
}

/// An outbox whose files always stand still, as files in memory do: no read shows others.
pub trait SteadyOutbox: Outbox {
    /// Its files stand.
    ghost steady: { (o : Self) → IsTrue (Self.stands o) };
}

/// An outbox of files that others make and change, such as files in a folder. It has the file of a
/// name once it has looked for it, as it was then.
pub trait SeekingOutbox: Outbox {
    /// What a look for the file of a name may do: it leads from one state of the store, with the
    /// name and the answer, to another. Here a store may say what is true of this store alone, for
    /// example which names it takes.
    ghost answers: { Self → List ℕ → Looked → Self → Type 0 } = { λ _ _ _ _. Unit {0} };

    /// Looks for the file of a name, and returns `true` if there is one. It is looked for again if
    /// the outbox had it already, so nothing may be sending it.
    ///
    /// # Errors
    ///
    /// Any `StoreError`, at the store's will. It is counted as a failure, and nothing else changes.
    fn look_for(&mut self, name: &[u8]) -> Result<bool, StoreError>
        ensures answers { answers self.old name.now result self.new }
        ensures has { IfOk result (λ has. has ≡ is_some (map.get (Self.files self.new) name.now)) }
        ensures looks { LooksFor name.now (Self.stands self.old) (Self.stands self.new)
            (Self.files self.old) (Self.files self.new) }
        ensures err { OnErr result ((Self.files self.new ≡ Self.files self.old)
            × (Self.stands self.new ≡ Self.stands self.old)) }
        ensures failures { Self.failures self.new
            ≡ failures_after (Self.failures self.old) (is_ok result) };
}
