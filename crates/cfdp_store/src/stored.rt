ghost use Rattle.std.specs.Prelude.{◌≡◌};
ghost use Rattle.cfdp_store.specs.Stores.{stored_by};

use crate::StoreError;

/// Whether a store did what a step of a transaction asked of it.
#[derive(Clone, Copy, Debug, PartialEq, Eq)]
pub enum Stored {
    /// Each call that the step rests on answered `Ok`, or none was made.
    Done,
    /// A call answered an error.
    Refused,
}

impl Stored {
    /// Returns `Done` if one call's answer is `Ok`.
    pub fn of(answer: Result<(), StoreError>) -> Stored
        ensures { result ≡ stored_by answer }
    {
        match answer {
            Ok(()) => Stored::Done,
            Err(_) => Stored::Refused,
        }
    }
}
