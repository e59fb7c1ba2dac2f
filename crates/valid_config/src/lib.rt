//! Configurations that are checked once: a call that takes a [`Valid`] one can't get another.
//!
//! Settings that may be invalid are a [`Config`]. Its fields are public, and anything can be
//! written into them. `validate` returns it as a `Valid` one, or names an invalid field if there is
//! one:
//!
//! ```text
//! let config = StationConfig::new(entity, down, up).validate()?;
//! let station = Station::new(alloc, config, outbox, inbox)?;
//! ```
//!
//! Tested by `tests/transcripts/setups.txt`, through the crates above.
#![tactic(auto)]

ghost use Rattle.std.specs.Prelude.{◌≡◌, ◌↔◌, Ok, IsOk, IfOk, IfErr, MatchOption};

use std::alloc::AllocError;
use std::marker::Model;

/// Settings that may be invalid.
pub trait Config: Copy {
    /// Names a field.
    type Field: Copy;

    /// Each field is valid.
    ghost IsValid: { Self → Type 0 };

    /// This field is valid.
    ghost Fits: { Self.Field → Self → Type 0 };

    /// Returns an invalid field; `None` exactly if the configuration is valid.
    fn amiss(&self) -> Option<Self::Field>
        ensures { MatchOption result (IsValid self.now)
            (λ field. (IsValid self.now → ⊥) × (Fits field self.now → ⊥)) };

    /// Returns the same configuration as a valid one.
    ///
    /// # Errors
    ///
    /// An invalid field if there is one: the field that `amiss` names.
    fn validate(self) -> Result<Valid<Self>, Self::Field>
        ensures ok { IfOk result (λ valid. valid ≡ self) }
        ensures only { IsOk result ↔ IsValid self }
        ensures err { IfErr result (λ field. Fits field self → ⊥) }
    {
        match self.amiss() {
            None => Ok(Valid { config: self }),
            Some(field) => Err(field),
        }
    }
}

/// A configuration that is valid. Clauses see the configuration itself.
#[derive(Debug)]
pub struct Valid<C: Config> {
    config: C,
}

impl<C: Config> Model for Valid<C> {
    ghost Value = { C };

    ghost view = { λ v. v.config };

    ghost inverse = { λ c. record { config = c } };

    ghost invariant = { λ v. C.IsValid v.config };
}

impl<C: Config> Copy for Valid<C> {}

impl<C: Config> Clone for Valid<C> {
    fn clone(&self) -> Result<Self, AllocError>
        ensures { result ≡ Ok self.now }
    {
        Ok(*self)
    }
}

impl<C: Config> Valid<C> {
    /// Returns a configuration that the caller must know to be valid, for example if it is a part
    /// of another valid one.
    pub fn known(config: C) -> Self
        requires { C.IsValid config }
        ensures { result ≡ config }
    {
        Valid { config }
    }

    /// Returns the configuration.
    pub fn get(self) -> C
        ensures is { result ≡ self }
        ensures valid { C.IsValid result }
    {
        self.config
    }
}
