ghost use Rattle.std.specs.Prelude.{◌≡◌};
ghost use Rattle.station_pair.specs.Errors.{recover_error_number, recover_error_name};
ghost use Rattle.station_pair.specs.declared.recover_error.RecoverError.TheVariants as errors;

use crate::settle_error::SettleError;
use thiserror::Error;

/// Why recovering two stations ended before it was done.
#[derive(Clone, Copy, Debug, PartialEq, Eq, Error)]
pub enum RecoverError {
    /// What ends a settling happened, in a settling or when a station was given the time.
    #[error("{0}")]
    Settle(SettleError),
    /// A timer other than Inactivity is still armed after the most rounds that there may be.
    #[error("StillArmed")]
    StillArmed,
}

impl From<SettleError> for RecoverError {
    ghost from_gives = { λ error e. e ≡ errors.Settle error };

    fn from(error: SettleError) -> RecoverError {
        RecoverError::Settle(error)
    }
}

impl RecoverError {
    /// Returns the number of this error in reports: as for settling, and 4 if it is `StillArmed`.
    pub fn number(self) -> u8
        ensures { result ≡ recover_error_number self }
    {
        match self {
            RecoverError::Settle(error) => error.number(),
            RecoverError::StillArmed => 4,
        }
    }

    /// Returns the name of this error in reports.
    pub fn name(self) -> &'static str
        ensures { result.now ≡ recover_error_name self }
    {
        match self {
            RecoverError::Settle(error) => error.name(),
            RecoverError::StillArmed => "StillArmed",
        }
    }
}
