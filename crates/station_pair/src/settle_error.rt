ghost use Rattle.std.specs.Prelude.{◌≡◌};
ghost use Rattle.station_pair.specs.Errors.{settle_error_number, settle_error_name};

use thiserror::Error;

/// Why settling two stations ended before it was done.
#[derive(Clone, Copy, Debug, PartialEq, Eq, Error)]
pub enum SettleError {
    /// A call found no memory, or a PDU or a frame was dropped since there was none.
    #[error("NoMemory")]
    NoMemory,
    /// A store failed.
    #[error("StoreFailed")]
    StoreFailed,
    /// A PDU was dropped because a table of transactions was full.
    #[error("TableFull")]
    TableFull,
}

impl SettleError {
    /// Returns the number of this error in reports.
    pub fn number(self) -> u8
        ensures { result ≡ settle_error_number self }
    {
        match self {
            SettleError::NoMemory => 1,
            SettleError::StoreFailed => 2,
            SettleError::TableFull => 3,
        }
    }

    /// Returns the name of this error in reports.
    pub fn name(self) -> &'static str
        ensures { result.now ≡ settle_error_name self }
    {
        match self {
            SettleError::NoMemory => "NoMemory",
            SettleError::StoreFailed => "StoreFailed",
            SettleError::TableFull => "TableFull",
        }
    }
}
