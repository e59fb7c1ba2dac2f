use crate::line_error::LineError;
use std::alloc::AllocError;

/// Why a line was not read.
#[derive(Clone, Copy)]
pub enum Unread {
    /// It is bad.
    Bad(LineError),
    /// There is no memory for what it holds.
    NoMemory,
}

impl From<LineError> for Unread {
    ghost use Rattle.std.specs.Prelude.{◌≡◌};
    ghost use Rattle.cfdp_report.specs.declared.unread.Unread.TheVariants.{Bad};

    ghost from_gives = { λ error unread. unread ≡ Bad error };

    fn from(error: LineError) -> Unread {
        Unread::Bad(error)
    }
}

impl From<AllocError> for Unread {
    ghost use Rattle.std.specs.Prelude.{◌≡◌};
    ghost use Rattle.cfdp_report.specs.declared.unread.Unread.TheVariants.{NoMemory};

    ghost from_gives = { λ _ unread. unread ≡ NoMemory };

    fn from(_error: AllocError) -> Unread {
        Unread::NoMemory
    }
}
