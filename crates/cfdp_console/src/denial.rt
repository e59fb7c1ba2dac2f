//! Why a request is denied.
use http::StatusCode;
use serde_json::Error;
use std::alloc::AllocError;

/// Why a request is denied. Nothing was asked of the station then.
#[derive(Clone, Copy, PartialEq, Eq)]
pub enum Denial {
    /// There is nothing at its path.
    NotFound,
    /// Its method isn't one of that path.
    WrongMethod,
    /// It was sent to a foreign name, or by a page of another site.
    Foreign,
    /// It doesn't show the token.
    NoToken,
    /// Its body doesn't say what it must say.
    BadBody,
    /// There is no memory for it.
    NoMemory,
}

impl Denial {
    /// Returns the status of HTTP.
    pub fn status(self) -> StatusCode {
        match self {
            Denial::NotFound => StatusCode::NOT_FOUND,
            Denial::WrongMethod => StatusCode::METHOD_NOT_ALLOWED,
            Denial::Foreign => StatusCode::FORBIDDEN,
            Denial::NoToken => StatusCode::UNAUTHORIZED,
            Denial::BadBody => StatusCode::BAD_REQUEST,
            Denial::NoMemory => StatusCode::SERVICE_UNAVAILABLE,
        }
    }

    /// Returns what it says, in one line.
    pub fn meaning(self) -> &'static str {
        match self {
            Denial::NotFound => "nothing at this path",
            Denial::WrongMethod => "wrong method for this path",
            Denial::Foreign =>
                "sent to another host name, or by a page of another site: use the address in \
                 digits, or localhost",
            Denial::NoToken =>
                "no token, or a wrong one: send the header Authorization: Bearer TOKEN",
            Denial::BadBody =>
                "the body must be JSON with source, and optionally destination and first; names \
                 must have no space",
            Denial::NoMemory => "out of memory",
        }
    }
}

impl From<AllocError> for Denial {
    ghost use Rattle.std.specs.Prelude.{◌≡◌};
    ghost use Rattle.cfdp_console.specs.declared.denial.Denial.TheVariants.{NoMemory};

    ghost from_gives = { λ _ denial. denial ≡ NoMemory };

    fn from(_error: AllocError) -> Denial {
        Denial::NoMemory
    }
}

impl From<Error> for Denial {
    ghost use Rattle.std.specs.Prelude.{◌≡◌, ◌⊎◌};
    ghost use Rattle.serde_json.specs.Errors.{IsMemory};
    ghost use Rattle.cfdp_console.specs.declared.denial.Denial.TheVariants.{BadBody, NoMemory};

    ghost from_gives = { λ error denial.
        (denial ≡ NoMemory) ⊎ ((denial ≡ BadBody) × ¬ (IsMemory error)) };

    fn from(error: Error) -> Denial {
        if error.is_memory() {
            Denial::NoMemory
        } else {
            Denial::BadBody
        }
    }
}
