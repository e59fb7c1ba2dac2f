//! Why the system refused an address, in the words of an operator.
ghost use Rattle.std.specs.Prelude.{◌≡◌, ◌⊎◌, ◌↔◌, IsTrue};

use cfdp_report::cause_text;
use std::io::ErrorKind;

/// Returns why an address can't be used that was said on a command line.
pub fn address_cause(kind: ErrorKind) -> &'static str {
    match kind {
        ErrorKind::InvalidInput | ErrorKind::InvalidData => {
            "an address must be HOST:PORT, e.g. 127.0.0.1:5001, with a port of 0 to 65535"
        }
        ErrorKind::NotFound | ErrorKind::Other | ErrorKind::Uncategorized => {
            "host not found (an address must be HOST:PORT, e.g. 127.0.0.1:5001)"
        }
        kind => cause_text(kind),
    }
}

/// Returns `true` if the system refused an address because no address is written so: a mistake of
/// whoever gave it, which stays one however often it is tried.
pub fn is_malformed(kind: ErrorKind) -> bool
    ensures { IsTrue result ↔ ((kind ≡ ErrorKind.InvalidInput) ⊎ (kind ≡ ErrorKind.InvalidData)) }
{
    kind == ErrorKind::InvalidInput || kind == ErrorKind::InvalidData
}
