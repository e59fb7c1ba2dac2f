ghost use Rattle.std.specs.Prelude.{◌≡◌};
ghost use Rattle.cfdp_directives.specs.declared.pdu.error.PduError.TheVariants as errors;
ghost use Rattle.cfdp_directives.specs.Pdu.Faults.{pdu_refusal_number, pdu_refusal_name};

use cfdp_header::HeaderError;
use thiserror::Error;

/// Why octets are no PDU: the first cause that holds, in the order that [`decode`](crate::decode)
/// names.
#[derive(Clone, Copy, Debug, PartialEq, Eq, Error)]
pub enum PduError {
    /// The header is refused. It is checked first.
    #[error("{0}")]
    Header(HeaderError),
    /// The directive code isn't known, or an ACK is neither of EOF nor of Finished.
    #[error("unknown directive code")]
    Directive,
    /// A field of the data field passes its end, or the last requested range of a NAK does.
    #[error("a field runs past the end of the data field")]
    Truncated,
    /// Octets are left over after an ACK, a Prompt or a Keep Alive.
    #[error("extra octets after the last field")]
    Trailing,
    /// The octets of the options aren't whole options.
    #[error("a TLV option is incomplete")]
    Tlv,
    /// The condition is 12 or 13.
    #[error("condition code must not be 12 or 13")]
    Condition,
}

impl From<HeaderError> for PduError {
    ghost from_gives = { λ h e. e ≡ errors.Header h };

    fn from(e: HeaderError) -> PduError {
        PduError::Header(e)
    }
}

impl PduError {
    /// Returns the number of this refusal in reports.
    pub fn number(self) -> u8
        ensures { result ≡ pdu_refusal_number self }
    {
        match self {
            PduError::Header(e) => e.number(),
            PduError::Directive => 7,
            PduError::Truncated => 8,
            PduError::Trailing => 9,
            PduError::Tlv => 10,
            PduError::Condition => 11,
        }
    }

    /// Returns the name of this refusal in reports: the name of the variant, or of the header's
    /// refusal.
    pub fn name(self) -> &'static str
        ensures { result.now ≡ pdu_refusal_name self }
    {
        match self {
            PduError::Header(e) => e.name(),
            PduError::Directive => "Directive",
            PduError::Truncated => "Truncated",
            PduError::Trailing => "Trailing",
            PduError::Tlv => "Tlv",
            PduError::Condition => "Condition",
        }
    }
}
