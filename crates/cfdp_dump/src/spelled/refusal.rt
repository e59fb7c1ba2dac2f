//! Why a line of a dump spells nothing.
ghost use Rattle.std.specs.Prelude.{◌≡◌, Some};
ghost use Rattle.cfdp_dump.specs.Spelled.Refusal.{refusal_text};

use crate::spelled::form::DumpForm;
use crate::spelled::shape::FrameShape;
use aos_frame::FrameError;
use cfdp_directives::PduError;
use std::fmt;

/// Why a line of a dump is no PDU, or no frame.
#[derive(Clone, Copy)]
pub enum LineRefusal {
    /// It isn't pairs of hexadecimal digits.
    Hex,
    /// Its octets are no PDU.
    Pdu(PduError),
    /// Its octets are no frame.
    Frame(FrameError),
}

impl fmt::Display for LineRefusal {
    ghost output = { λ refusal. Some (refusal_text refusal) };

    fn fmt<W: fmt::Write>(&self, f: &mut fmt::Formatter<W>) -> fmt::Result {
        write!(f, "error {} {}", self.number(), self.name())
    }
}

impl LineRefusal {
    fn number(self) -> u8
        ensures { result ≡ Rattle.cfdp_dump.specs.Spelled.Refusal.refusal_number self }
    {
        match self {
            LineRefusal::Hex => 0,
            LineRefusal::Pdu(error) => error.number(),
            LineRefusal::Frame(error) => error.number(),
        }
    }

    fn name(self) -> &'static str
        ensures { result.now ≡ Rattle.cfdp_dump.specs.Spelled.Refusal.refusal_name self }
    {
        match self {
            LineRefusal::Hex => "Hex",
            LineRefusal::Pdu(error) => error.name(),
            LineRefusal::Frame(error) => error.name(),
        }
    }
}

/// Why so many octets are no frame of a shape.
#[derive(Clone, Copy)]
pub struct FrameRefusal {
    /// Why they are none.
    pub error: FrameError,
    /// What such a frame is made of.
    pub shape: FrameShape,
    /// How many octets there are.
    pub count: usize,
    /// How it is shown.
    pub form: DumpForm,
}

/// Says why they are none. If details are shown, a refused length comes with how many octets there
/// are and how many such a frame has.
impl fmt::Display for FrameRefusal {
    ghost use Rattle.cfdp_dump.specs.Spelled.Refusal.{frame_fault_text};

    ghost output = { λ it. Some (frame_fault_text it.form it.error it.shape it.count) };

    fn fmt<W: fmt::Write>(&self, f: &mut fmt::Formatter<W>) -> fmt::Result {
        let refusal = LineRefusal::Frame(self.error);
        if is_length(self.error) && self.form.has_details() {
            let (count, whole) = (self.count, self.shape.frame_len());
            write!(f, "{refusal} {count} octets, not {whole}")
        } else {
            write!(f, "{refusal}")
        }
    }
}

/// Returns `true` if a frame is refused for its length.
fn is_length(error: FrameError) -> bool
    ensures { result ≡ Rattle.cfdp_dump.specs.Spelled.Refusal.is_length error }
{
    match error {
        FrameError::Length => true,
        _ => false,
    }
}
