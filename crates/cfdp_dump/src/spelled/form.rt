//! How much a dump shows.
ghost use Rattle.std.specs.Prelude.{◌≡◌};
ghost use Rattle.cfdp_dump.specs.Spelled.Told.{end_of};
ghost use Rattle.cfdp_dump.specs.Spelled.Refusal as refusals;

/// How a dump shows a PDU or a frame.
#[derive(Clone, Copy)]
pub enum DumpForm {
    /// In a short line.
    Short,
    /// In a line that also shows what a short one leaves out.
    Long,
    /// Field by field, one a line, with an empty line at the end.
    Fields,
}

impl DumpForm {
    /// Returns `true` if a line that spells nothing says more of it than its number and its name.
    pub fn has_details(self) -> bool
        ensures { result ≡ refusals.has_details self }
    {
        match self {
            DumpForm::Short => false,
            DumpForm::Long | DumpForm::Fields => true,
        }
    }

    /// Returns what stands after all that is shown of one PDU or frame, before the end of its last
    /// line.
    pub fn end(self) -> &'static str
        ensures { result.now ≡ end_of self }
    {
        match self {
            DumpForm::Short => "",
            DumpForm::Long => "",
            DumpForm::Fields => "\n",
        }
    }
}
