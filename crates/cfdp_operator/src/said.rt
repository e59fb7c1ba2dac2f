//! What an operator says.
ghost use Rattle.std.specs.Prelude.{◌≡◌};
ghost use Rattle.cfdp_operator.specs.Commanded.{octets_of};

/// What an operator says, each in a line.
#[derive(Drop)]
pub enum Said {
    /// A line of standard input, or of a connection to the control address.
    Line(String),
    /// A command of the console, as a line.
    Pressed(Vec<u8>),
}

impl Said {
    /// Returns the octets of the line.
    pub fn octets(&self) -> &[u8]
        ensures { result.now ≡ octets_of self.now }
    {
        match self {
            Said::Line(text) => text.as_bytes(),
            Said::Pressed(line) => line.as_slice(),
        }
    }
}
