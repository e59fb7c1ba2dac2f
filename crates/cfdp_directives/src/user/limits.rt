ghost use Rattle.std.specs.Prelude.{◌↔◌, IsTrue};
ghost use Rattle.cfdp_directives.specs.User.Limits.{IsValidTimes};

/// How often an entity sends something again before that is a fault: 0 to 255 times each (CCSDS
/// 727.0-B-5, 4.6.4 and 4.7).
#[derive(Clone, Copy, Debug, PartialEq, Eq)]
pub struct Limits {
    /// An EOF that isn't acknowledged.
    pub eof: u8,
    /// A NAK after which nothing new comes.
    pub nak: u8,
    /// A Finished that isn't acknowledged.
    pub finished: u8,
}

impl Default for Limits {
    ghost use Rattle.std.specs.Prelude.{◌≡◌};
    ghost use Rattle.cfdp_directives.specs.User.Limits.{default_limits};

    ghost is_default = { λ limits. limits ≡ default_limits };

    /// Returns limits of three times each.
    fn default() -> Limits {
        Limits {
            eof: 3,
            nak: 3,
            finished: 3,
        }
    }
}

/// How long an entity waits, in units of its user's clock: each must be 1 to 4,294,967,295.
#[derive(Clone, Copy, Debug, PartialEq, Eq)]
pub struct Times {
    /// For the ACK of an EOF.
    pub eof: u32,
    /// For what a NAK asked for.
    pub nak: u32,
    /// For the ACK of a Finished.
    pub finished: u32,
    /// For any PDU of the transaction.
    pub inactivity: u32,
}

impl Times {
    /// Returns `true` if none of them is 0.
    pub fn is_valid(&self) -> bool
        ensures { IsTrue result ↔ IsValidTimes self.now }
    {
        1 <= self.eof && 1 <= self.nak && 1 <= self.finished && 1 <= self.inactivity
    }
}

impl Default for Times {
    ghost use Rattle.std.specs.Prelude.{◌≡◌};
    ghost use Rattle.cfdp_directives.specs.User.Limits.{default_times};

    ghost is_default = { λ times. times ≡ default_times };

    /// Returns 10 units for each, and 100 of inactivity.
    fn default() -> Times {
        Times {
            eof: 10,
            nak: 10,
            finished: 10,
            inactivity: 100,
        }
    }
}
