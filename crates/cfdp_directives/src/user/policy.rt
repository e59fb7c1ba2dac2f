use crate::user::handler::Handlers;
use crate::user::limits::{Limits, Times};

/// What an entity does if an answer doesn't come: how long it waits, how often it sends something
/// again, and what it does after that. Also how many gaps a file that it receives may have.
#[derive(Clone, Copy, Debug, PartialEq, Eq)]
pub struct Policy {
    /// How often something is sent again.
    pub limits: Limits,
    /// How long an answer is waited for.
    pub times: Times,
    /// What is done if a limit is reached, or no PDU was received for too long.
    pub handlers: Handlers,
    /// How many gaps what is held of a file may have: file data that would make one more are
    /// dropped, and asked for again. `None`: no limit.
    pub most_gaps: Option<u64>,
}

impl Default for Policy {
    ghost use Rattle.std.specs.Prelude.{◌≡◌};
    ghost use Rattle.cfdp_directives.specs.User.Policy.{default_policy};

    ghost is_default = { λ policy. policy ≡ default_policy };

    /// Returns the default of each part, with no limit of gaps.
    fn default() -> Policy {
        Policy {
            limits: Limits::default(),
            times: Times::default(),
            handlers: Handlers::default(),
            most_gaps: None,
        }
    }
}
