ghost use Rattle.std.specs.Prelude.{◌≡◌, ◌+◌, ◌<◌, ◌≤◌, ◌++◌, [], ◌∷◌, vec_len, vec_capacity};
ghost use Rattle.std.specs.Prelude.{length};
ghost use Rattle.cfdp_directives.specs.User.Policy as policies;
ghost use Rattle.cfdp_directives.specs.User.Policy.{finished_told, fault_told};

use crate::pdu::codes::{Condition, Delivery, FileStatus};
use crate::user::handler::Handler;
use crate::user::indication::Indication;
use cfdp_header::TransactionId;

/// How a transaction ended at an entity (CCSDS 727.0-B-5, 5.2.3).
#[derive(Clone, Copy, Debug, PartialEq, Eq)]
pub struct Outcome {
    /// Why it ended: 0 if there was no error.
    pub condition: Condition,
    /// Whether all of the file was received.
    pub delivery: Delivery,
    /// What became of the file.
    pub status: FileStatus,
}

impl Outcome {
    /// Returns the indication of it.
    pub fn indication(self, id: TransactionId) -> Indication
        ensures { result ≡ finished_told id self }
    {
        Indication::Finished {
            id,
            condition: self.condition,
            delivery: self.delivery,
            status: self.status,
        }
    }
}

/// Adds an indication to the list. It takes no memory: the caller must have made room for it.
pub fn indicate(told: &mut Vec<Indication>, indication: Indication)
    requires { vec_len told.old < vec_capacity told.old }
    ensures tells { told.new.items ≡ told.old.items ++ indication ∷ [] }
    ensures len { vec_len told.new ≡ vec_len told.old + 1 }
    ensures room { vec_capacity told.old ≤ vec_capacity told.new }
{
    let _ = told.push(indication);
}

/// Indicates a fault, and what the handler does about it if the transaction is suspended or
/// abandoned. It takes no memory: the caller must have made room for two indications.
pub fn indicate_fault(
    told: &mut Vec<Indication>,
    handler: Handler,
    id: TransactionId,
    condition: Condition,
)
    requires { vec_len told.old + 2 ≤ vec_capacity told.old }
    ensures tells { told.new.items ≡ told.old.items ++ fault_told handler id condition }
    ensures len { vec_len told.new ≡ vec_len told.old + length (fault_told handler id condition) }
    ensures room { vec_capacity told.old ≤ vec_capacity told.new }
{
    indicate(told, Indication::Fault(id, condition));
    match handler {
        Handler::Suspend => indicate(told, Indication::Suspended(id, condition)),
        Handler::Abandon => indicate(told, Indication::Abandoned(id, condition)),
        Handler::Cancel | Handler::Ignore => {}
    }
}

/// Returns the count with one more try, or `None` if it has reached its limit. So a PDU is sent
/// four times if the limit is 3.
pub fn another_try(count: u8, limit: u8) -> Option<u8>
    ensures { result ≡ policies.another_try count limit }
{
    if count < limit { Some(count + 1) } else { None }
}
