//! What follows from how a station serves a clerk.
ghost use Rattle.std.specs.Prelude.{◌≡◌, ◌⊎◌, ℕ, Bool, List, [], None, Contains};
ghost use Rattle.cfdp_port.specs.Port.{PortState, table_of};
ghost use Rattle.cfdp_service.specs.Calls.{Chain, UserCall};
ghost use Rattle.cfdp_service.specs.Clerk.{ClerkState, ClerkSteps, IsDelivered, IsSentFile};
ghost use Rattle.cfdp_service.specs.Serving.{Serves};

use crate::spool::Spool;
use cfdp_port::Wire;

/// Whatever a clerk is called, one by one, from its beginning on: each file that left its spool as
/// sent was put, the put was accepted, and the clerk heard that it is complete.
pub fn what_is_sent_was_heard_complete<S: Spool>()
    ensures { (calls : List UserCall) (old new : ClerkState S)
        → Chain (ClerkSteps S.sent S.failed) calls old new → old.asked ≡ None → old.files ≡ []
        → (name : List ℕ) → Contains (S.sent new.spool) name
        → Contains (S.sent old.spool) name ⊎ IsDelivered old.own calls name }
{}

/// Whatever a station that serves a clerk did, over any wire: if a file left the spool as sent, it
/// was put, and it was indicated to the station that it is complete. What that means for the peer,
/// the promise of delivery says.
pub fn what_is_sent_was_told_complete<S: Spool, W: Wire>()
    ensures { (short : Bool) (calls : List UserCall) (first last : PortState W)
        (old new : ClerkState S) → Serves W.steps short calls first last
        → Chain (ClerkSteps S.sent S.failed) calls old new → old.asked ≡ None → old.files ≡ []
        → (name : List ℕ) → Contains (S.sent new.spool) name
        → Contains (S.sent old.spool) name
        ⊎ IsSentFile old.own calls (table_of last.station).told name }
{}
