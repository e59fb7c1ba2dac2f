//! What still happens to a record that is closed and has nothing due: it acknowledges, by what the
//! PDU says alone, and nothing else. So it can be discarded.
ghost use Rattle.std.specs.Prelude.{◌≡◌, ℕ, Bool, List, None};
ghost use Rattle.cfdp_header.specs.Files.{FileMap};
ghost use Rattle.cfdp_timers.specs.declared.kind.Kind.{Kind};
ghost use Rattle.cfdp_directives.specs.declared.user.policy.Policy.{Policy};
ghost use Rattle.cfdp_directives.specs.Pdu.Content.{Content};
ghost use Rattle.cfdp_store.specs.declared.stored.Stored.{Stored};
ghost use Rattle.cfdp_store.specs.Staged.{OctetMap};
ghost use Rattle.cfdp_sender.specs.State.{SenderState};
ghost use Rattle.cfdp_sender.specs.Inputs.{SenderInput, MayHappen, sender_step};
ghost use Rattle.cfdp_receiver.specs.State.{ReceiverState, flagged};
ghost use Rattle.cfdp_receiver.specs.Sound.{Hears, Expires, Cancels, Suspends, Resumes};
ghost use Rattle.cfdp_receiver.specs.Sound.{receiver_step};
ghost use Rattle.cfdp_entity.specs.Closed.{RestsSender, SenderOwes, SenderAnswers, sender_owes};
ghost use Rattle.cfdp_entity.specs.Closed.{RestsReceiver, ReceiverOwes, ReceiverAnswers};
ghost use Rattle.cfdp_entity.specs.Closed.{receiver_owes};

/// A sender that is closed and has nothing due acknowledges a Finished, and does nothing else.
pub fn a_closed_sender_acknowledges()
    ensures step { (policy : Policy) (file : List ℕ) (input : SenderInput) (x : SenderState) →
        RestsSender x → MayHappen input x
        → SenderOwes (sender_owes input) x (sender_step policy file input x) }
    ensures answers { (condition : ℕ) (x : SenderState) → RestsSender x
        → SenderAnswers condition x }
{}

/// A receiver that is closed and has nothing due acknowledges an EOF, and does nothing else
/// except that it notes the large file flag.
pub fn a_closed_receiver_acknowledges()
    ensures hears { (stored : Stored) (large : Bool) (v : Content) (m : OctetMap)
        (files : FileMap) (r : ReceiverState) → RestsReceiver r
        → ReceiverOwes (receiver_owes v) m files (flagged large r)
        (receiver_step stored (Hears large v) m files r) }
    ensures expires { (stored : Stored) (k : Kind) (policy : Policy) (m : OctetMap)
        (files : FileMap) (r : ReceiverState) → RestsReceiver r
        → ReceiverOwes None m files r (receiver_step stored (Expires k policy) m files r) }
    ensures cancels { (stored : Stored) (m : OctetMap) (files : FileMap) (r : ReceiverState) →
        RestsReceiver r → ReceiverOwes None m files r (receiver_step stored Cancels m files r) }
    ensures suspends { (stored : Stored) (m : OctetMap) (files : FileMap) (r : ReceiverState) →
        RestsReceiver r → ReceiverOwes None m files r (receiver_step stored Suspends m files r) }
    ensures resumes { (stored : Stored) (m : OctetMap) (files : FileMap) (r : ReceiverState) →
        RestsReceiver r → ReceiverOwes None m files r (receiver_step stored Resumes m files r) }
    ensures answers { (condition : ℕ) (r : ReceiverState) → RestsReceiver r
        → ReceiverAnswers condition r }
{}
