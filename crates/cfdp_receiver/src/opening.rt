// How the record of a receiving transaction is opened.
ghost use Rattle.std.specs.Prelude.{◌≡◌, ◌+◌, ◌≤◌, true, IfOk, OnOk, OnErr, vec_len, vec_capacity};
ghost use Rattle.std.specs.FinSet as set;
ghost use Rattle.cfdp_directives.specs.Pdu.Addressing.{FitsAddressing};
ghost use Rattle.cfdp_receiver.specs.State.{opened_receiver};
ghost use Rattle.cfdp_receiver.specs.Steps.{opens, opened_closed};
ghost use Rattle.cfdp_receiver.specs.Does.{Kept, MakesIn, Performs, timers_kept, with_room};
ghost use Rattle.cfdp_receiver.specs.Storing.{Begins};

use crate::receiver::Receiver;
use crate::state::ReceiverPhase;
use cfdp_directives::{Addressing, Condition};
use cfdp_store::{Inbox, Stored};
use cfdp_timers::Effects;
use std::alloc::{AllocError, Global};

impl Receiver {
    /// Opens the record of a transaction, by its first Metadata, file data or EOF without an error.
    /// The transaction is begun in the inbox. If the inbox answers `Done`, the receiver must hear
    /// the PDU next, and that sets its timers; until then none runs. If the inbox refuses, that is
    /// a fault, the receiver waits for no timer, and of the PDU only its large file flag counts.
    /// Answers are written in the widths given.
    ///
    /// # Errors
    ///
    /// `AllocError` if there is no memory for its timers. All is then as it was.
    pub fn open<I: Inbox>(
        alloc: Global,
        effects: &mut Effects,
        inbox: &mut I,
        addressing: Addressing,
        large: bool,
    ) -> Result<(Receiver, Stored), AllocError>
        requires addressing { FitsAddressing addressing }
        requires room { vec_len effects.old.told + 3 ≤ vec_capacity effects.old.told }
        ensures does { IfOk result (λ opened. Performs I.Inbox timers_kept opened.1
            (λ m files r. opens opened.1 large files addressing)
            (opened_receiver addressing) opened.0
            (with_room addressing.id effects.old) effects.new inbox.old inbox.new) }
        ensures tells_nothing { IfOk result (λ opened.
            opened.1 ≡ Stored.Done → effects.new.told ≡ effects.old.told) }
        ensures has_room { OnOk result
            (set.contains effects.new.timers.roomy addressing.id ≡ true) }
        ensures kept { IfOk result (λ opened.
            Kept I.Inbox (opened_receiver addressing) opened.0 inbox.old inbox.new) }
        ensures calls { IfOk result (λ opened.
            Begins (MakesIn I.Inbox) opened.1 addressing.id inbox.old inbox.new) }
        ensures begun { IfOk result (λ opened. opened.1 ≡ Stored.Done
            → I.failures inbox.new ≡ I.failures inbox.old) }
        ensures keeps_effects { OnErr result (effects.new ≡ effects.old) }
        ensures keeps_inbox { OnErr result (inbox.new ≡ inbox.old) }
    {
        effects.timers.room(addressing.id)?;
        let mut receiver = Receiver::new(alloc, addressing);
        match inbox.begin(addressing.id) {
            Ok(()) => Ok((receiver, Stored::Done)),
            Err(_) => {
                receiver.raise(large);
                receiver.fault(&mut effects.told, inbox, Condition::FILESTORE_REJECTION);
                Ok((receiver, Stored::Refused))
            }
        }
    }

    /// Opens the record of a transaction by an EOF with an error, with its large file flag: it is
    /// closed at once, and the EOF is acknowledged. Nothing is indicated, and the inbox isn't
    /// called.
    ///
    /// # Errors
    ///
    /// `AllocError` if there is no memory for its timers. All is then as it was.
    pub fn open_closed(
        alloc: Global,
        effects: &mut Effects,
        addressing: Addressing,
        large: bool,
        condition: Condition,
    ) -> Result<Receiver, AllocError>
        requires addressing { FitsAddressing addressing }
        ensures receiver { IfOk result (λ receiver.
            receiver ≡ opened_closed large condition addressing) }
        ensures effects { OnOk result (effects.new ≡ with_room addressing.id effects.old) }
        ensures has_room { OnOk result
            (set.contains effects.new.timers.roomy addressing.id ≡ true) }
        ensures keeps { OnErr result (effects.new ≡ effects.old) }
    {
        effects.timers.room(addressing.id)?;
        let mut receiver = Receiver::new(alloc, addressing);
        receiver.end(ReceiverPhase::Closed);
        receiver.raise(large);
        receiver.ack_due = Some(condition);
        Ok(receiver)
    }
}
