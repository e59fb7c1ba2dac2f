// One record of the table: the machine of its side.
ghost use Rattle.std.specs.Prelude.{◌≡◌, ◌≤◌, Option, length, IfOk, IfSome, OnOk, OnErr};
ghost use Rattle.cfdp_header.specs.Files.{FileMap};
ghost use Rattle.cfdp_header.specs.declared.value.TransactionId.{TransactionId};
ghost use Rattle.cfdp_directives.specs.Pdu.Addressing.{written_len};
ghost use Rattle.cfdp_directives.specs.Pdu.Codes.{is_large};
ghost use Rattle.cfdp_directives.specs.Pdu.Content.{view};
ghost use Rattle.cfdp_store.specs.Files.{octets_in};
ghost use Rattle.cfdp_store.specs.Rereading.{RereadsIf};
ghost use Rattle.cfdp_store.specs.Staged.{OctetMap};
ghost use Rattle.cfdp_store.specs.Stores.{failures_after};
ghost use Rattle.cfdp_timers.specs.Effects.{HasRoom};
ghost use Rattle.cfdp_sender.specs.Does as sender_does;
ghost use Rattle.cfdp_sender.specs.Does.{HasOwnFile};
ghost use Rattle.cfdp_sender.specs.Due.{carries_by, sender_due, sender_says};
ghost use Rattle.cfdp_receiver.specs.Does.{KeptAlone, MakesIn, at};
ghost use Rattle.cfdp_receiver.specs.Due.{receiver_due};
ghost use Rattle.cfdp_entity.specs.declared.due.RecordDue.TheVariants as dues;
ghost use Rattle.cfdp_entity.specs.Found.{found_due};
ghost use Rattle.cfdp_entity.specs.Refusing as refusing;
ghost use Rattle.cfdp_entity.specs.Desk.{Staged};
ghost use Rattle.cfdp_entity.specs.Forgetting as forgetting;
ghost use Rattle.cfdp_entity.specs.Seen as seens;
ghost use Rattle.cfdp_entity.specs.Seen.{seen, is_due};
ghost use Rattle.cfdp_entity.specs.Steps.{sender_after, receiver_after, called_sender};
ghost use Rattle.cfdp_entity.specs.Steps.{called_receiver};
ghost use Rattle.cfdp_entity.specs.Does.{ReceiverTook, ReceiverAcks, SenderDoes, SenderKeeps};
ghost use Rattle.cfdp_entity.specs.Does.{ReceiverDoes, ReceiverKeeps, MayReceive, StaysReady};
ghost use Rattle.cfdp_entity.specs.Does.{found};
ghost use Rattle.cfdp_entity.specs.Sound.{longest_pdu};
ghost use Rattle.cfdp_entity.specs.Spelled.{SeenIsSpelled};
ghost use Rattle.cfdp_entity.specs.Storing.{AsksCalled, AsksHeard};
ghost use Rattle.cfdp_entity.specs.Whole.{IsReadyRecord};

use crate::due::{FoundDue, RecordDue};
use crate::error::{ForgetError, RequestError};
use crate::request::Request;
use cfdp_directives::{Acknowledged, Outcome, Pdu, Phase, Policy};
use cfdp_receiver::{Ending, Metadata, Receiver};
use cfdp_sender::{Sender, Taken};
use cfdp_store::{Inbox, Outbox, Stored};
use cfdp_timers::Effects;
use std::alloc::AllocError;

/// A record of the table.
#[derive(Debug, Drop)]
pub enum Record {
    /// The record of a file that this entity sends.
    Sends(Sender),
    /// The record of a file that it receives.
    Receives(Receiver),
}

/// What taking a PDU came to.
#[derive(Clone, Copy, Debug, PartialEq, Eq)]
pub enum Gave {
    /// So many octets were written.
    Octets(usize),
    /// The outbox failed, and no PDU is there.
    Failed,
}

impl Record {
    /// Returns `true` if a PDU is due.
    pub(crate) fn is_due(&self) -> bool
        ensures { (staged : Option OctetMap) → result ≡ is_due (seen staged self.now) }
    {
        match self {
            Record::Sends(sender) => sender.is_due(),
            Record::Receives(receiver) => receiver.is_due(),
        }
    }

    /// Returns what is due.
    pub(crate) fn due(&self) -> FoundDue
        ensures due { (staged : Option OctetMap) → result.due ≡ found_due (seen staged self.now) }
        ensures len { (staged : Staged) (sources : FileMap) (id : TransactionId) →
            IsReadyRecord staged sources id self.now
            → result.len ≡ seens.due_len sources (seen (staged id) self.now) }
        ensures short { result.len ≤ longest_pdu }
        ensures spelled { (staged : Option OctetMap) (sources : FileMap) →
            SeenIsSpelled sources (seen staged self.now) }
    {
        match self {
            Record::Sends(sender) => due_of_sender(sender),
            Record::Receives(receiver) => due_of_receiver(receiver),
        }
    }

    /// Returns `true` if it is sending the file that the outbox has under this name.
    pub(crate) fn sends_file(&self, name: &[u8]) -> bool
        ensures { (staged : Option OctetMap) →
            result ≡ seens.sends_file name.now (seen staged self.now) }
    {
        match self {
            Record::Sends(sender) => sender.sends_file(name),
            Record::Receives(_) => false,
        }
    }

    /// Returns how far the transaction has come.
    pub(crate) fn phase(&self) -> Phase
        ensures { (staged : Option OctetMap) → result ≡ seens.phase_of (seen staged self.now) }
    {
        match self {
            Record::Sends(sender) => sender.phase(),
            Record::Receives(receiver) => receiver.phase(),
        }
    }

    /// Returns the offset up to which octets of the file were sent, or came.
    pub(crate) fn progress(&self) -> u64
        ensures { (staged : Option OctetMap) → result ≡ seens.progress_of (seen staged self.now) }
    {
        match self {
            Record::Sends(sender) => sender.progress(),
            Record::Receives(receiver) => receiver.progress(),
        }
    }

    /// Returns why it can't be discarded, if it can't.
    pub(crate) fn forget_refusal(&self) -> Option<ForgetError>
        ensures { (staged : Option OctetMap) → result
            ≡ forgetting.refusal (seen staged self.now) }
    {
        if self.phase() != Phase::Closed {
            return Some(ForgetError::StillOpen);
        }
        if self.is_due() {
            return Some(ForgetError::AnswerDue);
        }
        None
    }

    /// Returns why a request is refused, if it is.
    pub(crate) fn refusal(&self, request: Request) -> Option<RequestError>
        ensures { (staged : Option OctetMap) → result ≡ refusing.refusal request
            (seen staged self.now) }
    {
        match self {
            Record::Sends(sender) => refusal_at_sender(sender, request),
            Record::Receives(receiver) => refusal_at_receiver(receiver, request),
        }
    }
}

// Returns what a sender has due.
fn due_of_sender(sender: &Sender) -> FoundDue
    ensures due { result.due ≡ dues.Sends (sender_due sender.now) }
    ensures len { (sources : FileMap) → HasOwnFile sources sender.now
        → result.len ≡ seens.due_len sources (seens.Sends sender.now) }
    ensures short { result.len ≤ longest_pdu }
    ensures spelled { (sources : FileMap) → SeenIsSpelled sources (seens.Sends sender.now) }
{
    match sender.next_due() {
        Some(due) => FoundDue {
            due: RecordDue::Sends(Some(due)),
            len: sender.len_of(&due),
        },
        None => FoundDue {
            due: RecordDue::Sends(None),
            len: 0,
        },
    }
}

// Returns what a receiver has due.
fn due_of_receiver(receiver: &Receiver) -> FoundDue
    ensures due { result.due ≡ dues.Receives (receiver_due receiver.now) }
    ensures len { (sources : FileMap) (m : OctetMap) →
        result.len ≡ seens.due_len sources (seens.Receives receiver.now m) }
    ensures short { result.len ≤ longest_pdu }
    ensures spelled { (sources : FileMap) (m : OctetMap) →
        SeenIsSpelled sources (seens.Receives receiver.now m) }
{
    match receiver.next_due() {
        Some(due) => FoundDue {
            due: RecordDue::Receives(Some(due)),
            len: receiver.len_of(&due),
        },
        None => FoundDue {
            due: RecordDue::Receives(None),
            len: 0,
        },
    }
}

// Returns why a request of a sender is refused, if it is.
fn refusal_at_sender(sender: &Sender, request: Request) -> Option<RequestError>
    ensures { result ≡ refusing.refusal request (seens.Sends sender.now) }
{
    if sender.phase() != Phase::Sending {
        return Some(RequestError::AlreadyClosed);
    }
    let is_so = match request {
        Request::Cancel => false,
        Request::Suspend => sender.is_suspended(),
        Request::Resume => !sender.is_suspended(),
        Request::Prompt { .. } => sender.has_prompt_due(),
    };
    if is_so {
        Some(RequestError::AlreadySo)
    } else {
        None
    }
}

// Returns why a request of a receiver is refused, if it is.
fn refusal_at_receiver(receiver: &Receiver, request: Request) -> Option<RequestError>
    ensures { (m : OctetMap) → result ≡ refusing.refusal request (seens.Receives receiver.now m) }
{
    if matches!(request, Request::Prompt { .. }) {
        return Some(RequestError::WrongSide);
    }
    if receiver.phase() != Phase::Receiving {
        return Some(RequestError::AlreadyClosed);
    }
    let is_so = match request {
        Request::Cancel | Request::Prompt { .. } => false,
        Request::Suspend => receiver.is_suspended(),
        Request::Resume => !receiver.is_suspended(),
    };
    if is_so {
        Some(RequestError::AlreadySo)
    } else {
        None
    }
}

/// Lets a sender hear a PDU, if the PDU is for it.
pub(crate) fn sender_hears(
    sender: &mut Sender,
    effects: &mut Effects,
    policy: &Policy,
    pdu: &Pdu<'_>,
) -> Result<Stored, AllocError>
    requires { HasRoom sender.old.addressing.id effects.old }
    ensures does { OnOk result (SenderDoes policy.now.times (sender_after (view pdu.now) sender.old)
        sender.old sender.new effects.old effects.new) }
    ensures keeps { OnErr result (SenderKeeps (view pdu.now) sender.old sender.new effects.old
        effects.new) }
    ensures done { IfOk result (λ stored. stored ≡ Stored.Done) }
{
    match pdu {
        Pdu::Ack {
            of: Acknowledged::Eof,
            condition,
            ..
        } => sender.on_ack(effects, policy, *condition),
        Pdu::Nak { requests, .. } => sender.on_nak(effects, policy, requests)?,
        Pdu::Finished {
            condition,
            delivery,
            status,
            ..
        } => {
            let outcome = Outcome {
                condition: *condition,
                delivery: *delivery,
                status: *status,
            };
            sender.on_finished(effects, policy, outcome);
        }
        Pdu::KeepAlive { progress } => sender.on_keep_alive(effects, policy, *progress),
        _ => {}
    }
    Ok(Stored::Done)
}

/// Lets a receiver hear a PDU, if the PDU is for it, with its large file flag.
pub(crate) fn receiver_hears<I: Inbox>(
    receiver: &mut Receiver,
    effects: &mut Effects,
    inbox: &mut I,
    policy: &Policy,
    large: bool,
    pdu: &Pdu<'_>,
) -> Result<Stored, AllocError>
    requires { MayReceive I.Inbox receiver.old effects.old inbox.old }
    ensures does { let old = at I.Inbox receiver.old effects.old inbox.old in
        IfOk result (λ stored. ReceiverDoes policy.now.times stored
        (found (receiver_after stored large (view pdu.now)) old) old
        (at I.Inbox receiver.new effects.new inbox.new)) }
    ensures keeps { OnErr result (ReceiverKeeps (view pdu.now)
        (at I.Inbox receiver.old effects.old inbox.old)
        (at I.Inbox receiver.new effects.new inbox.new)) }
    ensures stays { StaysReady I.Inbox receiver.old receiver.new inbox.old inbox.new }
    ensures calls { IfOk result (λ stored. AsksHeard (MakesIn I.Inbox) large (view pdu.now) stored
        receiver.old receiver.new inbox.old inbox.new) }
{
    match pdu {
        Pdu::Metadata {
            checksum_kind,
            size,
            source,
            destination,
            ..
        } => {
            let metadata = Metadata {
                checksum_kind: *checksum_kind,
                size: *size,
                source,
                destination,
            };
            receiver.on_metadata(effects, inbox, policy, large, &metadata)
        }
        Pdu::FileData { offset, bytes } => {
            receiver.on_data(effects, inbox, policy, large, *offset, bytes)
        }
        Pdu::Eof {
            condition,
            checksum,
            size,
            ..
        } => {
            let ending = Ending {
                checksum: *checksum,
                size: *size,
            };
            Ok(receiver.on_eof(effects, inbox, policy, large, *condition, ending))
        }
        Pdu::Ack { of, .. } => {
            receiver_hears_ack(receiver, effects, policy, large, *of);
            Ok(Stored::Done)
        }
        Pdu::Prompt { keep_alive } => {
            receiver.on_prompt(effects, policy, large, *keep_alive);
            Ok(Stored::Done)
        }
        _ => Ok(Stored::Done),
    }
}

// Lets a receiver hear an ACK, if it acknowledges a Finished.
fn receiver_hears_ack(
    receiver: &mut Receiver,
    effects: &mut Effects,
    policy: &Policy,
    large: bool,
    of: Acknowledged,
)
    requires { HasRoom receiver.old.addressing.id effects.old }
    ensures acks { ReceiverAcks policy.now.times large of receiver.old receiver.new effects.old
        effects.new }
    ensures kept { KeptAlone receiver.old receiver.new }
{
    match of {
        Acknowledged::Finished => receiver.on_ack(effects, policy, large),
        Acknowledged::Eof => {}
    }
}

/// Writes the PDU that a sender has due.
pub(crate) fn send_of_sender<O: Outbox>(
    sender: &mut Sender,
    due: &RecordDue,
    effects: &mut Effects,
    outbox: &mut O,
    policy: &Policy,
    out: &mut [u8],
) -> Taken
    requires due { due.now ≡ dues.Sends (sender_due sender.old) }
    requires room { HasRoom sender.old.addressing.id effects.old }
    requires file { HasOwnFile (O.files outbox.old) sender.old }
    requires fits { let file = octets_in (O.files outbox.old) sender.old.source in
        IfSome (sender_due sender.old)
        (λ d. written_len sender.old.addressing (is_large sender.old.size)
        (sender_says file sender.old d) ≤ length out.old) }
    ensures takes { sender_does.Takes policy.now.times
        (octets_in (O.files outbox.new) sender.old.source) (sender_due sender.old) result
        sender.old sender.new effects.old effects.new out.old out.new }
    ensures rereads { RereadsIf (carries_by (sender_due sender.old)) (O.stands outbox.old)
        (O.stands outbox.new) (O.files outbox.old) (O.files outbox.new) }
    ensures failures { O.failures outbox.new
        ≡ failures_after (O.failures outbox.old) (sender_does.was_given result) }
{
    match due {
        RecordDue::Sends(Some(due)) => sender.take_due(due, effects, outbox, policy, out),
        RecordDue::Sends(None) | RecordDue::Receives(_) => Taken::Nothing,
    }
}

/// Writes the PDU that a receiver has due.
pub(crate) fn send_of_receiver(
    receiver: &mut Receiver,
    due: &RecordDue,
    effects: &mut Effects,
    policy: &Policy,
    out: &mut [u8],
) -> usize
    requires due { due.now ≡ dues.Receives (receiver_due receiver.old) }
    requires room { HasRoom receiver.old.addressing.id effects.old }
    requires fits { seens.len_of receiver.old.large receiver.old.addressing
        (seens.receiver_content receiver.old (receiver_due receiver.old)) ≤ length out.old }
    ensures took { ReceiverTook policy.now.times (receiver_due receiver.old) receiver.old
        receiver.new effects.old effects.new result out.old out.new }
    ensures kept { KeptAlone receiver.old receiver.new }
{
    match due {
        RecordDue::Receives(Some(due)) => receiver.take_due(due, effects, policy, out),
        RecordDue::Receives(None) | RecordDue::Sends(_) => 0,
    }
}

/// Does a request of a sender.
pub(crate) fn ask_sender(
    sender: &mut Sender,
    effects: &mut Effects,
    policy: &Policy,
    request: Request,
)
    requires { HasRoom sender.old.addressing.id effects.old }
    ensures { sender_does.Does policy.now.times (called_sender request sender.old) sender.new
        effects.old effects.new }
{
    match request {
        Request::Cancel => sender.cancel(effects, policy),
        Request::Suspend => sender.suspend(effects, policy),
        Request::Resume => sender.resume(effects, policy),
        Request::Prompt { keep_alive } => sender.prompt(effects, policy, keep_alive),
    }
}

/// Does a request of a receiver.
pub(crate) fn ask_receiver<I: Inbox>(
    receiver: &mut Receiver,
    effects: &mut Effects,
    inbox: &mut I,
    policy: &Policy,
    request: Request,
)
    requires { MayReceive I.Inbox receiver.old effects.old inbox.old }
    ensures does { let old = at I.Inbox receiver.old effects.old inbox.old in
        ReceiverDoes policy.now.times Stored.Done (found (called_receiver request) old) old
        (at I.Inbox receiver.new effects.new inbox.new) }
    ensures stays { StaysReady I.Inbox receiver.old receiver.new inbox.old inbox.new }
    ensures calls { AsksCalled (MakesIn I.Inbox) request receiver.old receiver.new inbox.old
        inbox.new }
{
    match request {
        Request::Cancel => receiver.cancel(effects, inbox, policy),
        Request::Suspend => receiver.suspend(effects, policy),
        Request::Resume => receiver.resume(effects, policy),
        Request::Prompt { .. } => {}
    }
}
