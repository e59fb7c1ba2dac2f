// What the steps of records work on, and these steps.
ghost use Rattle.std.specs.Prelude.{◌≡◌, ◌≤◌, None, length, IfErr, IfOk, OnErr};
ghost use Rattle.cfdp_directives.specs.Pdu.Addressing.{FitsAddressing};
ghost use Rattle.cfdp_directives.specs.Pdu.Content.{view};
ghost use Rattle.cfdp_timers.specs.Effects.{UsesAtMost};
ghost use Rattle.cfdp_receiver.specs.Does.{MakesIn};
ghost use Rattle.cfdp_receiver.specs.Storing.{Settles};
ghost use Rattle.cfdp_directives.specs.Pdu.Sums.{SumsFit};
ghost use Rattle.cfdp_sender.specs.Back as sender_back;
ghost use Rattle.cfdp_sender.specs.Does.{HasFile, HasFileWhile};
ghost use Rattle.cfdp_entity.specs.Entity.{EntityState};
ghost use Rattle.cfdp_entity.specs.Restoring.{AreHeldBelow, HoldsAdopted, OpensReceiver};
ghost use Rattle.cfdp_entity.specs.Restoring.{ReceiverCause, counted_as, restores_sender};
ghost use Rattle.cfdp_entity.specs.Restoring.{was_shown};
ghost use Rattle.cfdp_receiver.specs.Back as receiver_back;
ghost use Rattle.cfdp_receiver.specs.State.{kind_told};
ghost use Rattle.cfdp_store.specs.Staged.{OthersKeep};
ghost use Rattle.cfdp_store.specs.Stores.{failures_after};
ghost use Rattle.cfdp_sender.specs.State.{IsSendable};
ghost use Rattle.cfdp_store.specs.Chains.{Raises};
ghost use Rattle.cfdp_store.specs.Rereading.{RereadsIf};
ghost use Rattle.cfdp_entity.specs.declared.record.Record.TheVariants as records;
ghost use Rattle.cfdp_entity.specs.Desk.{desk_lent, on_desk, spare};
ghost use Rattle.cfdp_entity.specs.Does.{Made, Keeps, Stays, Asked, Sent, Opens, OpensNone, Widens};
ghost use Rattle.cfdp_entity.specs.Does.{hearing, expiring, calling, seen_as};
ghost use Rattle.cfdp_entity.specs.Found.{found_due};
ghost use Rattle.cfdp_entity.specs.Opening as openings;
ghost use Rattle.cfdp_entity.specs.Opening.{begins, opens, puts, AsksInOrder, CountsBoth};
ghost use Rattle.cfdp_entity.specs.Seen.{carries_data, due_len, seen};
ghost use Rattle.cfdp_entity.specs.Storing.{AsksCalled, AsksHeard, AsksFirst, AsksToBegin};
ghost use Rattle.cfdp_entity.specs.Whole.{MayStep};

use crate::due::RecordDue;
use crate::opening::{Opened, closing};
use crate::record::{
    Gave, Record, ask_receiver, ask_sender, receiver_hears, send_of_receiver, send_of_sender,
    sender_hears,
};
use crate::request::Request;
use crate::restoring::RestoreError;
use cfdp_directives::{Addressing, ChecksumKind, Checksums, Pdu, Policy};
use cfdp_extents::Extents;
use cfdp_receiver::{CommittedReceiver, FileInfo, Receiver, ReceiverPhase, adopt_held};
use cfdp_sender::{CommittedSender, Sender, Taken, Transfer};
use cfdp_store::{Inbox, Outbox, ResumingInbox, Stored};
use cfdp_timers::{Effects, Kind};
use std::alloc::{AllocError, Global};

/// Both stores, the timers with what was indicated, and how long and how often answers are waited
/// for.
#[derive(Drop)]
pub struct Desk<O: Outbox, I: Inbox> {
    pub outbox: O,
    pub inbox: I,
    pub effects: Effects,
    pub policy: Policy,
}

impl<O: Outbox, I: Inbox> Desk<O, I> {
    /// Lets a record hear a PDU of its transaction, with its large file flag. Room for what its
    /// steps report must be made before.
    pub(crate) fn hear(
        &mut self,
        held: &mut Record,
        large: bool,
        pdu: &Pdu<'_>,
    ) -> Result<Stored, AllocError>
        requires { MayStep held.old (on_desk O.Outbox I.Inbox self.old) }
        ensures heard { IfOk result (λ stored. Made (hearing stored large (view pdu.now)) held.old
            held.new (on_desk O.Outbox I.Inbox self.old) (on_desk O.Outbox I.Inbox self.new)) }
        ensures asks { IfOk result (λ stored. Asked stored (AsksHeard Raises large (view pdu.now)
            stored) held.old held.new (on_desk O.Outbox I.Inbox self.old)
            (on_desk O.Outbox I.Inbox self.new)) }
        ensures err { OnErr result (Keeps (view pdu.now) held.old held.new
            (on_desk O.Outbox I.Inbox self.old) (on_desk O.Outbox I.Inbox self.new)) }
        ensures stays { Stays held.old held.new (on_desk O.Outbox I.Inbox self.old)
            (on_desk O.Outbox I.Inbox self.new) }
    {
        let effects = &mut self.effects;
        match held {
            Record::Sends(sender) => sender_hears(sender, effects, &self.policy, pdu),
            Record::Receives(receiver) => {
                receiver_hears(receiver, effects, &mut self.inbox, &self.policy, large, pdu)
            }
        }
    }

    /// Fires a timer of its transaction.
    pub(crate) fn expire(&mut self, held: &mut Record, kind: Kind)
        requires { MayStep held.old (on_desk O.Outbox I.Inbox self.old) }
        ensures expired { Made (expiring kind) held.old held.new
            (on_desk O.Outbox I.Inbox self.old) (on_desk O.Outbox I.Inbox self.new) }
        ensures asks { Asked Stored.Done (Settles Raises Stored.Done) held.old held.new
            (on_desk O.Outbox I.Inbox self.old) (on_desk O.Outbox I.Inbox self.new) }
        ensures stays { Stays held.old held.new (on_desk O.Outbox I.Inbox self.old)
            (on_desk O.Outbox I.Inbox self.new) }
        ensures room { UsesAtMost 2 self.old.effects.told self.new.effects.told }
    {
        let effects = &mut self.effects;
        match held {
            Record::Sends(sender) => sender.expire(effects, &self.policy, kind),
            Record::Receives(receiver) => {
                receiver.expire(effects, &mut self.inbox, &self.policy, kind);
            }
        }
    }

    /// Does a request of the user.
    pub(crate) fn request(&mut self, held: &mut Record, request: Request)
        requires { MayStep held.old (on_desk O.Outbox I.Inbox self.old) }
        ensures called { Made (calling request) held.old held.new
            (on_desk O.Outbox I.Inbox self.old) (on_desk O.Outbox I.Inbox self.new) }
        ensures asks { Asked Stored.Done (AsksCalled Raises request) held.old held.new
            (on_desk O.Outbox I.Inbox self.old) (on_desk O.Outbox I.Inbox self.new) }
        ensures stays { Stays held.old held.new (on_desk O.Outbox I.Inbox self.old)
            (on_desk O.Outbox I.Inbox self.new) }
    {
        let effects = &mut self.effects;
        match held {
            Record::Sends(sender) => ask_sender(sender, effects, &self.policy, request),
            Record::Receives(receiver) => {
                ask_receiver(receiver, effects, &mut self.inbox, &self.policy, request);
            }
        }
    }

    /// Takes the PDU that is due.
    pub(crate) fn send(&mut self, held: &mut Record, due: &RecordDue, out: &mut [u8]) -> Gave
        requires ready { MayStep held.old (on_desk O.Outbox I.Inbox self.old) }
        requires due { due.now
            ≡ found_due (seen_as held.old held.old (on_desk O.Outbox I.Inbox self.old)) }
        requires fits { due_len (O.files self.old.outbox)
            (seen_as held.old held.old (on_desk O.Outbox I.Inbox self.old)) ≤ length out.old }
        // What was read is what the outbox has now.
        ensures sent { let now = on_desk O.Outbox I.Inbox self.new in Sent result held.old held.new
            (desk_lent now (on_desk O.Outbox I.Inbox self.old)) now out.old out.new }
        ensures stays { let now = on_desk O.Outbox I.Inbox self.new in Stays held.old held.new
            (desk_lent now (on_desk O.Outbox I.Inbox self.old)) now }
        ensures shows { RereadsIf (carries_data (seen_as held.old held.old
            (on_desk O.Outbox I.Inbox self.old))) (O.stands self.old.outbox)
            (O.stands self.new.outbox) (O.files self.old.outbox) (O.files self.new.outbox) }
    {
        let effects = &mut self.effects;
        match held {
            Record::Sends(sender) => {
                match send_of_sender(sender, due, effects, &mut self.outbox, &self.policy, out) {
                    Taken::Nothing => Gave::Octets(0),
                    Taken::Moved(octets) => Gave::Octets(octets),
                    Taken::SourceFailed => Gave::Failed,
                }
            }
            Record::Receives(receiver) => {
                Gave::Octets(send_of_receiver(receiver, due, effects, &self.policy, out))
            }
        }
    }

    /// Opens the record of a put.
    pub(crate) fn put(&mut self, alloc: Global, transfer: Transfer) -> Result<Record, AllocError>
        requires sendable { IsSendable transfer }
        requires file { HasFile (O.files self.old.outbox) transfer.source transfer.size }
        requires room { 3 ≤ spare (on_desk O.Outbox I.Inbox self.old) }
        ensures opens { IfOk result (λ held. Opens transfer.addressing.id
            (puts (I.published self.old.inbox) transfer) held
            (on_desk O.Outbox I.Inbox self.old) (on_desk O.Outbox I.Inbox self.new)) }
        ensures err { OnErr result (OpensNone (on_desk O.Outbox I.Inbox self.old)
            (on_desk O.Outbox I.Inbox self.new)) }
        ensures inbox { self.new.inbox ≡ self.old.inbox }
        ensures widens { Widens transfer.addressing.id (on_desk O.Outbox I.Inbox self.old)
            (on_desk O.Outbox I.Inbox self.new) }
    {
        let sender = Sender::open(alloc, &mut self.effects, transfer)?;
        Ok(Record::Sends(sender))
    }

    /// Restores the record of a sender.
    pub(crate) fn restore_sender(
        &mut self,
        alloc: Global,
        kept: CommittedSender,
        sent: u64,
        sums: Checksums,
    ) -> Result<Record, AllocError>
        requires committed { sender_back.IsCommitted kept }
        requires file { HasFileWhile kept.phase (O.files self.old.outbox) kept.transfer.source
            kept.transfer.size }
        requires within { sent ≤ kept.transfer.size }
        requires fits { SumsFit sums }
        ensures opens { IfOk result (λ held. Opens kept.transfer.addressing.id
            (restores_sender self.old.policy.times (I.published self.old.inbox) sent sums kept)
            held (on_desk O.Outbox I.Inbox self.old) (on_desk O.Outbox I.Inbox self.new)) }
        ensures err { OnErr result (OpensNone (on_desk O.Outbox I.Inbox self.old)
            (on_desk O.Outbox I.Inbox self.new)) }
        ensures inbox { self.new.inbox ≡ self.old.inbox }
        ensures widens { Widens kept.transfer.addressing.id (on_desk O.Outbox I.Inbox self.old)
            (on_desk O.Outbox I.Inbox self.new) }
    {
        let times = &self.policy.times;
        let sender = Sender::restored(alloc, &mut self.effects, times, kept, sent, sums)?;
        Ok(Record::Sends(sender))
    }

    /// Opens the record of a PDU, and lets it hear the PDU, with its large file flag.
    pub(crate) fn open(
        &mut self,
        alloc: Global,
        addressing: Addressing,
        large: bool,
        pdu: &Pdu<'_>,
    ) -> Result<(Record, Opened), AllocError>
        requires fits { FitsAddressing addressing }
        requires room { 3 ≤ spare (on_desk O.Outbox I.Inbox self.old) }
        ensures opens { IfOk result (λ o. Opens addressing.id (opens o.1.begun o.1.stored
            self.old.policy.times (I.published self.old.inbox) large (view pdu.now) addressing)
            o.0 (on_desk O.Outbox I.Inbox self.old) (on_desk O.Outbox I.Inbox self.new)) }
        ensures counts { IfOk result (λ o. CountsBoth o.1.begun o.1.stored
            (I.failures self.old.inbox) (I.failures self.new.inbox)) }
        ensures in_order { IfOk result (λ o. AsksInOrder (openings.closing (view pdu.now))
            o.1.begun o.1.stored) }
        ensures raises { IfOk result (λ o. AsksFirst Raises (openings.closing (view pdu.now))
            o.1.begun o.1.stored large (view pdu.now) addressing
            (seen (I.staged self.new.inbox addressing.id) o.0) (I.failures self.old.inbox)
            (I.failures self.new.inbox)) }
        ensures err { OnErr result (OpensNone (on_desk O.Outbox I.Inbox self.old)
            (on_desk O.Outbox I.Inbox self.new)) }
        ensures widens { Widens addressing.id (on_desk O.Outbox I.Inbox self.old)
            (on_desk O.Outbox I.Inbox self.new) }
    {
        match closing(pdu) {
            Some(condition) => {
                let effects = &mut self.effects;
                let receiver = Receiver::open_closed(alloc, effects, addressing, large, condition)?;
                let opened = Opened {
                    begun: Stored::Done,
                    stored: Stored::Done,
                };
                Ok((Record::Receives(receiver), opened))
            }
            None => {
                let (receiver, opened) = self.begin(alloc, addressing, large, pdu)?;
                Ok((Record::Receives(receiver), opened))
            }
        }
    }

    // Opens a receiver. If the inbox begins its transaction, it hears the PDU.
    fn begin(
        &mut self,
        alloc: Global,
        addressing: Addressing,
        large: bool,
        pdu: &Pdu<'_>,
    ) -> Result<(Receiver, Opened), AllocError>
        requires fits { FitsAddressing addressing }
        requires room { 3 ≤ spare (on_desk O.Outbox I.Inbox self.old) }
        ensures opens { IfOk result (λ o. Opens addressing.id (begins o.1.begun o.1.stored
            self.old.policy.times (I.published self.old.inbox) large (view pdu.now) addressing)
            (records.Receives o.0) (on_desk O.Outbox I.Inbox self.old)
            (on_desk O.Outbox I.Inbox self.new)) }
        ensures counts { IfOk result (λ o. CountsBoth o.1.begun o.1.stored
            (I.failures self.old.inbox) (I.failures self.new.inbox)) }
        ensures in_order { IfOk result (λ o. AsksInOrder None o.1.begun o.1.stored) }
        ensures calls { IfOk result (λ o. AsksToBegin (MakesIn I.Inbox) o.1.begun o.1.stored large
            (view pdu.now) addressing (seen (I.staged self.new.inbox addressing.id)
            (records.Receives o.0)) self.old.inbox self.new.inbox) }
        ensures err { OnErr result (OpensNone (on_desk O.Outbox I.Inbox self.old)
            (on_desk O.Outbox I.Inbox self.new)) }
        ensures widens { Widens addressing.id (on_desk O.Outbox I.Inbox self.old)
            (on_desk O.Outbox I.Inbox self.new) }
    {
        let effects = &mut self.effects;
        let inbox = &mut self.inbox;
        let (mut receiver, begun) = Receiver::open(alloc, effects, inbox, addressing, large)?;
        let stored = match begun {
            Stored::Done => {
                receiver_hears(&mut receiver, effects, inbox, &self.policy, large, pdu)?
            }
            Stored::Refused => Stored::Done,
        };
        Ok((receiver, Opened { begun, stored }))
    }
}

impl<O: Outbox, I: ResumingInbox> Desk<O, I> {
    /// Restores the record of a receiver, with what it held. That is read from the part of its file
    /// in the inbox, in pieces as long as `buffer`.
    pub(crate) fn restore_receiver(
        &mut self,
        alloc: Global,
        kept: CommittedReceiver,
        held: Extents,
        buffer: &mut [u8],
    ) -> Result<Record, RestoreError>
        requires committed { receiver_back.IsCommitted kept }
        requires within { AreHeldBelow held kept }
        requires room { 1 ≤ length buffer.old }
        ensures opens { IfOk result (λ now. OpensReceiver kept held now
            (on_desk O.Outbox I.Inbox self.old) (on_desk O.Outbox I.Inbox self.new)) }
        ensures refused { IfErr result (λ by. (e : EntityState) → ReceiverCause by kept held e) }
        ensures err { OnErr result (OpensNone (on_desk O.Outbox I.Inbox self.old) (counted_as
            (on_desk O.Outbox I.Inbox self.new) (on_desk O.Outbox I.Inbox self.old))) }
        ensures inbox { I.failures self.new.inbox
            ≡ failures_after (I.failures self.old.inbox) (was_shown result) }
        ensures widens { Widens kept.addressing.id (on_desk O.Outbox I.Inbox self.old)
            (on_desk O.Outbox I.Inbox self.new) }
    {
        let sums = self.adopt(&kept, &held, buffer)?;
        let effects = &mut self.effects;
        match Receiver::restored(alloc, effects, &self.policy, kept, held, sums) {
            Ok(receiver) => Ok(Record::Receives(receiver)),
            Err(_) => Err(RestoreError::NoMemory),
        }
    }

    // Adopts the part of a receiver's file, if it receives, and returns the sums of what is held.
    fn adopt(
        &mut self,
        kept: &CommittedReceiver,
        held: &Extents,
        buffer: &mut [u8],
    ) -> Result<Checksums, RestoreError>
        requires room { 1 ≤ length buffer.old }
        ensures adopted { IfOk result (HoldsAdopted kept.now held.now
            (I.staged self.new.inbox kept.now.addressing.id)) }
        ensures refused { IfErr result (λ by. (e : EntityState)
            → ReceiverCause by kept.now held.now e) }
        ensures others { OthersKeep kept.now.addressing.id (I.staged self.old.inbox)
            (I.staged self.new.inbox) }
        ensures published { I.published self.new.inbox ≡ I.published self.old.inbox }
        ensures failures { I.failures self.new.inbox
            ≡ failures_after (I.failures self.old.inbox) (was_shown result) }
        ensures rest { self.new ≡ record self.old { inbox = self.new.inbox } }
    {
        if kept.phase != ReceiverPhase::Receiving {
            return Ok(Checksums::new());
        }
        let wanted = kind_of(&kept.metadata);
        match adopt_held(&mut self.inbox, kept.addressing.id, &wanted, held, buffer) {
            Ok(Some(sums)) => Ok(sums),
            Ok(None) => Err(RestoreError::ShortPart),
            Err(_) => Err(RestoreError::InboxFault),
        }
    }
}

// Returns the checksum type of a file, if Metadata said it.
fn kind_of(metadata: &Option<FileInfo>) -> Option<ChecksumKind>
    ensures { result ≡ kind_told metadata.now }
{
    match metadata {
        Some(info) => Some(info.checksum_kind),
        None => None,
    }
}
