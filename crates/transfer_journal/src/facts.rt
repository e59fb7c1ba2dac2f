//! What a journal lacks of a transaction, as records to append.
//!
//! *Facts* are what must be on disk before a PDU leaves or the user hears of it. *Progress* is how
//! much of a file was sent, or is held: it may be behind.
ghost use Rattle.std.specs.Prelude.{◌≡◌, ◌++◌, IfOk, IfSome, IsSome, OnOk};
ghost use Rattle.std.specs.Option.{option_map, option_to_list};
ghost use Rattle.cfdp_sender.specs.State.{transfer_of};
ghost use Rattle.journal_records.specs.declared.record.JournalRecord.TheVariants.{HeardEof};
ghost use Rattle.journal_records.specs.declared.record.JournalRecord.TheVariants.{HeardMetadata};
ghost use Rattle.transfer_journal.specs.Facts.{end_fact, is_cancelling, is_closed, new_fact};
ghost use Rattle.transfer_journal.specs.Facts.{new_known, receiver_facts, receiver_noted};
ghost use Rattle.transfer_journal.specs.Facts.{sender_facts, sender_noted, suspended_fact};
ghost use Rattle.transfer_journal.specs.Notes.{NotesFacts, NotesProgress};

use crate::noted::{Noted, NotedReceiver, NotedSender};
use crate::ranges::new_ranges;
use cfdp_directives::{Octets, Outcome};
use cfdp_entity::Record;
use cfdp_header::TransactionId;
use cfdp_receiver::{Ending, FileInfo, Receiver, ReceiverPhase};
use cfdp_sender::{Sender, SenderPhase, Transfer};
use journal_records::{JournalRecord, RangeList};
use std::alloc::{AllocError, Global};

/// Appends the facts of a transaction that the journal lacks, and returns what it has then.
///
/// # Errors
///
/// `AllocError` if there is no memory for them.
pub fn note_facts(
    alloc: Global,
    out: &mut Vec<JournalRecord>,
    id: TransactionId,
    record: &Record,
    noted: Option<Noted>,
) -> Result<Noted, AllocError>
    ensures { IfOk result (λ now. NotesFacts id «record».now noted
        out.old.items out.new.items now) }
{
    match record {
        Record::Sends(sender) => note_sender(alloc, out, id, sender, noted),
        Record::Receives(receiver) => note_receiver(alloc, out, id, receiver, noted),
    }
}

// Appends the facts of a sender that the journal lacks, and first the put, if it lacks that. If the
// sender has no names any more then, it is over, and isn't noted.
fn note_sender(
    alloc: Global,
    out: &mut Vec<JournalRecord>,
    id: TransactionId,
    sender: &Sender,
    noted: Option<Noted>,
) -> Result<Noted, AllocError>
    ensures { IfOk result (λ now. NotesFacts id (Record.Sends sender.now) noted
        out.old.items out.new.items now) }
{
    match noted {
        Some(Noted::Sends(noted)) => Ok(Noted::Sends(sender_facts(out, id, sender, noted)?)),
        Some(Noted::Receives(noted)) => Ok(Noted::Receives(noted)),
        Some(Noted::Unnamed) => Ok(Noted::Unnamed),
        Some(Noted::Gone) => Ok(Noted::Gone),
        None => {
            let Some(transfer) = transfer_of(alloc, sender)? else {
                return Ok(Noted::Unnamed);
            };
            out.push(JournalRecord::Put(transfer))?;
            Ok(Noted::Sends(sender_facts(out, id, sender, NotedSender::PUT)?))
        }
    }
}

// Returns what a sender sends, if it has its names still.
fn transfer_of(alloc: Global, sender: &Sender) -> Result<Option<Transfer>, AllocError>
    ensures is { IfOk result (λ found. IfSome found (λ transfer.
        transfer ≡ transfer_of sender.now)) }
    ensures some { IfOk result (λ found. sender.now.phase ≡ SenderPhase.Sending → IsSome found) }
{
    let Some((source, destination)) = sender.names() else {
        return Ok(None);
    };
    Ok(Some(Transfer {
        addressing: sender.addressing(),
        checksum_kind: sender.checksum_kind(),
        segment: sender.segment(),
        source: Octets::copied(alloc, source)?,
        destination: Octets::copied(alloc, destination)?,
        size: sender.size(),
    }))
}

// Appends the facts of a receiver that the journal lacks, and first that it was opened, if it lacks
// that.
fn note_receiver(
    alloc: Global,
    out: &mut Vec<JournalRecord>,
    id: TransactionId,
    receiver: &Receiver,
    noted: Option<Noted>,
) -> Result<Noted, AllocError>
    ensures { IfOk result (λ now. NotesFacts id (Record.Receives receiver.now) noted
        out.old.items out.new.items now) }
{
    match noted {
        Some(Noted::Receives(noted)) => {
            Ok(Noted::Receives(receiver_facts(alloc, out, id, receiver, noted)?))
        }
        Some(Noted::Sends(noted)) => Ok(Noted::Sends(noted)),
        Some(Noted::Unnamed) => Ok(Noted::Unnamed),
        Some(Noted::Gone) => Ok(Noted::Gone),
        None => {
            let is_large = receiver.is_large();
            out.push(JournalRecord::Opened(receiver.addressing(), is_large))?;
            let noted = NotedReceiver::opened(alloc, is_large);
            Ok(Noted::Receives(receiver_facts(alloc, out, id, receiver, noted)?))
        }
    }
}

// Appends the facts of a sender that the journal lacks.
#[tactic(auto, using(crate::proofs::Noting::four_appended))]
fn sender_facts(
    out: &mut Vec<JournalRecord>,
    id: TransactionId,
    sender: &Sender,
    noted: NotedSender,
) -> Result<NotedSender, AllocError>
    ensures appended { OnOk result (out.new.items
        ≡ out.old.items ++ sender_facts id sender.now noted) }
    ensures noted { IfOk result (λ now. now ≡ sender_noted sender.now noted.sent) }
{
    let now = sender_noted(sender, noted.sent);
    let eof = new_fact(now.eof_taken, noted.eof_taken, JournalRecord::EofTaken(id));
    push_some(out, eof)?;
    let suspended = suspended_fact(id, now.is_suspended, noted.is_suspended);
    push_some(out, suspended)?;
    let cancelling = JournalRecord::Cancelling(id, sender.condition());
    let cancelled = new_fact(now.is_cancelling, noted.is_cancelling, cancelling);
    push_some(out, cancelled)?;
    let closed = new_fact(
        now.is_closed,
        noted.is_closed,
        JournalRecord::Closed(id, None),
    );
    push_some(out, closed)?;
    Ok(now)
}

// Returns what is noted of a sender once all of its facts are, and that so much was sent.
fn sender_noted(sender: &Sender, sent: u64) -> NotedSender
    ensures { result ≡ sender_noted sender.now sent }
{
    let phase = sender.kept_phase();
    NotedSender {
        sent,
        eof_taken: sender.is_eof_taken(),
        is_cancelling: is_cancelling(phase),
        is_suspended: sender.is_suspended(),
        is_closed: is_closed(phase),
    }
}

fn is_cancelling(phase: SenderPhase) -> bool
    ensures { result ≡ is_cancelling phase }
{
    match phase {
        SenderPhase::Cancelling => true,
        SenderPhase::Sending | SenderPhase::Closed => false,
    }
}

fn is_closed(phase: SenderPhase) -> bool
    ensures { result ≡ is_closed phase }
{
    match phase {
        SenderPhase::Closed => true,
        SenderPhase::Sending | SenderPhase::Cancelling => false,
    }
}

// Appends the facts of a receiver that the journal lacks.
#[tactic(auto, using(crate::proofs::Noting::five_appended))]
fn receiver_facts(
    alloc: Global,
    out: &mut Vec<JournalRecord>,
    id: TransactionId,
    receiver: &Receiver,
    noted: NotedReceiver,
) -> Result<NotedReceiver, AllocError>
    ensures appended { OnOk result (out.new.items
        ≡ out.old.items ++ receiver_facts id receiver.now noted) }
    ensures noted { IfOk result (λ now. now ≡ receiver_noted receiver.now noted) }
{
    let flagged = JournalRecord::Held(id, true, RangeList::from_vec(Vec::new(alloc)));
    let large = new_fact(receiver.is_large(), noted.is_large, flagged);
    push_some(out, large)?;
    let metadata = metadata_fact(alloc, id, receiver.metadata(), noted.has_metadata)?;
    push_some(out, metadata)?;
    let ending = ending_fact(id, receiver.ending(), noted.has_ending);
    push_some(out, ending)?;
    let suspended = suspended_fact(id, receiver.is_suspended(), noted.is_suspended);
    push_some(out, suspended)?;
    let end = end_fact(id, receiver.kept_phase(), noted.phase, receiver.outcome());
    push_some(out, end)?;
    Ok(receiver_noted(receiver, noted))
}

// Returns what is noted of a receiver once all of its facts are.
fn receiver_noted(receiver: &Receiver, noted: NotedReceiver) -> NotedReceiver
    ensures { result ≡ receiver_noted receiver.now noted }
{
    NotedReceiver {
        has_metadata: noted.has_metadata || receiver.metadata().is_some(),
        has_ending: noted.has_ending || receiver.ending().is_some(),
        phase: receiver.kept_phase(),
        is_suspended: receiver.is_suspended(),
        is_large: noted.is_large || receiver.is_large(),
        held: noted.held,
    }
}

/// Appends a record, if there is one.
///
/// # Errors
///
/// `AllocError` if there is no memory for it.
pub fn push_some(
    out: &mut Vec<JournalRecord>,
    record: Option<JournalRecord>,
) -> Result<(), AllocError>
    ensures { OnOk result (out.new.items ≡ out.old.items ++ option_to_list «record») }
{
    match record {
        Some(record) => {
            out.push(record)?;
            Ok(())
        }
        None => Ok(()),
    }
}

// Returns a record of a fact, if it holds and isn't noted.
fn new_fact(is: bool, was: bool, record: JournalRecord) -> Option<JournalRecord>
    ensures { result ≡ new_fact is was «record» }
{
    if is && !was {
        Some(record)
    } else {
        drop(record);
        None
    }
}

// Returns a record of whether a transaction is suspended, unless that is noted.
fn suspended_fact(id: TransactionId, is: bool, was: bool) -> Option<JournalRecord>
    ensures { result ≡ suspended_fact id is was }
{
    if is == was {
        return None;
    }
    Some(JournalRecord::Suspended(id, is))
}

// Returns a record of what Metadata said, if that is known and isn't noted.
fn metadata_fact(
    alloc: Global,
    id: TransactionId,
    info: Option<&FileInfo>,
    is_noted: bool,
) -> Result<Option<JournalRecord>, AllocError>
    ensures { IfOk result (λ fact. fact
        ≡ new_known (HeardMetadata id) (option_map (λ info. info.now) info.entry) is_noted) }
{
    match info {
        Some(info) if !is_noted => {
            let info = FileInfo {
                checksum_kind: info.checksum_kind,
                destination: Octets::copied(alloc, info.destination.as_slice())?,
            };
            Ok(Some(JournalRecord::HeardMetadata(id, info)))
        }
        _ => Ok(None),
    }
}

// Returns a record of what the EOF said, if that is known and isn't noted.
fn ending_fact(id: TransactionId, ending: Option<Ending>, is_noted: bool) -> Option<JournalRecord>
    ensures { result ≡ new_known (HeardEof id) ending is_noted }
{
    match ending {
        Some(ending) if !is_noted => Some(JournalRecord::HeardEof(id, ending)),
        _ => None,
    }
}

// Returns a record of how far a receiver has come, if it receives no more, and that isn't noted.
fn end_fact(
    id: TransactionId,
    is: ReceiverPhase,
    was: ReceiverPhase,
    outcome: Option<Outcome>,
) -> Option<JournalRecord>
    ensures { result ≡ end_fact id is was outcome }
{
    if is == was {
        return None;
    }
    match (is, outcome) {
        (ReceiverPhase::Receiving, _) => None,
        (ReceiverPhase::Finishing, Some(outcome)) => Some(JournalRecord::Finishing(id, outcome)),
        (ReceiverPhase::Finishing, None) => Some(JournalRecord::Closed(id, None)),
        (ReceiverPhase::Closed, outcome) => Some(JournalRecord::Closed(id, outcome)),
    }
}

/// Appends how much of a file was sent or is held, as far as the journal lacks it.
///
/// # Errors
///
/// `AllocError` if there is no memory for it.
pub fn note_progress(
    alloc: Global,
    out: &mut Vec<JournalRecord>,
    id: TransactionId,
    record: &Record,
    noted: &mut Noted,
) -> Result<(), AllocError>
    ensures { OnOk result (NotesProgress id «record».now noted.old out.old.items out.new.items
        noted.new) }
{
    match record {
        Record::Sends(sender) => note_sent(out, id, sender, noted),
        Record::Receives(receiver) => note_held(alloc, out, id, receiver, noted),
    }
}

// Appends how much of a file was sent, if the journal lacks that.
fn note_sent(
    out: &mut Vec<JournalRecord>,
    id: TransactionId,
    sender: &Sender,
    noted: &mut Noted,
) -> Result<(), AllocError>
    ensures { OnOk result (NotesProgress id (Record.Sends sender.now) noted.old
        out.old.items out.new.items noted.new) }
{
    match noted {
        Noted::Sends(noted) => {
            let sent = sender.progress();
            if sent != noted.sent {
                noted.sent = sent;
                out.push(JournalRecord::Sent(id, sent))?;
            }
            Ok(())
        }
        Noted::Receives(_) | Noted::Unnamed | Noted::Gone => Ok(()),
    }
}

// Appends what is held of a file, as far as the journal lacks that.
fn note_held(
    alloc: Global,
    out: &mut Vec<JournalRecord>,
    id: TransactionId,
    receiver: &Receiver,
    noted: &mut Noted,
) -> Result<(), AllocError>
    ensures { OnOk result (NotesProgress id (Record.Receives receiver.now) noted.old
        out.old.items out.new.items noted.new) }
{
    match noted {
        Noted::Receives(noted) => {
            let ranges = new_ranges(alloc, receiver.held(), &mut noted.held)?;
            if !ranges.is_empty() {
                let is_large = receiver.is_large();
                noted.is_large = is_large;
                let ranges = RangeList::from_vec(ranges);
                out.push(JournalRecord::Held(id, is_large, ranges))?;
            }
            Ok(())
        }
        Noted::Sends(_) | Noted::Unnamed | Noted::Gone => Ok(()),
    }
}
