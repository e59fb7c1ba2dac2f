// What a call answers to C: a number; 0 is that all went well.
ghost use Rattle.std.specs.Prelude.{◌≡◌, MatchOption};
ghost use Rattle.cfdp_c.specs.Codes as codes;
ghost use Rattle.cfdp_c.specs.Codes.{folders_code, journaled_code, look_code};
ghost use Rattle.cfdp_c.specs.Codes.{add_answer, request_answer, forget_answer, put_answer};
ghost use Rattle.cfdp_c.specs.Codes.{remove_answer};
ghost use Rattle.cfdp_c.specs.Codes.{poll_answer, transmit_answer, memory_answer};

use crate::held::FoldersError;
use crate::resuming::JournaledError;
use cfdp_header::TransactionId;
use cfdp_station::{AddError, ForgetError, Lane, Polled, PutError, RemoveError, RequestError};
use cfdp_store::StoreError;
use frame_security::FrameRefusal;
use std::alloc::AllocError;

/// The call did what it says.
pub(crate) const OK: u32 = 0;
/// The handle is closed.
pub(crate) const CLOSED: u32 = 1;
/// The handle is open already.
pub(crate) const ALREADY_OPEN: u32 = 2;
/// An argument is out of its range.
pub(crate) const BAD_ARGUMENT: u32 = 3;
/// There is no memory for it.
pub(crate) const NO_MEMORY: u32 = 4;
/// The borrowed room is too short.
pub(crate) const NO_ROOM: u32 = 5;
/// There is nothing of the kind.
pub(crate) const NOTHING: u32 = 6;
/// The files are in folders, and the call is of files in memory.
pub(crate) const IN_FOLDERS: u32 = 7;
/// The outbox has no file of that name.
const NO_SUCH_FILE: u32 = 21;
/// A name isn't as it must be.
const BAD_NAME: u32 = 22;
/// No number is left.
pub(crate) const NUMBERS_SPENT: u32 = 25;
/// The outbox failed to give octets of a file.
const SOURCE_FAULT: u32 = 26;
/// The transaction has no record here.
const UNKNOWN: u32 = 31;

/// Returns the number of the answer to a file that is added.
pub(crate) fn of_add(answer: Result<(), AddError>) -> u32
    ensures { result ≡ add_answer answer }
{
    match answer {
        Ok(()) => OK,
        Err(AddError::Taken) => 11,
        Err(AddError::NoMemory) => NO_MEMORY,
    }
}

/// Returns the number of the answer to a caller that removes a file from the outbox.
pub(crate) fn of_remove(answer: Result<(), RemoveError>) -> u32
    ensures { result ≡ remove_answer answer }
{
    match answer {
        Ok(()) => OK,
        Err(RemoveError::NoSuchFile) => NO_SUCH_FILE,
        Err(RemoveError::InUse) => 15,
    }
}

/// Returns the number of why no station over folders can be opened.
pub(crate) fn of_folders(error: FoldersError) -> u32
    ensures { result ≡ folders_code error }
{
    match error {
        FoldersError::NoOutbox => 12,
        FoldersError::NoInbox => 13,
        FoldersError::InboxInUse => 14,
        FoldersError::NoMemory => NO_MEMORY,
    }
}

/// Returns the number of why no station over folders with a journal can be opened.
pub(crate) fn of_journaled(error: JournaledError) -> u32
    ensures { result ≡ journaled_code error }
{
    match error {
        JournaledError::Folders(error) => of_folders(error),
        JournaledError::NoJournal => 16,
        JournaledError::InUse => 17,
        JournaledError::OfOthers => 18,
        JournaledError::Misplaced => 19,
    }
}

/// Returns the number of why the outbox failed to look for a file.
pub(crate) fn of_look(error: StoreError) -> u32
    ensures { result ≡ look_code error }
{
    match error {
        StoreError::Name => BAD_NAME,
        StoreError::Device => SOURCE_FAULT,
        StoreError::NoMemory => NO_MEMORY,
    }
}

/// Returns the number of the answer to a call for the next frame.
pub(crate) fn of_frame(lane: Option<Lane>) -> u32
    ensures { MatchOption lane (result ≡ codes.nothing) (λ _. result ≡ codes.ok) }
{
    match lane {
        Some(_) => OK,
        None => NOTHING,
    }
}

/// Returns the number of the answer to a put.
pub(crate) fn of_put(answer: Result<TransactionId, PutError>) -> u32
    ensures { result ≡ put_answer answer }
{
    match answer {
        Ok(_) => OK,
        Err(PutError::NoSuchFile) => NO_SUCH_FILE,
        Err(PutError::Name) => BAD_NAME,
        Err(PutError::TooLarge) => 23,
        Err(PutError::TableFull) => 24,
        Err(PutError::NumbersSpent) => NUMBERS_SPENT,
        Err(PutError::SourceFault) => SOURCE_FAULT,
        Err(PutError::NoMemory) => NO_MEMORY,
    }
}

/// Returns the number of the answer to a request of a transaction.
pub(crate) fn of_request(answer: Result<(), RequestError>) -> u32
    ensures { result ≡ request_answer answer }
{
    match answer {
        Ok(()) => OK,
        Err(RequestError::Unknown) => UNKNOWN,
        Err(RequestError::AlreadyClosed) => 32,
        Err(RequestError::WrongSide) => 33,
        Err(RequestError::AlreadySo) => 34,
        Err(RequestError::NoMemory) => NO_MEMORY,
    }
}

/// Returns the number of the answer to a record that is dropped.
pub(crate) fn of_forget(answer: Result<(), ForgetError>) -> u32
    ensures { result ≡ forget_answer answer }
{
    match answer {
        Ok(()) => OK,
        Err(ForgetError::Unknown) => UNKNOWN,
        Err(ForgetError::StillOpen) => 35,
        Err(ForgetError::AnswerDue) => 36,
        Err(ForgetError::NoMemory) => NO_MEMORY,
    }
}

/// Returns the number of the answer to a poll.
pub(crate) fn of_poll(answer: Result<Polled, AllocError>) -> u32
    ensures { result ≡ poll_answer answer }
{
    match answer {
        Ok(Polled::Moved) => OK,
        Ok(Polled::Nothing) => NOTHING,
        Ok(Polled::Full) => 41,
        Ok(Polled::SourceFailed) => SOURCE_FAULT,
        Err(_) => NO_MEMORY,
    }
}

/// Returns the number of the answer to a call for the next frame that leaves.
pub(crate) fn of_transmit(answer: Result<Option<Lane>, AllocError>) -> u32
    ensures { result ≡ transmit_answer answer }
{
    match answer {
        Ok(Some(_)) => OK,
        Ok(None) => NOTHING,
        Err(_) => NO_MEMORY,
    }
}

/// Returns the number of the answer to a call that fails only if memory runs out.
pub(crate) fn of_memory(answer: Result<(), AllocError>) -> u32
    ensures { result ≡ memory_answer answer }
{
    match answer {
        Ok(()) => OK,
        Err(_) => NO_MEMORY,
    }
}

/// Returns the number of why a secured frame is refused.
pub(crate) fn of_refusal(cause: FrameRefusal) -> u32
    ensures { result ≡ codes.refusal_code cause }
{
    match cause {
        FrameRefusal::Short => 101,
        FrameRefusal::Damaged => 102,
        FrameRefusal::UnknownSpi => 103,
        FrameRefusal::NotAuthentic => 104,
        FrameRefusal::Replayed => 105,
    }
}
