ghost use Rattle.std.specs.Prelude.{◌≡◌};
ghost use Rattle.cfdp_entity.specs.Errors as errors;

use cfdp_directives::PduError;
use cfdp_header::HeaderError;
use thiserror::Error;

/// Why a PDU that was heard is dropped: the first cause that holds, in the order in which they are
/// reported.
#[derive(Clone, Copy, Debug, PartialEq, Eq, Error)]
pub enum EntityDrop {
    /// The octets are no PDU. Reported first. The large file flag of a header is never the cause.
    #[error("{0}")]
    Pdu(PduError),
    /// The direction bit of the header isn't the one for what the PDU says.
    #[error("the direction bit is wrong for this PDU")]
    WrongDirection,
    /// By direction, the ids of source and destination are not the peer's and this entity's.
    #[error("the PDU is not for this entity, or not from its peer")]
    NotForUs,
    /// Metadata names no file: a name is empty.
    #[error("a file name is empty")]
    NoFile,
    /// An ACK, a NAK, a Prompt or a Keep Alive of a transaction that has no record here.
    #[error("unknown transaction")]
    Unknown,
    /// There is no room for one more record, or for one more stray acknowledgement.
    #[error("the transaction table is full")]
    TableFull,
    /// There is no memory for what the PDU brings. Reported last.
    #[error("out of memory")]
    NoMemory,
}

impl EntityDrop {
    /// All causes, in the order of their numbers. The sixth, the large file flag of a header, keeps
    /// its number, but is reported of no PDU.
    pub const ALL: [EntityDrop; 17] = [
        EntityDrop::Pdu(PduError::Header(HeaderError::Short)),
        EntityDrop::Pdu(PduError::Header(HeaderError::Version)),
        EntityDrop::Pdu(PduError::Header(HeaderError::BadCrc)),
        EntityDrop::Pdu(PduError::Header(HeaderError::Length)),
        EntityDrop::Pdu(PduError::Header(HeaderError::Unacknowledged)),
        EntityDrop::Pdu(PduError::Header(HeaderError::LargeFile)),
        EntityDrop::Pdu(PduError::Directive),
        EntityDrop::Pdu(PduError::Truncated),
        EntityDrop::Pdu(PduError::Trailing),
        EntityDrop::Pdu(PduError::Tlv),
        EntityDrop::Pdu(PduError::Condition),
        EntityDrop::WrongDirection,
        EntityDrop::NotForUs,
        EntityDrop::Unknown,
        EntityDrop::TableFull,
        EntityDrop::NoMemory,
        EntityDrop::NoFile,
    ];

    /// Returns why the octets are no PDU, if that is the cause.
    pub fn source(self) -> Option<PduError>
        ensures { result ≡ errors.drop_source self }
    {
        match self {
            EntityDrop::Pdu(error) => Some(error),
            _ => None,
        }
    }

    /// Returns the number that names this cause in reports: 1 to 17.
    pub fn number(self) -> u8
        ensures { result ≡ errors.drop_number self }
    {
        match self {
            EntityDrop::Pdu(e) => e.number(),
            EntityDrop::WrongDirection => 12,
            EntityDrop::NotForUs => 13,
            EntityDrop::Unknown => 14,
            EntityDrop::TableFull => 15,
            EntityDrop::NoMemory => 16,
            EntityDrop::NoFile => 17,
        }
    }

    /// Returns the name of this cause in reports: the variant's, or the refusal's if the octets are
    /// no PDU.
    pub fn name(self) -> &'static str
        ensures { result.now ≡ errors.drop_name self }
    {
        match self {
            EntityDrop::Pdu(e) => e.name(),
            EntityDrop::WrongDirection => "WrongDirection",
            EntityDrop::NotForUs => "NotForUs",
            EntityDrop::Unknown => "Unknown",
            EntityDrop::TableFull => "TableFull",
            EntityDrop::NoMemory => "NoMemory",
            EntityDrop::NoFile => "NoFile",
        }
    }
}

/// Why a put is refused: the first cause that holds, in the order in which they are reported.
#[derive(Clone, Copy, Debug, PartialEq, Eq, Error)]
pub enum PutError {
    /// A name has no octet, or more than 255. Reported first.
    #[error("file names must be 1 to 255 octets")]
    Name,
    /// There is no room for one more record.
    #[error("the transaction table is full")]
    TableFull,
    /// The next sequence number doesn't fit its width.
    #[error("no sequence number is left")]
    NumbersSpent,
    /// The outbox failed when it was asked for the file.
    #[error("the outbox could not read the file")]
    SourceFault,
    /// The outbox has no file of that name.
    #[error("no such file")]
    NoSuchFile,
    /// The file has more than 2^48 octets.
    #[error("file must be at most 2^48 octets")]
    TooLarge,
    /// There is no memory for the record. Reported last.
    #[error("out of memory")]
    NoMemory,
}

impl PutError {
    /// Returns the number that names this refusal in reports: 1 to 7.
    pub fn number(self) -> u8
        ensures { result ≡ errors.put_number self }
    {
        match self {
            PutError::NoSuchFile => 1,
            PutError::Name => 2,
            PutError::TooLarge => 3,
            PutError::TableFull => 4,
            PutError::NumbersSpent => 5,
            PutError::SourceFault => 6,
            PutError::NoMemory => 7,
        }
    }

    /// Returns the name of this refusal in reports: the variant's.
    pub fn name(self) -> &'static str
        ensures { result.now ≡ errors.put_name self }
    {
        match self {
            PutError::NoSuchFile => "NoSuchFile",
            PutError::Name => "Name",
            PutError::TooLarge => "TooLarge",
            PutError::TableFull => "TableFull",
            PutError::NumbersSpent => "NumbersSpent",
            PutError::SourceFault => "SourceFault",
            PutError::NoMemory => "NoMemory",
        }
    }
}

/// Why a call on a transaction is refused: the first cause that holds, in the order in which they
/// are reported.
#[derive(Clone, Copy, Debug, PartialEq, Eq, Error)]
pub enum RequestError {
    /// The transaction has no record here. Reported first.
    #[error("unknown transaction")]
    Unknown,
    /// A prompt is for the file's sender alone.
    #[error("only the file's sender can prompt")]
    WrongSide,
    /// The transaction is no longer sent or received.
    #[error("the transaction is over")]
    AlreadyClosed,
    /// It is suspended already, or isn't suspended, or a Prompt is due already. Never reported of a
    /// cancel.
    #[error("already in that state")]
    AlreadySo,
    /// There is no memory for what the call indicates. Reported last.
    #[error("out of memory")]
    NoMemory,
}

impl RequestError {
    /// Returns the number that names this refusal in reports: 1 to 5.
    pub fn number(self) -> u8
        ensures { result ≡ errors.call_number self }
    {
        match self {
            RequestError::Unknown => 1,
            RequestError::AlreadyClosed => 2,
            RequestError::WrongSide => 3,
            RequestError::AlreadySo => 4,
            RequestError::NoMemory => 5,
        }
    }

    /// Returns the name of this refusal in reports: the variant's.
    pub fn name(self) -> &'static str
        ensures { result.now ≡ errors.call_name self }
    {
        match self {
            RequestError::Unknown => "Unknown",
            RequestError::AlreadyClosed => "AlreadyClosed",
            RequestError::WrongSide => "WrongSide",
            RequestError::AlreadySo => "AlreadySo",
            RequestError::NoMemory => "NoMemory",
        }
    }
}

/// Why a record isn't discarded: the first cause that holds, in the order in which they are
/// reported.
#[derive(Clone, Copy, Debug, PartialEq, Eq, Error)]
pub enum ForgetError {
    /// The transaction has no record here. Reported first.
    #[error("unknown transaction")]
    Unknown,
    /// The transaction isn't closed.
    #[error("the transaction is still open")]
    StillOpen,
    /// It has an acknowledgement due, which a poll sends.
    #[error("an acknowledgement must be sent first")]
    AnswerDue,
    /// There is no memory to keep that it is over. Reported last.
    #[error("out of memory")]
    NoMemory,
}

/// Why a file isn't removed from an outbox in memory: the first cause that holds, in this order.
#[derive(Clone, Copy, Debug, PartialEq, Eq, Error)]
pub enum RemoveError {
    /// The outbox has no file of that name.
    #[error("no such file")]
    NoSuchFile,
    /// A transaction that isn't over is sending the file.
    #[error("a transaction is still sending the file")]
    InUse,
}

/// Why a file isn't added to an outbox in memory.
#[derive(Clone, Copy, Debug, PartialEq, Eq, Error)]
pub enum AddError {
    /// The outbox has a file of that name already. Reported first.
    #[error("a file of that name already exists")]
    Taken,
    /// There is no memory for the file.
    #[error("out of memory")]
    NoMemory,
}
