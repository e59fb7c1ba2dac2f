// The numbers of the standard that have names.
ghost use Rattle.std.specs.Prelude.{◌≡◌, ℕ, ◌<◌, ◌↔◌, IsSome, IfSome};
ghost use Rattle.cfdp_directives.specs.Pdu.Codes.{IsCondition, delivery_code, file_status_code};
ghost use Rattle.cfdp_directives.specs.Pdu.Codes.{transaction_status_code, acknowledged_code};
ghost use Rattle.cfdp_directives.specs.Pdu.Codes.{acknowledged_subtype, is_known};

use std::marker::Model;

/// Why a transaction ended, or what went wrong in it: a condition code of 4 bits (CCSDS 727.0-B-5,
/// table 5-5). Codes 12 and 13 are no conditions.
#[derive(Clone, Copy, Debug, PartialEq, Eq)]
pub struct Condition {
    code: u8,
}

impl Model for Condition {
    ghost Value = { ℕ };

    ghost view = { λ c. c.code };

    ghost invariant = { λ c. IsCondition c.code };

    ghost inverse = { λ n. record { code = n } };
}

impl Condition {
    /// Nothing went wrong: 0.
    pub const NO_ERROR: Condition = Condition { code: 0 };
    /// What was sent got no answer, however often it was sent: 1.
    pub const POSITIVE_ACK_LIMIT: Condition = Condition { code: 1 };
    /// The receiver is further behind than the sender allows: 2.
    pub const KEEP_ALIVE_LIMIT: Condition = Condition { code: 2 };
    /// A PDU asks for a transmission mode that the entity doesn't have: 3.
    pub const INVALID_TRANSMISSION_MODE: Condition = Condition { code: 3 };
    /// The filestore refused the file: 4.
    pub const FILESTORE_REJECTION: Condition = Condition { code: 4 };
    /// The file received has another checksum than its sender gave: 5.
    pub const FILE_CHECKSUM_FAILURE: Condition = Condition { code: 5 };
    /// File data pass the end of the file that its sender gave: 6.
    pub const FILE_SIZE_ERROR: Condition = Condition { code: 6 };
    /// What is missing was asked for as often as is allowed, and did not come: 7.
    pub const NAK_LIMIT: Condition = Condition { code: 7 };
    /// No PDU of the transaction was received for too long: 8.
    pub const INACTIVITY: Condition = Condition { code: 8 };
    /// The file was looked at as often as is allowed, and was not whole: 10.
    pub const CHECK_LIMIT: Condition = Condition { code: 10 };
    /// The file's checksum is of a type that isn't known here: 11.
    pub const UNSUPPORTED_CHECKSUM_TYPE: Condition = Condition { code: 11 };
    /// A user suspended the transaction: 14.
    pub const SUSPEND_REQUEST: Condition = Condition { code: 14 };
    /// A user cancelled the transaction: 15.
    pub const CANCEL_REQUEST: Condition = Condition { code: 15 };

    /// Returns the condition with this code, or `None` if it is 12, 13 or above 15.
    pub fn from_code(code: u8) -> Option<Condition>
        ensures some { IsSome result ↔ IsCondition code }
        ensures value { IfSome result (λ c. c ≡ code) }
    {
        if code < 16 && code != 12 && code != 13 {
            Some(Condition { code })
        } else {
            None
        }
    }

    /// Returns the code: 0 to 15, except 12 and 13.
    pub fn code(self) -> u8
        ensures value { result ≡ self }
        ensures valid { IsCondition result }
    {
        self.code
    }
}

/// What a Finished says of the file's delivery (CCSDS 727.0-B-5, table 5-7).
#[derive(Clone, Copy, Debug, PartialEq, Eq)]
pub enum Delivery {
    /// Metadata, all file data and EOF were received, and the checksum agreed.
    Complete,
    /// Something of it is missing.
    Incomplete,
}

/// What a Finished says of the file at the receiver (CCSDS 727.0-B-5, table 5-7).
#[derive(Clone, Copy, Debug, PartialEq, Eq)]
pub enum FileStatus {
    /// Discarded deliberately.
    Discarded,
    /// Discarded because the filestore rejected it.
    Rejected,
    /// Retained in the filestore.
    Retained,
    /// Not reported.
    Unreported,
}

/// What an ACK says of the transaction at the entity that sends it (CCSDS 727.0-B-5, table 5-8).
#[derive(Clone, Copy, Debug, PartialEq, Eq)]
pub enum TransactionStatus {
    /// The entity doesn't keep what became of its transactions.
    Undefined,
    /// The transaction goes on.
    Active,
    /// The transaction is over, and its entity knows it.
    Terminated,
    /// The entity doesn't know the transaction.
    Unrecognized,
}

/// The directive that an ACK acknowledges (CCSDS 727.0-B-5, table 5-8).
#[derive(Clone, Copy, Debug, PartialEq, Eq)]
pub enum Acknowledged {
    /// The EOF, by the file's receiver.
    Eof,
    /// The Finished, by the file's sender.
    Finished,
}

/// Which checksum a file has: a checksum type of 4 bits (CCSDS 727.0-B-5, 4.2.2), as SANA's
/// registry numbers them. `Checksums` makes the known ones.
#[derive(Clone, Copy, Debug, PartialEq, Eq)]
pub struct ChecksumKind {
    code: u8,
}

impl Model for ChecksumKind {
    ghost Value = { ℕ };

    ghost view = { λ k. k.code };

    ghost invariant = { λ k. k.code < 16 };

    ghost inverse = { λ n. record { code = n } };
}

impl ChecksumKind {
    /// The sum of the file's words: 0.
    pub const MODULAR: ChecksumKind = ChecksumKind { code: 0 };
    /// The check of thirty-two bits of Proximity-1 (CCSDS 211.2-B): 1.
    pub const PROXIMITY: ChecksumKind = ChecksumKind { code: 1 };
    /// CRC-32C, by the polynomial of Castagnoli: 2.
    pub const CASTAGNOLI: ChecksumKind = ChecksumKind { code: 2 };
    /// The CRC-32 of IEEE 802.3, as Ethernet and zip have it: 3.
    pub const IEEE: ChecksumKind = ChecksumKind { code: 3 };
    /// No checksum, which is written as 0: 15.
    pub const NULL: ChecksumKind = ChecksumKind { code: 15 };

    /// Returns the checksum type with this code, or `None` if it is above 15.
    pub fn from_code(code: u8) -> Option<ChecksumKind>
        ensures some { IsSome result ↔ (code < 16) }
        ensures value { IfSome result (λ k. k ≡ code) }
    {
        if code < 16 {
            Some(ChecksumKind { code })
        } else {
            None
        }
    }

    /// Returns the code: 0 to 15.
    pub fn code(self) -> u8
        ensures value { result ≡ self }
        ensures valid { result < 16 }
    {
        self.code
    }

    /// Returns `true` if checksums of this type can be made: types 0 to 3, and the null checksum,
    /// 15.
    #[tactic(auto, unfolding(crate::specs::Pdu::Codes::is_known))]
    pub fn is_known(self) -> bool
        ensures { result ≡ is_known self }
    {
        self.code <= ChecksumKind::IEEE.code || self == ChecksumKind::NULL
    }
}

impl Delivery {
    /// Returns the bit that spells it in a Finished.
    pub fn code(self) -> u8
        ensures { result ≡ delivery_code self }
    {
        match self {
            Delivery::Complete => 0,
            Delivery::Incomplete => 1,
        }
    }
}

impl FileStatus {
    /// Returns the two bits that spell it in a Finished, 0 to 3.
    pub fn code(self) -> u8
        ensures { result ≡ file_status_code self }
    {
        match self {
            FileStatus::Discarded => 0,
            FileStatus::Rejected => 1,
            FileStatus::Retained => 2,
            FileStatus::Unreported => 3,
        }
    }
}

impl TransactionStatus {
    /// Returns the two bits that spell it in an ACK, 0 to 3.
    pub fn code(self) -> u8
        ensures { result ≡ transaction_status_code self }
    {
        match self {
            TransactionStatus::Undefined => 0,
            TransactionStatus::Active => 1,
            TransactionStatus::Terminated => 2,
            TransactionStatus::Unrecognized => 3,
        }
    }
}

impl Acknowledged {
    /// Returns the code of the directive that is acknowledged: 4 for an EOF, 5 for a Finished.
    pub fn code(self) -> u8
        ensures { result ≡ acknowledged_code self }
    {
        match self {
            Acknowledged::Eof => 4,
            Acknowledged::Finished => 5,
        }
    }

    /// Returns the subtype with which an ACK of it is written: 0 for an EOF, 1 for a Finished.
    pub(crate) fn subtype(self) -> u8
        ensures { result ≡ acknowledged_subtype self }
    {
        match self {
            Acknowledged::Eof => 0,
            Acknowledged::Finished => 1,
        }
    }
}
