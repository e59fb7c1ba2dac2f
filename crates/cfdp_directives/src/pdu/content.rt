ghost use Rattle.std.specs.Prelude.{◌≡◌, ◌+◌, ◌^◌, ◌<◌, ◌↔◌, IsTrue};
ghost use Rattle.cfdp_directives.specs.Pdu.Codes.{file_size_octets};
ghost use Rattle.cfdp_directives.specs.Pdu.Content.{view, pdu_type_of};
ghost use Rattle.cfdp_directives.specs.Pdu.Written.{content_len, FitsContent};

use crate::pdu::codes::{
    Acknowledged, ChecksumKind, Condition, Delivery, FileStatus, TransactionStatus,
};
use crate::pdu::file_size::{file_size_octets, is_file_size};
use crate::pdu::pairs::SegmentRequests;
use crate::pdu::tlv::Tlvs;
use cfdp_header::PduType;

/// What a PDU says (CCSDS 727.0-B-5, 5.2 and 5.3). If it was read, its texts, data, pairs and
/// options lie in the octets that were read.
#[derive(Debug, Drop, PartialEq, Eq)]
pub enum Pdu<'a> {
    /// Octets of the file.
    FileData {
        /// Where the first of them stands in the file.
        offset: u64,
        bytes: &'a [u8],
    },
    /// The file's size and names.
    Metadata {
        checksum_kind: ChecksumKind,
        /// Octets of the file.
        size: u64,
        /// Its name at the sender: 0 to 255 octets.
        source: &'a [u8],
        /// Its name at the receiver: 0 to 255 octets.
        destination: &'a [u8],
        /// Read, and not carried out by this stack.
        options: Tlvs<'a>,
    },
    /// The end of the file.
    Eof {
        condition: Condition,
        /// The checksum of the whole file, 0 if its type is null.
        checksum: u32,
        /// Octets of the file.
        size: u64,
        /// The fault location, if the condition is other than 0.
        tlvs: Tlvs<'a>,
    },
    /// How the transaction ended at the receiver.
    Finished {
        condition: Condition,
        delivery: Delivery,
        status: FileStatus,
        /// The fault location, if the condition is other than 0 and 11.
        tlvs: Tlvs<'a>,
    },
    /// An EOF or a Finished was received.
    Ack {
        of: Acknowledged,
        /// The condition of the PDU that is acknowledged.
        condition: Condition,
        status: TransactionStatus,
    },
    /// What is missing at the receiver.
    Nak {
        /// The offset at which its scope starts.
        start: u64,
        /// The offset at which its scope ends.
        end: u64,
        /// The segment requests: the ranges that are asked for. (0, 0) asks for Metadata.
        requests: SegmentRequests<'a>,
    },
    /// The sender asks for a NAK or a Keep Alive.
    Prompt {
        /// True if it asks for a Keep Alive, false if it asks for a NAK.
        keep_alive: bool,
    },
    /// How far the receiver came.
    KeepAlive {
        /// The offset up to which it holds file data.
        progress: u64,
    },
}

impl Pdu<'_> {
    /// Returns the number of octets of its written data field: the `length` of its header, which
    /// counts a CRC too. They depend on whether the file is large, since file-size fields do.
    pub fn len(&self, large: bool) -> usize
        requires { content_len (file_size_octets large) (view self.now) < 2 ^ 64 }
        ensures { result ≡ content_len (file_size_octets large) (view self.now) }
    {
        let width = file_size_octets(large);
        match self {
            Pdu::FileData { bytes, .. } => width + bytes.len(),
            Pdu::Metadata {
                source,
                destination,
                options,
                ..
            } => 4 + width + source.len() + destination.len() + options.octets().len(),
            Pdu::Eof { tlvs, .. } => 6 + width + tlvs.octets().len(),
            Pdu::Finished { tlvs, .. } => 2 + tlvs.octets().len(),
            Pdu::Ack { .. } => 3,
            Pdu::Nak { requests, .. } => 1 + 2 * width + 2 * width * requests.len(),
            Pdu::Prompt { .. } => 2,
            Pdu::KeepAlive { .. } => 1 + width,
        }
    }

    /// Returns its PDU type, file data or directive: the `pdu_type` of its header.
    pub(crate) fn pdu_type(&self) -> PduType
        ensures { result ≡ pdu_type_of (view self.now) }
    {
        match self {
            Pdu::FileData { .. } => PduType::FileData,
            _ => PduType::FileDirective,
        }
    }

    /// Returns `true` if its content can be written: sizes and offsets must fit a file-size field,
    /// and names must have at most 255 octets.
    pub fn fits(&self, large: bool) -> bool
        ensures { IsTrue result ↔ FitsContent (file_size_octets large) (view self.now) }
    {
        match self {
            Pdu::FileData { offset, .. } => is_file_size(large, *offset),
            Pdu::Metadata {
                checksum_kind,
                size,
                source,
                destination,
                ..
            } => {
                // For the prover: the invariant of the checksum type.
                let _any_kind_fits = checksum_kind.code();
                is_file_size(large, *size) && source.len() < 256 && destination.len() < 256
            }
            Pdu::Eof {
                condition,
                checksum,
                size,
                ..
            } => {
                // For the prover: the invariant of the condition, and that a `u32` has a range.
                let _any_fits = (condition.code(), *checksum);
                is_file_size(large, *size)
            }
            Pdu::Finished { condition, .. } | Pdu::Ack { condition, .. } => {
                // For the prover: the invariant of the condition.
                let _any_condition_fits = condition.code();
                true
            }
            Pdu::Nak {
                start,
                end,
                requests,
            } => { is_file_size(large, *start) && is_file_size(large, *end) && requests.fit(large) }
            Pdu::Prompt { .. } => true,
            Pdu::KeepAlive { progress } => is_file_size(large, *progress),
        }
    }

    /// Returns `true` if its data field has this length, with a CRC of so many octets at its end.
    pub(crate) fn has_len(&self, large: bool, crc_len: usize, len: u16) -> bool
        ensures { IsTrue result
            ↔ (len ≡ content_len (file_size_octets large) (view self.now) + crc_len) }
    {
        let len = usize::from(len);
        crc_len <= len && self.has_short_parts(large) && self.len(large) == len - crc_len
    }

    /// Returns `true` if each part of it can stand in a data field, so that their sum is a number.
    fn has_short_parts(&self, large: bool) -> bool
        ensures short { IsTrue result
            → content_len (file_size_octets large) (view self.now) < 2 ^ 64 }
        ensures all { content_len (file_size_octets large) (view self.now) < 2 ^ 16
            → IsTrue result }
    {
        let most = usize::from(u16::MAX);
        match self {
            Pdu::FileData { bytes, .. } => bytes.len() <= most,
            Pdu::Metadata {
                source,
                destination,
                options,
                ..
            } => {
                source.len() <= most && destination.len() <= most && options.octets().len() <= most
            }
            Pdu::Eof { tlvs, .. } | Pdu::Finished { tlvs, .. } => tlvs.octets().len() <= most,
            Pdu::Nak { requests, .. } => requests.len() <= most,
            Pdu::Ack { .. } | Pdu::Prompt { .. } | Pdu::KeepAlive { .. } => true,
        }
    }
}
