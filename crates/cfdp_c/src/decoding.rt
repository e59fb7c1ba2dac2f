//! What one PDU says.
ghost use Rattle.std.specs.Prelude.{◌≡◌, ◌≢◌};
ghost use Rattle.cfdp_header.specs.declared.value.Header.{Header};
ghost use Rattle.cfdp_directives.specs.Pdu.Content.{Content, view};
ghost use Rattle.cfdp_directives.specs.Pdu.Faults.{pdu_fault};
ghost use Rattle.cfdp_directives.specs.Pdu.Grammar.{SpellsPdu};
ghost use Rattle.cfdp_c.specs.Codes.{ok, pdu_answer};
ghost use Rattle.cfdp_c.specs.Told.{said_by, pdu_of_kind};

use crate::calls::CfdpId;
use crate::codes::OK;
use cfdp_directives::{Pdu, decode};
use cfdp_header::Header;

/// A PDU as a plain struct. A field that its kind hasn't is 0.
#[repr(C)]
#[derive(Clone, Copy)]
pub struct CfdpPdu {
    /// The transaction.
    pub id: CfdpId,
    /// The entity that receives the file.
    pub destination: u64,
    /// The offset of the file data (0), the start of a NAK's scope (8), or the progress (12).
    pub offset: u64,
    /// Octets of the file (4, 7), or the end of a NAK's scope (8).
    pub size: u64,
    /// Octets of file data (0): the last ones of the PDU, except its CRC.
    pub data_len: usize,
    /// How many ranges a NAK asks for (8).
    pub pairs: usize,
    /// The checksum of the file (4).
    pub checksum: u32,
    /// 0 file data, 4 EOF, 5 Finished, 6 ACK, 7 Metadata, 8 NAK, 9 Prompt, 12 Keep Alive.
    pub kind: u8,
    /// 1 if it goes toward the file's sender.
    pub toward_sender: u8,
    /// The condition code (4, 5, 6).
    pub condition: u8,
    /// 0 complete, 1 incomplete (5).
    pub delivery: u8,
    /// The status of the file (5) or of the transaction (6).
    pub status: u8,
    /// The code of the directive that is acknowledged, 4 or 5 (6).
    pub acknowledged: u8,
    /// The code of the checksum (7).
    pub checksum_kind: u8,
    /// 1 if a Keep Alive is asked for, 0 if a NAK is (9).
    pub keep_alive: u8,
    /// 1 if sizes and offsets have 8 octets, 0 if they have 4.
    pub large: u8,
    /// 1 if the PDU ends in a CRC, of 2 octets, otherwise 0.
    pub crc: u8,
}

impl CfdpPdu {
    fn of_kind(kind: u8, header: &Header) -> CfdpPdu
        ensures { result ≡ pdu_of_kind kind header.now }
    {
        CfdpPdu {
            id: CfdpId {
                source: header.id.source,
                number: header.id.number,
            },
            destination: header.destination,
            offset: 0,
            size: 0,
            data_len: 0,
            pairs: 0,
            checksum: 0,
            kind,
            toward_sender: header.direction.bit(),
            condition: 0,
            delivery: 0,
            status: 0,
            acknowledged: 0,
            checksum_kind: 0,
            keep_alive: 0,
            large: u8::from(header.large),
            crc: u8::from(header.crc),
        }
    }

    fn of(header: &Header, pdu: &Pdu<'_>) -> CfdpPdu
        ensures { result ≡ said_by header.now (view pdu.now) }
    {
        match pdu {
            Pdu::FileData { offset, bytes } => CfdpPdu {
                offset: *offset,
                data_len: bytes.len(),
                ..CfdpPdu::of_kind(0, header)
            },
            Pdu::Eof {
                condition,
                checksum,
                size,
                ..
            } => CfdpPdu {
                condition: condition.code(),
                checksum: *checksum,
                size: *size,
                ..CfdpPdu::of_kind(4, header)
            },
            Pdu::Finished {
                condition,
                delivery,
                status,
                ..
            } => CfdpPdu {
                condition: condition.code(),
                delivery: delivery.code(),
                status: status.code(),
                ..CfdpPdu::of_kind(5, header)
            },
            Pdu::Ack {
                of,
                condition,
                status,
            } => CfdpPdu {
                acknowledged: of.code(),
                condition: condition.code(),
                status: status.code(),
                ..CfdpPdu::of_kind(6, header)
            },
            Pdu::Metadata {
                checksum_kind,
                size,
                ..
            } => CfdpPdu {
                checksum_kind: checksum_kind.code(),
                size: *size,
                ..CfdpPdu::of_kind(7, header)
            },
            Pdu::Nak {
                start,
                end,
                requests,
            } => CfdpPdu {
                offset: *start,
                size: *end,
                pairs: requests.len(),
                ..CfdpPdu::of_kind(8, header)
            },
            Pdu::Prompt { keep_alive } => CfdpPdu {
                keep_alive: u8::from(*keep_alive),
                ..CfdpPdu::of_kind(9, header)
            },
            Pdu::KeepAlive { progress } => CfdpPdu {
                offset: *progress,
                ..CfdpPdu::of_kind(12, header)
            },
        }
    }
}

/// Reads a PDU. Returns 0, or 50 more than the number of the first thing that is wrong with it, 1
/// to 11, but not 6.
#[unsafe(no_mangle)]
pub extern "C" fn cfdp_decode(pdu: &[u8], out: &mut CfdpPdu) -> u32
    ensures answer { result ≡ pdu_answer (pdu_fault pdu.now) }
    ensures said { (h : Header) (v : Content) → SpellsPdu h v pdu.now → out.new ≡ said_by h v }
    ensures kept { result ≢ ok → out.new ≡ out.old }
{
    match decode(pdu) {
        Ok((header, said)) => {
            *out = CfdpPdu::of(&header, &said);
            OK
        }
        Err(error) => 50 + u32::from(error.number()),
    }
}
