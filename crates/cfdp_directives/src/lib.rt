//! The PDUs of CFDP, class 2: file data, Metadata, EOF, Finished, ACK, NAK, Prompt and Keep Alive
//! (CCSDS 727.0-B-5, 5.2 and 5.3), the checksum of a file, and what an entity indicates to its
//! user.
//!
//! ```
//! match cfdp_directives::decode(octets) {
//!     Ok((_, Pdu::Nak { requests, .. })) => println!(rt; "{} ranges", requests.len())?,
//!     Ok((header, _)) => println!(rt; "{} octets of content", header.length)?,
//!     Err(refused) => println!(rt; "refused: {}", refused.name())?,
//! }
//! ```
//!
//! Tested by `tests/transcripts/pdus.txt` and `tests/transcripts/rules.txt`.
#![tactic(auto)]

mod pdu;
mod user;

pub use pdu::addressing::{
    Addressing, addressed_pdu_can_be_written, addressed_pdu_goes_to_the_other_end,
};
pub use pdu::checksum::{Checksum, whole_file_has_its_checksum};
pub use pdu::codes::{
    Acknowledged, ChecksumKind, Condition, Delivery, FileStatus, TransactionStatus,
};
pub use pdu::content::Pdu;
pub use pdu::direction::{direction_fits, is_for};
pub use pdu::error::PduError;
pub use pdu::file_size::{is_file_size, is_large, size_limit};
pub use pdu::laws::{a_pdu_read_can_be_answered, no_pdu_begins_another, written_pdu_is_read};
pub use pdu::lengths::{
    ack_len, eof_len, fault_location_len, file_data_len, finished_len, keep_alive_len,
    metadata_len, nak_len, prompt_len,
};
pub use pdu::octets::Octets;
pub use pdu::pair_iter::PairIter;
pub use pdu::pairs::SegmentRequests;
pub use pdu::reading::decode;
pub use pdu::sums::{Checksums, checksums_go_on, cut_file_has_its_checksum};
pub use pdu::tlv::Tlvs;
pub use pdu::tlv_iter::TlvIter;
pub use pdu::writing::{can_write, encode};
pub use user::file_name::is_file_name;
pub use user::handler::{Handler, Handlers};
pub use user::indication::Indication;
pub use user::limits::{Limits, Times};
pub use user::phase::Phase;
pub use user::policy::Policy;
pub use user::telling::{Outcome, another_try, indicate, indicate_fault};
