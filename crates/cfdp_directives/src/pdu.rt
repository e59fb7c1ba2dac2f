//! PDUs: what they say, their octets, the headers of a transaction's PDUs, and a file's checksum.
pub(crate) mod addressing;
pub(crate) mod checksum;
pub(crate) mod codes;
pub(crate) mod content;
pub(crate) mod direction;
pub(crate) mod error;
pub(crate) mod file_size;
pub(crate) mod laws;
pub(crate) mod lengths;
pub(crate) mod octets;
pub(crate) mod pair_iter;
pub(crate) mod pairs;
pub(crate) mod reading;
pub(crate) mod sums;
pub(crate) mod tlv;
pub(crate) mod tlv_iter;
pub(crate) mod writing;
