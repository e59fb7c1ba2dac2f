//! HMAC-SHA-256: message authentication codes (MACs), which only the holder of a key can make (RFC
//! 2104, with the hash function of FIPS 180-4).
//!
//! A [`Key`] keeps the states of the hash function after its two blocks. So a message costs its own
//! octets and two blocks more, however often the key is used:
//!
//! ```text
//! let key = Key::new(&octets);
//! let mut mac = key.begin();
//! mac.update(b"what do ya want ");
//! mac.update(b"for nothing?");
//! let code = mac.finish();
//! if are_same(&code, &received) {} // whoever made it has the key
//! ```
//!
//! None of the calls allocates memory or can fail.
//!
//! What is proved is which octets a MAC has. That nobody can make one without the key is the
//! assumption on which users of HMAC rely; no proof shows it. Nothing is proved of time:
//! [`are_same`] looks at each octet in its source, whatever a compiler makes of it. A key stays in
//! memory until the memory is used again: it is not overwritten. No type here implements `Debug`,
//! so that no key is printed.
//!
//! Tested by its own tests: the cases of RFC 4231.
#![tactic(auto)]

mod key;
mod mac;
mod same;
#[cfg(test)]
mod tests;

pub use key::Key;
pub use mac::Mac;
pub use same::are_same;

/// The octets of a block of SHA-256.
pub const BLOCK_LEN: usize = 64;

/// The octets of a whole MAC.
pub const MAC_LEN: usize = 32;
