//! Captures of packets, as Wireshark and tcpdump write them: pcap (draft-ietf-opsawg-pcap) and
//! pcapng (draft-ietf-opsawg-pcapng), in either order of octets, and the UDP payloads in them.
//!
//! A [`Capture`] takes one record or block after the other off the front of a file, and
//! [`unit_of`] finds what a UDP datagram carries in the octets of a packet:
//!
//! ```
//! if let Some(mut capture) = Capture::of(alloc, &file) {
//!     let mut rest = &file[..];
//!     while !rest.is_empty() {
//!         let (item, behind) = capture.take(rest)?;
//!         if let Item::Packet(packet) = item {
//!             let unit = unit_of(packet);
//!         }
//!         rest = behind;
//!     }
//! }
//! ```
//!
//! Tested by `tests/captures.py`, through the program.
#![tactic(auto)]

mod block;
mod fault;
mod order;
mod packet;
mod reader;
mod record;
mod unit;

pub use fault::CaptureFault;
pub use order::ByteOrder;
pub use packet::{CapturedPacket, Interface};
pub use reader::{Capture, Item, Next, PlacedFault};
pub use unit::{SkipCause, unit_of};
