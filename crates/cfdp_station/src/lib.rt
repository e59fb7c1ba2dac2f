//! A station: an entity of CFDP, class 2 (CCSDS 727.0-B-5), over both directions of one link.
//!
//! What its entity must send goes down as packets in AOS transfer frames (CCSDS 133.0-B-2,
//! 732.0-B-4), one PDU at a time: file data on one virtual channel, and directives on another,
//! whose frames leave first. Of each frame that it takes, its entity hears the PDUs that come up,
//! in order.
//!
//! ```
//! let sends = LinkConfig {
//!     spacecraft: 42,
//!     virtual_channel: 1,
//!     data_virtual_channel: 3,
//!     zone: 1024,
//!     apid: 100,
//!     fields: FrameFields::NONE,
//! };
//! let receives = LinkConfig {
//!     virtual_channel: 2,
//!     data_virtual_channel: 4,
//!     ..sends
//! };
//! let config = StationConfig::new(EntityConfig::new(1, 2), sends, receives).validate()?;
//! let mut station = Station::new(alloc, config, outbox, inbox)?;
//! station.put(b"a.txt", b"b.txt")?;
//!
//! let mut frame = Vec::new(alloc);
//! while station.transmit(&mut frame)?.is_some() {
//!     peer.receive(&frame);
//! }
//! ```
//!
//! A program drives a station by four calls, in any order and as often as it likes:
//!
//! - [`tick`](Station::tick) gives it the time, by any clock that starts near 0: the configured
//!   times are in its units. Call it before the other calls, and at the latest at
//!   [`next_timeout`](Station::next_timeout): what wasn't answered until then is sent again, or
//!   given up at its limit.
//! - [`receive`](Station::receive) gives it a frame that arrived, whatever it has. A frame that
//!   isn't of the peer is dropped and counted.
//! - [`transmit`](Station::transmit) gives the next frame to send. Call it until it answers `None`,
//!   or as often as the link has room. After `None` there is nothing to send until the user asks
//!   for something, a frame arrives, or `next_timeout` is reached.
//! - [`next_indication`](Station::next_indication) says what became of the transactions. Discard
//!   indications, and what is kept of transactions that are over
//!   ([`forget_closed`](Station::forget_closed)), from time to time: both stay until then.
//!
//! [`put`](Station::put), [`cancel`](Station::cancel), [`suspend`](Station::suspend) and the other
//! requests may come at any time. The crate `station_example` is a program that does all of this.
//!
//! Tested by `tests/transcripts/setups.txt` and, through the program, by `tests/rows/`.
#![tactic(auto)]

mod amiss;
mod config;
mod counters;
mod forgetting;
mod laws;
mod looking;
mod moving;
mod polled;
mod pumping;
mod removing_sources;
mod restoring;
mod station;
mod transmitting;

pub use amiss::StationField;
pub use aos_frame::FrameError;
pub use cfdp_directives::{
    ChecksumKind, Condition, Delivery, FileStatus, Handler, Handlers, Indication, Limits, Octets,
    PduError, Phase, Policy, Times,
};
pub use cfdp_entity::{
    AddError, CommittedReceiver, CommittedSender, EntityConfig, EntityDrop, EntityField, Extents,
    ForgetError, ForgottenNumbers, PutError, Record, Records, RemoveError, Request, RequestError,
    RestoreError, SentPdus, Transactions,
};
pub use cfdp_header::{HeaderError, TransactionId};
pub use cfdp_store::{Inbox, Outbox, ResumingInbox, SeekingOutbox, SteadyOutbox, StoreError};
pub use cfdp_timers::Kind as Timer;
pub use config::{DEFAULT_CAPACITY, LEAST_CAPACITY, MOST_CAPACITY, StationConfig};
pub use counters::{Counters, FrameDrops, PduDrops};
pub use laws::a_station_hears_what_was_sent;
pub use link_stack::{FrameFields, Lane, LinkConfig, LinkDrop, LinkField};
pub use polled::Polled;
pub use pumping::{PollWatch, Until};
pub use station::Station;
pub use valid_config::{Config, Valid};
