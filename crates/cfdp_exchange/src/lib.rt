//! What the parts of a station let each other know while it runs: how many frames were sent, came
//! and are missing, which datagrams were dropped or refused, what the peer's beacon said, which
//! keys come next, and which sockets a wait looks at.
//!
//! Tested by `tests/rows/stations.rows`, `tests/stations.py` and `tests/relay.py`, through the
//! program above.
#![tactic(auto)]

mod beacon;
mod drops;
mod exchange;
mod lost_frames;
mod notes;
mod refusals;
mod watched;

pub use beacon::{Agreed, BEACON_LEN, Beacon};
pub use drops::{CarrierDrop, CarrierTally};
pub use exchange::{Exchange, Stop};
pub use lost_frames::{FrameGaps, FrameMonitor, is_often_late};
pub use notes::{Note, NoteKind, NoteQueue, NoteTopic};
pub use refusals::{REFUSALS, RefusalTally, refusal_name};
pub use watched::Watched;
