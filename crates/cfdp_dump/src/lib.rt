//! Dumps: what octets spell, in lines, and what lines of digits and captures hold.
//!
//! Frames are read as they passed, without knowing their link: `Channels` has the packets in the
//! frames of any virtual channels, whatever their spacecraft.
//!
//! Tested by `tests/rows/dumps.rows` and `tests/captures.py`, through the program above.
#![tactic(auto)]

mod channel;
mod channels;
mod dump;
mod spelled;

pub use dump::{DumpKind, DumpRequest, run_dump};
pub use spelled::form::DumpForm;
pub use spelled::refusal::LineRefusal;
pub use spelled::shape::{FrameShape, FrameShapes};
pub use spelled::{write_frame, write_pdu};
