//! PDUs down to AOS transfer frames (CCSDS 732.0-B-4), a space packet (CCSDS 133.0-B-2) each, and
//! up again.
//!
//! One packet carries one whole PDU. A direction has two lanes, each a virtual channel: directives
//! go on one, file data on the other, so that a directive never waits for file data. A [`Down`]
//! lays the packets of each lane over the frames of its channel, and an [`Up`] returns the PDUs all
//! of whose frames came, in order within a lane. If something can't be read, it is dropped, and
//! each drop is counted under its number.
//!
//! ```
//! let link = link.validate()?;
//! let mut down = Down::new(alloc, link, 8192)?;
//! down.send(&pdu, Lane::Data)?;
//! down.flush(Lane::Data);
//!
//! let mut up = Up::new(alloc, link)?;
//! let mut frame = vec![in alloc; 0u8; down.frame_len()]?;
//! let mut pdus = OctetStrings::new(alloc);
//! while down.next_frame(&mut frame).is_some() {
//!     up.receive(&frame, &mut pdus);
//! }
//! ```
//!
//! Tested by `tests/transcripts/link.txt`.
#![tactic(auto)]

mod down;
mod down_lane;
mod drops;
mod laws;
mod up;
mod up_lane;

pub use aos_frame::{FrameFields, Lane, LinkConfig, LinkField};
pub use down::Down;
pub use drops::LinkDrop;
pub use laws::{
    a_frame_gives_what_was_sent, a_later_packet_changes_nothing, a_later_packet_leaves_deliveries,
    a_packet_carries_its_pdu, a_struck_frame_is_missed, near_frames_are_told,
    what_comes_up_was_put_in, what_comes_up_was_put_in_once, what_comes_up_was_sent,
};
pub use mpdu::Full;
pub use up::Up;
