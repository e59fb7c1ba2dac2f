//! AOS transfer frames with packet zones (CCSDS 732.0-B-4): their headers, their counts, the counts
//! that are missing, and the fields that they may have beside header and M_PDU: an insert zone, an
//! operational control field and a frame error control field (4.1.3, 4.1.5, 4.1.6).
//!
//! None of these calls takes memory: what stands after a frame's header is borrowed from the octets
//! that it was read from.
//!
//! The two ends of a link must agree on a [`LinkConfig`], each of whose lanes is a
//! [`ChannelConfig`]. One end writes a header before each M_PDU, and the other reads it:
//!
//! ```
//! let mut counter = VcCounter::new();
//! let header = FrameHeader {
//!     spacecraft: channel.spacecraft,
//!     channel: channel.channel,
//!     count: counter.next(),
//!     cycle: true,
//! };
//! encode(&header, &mut frame);
//!
//! let mut monitor = VcMonitor::new();
//! let (header, mpdu) = decode(&frame, &channel)?;
//! if monitor.follows(header.count, header.cycle) {
//!     // no frame was lost before this one
//! }
//! ```
//!
//! A bare frame has none of the other fields: it is its header and its M_PDU, as the crates above
//! make and take it. [`seal`] makes the link's frame of a bare one whose octets must already lie at
//! their places in it. [`open`] finds the bare frame in a frame that came:
//!
//! ```text
//! seal(fields, control, &mut frame);
//!
//! match open(fields, &frame) {
//!     Ok(opened) => {} // the bare frame is `opened.header`, and `opened.mpdu` after it
//!     Err(fault) => {} // the frame was damaged on the way, or is too short
//! }
//! ```
//!
//! Tested by `tests/transcripts/frames.txt` and, through the program, by `tests/damage.py`.
#![tactic(auto)]

ghost use Rattle.std.specs.Prelude.{◌≡◌, ◌+◌, ◌<◌, ◌≤◌, length, drop, IfOk, IsOkAnd};
ghost use Rattle.std.specs.Result.{result_err};
ghost use Rattle.aos_frame.specs.declared.header.FrameHeader.{FrameHeader};
ghost use Rattle.aos_frame.specs.Counts.{counts_of};
ghost use Rattle.aos_frame.specs.Frame.{SpellsFrame, count_in, frame_fault, FitsHeader, signaling};
ghost use Rattle.aos_frame.specs.Frame.{frame_octets};
ghost use Rattle.aos_frame.specs.LinkFields.{mpdu_in};

mod config;
mod count;
mod error;
mod fields;
mod fields_laws;
mod header;
mod laws;
mod opening;
mod sealing;

use cfd_bits::{get, put_uint};
pub use config::{ChannelConfig, LEAST_ZONE, Lane, LinkConfig, LinkField, MOST_APID, MOST_ZONE};
pub use count::{Continuity, FRAME_COUNTS, SHORT_COUNTS, SeenCount, VcCounter, VcMonitor};
pub use error::FrameError;
pub use fields::{FieldsField, FrameFields, MOST_INSERT_ZONE};
pub use fields_laws::{damage_is_seen, what_is_sealed_is_opened, without_fields_a_frame_is_bare};
pub use header::{FrameHeader, HEADER_LEN, IDLE_CHANNEL};
pub use laws::{a_frame_has_one_header, one_number_is_missing, written_frame_is_read};
pub use opening::{FieldsFault, OpenedFrame, control_field, open};
pub use sealing::seal;

/// Octets of the M_PDU header, which stands before the packet zone (CCSDS 732.0-B-4, 4.1.4.2).
const MPDU_HEADER_LEN: usize = 2;

/// Returns the count in a frame's header, which has 28 bits if the usage flag of the count cycle is
/// 1.
fn count_in(bytes: &[u8], cycle: bool) -> u32
    requires { 6 ≤ length bytes.now }
    ensures count { result ≡ count_in cycle bytes.now }
    ensures below { result < counts_of cycle }
{
    let lower = get(bytes, 16, 24) as u32;
    if cycle {
        SHORT_COUNTS * get(bytes, 44, 4) as u32 + lower
    } else {
        lower
    }
}

/// Returns the header of a whole frame of the channel, and its M_PDU: the M_PDU header and the
/// packet zone.
///
/// If the link has error control, the frame error control field is checked before anything else of
/// the frame. An insert zone and an operational control field are passed over.
///
/// The last 11 bits of the 2 octets of the M_PDU header are the first header pointer. If the usage
/// flag is 1, the count cycle is read as the upper 4 bits of the count; otherwise any value of it
/// is accepted.
///
/// # Errors
///
/// The first of these that holds, in this order: `Length`, `Damaged`, `Version`, `OtherProfile`,
/// `OtherSpacecraft`, `OnlyIdle`, `OtherChannel`. `FrameError` says what each means.
pub fn decode<'a>(
    bytes: &'a [u8],
    config: &ChannelConfig,
) -> Result<(FrameHeader, &'a [u8]), FrameError>
    // What is answered is spelled so.
    ensures found { IfOk result (λ x. SpellsFrame config.now x.0 bytes.now) }
    // The M_PDU header and the packet zone.
    ensures rest { IfOk result (λ x. x.1.now ≡ mpdu_in config.now.fields bytes.now) }
    ensures len { IfOk result (λ x. length x.1.now ≡ 2 + config.now.zone) }
    // What was read can be written.
    ensures fits { IfOk result (λ x. FitsHeader x.0) }
    // What is spelled so is answered.
    ensures only { (h : FrameHeader) → SpellsFrame config.now h bytes.now →
        IsOkAnd result (λ x. x.0 ≡ h) }
    // Which refusal it is.
    ensures refused { result_err result ≡ frame_fault bytes.now config.now }
{
    if bytes.len() != config.frame_len() {
        return Err(FrameError::Length);
    }
    let Ok(opened) = open(config.fields, bytes) else {
        return Err(FrameError::Damaged);
    };
    if get(bytes, 0, 2) != 1 {
        return Err(FrameError::Version);
    }
    if get(bytes, 40, 1) != 0 || get(bytes, 42, 2) != 0 {
        return Err(FrameError::OtherProfile);
    }
    let spacecraft = get(bytes, 2, 8) as u8;
    if spacecraft != config.spacecraft {
        return Err(FrameError::OtherSpacecraft);
    }
    let virtual_channel = get(bytes, 10, 6) as u8;
    if virtual_channel == IDLE_CHANNEL {
        return Err(FrameError::OnlyIdle);
    }
    if virtual_channel != config.virtual_channel {
        return Err(FrameError::OtherChannel);
    }
    let cycle = get(bytes, 41, 1) == 1;
    let header = FrameHeader {
        spacecraft,
        virtual_channel,
        count: count_in(bytes, cycle),
        cycle,
    };
    Ok((header, opened.mpdu))
}

/// Returns the signaling field of a header that isn't replayed: the usage flag of the count cycle
/// with the upper 4 bits of the count, or zeros if the flag isn't set.
fn signaling(header: &FrameHeader) -> u64
    requires { FitsHeader header.now }
    ensures { result ≡ signaling header.now.cycle header.now.count }
{
    if header.cycle {
        64 + u64::from(header.count / SHORT_COUNTS)
    } else {
        0
    }
}

/// Writes the header into the first 6 octets: its usage flag of the count cycle, and with it the
/// upper 4 bits of its count. [`FrameHeader::is_writable`] must hold. The octets after them stay as
/// they were.
pub fn encode(header: &FrameHeader, out: &mut [u8])
    requires fits { FitsHeader header.now }
    requires room { 6 ≤ length out.old }
    ensures { out.new ≡ frame_octets header.now (drop 6 out.old) }
{
    let identification = 16_384
        + 64 * u64::from(header.spacecraft)
        + u64::from(header.virtual_channel);
    let out = &mut out[..HEADER_LEN];
    let at = put_uint(out, 0, 2, identification);
    let at = put_uint(out, at, 3, u64::from(header.count % SHORT_COUNTS));
    put_uint(out, at, 1, signaling(header));
}
