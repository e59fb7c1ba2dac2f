//! The header of a frame.
ghost use Rattle.std.specs.Prelude.{◌≡◌, ◌≢◌, ◌+◌, ◌↔◌, IsTrue, length, drop, Some, IfOk, IsOkAnd};
ghost use Rattle.std.specs.Result.{result_err};
ghost use Rattle.aos_frame.specs.declared.header.FrameHeader.{FrameHeader};
ghost use Rattle.aos_frame.specs.declared.error.FrameError.TheVariants.{OtherSpacecraft};
ghost use Rattle.aos_frame.specs.declared.error.FrameError.TheVariants.{OtherChannel};
ghost use Rattle.aos_frame.specs.Frame.{SpellsFrame, FitsHeader, frame_fault, own_channel};

use crate::config::ChannelConfig;
use crate::count::counts_of;
use crate::error::FrameError;
use crate::fields::FrameFields;
use cfd_bits::get;

/// Octets of a frame's primary header (CCSDS 732.0-B-4, 4.1.2).
pub const HEADER_LEN: usize = 6;

/// The virtual channel whose frames hold only idle data (CCSDS 732.0-B-4, 4.1.2.3).
pub const IDLE_CHANNEL: u8 = 63;

/// The primary header of an AOS transfer frame, as far as it differs between frames (CCSDS
/// 732.0-B-4, 4.1.2).
#[derive(Clone, Copy, Debug, PartialEq, Eq)]
pub struct FrameHeader {
    /// The spacecraft identifier, 0 to 255.
    pub spacecraft: u8,
    /// The virtual channel identifier, 0 to 62. Frames of [`IDLE_CHANNEL`] are neither written nor
    /// read.
    pub virtual_channel: u8,
    /// The virtual channel frame count: it must be below [`FRAME_COUNTS`](crate::FRAME_COUNTS) if
    /// `cycle` is true, otherwise below [`SHORT_COUNTS`](crate::SHORT_COUNTS).
    pub count: u32,
    /// The usage flag of the count cycle. If it is set, the count has 28 bits, whose upper 4 stand
    /// in the count cycle (CCSDS 732.0-B-4, 4.1.2.5); otherwise it has 24.
    pub cycle: bool,
}

impl FrameHeader {
    /// Returns the header of a whole bare frame with a packet zone of `zone` octets, whatever its
    /// spacecraft and channel are, and the octets after it: the M_PDU header and the packet zone.
    /// [`decode`](crate::decode) answers the same for the channel that the frame itself names.
    ///
    /// # Errors
    ///
    /// The first of these that holds, in this order: `Length`, `Version`, `OtherProfile`,
    /// `OnlyIdle`. [`FrameError`](crate::FrameError) says what each means.
    pub fn read(frame: &[u8], zone: u16) -> Result<(FrameHeader, &[u8]), FrameError>
        ensures found { IfOk result (λ x. SpellsFrame (own_channel frame.now zone) x.0 frame.now) }
        // The M_PDU header and the packet zone.
        ensures rest { IfOk result (λ x. x.1.now ≡ drop 6 frame.now) }
        ensures len { IfOk result (λ x. length x.1.now ≡ 2 + zone) }
        // What was read can be written.
        ensures fits { IfOk result (λ x. FitsHeader x.0) }
        ensures only { (h : FrameHeader) → SpellsFrame (own_channel frame.now zone) h frame.now →
            IsOkAnd result (λ x. x.0 ≡ h) }
        ensures refused { result_err result ≡ frame_fault frame.now (own_channel frame.now zone) }
        // It is of the channel that it names.
        ensures own { (result_err result ≢ Some OtherSpacecraft)
            × (result_err result ≢ Some OtherChannel) }
    {
        if frame.len() < HEADER_LEN {
            return Err(FrameError::Length);
        }
        let own = ChannelConfig {
            spacecraft: get(frame, 2, 8) as u8,
            virtual_channel: get(frame, 10, 6) as u8,
            zone,
            apid: 0,
            fields: FrameFields::NONE,
        };
        crate::decode(frame, &own)
    }

    /// Returns `true` if each part fits its field, and the channel carries packets, as `encode`
    /// requires. It holds of each header that was read.
    pub fn is_writable(&self) -> bool
        ensures { IsTrue result ↔ FitsHeader self.now }
    {
        let header = *self;
        header.virtual_channel < IDLE_CHANNEL && header.count < counts_of(header.cycle)
    }
}
