//! Numbers that are set of the frames and packets of a link, and that may fit none.
ghost use Rattle.std.specs.Prelude.{◌≡◌, ◌==◌, ◌<◌, ◌↔◌, IsTrue, IsSome, IfSome};
ghost use Rattle.cfdp_setup.specs.Links.{FitFields, FitsOctets, are_none, frame_fields};

use aos_frame::FrameFields;

/// The frames of one direction, as numbers that may fit no frame.
#[derive(Clone, Copy)]
pub struct DirectionNumbers {
    pub virtual_channel: u64,
    pub data_virtual_channel: u64,
    pub apid: u64,
}

/// Which fields the frames of one direction have, as numbers that may fit none.
#[derive(Clone, Copy)]
pub struct FieldNumbers {
    pub insert_zone: u64,
    pub control_field: u64,
    pub error_control: u64,
}

/// What packets are that have one PDU each, as numbers that may fit none.
#[derive(Clone, Copy)]
pub struct PacketNumbers {
    pub packet_type: u64,
    pub secondary_header: u64,
    pub peer_secondary_header: u64,
}

impl FieldNumbers {
    /// Frames without them.
    pub const NONE: FieldNumbers = FieldNumbers {
        insert_zone: 0,
        control_field: 0,
        error_control: 0,
    };

    /// Returns the fields, if each value fits its own.
    pub fn fields(self) -> Option<FrameFields>
        ensures some { IsSome result ↔ FitFields self }
        ensures same { IfSome result (λ fields. fields ≡ frame_fields self) }
    {
        Some(FrameFields {
            insert_zone: octet(self.insert_zone)?,
            control_field: flag(self.control_field)?,
            error_control: flag(self.error_control)?,
        })
    }

    /// Returns `true` if frames have none of them.
    pub fn are_none(self) -> bool
        ensures { result ≡ are_none self }
    {
        self.insert_zone == 0 && self.control_field == 0 && self.error_control == 0
    }
}

/// Returns the octet that has this value.
pub fn octet(value: u64) -> Option<u8>
    ensures some { IsSome result ↔ (value < 256) }
    ensures same { IfSome result (λ octet. octet ≡ value) }
{
    u8::try_from(value).ok()
}

/// Returns what 0 and 1 say.
fn flag(value: u64) -> Option<bool>
    ensures some { IsSome result ↔ (value < 2) }
    ensures same { IfSome result (λ flag. flag ≡ (value == 1)) }
{
    match value {
        0 => Some(false),
        1 => Some(true),
        _ => None,
    }
}

/// Returns `true` if a number fits `width` octets. Any fits 8.
#[tactic(auto, using(crate::proofs::Octets::fits_below))]
pub fn fits(number: u64, width: u64) -> bool
    ensures { IsTrue result ↔ FitsOctets number width }
{
    width >= 8 || number >> (8 * width) == 0
}
