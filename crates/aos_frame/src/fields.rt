//! Which fields the frames of a link have.
ghost use Rattle.std.specs.Prelude.{◌≡◌, ◌≤◌};
ghost use Rattle.aos_frame.specs.LinkFields.{AreFields, FitsFields, extra};

use thiserror::Error;
use valid_config::Config;

/// The most octets of an insert zone.
pub const MOST_INSERT_ZONE: u8 = 64;

/// Octets of an operational control field (CCSDS 732.0-B-4, 4.1.5).
pub(crate) const CONTROL_LEN: usize = 4;

/// Octets of a frame error control field (CCSDS 732.0-B-4, 4.1.6).
pub(crate) const CHECK_LEN: usize = 2;

/// Which fields the frames of one direction of a link have beside their header and their M_PDU.
#[derive(Clone, Copy, Debug, PartialEq, Eq)]
pub struct FrameFields {
    /// Octets of the insert zone after the header, 0 to 64; 0 if there is none. They are sent as
    /// zeros, and passed over when they are read.
    pub insert_zone: u8,
    /// Whether an operational control field of 4 octets stands after the M_PDU.
    pub control_field: bool,
    /// Whether a frame error control field, the last 2 octets, has the check of all before it.
    pub error_control: bool,
}

/// An invalid field of a [`FrameFields`].
#[derive(Clone, Copy, Debug, PartialEq, Eq, Error)]
pub enum FieldsField {
    /// The octets of the insert zone.
    #[error("insert zone must be 0 to 64 octets")]
    InsertZone,
}

impl Config for FrameFields {
    type Field = FieldsField;

    ghost IsValid = { AreFields };

    ghost Fits = { FitsFields };

    fn amiss(&self) -> Option<FieldsField> {
        if MOST_INSERT_ZONE < self.insert_zone {
            Some(FieldsField::InsertZone)
        } else {
            None
        }
    }
}

impl FrameFields {
    /// Frames with no such fields, which are bare.
    pub const NONE: FrameFields = FrameFields {
        insert_zone: 0,
        control_field: false,
        error_control: false,
    };

    /// Returns by how many octets a frame is longer than a bare one, 0 to 261.
    pub fn extra(self) -> usize
        ensures are { result ≡ extra self }
        ensures most { result ≤ 261 }
    {
        let mut len = usize::from(self.insert_zone);
        if self.control_field {
            len += CONTROL_LEN;
        }
        if self.error_control {
            len += CHECK_LEN;
        }
        len
    }
}
