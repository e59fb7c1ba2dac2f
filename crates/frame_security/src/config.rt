//! How the frames of a link are secured.
ghost use Rattle.std.specs.Prelude.{◌≡◌, ◌≤◌};
ghost use Rattle.frame_security.specs.Frames.{FitsSecurity, IsSecurity, overhead};

use aos_frame::FrameFields;
use thiserror::Error;
use valid_config::Config;

/// The octets of a security parameter index (SPI), by which a frame names its key (CCSDS 355.0-B-2,
/// Security Header).
pub(crate) const SPI_LEN: usize = 2;

/// The octets of a security header: the SPI and the sequence number.
pub(crate) const SECURITY_HEADER_LEN: usize = 10;

/// The fewest octets of a MAC.
const LEAST_MAC: u8 = 16;

/// The octets of a whole MAC.
const MOST_MAC: u8 = 32;

/// How the frames of one direction of a link are secured. Both ends must have the same
/// configuration.
///
/// # Examples
///
/// ```text
/// let security = Security { fields: FrameFields::NONE, mac_len: 16 }.validate()?;
/// ```
#[derive(Clone, Copy, Debug, PartialEq, Eq)]
pub struct Security {
    /// The fields of the link's frames, none of which is authenticated.
    pub fields: FrameFields,
    /// How many octets of the MAC are sent, its first ones: 16 to 32.
    pub mac_len: u8,
}

/// An invalid field of a [`Security`].
#[derive(Clone, Copy, Debug, PartialEq, Eq, Error)]
pub enum SecurityField {
    /// The length of the insert zone.
    #[error("the insert zone must have 0 to 64 octets")]
    InsertZone,
    /// The length of the MAC.
    #[error("the MAC must have 16 to 32 octets")]
    MacLen,
}

impl Config for Security {
    type Field = SecurityField;

    ghost IsValid = { IsSecurity };

    ghost Fits = { FitsSecurity };

    fn amiss(&self) -> Option<SecurityField> {
        if self.fields.amiss().is_some() {
            Some(SecurityField::InsertZone)
        } else if !(LEAST_MAC..=MOST_MAC).contains(&self.mac_len) {
            Some(SecurityField::MacLen)
        } else {
            None
        }
    }
}

impl Security {
    /// Returns how many octets a frame of the link has besides its bare frame: 26 to 112 if the
    /// configuration is valid.
    pub fn overhead(self) -> usize
        ensures are { result ≡ overhead self }
        ensures most { result ≤ 526 }
    {
        self.fields.extra() + SECURITY_HEADER_LEN + usize::from(self.mac_len)
    }
}
