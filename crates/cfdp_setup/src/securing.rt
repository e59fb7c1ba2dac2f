//! How the frames of a station's link are secured, and how long they are then.
ghost use Rattle.std.specs.Prelude.{◌≡◌, ◌↔◌, ◌≤◌, ◌+◌, ◌&&◌, not, IsSome, IfSome};
ghost use Rattle.std.specs.Option.{is_some};
ghost use Rattle.cfdp_setup.specs.Links.{CanBeSecured, bare_of, mac_len, securities_of};

use crate::station_setup::StationSetup;
use aos_frame::FrameFields;
use cfdp_station::LinkConfig;
use frame_security::Security;
use valid_config::{Config, Valid};

/// The octets of a frame that its security header has.
pub const SECURITY_HEADER: u16 = 10;

/// The octets of a MAC, if none are set, and the other number that may be set.
pub(crate) const SHORT_MAC: u64 = 16;
/// See [`SHORT_MAC`].
pub(crate) const LONG_MAC: u64 = 32;

/// How the frames of both directions are secured.
#[derive(Clone, Copy)]
pub struct Securities {
    /// The frames that the station sends, and those that it receives.
    pub sends: Valid<Security>,
    pub receives: Valid<Security>,
}

/// Returns the frames that a station makes for a direction of a link whose frames are these: with
/// their fields, security header and MAC they are as long. `None` if there is no room for these.
pub fn bare_link(link: LinkConfig, mac_len: u16) -> Option<LinkConfig>
    ensures some { IsSome result ↔ (10 + mac_len ≤ link.zone) }
    ensures bare { IfSome result (λ bare. bare ≡ bare_of mac_len link) }
{
    Some(LinkConfig {
        zone: link
            .zone
            .checked_sub(SECURITY_HEADER)?
            .checked_sub(mac_len)?,
        fields: FrameFields::NONE,
        ..link
    })
}

impl StationSetup {
    /// Returns how frames are secured; `None` if they aren't or can't be.
    pub fn securities(&self) -> Option<Securities>
        ensures some { IsSome result ↔ CanBeSecured self.now }
        ensures same { IfSome result (λ found. found ≡ securities_of self.now) }
    {
        if !self.is_secured {
            return None;
        }
        let mac_len = u8::try_from(self.mac_len()).ok()?;
        let sends = Security {
            fields: self.own_fields().fields()?,
            mac_len,
        };
        let receives = Security {
            fields: self.peer_fields.fields()?,
            mac_len,
        };
        Some(Securities {
            sends: sends.validate().ok()?,
            receives: receives.validate().ok()?,
        })
    }

    /// Returns `true` if the octets of a MAC are set, though frames aren't secured.
    pub fn has_idle_mac(&self) -> bool
        ensures { result ≡ (is_some self.now.mac && not self.now.is_secured) }
    {
        self.mac.is_some() && !self.is_secured
    }

    /// Returns how many octets the MAC of a frame has.
    pub fn mac_len(&self) -> u64
        ensures { result ≡ mac_len self.now }
    {
        self.mac.unwrap_or(SHORT_MAC)
    }
}
