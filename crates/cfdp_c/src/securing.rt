//! Frames that only the holder of a key can have sent.
ghost use Rattle.std.specs.Prelude.{◌≡◌, ◌≢◌, ◌↔◌, Some, IsSome, IfSome};
ghost use Rattle.frame_security.specs.declared.opening.FrameRefusal.{FrameRefusal as ARefusal};
ghost use Rattle.frame_security.specs.Opening.{refusal};
ghost use Rattle.cfdp_c.specs.Codes as codes;
ghost use Rattle.cfdp_c.specs.Securing.{IsUsable, Opens, Seals, opener_of, security_of};

use crate::codes::{BAD_ARGUMENT, NO_ROOM, NUMBERS_SPENT, OK, of_refusal};
use crate::config::flag;
use crate::room::put_both;
use aos_frame::HEADER_LEN;
use cfdp_station::{Config, FrameFields, Valid};
use frame_security::{Opener, Sealer, Security};

/// How the frames of one direction are secured (CCSDS 355.0-B-2), with one key.
#[repr(C)]
#[derive(Clone, Copy)]
pub struct CfdpSecurity {
    /// To seal, the sequence number of the next frame, from 1 on; to open, the number of the frame
    /// that was accepted last, 0 if none was. The calls count it on.
    pub number: u64,
    /// The security parameter index, by which frames name the key: 1 to 65,534.
    pub spi: u16,
    /// Octets of the MAC that are sent: 16 to 32.
    pub mac_len: u8,
    /// Octets of the insert zone after a frame's header: 0 to 64.
    pub insert_zone: u8,
    /// 1 if frames have an operational control field, of 4 octets, otherwise 0.
    pub control_field: u8,
    /// 1 if frames have a frame error control field, of 2 octets, otherwise 0.
    pub error_control: u8,
    /// The key: 32 octets.
    pub key: [u8; 32],
}

impl CfdpSecurity {
    fn config(&self) -> Option<Valid<Security>>
        ensures some { IsSome result ↔ IsUsable self.now }
        ensures same { IfSome result (λ security. security ≡ security_of self.now) }
    {
        let fields = FrameFields {
            insert_zone: self.insert_zone,
            control_field: flag(self.control_field)?,
            error_control: flag(self.error_control)?,
        };
        let security = Security {
            fields,
            mac_len: self.mac_len,
        };
        security.validate().ok()
    }
}

/// Seals a bare frame under the key and the next sequence number, into room for exactly the frame
/// and what is added to it: 10 octets, the MAC, and the fields. The operational control field says
/// this, if there is one.
///
/// Returns 0; `BAD_ARGUMENT` if the struct says what can't be; `NO_ROOM` if the frame has no header
/// or the room another length; or `NUMBERS_SPENT` if no number is left. Unless it is 0, nothing
/// changed.
#[unsafe(no_mangle)]
pub extern "C" fn cfdp_seal_frame(
    security: &mut CfdpSecurity,
    frame: &[u8],
    control: u32,
    out: &mut [u8],
) -> u32
    ensures seals { result ≡ codes.ok → Seals security.old frame.now control out.new security.new }
    ensures usable { result ≡ codes.bad_argument ↔ (IsUsable security.old → ⊥) }
    ensures kept { result ≢ codes.ok → (out.new ≡ out.old) × (security.new ≡ security.old) }
{
    let Some(config) = security.config() else {
        return BAD_ARGUMENT;
    };
    let mut sealer = Sealer::new(config, security.spi, &security.key, security.number);
    if frame.len() < HEADER_LEN
        || out.len() < sealer.overhead()
        || out.len() - sealer.overhead() != frame.len()
    {
        return NO_ROOM;
    }
    match sealer.seal(frame, control, out) {
        Ok(()) => {
            security.number = sealer.next();
            OK
        }
        Err(_) => NUMBERS_SPENT,
    }
}

/// Verifies a received frame, and writes its bare frame over the front of the room, of as many
/// octets as the frame has less those that sealing adds.
///
/// Returns 0; `BAD_ARGUMENT` if the struct says what can't be; 101 to 105 if the frame is refused,
/// by the first of these causes: too short, damaged, of another SPI, not authentic, of a number
/// that isn't greater than the last one; or `NO_ROOM` if the room is too short. Unless it is 0,
/// nothing changed.
#[unsafe(no_mangle)]
pub extern "C" fn cfdp_open_frame(security: &mut CfdpSecurity, frame: &[u8], out: &mut [u8]) -> u32
    ensures opens { result ≡ codes.ok → Opens security.old frame.now out.old out.new security.new }
    ensures usable { result ≡ codes.bad_argument ↔ (IsUsable security.old → ⊥) }
    ensures refused { (cause : ARefusal) → IsUsable security.old
        → refusal (opener_of security.old) frame.now ≡ Some cause
        → result ≡ codes.refusal_code cause }
    ensures kept { result ≢ codes.ok → (out.new ≡ out.old) × (security.new ≡ security.old) }
{
    let Some(config) = security.config() else {
        return BAD_ARGUMENT;
    };
    let mut opener = Opener::new(config, security.spi, &security.key, security.number);
    match opener.open(frame) {
        Ok(opened) => {
            if !put_both(opened.header, opened.mpdu, out) {
                return NO_ROOM;
            }
            security.number = opener.last();
            OK
        }
        Err(cause) => of_refusal(cause),
    }
}
