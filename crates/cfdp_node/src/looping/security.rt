//! A loop whose frames are authenticated.
use crate::failure::{Failure, SetupError};
use crate::looping::LoopOptions;
use crate::transfers::secured_links::keys_in;
use aos_frame::FrameFields;
use cfdp_command_line::LoopRequest;
use cfdp_files::Reservation;
use cfdp_port::Wire;
use cfdp_setup::{SECURITY_HEADER, bare_link};
use cfdp_station::StationConfig;
use frame_security::{LinkKeys, Security};
use secured_wire::{NoKeeper, SecuredWire};
use station_pair::WorldConfig;
use std::alloc::{AllocError, Global};
use valid_config::{Config, Valid};

/// The octets of a MAC.
const MAC_LEN: u8 = 16;

/// The least octets of a packet zone.
const LEAST_ZONE: u16 = 16;

/// The longest bare frame: a header and an M_PDU with the longest zone.
const MOST_FRAME: usize = 2048;

/// The wires of both stations, secured.
pub type SecuredWires<W> = (SecuredWire<W, NoKeeper>, SecuredWire<W, NoKeeper>);

/// The keys of the first station, how the frames that it sends and those that it receives are
/// secured, and the sequence number of the first of either. It has no `Debug`, so that no key is
/// printed.
#[derive(Clone, Copy)]
pub struct LoopSecurity {
    keys: LinkKeys,
    sends: Valid<Security>,
    receives: Valid<Security>,
    next: u64,
}

/// Returns what is sent between stations whose frames are authenticated, if that is asked for, and
/// how they are.
///
/// # Errors
///
/// `File` if the keys can't be read; `Setup` if the frames have no room for a security header and a
/// MAC.
pub fn secured<'a>(
    rt: &HostRuntime,
    request: &'a LoopRequest,
    options: LoopOptions,
) -> Result<(LoopOptions, Option<LoopSecurity>), Failure<'a>> {
    let Some(path) = &request.keys else {
        return Ok((options, None));
    };
    let keys = keys_in(rt, path.as_str())?;
    let on_link = options.config.get();
    let (Some(config), Some(sends), Some(receives)) = (
        bare_pair(&on_link),
        security(on_link.one.sends.fields),
        security(on_link.two.sends.fields),
    ) else {
        let least = LEAST_ZONE + SECURITY_HEADER + u16::from(MAC_LEN);
        let zone = on_link.one.sends.zone;
        return Err(Failure::Setup(SetupError::ShortZone(least, zone)));
    };
    // Numbers never come back under a key, if the clock isn't set back.
    let next = Reservation::by_clock(rt, None)
        .first_sequence_number()
        .max(1);
    let security = LoopSecurity {
        keys,
        sends,
        receives,
        next,
    };
    Ok((LoopOptions { config, ..options }, Some(security)))
}

/// Returns both stations with the frames that they make.
fn bare_pair(on_link: &WorldConfig) -> Option<Valid<WorldConfig>> {
    let there = bare_link(on_link.one.sends, u16::from(MAC_LEN))?;
    let back = bare_link(on_link.two.sends, u16::from(MAC_LEN))?;
    let config = WorldConfig {
        one: StationConfig {
            sends: there,
            receives: back,
            ..on_link.one
        },
        two: StationConfig {
            sends: back,
            receives: there,
            ..on_link.two
        },
    };
    config.validate().ok()
}

/// Returns how frames with these fields are secured.
fn security(fields: FrameFields) -> Option<Valid<Security>> {
    let security = Security {
        fields,
        mac_len: MAC_LEN,
    };
    security.validate().ok()
}

impl LoopSecurity {
    /// Secures the wires of both stations.
    ///
    /// # Errors
    ///
    /// `AllocError` if there is no memory for their buffers.
    pub fn wires<W: Wire>(
        &self,
        alloc: Global,
        wires: (W, W),
    ) -> Result<SecuredWires<W>, AllocError> {
        let (one, two) = wires;
        let last = self.next.saturating_sub(1);
        let theirs = LinkKeys {
            send: self.keys.receive,
            receive: self.keys.send,
            former: None,
        };
        let one = SecuredWire::new(
            alloc,
            one,
            NoKeeper,
            self.keys.sealer(self.sends, self.next),
            self.keys.opener(self.receives, last),
            MOST_FRAME,
        )?;
        let two = SecuredWire::new(
            alloc,
            two,
            NoKeeper,
            theirs.sealer(self.receives, self.next),
            theirs.opener(self.sends, last),
            MOST_FRAME,
        )?;
        Ok((one, two))
    }
}
