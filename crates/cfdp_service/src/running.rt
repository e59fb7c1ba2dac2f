//! A whole service: a station is made, and serves its user to the end.
ghost use Rattle.std.specs.Prelude.{◌≡◌, ◌<◌, List, IfNone, IfOk, IfSome};
ghost use Rattle.cfdp_port.specs.Port.{table_of};
ghost use Rattle.cfdp_service.specs.Calls.{Chain, UserCall};
ghost use Rattle.cfdp_service.specs.Serving.{Ran, Serves, has_failed};

use crate::serving::serve;
use crate::user::User;
use cfdp_port::{Lookout, PeerWire, Port, Side};
use cfdp_station::{StationConfig, Valid};
use cfdp_store::{Inbox, SeekingOutbox};
use std::alloc::{AllocError, Global};

/// How a station is set up.
#[derive(Clone, Copy)]
pub struct ServiceOptions {
    /// How it is set up.
    pub config: Valid<StationConfig>,
    /// The count of its first frame in either lane, modulo 2^28.
    pub frame_count: u32,
    /// Which side it is to one who looks on.
    pub side: Side,
}

/// What a station sends from and receives into, and over what.
#[derive(Drop)]
pub struct ServiceEnds<O: SeekingOutbox, I: Inbox, W: PeerWire> {
    pub outbox: O,
    pub inbox: I,
    pub wire: W,
}

/// How a service ended.
#[derive(Clone, Copy)]
pub struct Ended {
    /// `true` if there was no memory for 100 turns in a row, which ended it.
    pub is_short: bool,
    /// `true` if the outbox or the inbox failed.
    pub has_failed: bool,
}

/// Makes a station, and has it serve its user as [`serve`](crate::serve) says.
///
/// # Errors
///
/// `AllocError` if there is no memory for the station: nothing was asked of its user.
pub fn run<O: SeekingOutbox, I: Inbox, W: PeerWire, U: User, L: Lookout>(
    alloc: Global,
    options: ServiceOptions,
    ends: ServiceEnds<O, I, W>,
    user: &mut U,
    lookout: &mut L,
) -> Result<Ended, AllocError>
    ensures { IfOk result (λ ended. (calls : List UserCall)
        × Ran W.steps ended.is_short ended.has_failed calls options.frame_count options.config
        (O.stands ends.outbox) (O.files ends.outbox) (I.published ends.inbox) ends.wire
        × Chain U.steps calls user.old user.new) }
{
    let ServiceEnds {
        outbox,
        inbox,
        wire,
    } = ends;
    let mut port = Port::new(alloc, options.side, options.config, (outbox, inbox), wire)?;
    port.count_frames_from(options.frame_count);
    let ended = run_port(&mut port, user, lookout);
    drop(port);
    Ok(ended)
}

/// Has a station serve its user as [`run`] does, after what an earlier run left open was restored.
/// Returns `None`, and does nothing, if the station has discarded an indication by now.
pub fn run_restored<O: SeekingOutbox, I: Inbox, W: PeerWire, U: User, L: Lookout>(
    port: &mut Port<O, I, W>,
    user: &mut U,
    lookout: &mut L,
) -> Option<Ended>
    ensures serves { IfSome result (λ ended. (calls : List UserCall)
        × Serves W.steps ended.is_short calls port.old port.new
        × Chain U.steps calls user.old user.new
        × (ended.has_failed ≡ has_failed port.old.station port.new.station)) }
    ensures none { IfNone result ((0 < (table_of port.old.station).gone)
        × (port.new ≡ port.old) × (user.new ≡ user.old)) }
{
    if port.station().indications_gone() > 0 {
        return None;
    }
    Some(run_port(port, user, lookout))
}

/// Has a station serve its user. It must have done nothing yet.
fn run_port<O: SeekingOutbox, I: Inbox, W: PeerWire, U: User, L: Lookout>(
    port: &mut Port<O, I, W>,
    user: &mut U,
    lookout: &mut L,
) -> Ended
    requires { (table_of port.old.station).gone ≡ 0 }
    ensures { (calls : List UserCall) × Serves W.steps result.is_short calls port.old port.new
        × Chain U.steps calls user.old user.new
        × (result.has_failed ≡ has_failed port.old.station port.new.station) }
{
    let (read, written) = (port.outbox_failures(), port.inbox_failures());
    let is_short = serve(port, user, lookout).is_err();
    let has_failed = port.outbox_failures() != read || port.inbox_failures() != written;
    Ended {
        is_short,
        has_failed,
    }
}
