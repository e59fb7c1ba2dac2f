//! What is done in a turn over a wire that says when a frame may leave.
ghost use Rattle.std.specs.Prelude.{◌≡◌, ◌≢◌, ◌⊎◌, length, false, true, None, OnErr, OnOk};
ghost use Rattle.link_stack.specs.Downward.{frame_lane};
ghost use Rattle.cfdp_port.specs.Calls.{Readied};
ghost use Rattle.cfdp_port.specs.Gains.{Gains};
ghost use Rattle.cfdp_port.specs.PeerTurn.{SendsSome, SendsSomeInPart, TakesInPart, TakesOne};
ghost use Rattle.cfdp_port.specs.Port.{FitsFrames, port_state, table_of};
ghost use Rattle.cfdp_port.specs.Turn.{SendsFrame};

use crate::lookout::Lookout;
use crate::showing::{ShownPolls, tick};
use crate::turn::{receive, send_one};
use crate::wire::PeerWire;
use cfdp_entity::an_entity_goes_on;
use cfdp_station::Station;
use cfdp_store::{Inbox, Outbox};
use station_pair::Side;
use std::alloc::AllocError;

/// The most frames that leave in a turn, so that what comes is taken between.
const MOST_FRAMES: u32 = 64;

/// The most PDUs that are moved for one frame.
const MOST_POLLS: u32 = 16;

/// Takes one turn: the station takes what came, is given the time, and sends. The first buffer must
/// have the octets of a frame that leaves, and the second takes what comes.
///
/// # Errors
///
/// `AllocError` if the station finds no memory for a call: the turn ends there.
pub(crate) fn take_turn<O: Outbox, I: Inbox, W: PeerWire, L: Lookout>(
    side: Side,
    station: &mut Station<O, I>,
    wire: &mut W,
    frame: &mut [u8],
    datagram: &mut [u8],
    lookout: &mut L,
) -> Result<(), AllocError>
    requires { FitsFrames (length frame.old) station.old }
    ensures ok { OnOk result (TakesOne W.steps (port_state station.old wire.old)
        (port_state station.new wire.new)) }
    ensures err { OnErr result (TakesInPart W.steps (port_state station.old wire.old)
        (port_state station.new wire.new)) }
    ensures gains { Gains (table_of station.old) (table_of station.new) }
    ensures fits { FitsFrames (length frame.new) station.new }
{
    an_entity_goes_on();
    receive(side, station, wire, datagram, lookout);
    let now = wire.now();
    tick(now, side, station, lookout)?;
    send_some(side, station, wire, frame, lookout)
}

/// Sends frames as long as the wire is ready for one, at most 64, and polls for them as they are
/// needed.
///
/// # Errors
///
/// `AllocError` if the station finds no memory for a poll: it ends there.
fn send_some<O: Outbox, I: Inbox, W: PeerWire, L: Lookout>(
    side: Side,
    station: &mut Station<O, I>,
    wire: &mut W,
    frame: &mut [u8],
    lookout: &mut L,
) -> Result<(), AllocError>
    requires { FitsFrames (length frame.old) station.old }
    ensures ok { OnOk result (SendsSome W.steps (port_state station.old wire.old)
        (port_state station.new wire.new)) }
    ensures err { OnErr result (SendsSomeInPart W.steps (port_state station.old wire.old)
        (port_state station.new wire.new)) }
    ensures fits { FitsFrames (length frame.new) station.new }
{
    for _frame in 0..MOST_FRAMES {
        let mut polls = ShownPolls { side, lookout };
        station.pull(MOST_POLLS, &mut polls)?;
        if !send_ready(side, station, wire, frame, lookout) {
            return Ok(());
        }
    }
    Ok(())
}

/// Sends the frame that leaves next. Returns `false` if none waits, or the wire isn't ready for it.
fn send_ready<O: Outbox, I: Inbox, W: PeerWire, L: Lookout>(
    side: Side,
    station: &mut Station<O, I>,
    wire: &mut W,
    frame: &mut [u8],
    lookout: &mut L,
) -> bool
    requires { FitsFrames (length frame.old) station.old }
    ensures sent { result ≡ true → (ready : W) × W.steps wire.old (Readied true) ready
        × SendsFrame W.steps (port_state station.old ready) (port_state station.new wire.new) }
    ensures unsent { result ≡ false → (station.new ≡ station.old)
        × (((frame_lane station.old.down ≡ None) × (wire.new ≡ wire.old))
        ⊎ ((frame_lane station.old.down ≢ None) × W.steps wire.old (Readied false) wire.new)) }
    ensures fits { FitsFrames (length frame.new) station.new }
{
    if station.next_lane().is_none() || !wire.is_ready() {
        return false;
    }
    send_one(side, station, wire, frame, lookout)
}
