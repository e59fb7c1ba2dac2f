//! What is done with a station and its wire in a turn, part by part.
ghost use Rattle.std.specs.Prelude.{◌≡◌, ◌<◌, ◌↔◌, None, Some, Result, false, true, is_ok, length};
ghost use Rattle.std.specs.Prelude.{OnErr, OnOk};
ghost use Rattle.aos_frame.specs.declared.config.Lane.{Lane};
ghost use Rattle.link_stack.specs.Downward.{frame_lane};
ghost use Rattle.cfdp_port.specs.Calls.{Sent};
ghost use Rattle.cfdp_port.specs.declared.wire.WireFault.{WireFault};
ghost use Rattle.cfdp_port.specs.Port.{FitsFrames, KeepsLinks, all_waiting, port_state};
ghost use Rattle.cfdp_port.specs.Shown.{Left};
ghost use Rattle.cfdp_port.specs.Turn.{HearsAll, Sends, SendsFrame, SendsInPart, SendsWhole};

use crate::lookout::Lookout;
use crate::passed::Passed;
use crate::showing::{ShownPolls, take, tick};
use crate::wire::Wire;
use cfdp_station::{Station, Until};
use cfdp_store::{Inbox, Outbox};
use station_pair::Side;
use std::alloc::AllocError;

/// The most PDUs that a station moves in a turn.
const MOST_POLLS: u32 = 16;

/// The most datagrams that it is asked for in a turn.
const MOST_DATAGRAMS: u32 = 4096;

/// Gives a station the time, polls it until nothing is due or nothing more has room, at most 16
/// times, flushes it, and sends all its whole frames. If the wire fails to send a frame, it is
/// lost. The buffer must have the octets of a frame.
pub(crate) fn send<O: Outbox, I: Inbox, W: Wire, L: Lookout>(
    now: u64,
    side: Side,
    station: &mut Station<O, I>,
    wire: &mut W,
    frame: &mut [u8],
    lookout: &mut L,
) -> Result<(), AllocError>
    requires { FitsFrames (length frame.old) station.old }
    ensures ok { OnOk result (Sends W.steps now (port_state station.old wire.old)
        (port_state station.new wire.new)) }
    ensures err { OnErr result (SendsInPart now (port_state station.old wire.old)
        (port_state station.new wire.new)) }
    ensures fits { FitsFrames (length frame.new) station.new }
{
    tick(now, side, station, lookout)?;
    let mut polls = ShownPolls { side, lookout };
    station.poll_until(Until::Rest, MOST_POLLS, &mut polls)?;
    station.flush();
    send_whole(side, station, wire, frame, lookout);
    Ok(())
}

/// Sends all whole frames of a station.
fn send_whole<O: Outbox, I: Inbox, W: Wire, L: Lookout>(
    side: Side,
    station: &mut Station<O, I>,
    wire: &mut W,
    frame: &mut [u8],
    lookout: &mut L,
)
    requires { FitsFrames (length frame.old) station.old }
    ensures sends { SendsWhole W.steps (port_state station.old wire.old)
        (port_state station.new wire.new) }
    ensures fits { FitsFrames (length frame.new) station.new }
{
    while send_one(side, station, wire, frame, lookout) {}
}

/// Sends the whole frame of a station that leaves next. Returns `false` if none waits.
pub(crate) fn send_one<O: Outbox, I: Inbox, W: Wire, L: Lookout>(
    side: Side,
    station: &mut Station<O, I>,
    wire: &mut W,
    frame: &mut [u8],
    lookout: &mut L,
) -> bool
    requires { FitsFrames (length frame.old) station.old }
    ensures sent { result ≡ true → SendsFrame W.steps (port_state station.old wire.old)
        (port_state station.new wire.new) }
    ensures none { result ≡ false → (frame_lane station.old.down ≡ None)
        × (station.new ≡ station.old) × (wire.new ≡ wire.old) }
    ensures shown { result ≡ true → (lane : Lane) × (frame_lane station.old.down ≡ Some lane)
        × ((answer : Result (Unit {0}) WireFault) × W.steps wire.old (Sent frame.new answer) wire.new
        × L.shows lookout.old side (Left lane frame.new (is_ok answer)) lookout.new) }
    ensures unshown { result ≡ false → lookout.new ≡ lookout.old }
    ensures whole { (result ≡ false) ↔ (frame_lane station.old.down ≡ None) }
    ensures less { result ≡ true → all_waiting station.new.down < all_waiting station.old.down }
    ensures links { KeepsLinks station.old.down station.new.down }
    ensures fits { FitsFrames (length frame.new) station.new }
{
    let Some(lane) = station.next_frame(frame) else {
        return false;
    };
    let is_sent = wire.send(frame).is_ok();
    lookout.sees(
        side,
        Passed::Left {
            lane,
            frame,
            is_sent,
        },
        station,
    );
    true
}

/// Gives a station what came over a wire, until nothing does; asks at most 4,096 times. If the wire
/// fails, a frame is lost.
pub(crate) fn receive<O: Outbox, I: Inbox, W: Wire, L: Lookout>(
    side: Side,
    station: &mut Station<O, I>,
    wire: &mut W,
    buffer: &mut [u8],
    lookout: &mut L,
)
    ensures hears { HearsAll W.steps (port_state station.old wire.old)
        (port_state station.new wire.new) }
    ensures links { KeepsLinks station.old.down station.new.down }
{
    for _datagram in 0..MOST_DATAGRAMS {
        match wire.receive(buffer) {
            Ok(Some(len)) => {
                take(side, station, &buffer[..len], lookout);
            }
            Ok(None) => return,
            Err(_) => {}
        }
    }
}
