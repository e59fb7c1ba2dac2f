//! The operational control field of frames.
ghost use Rattle.std.specs.Prelude.{◌≡◌, ◌≢◌, Bool, MatchOption};
ghost use Rattle.link_stack.specs.Downward.{both_controlled};
ghost use Rattle.link_stack.specs.Upward.{lane_up};
ghost use Rattle.cfdp_station.specs.Station.{KeepsRest};
ghost use Rattle.cfdp_c.specs.Codes as codes;
ghost use Rattle.cfdp_c.specs.Control.{ControlsFrames, TellsControl, lane_of};
ghost use Rattle.cfdp_c.specs.Handles.{Answers};
ghost use Rattle.cfdp_c.specs.Held.{has_folders, state_of};

use crate::codes::{CLOSED, NOTHING, OK};
use crate::handle::CfdpStation;
use crate::held::{AnyStation, Held};
use cfdp_station::Lane;
use std::alloc::Global;

/// Returns the lane of file data, or the lane of directives.
fn lane(file_data: bool) -> Lane
    ensures { result ≡ lane_of file_data }
{
    if file_data {
        Lane::Data
    } else {
        Lane::Directives
    }
}

/// Writes what was received, if anything was.
fn tell_control(came: Option<u32>, control: &mut u32) -> u32
    ensures { TellsControl came result control.old control.new }
{
    match came {
        Some(it) => {
            *control = it;
            OK
        }
        None => NOTHING,
    }
}

impl Held {
    fn set_control_field(&mut self, control: u32)
        ensures sets { ControlsFrames control (state_of self.old.station)
            (state_of self.new.station) }
        ensures place { has_folders self.new.station ≡ has_folders self.old.station }
    {
        match &mut self.station {
            AnyStation::Memory(station) => station.set_control_field(control),
            AnyStation::Folders(station) => station.set_control_field(control),
        }
    }

    fn control_field(&self, lane: Lane) -> Option<u32>
        ensures { result ≡ (lane_up lane (state_of self.now.station).up).control }
    {
        match &self.station {
            AnyStation::Memory(station) => station.control_field(lane),
            AnyStation::Folders(station) => station.control_field(lane),
        }
    }
}

/// Sets the operational control field of the frames that leave from now on, of both lanes, if the
/// frames that it sends have one; at first it is 0. Returns 0 or `CLOSED`.
#[unsafe(no_mangle)]
pub extern "C" fn cfdp_set_control_field(
    alloc: Global,
    station: &mut CfdpStation,
    control: u32,
) -> u32
    ensures sets { Answers result station.old station.new (λ x y. (result ≡ codes.ok)
        × ControlsFrames control (state_of x.station) (state_of y.station)) }
{
    let Some(mut held) = station.lift(alloc) else {
        return CLOSED;
    };
    held.set_control_field(control);
    *station = CfdpStation::holding(held);
    OK
}

/// Writes the operational control field of the last received frame of a lane, of file data or of
/// directives. Returns 0, `CLOSED`, or `NOTHING` if no frame was received, or the frames that it
/// receives have no such field.
#[unsafe(no_mangle)]
pub extern "C" fn cfdp_control_field(
    alloc: Global,
    station: &mut CfdpStation,
    file_data: bool,
    control: &mut u32,
) -> u32
    ensures tells { Answers result station.old station.new (λ x y. (y ≡ x)
        × TellsControl (lane_up (lane_of file_data) (state_of x.station).up).control result
        control.old control.new) }
    ensures kept { result ≢ codes.ok → control.new ≡ control.old }
{
    let Some(held) = station.lift(alloc) else {
        return CLOSED;
    };
    let answer = tell_control(held.control_field(lane(file_data)), control);
    *station = CfdpStation::holding(held);
    answer
}
