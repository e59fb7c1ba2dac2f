//! A caller of `cfdp_timers`: `arm` asks for room, which is there after `room` until a timer fires.
use cfdp_header::TransactionId;
use cfdp_timers::{Kind, Timers};
use std::alloc::AllocError;

/// Arms timers of two transactions at 5 and 6, gives the time 5, and arms the first one again.
///
/// # Errors
///
/// `AllocError` if there is no memory for it.
pub fn arm_two(timers: &mut Timers, a: TransactionId, b: TransactionId) -> Result<(), AllocError> {
    timers.room(a)?;
    timers.room(b)?;
    timers.arm(a, Kind::Nak, 5);
    timers.clear(b, Kind::EofAck);
    timers.arm(b, Kind::Inactivity, 6);
    timers.fire(5)?;
    timers.arm(a, Kind::Nak, 7);
    Ok(())
}
