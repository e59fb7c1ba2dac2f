//! The numbers that a station reserves, shared by its socket and the keeper of its secured wire.
use cfdp_exchange::Stop;
use cfdp_files::{Reservation, StateError};
use std::cell::{Cell, RefCell};
use std::io::ErrorKind;

/// The numbers that a station reserves in its state file. The socket reserves those of frames that
/// leave and of transactions, and the keeper of a secured wire those of frames that arrive.
///
/// # Examples
///
/// ```text
/// let numbers = SharedNumbers::over(reservation);
/// let wire = DatagramWire::new(&rt, transport, pace, &numbers, &exchange)?;
/// let keeper = StationKeeper::new(&numbers, &exchange);
/// ```
#[derive(Drop)]
pub struct SharedNumbers<'a> {
    reservation: RefCell<Reservation<'a>>,
    // Whether a frame was accepted since that was asked last.
    has_accepted: Cell<bool>,
}

impl<'a> SharedNumbers<'a> {
    /// Returns these numbers, to be shared.
    pub fn over(reservation: Reservation<'a>) -> SharedNumbers<'a> {
        SharedNumbers {
            reservation: RefCell::new(reservation),
            has_accepted: Cell::new(false),
        }
    }

    /// Notes that one frame more leaves.
    ///
    /// # Errors
    ///
    /// `Stop` with the cause if its count can't be reserved: the frame must not leave.
    pub fn covers_next(&self) -> Result<(), Stop> {
        let Ok(mut reservation) = self.reservation.try_borrow_mut() else {
            return Err(IN_USE);
        };
        reservation.covers_next().map_err(stop_of)
    }

    /// Reserves more transaction numbers. Returns how many.
    ///
    /// # Errors
    ///
    /// `Stop` with the cause if none can be reserved.
    pub fn adds_numbers(&self) -> Result<u64, Stop> {
        let Ok(mut reservation) = self.reservation.try_borrow_mut() else {
            return Err(IN_USE);
        };
        reservation.adds_numbers().map_err(stop_of)
    }

    /// Notes that the frame of the peer with this sequence number is accepted.
    ///
    /// # Errors
    ///
    /// `Stop` with the cause if the number can't be reserved: the frame must not be handed on.
    pub fn accepts(&self, number: u64) -> Result<(), Stop> {
        self.has_accepted.set(true);
        let Ok(mut reservation) = self.reservation.try_borrow_mut() else {
            return Err(IN_USE);
        };
        reservation.covers_accepted(number).map_err(stop_of)
    }

    /// Returns `true` if a frame of the peer was accepted since this was asked last.
    pub fn has_accepted(&self) -> bool {
        self.has_accepted.take()
    }

    /// Notes exactly which frame of the peer was accepted last, so that a station that restarts
    /// refuses none that it hasn't received. It should be called when the link is quiet, and at the
    /// end.
    ///
    /// # Errors
    ///
    /// `Stop` with the cause if that can't be noted.
    pub fn settles(&self) -> Result<(), Stop> {
        let Ok(mut reservation) = self.reservation.try_borrow_mut() else {
            return Err(IN_USE);
        };
        reservation.settles_accepted().map_err(stop_of)
    }
}

/// What is answered if the reservation is in use. It never is: each call ends before the next one
/// begins.
const IN_USE: Stop = Stop::Unwritable(ErrorKind::Other);

/// Returns why numbers can't be reserved.
fn stop_of(error: StateError) -> Stop {
    match error {
        StateError::Spent => Stop::Spent,
        StateError::System(error) => Stop::Unwritable(error.kind()),
        StateError::InUse | StateError::Damaged => Stop::Unwritable(ErrorKind::Other),
    }
}
