//! The beacons that a station sends.
ghost use Rattle.std.specs.Prelude.{◌≡◌, ◌↔◌, ◌≢◌, None, Some, IfNone, IfOk, IfSome, IsTrue};

use crate::carrier::Carrier;
use crate::pace::{Pace, frame_len};
use crate::pacer::SECOND;
use cfdp_exchange::BEACON_LEN;
use std::alloc::{AllocError, Global};
use std::marker::Model;

/// The frame that says to the peer how a station is set up, and when it left last. There is none if
/// datagrams aren't frames.
#[derive(Drop)]
pub struct Beacons {
    frame: Vec<u8>,
    is_used: bool,
    // When it left last, in nanoseconds since the start.
    sent: Option<u64>,
}

impl Model for Beacons {
    ghost use Rattle.std.specs.Prelude.{List, ℕ, Option, Some, None, if◌then◌else◌};

    ghost Value = { Option (List ℕ) };

    ghost view = { λ b. if b.is_used then Some b.frame.items else None };
}

impl Beacons {
    /// Returns the beacon of a station that is set up so. None has left.
    ///
    /// # Errors
    ///
    /// `AllocError` if there is no memory for its frame.
    pub fn new(alloc: Global, pace: &Pace) -> Result<Beacons, AllocError>
        ensures frames { pace.now.carrier ≢ Carrier.Frames → IfOk result (λ b. b ≡ None) }
    {
        let mut frame = Vec::from_slice(alloc, &pace.beacon.octets())?;
        frame.resize(frame_len(&pace.sends).max(BEACON_LEN), 0)?;
        Ok(Beacons {
            frame,
            is_used: pace.carrier == Carrier::Frames,
            sent: None,
        })
    }

    /// Returns the frame, if one may leave.
    pub fn get(&self) -> Option<&[u8]>
        ensures some { IfSome result (λ beacon. self.now ≡ Some beacon.now) }
        ensures none { IfNone result (self.now ≡ None) }
    {
        if self.is_used {
            Some(self.frame.as_slice())
        } else {
            None
        }
    }

    /// Returns `true` if the peer is sent beacons, and may be one of the peer's.
    pub fn are_used(&self) -> bool
        ensures { IsTrue result ↔ (self.now ≢ None) }
    {
        self.is_used
    }

    /// Returns `true` if one may leave at this time: none left within the second before.
    pub fn may_leave(&self, now: u64) -> bool {
        match self.sent {
            Some(before) => self.is_used && now.saturating_sub(before) >= SECOND,
            None => self.is_used,
        }
    }

    /// Notes that one leaves at this time.
    pub fn leaves(&mut self, now: u64)
        ensures { self.new ≡ self.old }
    {
        self.sent = Some(now);
    }
}
