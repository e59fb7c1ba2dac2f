//! A wire that loses frames.
ghost use Rattle.std.specs.Prelude.{◌≡◌};
ghost use Rattle.cfdp_port.specs.Lossy.{LosesSome, LossyState};

use crate::losses::Losses;
use crate::wire::{PeerWire, Wire, WireFault};
use std::marker::Model;

/// A wire that loses some of the frames that are sent over the wire after it, to try what
/// losses do. If something comes, all of it comes.
#[derive(Drop)]
pub struct LossyWire<W: Wire, L: Losses> {
    wire: W,
    losses: L,
}

impl<W: Wire, L: Losses> Model for LossyWire<W, L> {
    ghost use Rattle.cfdp_port.specs.Lossy.{LossyState};

    ghost Value = { LossyState W L };

    ghost view = { λ l. record { wire = l.wire; losses = l.losses } };
}

impl<W: Wire, L: Losses> LossyWire<W, L> {
    /// Returns a wire that loses the frames that these losses name.
    pub fn new(wire: W, losses: L) -> Self
        ensures { result ≡ record { wire = wire; losses = losses } }
    {
        LossyWire { wire, losses }
    }
}

impl<W: Wire, L: Losses> Wire for LossyWire<W, L> {
    ghost steps = { λ old call new. LosesSome W.steps L.loses old call new };

    fn send(&mut self, frame: &[u8]) -> Result<(), WireFault> {
        if self.losses.is_next_lost() {
            return Err(WireFault);
        }
        self.wire.send(frame)
    }

    fn receive(&mut self, buffer: &mut [u8]) -> Result<Option<usize>, WireFault> {
        self.wire.receive(buffer)
    }
}

impl<W: PeerWire, L: Losses> PeerWire for LossyWire<W, L> {
    fn now(&mut self) -> u64 {
        self.wire.now()
    }

    fn is_ready(&mut self) -> bool {
        self.wire.is_ready()
    }

    fn is_silent(&mut self, is_open: bool) -> bool {
        self.wire.is_silent(is_open)
    }
}
