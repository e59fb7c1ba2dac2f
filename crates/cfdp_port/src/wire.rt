//! What takes frames to another station, and brings frames from it.
ghost use Rattle.std.specs.Prelude.{◌≤◌, length, IfOk, IfSome};
ghost use Rattle.cfdp_port.specs.Calls.{WireCall, Asked, Readied, Rested, Sent, Timed, brought};

/// A frame could not be sent, or none could be asked for.
#[derive(Clone, Copy)]
pub struct WireFault;

/// A wire between a station and its peer. What becomes of a frame that was sent is left open: it
/// may come late, or never.
pub trait Wire: Drop {
    /// What a call may do: it leads from one state of the wire, with its arguments and its answer,
    /// to another. A wire says by it what is true of this wire alone, or nothing.
    ghost steps: { Self → WireCall → Self → Type 0 } = { λ _ _ _. Unit {0} };

    /// Sends a frame. It must not wait.
    ///
    /// # Errors
    ///
    /// `WireFault` if it isn't sent: it is lost.
    fn send(&mut self, frame: &[u8]) -> Result<(), WireFault>
        ensures { steps self.old (Sent frame.now result) self.new };

    /// Writes the next octets that came to the front of the buffer, and returns how many they are;
    /// `None` if nothing has come. The wire decides if it waits for some, and how long.
    /// affair.
    ///
    /// # Errors
    ///
    /// `WireFault` if it couldn't be asked, or what came is lost.
    fn receive(&mut self, buffer: &mut [u8]) -> Result<Option<usize>, WireFault>
        ensures steps { steps self.old (Asked (brought result buffer.new)) self.new }
        ensures within { IfOk result (λ came. IfSome came (λ len. len ≤ length buffer.new)) };
}

/// A wire that says what time it is, if a frame may leave, and if its peer is silent.
pub trait PeerWire: Wire {
    /// Returns the time now, in the units of the station's timers.
    fn now(&mut self) -> u64
        ensures { Self.steps self.old (Timed result) self.new };

    /// Returns `true` if a frame may leave now. If none may, frames stay in the station, so that
    /// directives that come to be due still overtake file data.
    fn is_ready(&mut self) -> bool
        ensures { Self.steps self.old (Readied result) self.new };

    /// Returns `true` if nothing has come, and no transaction was open at the station, for as long
    /// as is waited. It is given whether one is open now.
    fn is_silent(&mut self, is_open: bool) -> bool
        ensures { Self.steps self.old (Rested is_open result) self.new };
}
