//! What takes datagrams to the peer of a station, and brings datagrams from it.
ghost use Rattle.std.specs.Prelude.{◌≤◌, length, IfOk};
ghost use Rattle.cfdp_datagrams.specs.Transport.{TransportCall, Received, Sent, received};

use std::io::ErrorKind;
use std::os::fd::AsRawFd;

/// What takes datagrams to one peer, and brings datagrams from it: a UDP socket, for example. What
/// becomes of a datagram that was sent is left open. A wire waits for the descriptor: if it is
/// ready to read, a datagram may have come, and if it is ready to write, there may be room for one.
pub trait Transport: AsRawFd + Drop {
    /// What a call may do: it leads from one state of the transport, with its arguments and its
    /// answer, to another. A transport says by it what is true of this transport alone, or nothing.
    ghost steps: { Self → TransportCall → Self → Type 0 } = { λ _ _ _. Unit {0} };

    /// Sends a datagram. It must not wait.
    ///
    /// # Errors
    ///
    /// The kind of the system's error if the datagram isn't sent: `WouldBlock` if there is no room
    /// for it now.
    fn send(&mut self, datagram: &[u8]) -> Result<(), ErrorKind>
        ensures { Self.steps self.old (Sent datagram.now result) self.new };

    /// Writes the next datagram that came to the front of the buffer, and returns how many octets
    /// it has. It must not wait.
    ///
    /// # Errors
    ///
    /// The kind of the system's error if it gives none: `WouldBlock` if none has come.
    fn receive(&mut self, buffer: &mut [u8]) -> Result<usize, ErrorKind>
        ensures steps { Self.steps self.old (Received (received result buffer.new)) self.new }
        ensures within { IfOk result (λ len. len ≤ length buffer.new) };
}
