//! What carries the octets of a connection.
use std::io::{Read, Write};

/// What carries the octets of a connection. No call waits: if nothing came, or there is no room,
/// the error is `WouldBlock`.
pub trait WebStream: Read + Write + Drop {
    /// Notifies the other end that nothing more is sent.
    fn ends(&mut self);
}
