//! A stream that is given a piece at a time.
use std::io;
use std::io::Write;

/// The most octets that are sent over a connection in one turn.
const MOST_SENT: usize = 16 * 1024;

/// A writer that takes at most 16 KiB a call.
#[derive(Drop)]
pub struct Piece<'a, W: Write>(pub &'a mut W);

impl<W: Write> Write for Piece<'_, W> {
    fn write(&mut self, octets: &[u8]) -> io::Result<usize> {
        let len = octets.len().min(MOST_SENT);
        self.0.write(&octets[..len])
    }

    fn flush(&mut self) -> io::Result<()> {
        self.0.flush()
    }
}
