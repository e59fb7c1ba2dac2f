//! What may be wrong with a file of keys. No text says a key.
use thiserror::Error;

/// What is wrong with a line.
#[derive(Clone, Copy, Debug, PartialEq, Eq, Error)]
pub enum KeyLineFault {
    /// It has another number of words than three.
    #[error("expected an SPI, send or receive, and a key")]
    Words,
    /// Its first word is no SPI that a user may choose.
    #[error("the SPI must be 1 to 65534")]
    Spi,
    /// Its second word is neither direction.
    #[error("the direction must be send or receive")]
    Direction,
    /// Its third word isn't a key.
    #[error("the key must be 64 hexadecimal digits")]
    Key,
    /// Another line has its SPI.
    #[error("another key has the SPI {0}")]
    SpiAgain(u16),
    /// Another line has its key.
    #[error("another line has the same key: each direction needs a key of its own")]
    KeyAgain,
    /// It is the second key to send with.
    #[error("a second key to send with")]
    SecondSend,
    /// It is the third key to receive with.
    #[error("a third key to receive with")]
    ThirdReceive,
}

/// Why a text is not a file of keys.
#[derive(Clone, Copy, Debug, PartialEq, Eq, Error)]
pub enum KeyFileError {
    /// A line is wrong.
    #[error("line {line}: {fault}")]
    Line {
        /// Its number, from 1.
        line: u64,
        /// What is wrong with it.
        fault: KeyLineFault,
    },
    /// No line has a key to send with.
    #[error("no key to send with")]
    NoSend,
    /// No line has a key to receive with.
    #[error("no key to receive with")]
    NoReceive,
}
