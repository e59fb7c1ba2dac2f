//! Why a command that transfers files isn't done: what is reported, and the exit status.

mod files;
mod restart;
mod setup;
mod sockets;

use cfdp_command_line::SetError;
pub use files::{FileError, LEAST_TOKEN, MOST_TOKEN};
pub use restart::{JournalFault, RestartError};
pub use setup::SetupError;
pub use sockets::SocketError;
use std::alloc::AllocError;
use std::fmt;
use thiserror::Error;

/// The exit status of bad arguments.
const MISTAKE: u8 = 2;

/// The exit status if a folder, a file, a socket or memory failed.
pub const DEVICE: u8 = 3;

/// Why a command isn't done.
#[derive(Drop, Error)]
pub enum Failure<'a> {
    /// A folder or a file can't be used.
    #[error(transparent)]
    File(#[from] FileError<'a>),
    /// What is asked for doesn't fit together.
    #[error(transparent)]
    Setup(#[from] SetupError<'a>),
    /// An address can't be used.
    #[error(transparent)]
    Socket(#[from] SocketError<'a>),
    /// The station can't go on from its last run.
    #[error(transparent)]
    Restart(#[from] RestartError<'a>),
    /// Memory ran out.
    #[error("out of memory")]
    Memory(#[from] AllocError),
    /// What is set of both stations of a loop can't be. It is reported in words of its own.
    #[error("--set sets no loop")]
    Set(SetError<'a>),
}

impl Failure<'_> {
    /// Reports it on standard error, with the line of the settings file that it comes from, and
    /// returns the exit status.
    pub fn tell(&self, rt: &HostRuntime) -> u8 {
        if let Failure::Set(error) = self {
            error.tell(rt);
        } else {
            let _ = eprintln!(rt; "error: {self}");
        }
        if let Failure::Setup(error) = self {
            error.tell_line(rt);
        }
        self.status()
    }

    /// Returns the exit status.
    fn status(&self) -> u8 {
        let is_mistake = match self {
            Failure::File(error) => error.is_mistake(),
            Failure::Setup(_) | Failure::Set(_) => true,
            Failure::Socket(error) => error.is_mistake(),
            Failure::Restart(error) => error.is_mistake(),
            Failure::Memory(_) => false,
        };
        if is_mistake { MISTAKE } else { DEVICE }
    }
}

impl fmt::Debug for Failure<'_> {
    fn fmt<W: fmt::Write>(&self, f: &mut fmt::Formatter<W>) -> fmt::Result {
        write!(f, "{self}")
    }
}
