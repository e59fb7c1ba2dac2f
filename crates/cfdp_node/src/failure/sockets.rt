//! Why an address can't be used.
use cfdp_control::{ControlError, DoorError, address_cause, is_malformed};
use cfdp_report::cause_text;
use std::fmt;
use std::io::ErrorKind;
use thiserror::Error;

/// Why an address can't be used.
#[derive(Drop, Error)]
pub enum SocketError<'a> {
    /// The sockets of a loop can't be opened.
    #[error("cannot open a socket at 127.0.0.1: {cause}", cause = cause_text(*.0))]
    Loop(ErrorKind),
    /// The system refuses the address of this option for datagrams.
    #[error("--{option} {address}: {cause}", cause = address_cause(*.kind))]
    Datagrams {
        option: &'static str,
        address: &'a str,
        kind: ErrorKind,
    },
    /// No commands can be accepted at this address.
    #[error("--control {0}: {1}")]
    Control(&'a str, ControlError),
    /// There can be no console at this address.
    #[error("--console {0}: {1}")]
    Console(&'a str, DoorError),
}

impl SocketError<'_> {
    /// Returns `true` if it is a mistake of whoever asked, and stays one however often it is tried.
    pub fn is_mistake(&self) -> bool {
        match self {
            SocketError::Loop(_) => false,
            SocketError::Datagrams { kind, .. } => is_malformed(*kind),
            SocketError::Control(_, error) => error.is_mistake(),
            SocketError::Console(_, DoorError::WantsToken) => true,
            SocketError::Console(_, DoorError::System(error)) => is_malformed(error.kind()),
        }
    }
}

impl fmt::Debug for SocketError<'_> {
    fn fmt<W: fmt::Write>(&self, f: &mut fmt::Formatter<W>) -> fmt::Result {
        write!(f, "{self}")
    }
}
