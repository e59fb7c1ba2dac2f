//! Waiting for a datagram, for room, or for a command.
use crate::unit::MILLISECOND;
use cfdp_exchange::Exchange;
use libc::net;
use std::os::fd::RawFd;
use std::thread;
use std::time::Duration;

/// For how many microseconds it lets datagrams come if more come soon, so that it is woken once for
/// some of them. They are far fewer than a socket has room for.
const GATHERING: u64 = 50;

/// For how many milliseconds a transport is left alone after it failed.
pub const AFTER_FAILURE: u64 = 100;

/// What a wire waits for.
#[derive(Clone, Copy)]
pub struct Wait {
    /// The descriptor of its transport, and for which events of that it waits.
    pub fd: RawFd,
    pub events: i16,
    /// How long it waits at most, in nanoseconds.
    pub most: u64,
    /// Whether something was asked of the station, so that it doesn't wait.
    pub is_stirred: bool,
    /// Whether more datagrams come soon.
    pub comes_more: bool,
}

impl Wait {
    /// Waits until there is one of the events, a command may have come, or the time is over.
    pub fn rests(self, rt: &HostRuntime, exchange: &Exchange) {
        let watched = exchange.watched.get();
        let mut places = watched.beside(self.fd, self.events);
        let milliseconds = if watched.is_due() || self.is_stirred {
            0
        } else if watched.is_soon() {
            1
        } else {
            i32::try_from(self.most.div_ceil(MILLISECOND)).unwrap_or(1)
        };
        if milliseconds > 0 && self.comes_more {
            // A wait for the next one would end at once, and the peer would pay for waking it.
            let _ = thread::sleep(rt, Duration::from_micros(GATHERING));
        } else if net::poll(&mut places, milliseconds) < 0 {
            pause(rt);
        }
    }
}

/// Leaves a transport alone for a while.
pub fn pause(rt: &HostRuntime) {
    let _ = thread::sleep(rt, Duration::from_millis(AFTER_FAILURE));
}
