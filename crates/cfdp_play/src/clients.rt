//! All connections of browsers.
ghost use Rattle.std.specs.Prelude.{◌↔◌, ◌<◌, ◌≤◌, vec_len, IsTrue};

use crate::client::Client;
use crate::serving::Serving;
use libc::net::POLLIN;
use libc::types::pollfd;
use std::hash::RandomState;
use std::net::TcpListener;
use std::os::fd::{AsRawFd, RawFd};
use std::time::Instant;

/// The most connections at a time.
const MOST_CLIENTS: usize = 16;

/// The places of what is looked at: the listener's, and one for each connection.
const PLACES: usize = 17;

/// The most milliseconds of a wait for something to come.
const LONGEST_WAIT: i32 = 1_000;

/// A place with no descriptor, at which the system doesn't look.
const FREE: pollfd = pollfd {
    fd: -1,
    events: 0,
    revents: 0,
};

/// All connections of browsers, at most 16.
#[derive(Drop)]
pub struct Clients<'a> {
    rt: &'a HostRuntime,
    listener: TcpListener,
    start: Option<Instant>,
    all: Vec<Client>,
    ghost within: { vec_len all ≤ 16 },
}

impl<'a> Clients<'a> {
    /// Returns no connections, before the first one comes, of a listener that doesn't wait.
    pub fn new(rt: &'a HostRuntime, listener: TcpListener) -> Clients<'a> {
        Clients {
            rt,
            listener,
            start: Instant::now(rt).ok(),
            all: Vec::new(rt.alloc()),
        }
    }

    /// Waits until something comes, for a second at most, and does what can be done then.
    pub fn turn(&mut self, serving: &mut Serving<'_>) {
        let mut places = self.places();
        let _ = libc::net::poll(&mut places, LONGEST_WAIT);
        let now = self.now();
        self.accepts();
        for client in self.all.iter_mut() {
            client.attend(serving, now);
        }
        self.all.retain(|client| !client.is_over());
    }

    /// Returns what is looked at during the wait. If a connection finds no room, it waits until
    /// another one has gone.
    fn places(&self) -> [pollfd; 17] {
        let mut places = [FREE; 17];
        if self.has_room() {
            places[0] = place(self.listener.as_raw_fd(), POLLIN);
        }
        let mut count = 1;
        for client in self.all.iter() {
            if count < PLACES {
                let (fd, events) = client.watched();
                places[count] = place(fd, events);
                count += 1;
            }
        }
        places
    }

    fn has_room(&self) -> bool
        ensures { IsTrue result ↔ (vec_len self.now.all < 16) }
    {
        self.all.len() < MOST_CLIENTS
    }

    /// Returns the milliseconds since the start; 0 if the clock can't be read.
    fn now(&self) -> u64 {
        match &self.start {
            Some(start) => match start.elapsed(self.rt) {
                Ok(since) => u64::try_from(since.as_millis()).unwrap_or(u64::MAX),
                Err(_) => 0,
            },
            None => 0,
        }
    }

    /// Accepts a connection, if one waits for that.
    fn accepts(&mut self) {
        if self.all.len() >= MOST_CLIENTS {
            return;
        }
        let Ok((stream, _)) = self.listener.accept() else {
            return;
        };
        let Ok(keys) = RandomState::new(self.rt) else {
            return;
        };
        if stream.set_nonblocking(true).is_ok() {
            let _ = stream.set_nodelay(true);
            let client = Client::new(self.rt.alloc(), keys, stream);
            let _ = self.all.push(client);
        }
    }
}

fn place(fd: RawFd, events: i16) -> pollfd {
    pollfd {
        fd,
        events,
        revents: 0,
    }
}
