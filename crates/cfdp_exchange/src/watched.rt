//! What a wait looks at.
use libc::types::pollfd;
use std::os::fd::RawFd;

/// The most descriptors that are looked at, with that of whoever waits.
const PLACES: usize = 32;

/// The descriptors from which something may come while one waits for something else, and whether
/// something lies there already, or is looked for again soon. No one of them stays ready: what they
/// have is taken, or they are left out.
#[derive(Clone, Copy)]
pub struct Watched {
    // The first place is for the descriptor of whoever waits.
    places: [pollfd; 32],
    count: usize,
    is_due: bool,
    is_soon: bool,
}

/// A place with no descriptor, at which the system doesn't look.
const FREE: pollfd = pollfd {
    fd: -1,
    events: 0,
    revents: 0,
};

impl Watched {
    /// Returns a set of no descriptors.
    pub fn nothing() -> Watched {
        Watched {
            places: [FREE; 32],
            count: 1,
            is_due: false,
            is_soon: false,
        }
    }

    /// Looks at one more, for these events of `poll`; for none it is left out. Up to 31 fit.
    pub fn watch(&mut self, fd: RawFd, events: i16) {
        if events != 0 && self.count < PLACES {
            self.places[self.count] = pollfd {
                fd,
                events,
                revents: 0,
            };
            self.count += 1;
        }
    }

    /// Returns `true` if no descriptor is looked at.
    pub fn is_empty(&self) -> bool {
        self.count <= 1
    }

    /// Returns `true` if something lies there already, so that nobody may wait.
    pub fn is_due(&self) -> bool {
        self.is_due
    }

    /// Notes whether something lies there already.
    pub fn set_due(&mut self, is_due: bool) {
        self.is_due = is_due;
    }

    /// Returns `true` if something is left out that must be looked at again within a millisecond or
    /// two, so that nobody may wait longer.
    pub fn is_soon(&self) -> bool {
        self.is_soon
    }

    /// Notes that something must be looked at again soon.
    pub fn set_soon(&mut self) {
        self.is_soon = true;
    }

    /// Returns what `poll` is asked by a caller that waits for these events of this descriptor,
    /// which stands in the first place.
    pub fn beside(&self, fd: RawFd, events: i16) -> [pollfd; 32] {
        let mut places = self.places;
        places[0] = pollfd {
            fd,
            events,
            revents: 0,
        };
        places
    }

    /// Returns what `poll` is asked by a caller that waits for nothing else.
    pub fn alone(&self) -> [pollfd; 32] {
        self.places
    }
}
