// What a user can look at, beside what every driver asks for.
use crate::witness::Witness;
use crate::world::World;
use cfdp_store::{Inbox, SteadyOutbox};
use station_pair::Side;
use std::fmt;

impl<O: SteadyOutbox, I: Inbox, W: Witness> fmt::Debug for World<O, I, W> {
    /// Writes both stations, how many frames each sent, how many puts were accepted, and how often
    /// a station was given the time.
    fn fmt<F: fmt::Write>(&self, f: &mut fmt::Formatter<F>) -> fmt::Result {
        f.debug_struct("World")
            .field("one", self.station(Side::One))
            .field("two", self.station(Side::Two))
            .field("frames_of_one", &self.frames(Side::One).count())
            .field("frames_of_two", &self.frames(Side::Two).count())
            .field("puts", &self.puts().len())
            .field("ticks", &self.ticks())
            .finish()
    }
}
