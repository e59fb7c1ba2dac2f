//! One who looks on while events happen in a world.
use crate::event::Event;
use crate::frame_links::FrameLinks;
use cfdp_station::Station;
use cfdp_store::{Inbox, Outbox};

/// One who looks on while events happen in a world, and changes nothing there.
pub trait Witness: Drop {
    /// Sees an event, and after it both stations and all frames that each sent, with their marks;
    /// what is of the first station stands first. It is called once for each event that was asked
    /// for, also if that did nothing, was refused or found no memory.
    fn saw<O: Outbox, I: Inbox>(
        &mut self,
        event: &Event,
        stations: (&Station<O, I>, &Station<O, I>),
        frames: (&FrameLinks, &FrameLinks),
    );

    /// Receives the step that the world's user comes to: events are of it, until the next one.
    fn comes_to(&mut self, step: usize);
}

/// A witness that looks at nothing.
impl Witness for () {
    fn saw<O: Outbox, I: Inbox>(
        &mut self,
        _event: &Event,
        _stations: (&Station<O, I>, &Station<O, I>),
        _frames: (&FrameLinks, &FrameLinks),
    ) {}

    fn comes_to(&mut self, _step: usize) {}
}
