//! A world over stores in memory, as one who only says what happened in it drives it.
ghost use Rattle.std.specs.FinMap as map;
ghost use Rattle.std.specs.Prelude.{IfOk};
ghost use Rattle.link_sim.specs.World.Failures.{HaveFailed};
ghost use Rattle.link_sim.specs.World.State.{IsFirst};

use crate::event::{Applied, Event};
use crate::stations::Stations;
use crate::witness::Witness;
use crate::world::World;
use aos_frame::Lane;
use cfdp_directives::Indication;
use cfdp_store::{Files, MemoryInbox, MemoryOutbox};
use station_pair::{RecoverError, SettleError, Side, WorldConfig};
use std::alloc::{AllocError, Global};
use valid_config::Valid;

impl<W: Witness> World<MemoryOutbox, MemoryInbox, W> {
    /// Makes two stations in which nothing happened yet, with these files to send, the first
    /// station's files first, and empty inboxes. The witness sees what happens from then on.
    ///
    /// # Errors
    ///
    /// `AllocError` only if the memory for a station was refused.
    pub fn in_memory(
        alloc: Global,
        config: Valid<WorldConfig>,
        outboxes: (Files, Files),
        witness: W,
    ) -> Result<Self, AllocError>
        ensures first { IfOk result (IsFirst config (outboxes.0, outboxes.1)
            (map.empty, map.empty)) }
        ensures failures { IfOk result (HaveFailed (0, 0) (0, 0)) }
    {
        let one = MemoryOutbox::with_files(outboxes.0);
        let two = MemoryOutbox::with_files(outboxes.1);
        let inboxes = (MemoryInbox::new(alloc), MemoryInbox::new(alloc));
        World::new(alloc, config, (one, two), inboxes, witness)
    }
}

// What the world promises besides stands in its own contracts alone, so that it is in no goal of
// one who takes any `Stations`.
impl<W: Witness> Stations for World<MemoryOutbox, MemoryInbox, W> {
    ghost world = { λ w. w };

    fn comes_to(&mut self, step: usize) {
        self.comes_to(step);
    }

    fn apply(&mut self, event: &Event) -> Result<Applied, AllocError> {
        self.apply(event)
    }

    fn first_sent(&self, side: Side) -> Option<Lane> {
        self.frames(side).first_sent()
    }

    fn oldest_frame(&self, side: Side, lane: Lane) -> Option<&[u8]> {
        self.frames(side).lane(lane).oldest()
    }

    fn spread(&mut self, side: Side) -> Result<(), AllocError> {
        self.spread(side)
    }

    fn burst(&mut self, side: Side) -> Result<(), AllocError> {
        self.burst(side)
    }

    fn settle(&mut self) -> Result<(), SettleError> {
        self.settle()
    }

    fn recover(&mut self) -> Result<(), RecoverError> {
        self.recover()
    }

    fn indications(&self, side: Side) -> &[Indication] {
        self.indications(side)
    }

    fn received(&self, side: Side) -> &Files {
        self.inbox(side).published()
    }
}
