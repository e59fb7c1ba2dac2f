//! Sending all that is due at one station.
ghost use Rattle.std.specs.Prelude.{◌≡◌, ◌≤◌, true, IfOk, OnErr, OnOk};
ghost use Rattle.cfdp_entity.specs.Polling.{Rests, turn};
ghost use Rattle.link_sim.specs.Calls.{TriesBurst, TriesSpread, Upholds};
ghost use Rattle.link_sim.specs.Observed.{seen};
ghost use Rattle.link_sim.specs.Parts.{TakesTurn};
ghost use Rattle.link_sim.specs.Settling.{IsOfSettling, LeadsTo};
ghost use Rattle.link_sim.specs.Spreading.{PollFindsNoMemory, PollsAll};
ghost use Rattle.link_sim.specs.World.State.{entity_at};
ghost use Rattle.link_sim.specs.World.Steps.{FindsNoMemory, Steps, side_in};
ghost use Rattle.link_sim.specs.Work.{world_work};
ghost use Rattle.link_sim.specs.declared.event.Applied.TheVariants as did;

use crate::event::{Applied, Event};
use crate::witness::Witness;
use crate::world::World;
use cfdp_store::{Inbox, SteadyOutbox};
use station_pair::Side;
use std::alloc::AllocError;

impl<O: SteadyOutbox, I: Inbox, W: Witness> World<O, I, W> {
    /// Polls a station until nothing is due there, and flushes it after each PDU.
    ///
    /// # Errors
    ///
    /// `AllocError` only if the memory for an event was refused: that one didn't happen.
    pub fn spread(&mut self, side: Side) -> Result<(), AllocError>
        // Nothing but these events happened, in this order; and the promises hold.
        ensures tries { TriesSpread side result self.old self.new }
        ensures upholds { Upholds self.old self.new }
    {
        self.show_what_holds();
        while self.does(&Event::Poll(side))? {
            let _flushed = self.does(&Event::Flush(side))?;
        }
        Ok(())
    }

    /// Polls a station until nothing is due there, and flushes it once.
    ///
    /// # Errors
    ///
    /// `AllocError` only if the memory for an event was refused: that one didn't happen.
    pub fn burst(&mut self, side: Side) -> Result<(), AllocError>
        // Nothing but these events happened, in this order; and the promises hold.
        ensures tries { TriesBurst side result self.old self.new }
        ensures upholds { Upholds self.old self.new }
    {
        self.show_what_holds();
        self.poll_all(side)?;
        let _flushed = self.does(&Event::Flush(side))?;
        Ok(())
    }

    /// Polls a station until nothing is due there.
    fn poll_all(&mut self, side: Side) -> Result<(), AllocError>
        ensures leads { LeadsTo (seen self.old) (seen self.new) }
        ensures rests { OnOk result (turn (entity_at side self.new) ≡ Rests) }
        ensures polls { OnOk result (PollsAll side self.old self.new) }
        ensures lacks { OnErr result (PollFindsNoMemory side self.old self.new) }
    {
        while self.does(&Event::Poll(side))? {}
        Ok(())
    }

    /// Makes one of these events happen: returns whether it did anything.
    fn does(&mut self, event: &Event) -> Result<bool, AllocError>
        requires of_it { IsOfSettling event.now }
        ensures turn { TakesTurn event.now result self.old self.new }
        ensures most { OnOk result (world_work self.new ≤ world_work self.old) }
        ensures applied { IfOk result (λ moved. moved ≡ true
            → Steps event.now did.Applied self.old self.new) }
        ensures lacks { OnErr result (FindsNoMemory (side_in event.now) self.old self.new) }
    {
        match self.happen(event)? {
            Applied::Nothing => Ok(false),
            Applied::Applied | Applied::Refused(_) => Ok(true),
        }
    }
}
