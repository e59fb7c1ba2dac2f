//! Settling: polls, flushes and deliveries until there is nothing left to do.
ghost use Rattle.std.specs.Prelude.{◌≡◌, true, false, IfErr, IfOk, OnOk};
ghost use Rattle.link_sim.specs.Calls.{Settles};
ghost use Rattle.link_sim.specs.Clean.{AllComplete, IsClean};
ghost use Rattle.link_sim.specs.Observed.{seen};
ghost use Rattle.link_sim.specs.Onward.{GoesOnFrom};
ghost use Rattle.link_sim.specs.Parts.{SettlesPart, TakesTurn};
ghost use Rattle.link_sim.specs.Settling.{Ends, HasSent, IsOfSettling, IsSettled, all_shortages};
ghost use Rattle.link_sim.specs.Settling.{first_event, next_of};
ghost use Rattle.link_sim.specs.Theorem.{HoldsAt};
ghost use Rattle.link_sim.specs.Tracks.{RunsAlong};
ghost use Rattle.link_sim.specs.World.Steps.{NoneWaits, NoneWhole, Steps};
ghost use Rattle.link_sim.specs.declared.event.Applied.TheVariants as did;
ghost use Rattle.link_sim.specs.declared.event.Event.TheVariants as events;
ghost use Rattle.station_pair.specs.declared.side.Side.{Side};
ghost use Rattle.aos_frame.specs.declared.config.Lane.{Lane};
ghost use Rattle.aos_frame.specs.declared.config.Lane.TheVariants as lanes;

use crate::event::{Applied, Event};
use crate::promises::events_keep_the_promises;
use crate::shortages::{Shortages, shortage_since};
use crate::witness::Witness;
use crate::world::World;
use aos_frame::Lane;
use cfdp_store::{Inbox, SteadyOutbox};
use station_pair::{SettleError, Side};

impl<O: SteadyOutbox, I: Inbox, W: Witness> World<O, I, W> {
    /// Lets both stations send and receive, without any loss, until nothing is due at either, no
    /// flush would make a frame, and no frame waits.
    ///
    /// A round polls and flushes the first station, then the second, and delivers all that waits of
    /// the first, then of the second, of each directives first. Nothing is put, struck or
    /// cancelled, and no time is given.
    ///
    /// # Errors
    ///
    /// At the first event in which one of these happened, the one with the lowest number: a call
    /// found no memory or something was dropped for lack of it, a store failed, a PDU found a table
    /// full. The world is as the events up to then left it.
    pub fn settle(&mut self) -> Result<(), SettleError>
        // All is settled, or an error says why not; the promises hold; and if the world was clean,
        // every put is complete and closed at both ends.
        ensures { Settles result self.old self.new }
    {
        self.settle_on()
    }

    /// Does what `settle` does, for calls here that rest on more than it promises.
    pub(crate) fn settle_on(&mut self) -> Result<(), SettleError>
        ensures settles { Settles result self.old self.new }
        // Each transaction made a run of its own.
        ensures runs { OnOk result (RunsAlong self.old self.new) }
    {
        self.show_what_holds();
        while self.settle_round()? {}
        self.show_completion();
        Ok(())
    }

    /// Shows that all puts of a clean world are complete once it is settled.
    fn show_completion(&self)
        ensures { IsSettled self.now → IsClean self.now → AllComplete self.now }
    {
        events_keep_the_promises();
        self.stations.show_rest();
    }

    /// Shows what holds of every world.
    pub(crate) fn show_what_holds(&self)
        ensures { (side : Side) → HoldsAt side (seen self.now) }
    {
        events_keep_the_promises();
        // For the prover: the invariant.
        let _ = &self.stations;
    }

    /// Shows that all whole zones are on the link.
    fn show_none_whole(&self)
        ensures { (s : Side) (lane : Lane) → NoneWhole s lane self.now }
    {
        self.stations.show_rest();
    }

    /// Goes through one round: returns whether anything happened in it.
    fn settle_round(&mut self) -> Result<bool, SettleError>
        ensures part { SettlesPart first_event first_event result self.old self.new }
        ensures settled { IfOk result (λ happened. happened ≡ false → IsSettled self.new) }
    {
        let one = self.send_all(Side::One)?;
        let two = self.send_all(Side::Two)?;
        let from_one = self.deliver_all(Side::One)?;
        let from_two = self.deliver_all(Side::Two)?;
        self.show_none_whole();
        Ok(one || two || from_one || from_two)
    }

    /// Delivers all that waits of a station.
    fn deliver_all(&mut self, side: Side) -> Result<bool, SettleError>
        ensures part { SettlesPart (events.Deliver side lanes.Directives)
            (next_of (events.Deliver side lanes.Data)) result self.old self.new }
        ensures none_waits { IfOk result (λ happened. happened ≡ false
            → (lane : Lane) → NoneWaits side lane self.new) }
    {
        let directives = self.repeat(&Event::Deliver(side, Lane::Directives))?;
        let file_data = self.repeat(&Event::Deliver(side, Lane::Data))?;
        Ok(directives || file_data)
    }

    /// Lets a station send all that is due, and its begun frame.
    fn send_all(&mut self, side: Side) -> Result<bool, SettleError>
        ensures part { SettlesPart (events.Poll side) (next_of (events.Flush side)) result
            self.old self.new }
        ensures sent { IfOk result (λ happened. happened ≡ false → HasSent side self.new) }
    {
        let polled = self.repeat(&Event::Poll(side))?;
        let flushed = self.repeat(&Event::Flush(side))?;
        Ok(polled || flushed)
    }

    /// Repeats an event until there is nothing to do for it, and returns whether it happened at
    /// all.
    fn repeat(&mut self, event: &Event) -> Result<bool, SettleError>
        requires of_it { IsOfSettling event.now }
        ensures part { SettlesPart event.now (next_of event.now) result self.old self.new }
        // There is nothing to do for it in the end.
        ensures idle { IfOk result (λ happened. Steps event.now did.Nothing self.new self.new) }
    {
        let mut happened = false;
        while self.settle_by(event)? {
            happened = true;
        }
        Ok(happened)
    }

    /// Makes one event of a settling happen: returns whether it did anything.
    fn settle_by(&mut self, event: &Event) -> Result<bool, SettleError>
        requires of_it { IsOfSettling event.now }
        ensures turn { TakesTurn event.now result self.old self.new }
        // Nothing was short in it; an error says what was, with the lowest number.
        ensures well { IfOk result (λ moved. moved ≡ true
            → GoesOnFrom event.now event.now self.old self.new) }
        ensures well_last { IfOk result (λ moved. moved ≡ false
            → GoesOnFrom event.now (next_of event.now) self.old self.new) }
        ensures ends { IfErr result (λ error. Ends error event.now self.old self.new) }
    {
        let before = self.shortages();
        let Ok(applied) = self.happen(event) else {
            return Err(SettleError::NoMemory);
        };
        if let Some(error) = shortage_since(&before, &self.shortages()) {
            return Err(error);
        }
        match applied {
            Applied::Nothing => Ok(false),
            Applied::Applied | Applied::Refused(_) => Ok(true),
        }
    }

    /// Returns how often both stations were short of something.
    pub(crate) fn shortages(&self) -> (Shortages, Shortages)
        ensures { result ≡ all_shortages self.now }
    {
        let one = Shortages::of(self.station(Side::One));
        let two = Shortages::of(self.station(Side::Two));
        (one, two)
    }
}
