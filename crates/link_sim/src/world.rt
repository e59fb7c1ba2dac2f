//! A world: two stations over two directions of frames.
ghost use Rattle.std.specs.Prelude.{◌≡◌, ◌<◌, ℕ, IfOk, OnOk};
ghost use Rattle.link_sim.specs.Calls.{Applies};
ghost use Rattle.link_sim.specs.Clean.{IsClean};
ghost use Rattle.link_sim.specs.Found.{ExpiresOn};
ghost use Rattle.link_sim.specs.Running.{Happens, KeepsPromises, Ran};
ghost use Rattle.link_sim.specs.Settling.{DropsWhereFull, IsOfSettling, KeepsAll, all_shortages};
ghost use Rattle.link_sim.specs.Tracks.{KeepsPutsOf, RunsAlong};
ghost use Rattle.link_sim.specs.World.Failures.{HaveFailed};
ghost use Rattle.link_sim.specs.World.State.{IsFirst, station_at, entity_at, link_from, seen_links};
ghost use Rattle.link_sim.specs.Work.{world_work};
ghost use Rattle.link_sim.specs.declared.event.Applied.TheVariants as dids;
ghost use Rattle.link_sim.specs.declared.event.Event.TheVariants as events;
ghost use Rattle.station_pair.specs.declared.side.Side.{Side};

use crate::event::{AcceptedPut, Applied, Event};
use crate::frame_links::FrameLinks;
use crate::promises::{events_keep_the_promises, worlds_keep_the_promises};
use crate::two_stations::TwoStations;
use crate::witness::Witness;
use cfdp_directives::Indication;
use cfdp_station::Station;
use cfdp_store::{Inbox, SteadyOutbox};
use station_pair::{Side, WorldConfig};
use std::alloc::{AllocError, Global};
use std::marker::Model;
use valid_config::Valid;

/// A world: two stations of CFDP, class 2, and all frames that each sent to the other, some of them
/// lost or damaged.
///
/// Whatever happens, a file is published only if its put was heard in full, each inbox is what the
/// completed puts make of it, no transaction is indicated finished twice, and a sender indicates a
/// put complete only if the other station completed it. The contracts of [`new`](Self::new),
/// [`apply`](Self::apply) and [`run`] say so.
///
/// Its witness looks on: each event that happens in a call of the world is shown to it.
#[derive(Drop)]
pub struct World<O: SteadyOutbox, I: Inbox, W: Witness = ()> {
    pub(crate) stations: TwoStations<O, I>,
    witness: W,
}

impl<O: SteadyOutbox, I: Inbox, W: Witness> Model for World<O, I, W> {
    ghost use Rattle.cfdp_entity.specs.Coded.{state_codes};
    ghost use Rattle.link_sim.specs.EveryPut.{KeepsPuts};
    ghost use Rattle.link_sim.specs.Sound.{IsSound};
    ghost use Rattle.link_sim.specs.World.State.{WorldState};

    ghost Value = { WorldState };

    ghost coded = { Prim.hlevel (state_codes) };

    ghost view = { λ w. w.stations };

    ghost invariant = { λ w. IsSound w.stations × KeepsPuts w.stations };
}

impl<O: SteadyOutbox, I: Inbox, W: Witness> World<O, I, W> {
    /// Makes two stations in which nothing happened yet, over these stores: the first station's
    /// stores stand first. The witness sees what happens from then on; `()` is one that looks at
    /// nothing.
    ///
    /// # Errors
    ///
    /// `AllocError` only if the memory for a station was refused.
    pub fn new(
        alloc: Global,
        config: Valid<WorldConfig>,
        outboxes: (O, O),
        inboxes: (I, I),
        witness: W,
    ) -> Result<Self, AllocError>
        ensures first { IfOk result (IsFirst config (O.files outboxes.0, O.files outboxes.1)
            (I.published inboxes.0, I.published inboxes.1)) }
        // Its stores' failures are those that they had.
        ensures failures { IfOk result (HaveFailed (O.failures outboxes.0, O.failures outboxes.1)
            (I.failures inboxes.0, I.failures inboxes.1)) }
        // The promises hold of it.
        ensures promised { IfOk result
            (KeepsPromises (I.published inboxes.0, I.published inboxes.1)) }
        // Nothing went wrong so far.
        ensures clean { IfOk result (λ w. IsClean w) }
    {
        events_keep_the_promises();
        // For the prover: it is valid.
        let _config = config.get();
        let stations = TwoStations::new(alloc, config, outboxes, inboxes)?;
        Ok(World { stations, witness })
    }

    /// Returns the witness, and drops the world with all else.
    pub fn into_witness(self) -> W {
        let World { stations, witness } = self;
        drop(stations);
        witness
    }

    /// Returns the puts that were accepted, in order.
    pub fn puts(&self) -> &[AcceptedPut]
        ensures { result.now ≡ self.now.puts }
    {
        self.stations.puts.as_slice()
    }

    /// Returns how often a station was given the time. The count stays at the greatest `u64`.
    pub fn ticks(&self) -> u64
        ensures { result ≡ self.now.ticks }
    {
        self.stations.ticks
    }

    /// Returns what a station indicated to its user, in order. A world discards nothing.
    pub fn indications(&self, side: Side) -> &[Indication]
        ensures { result.now ≡ (entity_at side self.now).table.told }
    {
        self.stations.station(side).indications()
    }

    /// Returns the outbox of a station, borrowed.
    pub fn outbox(&self, side: Side) -> &O
        ensures { O.files result.now ≡ (entity_at side self.now).table.sources }
    {
        self.stations.station(side).outbox()
    }

    /// Returns the inbox of a station, borrowed.
    pub fn inbox(&self, side: Side) -> &I
        ensures { I.published result.now ≡ (entity_at side self.now).table.files }
    {
        self.stations.station(side).inbox()
    }

    /// Returns a station, borrowed.
    pub fn station(&self, side: Side) -> &Station<O, I>
        ensures { result.now ≡ station_at side self.now }
    {
        self.stations.station(side)
    }

    /// Returns the frames that a station sent, in both lanes, with their marks, borrowed.
    pub fn frames(&self, side: Side) -> &FrameLinks
        ensures { seen_links result.now ≡ link_from side self.now }
    {
        self.stations.frames(side)
    }

    /// Lets one thing happen, and returns what it did.
    ///
    /// # Errors
    ///
    /// `AllocError` only if the memory for it was refused: nothing happened then. The arrival, the
    /// loss and the damage of a frame need none.
    pub fn apply(&mut self, event: &Event) -> Result<Applied, AllocError>
        // The event did what it does and nothing else, or nothing happened; the promises hold, and
        // a clean world stays clean if nothing went wrong.
        ensures { Applies event.now result self.old self.new }
    {
        self.happen(event)
    }

    /// Informs the witness which step the user of the world comes to.
    pub fn comes_to(&mut self, step: usize)
        ensures { self.new ≡ self.old }
    {
        self.witness.comes_to(step);
    }

    /// Does what `apply` does, for calls here that rest on more than it promises.
    pub(crate) fn happen(&mut self, event: &Event) -> Result<Applied, AllocError>
        ensures applies { Applies event.now result self.old self.new }
        // A poll, a flush and a delivery that did something lower what may still be done.
        ensures less { IsOfSettling event.now → IfOk result (λ did. did ≡ dids.Applied
            → world_work self.new < world_work self.old) }
        // If a station found no room for a PDU, its table is full.
        ensures full { DropsWhereFull self.old self.new }
        // If nothing was short in it, each transaction made a run of its own.
        ensures runs { IsOfSettling event.now → IfOk result (λ did. did ≡ dids.Applied
            → KeepsAll (all_shortages self.old) (all_shortages self.new)
            → RunsAlong self.old self.new) }
        // If the time is given, timers expire that were waited for, and puts stay.
        ensures tells { (side : Side) (now : ℕ) → event.now ≡ events.Tick side now
            → IfOk result (λ did. ExpiresOn side now self.old self.new
            × KeepsPutsOf self.old self.new) }
    {
        events_keep_the_promises();
        self.stations.show_rest();
        let did = self.stations.step(event);
        self.stations.show_rest();
        show(&self.stations, &mut self.witness, event);
        did
    }
}

/// Shows an event, and what it left, to a witness.
fn show<O: SteadyOutbox, I: Inbox, W: Witness>(
    stations: &TwoStations<O, I>,
    witness: &mut W,
    event: &Event,
) {
    let ends = (stations.station(Side::One), stations.station(Side::Two));
    let frames = (stations.frames(Side::One), stations.frames(Side::Two));
    witness.saw(event, ends, frames);
}

/// Makes these events happen, in turn, in a new world.
///
/// # Errors
///
/// `AllocError` at the first event for which the memory was refused.
pub fn run<O: SteadyOutbox, I: Inbox>(
    alloc: Global,
    config: Valid<WorldConfig>,
    outboxes: (O, O),
    inboxes: (I, I),
    events: &[Event],
) -> Result<World<O, I>, AllocError>
    // Each inbox is its first files, overwritten in order of the completions there by the files of
    // the puts that they name; finished once, heard in full, indicated truly and sent truly.
    ensures promised { IfOk result
        (KeepsPromises (I.published inboxes.0, I.published inboxes.1)) }
    // From a first world each of the events happened, in order, and nothing else.
    ensures ran { IfOk result (λ w. Ran config (O.files outboxes.0, O.files outboxes.1)
        (I.published inboxes.0, I.published inboxes.1) events.now w) }
{
    worlds_keep_the_promises();
    // For the prover: it is valid.
    let _config = config.get();
    let mut world = World::new(alloc, config, outboxes, inboxes, ())?;
    match apply_all(&mut world, events) {
        Ok(()) => Ok(world),
        Err(AllocError) => {
            drop(world);
            Err(AllocError)
        }
    }
}

/// Makes these events happen, in turn.
fn apply_all<O: SteadyOutbox, I: Inbox>(
    world: &mut World<O, I>,
    events: &[Event],
) -> Result<(), AllocError>
    ensures { OnOk result (Happens events.now world.old world.new) }
{
    for event in events {
        let _ = world.apply(event)?;
    }
    Ok(())
}
