//! What is seen by one who looks on at all that passes at two stations.
ghost use Rattle.std.specs.Prelude.{◌≡◌, ◌+◌, ◌-◌, ◌^◌, ◌↔◌, [], min, true, IfOk, IsErr, OnErr};
ghost use Rattle.std.specs.Prelude.{OnOk};
ghost use Rattle.cfdp_watch.specs.Sighting.{Forgets, Notes, NotesNone, NotesOne};
ghost use Rattle.cfdp_report.specs.Report.Lines.{told_text};
ghost use Rattle.cfdp_watch.specs.declared.sighting.Deed.TheVariants as deeds;

use aos_frame::Lane;
use cfdp_directives::Indication;
use cfdp_report::ToldWords;
use station_pair::Side;
use std::alloc::{AllocError, Global};
use std::fmt;

/// What a station did.
#[derive(Clone, Copy)]
pub enum Deed {
    /// The frame left it, in this lane.
    SendsFrame(Lane),
    /// The last of the frames that carry the PDU left it, in this lane.
    SendsPdu(Lane),
    /// The frame reached it, in this lane.
    TakesFrame(Lane),
    /// The last of the frames that carry the PDU reached it, and so had the others.
    HearsPdu,
    /// The frame left it, in this lane, and is lost.
    LosesFrame(Lane),
    /// It was given the time.
    Ticks,
    /// It dropped something of what it took.
    Drops,
    /// It indicated something to its user.
    Tells,
}

/// What a station did, and with what.
#[derive(Drop)]
pub struct Sighting {
    /// The step that asked for the event: a line of a script.
    pub step: usize,
    /// The number of the event in which it was seen. The first event is 1.
    pub event: u32,
    /// How many others were seen before in this event.
    pub place: u32,
    pub station: Side,
    pub deed: Deed,
    /// The frame or the PDU itself; of the time, of a drop and of an indication the words for it.
    pub octets: Vec<u8>,
}

impl Sighting {
    /// Makes a copy of it.
    ///
    /// # Errors
    ///
    /// `AllocError` if there is no memory for its octets.
    pub fn copied(&self, alloc: Global) -> Result<Sighting, AllocError> {
        Ok(Sighting {
            step: self.step,
            event: self.event,
            place: self.place,
            station: self.station,
            deed: self.deed,
            octets: Vec::from_slice(alloc, self.octets.as_slice())?,
        })
    }
}

/// What was seen and isn't discarded yet, in order.
#[derive(Drop)]
pub struct Log {
    alloc: Global,
    step: usize,
    event: u32,
    place: u32,
    sightings: Vec<Sighting>,
    // Whether there was no memory for some of it.
    is_short: bool,
}

impl Log {
    /// Makes a log before the first step and the first event.
    pub fn new(alloc: Global) -> Log
        ensures { (result.event ≡ 0) × (result.sightings.items ≡ []) }
    {
        Log {
            alloc,
            step: 0,
            event: 0,
            place: 0,
            sightings: Vec::new(alloc),
            is_short: false,
        }
    }

    /// Returns what gives it memory.
    pub fn alloc(&self) -> Global {
        self.alloc
    }

    /// Comes to the step of this number: what is noted from here on is of it.
    pub fn comes_to(&mut self, step: usize)
        ensures { self.new ≡ record self.old { step = step } }
    {
        self.step = step;
    }

    /// Begins the next event, in which nothing was seen yet. The number of events stays at the
    /// greatest `u32`.
    pub fn next_event(&mut self)
        ensures { self.new ≡ record self.old {
          event = min (self.old.event + 1) (2 ^ 32 - 1);
          place = 0;
        } }
    {
        self.event = self.event.saturating_add(1);
        self.place = 0;
    }

    /// Notes what a station did. If there is no memory for it, the log is short from then on.
    pub fn note(&mut self, station: Side, deed: Deed, octets: &[u8])
        ensures { Notes station deed octets.now self.old self.new }
    {
        match self.append(station, deed, octets) {
            Ok(()) => {}
            Err(AllocError) => self.is_short = true,
        }
    }

    /// Notes what a station indicated to its user.
    pub fn note_told(&mut self, station: Side, indication: &Indication)
        ensures { Notes station deeds.Tells (told_text indication.now) self.old self.new }
    {
        match format!(in self.alloc; "{}", ToldWords(indication)) {
            Ok(words) => self.note(station, Deed::Tells, words.as_bytes()),
            Err(AllocError) => self.is_short = true,
        }
    }

    /// Notes what a station did, in words.
    pub fn note_words<T: fmt::Display>(&mut self, station: Side, deed: Deed, words: &T) {
        match format!(in self.alloc; "{words}") {
            Ok(words) => self.note(station, deed, words.as_bytes()),
            Err(AllocError) => self.is_short = true,
        }
    }

    /// Notes what a station did.
    ///
    /// # Errors
    ///
    /// `AllocError` if there is no memory for it.
    fn append(&mut self, station: Side, deed: Deed, octets: &[u8]) -> Result<(), AllocError>
        ensures noted { OnOk result (NotesOne station deed octets.now self.old self.new) }
        ensures none { OnErr result (NotesNone self.old self.new) }
    {
        let octets = Vec::from_slice(self.alloc, octets)?;
        self.sightings.push(Sighting {
            step: self.step,
            event: self.event,
            place: self.place,
            station,
            deed,
            octets,
        })?;
        self.place = self.place.saturating_add(1);
        Ok(())
    }

    /// Notes that something was not seen for lack of memory.
    pub fn note_short(&mut self) {
        self.is_short = true;
    }

    /// Returns all that was seen since the log was last emptied.
    ///
    /// # Errors
    ///
    /// `AllocError` if there was no memory for some of what was ever seen.
    pub fn sightings(&self) -> Result<&[Sighting], AllocError>
        ensures all { IfOk result (λ all. all.now ≡ self.now.sightings.items) }
        ensures short { IsErr result ↔ (self.now.is_short ≡ true) }
    {
        if self.is_short {
            Err(AllocError)
        } else {
            Ok(self.sightings.as_slice())
        }
    }
    /// Discards what was seen so far. Steps, events and places go on.
    pub fn forget(&mut self)
        ensures { Forgets self.old self.new }
    {
        self.sightings.clear();
    }
}
