//! What was seen of a run, kept in memory for whoever asks for it once the run is over.
ghost use Rattle.std.specs.Prelude.{◌≤◌, vec_len};

use crate::sighting::{Log, Sighting};
use crate::standing::{Standing, standings};
use cfdp_dump::FrameShapes;
use cfdp_station::Station;
use cfdp_store::{Inbox, Outbox};
use std::alloc::{AllocError, Global};

/// The most things that are kept.
const MOST_KEPT: usize = 20_000;

/// The most octets of frames, PDUs and words that are kept.
const MOST_OCTETS: usize = 4 * 1_048_576;

/// What was seen of a run from its beginning on, up to 20,000 things and 4 MiB of octets, and how
/// far the transactions of both stations are, if nothing more was seen.
#[derive(Drop)]
pub struct Kept {
    alloc: Global,
    shapes: FrameShapes,
    sightings: Vec<Sighting>,
    standings: Vec<Standing>,
    // How many more octets may be kept.
    room: usize,
    is_cut: bool,
    ghost within: { vec_len sightings ≤ 20000 },
}

impl Kept {
    /// Begins before anything is seen, for frames that are made so.
    pub(crate) fn new(alloc: Global, shapes: FrameShapes) -> Kept {
        Kept {
            alloc,
            shapes,
            sightings: Vec::new(alloc),
            standings: Vec::new(alloc),
            room: MOST_OCTETS,
            is_cut: false,
        }
    }

    /// Returns what the frames are made of that each station sends.
    pub fn shapes(&self) -> FrameShapes {
        self.shapes
    }

    /// Returns what was seen, in order.
    pub fn sightings(&self) -> &[Sighting] {
        self.sightings.as_slice()
    }

    /// Returns how far the transactions are that have a record at a station, those of station 1
    /// first; none if more was seen than is kept.
    pub fn standings(&self) -> &[Standing] {
        self.standings.as_slice()
    }

    /// Returns `true` if more was seen than is kept.
    pub fn is_cut(&self) -> bool {
        self.is_cut
    }

    /// Keeps what a log has, and how both stations are after that.
    pub(crate) fn keep<O: Outbox, I: Inbox>(
        &mut self,
        log: &Log,
        stations: (&Station<O, I>, &Station<O, I>),
    ) {
        if self.is_cut {
            return;
        }
        if self.try_keep(log, stations).is_err() {
            self.is_cut = true;
        }
        if self.is_cut {
            self.standings.clear();
        }
    }

    /// Keeps the same, as far as there is memory.
    fn try_keep<O: Outbox, I: Inbox>(
        &mut self,
        log: &Log,
        stations: (&Station<O, I>, &Station<O, I>),
    ) -> Result<(), AllocError> {
        self.keep_all(log.sightings()?)?;
        self.standings = standings(self.alloc, stations)?;
        Ok(())
    }

    /// Keeps these, up to the first one for which there is no room.
    fn keep_all(&mut self, seen: &[Sighting]) -> Result<(), AllocError> {
        for it in seen {
            if self.sightings.len() >= MOST_KEPT || it.octets.len() > self.room {
                self.is_cut = true;
                return Ok(());
            }
            self.room -= it.octets.len();
            self.sightings.push(it.copied(self.alloc)?)?;
        }
        Ok(())
    }
}
