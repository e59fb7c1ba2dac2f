//! What a station dropped of what it took, as far as it was seen.
use crate::sighting::{Deed, Log};
use cfdp_station::{EntityDrop, Inbox, LinkDrop, Outbox, Station};
use station_pair::Side;
use std::io::Write;
use std::{fmt, io};

/// How many causes there are of frames, zones and packets, and how many of PDUs.
const OF_LINK: usize = 12;

const OF_PDUS: usize = 17;

/// Why a station dropped something of what it took.
#[derive(Clone, Copy)]
enum Cause {
    /// A frame, a zone or a packet gave no PDU.
    Link(LinkDrop),
    /// A PDU was not heard.
    Pdu(EntityDrop),
}

impl fmt::Display for Cause {
    fn fmt<W: fmt::Write>(&self, f: &mut fmt::Formatter<W>) -> fmt::Result {
        match self {
            Cause::Link(by) => write!(f, "link {} {}", by.number(), by.name()),
            Cause::Pdu(by) => write!(f, "pdu {} {}", by.number(), by.name()),
        }
    }
}

/// How often a station dropped something, as far as it was seen, by the causes in their order.
#[derive(Drop)]
pub struct Dropped {
    station: Side,
    link: [u64; OF_LINK],
    pdus: [u64; OF_PDUS],
}

impl Dropped {
    /// Makes the counts of a station that has dropped nothing yet.
    pub fn new(station: Side) -> Dropped {
        Dropped {
            station,
            link: [0; OF_LINK],
            pdus: [0; OF_PDUS],
        }
    }

    /// Notes what the station has dropped since the last look, a line for each cause.
    pub fn look<O: Outbox, I: Inbox>(&mut self, station: &Station<O, I>, log: &mut Log) {
        self.look_at_link(station, log);
        self.look_at_pdus(station, log);
    }

    fn look_at_link<O: Outbox, I: Inbox>(&mut self, station: &Station<O, I>, log: &mut Log) {
        for (place, by) in LinkDrop::ALL.iter().enumerate() {
            let count = station.link_drops(*by);
            if count != self.link[place] {
                self.link[place] = count;
                log.note_words(self.station, Deed::Drops, &Cause::Link(*by));
            }
        }
    }

    fn look_at_pdus<O: Outbox, I: Inbox>(&mut self, station: &Station<O, I>, log: &mut Log) {
        for (place, by) in EntityDrop::ALL.iter().enumerate() {
            let count = station.drops(*by);
            if count != self.pdus[place] {
                self.pdus[place] = count;
                log.note_words(self.station, Deed::Drops, &Cause::Pdu(*by));
            }
        }
    }

    /// Writes a line for each cause by which the station has dropped something.
    ///
    /// # Errors
    ///
    /// The error of the writer, if it fails.
    pub fn write<W: Write>(&self, out: &mut W) -> io::Result<()> {
        self.write_link(out)?;
        self.write_pdus(out)
    }

    fn write_link<W: Write>(&self, out: &mut W) -> io::Result<()> {
        for (place, by) in LinkDrop::ALL.iter().enumerate() {
            write_count(self.station, Cause::Link(*by), self.link[place], out)?;
        }
        Ok(())
    }

    fn write_pdus<W: Write>(&self, out: &mut W) -> io::Result<()> {
        for (place, by) in EntityDrop::ALL.iter().enumerate() {
            write_count(self.station, Cause::Pdu(*by), self.pdus[place], out)?;
        }
        Ok(())
    }
}

fn write_count<W: Write>(side: Side, cause: Cause, count: u64, out: &mut W) -> io::Result<()> {
    if count > 0 {
        let station = side.entity();
        writeln!(out, "station {station} dropped: {cause}, {count}")?;
    }
    Ok(())
}
