//! What a station sent, and how much of it was lost, as far as it was seen.
use cfdp_station::{Inbox, Outbox, SentPdus, Station};
use station_pair::Side;
use std::io;
use std::io::Write;

/// How many frames of a station were seen to leave, and how many of these to be lost.
#[derive(Clone, Copy)]
pub struct SentFrames {
    /// Those that left.
    pub all: u64,
    /// Those of them that were lost.
    pub lost: u64,
}

/// What a station sent.
#[derive(Clone, Copy)]
pub struct Sent {
    station: Side,
    pdus: Option<SentPdus>,
}

impl Sent {
    /// Makes the counts of a station that was not looked at yet.
    pub fn new(station: Side) -> Sent {
        Sent {
            station,
            pdus: None,
        }
    }

    /// Notes what the station has sent so far.
    pub fn look<O: Outbox, I: Inbox>(&mut self, station: &Station<O, I>) {
        self.pdus = Some(station.counters().sent);
    }

    /// Writes a line of what the station sent in these frames, if it sent any.
    ///
    /// # Errors
    ///
    /// The error of the writer, if it fails.
    pub fn write<W: Write>(&self, frames: SentFrames, out: &mut W) -> io::Result<()> {
        let Some(pdus) = self.pdus else {
            return Ok(());
        };
        let SentFrames { all, lost } = frames;
        if all == 0 {
            return Ok(());
        }
        let station = self.station.entity();
        write!(out, "station {station} sent: frames {all}, lost {lost}; ")?;
        write_pdus(pdus, out)
    }
}

fn write_pdus<W: Write>(pdus: SentPdus, out: &mut W) -> io::Result<()> {
    let SentPdus {
        file_data,
        file_data_again,
        naks,
        other_directives,
    } = pdus;
    write!(
        out,
        "PDUs: file data {file_data}, again {file_data_again}, "
    )?;
    writeln!(out, "NAKs {naks}, other directives {other_directives}")
}
