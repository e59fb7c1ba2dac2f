//! Sends a file from one station to another over a link of its own, which loses every fourth frame,
//! and prints what each station indicates to its user. It shows how a program drives
//! `cfdp_station`; it is no part of the product.
#![tactic(auto)]

mod link;

use crate::link::Channel;
use cfdp_station::{
    AddError, Config, EntityConfig, FrameFields, Indication, LinkConfig, PutError, Station,
    StationConfig, StationField,
};
use cfdp_store::{MemoryInbox, MemoryOutbox};
use std::alloc::AllocError;
use std::io;
use std::process::ExitCode;
use thiserror::Error;

/// A station whose files are in memory.
type MemoryStation = Station<MemoryOutbox, MemoryInbox>;

/// The most turns that the transfer may take.
const MOST_TURNS: u32 = 1000;

/// Why the transfer isn't made.
#[derive(Debug, Drop, Error)]
enum Failure {
    #[error("{0}")]
    Setup(#[from] StationField),
    #[error("{0}")]
    Add(#[from] AddError),
    #[error("{0}")]
    Put(#[from] PutError),
    #[error("out of memory")]
    Memory(#[from] AllocError),
    #[error("{0}")]
    Output(#[from] io::Error),
}

fn main(rt: HostRuntime) -> ExitCode {
    match transfer(&rt) {
        Ok(()) => ExitCode::SUCCESS,
        Err(failure) => {
            let _ = eprintln!(rt; "error: {failure}");
            ExitCode::FAILURE
        }
    }
}

/// Sends a file from station 1 to station 2, and prints it as it arrived.
fn transfer(rt: &HostRuntime) -> Result<(), Failure> {
    let (mut up, mut down) = (Channel::new(rt.alloc()), Channel::new(rt.alloc()));
    let mut one = station(rt, EntityConfig::new(1, 2), frames(1, 3), frames(2, 4))?;
    let mut two = station(rt, EntityConfig::new(2, 1), frames(2, 4), frames(1, 3))?;
    one.add_source(b"a.txt", &[b'x'; 3000])?;
    one.put(b"a.txt", b"b.txt")?;

    let mut frame = Vec::new(rt.alloc());
    let mut now = 0;
    for _ in 0..MOST_TURNS {
        let sent = turn(&mut one, &mut up, &mut down, &mut frame, now)?;
        let answered = turn(&mut two, &mut down, &mut up, &mut frame, now)?;
        report(rt, 1, &mut one)?;
        report(rt, 2, &mut two)?;
        if !sent && !answered {
            // Nothing is on its way: the next thing that happens is a time-out.
            match next_time(&one, &two) {
                Some(time) => now = time,
                None => break,
            }
        }
    }
    let octets = two
        .inbox()
        .published()
        .get(b"b.txt")
        .map_or(0, |file| file.len());
    println!(rt; "station 2 has b.txt, {octets} octets, after {now} s")?;
    Ok(())
}

/// Returns the station of an entity, with no files.
fn station(
    rt: &HostRuntime,
    entity: EntityConfig,
    sends: LinkConfig,
    receives: LinkConfig,
) -> Result<MemoryStation, Failure> {
    let config = StationConfig::new(entity, sends, receives).validate()?;
    let (outbox, inbox) = (MemoryOutbox::new(rt.alloc()), MemoryInbox::new(rt.alloc()));
    Ok(Station::new(rt.alloc(), config, outbox, inbox)?)
}

/// Returns what the frames of one direction have, on a virtual channel for directives and one for
/// file data.
fn frames(virtual_channel: u8, data_virtual_channel: u8) -> LinkConfig {
    LinkConfig {
        spacecraft: 42,
        virtual_channel,
        data_virtual_channel,
        zone: 1024,
        apid: 100,
        fields: FrameFields::NONE,
    }
}

/// Gives a station the time and the next frame that arrived, and sends the next frame that is due,
/// which is written into `frame`. Returns `true` if a frame arrived or was sent.
fn turn(
    station: &mut MemoryStation,
    sends: &mut Channel,
    receives: &mut Channel,
    frame: &mut Vec<u8>,
    now: u64,
) -> Result<bool, AllocError> {
    station.tick(now)?;
    let arrived = receives.receive();
    if let Some(frame) = &arrived {
        station.receive(frame);
    }
    let due = station.transmit(frame)?.is_some();
    if due {
        sends.send(frame)?;
    }
    Ok(due || arrived.is_some())
}

/// Returns when the first timer of two stations runs out.
fn next_time(one: &MemoryStation, two: &MemoryStation) -> Option<u64> {
    match (one.next_timeout(), two.next_timeout()) {
        (Some(one), Some(two)) => Some(one.min(two)),
        (one, two) => one.or(two),
    }
}

/// Prints what a station indicated, and discards it.
fn report(rt: &HostRuntime, own: u8, station: &mut MemoryStation) -> io::Result<()> {
    for indication in station.indications() {
        print_indication(rt, own, indication)?;
    }
    station.forget_indications(station.indications().len());
    Ok(())
}

/// Prints an indication of a station.
fn print_indication(rt: &HostRuntime, own: u8, indication: &Indication) -> io::Result<()> {
    match indication {
        Indication::Transaction(id) => {
            println!(rt; "{own}: transaction {}:{} is open", id.source, id.number)
        }
        Indication::MetadataRecv { size, .. } => {
            println!(rt; "{own}: a file of {size} octets is announced")
        }
        Indication::EofSent(_) => println!(rt; "{own}: all of the file was sent once"),
        Indication::EofRecv(_) => println!(rt; "{own}: the end of the file arrived"),
        Indication::Finished { condition, .. } => {
            println!(rt; "{own}: finished with condition {}", condition.code())
        }
        other => println!(rt; "{own}: {other:?}"),
    }
}
