//! PDUs down to frames, and frames up.
ghost use Rattle.std.specs.Prelude.{◌≡◌, ◌≢◌, ◌+◌, false};
ghost use Rattle.aos_frame.specs.Frame.{frame_len};
ghost use Rattle.aos_frame.specs.declared.config.Lane.{Lane};
ghost use Rattle.link_stack.specs.Downward.{lane_down};
ghost use Rattle.cfdp_station.specs.Station.{station_lent};
ghost use Rattle.cfdp_station.specs.Taking.{TakesFrame};
ghost use Rattle.cfdp_c.specs.Codes as codes;
ghost use Rattle.cfdp_c.specs.Frames.{PollsOne, FillsFrames, GivesFrame, AreAhead, TransmitsTo};
ghost use Rattle.cfdp_c.specs.Handles.{Answers, Becomes};
ghost use Rattle.cfdp_c.specs.Held.{before_poll, has_folders, state_of};

use crate::codes::{CLOSED, NO_ROOM, OK, of_frame, of_poll, of_transmit};
use crate::handle::CfdpStation;
use crate::held::{AnyStation, Held};
use cfdp_station::{Lane, Station};
use cfdp_store::{Inbox, MemoryInbox, MemoryOutbox, Outbox};
use std::alloc::Global;

/// Polls a station.
fn poll<O: Outbox, I: Inbox>(station: &mut Station<O, I>) -> u32
    ensures polls { PollsOne result (station_lent station.new station.old) station.old
        station.new }
{
    of_poll(station.poll())
}

/// Polls a station whose files are in memory.
fn poll_memory(station: &mut Station<MemoryOutbox, MemoryInbox>) -> u32
    ensures polls { PollsOne result station.old station.old station.new }
{
    let answer = station.poll();
    // For the prover: its files are in memory, and so always stand: what was read is what they
    // have.
    let _ = station.outbox();
    of_poll(answer)
}

/// Returns the most whole frames that can wait, those of both lanes.
fn frames_ahead<O: Outbox, I: Inbox>(station: &Station<O, I>) -> usize
    ensures { AreAhead result station.now.down }
{
    let directives = station.frames_ahead(Lane::Directives);
    let file_data = station.frames_ahead(Lane::Data);
    directives.saturating_add(file_data)
}

impl Held {
    fn poll(&mut self) -> u32
        ensures polls { PollsOne result
            (before_poll self.old.station (state_of self.new.station))
            (state_of self.old.station) (state_of self.new.station) }
        ensures place { has_folders self.new.station ≡ has_folders self.old.station }
    {
        let answer = match &mut self.station {
            AnyStation::Memory(station) => poll_memory(station),
            AnyStation::Folders(station) => poll(station),
        };
        self.notes_polls();
        answer
    }

    fn transmit(&mut self, out: &mut [u8]) -> u32
        ensures sends { TransmitsTo result out.old out.new (state_of self.old.station)
            (state_of self.new.station) }
        ensures place { has_folders self.new.station ≡ has_folders self.old.station }
    {
        if out.len() != self.room_len() {
            return NO_ROOM;
        }
        match &mut self.station {
            AnyStation::Memory(station) => of_transmit(station.transmit_into(out)),
            AnyStation::Folders(station) => of_transmit(station.transmit_into(out)),
        }
    }

    fn flush(&mut self)
        ensures fills { FillsFrames (state_of self.old.station) (state_of self.new.station) }
        ensures place { has_folders self.new.station ≡ has_folders self.old.station }
    {
        match &mut self.station {
            AnyStation::Memory(station) => station.flush(),
            AnyStation::Folders(station) => station.flush(),
        }
    }

    fn receive(&mut self, frame: &[u8])
        ensures takes { TakesFrame frame.now (state_of self.old.station)
            (state_of self.new.station) }
        ensures place { has_folders self.new.station ≡ has_folders self.old.station }
    {
        match &mut self.station {
            AnyStation::Memory(station) => station.receive(frame),
            AnyStation::Folders(station) => station.receive(frame),
        }
    }

    fn frames_ahead(&self) -> usize
        ensures { AreAhead result (state_of self.now.station).down }
    {
        match &self.station {
            AnyStation::Memory(station) => frames_ahead(station),
            AnyStation::Folders(station) => frames_ahead(station),
        }
    }

    fn frame_len(&self) -> usize
        ensures { (lane : Lane) → result
            ≡ frame_len (lane_down lane (state_of self.now.station).down).link }
    {
        match &self.station {
            AnyStation::Memory(station) => station.frame_len(),
            AnyStation::Folders(station) => station.frame_len(),
        }
    }

    /// Returns the octets of room for a frame.
    fn room_len(&self) -> usize
        ensures { result ≡ frame_len (state_of self.now.station).down.directives.link }
    {
        self.frame_len()
    }

    fn next_frame(&mut self, out: &mut [u8]) -> u32
        ensures gives { GivesFrame result out.old out.new (state_of self.old.station)
            (state_of self.new.station) }
        ensures place { has_folders self.new.station ≡ has_folders self.old.station }
    {
        if out.len() != self.room_len() {
            return NO_ROOM;
        }
        match &mut self.station {
            AnyStation::Memory(station) => of_frame(station.next_frame(out)),
            AnyStation::Folders(station) => of_frame(station.next_frame(out)),
        }
    }
}

/// Writes the next frame that must leave to room of exactly its octets: polls until a whole frame
/// waits, or nothing is due or has room, and fills up what is begun. Directives go first. Returns
/// 0, `CLOSED`, `NO_ROOM` if the room has another length, `NOTHING` if there is nothing to send, or
/// `NO_MEMORY`: what was polled before stays.
#[unsafe(no_mangle)]
pub extern "C" fn cfdp_transmit(alloc: Global, station: &mut CfdpStation, frame: &mut [u8]) -> u32
    ensures sends { Answers result station.old station.new
        (λ x y. TransmitsTo result frame.old frame.new (state_of x.station) (state_of y.station)) }
    ensures kept { result ≢ codes.ok → frame.new ≡ frame.old }
{
    let Some(mut held) = station.lift(alloc) else {
        return CLOSED;
    };
    let answer = held.transmit(frame);
    held.notes_polls();
    *station = CfdpStation::holding(held);
    answer
}

/// Moves the PDU whose turn it is down its lane, if one is due. Returns 0, `CLOSED`, `NOTHING` if
/// none is due, `FULL` if it doesn't fit until frames were taken off, `SOURCE_FAULT` if the outbox
/// failed and the transaction was cancelled for it, or `NO_MEMORY`: nothing changed.
#[unsafe(no_mangle)]
pub extern "C" fn cfdp_poll(alloc: Global, station: &mut CfdpStation) -> u32
    ensures open { station.new.is_open ≡ station.old.is_open }
    ensures closed { station.old.is_open ≡ false → result ≡ codes.closed }
    ensures polls { Becomes station.old station.new (λ x y.
        PollsOne result (before_poll x.station (state_of y.station)) (state_of x.station)
        (state_of y.station)) }
{
    let Some(mut held) = station.lift(alloc) else {
        return CLOSED;
    };
    let answer = held.poll();
    *station = CfdpStation::holding(held);
    answer
}

/// Fills the begun frame of each lane by an idle packet, if one is begun, so that all can leave in
/// whole frames. Returns 0 or `CLOSED`.
#[unsafe(no_mangle)]
pub extern "C" fn cfdp_flush(alloc: Global, station: &mut CfdpStation) -> u32
    ensures open { station.new.is_open ≡ station.old.is_open }
    ensures closed { station.old.is_open ≡ false → result ≡ codes.closed }
    ensures fills { Becomes station.old station.new (λ x y. (result ≡ codes.ok)
        × FillsFrames (state_of x.station) (state_of y.station)) }
{
    let Some(mut held) = station.lift(alloc) else {
        return CLOSED;
    };
    held.flush();
    *station = CfdpStation::holding(held);
    OK
}

/// Returns the octets of each frame that it sends, in either lane; 0 if the handle is closed.
#[unsafe(no_mangle)]
pub extern "C" fn cfdp_frame_len(alloc: Global, station: &mut CfdpStation) -> usize
    ensures open { station.new.is_open ≡ station.old.is_open }
    ensures closed { station.old.is_open ≡ false → result ≡ 0 }
    ensures len { Becomes station.old station.new (λ x y. (y ≡ x)
        × ((lane : Lane) → result ≡ frame_len (lane_down lane (state_of x.station).down).link)) }
{
    let Some(held) = station.lift(alloc) else {
        return 0;
    };
    let len = held.frame_len();
    *station = CfdpStation::holding(held);
    len
}

/// Returns the most whole frames that can wait after a poll or a flush, those of both lanes; 0 if
/// the handle is closed.
#[unsafe(no_mangle)]
pub extern "C" fn cfdp_frames_ahead(alloc: Global, station: &mut CfdpStation) -> usize
    ensures open { station.new.is_open ≡ station.old.is_open }
    ensures closed { station.old.is_open ≡ false → result ≡ 0 }
    ensures ahead { Becomes station.old station.new (λ x y. (y ≡ x)
        × AreAhead result (state_of x.station).down) }
{
    let Some(held) = station.lift(alloc) else {
        return 0;
    };
    let ahead = held.frames_ahead();
    *station = CfdpStation::holding(held);
    ahead
}

/// Writes the oldest whole frame to room of exactly its octets, and takes it off: the oldest one of
/// directives, or if none of them waits, of file data. Its channel says which. Returns 0, `CLOSED`,
/// `NO_ROOM` if the room has another length, or `NOTHING` if no whole frame waits.
#[unsafe(no_mangle)]
pub extern "C" fn cfdp_next_frame(alloc: Global, station: &mut CfdpStation, frame: &mut [u8]) -> u32
    ensures open { station.new.is_open ≡ station.old.is_open }
    ensures closed { station.old.is_open ≡ false → result ≡ codes.closed }
    ensures kept { result ≢ codes.ok → frame.new ≡ frame.old }
    ensures gives { Becomes station.old station.new (λ x y.
        GivesFrame result frame.old frame.new (state_of x.station) (state_of y.station)) }
{
    let Some(mut held) = station.lift(alloc) else {
        return CLOSED;
    };
    let answer = held.next_frame(frame);
    *station = CfdpStation::holding(held);
    answer
}

/// Takes a frame, whatever its octets are. What can't be used of it is counted. Returns 0 or
/// `CLOSED`.
#[unsafe(no_mangle)]
pub extern "C" fn cfdp_receive(alloc: Global, station: &mut CfdpStation, frame: &[u8]) -> u32
    ensures open { station.new.is_open ≡ station.old.is_open }
    ensures closed { station.old.is_open ≡ false → result ≡ codes.closed }
    ensures takes { Becomes station.old station.new (λ x y. (result ≡ codes.ok)
        × TakesFrame frame.now (state_of x.station) (state_of y.station)) }
{
    let Some(mut held) = station.lift(alloc) else {
        return CLOSED;
    };
    held.receive(frame);
    *station = CfdpStation::holding(held);
    OK
}
