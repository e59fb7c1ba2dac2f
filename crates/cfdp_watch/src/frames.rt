//! The frames of one direction, watched.
use crate::condition::CANCELLED;
use crate::sent::SentFrames;
use crate::sighting::{Deed, Log};
use aos_frame::Lane;
use cfdp_directives::{Pdu, Tlvs, decode};
use cfdp_header::Header;
use cfdp_station::LinkConfig;
use link_stack::{LinkDrop, Up};
use octet_strings::OctetStrings;
use station_pair::Side;
use std::alloc::{AllocError, Global};
use valid_config::Valid;

/// How far the frames that a station sends were seen, and the PDUs in them.
#[derive(Drop)]
pub struct Watch {
    alloc: Global,
    from: Side,
    // The virtual channel of frames that carry file data.
    data_virtual_channel: u8,
    // The frames of both lanes.
    sent: SentFrames,
    // Whether a PDU said that the station's user cancelled its transaction.
    has_cancel: bool,
    // What finds the PDUs in the frames that left, and in those that arrived.
    sending: Up,
    hearing: Up,
}

impl Watch {
    /// Watches the frames that this station sends over this link, before the first one.
    ///
    /// # Errors
    ///
    /// `AllocError` if there is no memory.
    pub fn new(alloc: Global, from: Side, link: Valid<LinkConfig>) -> Result<Watch, AllocError> {
        Ok(Watch {
            alloc,
            from,
            data_virtual_channel: link.get().data_virtual_channel,
            sent: SentFrames { all: 0, lost: 0 },
            has_cancel: false,
            sending: Up::new(alloc, link)?,
            hearing: Up::new(alloc, link)?,
        })
    }

    /// Returns how many frames were seen to leave, and to be lost.
    pub fn sent(&self) -> SentFrames {
        self.sent
    }

    /// Returns `true` if a PDU that was seen said that the station's user cancelled its
    /// transaction.
    pub fn has_cancel(&self) -> bool {
        self.has_cancel
    }

    /// Notes that a frame left, and which PDUs left with it.
    pub fn leaves(&mut self, lane: Lane, frame: &[u8], log: &mut Log) {
        self.sent.all = self.sent.all.saturating_add(1);
        log.note(self.from, Deed::SendsFrame(lane), frame);
        self.has_cancel |= note_pdus(
            self.alloc,
            &mut self.sending,
            frame,
            self.from,
            Deed::SendsPdu(lane),
            log,
        );
    }

    /// Notes that a frame which left is lost.
    pub fn loses(&mut self, lane: Lane, frame: &[u8], log: &mut Log) {
        self.sent.lost = self.sent.lost.saturating_add(1);
        log.note(self.from, Deed::LosesFrame(lane), frame);
    }

    /// Notes that octets came over a wire, and which PDUs arrived with them. Their lane is that
    /// which takes them: what is of neither channel, or no frame, goes to the lane of directives.
    pub fn comes(&mut self, frame: &[u8], log: &mut Log) {
        let is_data = frame.len() >= 2 && frame[1] % 64 == self.data_virtual_channel;
        let lane = if is_data {
            Lane::Data
        } else {
            Lane::Directives
        };
        self.arrives(lane, frame, log);
    }

    /// Notes that a frame arrived, and which PDUs did with it.
    pub fn arrives(&mut self, lane: Lane, frame: &[u8], log: &mut Log) {
        let to = self.from.other();
        log.note(to, Deed::TakesFrame(lane), frame);
        self.has_cancel |= note_pdus(
            self.alloc,
            &mut self.hearing,
            frame,
            to,
            Deed::HearsPdu,
            log,
        );
    }
}

/// Notes the PDUs that a frame completes. Returns whether one of them says that the user of the
/// station that sent it cancelled its transaction.
fn note_pdus(
    alloc: Global,
    up: &mut Up,
    frame: &[u8],
    station: Side,
    deed: Deed,
    log: &mut Log,
) -> bool {
    let mut pdus = OctetStrings::new(alloc);
    let before = up.drops(LinkDrop::NoMemory.number());
    up.receive(frame, &mut pdus);
    if up.drops(LinkDrop::NoMemory.number()) != before {
        log.note_short();
    }
    let mut has_cancel = false;
    for place in 0..pdus.len() {
        let pdu = pdus.get(place);
        log.note(station, deed, pdu);
        has_cancel |= tells_cancel(pdu);
    }
    has_cancel
}

/// Returns `true` if octets are a PDU that says that the user of the station that sent it cancelled
/// its transaction.
fn tells_cancel(octets: &[u8]) -> bool {
    match decode(octets) {
        Ok((header, pdu)) => is_cancel(&header, &pdu),
        Err(_) => false,
    }
}

/// Returns `true` if it is an EOF or a Finished with that condition, which names no other entity.
fn is_cancel(header: &Header, pdu: &Pdu<'_>) -> bool {
    match pdu {
        Pdu::Eof {
            condition,
            tlvs,
            ..
        } => condition.code() == CANCELLED && is_of(tlvs, header.id.source),
        Pdu::Finished {
            condition,
            tlvs,
            ..
        } => condition.code() == CANCELLED && is_of(tlvs, header.destination),
        _ => false,
    }
}

/// Returns `true` if there is a fault location, and it is this entity.
fn is_of(tlvs: &Tlvs<'_>, entity: u64) -> bool {
    match tlvs.fault_location() {
        Some(location) => location == entity,
        None => true,
    }
}
