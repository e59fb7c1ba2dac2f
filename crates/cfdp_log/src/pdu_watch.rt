//! The PDUs of a running station that show how its transactions fare.
use cfdp_console::Nak;
use cfdp_directives::{Acknowledged, Pdu, SegmentRequests, decode};
use cfdp_header::{Header, TransactionId};
use cfdp_station::{LinkConfig, Phase, Station, StationConfig};
use cfdp_store::{Inbox, Outbox};
use indexmap::IndexMap;
use link_stack::Up;
use octet_strings::OctetStrings;
use std::alloc::{AllocError, Global};
use std::cell::RefCell;
use valid_config::Valid;

/// The most PDUs that wait for the board, and the most ranges that their NAKs request together. Of
/// more than these nothing is known.
const MOST_SEEN: usize = 4096;

const MOST_RANGES: usize = 16_384;

/// Of so many transactions it is followed what is sent again, before it is looked which of them are
/// over: as many as can be open at once.
const MOST_FOLLOWED: usize = 4096;

/// What is seen in a PDU of a transaction.
#[derive(Drop)]
pub enum SeenPdu {
    /// A NAK was sent or received.
    Nak(TransactionId, Nak),
    /// So many octets of the file were sent again.
    Again(TransactionId, u64),
    /// An EOF of this condition was sent.
    Eof(TransactionId, u8),
    /// A Finished was sent.
    Finished(TransactionId),
}

impl SeenPdu {
    /// Returns its transaction.
    pub fn id(&self) -> TransactionId {
        match self {
            SeenPdu::Nak(id, _)
            | SeenPdu::Again(id, _)
            | SeenPdu::Eof(id, _)
            | SeenPdu::Finished(id) => *id,
        }
    }
}

/// The PDUs that were seen in a turn, and the ranges that their NAKs request.
#[derive(Drop)]
struct Waiting {
    pdus: Vec<SeenPdu>,
    ranges: usize,
}

/// The PDUs that were seen and that the station's board doesn't have yet. The watch adds them, and
/// the board takes all of them between two turns.
#[derive(Drop)]
pub struct SeenPdus {
    alloc: Global,
    waiting: RefCell<Waiting>,
}

impl SeenPdus {
    /// Returns no PDUs.
    pub fn new(alloc: Global) -> SeenPdus {
        SeenPdus {
            alloc,
            waiting: RefCell::new(none_waits(alloc)),
        }
    }

    /// Adds one, if there is room and memory for it.
    fn adds(&self, pdu: SeenPdu, ranges: usize) {
        if let Ok(mut waiting) = self.waiting.try_borrow_mut()
            && waiting.pdus.len() < MOST_SEEN
            && waiting.ranges.saturating_add(ranges) <= MOST_RANGES
        {
            waiting.ranges = waiting.ranges.saturating_add(ranges);
            let _ = waiting.pdus.push(pdu);
        }
    }

    /// Takes all of them, in the order in which they were seen.
    pub fn take(&self) -> Vec<SeenPdu> {
        match self.waiting.try_replace(none_waits(self.alloc)) {
            Ok(waiting) => waiting.pdus,
            Err(_) => Vec::new(self.alloc),
        }
    }
}

fn none_waits(alloc: Global) -> Waiting {
    Waiting {
        pdus: Vec::new(alloc),
        ranges: 0,
    }
}

/// One who looks at the frames of a running station for the PDUs that show how its transactions
/// fare: NAKs in either direction, and what the station sends more than once. Frames of file data
/// that the station receives are left out.
#[derive(Drop)]
pub struct PduWatch<'a> {
    alloc: Global,
    seen: &'a SeenPdus,
    leaving: Up,
    coming: Up,
    // The virtual channel of the frames of file data that are received.
    data_channel: u8,
    // The transactions whose file is being sent, each with the offset up to which it has left: what
    // leaves from an offset before that is sent again.
    fronts: IndexMap<TransactionId, u64>,
}

impl<'a> PduWatch<'a> {
    /// Returns a watch before the first frame of a station with these links.
    ///
    /// # Errors
    ///
    /// `AllocError` if there is no memory.
    pub fn new(
        alloc: Global,
        config: Valid<StationConfig>,
        seen: &'a SeenPdus,
    ) -> Result<PduWatch<'a>, AllocError> {
        let config = config.get();
        Ok(PduWatch {
            alloc,
            seen,
            leaving: Up::new(alloc, Valid::known(config.sends))?,
            coming: Up::new(alloc, Valid::known(config.receives))?,
            data_channel: data_channel(config.receives),
            fronts: IndexMap::new(alloc),
        })
    }

    /// Looks at a frame that the station has received.
    pub fn received<O: Outbox, I: Inbox>(&mut self, frame: &[u8], station: &Station<O, I>) {
        if is_on(frame, self.data_channel) {
            return;
        }
        let mut pdus = OctetStrings::new(self.alloc);
        self.coming.receive(frame, &mut pdus);
        for place in 0..pdus.len() {
            if let Ok((header, pdu)) = decode(pdus.get(place)) {
                self.hears(&header, &pdu, station);
            }
        }
    }

    /// Notes a PDU that the station has received, if it is a NAK of a file that it sends.
    fn hears<O: Outbox, I: Inbox>(
        &mut self,
        header: &Header,
        pdu: &Pdu<'_>,
        station: &Station<O, I>,
    ) {
        if let Pdu::Nak {
            start,
            end,
            requests,
        } = pdu
            && station.phase(header.id) == Some(Phase::Sending)
        {
            self.notes_nak(header.id, *start, *end, requests);
        }
    }

    /// Looks at a frame that leaves the station.
    pub fn leaves<O: Outbox, I: Inbox>(&mut self, frame: &[u8], station: &Station<O, I>) {
        let mut pdus = OctetStrings::new(self.alloc);
        self.leaving.receive(frame, &mut pdus);
        for place in 0..pdus.len() {
            if let Ok((header, pdu)) = decode(pdus.get(place)) {
                self.notes_sent(header.id, &pdu, station);
            }
        }
    }

    /// Notes a PDU that leaves the station.
    fn notes_sent<O: Outbox, I: Inbox>(
        &mut self,
        id: TransactionId,
        pdu: &Pdu<'_>,
        station: &Station<O, I>,
    ) {
        match pdu {
            Pdu::FileData { offset, bytes } => {
                self.follows(id, station);
                self.notes_data(id, *offset, bytes.len() as u64);
            }
            Pdu::Nak {
                start,
                end,
                requests,
            } => self.notes_nak(id, *start, *end, requests),
            Pdu::Eof { condition, .. } => {
                let code = condition.code();
                if code != 0 {
                    let _ = self.fronts.shift_remove(&id);
                }
                self.seen.adds(SeenPdu::Eof(id, code), 0);
            }
            Pdu::Finished { .. } => self.seen.adds(SeenPdu::Finished(id), 0),
            Pdu::Ack {
                of: Acknowledged::Finished,
                ..
            } => {
                let _ = self.fronts.shift_remove(&id);
            }
            Pdu::Ack { .. } | Pdu::Metadata { .. } | Pdu::Prompt { .. } | Pdu::KeepAlive { .. } =>
                {}
        }
    }

    /// Follows a transaction from now on, of whose file nothing has left.
    fn follows<O: Outbox, I: Inbox>(&mut self, id: TransactionId, station: &Station<O, I>) {
        if self.fronts.contains_key(&id) {
            return;
        }
        if self.fronts.len() >= MOST_FOLLOWED {
            self.fronts
                .retain(|id, _front| station.phase(*id) == Some(Phase::Sending));
        }
        let _ = self.fronts.insert(id, 0);
    }

    /// Notes file data that leave the station, if the transaction is followed.
    fn notes_data(&mut self, id: TransactionId, offset: u64, len: u64) {
        let Some(front) = self.fronts.get_mut(&id) else {
            return;
        };
        if offset < *front {
            self.seen.adds(SeenPdu::Again(id, len), 0);
        } else {
            *front = offset.saturating_add(len);
        }
    }

    /// Notes a NAK. If there is no memory for its ranges, it isn't known.
    fn notes_nak(&self, id: TransactionId, start: u64, end: u64, requests: &SegmentRequests<'_>) {
        if let Ok(nak) = nak_of(self.alloc, start, end, requests) {
            let ranges = nak.requests.len();
            self.seen.adds(SeenPdu::Nak(id, nak), ranges);
        }
    }
}

/// The virtual channel of a link's frames of file data.
fn data_channel(link: LinkConfig) -> u8 {
    link.data_virtual_channel
}

/// Whether a frame's header says that it is of this virtual channel (CCSDS 732.0-B-4, 4.1.2.2).
fn is_on(frame: &[u8], virtual_channel: u8) -> bool {
    match frame.get(1) {
        Some(octet) => *octet & 63 == virtual_channel,
        None => false,
    }
}

/// A NAK as the board has it: (0, 0) requests Metadata, and any other pair a range of the file
/// (CCSDS 727.0-B-5, 5.2.6.2).
fn nak_of(
    alloc: Global,
    start: u64,
    end: u64,
    requests: &SegmentRequests<'_>,
) -> Result<Nak, AllocError> {
    let mut nak = Nak {
        start,
        end,
        has_metadata: false,
        requests: Vec::new(alloc),
    };
    for (from, to) in requests.iter() {
        if to == 0 {
            nak.has_metadata = true;
        } else {
            nak.requests.push((from, to))?;
        }
    }
    Ok(nak)
}
