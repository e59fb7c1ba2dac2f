//! What a station's console shows of it.
use crate::details::{DetailsSetup, details_of};
use crate::pdu_watch::SeenPdu;
use crate::station_log::noted::{Noted, NotedTopics};
use crate::station_log::style::unix_time;
use crate::station_log::totals::{CONDITIONS, Totals};
use cfdp_console::{
    Details, Dropped, Failed, FrameCounts, Ledger, LinkStatus, Names, NoteShown, OpenPhases,
    Samples, ShownCounters, Status, Told, TransferEnd, Way,
};
use cfdp_directives::{Condition, Delivery, FileStatus, Indication, Limits};
use cfdp_exchange::{CarrierDrop, Exchange, NoteKind, REFUSALS, refusal_name};
use cfdp_header::TransactionId;
use cfdp_report::{Name, condition_name, condition_words, parse_id};
use cfdp_service::PutNames;
use cfdp_station::{EntityDrop, Lane, LinkDrop, Phase, Station};
use cfdp_store::{Inbox, Outbox};
use std::alloc::{AllocError, Global};

/// Milliseconds of a second.
const SECOND: u64 = 1_000;

/// The station that a board is of.
#[derive(Clone, Copy)]
pub struct BoardSetup<'a> {
    /// What has the clock.
    pub rt: &'a HostRuntime,
    /// The ids of its entity and of its peer's.
    pub own: u64,
    pub peer: u64,
    /// What a datagram is.
    pub carrier: &'static str,
    /// The peer's address.
    pub to: &'a str,
    /// The version of the program.
    pub version: &'static str,
    /// Whether frames are authenticated.
    pub is_authenticated: bool,
    /// How often the station sends something again.
    pub limits: Limits,
    /// What passed over the link, and what of that was dropped.
    pub exchange: &'a Exchange,
}

/// How a station is at the time when it is looked at.
#[derive(Clone, Copy)]
pub struct Moment {
    /// Milliseconds since the start.
    pub now: u64,
    /// The time that the station was given last, in units of its clock.
    pub told: u64,
    /// Whether the link is down by plan.
    pub is_frozen: bool,
    /// How many files wait for their put.
    pub waiting: usize,
    /// What was done.
    pub totals: Totals,
}

/// What a station's console shows of it: its transactions, and what passed over its link.
#[derive(Drop)]
pub struct Board<'a> {
    setup: BoardSetup<'a>,
    ledger: Ledger,
    samples: Samples,
    // How many datagrams had come when it was last seen that one did, and in which second that was.
    came: u64,
    came_second: Option<u64>,
}

impl<'a> Board<'a> {
    /// Returns a board before the first turn.
    pub fn new(setup: BoardSetup<'a>) -> Board<'a> {
        let alloc = setup.rt.alloc();
        Board {
            setup,
            ledger: Ledger::new(alloc, setup.own),
            samples: Samples::new(alloc),
            came: 0,
            came_second: None,
        }
    }

    /// Returns the transactions.
    pub fn ledger(&self) -> &Ledger {
        &self.ledger
    }

    /// Returns what passed over the link, second by second.
    pub fn samples(&self) -> &Samples {
        &self.samples
    }

    /// Notes what passed over the link so far, at this time in milliseconds since the start.
    pub fn notes_frames(&mut self, now: u64) {
        let counts = self.frames();
        if counts.received != self.came {
            self.came = counts.received;
            self.came_second = Some(now / SECOND);
        }
        self.samples.notes(now / SECOND, counts);
    }

    /// Notes that a put of these names was accepted, of a file of `size` octets if that is
    /// known.
    pub fn put_accepted(&mut self, id: TransactionId, names: &PutNames, size: Option<u64>) {
        let (source, destination) = (names.source.as_slice(), names.destination.as_slice());
        let names = printed(self.setup.rt.alloc(), source, destination);
        self.ledger
            .begins(id, names, size, unix_time(self.setup.rt));
    }

    /// Notes what the station indicates.
    pub fn hears(&mut self, indication: &Indication) {
        match indication {
            Indication::MetadataRecv {
                id,
                source,
                destination,
                size,
            } => {
                let alloc = self.setup.rt.alloc();
                let names = printed(alloc, source.as_slice(), destination.as_slice());
                let time = unix_time(self.setup.rt);
                self.ledger.begins(*id, names, Some(*size), time);
            }
            Indication::Finished {
                id,
                condition,
                delivery,
                status,
            } => {
                let is_whole = *delivery == Delivery::Complete && *status == FileStatus::Retained;
                self.ends(*id, is_whole && condition.code() == 0, *condition);
            }
            Indication::Abandoned(id, condition) => self.ends(*id, false, *condition),
            Indication::Suspended(id, _) => self.ledger.suspends(*id, true),
            Indication::Resumed(id) => {
                self.ledger.suspends(*id, false);
                self.ledger.counts_anew(*id);
            }
            Indication::EofSent(id) | Indication::EofRecv(id) => self.ledger.notes_eof(*id),
            Indication::Fault(id, _) => self.ledger.counts_anew(*id),
            Indication::Transaction(_) | Indication::Progress(..) => {}
        }
    }

    /// Notes the PDUs that were seen since the last time.
    pub fn notes_pdus<O: Outbox, I: Inbox>(&mut self, pdus: &[SeenPdu], station: &Station<O, I>) {
        if pdus.is_empty() {
            return;
        }
        let time = unix_time(self.setup.rt);
        for pdu in pdus {
            self.notes_pdu(pdu, station, time);
        }
    }

    fn notes_pdu<O: Outbox, I: Inbox>(
        &mut self,
        pdu: &SeenPdu,
        station: &Station<O, I>,
        time: u64,
    ) {
        let id = pdu.id();
        let is_open = match station.phase(id) {
            Some(phase) => phase != Phase::Closed,
            None => false,
        };
        let Some(passed) = self.ledger.passed_mut(id, is_open) else {
            return;
        };
        match pdu {
            SeenPdu::Nak(_, nak) => passed.notes_nak(nak, time),
            SeenPdu::Again(_, octets) => passed.notes_again(*octets),
            SeenPdu::Eof(_, condition) => passed.notes_eof(*condition),
            SeenPdu::Finished(_) => passed.notes_finished(),
        }
    }

    /// Returns the details of the transaction of this id, which is a word as `1:7`; `None` if the
    /// word is no id.
    ///
    /// # Errors
    ///
    /// `AllocError` if there is no memory for them.
    pub fn details<O: Outbox, I: Inbox>(
        &self,
        station: &Station<O, I>,
        word: &[u8],
    ) -> Result<Option<Details>, AllocError> {
        let Ok(id) = parse_id(word) else {
            return Ok(None);
        };
        let setup = DetailsSetup {
            alloc: self.setup.rt.alloc(),
            ledger: &self.ledger,
            limits: self.setup.limits,
            now: self.setup.exchange.told.get(),
        };
        Ok(Some(details_of(setup, station, id)?))
    }

    fn ends(&mut self, id: TransactionId, is_complete: bool, condition: Condition) {
        let ending = TransferEnd {
            is_complete,
            why: condition_words(condition.code()),
            condition: condition_name(condition.code()),
            time: unix_time(self.setup.rt),
        };
        self.ledger.ends(id, ending);
    }

    /// The frames that were counted.
    fn frames(&self) -> FrameCounts {
        let gaps = &self.setup.exchange.gaps;
        FrameCounts {
            sent: gaps.sent(),
            received: gaps.came(),
            missing: gaps.missing(),
        }
    }

    /// Returns what the station shows of itself now.
    ///
    /// # Errors
    ///
    /// `AllocError` if there is no memory for it.
    pub fn status<O: Outbox, I: Inbox>(
        &self,
        station: &Station<O, I>,
        moment: Moment,
        noted: &NotedTopics,
    ) -> Result<Status, AllocError> {
        let (setup, alloc) = (self.setup, self.setup.rt.alloc());
        let timeout = station.next_timeout();
        let phases = open_phases(station);
        Ok(Status {
            station: setup.own,
            peer: setup.peer,
            version: setup.version,
            time: unix_time(setup.rt),
            seconds: moment.now / SECOND,
            link: self.link(station, moment)?,
            open: phases.sum(),
            phases,
            waiting: moment.waiting as u64,
            timeout: timeout.map(|deadline| deadline.saturating_sub(moment.told)),
            counters: counters(station, moment.totals),
            failed: failed(alloc, moment.totals)?,
            told: Told {
                notes: noted.notes(),
                errors: noted.errors(),
            },
            notes: notes(alloc, noted, moment.now / SECOND)?,
            dropped: dropped(alloc, station, setup.exchange)?,
        })
    }

    /// The link now.
    fn link<O: Outbox, I: Inbox>(
        &self,
        station: &Station<O, I>,
        moment: Moment,
    ) -> Result<LinkStatus, AllocError> {
        let setup = self.setup;
        let second = moment.now / SECOND;
        Ok(LinkStatus {
            is_frozen: moment.is_frozen,
            carrier: setup.carrier,
            is_authenticated: setup.is_authenticated,
            to: String::from_str(setup.rt.alloc(), setup.to)?,
            silent: self.came_second.map(|came| second.saturating_sub(came)),
            frames: self.frames(),
            octets_sent: setup.exchange.octets_sent.get(),
            octets_received: setup.exchange.octets_received.get(),
            thrown_away: setup.exchange.gaps.thrown_away(),
            control_field: control_field(station),
        })
    }
}

/// The operational control field of the last frame of directives that came, or of the last one of
/// file data if none of those did.
fn control_field<O: Outbox, I: Inbox>(station: &Station<O, I>) -> Option<u64> {
    let control = match station.control_field(Lane::Directives) {
        Some(control) => Some(control),
        None => station.control_field(Lane::Data),
    };
    control.map(u64::from)
}

/// Names as a report prints them; `None` if there is no memory for them.
fn printed(alloc: Global, source: &[u8], destination: &[u8]) -> Option<Names> {
    Some(Names {
        source: format!(in alloc; "{}", Name(source)).ok()?,
        destination: format!(in alloc; "{}", Name(destination)).ok()?,
    })
}

/// How many transactions aren't closed, by how far they have come.
fn open_phases<O: Outbox, I: Inbox>(station: &Station<O, I>) -> OpenPhases {
    let mut phases = OpenPhases::NONE;
    for (_, phase) in station.transactions() {
        let count = match phase {
            Phase::Sending => &mut phases.sending,
            Phase::Cancelling => &mut phases.cancelling,
            Phase::Receiving => &mut phases.receiving,
            Phase::Finishing => &mut phases.finishing,
            Phase::Closed => continue,
        };
        *count = count.saturating_add(1);
    }
    phases
}

/// The conditions by which transactions failed, and how many did.
fn failed(alloc: Global, totals: Totals) -> Result<Vec<Failed>, AllocError> {
    let mut all = Vec::new(alloc);
    for code in 0..CONDITIONS {
        add_failed(&mut all, Way::Sends, code, totals.failures.sends_by(code))?;
    }
    for code in 0..CONDITIONS {
        add_failed(
            &mut all,
            Way::Receives,
            code,
            totals.failures.receptions_by(code),
        )?;
    }
    Ok(all)
}

/// Adds a condition, if its count isn't zero.
fn add_failed(all: &mut Vec<Failed>, way: Way, code: usize, count: u64) -> Result<(), AllocError> {
    if count > 0
        && let Ok(code) = u8::try_from(code)
    {
        all.push(Failed {
            way,
            code: u64::from(code),
            condition: condition_name(code),
            count,
        })?;
    }
    Ok(())
}

/// The notes for the operator, as the console shows them in this second since the start.
fn notes(alloc: Global, noted: &NotedTopics, second: u64) -> Result<Vec<NoteShown>, AllocError> {
    let mut all = Vec::new(alloc);
    for note in noted.topics() {
        all.push(note_shown(alloc, note, second)?)?;
    }
    Ok(all)
}

fn note_shown(alloc: Global, note: &Noted, second: u64) -> Result<NoteShown, AllocError> {
    Ok(NoteShown {
        topic: note.topic.name(),
        is_error: note.kind == NoteKind::Error,
        text: String::from_str(alloc, note.text.as_str())?,
        count: note.count,
        age: second.saturating_sub(note.second),
        holds: note.holds(second),
    })
}

/// What the station counted.
fn counters<O: Outbox, I: Inbox>(station: &Station<O, I>, totals: Totals) -> ShownCounters {
    let sent = station.counters().sent;
    let file_data = sent.file_data.saturating_add(sent.file_data_again);
    ShownCounters {
        files_sent: totals.complete as u64,
        octets_sent: totals.octets_sent,
        files_received: totals.received as u64,
        octets_received: totals.octets_received,
        files_failed: totals.failed as u64,
        puts_made: totals.made as u64,
        puts_refused: totals.refused as u64,
        pdus_sent: file_data
            .saturating_add(sent.naks)
            .saturating_add(sent.other_directives),
        file_data_sent: sent.file_data,
        file_data_sent_again: sent.file_data_again,
        naks_sent: sent.naks,
        sends_failed: totals.sends_failed as u64,
    }
}

/// The causes by which something was dropped, and how often.
fn dropped<O: Outbox, I: Inbox>(
    alloc: Global,
    station: &Station<O, I>,
    exchange: &Exchange,
) -> Result<Vec<Dropped>, AllocError> {
    let mut all = Vec::new(alloc);
    for (place, by) in CarrierDrop::ALL.iter().enumerate() {
        let number = (place as u64).saturating_add(1);
        adds(
            &mut all,
            "datagram",
            number,
            by.name(),
            exchange.dropped.of(*by),
        )?;
    }
    add_refusals(&mut all, exchange)?;
    for by in LinkDrop::ALL {
        let count = station.link_drops(by);
        adds(&mut all, "link", u64::from(by.number()), by.name(), count)?;
    }
    add_pdu_drops(&mut all, station)?;
    Ok(all)
}

/// Adds the causes by which frames of a secured link were refused.
fn add_refusals(all: &mut Vec<Dropped>, exchange: &Exchange) -> Result<(), AllocError> {
    let mut number = 0u64;
    for cause in REFUSALS {
        number = number.saturating_add(1);
        let count = exchange.refused.of(cause);
        adds(all, "security", number, refusal_name(cause), count)?;
    }
    Ok(())
}

fn add_pdu_drops<O: Outbox, I: Inbox>(
    all: &mut Vec<Dropped>,
    station: &Station<O, I>,
) -> Result<(), AllocError> {
    for by in EntityDrop::ALL {
        let count = station.drops(by);
        adds(all, "pdu", u64::from(by.number()), by.name(), count)?;
    }
    Ok(())
}

/// Adds a cause, if its count isn't zero.
fn adds(
    all: &mut Vec<Dropped>,
    layer: &'static str,
    number: u64,
    cause: &'static str,
    count: u64,
) -> Result<(), AllocError> {
    if count > 0 {
        all.push(Dropped {
            layer,
            number,
            cause,
            count,
        })?;
    }
    Ok(())
}
