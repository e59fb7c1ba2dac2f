//! What an operator asks of a station: its open transactions, and its counters.
use crate::station_log::json::JsonName;
use crate::station_log::noted::NotedTopics;
use crate::station_log::register::{Known, Register};
use crate::station_log::stopped::Stopped;
use crate::station_log::totals::{CONDITIONS, Failures, Totals};
use cfdp_console::Way;
use cfdp_exchange::{Exchange, REFUSALS, refusal_name};
use cfdp_header::TransactionId;
use cfdp_report::{Name, condition_name, parse_id, phase_word};
use cfdp_station::{EntityDrop, FrameError, LinkDrop, Phase, Station, Timer};
use cfdp_store::{Inbox, Outbox};
use std::alloc::{AllocError, Global};
use std::fmt;

/// In what an operator is answered.
#[derive(Clone, Copy, Debug, PartialEq, Eq)]
pub enum Form {
    /// Lines for people.
    Text,
    /// One object of JSON, in one line.
    Json,
}

/// What a station has besides its transactions.
#[derive(Clone, Copy)]
pub struct Waiting {
    /// How many files wait for their put, as far as that is known.
    pub files: usize,
    /// What the station doesn't do now.
    pub stopped: Option<Stopped>,
    /// The time now, in units of the clock that the station is given.
    pub now: u64,
    /// After how many units without a PDU the peer gives a transaction up, if it is set as this
    /// station is.
    pub inactivity: u64,
}

/// What the counters are made of, besides what the station counts itself.
#[derive(Clone, Copy)]
pub struct Figures<'a> {
    /// What was done for the user.
    pub totals: &'a Totals,
    /// What passed over the link.
    pub exchange: &'a Exchange,
    /// What the operator was told.
    pub noted: &'a NotedTopics,
}

/// A transaction that is open, and how far it has come.
#[derive(Clone, Copy)]
struct Open {
    id: TransactionId,
    phase: Phase,
    /// Up to which offset octets of its file were sent, or came.
    progress: Option<u64>,
    /// Its timer that expires next.
    next: Option<NextTimer>,
}

/// A timer, and in how many units of the clock it expires.
#[derive(Clone, Copy)]
struct NextTimer {
    timer: Timer,
    left: u64,
}

/// Returns in how many units of the clock the peer gives a suspended transaction up, if no
/// PDU is received; `None` if it isn't suspended.
fn peer_gives_up(known: Option<&Known>, clock: Clock) -> Option<u64> {
    let known = known?;
    if known.is_over {
        return None;
    }
    let deadline = known.suspended_at?.saturating_add(clock.inactivity);
    Some(deadline.saturating_sub(clock.now))
}

/// The time now, and after how long without a PDU the peer gives a transaction up, both in units of
/// the station's clock.
#[derive(Clone, Copy)]
pub struct Clock {
    pub now: u64,
    pub inactivity: u64,
}

impl Waiting {
    fn clock(&self) -> Clock {
        Clock {
            now: self.now,
            inactivity: self.inactivity,
        }
    }
}

/// All timers of a transaction, in the order in which those of one deadline expire.
const TIMERS: [Timer; 4] = [
    Timer::EofAck,
    Timer::Nak,
    Timer::FinishedAck,
    Timer::Inactivity,
];

/// Returns the word for what a timer waits for.
pub fn timer_word(timer: Timer) -> &'static str {
    match timer {
        Timer::EofAck => "eof-ack",
        Timer::Nak => "nak",
        Timer::FinishedAck => "finished-ack",
        Timer::Inactivity => "inactivity",
    }
}

/// The timer of a transaction that expires next; `None` if none is armed.
fn next_timer<O: Outbox, I: Inbox>(
    station: &Station<O, I>,
    id: TransactionId,
    now: u64,
) -> Option<NextTimer> {
    let mut next: Option<NextTimer> = None;
    for timer in TIMERS {
        if let Some(deadline) = station.deadline_of(id, timer) {
            let left = deadline.saturating_sub(now);
            let is_first = match next {
                Some(before) => left < before.left,
                None => true,
            };
            if is_first {
                next = Some(NextTimer { timer, left });
            }
        }
    }
    next
}

/// Writes the transactions that are open, in order of their ids.
///
/// # Errors
///
/// That of the writer, and an error if there is no memory.
pub fn write_list<O: Outbox, I: Inbox, W: fmt::Write>(
    alloc: Global,
    out: &mut W,
    form: Form,
    register: &Register,
    station: &Station<O, I>,
    waiting: Waiting,
) -> fmt::Result {
    let open = open_transactions(alloc, station, waiting.now)?;
    let open = open.as_slice();
    let wait = station
        .next_timeout()
        .map(|deadline| deadline.saturating_sub(waiting.now));
    match form {
        Form::Text => write_lines(out, register, open, waiting, wait),
        Form::Json => write_array(out, register, open, waiting, wait),
    }
}

/// The transactions that are open, in order of their ids.
fn open_transactions<O: Outbox, I: Inbox>(
    alloc: Global,
    station: &Station<O, I>,
    now: u64,
) -> Result<Vec<Open>, AllocError> {
    let mut open = Vec::new(alloc);
    for (id, phase) in station.transactions() {
        if phase != Phase::Closed {
            open.push(open_at(station, id, phase, now))?;
        }
    }
    open.sort_unstable_by_key(|it| it.id);
    Ok(open)
}

/// The most transactions that are shown in a console at once.
const MOST_SHOWN: usize = 64;

/// Returns the transactions that are open, in order of their ids, as the console of the entity
/// `own` shows them: the first 64.
///
/// # Errors
///
/// `AllocError` if there is no memory for them.
pub fn shown_open<O: Outbox, I: Inbox>(
    alloc: Global,
    register: &Register,
    station: &Station<O, I>,
    clock: Clock,
    own: u64,
) -> Result<Vec<cfdp_console::Open>, AllocError> {
    let mut shown = Vec::new(alloc);
    for (id, phase) in open_ids(alloc, station)?.iter().take(MOST_SHOWN) {
        let open = open_at(station, *id, *phase, clock.now);
        shown.push(shown_one(alloc, own, open, register.get(*id), clock)?)?;
    }
    Ok(shown)
}

/// Returns the transaction of this id, which is a word as `1:7`, as the console of the entity `own`
/// shows it; the vector is empty if none is open.
///
/// # Errors
///
/// `AllocError` if there is no memory for it.
pub fn shown_alone<O: Outbox, I: Inbox>(
    alloc: Global,
    register: &Register,
    station: &Station<O, I>,
    clock: Clock,
    own: u64,
    word: &[u8],
) -> Result<Vec<cfdp_console::Open>, AllocError> {
    let mut shown = Vec::new(alloc);
    if let Ok(id) = parse_id(word)
        && let Some(phase) = station.phase(id)
        && phase != Phase::Closed
    {
        let open = open_at(station, id, phase, clock.now);
        shown.push(shown_one(alloc, own, open, register.get(id), clock)?)?;
    }
    Ok(shown)
}

/// The ids of the transactions that are open, in their order, and how far each is.
fn open_ids<O: Outbox, I: Inbox>(
    alloc: Global,
    station: &Station<O, I>,
) -> Result<Vec<(TransactionId, Phase)>, AllocError> {
    let mut open = Vec::new(alloc);
    for (id, phase) in station.transactions() {
        if phase != Phase::Closed {
            open.push((id, phase))?;
        }
    }
    open.sort_unstable_by_key(|it| it.0);
    Ok(open)
}

/// How far a transaction has come.
fn open_at<O: Outbox, I: Inbox>(
    station: &Station<O, I>,
    id: TransactionId,
    phase: Phase,
    now: u64,
) -> Open {
    Open {
        id,
        phase,
        progress: station.progress(id),
        next: next_timer(station, id, now),
    }
}

/// A transaction as the console shows it.
fn shown_one(
    alloc: Global,
    own: u64,
    open: Open,
    known: Option<&Known>,
    clock: Clock,
) -> Result<cfdp_console::Open, AllocError> {
    let (source, destination) = match known.and_then(|known| known.names.as_ref()) {
        Some(names) => (
            Some(format!(in alloc; "{}", Name(names.source.as_slice()))?),
            Some(format!(in alloc; "{}", Name(names.destination.as_slice()))?),
        ),
        None => (None, None),
    };
    Ok(cfdp_console::Open {
        id: format!(in alloc; "{}:{}", open.id.source, open.id.number)?,
        way: if open.id.source == own {
            Way::Sends
        } else {
            Way::Receives
        },
        phase: phase_word(open.phase),
        source,
        destination,
        size: known.and_then(|known| known.size),
        octets: open.progress,
        is_suspended: is_suspended(known),
        waits_for: waits_for(open, is_suspended(known)),
        deadline: peer_gives_up(known, clock),
        began: known.and_then(|known| known.began),
    })
}

/// What a transaction waits for, in words; empty if it waits for its turn alone.
fn waits_for(open: Open, is_suspended: bool) -> &'static str {
    if is_suspended {
        return "resume";
    }
    match open.next {
        Some(next) => match next.timer {
            Timer::EofAck => "ACK of its EOF",
            Timer::Nak => "data requested by NAKs",
            Timer::FinishedAck => "ACK of its Finished",
            Timer::Inactivity => "next PDU of the peer",
        },
        None => "",
    }
}

/// A number that may be unknown, in a line.
#[derive(Clone, Copy)]
struct OrDash(Option<u64>);

impl fmt::Display for OrDash {
    fn fmt<W: fmt::Write>(&self, f: &mut fmt::Formatter<W>) -> fmt::Result {
        match self.0 {
            Some(number) => write!(f, "{number}"),
            None => write!(f, "-"),
        }
    }
}

/// A number that may be unknown, in an object.
#[derive(Clone, Copy)]
struct OrNull(Option<u64>);

impl fmt::Display for OrNull {
    fn fmt<W: fmt::Write>(&self, f: &mut fmt::Formatter<W>) -> fmt::Result {
        match self.0 {
            Some(number) => write!(f, "{number}"),
            None => write!(f, "null"),
        }
    }
}

fn write_lines<W: fmt::Write>(
    out: &mut W,
    register: &Register,
    open: &[Open],
    waiting: Waiting,
    wait: Option<u64>,
) -> fmt::Result {
    let (count, files, wait) = (open.len(), waiting.files, OrDash(wait));
    writeln!(out, "open {count} waiting {files} timeout {wait}")?;
    if let Some(stopped) = waiting.stopped {
        writeln!(out, "{stopped}")?;
    }
    for it in open {
        write_line(out, *it, register.get(it.id), waiting.clock())?;
    }
    Ok(())
}

/// Writes the line of a transaction.
fn write_line<W: fmt::Write>(
    out: &mut W,
    open: Open,
    known: Option<&Known>,
    clock: Clock,
) -> fmt::Result {
    let Open {
        id,
        phase,
        progress,
        next,
    } = open;
    write!(out, "{}:{} {}", id.source, id.number, phase_word(phase))?;
    match known.and_then(|known| known.names.as_ref()) {
        Some(names) => {
            let (from, to) = (names.source.as_slice(), names.destination.as_slice());
            write!(out, " {} {}", Name(from), Name(to))?;
        }
        None => write!(out, " - -")?,
    }
    let size = OrDash(known.and_then(|known| known.size));
    write!(out, " {size} {}", OrDash(progress))?;
    match next {
        Some(next) => write!(out, " {} {}", next.left, timer_word(next.timer))?,
        None => write!(out, " - -")?,
    }
    if let Some(held) = known.and_then(|known| known.held) {
        write!(out, " held {held}")?;
    }
    if let Some(left) = peer_gives_up(known, clock) {
        write!(out, " suspended peer-gives-up {left}")?;
    }
    writeln!(out)
}

fn is_suspended(known: Option<&Known>) -> bool {
    match known {
        Some(known) => known.suspended_at.is_some() && !known.is_over,
        None => false,
    }
}

fn write_array<W: fmt::Write>(
    out: &mut W,
    register: &Register,
    open: &[Open],
    waiting: Waiting,
    wait: Option<u64>,
) -> fmt::Result {
    let (count, files, wait) = (open.len(), waiting.files, OrNull(wait));
    write!(
        out,
        "{{\"open\":{count},\"waiting\":{files},\"timeout\":{wait},"
    )?;
    if let Some(stopped) = waiting.stopped {
        write!(out, "\"stopped\":\"{stopped}\",")?;
    }
    write!(out, "\"transactions\":[")?;
    for (place, it) in open.iter().enumerate() {
        if place > 0 {
            write!(out, ",")?;
        }
        write_object(out, *it, register.get(it.id), waiting.clock())?;
    }
    writeln!(out, "]}}")
}

/// Writes the object of a transaction.
fn write_object<W: fmt::Write>(
    out: &mut W,
    open: Open,
    known: Option<&Known>,
    clock: Clock,
) -> fmt::Result {
    let Open {
        id,
        phase,
        progress,
        next,
    } = open;
    let phase = phase_word(phase);
    write!(
        out,
        "{{\"transaction\":\"{}:{}\",\"phase\":\"{phase}\"",
        id.source, id.number
    )?;
    if let Some(names) = known.and_then(|known| known.names.as_ref()) {
        let from = JsonName(names.source.as_slice());
        let to = JsonName(names.destination.as_slice());
        write!(out, ",\"source\":{from},\"destination\":{to}")?;
    }
    let size = OrNull(known.and_then(|known| known.size));
    let progress = OrNull(progress);
    let held = OrNull(known.and_then(|known| known.held));
    let suspended = is_suspended(known);
    write!(
        out,
        ",\"size\":{size},\"progress\":{progress},\"held\":{held},\"suspended\":{suspended}"
    )?;
    let deadline = OrNull(peer_gives_up(known, clock));
    write!(out, ",\"deadline\":{deadline}")?;
    match next {
        Some(next) => {
            let (left, word) = (next.left, timer_word(next.timer));
            write!(out, ",\"timeout\":{left},\"timer\":\"{word}\"}}")
        }
        None => write!(out, ",\"timeout\":null,\"timer\":null}}"),
    }
}

/// Writes the counters: a line for each in text, a member for each in JSON.
///
/// # Errors
///
/// That of the writer.
pub fn write_counters<O: Outbox, I: Inbox, W: fmt::Write>(
    out: &mut W,
    form: Form,
    figures: Figures<'_>,
    station: &Station<O, I>,
) -> fmt::Result {
    match form {
        Form::Text => {
            for (name, count) in counts(figures, station) {
                writeln!(out, "{name} {count}")?;
            }
            write_failed_lines(out, &figures.totals.failures)?;
            write_refused_lines(out, figures.exchange)?;
            write_dropped_lines(out, station)
        }
        Form::Json => {
            write!(out, "{{")?;
            write_counter_members(out, figures, station)?;
            writeln!(out, "}}")
        }
    }
}

/// Writes the counters as members of an object.
///
/// # Errors
///
/// That of the writer.
pub fn write_counter_members<O: Outbox, I: Inbox, W: fmt::Write>(
    out: &mut W,
    figures: Figures<'_>,
    station: &Station<O, I>,
) -> fmt::Result {
    let counts = counts(figures, station);
    write_members(out, &counts)?;
    write_failed_members(out, &figures.totals.failures)?;
    write_refused_members(out, figures.exchange)?;
    write_dropped_members(out, station)
}

/// The counters except what was dropped and by what transactions failed, by their names.
fn counts<O: Outbox, I: Inbox>(
    figures: Figures<'_>,
    station: &Station<O, I>,
) -> [(&'static str, u64); 19] {
    let Figures {
        totals,
        exchange,
        noted,
    } = figures;
    let (sent, gaps) = (station.counters().sent, &exchange.gaps);
    let pdus = sent
        .file_data
        .saturating_add(sent.file_data_again)
        .saturating_add(sent.naks)
        .saturating_add(sent.other_directives);
    [
        ("files_sent", totals.complete as u64),
        ("octets_sent", totals.octets_sent),
        ("files_received", totals.received as u64),
        ("octets_received", totals.octets_received),
        ("files_failed", totals.failed as u64),
        ("puts_made", totals.made as u64),
        ("puts_refused", totals.refused as u64),
        ("pdus_sent", pdus),
        ("file_data_sent", sent.file_data),
        ("file_data_sent_again", sent.file_data_again),
        ("naks_sent", sent.naks),
        ("frame_gaps", gaps.gaps()),
        ("frames_missing", gaps.missing()),
        (
            "frames_damaged",
            station.link_drops(LinkDrop::Frame(FrameError::Damaged)),
        ),
        ("datagrams_thrown_away", gaps.thrown_away()),
        ("sends_failed", totals.sends_failed as u64),
        ("unknown_cancels", exchange.unknown_cancels.get()),
        ("notes", noted.notes()),
        ("errors", noted.errors()),
    ]
}

/// Writes a line for each condition by which transactions failed.
fn write_failed_lines<W: fmt::Write>(out: &mut W, failures: &Failures) -> fmt::Result {
    for code in 0..CONDITIONS {
        write_failed(out, "send", code, failures.sends_by(code))?;
    }
    for code in 0..CONDITIONS {
        write_failed(out, "reception", code, failures.receptions_by(code))?;
    }
    Ok(())
}

/// Writes the line of a condition, if its count isn't zero.
fn write_failed<W: fmt::Write>(out: &mut W, of: &str, code: usize, count: u64) -> fmt::Result {
    if count > 0 {
        writeln!(out, "failed {of} {code} {} {count}", code_name(code))?;
    }
    Ok(())
}

/// Returns the standard's name of the condition of this code.
fn code_name(code: usize) -> &'static str {
    match u8::try_from(code) {
        Ok(code) => condition_name(code),
        Err(_) => "RESERVED",
    }
}

/// Writes by what transactions failed as two members of an object.
fn write_failed_members<W: fmt::Write>(out: &mut W, failures: &Failures) -> fmt::Result {
    write!(out, ",\"failed_sends\":{{")?;
    let mut has_one = false;
    for code in 0..CONDITIONS {
        has_one = write_member(out, code_name(code), failures.sends_by(code), has_one)?;
    }
    write!(out, "}},\"failed_receptions\":{{")?;
    write_failed_receptions(out, failures)?;
    write!(out, "}}")
}

fn write_failed_receptions<W: fmt::Write>(out: &mut W, failures: &Failures) -> fmt::Result {
    let mut has_one = false;
    for code in 0..CONDITIONS {
        has_one = write_member(out, code_name(code), failures.receptions_by(code), has_one)?;
    }
    Ok(())
}

/// Writes a line for each cause by which frames of a secured link were refused.
fn write_refused_lines<W: fmt::Write>(out: &mut W, exchange: &Exchange) -> fmt::Result {
    let mut number = 0u8;
    for cause in REFUSALS {
        number = number.saturating_add(1);
        let count = exchange.refused.of(cause);
        write_dropped(out, "security", number, refusal_name(cause), count)?;
    }
    Ok(())
}

/// Writes a line for each cause by which something was dropped.
fn write_dropped_lines<O: Outbox, I: Inbox, W: fmt::Write>(
    out: &mut W,
    station: &Station<O, I>,
) -> fmt::Result {
    for by in LinkDrop::ALL {
        let (number, name) = (by.number(), by.name());
        write_dropped(out, "link", number, name, station.link_drops(by))?;
    }
    write_pdus_dropped(out, station)
}

fn write_pdus_dropped<O: Outbox, I: Inbox, W: fmt::Write>(
    out: &mut W,
    station: &Station<O, I>,
) -> fmt::Result {
    for by in EntityDrop::ALL {
        let (number, name) = (by.number(), by.name());
        write_dropped(out, "pdu", number, name, station.drops(by))?;
    }
    Ok(())
}

/// Writes the line of a cause, if its count isn't zero.
fn write_dropped<W: fmt::Write>(
    out: &mut W,
    of: &str,
    number: u8,
    name: &str,
    count: u64,
) -> fmt::Result {
    if count > 0 {
        writeln!(out, "dropped {of} {number} {name} {count}")?;
    }
    Ok(())
}

/// Writes these counters as members of an object.
fn write_members<W: fmt::Write>(out: &mut W, figures: &[(&'static str, u64)]) -> fmt::Result {
    for (place, (name, count)) in figures.iter().enumerate() {
        if place > 0 {
            write!(out, ",")?;
        }
        write!(out, "\"{name}\":{count}")?;
    }
    Ok(())
}

/// Writes what was refused of a secured link as a member of an object.
fn write_refused_members<W: fmt::Write>(out: &mut W, exchange: &Exchange) -> fmt::Result {
    write!(out, ",\"security_drops\":{{")?;
    let mut has_one = false;
    for cause in REFUSALS {
        let count = exchange.refused.of(cause);
        has_one = write_member(out, refusal_name(cause), count, has_one)?;
    }
    write!(out, "}}")
}

/// Writes what was dropped as two members of an object.
fn write_dropped_members<O: Outbox, I: Inbox, W: fmt::Write>(
    out: &mut W,
    station: &Station<O, I>,
) -> fmt::Result {
    write!(out, ",\"link_drops\":{{")?;
    write_link_members(out, station)?;
    write!(out, "}},\"pdu_drops\":{{")?;
    write_pdu_members(out, station)?;
    write!(out, "}}")
}

fn write_link_members<O: Outbox, I: Inbox, W: fmt::Write>(
    out: &mut W,
    station: &Station<O, I>,
) -> fmt::Result {
    let mut has_one = false;
    for by in LinkDrop::ALL {
        has_one = write_member(out, by.name(), station.link_drops(by), has_one)?;
    }
    Ok(())
}

fn write_pdu_members<O: Outbox, I: Inbox, W: fmt::Write>(
    out: &mut W,
    station: &Station<O, I>,
) -> fmt::Result {
    let mut has_one = false;
    for by in EntityDrop::ALL {
        has_one = write_member(out, by.name(), station.drops(by), has_one)?;
    }
    Ok(())
}

/// Writes a cause and its count, if it isn't zero, after the one before if there is one.
/// Answers whether there is one now.
fn write_member<W: fmt::Write>(
    out: &mut W,
    name: &str,
    count: u64,
    has_one: bool,
) -> Result<bool, fmt::Error> {
    if count == 0 {
        return Ok(has_one);
    }
    if has_one {
        write!(out, ",")?;
    }
    write!(out, "\"{name}\":{count}")?;
    Ok(true)
}
