//! One who looks on at a run: at a script's, or at turns over two wires.

use crate::condition::{Cancels, Conditions};
use crate::dropped::Dropped;
use crate::frames::Watch;
use crate::kept::Kept;
use crate::recorder::{CaptureKind, Recorder, Screen, Showing};
use crate::sent::{Sent, SentFrames};
use crate::shown::Shown;
use crate::sighting::{Deed, Log};
use aos_frame::Lane;
use cfdp_dump::FrameShapes;
use cfdp_port::Passed;
use cfdp_report::Answered;
use cfdp_station::Station;
use cfdp_store::{Inbox, Outbox};
use station_pair::{Side, WorldConfig};
use std::alloc::{AllocError, Global};
use std::io;
use std::io::Write;
use valid_config::Valid;

/// One who looks on at a run, or nobody.
#[derive(Drop)]
pub enum Onlooker<'a> {
    /// Nobody: nothing is seen.
    Nobody,
    /// One who sees all that passes.
    Somebody(Seen<'a>),
}

impl<'a> Onlooker<'a> {
    /// Begins before the first event of two stations with these settings. Somebody looks on if
    /// something must be shown.
    ///
    /// # Errors
    ///
    /// `AllocError` if there is no memory.
    pub fn new(
        screen: Screen<'a>,
        config: Valid<WorldConfig>,
        shown: &'a Shown,
    ) -> Result<Onlooker<'a>, AllocError> {
        Onlooker::of_kind(screen, config, shown, CaptureKind::Events)
    }

    /// Begins before the first event of one of two stations with these settings. Somebody looks on
    /// at that station if something must be shown.
    ///
    /// # Errors
    ///
    /// `AllocError` if there is no memory.
    pub fn at_station(
        screen: Screen<'a>,
        config: Valid<WorldConfig>,
        shown: &'a Shown,
    ) -> Result<Onlooker<'a>, AllocError> {
        Onlooker::of_kind(screen, config, shown, CaptureKind::Clock)
    }

    /// Begins before the first event, for a capture of this kind.
    fn of_kind(
        screen: Screen<'a>,
        config: Valid<WorldConfig>,
        shown: &'a Shown,
        kind: CaptureKind,
    ) -> Result<Onlooker<'a>, AllocError> {
        if shown.is_watched() {
            Ok(Onlooker::Somebody(Seen::new(screen, config, shown, kind)?))
        } else {
            Ok(Onlooker::Nobody)
        }
    }

    /// Ends it, since no more passes, and returns what is known then; `None` if nobody looked on.
    pub fn into_summary(self) -> Option<Summary> {
        match self {
            Onlooker::Nobody => None,
            Onlooker::Somebody(seen) => Some(seen.into_summary()),
        }
    }
}

/// In a script, whose steps are lines, what passes in an event is shown to it part by part.
impl Onlooker<'_> {
    /// Begins the step of this number: what it sees from here on is of it.
    pub fn comes_to(&mut self, step: usize) {
        match self {
            Onlooker::Nobody => {}
            Onlooker::Somebody(seen) => seen.log.comes_to(step),
        }
    }

    /// Begins the next event.
    pub fn begins_event(&mut self) {
        match self {
            Onlooker::Nobody => {}
            Onlooker::Somebody(seen) => seen.log.next_event(),
        }
    }

    /// Sees that a station is given the time.
    pub fn ticks(&mut self, at: Side, now: u64) {
        match self {
            Onlooker::Nobody => {}
            Onlooker::Somebody(seen) => seen.log.note_words(at, Deed::Ticks, &now),
        }
    }

    /// Sees that a frame leaves a station in a lane.
    pub fn leaves(&mut self, from: Side, lane: Lane, frame: &[u8]) {
        match self {
            Onlooker::Nobody => {}
            Onlooker::Somebody(seen) => seen.leaves(from, lane, frame),
        }
    }

    /// Sees that a frame which left a station in a lane arrives at the other one.
    pub fn arrives(&mut self, from: Side, lane: Lane, frame: &[u8]) {
        match self {
            Onlooker::Nobody => {}
            Onlooker::Somebody(seen) => seen.arrives(from, lane, frame),
        }
    }

    /// Sees that a frame which left a station in a lane is lost.
    pub fn loses(&mut self, from: Side, lane: Lane, frame: &[u8]) {
        match self {
            Onlooker::Nobody => {}
            Onlooker::Somebody(seen) => seen.loses(from, lane, frame),
        }
    }

    /// Sees both stations at the end of the event: what they dropped in it, and what they indicated
    /// to their users.
    pub fn ends_event<O: Outbox, I: Inbox>(&mut self, stations: (&Station<O, I>, &Station<O, I>)) {
        match self {
            Onlooker::Nobody => {}
            Onlooker::Somebody(seen) => seen.end_event(stations),
        }
    }
}

/// At turns over wires the steps are the turns.
impl Onlooker<'_> {
    /// Begins the turn of this number: what it sees from here on is of it.
    pub fn begins(&mut self, turn: u64) {
        match self {
            Onlooker::Nobody => {}
            Onlooker::Somebody(seen) => seen.log.comes_to(turn as usize),
        }
    }

    /// Sees what passed at a station, and the station after that.
    pub fn sees<O: Outbox, I: Inbox>(
        &mut self,
        side: Side,
        passed: Passed<'_>,
        station: &Station<O, I>,
    ) {
        match self {
            Onlooker::Nobody => {}
            Onlooker::Somebody(seen) => seen.look_at(side, passed, station),
        }
    }
}

/// What is known of a run that is over by one who looked on.
#[derive(Drop)]
pub struct Summary {
    /// Which conditions the stations indicated to their users.
    pub conditions: Conditions,
    /// The stations whose users cancelled transactions, as their PDUs say.
    pub cancels: Cancels,
    /// What either station sent and dropped.
    pub one: StationSummary,
    pub two: StationSummary,
    /// What became of what a run should show as it was seen.
    pub showing: Showing,
    /// What passed in a script, if that was asked for.
    pub kept: Option<Kept>,
    /// What the commands of a script answered.
    pub answered: Vec<Answered>,
}

impl Summary {
    /// Returns the same, of a script whose commands answered so.
    pub fn answering(self, answered: Vec<Answered>) -> Summary {
        Summary { answered, ..self }
    }
}

/// What is known of a station of a run that is over.
#[derive(Drop)]
pub struct StationSummary {
    sent: Sent,
    frames: SentFrames,
    dropped: Dropped,
}

impl StationSummary {
    /// Writes a line of what it sent, and one for each cause by which it dropped something.
    ///
    /// # Errors
    ///
    /// The error of the writer, if it fails.
    pub fn write<W: Write>(&self, out: &mut W) -> io::Result<()> {
        self.sent.write(self.frames, out)?;
        self.dropped.write(out)
    }
}

/// What was seen so far of a run. What stations did is kept until the end of its event alone.
#[derive(Drop)]
pub struct Seen<'a> {
    // What the stations did in this event, and what it is written to.
    log: Log,
    recorder: Recorder<'a>,
    // What they did in all events of a script, if that is kept.
    kept: Option<Kept>,
    // Which conditions they indicated to their users.
    conditions: Conditions,
    // Either station.
    one: SeenStation,
    two: SeenStation,
}

impl<'a> Seen<'a> {
    /// Begins before the first event of two stations with these settings.
    ///
    /// # Errors
    ///
    /// `AllocError` if there is no memory.
    fn new(
        screen: Screen<'a>,
        config: Valid<WorldConfig>,
        shown: &'a Shown,
        kind: CaptureKind,
    ) -> Result<Seen<'a>, AllocError> {
        let alloc = screen.rt.alloc();
        let config = config.get();
        let one = Watch::new(alloc, Side::One, Valid::known(config.one.sends))?;
        let two = Watch::new(alloc, Side::Two, Valid::known(config.two.sends))?;
        let shapes = FrameShapes::of(&config);
        Ok(Seen {
            log: Log::new(alloc),
            kept: if shown.keeps {
                Some(Kept::new(alloc, shapes))
            } else {
                None
            },
            conditions: Conditions::new(),
            one: SeenStation::new(Side::One, one),
            two: SeenStation::new(Side::Two, two),
            recorder: Recorder::new(screen, shown, shapes, kind),
        })
    }

    /// Returns what is known now that no more passes.
    fn into_summary(self) -> Summary {
        let Seen {
            log,
            mut recorder,
            kept,
            conditions,
            one,
            two,
        } = self;
        let cancels = Cancels {
            one: one.frames.has_cancel(),
            two: two.frames.has_cancel(),
        };
        Summary {
            conditions,
            cancels,
            one: one.into_summary(),
            two: two.into_summary(),
            showing: recorder.ends(),
            kept,
            answered: Vec::new(log.alloc()),
        }
    }

    /// Notes that a frame left this station.
    fn leaves(&mut self, from: Side, lane: Lane, frame: &[u8]) {
        let log = &mut self.log;
        match from {
            Side::One => self.one.frames.leaves(lane, frame, log),
            Side::Two => self.two.frames.leaves(lane, frame, log),
        }
    }

    /// Notes that a frame of this station arrived.
    fn arrives(&mut self, from: Side, lane: Lane, frame: &[u8]) {
        let log = &mut self.log;
        match from {
            Side::One => self.one.frames.arrives(lane, frame, log),
            Side::Two => self.two.frames.arrives(lane, frame, log),
        }
    }

    /// Notes that a frame of this station is lost.
    fn loses(&mut self, from: Side, lane: Lane, frame: &[u8]) {
        let log = &mut self.log;
        match from {
            Side::One => self.one.frames.loses(lane, frame, log),
            Side::Two => self.two.frames.loses(lane, frame, log),
        }
    }

    /// Notes what was dropped in an event of a script, and what was indicated to users. All that
    /// was noted of the event is kept and written.
    fn end_event<O: Outbox, I: Inbox>(&mut self, stations: (&Station<O, I>, &Station<O, I>)) {
        let (log, conditions) = (&mut self.log, &mut self.conditions);
        self.one.look(stations.0, conditions, log);
        self.two.look(stations.1, conditions, log);
        if let Some(kept) = &mut self.kept {
            kept.keep(log, stations);
        }
        self.recorder.record(log);
    }

    /// Notes what passed at a station in a turn: the time that it was given, a frame and the PDUs
    /// in it, what was dropped, and what was indicated to its user.
    fn look_at<O: Outbox, I: Inbox>(
        &mut self,
        side: Side,
        passed: Passed<'_>,
        station: &Station<O, I>,
    ) {
        let (one, two, log) = (&mut self.one, &mut self.two, &mut self.log);
        log.next_event();
        if let Passed::Ticked(now) = passed {
            log.note_words(side, Deed::Ticks, &now);
        }
        match side {
            Side::One => {
                note_frame(passed, &mut one.frames, &mut two.frames, log);
                one.look(station, &mut self.conditions, log);
            }
            Side::Two => {
                note_frame(passed, &mut two.frames, &mut one.frames, log);
                two.look(station, &mut self.conditions, log);
            }
        }
        self.recorder.record(log);
    }
}

/// Notes the frame that passed at a station, if one did, with the PDUs in it. Its own frames are
/// those that it sends.
fn note_frame(passed: Passed<'_>, own: &mut Watch, other: &mut Watch, log: &mut Log) {
    match passed {
        Passed::Asked | Passed::Ticked(_) | Passed::Polled(_) => {}
        Passed::Left {
            lane,
            frame,
            is_sent,
        } => {
            own.leaves(lane, frame, log);
            if !is_sent {
                own.loses(lane, frame, log);
            }
        }
        Passed::Took(frame) => other.comes(frame, log),
    }
}

/// What was seen so far of a station.
#[derive(Drop)]
struct SeenStation {
    side: Side,
    // What it dropped.
    dropped: Dropped,
    // What it sent.
    sent: Sent,
    // How many of its indications were seen.
    told: u64,
    // The frames that it sends.
    frames: Watch,
}

impl SeenStation {
    /// Begins before its first event.
    fn new(side: Side, frames: Watch) -> SeenStation {
        SeenStation {
            side,
            dropped: Dropped::new(side),
            sent: Sent::new(side),
            told: 0,
            frames,
        }
    }

    /// Returns what is known of it now that no more passes.
    fn into_summary(self) -> StationSummary {
        StationSummary {
            sent: self.sent,
            frames: self.frames.sent(),
            dropped: self.dropped,
        }
    }

    /// Notes what it has dropped since the last look, and what it indicated to its user.
    fn look<O: Outbox, I: Inbox>(
        &mut self,
        station: &Station<O, I>,
        conditions: &mut Conditions,
        log: &mut Log,
    ) {
        self.dropped.look(station, log);
        self.sent.look(station);
        for indication in station.indications_since(self.told).unwrap_or(&[]) {
            log.note_told(self.side, indication);
            conditions.note(indication);
            self.told = self.told.saturating_add(1);
        }
    }
}
