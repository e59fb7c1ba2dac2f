//! What is seen, written as it is seen.
use crate::capture::{begin_capture, write_capture};
use crate::chart::ChartWriter;
use crate::progress::Progress;
use crate::shown::Shown;
use crate::sighting::{Log, Sighting};
use crate::station_capture::{begin_station_capture, write_station_capture};
use crate::trace::write_trace;
use cfdp_dump::FrameShapes;
use cfdp_report::cause_text;
use std::alloc::AllocError;
use std::fs::File;
use std::io;
use std::io::{BufWriter, ErrorKind, Stderr};
use std::time::{SystemTime, UNIX_EPOCH};

/// Standard error, and the line on it that says how far a transfer is, if there is one.
#[derive(Clone, Copy)]
pub struct Screen<'a> {
    /// The process, whose standard error it is.
    pub rt: &'a HostRuntime,
    /// The line; none if nobody asked for one.
    pub progress: Option<&'a Progress<'a>>,
}

impl Screen<'_> {
    /// Takes the line away, so that others can be written in its place.
    fn yields(&self) {
        if let Some(progress) = self.progress {
            progress.yields();
        }
    }
}

/// What a capture shows, and at which times.
#[derive(Clone, Copy)]
pub enum CaptureKind {
    /// What two stations sent, at the numbers of events in place of times.
    Events,
    /// What one station sent and received, at the time of the clock.
    Clock,
}

/// What became of what a run should show as it was seen.
#[derive(Clone, Copy)]
pub enum Showing {
    /// It is all shown.
    Whole,
    /// Something couldn't be written.
    Failed,
    /// There was no memory for some of what was seen.
    Short,
}

/// One who writes what is seen as it is seen: as a trace on standard error, as a capture and as a
/// chart, whichever is asked for. If something can't be written, that is reported once, and the
/// rest goes on.
#[derive(Drop)]
pub struct Recorder<'a> {
    screen: Screen<'a>,
    shapes: FrameShapes,
    trace: Option<BufWriter<Stderr>>,
    capture: Option<SeenFile<'a>>,
    capture_kind: CaptureKind,
    chart: Option<SeenFile<'a>>,
    chart_writer: ChartWriter,
    showing: Showing,
}

impl<'a> Recorder<'a> {
    /// Begins before anything is seen, for frames that are made so. The files are begun.
    pub fn new(
        screen: Screen<'a>,
        shown: &'a Shown,
        shapes: FrameShapes,
        capture_kind: CaptureKind,
    ) -> Recorder<'a> {
        let mut recorder = Recorder {
            screen,
            shapes,
            trace: None,
            capture: None,
            capture_kind,
            chart: None,
            chart_writer: ChartWriter::new(shapes),
            showing: Showing::Whole,
        };
        if shown.trace {
            recorder.begin_trace();
        }
        if let Some(name) = &shown.pcap {
            recorder.begin_capture(name.as_str());
        }
        if let Some(name) = &shown.chart {
            recorder.begin_chart(name.as_str());
        }
        recorder
    }

    fn begin_trace(&mut self) {
        let rt = self.screen.rt;
        match BufWriter::new(rt.alloc(), rt.stderr()) {
            Ok(out) => self.trace = Some(out),
            Err(_) => self.breaks_off(),
        }
    }

    fn begin_capture(&mut self, name: &'a str) {
        let mut file = SeenFile::create(self.screen, name);
        if let Some(out) = &mut file.out {
            let wrote = match self.capture_kind {
                CaptureKind::Events => begin_capture(out),
                CaptureKind::Clock => begin_station_capture(out),
            };
            file.notes(wrote);
        }
        self.capture = Some(file);
    }

    fn begin_chart(&mut self, name: &'a str) {
        let mut file = SeenFile::create(self.screen, name);
        if let Some(out) = &mut file.out {
            let wrote = self.chart_writer.begin(out);
            file.notes(wrote);
        }
        self.chart = Some(file);
    }

    /// Writes what a log has, and removes it there. It has left the program then.
    pub fn record(&mut self, log: &mut Log) {
        match self.showing {
            Showing::Short => {}
            Showing::Whole | Showing::Failed => match log.sightings() {
                Ok(sightings) => self.write(sightings),
                Err(AllocError) => self.breaks_off(),
            },
        }
        log.forget();
    }

    fn write(&mut self, sightings: &[Sighting]) {
        if !sightings.is_empty() {
            self.write_trace(sightings);
            self.write_capture(sightings);
            self.write_chart(sightings);
        }
    }

    fn write_trace(&mut self, sightings: &[Sighting]) {
        let screen = self.screen;
        if let Some(out) = &mut self.trace {
            screen.yields();
            if write_trace(out, self.shapes, sightings).is_err() {
                self.lose_trace();
            }
        }
    }

    /// Stops the trace. Nothing is reported of that: it would be on standard error.
    fn lose_trace(&mut self) {
        if let Some(out) = self.trace.take() {
            let _ = out.into_parts();
        }
        self.showing = Showing::Failed;
    }

    fn write_capture(&mut self, sightings: &[Sighting]) {
        let (rt, kind) = (self.screen.rt, self.capture_kind);
        if let Some(file) = &mut self.capture
            && let Some(out) = &mut file.out
        {
            let wrote = match kind {
                CaptureKind::Events => write_capture(out, sightings),
                CaptureKind::Clock => write_station_capture(out, microseconds(rt), sightings),
            };
            file.notes(wrote);
        }
    }

    fn write_chart(&mut self, sightings: &[Sighting]) {
        let alloc = self.screen.rt.alloc();
        if let Some(file) = &mut self.chart
            && let Some(out) = &mut file.out
        {
            let wrote = self.chart_writer.write(alloc, out, sightings);
            file.notes(wrote);
        }
    }

    /// Breaks off, since there is no memory for some of what was seen: that is reported, and no
    /// more is shown.
    fn breaks_off(&mut self) {
        self.showing = Showing::Short;
        self.trace = None;
        self.capture = None;
        self.chart = None;
        self.screen.yields();
        let _ = eprintln!(self.screen.rt;
            "error: out of memory for --explain, --trace, --pcap or --chart"
        );
    }

    /// Ends, since no more is seen, and returns what became of what it should show. The chart is
    /// written to its end.
    pub fn ends(&mut self) -> Showing {
        if let Some(file) = &mut self.chart
            && let Some(out) = &mut file.out
        {
            let wrote = self.chart_writer.end(out);
            file.notes(wrote);
        }
        match self.showing {
            Showing::Whole if has_failed(&self.capture) || has_failed(&self.chart) => {
                Showing::Failed
            }
            showing => showing,
        }
    }
}

/// A file that is written as what belongs into it is seen.
#[derive(Drop)]
struct SeenFile<'a> {
    screen: Screen<'a>,
    name: &'a str,
    // `None` once it couldn't be written.
    out: Option<BufWriter<File>>,
}

impl<'a> SeenFile<'a> {
    /// Returns the file of this name, with nothing in it: what it held is lost.
    fn create(screen: Screen<'a>, name: &'a str) -> SeenFile<'a> {
        let mut file = SeenFile {
            screen,
            name,
            out: None,
        };
        match created(screen.rt, name) {
            Ok(out) => file.out = Some(out),
            Err(error) => file.fails(error.kind()),
        }
        file
    }

    /// Notes how writing it went.
    fn notes(&mut self, wrote: io::Result<()>) {
        if let Err(error) = wrote {
            self.fails(error.kind());
        }
    }

    /// Reports that it can't be written, and why. Nothing more is written. What a failed write left
    /// in the buffer is discarded: a `BufWriter` would write it once more.
    fn fails(&mut self, kind: ErrorKind) {
        if let Some(out) = self.out.take() {
            let _ = out.into_parts();
        }
        self.screen.yields();
        let _ = eprintln!(self.screen.rt;
            "error: cannot write the file {}: {}",
            self.name,
            cause_text(kind)
        );
    }
}

/// Returns `true` if a file is asked for that couldn't be written.
fn has_failed(file: &Option<SeenFile<'_>>) -> bool {
    match file {
        Some(file) => file.out.is_none(),
        None => false,
    }
}

fn created(rt: &HostRuntime, name: &str) -> io::Result<BufWriter<File>> {
    BufWriter::new(rt.alloc(), File::create(rt, name)?)
}

/// Returns the microseconds since 1970; 0 if the clock can't be read.
fn microseconds(rt: &HostRuntime) -> u64 {
    match SystemTime::now(rt) {
        Ok(now) => match now.duration_since(UNIX_EPOCH) {
            Ok(since) => u64::try_from(since.as_micros()).unwrap_or(0),
            Err(_) => 0,
        },
        Err(_) => 0,
    }
}
