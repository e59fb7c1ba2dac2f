//! What passes at two stations as a sequence diagram, in the text that Mermaid draws.
ghost use Rattle.std.specs.Io.Buffered.{writer_buffer, writer_contents};
ghost use Rattle.std.specs.Io.KnownBytes.{Appends};
ghost use Rattle.std.specs.List.{flat_map};
ghost use Rattle.std.specs.Prelude.{◌≡◌, ◌-◌, [], Some, OnOk, take};
ghost use Rattle.cfdp_watch.specs.Chart as charts;
ghost use Rattle.cfdp_watch.specs.Chart.{ChartsSighting, ChartsSoFar, EndsChart, rest_text};
ghost use Rattle.cfdp_watch.specs.Continues.{Continues};
ghost use Rattle.cfdp_dump.specs.Spelled.Lines.{WritesLine, WritesLines};

use crate::sighting::{Deed, Sighting};
use crate::trace::write_deed;
use cfdp_dump::FrameShapes;
use station_pair::Side;
use std::alloc::Global;
use std::io::{BufWriter, Write};
use std::{fmt, io};

/// How many lines of a trace a chart shows.
const MOST_LINES: usize = 400;

/// Writes a sequence diagram of what stations did, as it is seen: a line for each line of a trace,
/// an arrow for each frame and PDU that leaves or arrives, a cross for a frame that is lost, and a
/// note for anything else. Of more than 400 the others are left out, and a last line says how many.
#[derive(Clone, Copy)]
pub struct ChartWriter {
    /// What the frames of both stations are made of.
    shapes: FrameShapes,
    /// How many lines the trace has so far.
    lines: usize,
}

impl ChartWriter {
    /// Makes a chart before anything was seen, for frames that are made so.
    pub fn new(shapes: FrameShapes) -> ChartWriter
        ensures { (result.shapes ≡ shapes) × (result.lines ≡ 0) }
    {
        ChartWriter { shapes, lines: 0 }
    }

    /// Begins a chart, which must be done before its first line. Its head has left the buffer then.
    ///
    /// # Errors
    ///
    /// The error of the writer, if it fails.
    pub fn begin<V: Write + Drop>(&mut self, out: &mut BufWriter<V>) -> io::Result<()>
        ensures begun { OnOk result (ChartsSoFar self.new [] (writer_contents V.contents out.old)
            (writer_contents V.contents out.new)) }
        ensures shapes { self.new.shapes ≡ self.old.shapes }
        ensures flushed { OnOk result (writer_buffer out.new ≡ []) }
    {
        self.lines = 0;
        out.write_all(
            b"sequenceDiagram\nparticipant S1 as station 1\nparticipant S2 as station 2\n",
        )?;
        out.flush()
    }

    /// Writes the lines of these after those of what was seen before. They have left the buffer
    /// then.
    ///
    /// # Errors
    ///
    /// The error of the writer, or `OutOfMemory`.
    pub fn write<V: Write + Drop>(
        &mut self,
        alloc: Global,
        out: &mut BufWriter<V>,
        sightings: &[Sighting],
    ) -> io::Result<()>
        ensures goes_on { OnOk result (Continues (ChartsSoFar self.old) (ChartsSoFar self.new)
            sightings.now (writer_contents V.contents out.old)
            (writer_contents V.contents out.new)) }
        ensures shapes { self.new.shapes ≡ self.old.shapes }
        ensures flushed { OnOk result (writer_buffer out.new ≡ []) }
    {
        let room = MOST_LINES.saturating_sub(self.lines);
        self.lines = self.lines.saturating_add(sightings.len());
        write_lines(alloc, out, self.shapes, first_of(room, sightings))?;
        out.flush()
    }

    /// Writes how many lines of the trace are left out, if some are, which has left the buffer
    /// then.
    ///
    /// # Errors
    ///
    /// The error of the writer, if it fails.
    pub fn end<V: Write + Drop>(&self, out: &mut BufWriter<V>) -> io::Result<()>
        ensures whole { OnOk result (EndsChart self.now (writer_contents V.contents out.old)
            (writer_contents V.contents out.new)) }
        ensures flushed { OnOk result (writer_buffer out.new ≡ []) }
    {
        write_rest(out, self.lines)?;
        out.flush()
    }
}

/// Returns the first of these, so many at the most.
fn first_of(most: usize, sightings: &[Sighting]) -> &[Sighting]
    ensures { result.now ≡ take most sightings.now }
{
    if sightings.len() > most {
        &sightings[..most]
    } else {
        sightings
    }
}

/// Writes a line for each of these.
fn write_lines<W: Write>(
    alloc: Global,
    out: &mut W,
    shapes: FrameShapes,
    sightings: &[Sighting],
) -> io::Result<()>
    ensures { OnOk result (WritesLines (ChartsSighting shapes) sightings.now
        (W.contents out.old) (W.contents out.new)) }
{
    for sighting in sightings {
        write_arrow(alloc, out, shapes, sighting)?;
    }
    Ok(())
}

/// Writes how many of so many lines of a trace are left out, if some are.
fn write_rest<W: Write>(out: &mut W, lines: usize) -> io::Result<()>
    ensures { OnOk result (Appends (W.contents out.old) (W.contents out.new) (rest_text lines)) }
{
    if lines <= MOST_LINES {
        return Ok(());
    }
    let rest = lines - MOST_LINES;
    writeln!(
        out,
        "Note over S1,S2: {rest} lines of the trace are left out"
    )
}

/// Writes the line of one thing that a station did.
fn write_arrow<W: Write>(
    alloc: Global,
    out: &mut W,
    shapes: FrameShapes,
    sighting: &Sighting,
) -> io::Result<()>
    ensures { OnOk result (WritesLine (ChartsSighting shapes sighting.now)
        (W.contents out.old) (W.contents out.new)) }
{
    let mut deed = Vec::new(alloc);
    write_deed(&mut deed, shapes, sighting)?;
    let arrow = arrow(sighting.station, sighting.deed);
    write!(out, "{arrow}{}.{} ", sighting.step, sighting.event)?;
    write!(out, "{}", Drawn(deed.as_slice()))
}

/// Returns the arrow or the note that a station's deed is drawn as.
fn arrow(station: Side, deed: Deed) -> &'static str
    ensures { result.now ≡ charts.arrow station deed }
{
    match (station, deed) {
        (Side::One, Deed::SendsFrame(_)) => "S1--)S2: ",
        (Side::Two, Deed::SendsFrame(_)) => "S2--)S1: ",
        (Side::One, Deed::SendsPdu(_)) => "S1-)S2: ",
        (Side::Two, Deed::SendsPdu(_)) => "S2-)S1: ",
        (Side::One, Deed::TakesFrame(_)) => "S2-->>S1: ",
        (Side::Two, Deed::TakesFrame(_)) => "S1-->>S2: ",
        (Side::One, Deed::HearsPdu) => "S2->>S1: ",
        (Side::Two, Deed::HearsPdu) => "S1->>S2: ",
        (Side::One, Deed::LosesFrame(_)) => "S1-xS2: ",
        (Side::Two, Deed::LosesFrame(_)) => "S2-xS1: ",
        (Side::One, Deed::Ticks | Deed::Drops | Deed::Tells) => "Note over S1: ",
        (Side::Two, Deed::Ticks | Deed::Drops | Deed::Tells) => "Note over S2: ",
    }
}

/// Text as a chart has it: letters, digits, a few signs and the end of a line as they are, any
/// other octet, in which Mermaid could see a sign of its own, as `#`, its number and `;`.
#[derive(Clone, Copy)]
struct Drawn<'a>(&'a [u8]);

impl fmt::Display for Drawn<'_> {
    ghost output = { λ text. Some (flat_map charts.drawn_octet text.0.now) };

    fn fmt<W: fmt::Write>(&self, f: &mut fmt::Formatter<W>) -> fmt::Result {
        for octet in self.0 {
            write!(f, "{}", DrawnOctet(*octet))?;
        }
        Ok(())
    }
}

/// One octet of such a text.
#[derive(Clone, Copy)]
struct DrawnOctet(u8);

impl fmt::Display for DrawnOctet {
    ghost output = { λ octet. Some (charts.drawn_octet octet.0) };

    #[tactic(auto, using(std::proofs::lemmas::Str::encode_ascii))]
    fn fmt<W: fmt::Write>(&self, f: &mut fmt::Formatter<W>) -> fmt::Result {
        let octet = self.0;
        if is_drawn(octet) {
            write!(f, "{}", char::from(octet))
        } else {
            write!(f, "#{octet};")
        }
    }
}

/// Returns `true` if an octet stands in a chart as it is.
fn is_drawn(octet: u8) -> bool
    ensures { result ≡ charts.is_drawn octet }
{
    octet.is_ascii_alphanumeric() || b" %+-./:=_\n".contains(&octet)
}
