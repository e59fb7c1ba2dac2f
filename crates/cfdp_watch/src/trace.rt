//! What passes at two stations, in words.
ghost use Rattle.std.specs.Io.Buffered.{writer_buffer, writer_contents};
ghost use Rattle.std.specs.Prelude.{◌≡◌, [], OnOk};
ghost use Rattle.cfdp_dump.specs.Spelled.Lines.{WritesLine, WritesLines};
ghost use Rattle.cfdp_watch.specs.Continues.{Continues};
ghost use Rattle.cfdp_watch.specs.Trace.{TellsDeed, TellsSighting, TellsWords, TracesSoFar};
ghost use Rattle.cfdp_watch.specs.Trace.{deed_word, sender};

use crate::sighting::{Deed, Sighting};
use aos_frame::Lane;
use cfdp_dump::{DumpForm, FrameShape, FrameShapes, write_frame, write_pdu};
use station_pair::Side;
use std::io;
use std::io::{BufWriter, Write};

impl Deed {
    /// Returns the word for it, with the lane of a frame.
    fn word(self) -> &'static str
        ensures { result.now ≡ deed_word self }
    {
        match self {
            Deed::SendsFrame(Lane::Directives) => "sends dir",
            Deed::SendsFrame(Lane::Data) => "sends data",
            Deed::SendsPdu(_) => "sends",
            Deed::TakesFrame(Lane::Directives) => "takes dir",
            Deed::TakesFrame(Lane::Data) => "takes data",
            Deed::HearsPdu => "hears",
            Deed::LosesFrame(Lane::Directives) => "loses dir",
            Deed::LosesFrame(Lane::Data) => "loses data",
            Deed::Ticks => "ticks",
            Deed::Drops => "drops",
            Deed::Tells => "tells",
        }
    }

    /// Returns the station that sent the frame with which this station did it.
    fn sender(self, station: Side) -> Side
        ensures { result ≡ sender self station }
    {
        match self {
            Deed::TakesFrame(_) => station.other(),
            _ => station,
        }
    }
}

/// Writes a line for each thing that a station did, in order, after those of what was seen before:
/// the line of the script and the number of the event, with a point between, the station, and what
/// it did. They have left the buffer then. `shapes` says what the frames of each are made of.
///
/// # Errors
///
/// The error of the writer, if it fails.
pub fn write_trace<V: Write + Drop>(
    out: &mut BufWriter<V>,
    shapes: FrameShapes,
    sightings: &[Sighting],
) -> io::Result<()>
    ensures goes_on { OnOk result (Continues (TracesSoFar shapes) (TracesSoFar shapes) sightings.now
        (writer_contents V.contents out.old) (writer_contents V.contents out.new)) }
    ensures flushed { OnOk result (writer_buffer out.new ≡ []) }
{
    write_sightings(out, shapes, sightings)?;
    out.flush()
}

/// Writes a line for each of these.
fn write_sightings<W: Write>(
    out: &mut W,
    shapes: FrameShapes,
    sightings: &[Sighting],
) -> io::Result<()>
    ensures { OnOk result (WritesLines (TellsSighting shapes) sightings.now
        (W.contents out.old) (W.contents out.new)) }
{
    for sighting in sightings {
        write_sighting(out, shapes, sighting)?;
    }
    Ok(())
}

fn write_sighting<W: Write>(out: &mut W, shapes: FrameShapes, sighting: &Sighting) -> io::Result<()>
    ensures { OnOk result (WritesLine (TellsSighting shapes sighting.now)
        (W.contents out.old) (W.contents out.new)) }
{
    let station = sighting.station.entity();
    write!(out, "{}.{} {station} ", sighting.step, sighting.event)?;
    write_deed(out, shapes, sighting)
}

/// Writes what a station did: the verb, and what a dump says of the frame or the PDU, or the words
/// for anything else.
///
/// # Errors
///
/// The error of the writer, if it fails.
pub fn write_deed<W: Write>(out: &mut W, shapes: FrameShapes, sighting: &Sighting) -> io::Result<()>
    ensures { OnOk result (WritesLine (TellsDeed shapes sighting.now)
        (W.contents out.old) (W.contents out.new)) }
{
    write!(out, "{} ", sighting.deed.word())?;
    let from = sighting.deed.sender(sighting.station);
    write_words(out, shapes.sent_by(from), sighting)
}

/// Writes what stands after the verb. A frame is made so.
fn write_words<W: Write>(out: &mut W, shape: FrameShape, sighting: &Sighting) -> io::Result<()>
    ensures { OnOk result (WritesLine
        (TellsWords sighting.now.deed shape sighting.now.octets.items)
        (W.contents out.old) (W.contents out.new)) }
{
    match sighting.deed {
        Deed::SendsPdu(_) | Deed::HearsPdu => write_pdu(&sighting.octets, DumpForm::Short, out),
        Deed::SendsFrame(_) | Deed::TakesFrame(_) | Deed::LosesFrame(_) => {
            write_frame(&sighting.octets, shape, DumpForm::Short, out)
        }
        Deed::Ticks | Deed::Drops | Deed::Tells => write_line(out, &sighting.octets),
    }
}

/// Writes these octets as a line.
fn write_line<W: Write>(out: &mut W, words: &[u8]) -> io::Result<()>
    ensures { OnOk result (WritesLine (λ text. text ≡ words.now)
        (W.contents out.old) (W.contents out.new)) }
{
    out.write_all(words)?;
    out.write_all(b"\n")
}
