//! A file that goes from one station to another over two wires, in turns.
ghost use Rattle.std.specs.Io.Buffered.{writer_buffer, writer_contents};
ghost use Rattle.std.specs.Io.KnownBytes.{Appends};
ghost use Rattle.std.specs.Prelude.{◌≡◌, ◌==◌, ◌&&◌, Some, IfOk, OnOk, not};
ghost use Rattle.cfdp_report.specs.Exit.{IsFlushedAt};
ghost use Rattle.cfdp_node.specs.Looping.Turns.{EndsBoth, EndsFromOne, EndsLoop, IsTold, LoopRuns};
ghost use Rattle.cfdp_node.specs.Looping.Turns.{completed, is_no_memory, loop_text};
ghost use Rattle.cfdp_node.specs.Looping.Turns.{more_failures, refusal_answer};
ghost use Rattle.cfdp_report.specs.Report.Lines.{count_line};
ghost use Rattle.cfdp_port.specs.Pair.{pair};

pub mod folders;
pub mod security;
pub mod udp;

use cfdp_port::{Lookout, Port, Wire, take_turns};
use cfdp_report::{
    Answer, Answered, Exit, Fault, own_completions, write_answer, write_indications,
};
use cfdp_station::{PutError, StationConfig};
use cfdp_store::{Inbox, MemoryOutbox, NoInbox, Outbox};
use station_pair::{Refusal, Side, WorldConfig};
use std::alloc::{AllocError, Global};
use std::io;
use std::io::{BufWriter, Write};
use valid_config::Valid;

/// What must be sent, and how.
#[derive(Drop)]
pub struct LoopOptions {
    /// The file's name in the outbox of the first station.
    pub source: Vec<u8>,
    /// The name under which the second station must publish it.
    pub destination: Vec<u8>,
    /// The most turns that are taken.
    pub turns: u64,
    /// How both stations are set up.
    pub config: Valid<WorldConfig>,
}

/// Where the file goes from and to, and over what.
#[derive(Drop)]
pub struct LoopEnds<O: Outbox, I: Inbox, W: Wire> {
    /// The outbox of the first station.
    pub outbox: O,
    /// The inbox of the second one.
    pub inbox: I,
    /// The wire of each.
    pub wires: (W, W),
}

/// What the second station is made of.
#[derive(Drop)]
struct Second<I: Inbox, W: Wire> {
    config: Valid<StationConfig>,
    inbox: I,
    wire: W,
}

/// How a put and its turns ended.
#[derive(Clone, Copy)]
pub struct Ended {
    /// What the put answered, if it wasn't accepted.
    pub answer: Option<Answer>,
    /// Whether memory ran out.
    pub short: bool,
}

/// Sends a file of an outbox from one station to another, which puts it into an inbox, and writes
/// the report, which has left the buffer then.
///
/// The put is made before the first turn. A turn gives both stations its number as the time, lets
/// each send, the first one first, and then lets each take what came. The run ends when
/// the put is closed at the first station and isn't open at the second, or after so many turns.
///
/// If memory runs out, that ends it, and is reported as `Device`; so is a put that isn't
/// complete if a store failed. If there is none for the stations, nothing is written. A
/// report that can't be written to its end isn't restarted.
///
/// Who looks on sees all that passes, and that no more does before the report is written.
pub fn run_loop<O: Outbox, I: Inbox, W: Wire, V: Write + Drop, L: Lookout>(
    alloc: Global,
    options: &LoopOptions,
    ends: LoopEnds<O, I, W>,
    out: &mut BufWriter<V>,
    lookout: &mut L,
) -> Exit
    ensures ends { IsTold result (EndsLoop W.steps result options.now.config
        (O.stands ends.outbox) (O.files ends.outbox) (I.published ends.inbox) ends.wires
        options.now.source.items options.now.destination.items options.now.turns
        (writer_contents V.contents out.old) (writer_contents V.contents out.new)) }
    ensures flushed { IsFlushedAt result (writer_buffer out.new) }
{
    run_first(alloc, options, ends, out, lookout).flushed(out)
}

/// Makes the first station, and runs all. The writer isn't flushed.
fn run_first<O: Outbox, I: Inbox, W: Wire, V: Write, L: Lookout>(
    alloc: Global,
    options: &LoopOptions,
    ends: LoopEnds<O, I, W>,
    out: &mut V,
    lookout: &mut L,
) -> Exit
    ensures { IsTold result (EndsLoop W.steps result options.now.config (O.stands ends.outbox)
        (O.files ends.outbox) (I.published ends.inbox) ends.wires options.now.source.items
        options.now.destination.items options.now.turns (V.contents out.old)
        (V.contents out.new)) }
{
    let (sender, receiver) = (
        WorldConfig::station(options.config, Side::One),
        WorldConfig::station(options.config, Side::Two),
    );
    let LoopEnds {
        outbox,
        inbox,
        wires,
    } = ends;
    let (first, wire) = wires;
    match Port::new(alloc, Side::One, sender, (outbox, NoInbox::new()), first) {
        Ok(mut one) => {
            let second = Second {
                config: receiver,
                inbox,
                wire,
            };
            let exit = run_second(alloc, options, &mut one, second, out, lookout);
            drop(one);
            exit
        }
        Err(AllocError) => Exit::Device(Fault::NoMemoryAtStart),
    }
}

/// Makes the second station, and runs all.
fn run_second<O: Outbox, I: Inbox, J: Inbox, W: Wire, V: Write, L: Lookout>(
    alloc: Global,
    options: &LoopOptions,
    one: &mut Port<O, J, W>,
    second: Second<I, W>,
    out: &mut V,
    lookout: &mut L,
) -> Exit
    ensures { IsTold result (EndsFromOne W.steps result one.old second.config
        (I.published second.inbox) second.wire options.now.source.items
        options.now.destination.items options.now.turns (V.contents out.old)
        (V.contents out.new)) }
{
    let Second {
        config,
        inbox,
        wire,
    } = second;
    match Port::new(
        alloc,
        Side::Two,
        config,
        (MemoryOutbox::new(alloc), inbox),
        wire,
    ) {
        Ok(mut two) => {
            let exit = run_both(options, one, &mut two, out, lookout);
            drop(two);
            exit
        }
        Err(AllocError) => Exit::Device(Fault::NoMemoryAtStart),
    }
}

/// Runs all at two stations that did nothing yet, and writes the report. Both are left as the turns
/// left them, also if the report can't be written.
pub fn run_both<O: Outbox, I: Inbox, P: Outbox, J: Inbox, W: Wire, V: Write, L: Lookout>(
    options: &LoopOptions,
    one: &mut Port<O, J, W>,
    two: &mut Port<P, I, W>,
    out: &mut V,
    lookout: &mut L,
) -> Exit
    ensures { EndsBoth W.steps options.now.source.items options.now.destination.items
        options.now.turns (pair one.old two.old) (pair one.new two.new) result
        (V.contents out.old) (V.contents out.new) }
{
    let (read, written) = (one.outbox_failures(), two.inbox_failures());
    let ended = run(options, one, two, lookout);
    lookout.ends();
    let failed = have_failed(one, two, read, written);
    match write_report(out, ended.answer, one, two) {
        Ok(complete) => Exit::of_run(ended.short, has_failed(failed, complete), complete, 1),
        Err(_) => Exit::Device(Fault::Unwritable),
    }
}

/// Whether a run failed by a store: one that failed counts only if the put isn't complete.
fn has_failed(failed: bool, complete: usize) -> bool
    ensures { result ≡ (failed && not (complete == 1)) }
{
    failed && complete != 1
}

/// Returns `true` if the stores have failed more often than so: the first station's outbox, and the
/// second one's inbox.
pub fn have_failed<O: Outbox, I: Inbox, P: Outbox, J: Inbox, W: Wire>(
    one: &Port<O, J, W>,
    two: &Port<P, I, W>,
    read: u64,
    written: u64,
) -> bool
    ensures { result ≡ more_failures read written one.now.station two.now.station }
{
    one.outbox_failures() != read || two.inbox_failures() != written
}

/// Makes the put, and takes turns until it is over at both stations, or so many were taken.
fn run<O: Outbox, I: Inbox, P: Outbox, J: Inbox, W: Wire, L: Lookout>(
    options: &LoopOptions,
    one: &mut Port<O, J, W>,
    two: &mut Port<P, I, W>,
    lookout: &mut L,
) -> Ended
    ensures { LoopRuns W.steps options.now.source.items options.now.destination.items
        options.now.turns result.answer result.short (pair one.old two.old)
        (pair one.new two.new) }
{
    match one.put(
        options.source.as_slice(),
        options.destination.as_slice(),
        lookout,
    ) {
        Ok(id) => Ended {
            answer: None,
            short: take_turns(id, options.turns, one, two, lookout).is_err(),
        },
        Err(error) => refused(error),
    }
}

/// Returns what is reported of a put that was refused.
pub fn refused(error: PutError) -> Ended
    ensures answer { result.answer ≡ Some (refusal_answer error) }
    ensures short { result.short ≡ is_no_memory error }
{
    match error {
        PutError::NoMemory => Ended {
            answer: Some(Answer::NO_MEMORY),
            short: true,
        },
        PutError::Name
        | PutError::TableFull
        | PutError::NumbersSpent
        | PutError::SourceFault
        | PutError::NoSuchFile
        | PutError::TooLarge => Ended {
            answer: Some(Answer::Refused(Refusal::Put(error))),
            short: false,
        },
    }
}

/// Writes the report, and returns how many puts it says to be complete.
///
/// # Errors
///
/// That of the writer.
fn write_report<O: Outbox, I: Inbox, P: Outbox, J: Inbox, W: Wire, V: Write>(
    out: &mut V,
    answer: Option<Answer>,
    one: &Port<O, J, W>,
    two: &Port<P, I, W>,
) -> io::Result<usize>
    ensures written { OnOk result (Appends (V.contents out.old) (V.contents out.new)
        (loop_text answer one.now.station two.now.station)) }
    ensures complete { IfOk result (λ complete. complete ≡ completed one.now.station) }
{
    write_answer(out, Answered { line: 1, answer })?;
    write_indications(out, 1, one.indications())?;
    write_indications(out, 2, two.indications())?;
    let complete = own_completions(1, one.indications());
    write_count(out, complete, 1)?;
    Ok(complete)
}

/// Writes how many puts were completed, and how many there were.
pub fn write_count<V: Write>(out: &mut V, complete: usize, asked: usize) -> io::Result<()>
    ensures { OnOk result (Appends (V.contents out.old) (V.contents out.new)
        (count_line complete asked)) }
{
    writeln!(out, "complete {complete} of {asked}")
}
