//! A script, from its text to its report.
ghost use Rattle.std.specs.Io.Buffered.{writer_buffer, writer_contents};
ghost use Rattle.std.specs.FinMap as map;
ghost use Rattle.std.specs.Prelude.{◌≤◌, IfOk, IfSome, length};
ghost use Rattle.link_sim.specs.World.State.{IsFirst};
ghost use Rattle.station_pair.specs.declared.side.Side.TheVariants as sides;
ghost use Rattle.cfdp_script.specs.Script.Outboxes.{outbox_of};
ghost use Rattle.cfdp_script.specs.Script.Ending.{EndsRun};
ghost use Rattle.cfdp_report.specs.Exit.{IsFlushedAt};
ghost use Rattle.cfdp_script.specs.Script.Simulated.{EndsFrom, EndsScript, EndsText, IsSilentAt};

use crate::input::{MAX_SCRIPT, read_script};
use crate::script::command::FileLine;
use crate::script::outboxes::outboxes;
use crate::script::run::{Ended, run_steps};
use crate::script::{Script, Step};
use crate::world_onlooker::WorldOnlooker;
use cfdp_report::{Exit, Fault};
use cfdp_store::{MemoryInbox, MemoryOutbox};
use cfdp_watch::{Onlooker, Ran, Screen, Shown};
use link_sim::{World, WorldConfig, worlds_keep_the_promises};
use std::alloc::{AllocError, Global};
use std::io::{BufWriter, Read, Write};
use valid_config::Valid;

/// A world in memory, and who looks on.
type Watched<'a> = World<MemoryOutbox, MemoryInbox, WorldOnlooker<'a>>;

/// Reads a script, runs it, writes its report and flushes it. If something must be shown of the
/// run, an onlooker shows it as it passes.
///
/// Nothing is written unless the whole script was read, is good, and there is memory for all that
/// stands before its first command. After that, a command that answers NoMemory or StoreFailed
/// stands in the report, and the answer is `Device` too. A report that can't be written to its end
/// isn't restarted.
pub fn run_sim<R: Read + Drop, W: Write + Drop>(
    rt: &HostRuntime,
    shown: &Shown,
    reader: R,
    out: &mut BufWriter<W>,
) -> Ran
    ensures script { IfSome (R.remaining reader) (λ text. EndsScript result.exit text
        (writer_contents W.contents out.old) (writer_contents W.contents out.new)) }
    ensures silent { IsSilentAt result.exit (writer_contents W.contents out.old)
        (writer_contents W.contents out.new) }
    ensures flushed { IsFlushedAt result.exit (writer_buffer out.new) }
{
    let Ran { exit, seen } = run_script(rt, shown, reader, out);
    Ran {
        exit: exit.flushed(out),
        seen,
    }
}

/// Reads a script, runs it and writes its report. The writer isn't flushed.
fn run_script<R: Read + Drop, W: Write>(
    rt: &HostRuntime,
    shown: &Shown,
    reader: R,
    out: &mut W,
) -> Ran
    ensures script { IfSome (R.remaining reader)
        (λ text. EndsScript result.exit text (W.contents out.old) (W.contents out.new)) }
    ensures silent { IsSilentAt result.exit (W.contents out.old) (W.contents out.new) }
{
    match read_script(rt.alloc(), reader) {
        Ok(text) => run_text(rt, shown, text.as_slice(), out),
        Err(fault) => Ran::unseen(Exit::Device(fault)),
    }
}

/// Runs the script that this text is, and writes its report.
pub fn run_text<W: Write>(rt: &HostRuntime, shown: &Shown, text: &[u8], out: &mut W) -> Ran
    requires { length text.now ≤ MAX_SCRIPT }
    ensures script { EndsText result.exit text.now (W.contents out.old) (W.contents out.new) }
    ensures silent { IsSilentAt result.exit (W.contents out.old) (W.contents out.new) }
{
    worlds_keep_the_promises();
    let Ok(script) = Script::parse(rt.alloc(), text) else {
        return Ran::unseen(Exit::Device(Fault::NoMemoryAtStart));
    };
    match script.config() {
        Ok(config) => {
            let (files, steps) = (script.files.as_slice(), script.steps.as_slice());
            run_commands(rt, shown, config, files, steps, out)
        }
        Err(bad) => Ran::unseen(Exit::BadScript(bad)),
    }
}

/// Does these commands at two stations with these files, and writes the report.
fn run_commands<W: Write>(
    rt: &HostRuntime,
    shown: &Shown,
    config: Valid<WorldConfig>,
    files: &[FileLine],
    steps: &[Step],
    out: &mut W,
) -> Ran
    ensures { EndsFrom result.exit config files.now steps.now
        (W.contents out.old) (W.contents out.new) }
{
    match first_world(rt, shown, config, files) {
        Ok(world) => run_world(rt.alloc(), world, steps, out),
        Err(AllocError) => Ran::unseen(Exit::Device(Fault::NoMemoryAtStart)),
    }
}

/// Returns two stations with these files to send, in which nothing happened yet.
///
/// # Errors
///
/// `AllocError` if there is no memory for them, or for the onlooker.
fn first_world<'a>(
    rt: &'a HostRuntime,
    shown: &'a Shown,
    config: Valid<WorldConfig>,
    files: &[FileLine],
) -> Result<Watched<'a>, AllocError>
    ensures { IfOk result (IsFirst config
        (outbox_of sides.One files.now, outbox_of sides.Two files.now) (map.empty, map.empty)) }
{
    let alloc = rt.alloc();
    let outboxes = outboxes(alloc, files)?;
    let screen = Screen { rt, progress: None };
    let onlooker = Onlooker::new(screen, config, shown)?;
    World::in_memory(alloc, config, outboxes, WorldOnlooker::new(onlooker))
}

/// Does these commands in a world, writes the report, and returns what is known of it then.
fn run_world<W: Write>(alloc: Global, mut world: Watched<'_>, steps: &[Step], out: &mut W) -> Ran
    ensures { EndsRun result.exit steps.now world.entry
        (W.contents out.old) (W.contents out.new) }
{
    let Ended { exit, answered } = run_steps(alloc, &mut world, steps, out);
    let seen = match world.into_witness().into_summary() {
        Some(seen) => Some(seen.answering(answered)),
        None => None,
    };
    Ran { exit, seen }
}
