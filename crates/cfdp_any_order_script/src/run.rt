//! Running a script's commands over any link, one after another.
ghost use Rattle.std.specs.Prelude.{◌≡◌, ◌≤◌, ℕ, List, [], length, vec_capacity, Option, IfSome};
ghost use Rattle.std.specs.Io.KnownBytes.{Appends};
ghost use Rattle.station_pair.specs.declared.world_config.WorldConfig.{WorldConfig};
ghost use Rattle.any_order.specs.World.{KeepsPromise};
ghost use Rattle.cfdp_script.specs.declared.script.command.FileLine.{FileLine};
ghost use Rattle.cfdp_any_order_script.specs.Performing.{Runs};
ghost use Rattle.cfdp_any_order_script.specs.Simulated.{EndsRun, IsFirst, RunsAll};

use crate::answer::Answered;
use crate::perform::perform;
use crate::play::Play;
use crate::report::report;
use cfdp_report::{Exit, Fault};
use cfdp_script::{FileLine, Step, asked_puts};
use link_sim::{Side, WorldConfig};
use std::alloc::{AllocError, Global};
use std::io::Write;
use valid_config::Valid;

/// A report that is made, and how the program ends with it.
#[derive(Drop)]
struct Reported {
    exit: Exit,
    text: Vec<u8>,
}

/// Does all commands at two stations with these files, and writes the report. There must be memory
/// for the stations, for what the commands answer and for the report, or nothing is written. The
/// writer isn't flushed.
pub fn run_steps<W: Write>(
    alloc: Global,
    config: Valid<WorldConfig>,
    files: &[FileLine],
    steps: &[Step],
    out: &mut W,
) -> Exit
    ensures { EndsRun result config files.now steps.now (W.contents out.old) (W.contents out.new) }
{
    let Some(Reported { exit, text }) = make_report(alloc, config, files, steps) else {
        return Exit::Device(Fault::NoMemoryAtStart);
    };
    match out.write_all(text.as_slice()) {
        Ok(()) => exit,
        Err(_) => Exit::Device(Fault::Unwritable),
    }
}

/// Does all commands at two stations with these files, and makes the report. Returns `None` if
/// there is no memory for all of that.
fn make_report(
    alloc: Global,
    config: Valid<WorldConfig>,
    files: &[FileLine],
    steps: &[Step],
) -> Option<Reported>
    ensures ran { IfSome result (λ made. RunsAll config files.now steps.now) }
    ensures ends { IfSome result (λ made. (old new : Option (List ℕ)) →
        Appends old new made.text.items →
        EndsRun made.exit config files.now steps.now old new) }
{
    let Ok(mut answered) = Vec::with_capacity(alloc, steps.len()) else {
        return None;
    };
    match Play::new(alloc, config, files) {
        Ok(play) => make_report_of(alloc, play, steps, &mut answered),
        Err(AllocError) => None,
    }
}

/// Does all commands at two stations, makes the report, and drops the stations.
fn make_report_of(
    alloc: Global,
    mut play: Play<'_>,
    steps: &[Step],
    answered: &mut Vec<Answered>,
) -> Option<Reported>
    requires none { answered.old.items ≡ [] }
    requires room { length steps.now ≤ vec_capacity answered.old }
    ensures ran { (config : WorldConfig) (files : List FileLine) → IsFirst config files play.entry →
        IfSome result (λ made. RunsAll config files steps.now) }
    ensures ends { (config : WorldConfig) (files : List FileLine) → IsFirst config files play.entry
        → IfSome result (λ made. (old new : Option (List ℕ)) → Appends old new made.text.items →
        EndsRun made.exit config files steps.now old new) }
{
    let made = make_report_at(alloc, &mut play, steps, answered);
    play.close();
    made
}

/// Does all commands at two stations, and makes the report. Returns `None` if there is no memory.
fn make_report_at(
    alloc: Global,
    play: &mut Play<'_>,
    steps: &[Step],
    answered: &mut Vec<Answered>,
) -> Option<Reported>
    requires none { answered.old.items ≡ [] }
    requires room { length steps.now ≤ vec_capacity answered.old }
    ensures ran { (config : WorldConfig) (files : List FileLine) → IsFirst config files play.old →
        IfSome result (λ made. RunsAll config files steps.now) }
    ensures ends { (config : WorldConfig) (files : List FileLine) → IsFirst config files play.old →
        IfSome result (λ made. (old new : Option (List ℕ)) → Appends old new made.text.items →
        EndsRun made.exit config files steps.now old new) }
{
    perform_all(play, steps, answered);
    show_promise(play);
    let mut text = Vec::new(alloc);
    match report(&mut text, answered.as_slice(), play, asked_puts(steps)) {
        Ok(exit) => Some(Reported { exit, text }),
        Err(_) => None,
    }
}

/// Shows that the promise holds.
fn show_promise(play: &Play<'_>)
    ensures { KeepsPromise play.now.world }
{
    let _ = play.world.received(Side::One);
}

/// Does all commands in turn, and keeps what each answered.
fn perform_all(play: &mut Play<'_>, steps: &[Step], answered: &mut Vec<Answered>)
    requires none { answered.old.items ≡ [] }
    requires room { length steps.now ≤ vec_capacity answered.old }
    ensures { Runs steps.now answered.new.items play.old play.new }
{
    for step in steps {
        let line = step.line;
        let answer = perform(play, &step.command);
        answered.push_reserved(Answered { line, answer });
    }
}
