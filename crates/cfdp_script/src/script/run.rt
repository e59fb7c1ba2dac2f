//! Running a script's commands, one after another.
ghost use Rattle.std.specs.Io.KnownBytes.{Appends};
ghost use Rattle.std.specs.List.{list_any};
ghost use Rattle.std.specs.Prelude.{◌≡◌, ◌≤◌, [], IfOk, length, vec_capacity};
ghost use Rattle.cfdp_report.specs.Report.Answers as answers;
ghost use Rattle.cfdp_script.specs.Script.Ending.{EndsRun, exit_of};
ghost use Rattle.cfdp_script.specs.Script.Report.{puts_asked, puts_completed, report_text};
ghost use Rattle.cfdp_script.specs.Script.Run.{Runs};

use crate::script::Step;
use crate::script::perform::perform;
use crate::script::report::{Tally, write_report};
use cfdp_report::{Answered, Exit, Fault};
use link_sim::Stations;
use std::alloc::Global;
use std::io;
use std::io::Write;

/// How the commands of a script ended, and what they answered.
#[derive(Drop)]
pub struct Ended {
    pub exit: Exit,
    pub answered: Vec<Answered>,
}

/// Does all commands at these stations, and writes the report. There must be memory for all that
/// they answer before the first of them, or none is done. The writer isn't flushed.
pub fn run_steps<S: Stations, W: Write>(
    alloc: Global,
    stations: &mut S,
    steps: &[Step],
    out: &mut W,
) -> Ended
    ensures { EndsRun result.exit steps.now (S.world stations.old)
        (W.contents out.old) (W.contents out.new) }
{
    let Ok(mut answered) = Vec::with_capacity(alloc, steps.len()) else {
        return Ended {
            exit: Exit::Device(Fault::NoMemoryAtStart),
            answered: Vec::new(alloc),
        };
    };
    let exit = run_into(alloc, stations, steps, &mut answered, out);
    Ended { exit, answered }
}

/// Does all commands at these stations, keeps what each answered, and writes the report.
fn run_into<S: Stations, W: Write>(
    alloc: Global,
    stations: &mut S,
    steps: &[Step],
    answered: &mut Vec<Answered>,
    out: &mut W,
) -> Exit
    requires none { answered.old.items ≡ [] }
    requires room { length steps.now ≤ vec_capacity answered.old }
    ensures { EndsRun result steps.now (S.world stations.old)
        (W.contents out.old) (W.contents out.new) }
{
    perform_all(alloc, stations, steps, answered);
    match report(stations, steps, answered.as_slice(), out) {
        Ok(exit) => exit,
        Err(_) => Exit::Device(Fault::Unwritable),
    }
}

/// Does all commands in turn, and keeps what each answered.
fn perform_all<S: Stations>(
    alloc: Global,
    stations: &mut S,
    steps: &[Step],
    answered: &mut Vec<Answered>,
)
    requires none { answered.old.items ≡ [] }
    requires room { length steps.now ≤ vec_capacity answered.old }
    ensures { Runs steps.now answered.new.items (S.world stations.old) (S.world stations.new) }
{
    for step in steps {
        let line = step.line;
        stations.comes_to(line);
        let answer = perform(alloc, stations, &step.command);
        answered.push_reserved(Answered { line, answer });
    }
}

/// Writes the report to its end, and returns how the run ended.
///
/// # Errors
///
/// The error of the writer, if it fails.
fn report<S: Stations, W: Write>(
    stations: &S,
    steps: &[Step],
    answered: &[Answered],
    out: &mut W,
) -> io::Result<Exit>
    ensures ends { IfOk result (λ exit. exit
        ≡ exit_of answered.now (puts_completed (S.world stations.now)) (puts_asked steps.now)) }
    ensures written { IfOk result (λ _. Appends (W.contents out.old) (W.contents out.new)
        (report_text (puts_asked steps.now) answered.now (S.world stations.now))) }
{
    let tally = Tally::of(stations, steps);
    write_report(out, answered, stations, tally)?;
    Ok(exit(answered, tally))
}

/// Returns how a run ended whose commands had these answers.
fn exit(answered: &[Answered], tally: Tally) -> Exit
    ensures { result ≡ exit_of answered.now tally.complete tally.asked }
{
    if has_device_fault(answered) {
        Exit::Device(Fault::NoMemory)
    } else if tally.complete == tally.asked as u128 {
        Exit::Complete
    } else {
        Exit::Incomplete
    }
}

/// Returns `true` if a command ran out of memory, or a store failed.
fn has_device_fault(answered: &[Answered]) -> bool
    ensures { result ≡ list_any (λ done. answers.is_device_fault done.answer) answered.now }
{
    answered.iter().any(|done| done.is_device_fault())
}
