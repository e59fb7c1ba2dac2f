//! A script, from its text to its report, over the link that its commands ask for.
ghost use Rattle.std.specs.Io.Buffered.{writer_buffer, writer_contents};
ghost use Rattle.std.specs.Option.{option_map};
ghost use Rattle.std.specs.Prelude.{◌≡◌, IfSome};
ghost use Rattle.cfdp_report.specs.Exit.{IsFlushedAt};
ghost use Rattle.cfdp_any_order_script.specs.Simulated.{Ends, EndsAt, first_disorder};

use crate::run::run_steps;
use cfdp_report::{BadLine, Exit, Fault, Hint, LineError, Quote};
use cfdp_script::{Command, Disorder, Script, Step, read_script, run_text};
use cfdp_watch::{Ran, Shown};
use std::io::{BufWriter, Read, Write};

/// Reads a script, runs it, writes its report and flushes it. It runs over a link that keeps the
/// order of its frames, as `cfdp_script` says; but over one that keeps none if it has a command for
/// that, `overtake`, `repeat` or `restart`. Only the former may have an onlooker.
///
/// Nothing is written unless the whole script was read, is good, and there is memory for all that
/// stands before its first command; over a link that keeps no order, also for the whole report.
pub fn run_script<R: Read + Drop, W: Write + Drop>(
    rt: &HostRuntime,
    shown: &Shown,
    reader: R,
    out: &mut BufWriter<W>,
) -> Ran
    ensures script { IfSome (R.remaining reader) (λ text. Ends result.exit text
        (writer_contents W.contents out.old) (writer_contents W.contents out.new)) }
    ensures flushed { IsFlushedAt result.exit (writer_buffer out.new) }
{
    let Ran { exit, seen } = run_any(rt, shown, reader, out);
    Ran {
        exit: exit.flushed(out),
        seen,
    }
}

/// Reads a script, runs it and writes its report. The writer isn't flushed.
fn run_any<R: Read + Drop, W: Write>(rt: &HostRuntime, shown: &Shown, reader: R, out: &mut W) -> Ran
    ensures { IfSome (R.remaining reader) (λ text. Ends result.exit text
        (W.contents out.old) (W.contents out.new)) }
{
    let text = match read_script(rt.alloc(), reader) {
        Ok(text) => text,
        Err(fault) => return Ran::unseen(Exit::Device(fault)),
    };
    let Ok(script) = Script::parse(rt.alloc(), text.as_slice()) else {
        return Ran::unseen(Exit::Device(Fault::NoMemoryAtStart));
    };
    match first_disorder(script.steps.as_slice()) {
        Some(first) => Ran::unseen(run_disorder(rt, shown, &script, first, out)),
        None => run_text(rt, shown, text.as_slice(), out),
    }
}

/// Returns the first of these commands that is none of a link that keeps the order of its frames,
/// and its line.
fn first_disorder(steps: &[Step]) -> Option<(usize, Disorder)>
    ensures { option_map (λ found. found.0) result ≡ first_disorder steps.now }
{
    for step in steps {
        if let Command::Disorder(what) = &step.command {
            return Some((step.line, *what));
        }
    }
    None
}

/// Runs a script over a link that keeps no order, and writes its report. Its first command that
/// needs such a link stands in this line.
fn run_disorder<W: Write>(
    rt: &HostRuntime,
    shown: &Shown,
    script: &Script,
    first: (usize, Disorder),
    out: &mut W,
) -> Exit
    ensures { EndsAt first.0 result script.now (W.contents out.old) (W.contents out.new) }
{
    match script.config() {
        Ok(config) => {
            if shown.is_watched() {
                return Exit::BadScript(unshown(first));
            }
            let (files, steps) = (script.files.as_slice(), script.steps.as_slice());
            run_steps(rt.alloc(), config, files, steps, out)
        }
        Err(bad) => Exit::BadScript(bad),
    }
}

/// Returns the line of such a command, as one that can't be shown.
fn unshown(first: (usize, Disorder)) -> BadLine
    ensures { result.line ≡ first.0 }
{
    let (line, what) = first;
    let word = match what {
        Disorder::Overtake(_) => "overtake",
        Disorder::Again(_) => "repeat",
        Disorder::Restart(_) | Disorder::Resume(_) => "restart",
    };
    BadLine {
        line,
        error: LineError::Unshown,
        word: Quote::of(word.as_bytes()),
        hint: Hint::Nothing,
    }
}
