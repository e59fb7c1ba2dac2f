//! The report of a script over any link.
ghost use Rattle.std.specs.Io.KnownBytes.{Appends};
ghost use Rattle.std.specs.List.{flat_map, list_any};
ghost use Rattle.std.specs.Prelude.{◌≡◌, IfOk, OnOk};
ghost use Rattle.cfdp_any_order_script.specs.Answers as answers;
ghost use Rattle.cfdp_any_order_script.specs.Answers.{answer_line};
ghost use Rattle.cfdp_any_order_script.specs.Report.{exit_of, puts_completed, report_text};

use crate::answer::Answered;
use crate::play::Play;
use crate::told::ToldWorld;
use cfdp_report::{Exit, Fault};
use cfdp_script::write_inbox;
use link_sim::Side;
use std::io;
use std::io::Write;

/// Writes a line for each command that has an answer.
fn write_answers<W: Write>(out: &mut W, answered: &[Answered]) -> io::Result<()>
    ensures { OnOk result (Appends (W.contents out.old) (W.contents out.new)
        (flat_map answer_line answered.now)) }
{
    for done in answered {
        write_answer(out, *done)?;
    }
    Ok(())
}

/// Writes the line of a command, if it has an answer.
fn write_answer<W: Write>(out: &mut W, done: Answered) -> io::Result<()>
    ensures { OnOk result (Appends (W.contents out.old) (W.contents out.new) (answer_line done)) }
{
    match done.answer {
        Some(answer) => writeln!(out, "line {} {answer}", done.line),
        None => Ok(()),
    }
}

/// Writes the whole report of the world: what each station indicated, the files that it published,
/// and how many of the `asked` puts were completed. Takes no memory.
fn write_world<W: Write>(
    out: &mut W,
    answered: &[Answered],
    world: &ToldWorld<'_>,
    complete: u128,
    asked: usize,
) -> io::Result<()>
    requires { complete ≡ puts_completed world.now }
    ensures { OnOk result (Appends (W.contents out.old) (W.contents out.new)
        (report_text asked answered.now world.now)) }
{
    write_answers(out, answered)?;
    world.write_told(out, Side::One)?;
    world.write_told(out, Side::Two)?;
    write_inbox(out, 1, world.received(Side::One))?;
    write_inbox(out, 2, world.received(Side::Two))?;
    writeln!(out, "complete {complete} of {asked}")
}

/// Writes the report to its end, and returns how the run ended.
///
/// # Errors
///
/// The error of the writer, if it fails.
pub fn report<W: Write>(
    out: &mut W,
    answered: &[Answered],
    play: &Play<'_>,
    asked: usize,
) -> io::Result<Exit>
    ensures ends { IfOk result (λ exit. exit
        ≡ exit_of answered.now (puts_completed play.now.world) asked) }
    ensures written { OnOk result (Appends (W.contents out.old) (W.contents out.new)
        (report_text asked answered.now play.now.world)) }
{
    let world = &play.world;
    let complete = world.completed(Side::One) + world.completed(Side::Two);
    write_world(out, answered, world, complete, asked)?;
    Ok(exit(answered, complete, asked))
}

/// Returns how a run ended whose commands had these answers.
fn exit(answered: &[Answered], complete: u128, asked: usize) -> Exit
    ensures { result ≡ exit_of answered.now complete asked }
{
    if has_device_fault(answered) {
        Exit::Device(Fault::NoMemory)
    } else if complete == asked as u128 {
        Exit::Complete
    } else {
        Exit::Incomplete
    }
}

/// Returns `true` if a command ran out of memory, or a store failed.
fn has_device_fault(answered: &[Answered]) -> bool
    ensures { result ≡ list_any (λ done. answers.is_device_fault done.answer) answered.now }
{
    answered.iter().any(|done| done.is_device_fault())
}
