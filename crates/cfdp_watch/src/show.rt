//! What is shown of a run beside its report.
ghost use Rattle.std.specs.Prelude.{◌≡◌, ◌⊎◌, None};
ghost use Rattle.cfdp_report.specs.Exit.{exit_status};

use crate::onlooker::Summary;
use crate::recorder::Showing;
use crate::shown::Shown;
use cfdp_report::{Answer, Answered, Exit};
use std::io;
use std::io::{ErrorKind, Write};

/// The exit status if what is asked for can't be shown.
const DEVICE: u8 = 3;

/// How a run ended, and what was seen of it.
#[derive(Drop)]
pub struct Ran {
    /// How it ended.
    pub exit: Exit,
    /// What is known of it by one who looked on; `None` if nobody did, or nothing was done.
    pub seen: Option<Summary>,
}

impl Ran {
    /// Returns a run that ended so before anything was done.
    pub fn unseen(exit: Exit) -> Ran
        ensures { result.exit ≡ exit }
    {
        Ran { exit, seen: None }
    }
}

/// Shows what is reported at a run's end of what was seen, if anything was and if that is asked
/// for. Returns the exit status: that of the run's end, or 3 if something can't be shown.
pub fn shown_status(rt: &HostRuntime, shown: &Shown, ran: &Ran) -> u8
    ensures shown { (result ≡ exit_status ran.now.exit) ⊎ (result ≡ 3) }
    ensures unseen { ran.now.seen ≡ None → result ≡ exit_status ran.now.exit }
{
    let status = ran.exit.status();
    match &ran.seen {
        Some(seen) => status.max(show(rt, shown, seen)),
        None => status,
    }
}

/// Shows what is reported at the end, if all was seen. Returns the exit status: 0, or 3 if memory
/// or writing failed.
fn show(rt: &HostRuntime, shown: &Shown, seen: &Summary) -> u8
    ensures { (result ≡ 0) ⊎ (result ≡ 3) }
{
    match seen.showing {
        Showing::Short => DEVICE,
        Showing::Failed => explain(rt, shown, seen).max(DEVICE),
        Showing::Whole => explain(rt, shown, seen),
    }
}

/// Explains what was seen, if that is asked for. Returns the exit status likewise.
fn explain(rt: &HostRuntime, shown: &Shown, seen: &Summary) -> u8
    ensures { (result ≡ 0) ⊎ (result ≡ 3) }
{
    if !shown.explain {
        return 0;
    }
    match write_explanation(rt, seen) {
        Ok(()) => 0,
        Err(error) => {
            if error.kind() == ErrorKind::OutOfMemory {
                let _ = eprintln!(rt;
                    "error: out of memory for --explain, --trace, --pcap or --chart"
                );
            }
            DEVICE
        }
    }
}

/// Writes which commands had nothing more to do before their end, what the conditions that were
/// indicated say, and what the stations sent, lost and dropped.
fn write_explanation(rt: &HostRuntime, seen: &Summary) -> io::Result<()> {
    let mut text = Vec::new(rt.alloc());
    for done in seen.answered.iter() {
        write_ended_early(*done, &mut text)?;
    }
    seen.conditions.write(seen.cancels, &mut text)?;
    seen.one.write(&mut text)?;
    seen.two.write(&mut text)?;
    rt.stderr().write_all(text.as_slice())
}

/// Writes how many frames a command took, if then none waited though it asked for more.
fn write_ended_early<W: Write>(done: Answered, out: &mut W) -> io::Result<()> {
    match done.answer {
        Some(Answer::Nothing { after }) if after > 0 => {
            writeln!(
                out,
                "line {}: fewer frames were waiting than asked for: {after}",
                done.line
            )
        }
        _ => Ok(()),
    }
}
