//! The words that ask what must be shown of a run beside its report.
ghost use Rattle.std.specs.Prelude.{◌≡◌, IfOk};
ghost use Rattle.clap.specs.Matches.{found_of};
ghost use Rattle.clap.specs.Simple.{app_of};
ghost use Rattle.clap.specs.Walk.{rows_of};
ghost use Rattle.cfdp_command_line.specs.Request.{HasNoGlobals, IsCommand};
ghost use Rattle.cfdp_command_line.specs.Shown.{asked_shown, shown_of, with_shown, with_told};

use crate::arguments::{file_under, flag_under, is_given, owned_word, with_argument};
use cfdp_watch::Shown;
use clap::{ArgMatches, Command};
use std::alloc::{AllocError, Global};

/// Adds the arguments to a subcommand that say what must be shown.
pub fn shown_command<'a>(alloc: Global, command: Command<'a>) -> Result<Command<'a>, AllocError>
    requires { HasNoGlobals command }
    ensures { IfOk result (IsCommand (with_shown (app_of command.entry))) }
{
    let told = told_command(alloc, command)?;
    let captured = with_argument(
        told,
        file_under(
            alloc,
            "Output",
            "pcap",
            "Write all PDUs to FILE, as a capture for Wireshark",
        ),
    )?;
    with_argument(
        captured,
        file_under(
            alloc,
            "Output",
            "chart",
            "Write a sequence diagram to FILE, in Mermaid's text",
        ),
    )
}

/// Adds those alone that say what is printed on standard error.
fn told_command<'a>(alloc: Global, command: Command<'a>) -> Result<Command<'a>, AllocError>
    requires { HasNoGlobals command }
    ensures { IfOk result (IsCommand (with_told (app_of command.entry))) }
{
    command
        .arg(flag_under(
            alloc,
            "Output",
            "explain",
            "Explain condition codes; print a summary",
        ))?
        .arg(flag_under(
            alloc,
            "Output",
            "trace",
            "Print each event on standard error",
        ))
}

/// Returns what the words after a subcommand ask to be shown.
///
/// # Errors
///
/// `AllocError` if there is no memory for the files' names.
pub fn shown_by(alloc: Global, arguments: &ArgMatches<'_>) -> Result<Shown, AllocError>
    ensures { IfOk result (λ shown. asked_shown shown
        ≡ shown_of (rows_of (found_of arguments.now))) }
{
    Ok(Shown {
        explain: is_given(arguments, "explain"),
        trace: is_given(arguments, "trace"),
        pcap: owned_word(alloc, arguments, "pcap")?,
        chart: owned_word(alloc, arguments, "chart")?,
        keeps: false,
    })
}
