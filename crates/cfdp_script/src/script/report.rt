//! The report of a script's run.
ghost use Rattle.std.specs.BTreeMap.{IsOrdered};
ghost use Rattle.std.specs.Cmp.Lexicographic.{slice_cmp};
ghost use Rattle.std.specs.FinMap.{entries};
ghost use Rattle.std.specs.Io.KnownBytes.{Appends};
ghost use Rattle.std.specs.List.{flat_map};
ghost use Rattle.std.specs.Ordering.{nat_cmp};
ghost use Rattle.std.specs.Prelude.{◌≡◌, ◌≤◌, OnOk, map};
ghost use Rattle.cfdp_directives.specs.Pdu.Checksum.{modular_checksum};
ghost use Rattle.cfdp_script.specs.Script.Run as runs;
ghost use Rattle.cfdp_script.specs.Script.Report.{inbox_line, puts_asked, puts_completed};
ghost use Rattle.cfdp_script.specs.Script.Report.{report_text};

use crate::script::Step;
use crate::script::command::Command;
use cfdp_directives::Checksum;
use cfdp_report::{Answered, HexNumber, Name, own_completions, write_answers, write_indications};
use cfdp_store::Files;
use link_sim::{Event, Side, Stations};
use std::collections::BTreeMap;
use std::io;
use std::io::Write;

/// How many puts a script has, and how many of them were completed.
#[derive(Clone, Copy)]
pub struct Tally {
    /// Those that were indicated as complete to their sender.
    pub complete: u128,
    /// All of them, refused ones too.
    pub asked: usize,
}

impl Tally {
    /// Returns the count of puts after a script, and of those that were completed.
    pub fn of<S: Stations>(stations: &S, steps: &[Step]) -> Tally
        ensures complete { result.complete ≡ puts_completed (S.world stations.now) }
        ensures asked { result.asked ≡ puts_asked steps.now }
    {
        Tally {
            complete: completed_puts(stations),
            asked: asked_puts(steps),
        }
    }
}

/// Writes the report of a run: what each command answered, what each station indicated, the files
/// that it received, and how many puts were completed. Takes no memory.
///
/// # Errors
///
/// The error of the writer, if it fails.
pub fn write_report<S: Stations, W: Write>(
    out: &mut W,
    answered: &[Answered],
    stations: &S,
    tally: Tally,
) -> io::Result<()>
    requires { tally.complete ≡ puts_completed (S.world stations.now) }
    ensures { OnOk result (Appends (W.contents out.old) (W.contents out.new)
        (report_text tally.asked answered.now (S.world stations.now))) }
{
    write_answers(out, answered)?;
    write_indications(out, 1, stations.indications(Side::One))?;
    write_indications(out, 2, stations.indications(Side::Two))?;
    write_inbox(out, 1, stations.received(Side::One))?;
    write_inbox(out, 2, stations.received(Side::Two))?;
    writeln!(out, "complete {} of {}", tally.complete, tally.asked)
}

/// Writes a line for each file of an inbox, in ascending order of their names.
pub fn write_inbox<W: Write>(out: &mut W, station: u8, inbox: &Files) -> io::Result<()>
    ensures { OnOk result (Appends (W.contents out.old) (W.contents out.new)
        (flat_map (inbox_line station) (entries inbox.now))) }
{
    write_files(out, station, inbox.entries())
}

/// Writes a line for each of these files.
fn write_files<W: Write>(
    out: &mut W,
    station: u8,
    files: &BTreeMap<Vec<u8>, Vec<u8>>,
) -> io::Result<()>
    ensures written { OnOk result (Appends (W.contents out.old) (W.contents out.new)
        (flat_map (inbox_line station) (map (λ e. (e.0.items, e.1.items)) files.now.entries))) }
    ensures ordered { IsOrdered (λ a b. slice_cmp nat_cmp a.items b.items) files.now }
{
    for (name, octets) in files.iter() {
        write_file(out, station, name.as_slice(), octets.as_slice())?;
    }
    Ok(())
}

/// Writes the line of a file.
fn write_file<W: Write>(out: &mut W, station: u8, name: &[u8], octets: &[u8]) -> io::Result<()>
    ensures { OnOk result (Appends (W.contents out.old) (W.contents out.new)
        (inbox_line station (name.now, octets.now))) }
{
    let (name, sum) = (Name(name), HexNumber(checksum(octets)));
    writeln!(out, "inbox {station} {name} {} {sum}", octets.len())
}

/// Returns the modular checksum of a file.
#[tactic(auto, using(cfdp_directives::proofs::Sums::whole_words))]
fn checksum(octets: &[u8]) -> u32
    ensures { result ≡ modular_checksum octets.now }
{
    let mut checksum = Checksum::new();
    checksum.add(0, octets);
    checksum.value()
}

/// Returns how many of the accepted puts were completed: those whose sender was notified of that.
fn completed_puts<S: Stations>(stations: &S) -> u128
    ensures { result ≡ puts_completed (S.world stations.now) }
{
    // Two counts of elements may have no `usize` as their sum, as far as the prover knows.
    let one = own_completions(1, stations.indications(Side::One));
    let two = own_completions(2, stations.indications(Side::Two));
    one as u128 + two as u128
}

/// Returns how many of the commands are puts.
pub fn asked_puts(steps: &[Step]) -> usize
    ensures { result ≡ puts_asked steps.now }
{
    let mut count = 0;
    for step in steps {
        count += puts_in(step);
    }
    count
}

/// Returns how many files a command asks a station to send: one or none.
#[tactic(auto, unfolding(crate::specs::Script::Run::puts_in))]
fn puts_in(step: &Step) -> usize
    ensures same { result ≡ runs.puts_in step.now }
    ensures one { result ≤ 1 }
{
    match &step.command {
        Command::Once(Event::Put { .. }) => 1,
        _ => 0,
    }
}
