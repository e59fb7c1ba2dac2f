//! The run of a script.
ghost use Rattle.std.specs.Prelude.{IfOk, Some, []};
ghost use Rattle.std.specs.Io.Buffered.{writer_contents};
ghost use Rattle.cfdp_script.specs.Script.Simulated.{EndsScript, IsSilentAt};
ghost use Rattle.cfdp_play.specs.Running.{Ends};

use cfdp_script::run_sim;
use cfdp_watch::{Ran, Shown};
use std::alloc::AllocError;
use std::io::BufWriter;

/// A run that is over.
#[derive(Drop)]
pub struct Ended {
    /// How it ended, and what was seen of it.
    pub ran: Ran,
    /// Its report.
    pub report: Vec<u8>,
}

/// Runs the script that this text is, by the function of `cfdp_node sim`.
///
/// # Errors
///
/// `AllocError` if there is no memory for the report.
pub fn run_script(rt: &HostRuntime, text: &[u8]) -> Result<Ended, AllocError>
    ensures { IfOk result (λ it. Ends text.now it.ran.exit it.report.items) }
{
    let alloc = rt.alloc();
    let Ok(mut out) = BufWriter::new(alloc, Vec::new(alloc)) else {
        return Err(AllocError);
    };
    let ran = run_into(rt, text, &mut out);
    let (mut report, waiting) = out.into_parts();
    report.extend_from_slice(waiting.as_slice())?;
    Ok(Ended { ran, report })
}

/// Runs the script that this text is, and writes its report.
fn run_into(rt: &HostRuntime, text: &[u8], out: &mut BufWriter<Vec<u8>>) -> Ran
    ensures ends { EndsScript result.exit text.now
        (writer_contents (λ it. Some it.items) out.old)
        (writer_contents (λ it. Some it.items) out.new) }
    ensures silent { IsSilentAt result.exit
        (writer_contents (λ it. Some it.items) out.old)
        (writer_contents (λ it. Some it.items) out.new) }
{
    run_sim(rt, &kept_alone(), text, out)
}

/// Returns what is shown of a run here: nothing but what is kept.
fn kept_alone() -> Shown {
    Shown {
        explain: false,
        trace: false,
        pcap: None,
        chart: None,
        keeps: true,
    }
}
