//! How a run of the program ends.
use crate::cause::cause_text;
use crate::input::Input;
use crate::line_error::BadLine;
use std::alloc::AllocError;
use std::io::{BufWriter, ErrorKind, Write};

/// How a run of the program ended.
#[derive(Clone, Copy)]
pub enum Exit {
    /// Every put was completed, or every line of a dump was written.
    Complete,
    /// Some put was not completed.
    Incomplete,
    /// The script is bad: its first bad line, and why it is one.
    BadScript(BadLine),
    /// Reading, writing or memory failed.
    Device(Fault),
}

/// What failed, if a run could not be done.
#[derive(Clone, Copy)]
pub enum Fault {
    /// The input can't be read, for this cause, or has no end within 1,100,000 reads.
    Unreadable(ErrorKind),
    /// The input has more than 1,048,576 octets.
    TooLong,
    /// The output can't be written.
    Unwritable,
    /// There was no memory before the first command was done. Nothing is printed.
    NoMemoryAtStart,
    /// A command found no memory, or a store failed. The report says which one.
    NoMemory,
}

impl Exit {
    ghost use Rattle.std.specs.Prelude.{◌≡◌, ◌⊎◌, false};
    ghost use Rattle.std.specs.Io.Buffered.{writer_buffer, writer_contents};
    ghost use Rattle.std.specs.Io.KnownBytes.{Keeps};
    ghost use Rattle.cfdp_report.specs.Exit as exits;
    ghost use Rattle.cfdp_report.specs.Exit.{exit_status, IsFlushedAt, run_exit};

    /// Returns how a run of stations ended, by whether memory ran out, whether a store failed, and
    /// how many of how many puts were completed.
    pub fn of_run(short: bool, failed: bool, complete: usize, asked: usize) -> Exit
        ensures { result ≡ run_exit short failed complete asked }
    {
        if short || failed {
            Exit::Device(Fault::NoMemory)
        } else if complete == asked {
            Exit::Complete
        } else {
            Exit::Incomplete
        }
    }

    /// Returns the exit status of the process: 0 to 3.
    pub fn status(self) -> u8
        ensures { result ≡ exit_status self }
    {
        match self {
            Exit::Complete => 0,
            Exit::Incomplete => 1,
            Exit::BadScript(_) => 2,
            Exit::Device(_) => 3,
        }
    }

    /// Flushes the report out of its buffer, and returns this end.
    ///
    /// It is `Device` if the report can't be written out. Without a report nothing is written.
    pub fn flushed<W: Write + Drop>(self, out: &mut BufWriter<W>) -> Exit
        ensures kept { Keeps (writer_contents W.contents out.old)
            (writer_contents W.contents out.new) }
        ensures answer { (result ≡ self) ⊎ (result ≡ Exit.Device Fault.Unwritable) }
        ensures none { exits.has_report self ≡ false → result ≡ self }
        ensures flushed { IsFlushedAt result (writer_buffer out.new) }
    {
        if !self.has_report() {
            return self;
        }
        match out.flush() {
            Ok(()) => self,
            Err(_) => Exit::Device(Fault::Unwritable),
        }
    }

    /// Returns `true` if a run that ended so wrote a report.
    fn has_report(self) -> bool
        ensures { result ≡ exits.has_report self }
    {
        match self {
            Exit::Complete | Exit::Incomplete | Exit::Device(Fault::NoMemory) => true,
            Exit::BadScript(_)
            | Exit::Device(
                Fault::Unreadable(_) | Fault::TooLong | Fault::Unwritable | Fault::NoMemoryAtStart,
            ) => false,
        }
    }
}

impl Fault {
    /// Writes the line that reports it on standard error, if there is one, for a run that reads
    /// from this input.
    pub fn tell(self, rt: &HostRuntime, input: Input<'_>) {
        let _ = match self {
            Fault::Unreadable(kind) => {
                eprintln!(rt; "error: cannot read {input}: {}", cause_text(kind))
            }
            Fault::TooLong => eprintln!(rt; "error: {input} is longer than 1,048,576 octets"),
            Fault::Unwritable => eprintln!(rt; "error: cannot write standard output"),
            Fault::NoMemory => eprintln!(rt; "error: out of memory"),
            Fault::NoMemoryAtStart => Ok(()),
        };
    }
}

impl From<AllocError> for Fault {
    ghost use Rattle.std.specs.Prelude.{◌≡◌};
    ghost use Rattle.cfdp_report.specs.declared.exit.Fault.TheVariants.{NoMemoryAtStart};

    ghost from_gives = { λ _ fault. fault ≡ NoMemoryAtStart };

    fn from(_error: AllocError) -> Fault {
        Fault::NoMemoryAtStart
    }
}
