//! A log that is written, and whose last lines are kept for the console.
ghost use Rattle.std.specs.Prelude.{◌≡◌, IfOk, OnErr, OnOk, take};
ghost use Rattle.std.specs.Io.{WritesAtMost};
ghost use Rattle.std.specs.Io.KnownBytes.{Appends, Keeps, WriteAppends};
ghost use Rattle.cfdp_log.specs.Kept.{KeepsOctets};

use cfdp_console::LogLines;
use std::io;
use std::io::Write;

/// A writer after which the last lines of what was written are kept, if that is asked for.
#[derive(Drop)]
pub struct KeptLog<V: Write + Drop> {
    out: V,
    lines: Option<LogLines>,
}

impl<V: Write + Drop> KeptLog<V> {
    /// Returns a log over this writer; if lines are given, what is written is added to these.
    pub fn new(out: V, lines: Option<LogLines>) -> KeptLog<V>
        ensures out { result.out ≡ out }
        ensures lines { result.lines ≡ lines }
    {
        KeptLog { out, lines }
    }

    /// Returns the last lines, if they are kept.
    pub fn lines(&self) -> Option<&LogLines> {
        self.lines.as_ref()
    }

    /// Borrows the writer.
    pub fn inner(&self) -> &V {
        &self.out
    }

    /// Writes what is no line of the log, such as an answer to a command: it isn't kept.
    ///
    /// # Errors
    ///
    /// That of the writer.
    pub fn says(&mut self, octets: &[u8]) -> io::Result<()>
        ensures written { OnOk result (Appends (V.contents self.old.out) (V.contents self.new.out)
            octets.now) }
        ensures kept { self.new.lines ≡ self.old.lines }
    {
        self.out.write_all(octets)
    }

    /// Returns the writer.
    pub fn into_inner(self) -> V {
        self.out
    }
}

impl<V: Write + Drop> Write for KeptLog<V> {
    ghost contents = { λ log. V.contents log.out };

    fn write(&mut self, octets: &[u8]) -> io::Result<usize>
        ensures bound { WritesAtMost result octets.now }
        ensures bytes { WriteAppends (V.contents self.old.out) (V.contents self.new.out) result
            octets.now }
        ensures kept { IfOk result (λ n. KeepsOctets (take n octets.now) self.old.lines
            self.new.lines) }
        ensures err { OnErr result (self.new.lines ≡ self.old.lines) }
    {
        let len = self.out.write(octets)?;
        keeps(&mut self.lines, &octets[..len]);
        Ok(len)
    }

    fn flush(&mut self) -> io::Result<()>
        ensures bytes { Keeps (V.contents self.old.out) (V.contents self.new.out) }
        ensures kept { self.new.lines ≡ self.old.lines }
    {
        self.out.flush()
    }
}

/// Adds these octets to the last lines, if they are kept.
fn keeps(lines: &mut Option<LogLines>, octets: &[u8])
    ensures { KeepsOctets octets.now lines.old lines.new }
{
    if let Some(lines) = lines {
        lines.adds(octets);
    }
}
