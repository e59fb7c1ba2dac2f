//! The clock of the machine.
use std::io;
use std::time::Instant;

/// The clock of the machine, from a start on.
#[derive(Clone, Copy)]
pub struct MachineClock<'a> {
    rt: &'a HostRuntime,
    start: Instant,
}

impl<'a> MachineClock<'a> {
    /// Returns the clock, which starts now.
    ///
    /// # Errors
    ///
    /// The error of the system, if the clock can't be read.
    pub fn start(rt: &'a HostRuntime) -> io::Result<MachineClock<'a>> {
        Ok(MachineClock {
            rt,
            start: Instant::now(rt)?,
        })
    }

    /// Returns the time in nanoseconds since the start; `otherwise` if the clock can't be read.
    pub fn since_start(&self, otherwise: u64) -> u64 {
        match self.start.elapsed(self.rt) {
            Ok(since) => u64::try_from(since.as_nanos()).unwrap_or(u64::MAX),
            Err(_) => otherwise,
        }
    }
}
