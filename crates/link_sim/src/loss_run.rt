//! Frames struck in a row.
ghost use Rattle.std.specs.Prelude.{◌≡◌, ◌+◌, ◌<◌, ◌≤◌, ◌↔◌, true, false};
ghost use Rattle.link_sim.specs.FrameLink.{most_struck};

use aos_frame::FRAME_COUNTS;
use std::marker::Model;

/// The most frames that may be struck in a row: one fewer than there are frame counts. One more
/// would be taken for none.
pub const MOST_STRUCK: u32 = FRAME_COUNTS - 1;

/// How many of the last frames taken were struck in a row: at most [`MOST_STRUCK`].
#[derive(Debug, Drop)]
pub struct LossRun {
    run: u32,
}

impl Model for LossRun {
    ghost use Rattle.std.specs.Prelude.{ℕ, ◌≤◌};
    ghost use Rattle.link_sim.specs.FrameLink.{most_struck};

    ghost Value = { ℕ };

    ghost view = { λ r. r.run };

    ghost invariant = { λ r. r.run ≤ most_struck };
}

impl LossRun {
    /// Makes a run in which none was struck.
    pub fn new() -> Self
        ensures { result ≡ 0 }
    {
        LossRun { run: 0 }
    }

    /// Makes a run in which so many were struck, which must be at most [`MOST_STRUCK`].
    pub fn from(run: u32) -> Self
        requires { run ≤ most_struck }
        ensures { result ≡ run }
    {
        LossRun { run }
    }

    /// Counts one more that is struck. Returns `false` if as many were as may be: nothing changed
    /// then.
    pub fn strike(&mut self) -> bool
        ensures may { (result ≡ true) ↔ (self.old < most_struck) }
        ensures long { (result ≡ false) ↔ (self.old ≡ most_struck) }
        ensures more { result ≡ true → self.new ≡ self.old + 1 }
        ensures kept { result ≡ false → self.new ≡ self.old }
    {
        if self.run == MOST_STRUCK {
            return false;
        }
        self.run += 1;
        true
    }

    /// Ends the run, since one was delivered.
    pub fn deliver(&mut self)
        ensures { self.new ≡ 0 }
    {
        self.run = 0;
    }
}
