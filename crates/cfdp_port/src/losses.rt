//! Which of the frames that a station sends are lost, to try what losses do.
ghost use Rattle.std.specs.Prelude.{◌≡◌, ◌==◌, Bool, false, true};
ghost use Rattle.cfdp_port.specs.Lossy.{LosesNext, LossState, drawn, generator_after};
ghost use Rattle.cfdp_port.specs.Lossy.{generator_at, generator_of_seed, is_in_share, next_left};

use rand_core::utils::NextWord;
use rand_pcg::Pcg32;
use std::cell::Cell;
use std::marker::Model;

/// The stream of the random generator: that of PCG's reference.
const GENERATOR_STREAM: u64 = 721347520444481703;

/// What decides of each frame that a station sends if it is lost.
pub trait Losses: Drop {
    /// What a question may do: it leads from one state, with its answer, to another. An
    /// implementation says by it which frames are lost, or nothing.
    ghost loses: { Self → Bool → Self → Type 0 } = { λ _ _ _. Unit {0} };

    /// Returns `true` if the next frame is lost. It counts as one that was sent.
    fn is_next_lost(&mut self) -> bool
        ensures { loses self.old result self.new };
}

/// Losses of each Nth frame, and of a share of all frames at random.
#[derive(Clone, Copy)]
pub struct FrameLosses {
    /// One frame of this many is lost; 0 if none is.
    every: u64,
    /// How many frames it is to the next Nth one.
    left: u64,
    /// How many of a hundred are lost at random.
    percent: u32,
    /// The state of the random generator.
    generator: u64,
}

impl Model for FrameLosses {
    ghost use Rattle.cfdp_port.specs.Lossy.{LossState};

    ghost Value = { LossState };

    ghost view = { λ l. record {
      every = l.every;
      left = l.left;
      percent = l.percent;
      generator = l.generator;
    } };

    ghost inverse = { λ l. record {
      every = l.every;
      left = l.left;
      percent = l.percent;
      generator = l.generator;
    } };
}

impl FrameLosses {
    /// Returns losses of each frame of that number, from the next one on, or of none if it is 0;
    /// and of so many of a hundred at random: none if it is 0, all if it is at least 100. With the
    /// same seed the same frames are lost.
    pub fn new(every: u64, percent: u32, seed: u64) -> Self
        ensures { result ≡ record {
          every = every;
          left = every;
          percent = percent;
          generator = generator_of_seed seed;
        } }
    {
        FrameLosses {
            every,
            left: every,
            percent,
            generator: Pcg32::new(seed, GENERATOR_STREAM).state(),
        }
    }

    /// Returns `true` if the next frame is the Nth one. It is counted.
    fn is_next_counted(&mut self) -> bool
        ensures lost { result ≡ (self.old.left == 1) }
        ensures left { self.new.left ≡ next_left self.old.every self.old.left }
        ensures every { self.new.every ≡ self.old.every }
        ensures percent { self.new.percent ≡ self.old.percent }
        ensures generator { self.new.generator ≡ self.old.generator }
    {
        if self.left == 1 {
            self.left = self.every;
            true
        } else {
            self.left = self.left.saturating_sub(1);
            false
        }
    }

    /// Returns `true` if the next random number is in the share of those by which a frame is lost.
    fn is_next_drawn(&mut self) -> bool
        ensures lost { result ≡ is_in_share self.old.percent (drawn self.old.generator) }
        ensures none { self.old.percent ≡ 0 → result ≡ false }
        ensures all { self.old.percent ≡ 100 → result ≡ true }
        ensures generator { self.new.generator ≡ generator_after self.old.generator }
        ensures percent { self.new.percent ≡ self.old.percent }
        ensures every { self.new.every ≡ self.old.every }
        ensures left { self.new.left ≡ self.old.left }
    {
        let mut generator = Pcg32::from_state(self.generator, GENERATOR_STREAM);
        let number = generator.next_word();
        self.generator = generator.state();
        u64::from(number) * 100 < u64::from(self.percent) << 32
    }
}

impl Losses for FrameLosses {
    ghost loses = { LosesNext };

    /// Returns `true` if it is the Nth one, or by a random number. If it is 0 percent, only the Nth
    /// ones are lost, and if it is 100, all are.
    fn is_next_lost(&mut self) -> bool
        ensures loses { LosesNext self.old result self.new }
        ensures counted { self.old.percent ≡ 0 → result ≡ (self.old.left == 1) }
        ensures all { self.old.percent ≡ 100 → result ≡ true }
    {
        let is_counted = self.is_next_counted();
        let is_drawn = self.is_next_drawn();
        is_counted || is_drawn
    }
}

/// Losses that several wires share: they count the frames of all of them, in the order in which
/// these are sent. No clause says what a cell holds, so none says which frames are lost.
impl<'a> Losses for &'a Cell<FrameLosses> {
    fn is_next_lost(&mut self) -> bool {
        let mut losses = self.get();
        let is_lost = losses.is_next_lost();
        self.set(losses);
        is_lost
    }
}
