//! Two stations, reached by calls whose contracts say what each call did and no more.
//!
//! What is promised of a world, the delivery theorem first, holds whatever is done by these calls.
//! It stands in no goal of functions that take any `Stations`.
ghost use Rattle.std.specs.Prelude.{◌≡◌, ◌<◌, length, MatchOption};
ghost use Rattle.link_sim.specs.Calls.{TriesBurst, TriesEvent, TriesRecovery, TriesSettling};
ghost use Rattle.link_sim.specs.Calls.{TriesSpread};
ghost use Rattle.link_sim.specs.World.State.{WorldState, entity_at, lane_from};
ghost use Rattle.link_sim.specs.World.Steps.{NoneWaits, oldest_of};
ghost use Rattle.aos_frame.specs.declared.config.Lane.{Lane};

use crate::event::{Applied, Event};
use aos_frame::Lane;
use cfdp_directives::Indication;
use cfdp_store::Files;
use station_pair::{RecoverError, SettleError, Side};
use std::alloc::AllocError;

/// Two stations and the link between them, as a script or another user drives them.
pub trait Stations: Drop {
    /// Both stations, and the frames between them.
    ghost world: { Self → WorldState };

    /// Says which step of a script, or of another user, comes next: what happens is of it, until
    /// another is named. To the stations it does nothing.
    fn comes_to(&mut self, step: usize)
        ensures { world self.new ≡ world self.old };

    /// Lets one thing happen, and returns what it did.
    ///
    /// # Errors
    ///
    /// `AllocError` only if the memory for it was refused: nothing happened then.
    fn apply(&mut self, event: &Event) -> Result<Applied, AllocError>
        ensures { TriesEvent event.now result (world self.old) (world self.new) };

    /// Returns the lane of the frame that a station sent first, of all of its frames that wait, or
    /// `None` if none does.
    fn first_sent(&self, side: Side) -> Option<Lane>
        ensures { MatchOption result ((lane : Lane) → NoneWaits side lane (world self.now))
            (λ lane. length (lane_from side lane (world self.now)).marks
            < length (lane_from side lane (world self.now)).frames) };

    /// Returns the oldest frame that waits in a lane of what a station sent: the next one there
    /// that arrives, is lost or comes damaged. Returns `None` if none waits.
    fn oldest_frame(&self, side: Side, lane: Lane) -> Option<&[u8]>
        ensures { MatchOption result (NoneWaits side lane (world self.now))
            (λ frame. (length (lane_from side lane (world self.now)).marks
            < length (lane_from side lane (world self.now)).frames)
            × (frame.now ≡ oldest_of (lane_from side lane (world self.now)))) };

    /// Polls a station until nothing is due there, and flushes it after each PDU.
    ///
    /// # Errors
    ///
    /// `AllocError` only if the memory for an event was refused: that one didn't happen.
    fn spread(&mut self, side: Side) -> Result<(), AllocError>
        ensures { TriesSpread side result (world self.old) (world self.new) };

    /// Polls a station until nothing is due there, and flushes it once.
    ///
    /// # Errors
    ///
    /// `AllocError` only if the memory for an event was refused: that one didn't happen.
    fn burst(&mut self, side: Side) -> Result<(), AllocError>
        ensures { TriesBurst side result (world self.old) (world self.new) };

    /// Polls, flushes and delivers until nothing is due at either station and no frame waits.
    ///
    /// # Errors
    ///
    /// The errors of [`World::settle`](crate::World::settle).
    fn settle(&mut self) -> Result<(), SettleError>
        ensures { TriesSettling result (world self.old) (world self.new) };

    /// Settles, and gives stations the time and settles again, until no timer is armed except those
    /// of Inactivity.
    ///
    /// # Errors
    ///
    /// The errors of [`World::recover`](crate::World::recover).
    fn recover(&mut self) -> Result<(), RecoverError>
        ensures { TriesRecovery result (world self.old) (world self.new) };

    /// Returns what a station indicated to its user, in order.
    fn indications(&self, side: Side) -> &[Indication]
        ensures { result.now ≡ (entity_at side (world self.now)).table.told };

    /// Returns the files that a station received.
    fn received(&self, side: Side) -> &Files
        ensures { result.now ≡ (entity_at side (world self.now)).table.files };
}
