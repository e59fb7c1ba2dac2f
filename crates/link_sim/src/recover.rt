//! Recovery: settling, and letting timers fire, by turns.
ghost use Rattle.std.specs.Prelude.{◌≡◌, ◌≢◌, ◌∷◌, [], true, false, IfErr, IfOk, MatchOption, OnOk};
ghost use Rattle.link_sim.specs.Calls.{TriesRecovery, Upholds};
ghost use Rattle.cfdp_timers.specs.ButInactivity.{OnlyInactivity};
ghost use Rattle.cfdp_directives.specs.User.Put.{Put};
ghost use Rattle.cfdp_header.specs.declared.value.TransactionId.{TransactionId};
ghost use Rattle.link_sim.specs.EveryPut.{KeepsPuts};
ghost use Rattle.link_sim.specs.Found.{ExpiresOn, HasExchange};
ghost use Rattle.link_sim.specs.Observed.{seen};
ghost use Rattle.link_sim.specs.Recovering.{AreRounds, IsNext, IsRecovered, Round, RoundEnds};
ghost use Rattle.link_sim.specs.Recovering.{TellsNext, TickEnds, armed_at};
ghost use Rattle.link_sim.specs.Runs.{Exchange};
ghost use Rattle.link_sim.specs.Settling.{IsSettled, LeadsTo};
ghost use Rattle.link_sim.specs.Sound.{IsSound};
ghost use Rattle.link_sim.specs.Stages.{IsAtRest};
ghost use Rattle.link_sim.specs.Tracks.{Advances, KeepsPutsOf};
ghost use Rattle.link_sim.specs.Waiting.{AllWait, IgnoreInactivity, IsCompleted, IsUnfinished};
ghost use Rattle.station_pair.specs.declared.recover_error.RecoverError.TheVariants as errors;
ghost use Rattle.station_pair.specs.declared.side.Side.{Side};

use crate::event::Event;
use crate::shortages::shortage_since;
use crate::witness::Witness;
use crate::world::World;
use cfdp_store::{Inbox, SteadyOutbox};
use station_pair::{RecoverError, SettleError, Side};

/// The most rounds of a recovery: three for each record that two full tables hold.
const MOST_ROUNDS: u32 = 24_576;

impl<O: SteadyOutbox, I: Inbox, W: Witness> World<O, I, W> {
    /// Lets both stations make up for what was lost, without any further loss, until at neither a
    /// timer is armed except those of Inactivity.
    ///
    /// It settles, and then goes by rounds, 24,576 at most. In a round a station that has another
    /// timer armed is given the earliest deadline of such timers as the time, the first station if
    /// both have one; then all is settled again. Nothing is put, struck or cancelled.
    ///
    /// If both stations ignore inactivity, and each transaction that isn't finished waits below its
    /// limits, neither cancelled nor suspended, all of these are complete in the end, whatever was
    /// lost before (CCSDS 727.0-B-5, 4.6.4 and 4.7).
    ///
    /// # Errors
    ///
    /// `Settle`: what ends a settling happened, at the first event in which it did, be it of a
    /// settling or of a time that was given. `StillArmed`: such a timer is left after all rounds.
    /// The world is as the events up to then left it.
    pub fn recover(&mut self) -> Result<(), RecoverError>
        // Only settlings and such ticks happened, or an error says what ended them; and the
        // promises hold.
        ensures tries { TriesRecovery result self.old self.new }
        ensures upholds { Upholds self.old self.new }
        // From a world in which both stations ignore inactivity and each unfinished transaction
        // waits below its limits: these are complete and closed at both ends, and no timer is left.
        ensures completes { OnOk result (IgnoreInactivity self.old × AllWait self.old
            → (id : TransactionId) → IsUnfinished id self.old → IsCompleted id self.new) }
        ensures ends { IfErr result (λ error. IgnoreInactivity self.old × AllWait self.old
            → error ≢ errors.StillArmed) }
    {
        self.show_what_holds();
        self.show_what_is_kept();
        self.settle_on()?;
        self.show_rest();
        for _round in 0..MOST_ROUNDS {
            if !self.recover_round()? {
                return Ok(());
            }
        }
        self.show_what_is_kept();
        match self.next_tick() {
            None => Ok(()),
            Some(_) => Err(RecoverError::StillArmed),
        }
    }

    /// Goes through one round, if a timer is armed other than Inactivity: returns whether one was.
    fn recover_round(&mut self) -> Result<bool, SettleError>
        requires settled { IsSettled self.old }
        ensures leads { LeadsTo (seen self.old) (seen self.new) }
        ensures round { IfOk result (λ was. was ≡ true
            → (r : Round) × AreRounds (r ∷ []) self.old self.new
            × (IgnoreInactivity self.old → Advances self.old self.new)) }
        ensures recovered { IfOk result (λ was. was ≡ false → IsRecovered self.new) }
        ensures same { IfOk result (λ was. was ≡ false → self.new ≡ self.old) }
        ensures kept { IfOk result (λ was. was ≡ false → IsSound self.new × KeepsPuts self.new) }
        ensures ends { IfErr result (λ error. RoundEnds error self.old self.new) }
    {
        self.show_what_is_kept();
        let Some((side, now)) = self.next_tick() else {
            return Ok(false);
        };
        self.tell(side, now)?;
        self.settle_on()?;
        self.show_rest();
        Ok(true)
    }

    /// Returns the station that is given the time next, and that time; `None` if only Inactivity is
    /// armed.
    fn next_tick(&self) -> Option<(Side, u64)>
        ensures { MatchOption result ((s : Side) → OnlyInactivity (armed_at s self.now))
            (λ next. IsNext next.0 next.1 self.now) }
    {
        if let Some(now) = self.station(Side::One).next_deadline() {
            return Some((Side::One, now));
        }
        let now = self.station(Side::Two).next_deadline()?;
        Some((Side::Two, now))
    }

    /// Gives a station the time.
    fn tell(&mut self, side: Side, now: u64) -> Result<(), SettleError>
        requires next { IsNext side now self.old }
        ensures leads { LeadsTo (seen self.old) (seen self.new) }
        ensures tells { OnOk result (TellsNext side now self.old self.new) }
        // Timers expired that were waited for, and puts stayed.
        ensures expires { OnOk result (ExpiresOn side now self.old self.new
            × KeepsPutsOf self.old self.new) }
        ensures ends { IfErr result (λ error. TickEnds error side now self.old self.new) }
    {
        let before = self.shortages();
        let Ok(_applied) = self.happen(&Event::Tick { at: side, now }) else {
            return Err(SettleError::NoMemory);
        };
        if let Some(error) = shortage_since(&before, &self.shortages()) {
            return Err(error);
        }
        Ok(())
    }

    /// Shows what every world keeps.
    fn show_what_is_kept(&self)
        ensures { IsSound self.now × KeepsPuts self.now }
    {
        // For the prover: the invariant.
        let _ = &self.stations;
    }

    /// Shows that in a settled world each transaction is at rest.
    fn show_rest(&self)
        ensures { IsSettled self.now → (s : Side) (put : Put) (e : Exchange)
            → HasExchange s put self.now e → IsAtRest e }
    {
        self.stations.show_rest();
    }
}
