//! One who looks on while stations exchange frames over wires.
ghost use Rattle.station_pair.specs.declared.side.Side.{Side as Of};
ghost use Rattle.cfdp_port.specs.Shown.{Shown, shown};

use crate::passed::Passed;
use cfdp_station::Station;
use cfdp_store::{Inbox, Outbox};
use station_pair::Side;

/// One who looks on at stations, which it borrows: so it can change nothing there.
pub trait Lookout {
    /// What it may do if it is shown something: this leads from one state of it to another.
    ghost shows: { Self → Of → Shown → Self → Type 0 } = { λ _ _ _ _. Unit {0} };

    /// Hears that the turn of this number begins: what it sees from here on is of it.
    fn begins(&mut self, turn: u64);

    /// Sees what passed at a station, and the station after that.
    fn sees<O: Outbox, I: Inbox>(&mut self, side: Side, passed: Passed<'_>, station: &Station<O, I>)
        ensures { shows self.old side (shown passed.entry) self.new };

    /// Hears that so many turns were taken, if these are all that may be, and the transaction isn't
    /// over.
    fn runs_out(&mut self, _turns: u64) {}

    /// Hears that lines are about to be written: what it shows on a terminal gives way to them.
    fn yields(&mut self);

    /// Hears that no more passes.
    fn ends(&mut self);
}

/// Nobody looks on.
impl Lookout for () {
    fn begins(&mut self, _turn: u64) {}

    fn sees<O: Outbox, I: Inbox>(
        &mut self,
        _side: Side,
        _passed: Passed<'_>,
        _station: &Station<O, I>,
    ) {}

    fn yields(&mut self) {}

    fn ends(&mut self) {}
}
