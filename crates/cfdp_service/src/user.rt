//! Whoever a station serves.
ghost use Rattle.std.specs.Prelude.{◌≡◌};
ghost use Rattle.cfdp_service.specs.Calls.{UserCall, Answered, Asks, Ends, Hears, Intends};

use crate::wish::{Reply, Wish};
use cfdp_directives::Indication;
use cfdp_station::Station;
use cfdp_store::{Inbox, Outbox};

/// What a user intends.
#[derive(Clone, Copy, PartialEq, Eq)]
pub enum Intent {
    /// It may wish for more: the station goes on.
    GoOn,
    /// It has all that it wished for: the station ends if its transactions are over and its peer
    /// is silent.
    End,
    /// The station ends at once.
    Halt,
}

/// The user of a station (CCSDS 727.0-B-5, 1.4): it issues requests, and hears what the station
/// indicates. It borrows the station as it is asked, so that it can look at what it has.
pub trait User: Drop {
    /// What a call may do: it leads from one state of the user, with its arguments and its answer,
    /// to another. A user says by it what is true of this user alone, or nothing.
    ghost steps: { Self → UserCall → Self → Type 0 } = { λ _ _ _. Unit {0} };

    /// Returns what it wishes next; `None` if it wishes nothing more before the next turn.
    fn asks<O: Outbox, I: Inbox>(&mut self, station: &Station<O, I>) -> Option<Wish>
        ensures { steps self.old (Asks result) self.new };

    /// Hears how the wish was answered that it had last.
    fn answered(&mut self, reply: Reply)
        ensures { steps self.old (Answered reply) self.new };

    /// Hears what the station indicates.
    fn hears(&mut self, indication: &Indication)
        ensures { steps self.old (Hears indication.now) self.new };

    /// Returns what it intends. It must be asked once before each turn, when it has heard all.
    fn intends(&mut self) -> Intent
        ensures { steps self.old (Intends result) self.new };

    /// Hears that there was no memory for all of the last turn. What it wishes next may release
    /// some.
    fn runs_short(&mut self)
        ensures { self.new ≡ self.old };

    /// Hears that the station has ended, which it borrows for the last time.
    fn ends<O: Outbox, I: Inbox>(&mut self, station: &Station<O, I>)
        ensures { steps self.old Ends self.new };
}
