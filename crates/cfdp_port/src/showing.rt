//! Single steps of a station, each with what one who looks on is shown of it.
ghost use Rattle.std.specs.Prelude.{◌≡◌, OnErr, OnOk};
ghost use Rattle.cfdp_station.specs.Station.{KeepsLink};
ghost use Rattle.cfdp_station.specs.Taking.{TakesFrame};
ghost use Rattle.cfdp_port.specs.Shown.{Polled as WasPolled, Ticked, Took};
ghost use Rattle.cfdp_port.specs.Turn.{TellsTime};

use crate::lookout::Lookout;
use crate::passed::Passed;
use cfdp_station::{PollWatch, Polled, Station};
use cfdp_store::{Inbox, Outbox};
use station_pair::Side;
use std::alloc::AllocError;

/// Gives a station the time, and shows that.
///
/// # Errors
///
/// `AllocError` if the station finds no memory for it: nothing changed then.
pub(crate) fn tick<O: Outbox, I: Inbox, L: Lookout>(
    now: u64,
    side: Side,
    station: &mut Station<O, I>,
    lookout: &mut L,
) -> Result<(), AllocError>
    ensures told { OnOk result (TellsTime now station.old station.new) }
    ensures err { OnErr result (station.new ≡ station.old) }
    ensures link { KeepsLink station.old station.new }
    ensures shown { OnOk result (L.shows lookout.old side (Ticked now) lookout.new) }
    ensures unshown { OnErr result (lookout.new ≡ lookout.old) }
{
    station.tick(now)?;
    lookout.sees(side, Passed::Ticked(now), station);
    Ok(())
}

/// Gives a station what came, and shows that.
pub(crate) fn take<O: Outbox, I: Inbox, L: Lookout>(
    side: Side,
    station: &mut Station<O, I>,
    octets: &[u8],
    lookout: &mut L,
)
    ensures takes { TakesFrame octets.now station.old station.new }
    ensures shown { L.shows lookout.old side (Took octets.now) lookout.new }
{
    station.receive(octets);
    lookout.sees(side, Passed::Took(octets), station);
}

/// One who is shown the polls of a station by what each answered.
#[derive(Drop)]
pub(crate) struct ShownPolls<'a, L: Lookout> {
    pub(crate) side: Side,
    pub(crate) lookout: &'a mut L,
}

impl<L: Lookout> PollWatch for ShownPolls<'_, L> {
    ghost shows = { λ x answer y. L.shows x.lookout.now x.side (WasPolled answer) y.lookout.now };

    fn polled<O: Outbox, I: Inbox>(&mut self, answer: Polled, station: &Station<O, I>) {
        self.lookout
            .sees(self.side, Passed::Polled(answer), station);
    }
}
