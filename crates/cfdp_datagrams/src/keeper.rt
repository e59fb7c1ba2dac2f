//! What keeps the numbers of a station's secured wire, and brings its keys.
use crate::shared_numbers::SharedNumbers;
use cfdp_exchange::Exchange;
use frame_security::{FrameRefusal, LinkKeys};
use secured_wire::Keeper;

/// The keeper of a station's secured wire. It notes accepted numbers in the state file, brings the
/// keys that the operator has read again, and counts what is refused.
#[derive(Drop)]
pub struct StationKeeper<'a, 'n> {
    numbers: &'a SharedNumbers<'n>,
    exchange: &'a Exchange,
}

impl<'a, 'n> StationKeeper<'a, 'n> {
    /// Returns the keeper of a station with these numbers.
    pub fn new(numbers: &'a SharedNumbers<'n>, exchange: &'a Exchange) -> StationKeeper<'a, 'n> {
        StationKeeper { numbers, exchange }
    }
}

impl Keeper for StationKeeper<'_, '_> {
    fn keeps(&mut self, number: u64) -> bool {
        let stop = self.numbers.accepts(number).err();
        self.exchange.no_accepting.set(stop);
        stop.is_none()
    }

    fn new_keys(&mut self) -> Option<LinkKeys> {
        self.exchange.new_keys.take()
    }

    /// Counts the refusal. Unless it is a replay or damage, the peer may be set up otherwise: it is
    /// sent a beacon.
    fn refuses(&mut self, cause: FrameRefusal) {
        self.exchange.refused.count(cause);
        if matches!(
            cause,
            FrameRefusal::Short | FrameRefusal::UnknownSpi | FrameRefusal::NotAuthentic
        ) {
            self.exchange.differs.set(true);
        }
    }
}
