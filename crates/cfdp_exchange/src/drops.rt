//! Why a datagram that came was dropped, and how often.
use std::cell::Cell;
use thiserror::Error;

/// Why a datagram that came was dropped: nothing of it was given to the station.
#[derive(Clone, Copy, Debug, PartialEq, Eq, Error)]
pub enum CarrierDrop {
    /// It has no octet, or none of a PDU.
    #[error("a datagram is empty")]
    Empty,
    /// It has fewer octets than a packet's header, or than that says.
    #[error("a datagram ends before its packet")]
    Short,
    /// It has more octets than the packet's header says.
    #[error("a datagram continues after its packet")]
    Long,
    /// The packet version number is not 0.
    #[error("packet version number must be 0")]
    Version,
    /// The packet is of another APID than those that the station takes, or idle.
    #[error("a packet has another APID")]
    OtherApid,
    /// The packet is a segment of a longer one.
    #[error("a packet is a segment")]
    Segmented,
    /// The packet has a secondary header if none is set, or none if one is.
    #[error("a packet has a secondary header and none is set, or the other way round")]
    SecondaryHeader,
    /// The PDU is longer than any packet that the station's link has room for.
    #[error("a PDU is too long")]
    NoRoom,
}

impl CarrierDrop {
    /// All causes.
    pub const ALL: [CarrierDrop; 8] = [
        CarrierDrop::Empty,
        CarrierDrop::Short,
        CarrierDrop::Long,
        CarrierDrop::Version,
        CarrierDrop::OtherApid,
        CarrierDrop::Segmented,
        CarrierDrop::SecondaryHeader,
        CarrierDrop::NoRoom,
    ];

    /// Returns the name of the cause, in one word.
    pub fn name(self) -> &'static str {
        match self {
            CarrierDrop::Empty => "Empty",
            CarrierDrop::Short => "Short",
            CarrierDrop::Long => "Long",
            CarrierDrop::Version => "Version",
            CarrierDrop::OtherApid => "OtherApid",
            CarrierDrop::Segmented => "Segmented",
            CarrierDrop::SecondaryHeader => "SecondaryHeader",
            CarrierDrop::NoRoom => "NoRoom",
        }
    }
}

/// How often datagrams that came were dropped, for each cause. It is borrowed by the wire, which
/// counts, and by whoever reports to the operator.
#[derive(Drop)]
pub struct CarrierTally {
    // in the order of `CarrierDrop::ALL`
    counts: [Cell<u64>; 8],
}

impl CarrierTally {
    /// Returns a tally of no drops.
    pub fn new() -> CarrierTally {
        CarrierTally {
            counts: [
                Cell::new(0),
                Cell::new(0),
                Cell::new(0),
                Cell::new(0),
                Cell::new(0),
                Cell::new(0),
                Cell::new(0),
                Cell::new(0),
            ],
        }
    }

    /// Returns how often datagrams were dropped for this cause; it stays at the greatest `u64`.
    pub fn of(&self, cause: CarrierDrop) -> u64 {
        self.counts[cause as usize].get()
    }

    /// Counts one more for this cause.
    pub fn count(&self, cause: CarrierDrop) {
        let count = &self.counts[cause as usize];
        count.set(count.get().saturating_add(1));
    }
}
