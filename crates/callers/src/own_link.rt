//! How a program drives a station over a link of its own. README.md shows the turn.
use cfdp_station::{
    Config, EntityConfig, FrameFields, Inbox, LinkConfig, Outbox, Station, StationConfig,
    StationField,
};
use std::alloc::{AllocError, Global};

/// A link that a program has.
pub trait Link {
    /// Sends a frame to the other station.
    fn send(&mut self, frame: &[u8]);

    /// Returns the next frame that came from there, if there is one.
    fn receive(&mut self) -> Option<Vec<u8>>;
}

/// Why there is no station.
#[derive(Drop)]
pub enum NoStation {
    /// A field of its configuration isn't as it must be.
    Field(StationField),
    /// There is no memory for it.
    Memory(AllocError),
}

impl From<StationField> for NoStation {
    fn from(field: StationField) -> NoStation {
        NoStation::Field(field)
    }
}

impl From<AllocError> for NoStation {
    fn from(error: AllocError) -> NoStation {
        NoStation::Memory(error)
    }
}

/// Returns the station of entity 1, whose peer is entity 2. The other station must have the same
/// with both ids exchanged, and what is `sends` here as its `receives`.
pub fn default_station<O: Outbox, I: Inbox>(
    alloc: Global,
    outbox: O,
    inbox: I,
) -> Result<Station<O, I>, NoStation> {
    let sends = LinkConfig {
        spacecraft: 42,
        virtual_channel: 1,
        data_virtual_channel: 3,
        zone: 1024,
        apid: 100,
        fields: FrameFields::NONE,
    };
    let receives = LinkConfig {
        virtual_channel: 2,
        data_virtual_channel: 4,
        ..sends
    };
    let config = StationConfig::new(EntityConfig::new(1, 2), sends, receives).validate()?;
    let station = Station::new(alloc, config, outbox, inbox)?;
    Ok(station)
}

/// Does one turn of a station: gives it the time, passes on a received frame, if there is one, and
/// sends the next frame that is due, if one is.
pub fn turn<O: Outbox, I: Inbox, L: Link>(
    station: &mut Station<O, I>,
    link: &mut L,
    frame: &mut Vec<u8>,
    now: u64,
) -> Result<(), AllocError> {
    station.tick(now)?;
    if let Some(frame) = link.receive() {
        station.receive(&frame);
    }
    if station.transmit(frame)?.is_some() {
        link.send(frame);
    }
    Ok(())
}
