// Which field of a configuration isn't as it must be.
ghost use Rattle.cfdp_station.specs.Config.{IsStationConfig};
ghost use Rattle.cfdp_station.specs.Fields.{Fits};

use crate::config::{LEAST_CAPACITY, MOST_CAPACITY, StationConfig};
use aos_frame::LinkField;
use cfdp_entity::EntityField;
use thiserror::Error;
use valid_config::Config;

/// A field of a [`StationConfig`](crate::StationConfig) that isn't as it must be.
#[derive(Clone, Copy, Debug, PartialEq, Eq, Error)]
pub enum StationField {
    /// A field of its entity.
    #[error("{0}")]
    Entity(EntityField),
    /// A field of the frames that it sends.
    #[error("frames sent: {0}")]
    Sends(LinkField),
    /// A field of the frames that it receives.
    #[error("frames received: {0}")]
    Receives(LinkField),
    /// The most octets of packets that may wait in each lane.
    #[error("capacity must be 8192 to 65536 octets")]
    Capacity,
}

impl Config for StationConfig {
    type Field = StationField;

    ghost IsValid = { IsStationConfig };

    ghost Fits = { Fits };

    fn amiss(&self) -> Option<StationField> {
        if let Some(field) = self.entity.amiss() {
            return Some(StationField::Entity(field));
        }
        if let Some(field) = self.sends.amiss() {
            return Some(StationField::Sends(field));
        }
        if let Some(field) = self.receives.amiss() {
            return Some(StationField::Receives(field));
        }
        if !(LEAST_CAPACITY..=MOST_CAPACITY).contains(&self.capacity) {
            return Some(StationField::Capacity);
        }
        None
    }
}
