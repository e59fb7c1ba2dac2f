ghost use Rattle.std.specs.Prelude.{◌≡◌};
ghost use Rattle.station_pair.specs.Fields.{Fits};
ghost use Rattle.station_pair.specs.Stations.{IsWorldConfig, station_of};

use crate::side::Side;
use cfdp_station::{StationConfig, StationField};
use thiserror::Error;
use valid_config::{Config, Valid};

/// How both stations of a world are set up: each must be the other's peer, and must receive the
/// frames that the other sends.
#[derive(Clone, Copy, Debug, PartialEq, Eq)]
pub struct WorldConfig {
    /// The first station.
    pub one: StationConfig,
    /// The second station.
    pub two: StationConfig,
}

/// A field of a [`WorldConfig`] that isn't as it must be.
#[derive(Clone, Copy, Debug, PartialEq, Eq, Error)]
pub enum WorldField {
    /// A field of the first station.
    #[error("station 1: {0}")]
    One(StationField),
    /// A field of the second station.
    #[error("station 2: {0}")]
    Two(StationField),
    /// The ids of the peers.
    #[error("peer ids do not match")]
    Peers,
    /// The frames.
    #[error("links do not match: each station must receive the frames its peer sends")]
    Links,
}

impl Config for WorldConfig {
    type Field = WorldField;

    ghost IsValid = { IsWorldConfig };

    ghost Fits = { Fits };

    fn amiss(&self) -> Option<WorldField> {
        let (one, two) = (&self.one, &self.two);
        if let Some(field) = one.amiss() {
            return Some(WorldField::One(field));
        }
        if let Some(field) = two.amiss() {
            return Some(WorldField::Two(field));
        }
        if one.entity.entity != two.entity.peer || one.entity.peer != two.entity.entity {
            Some(WorldField::Peers)
        } else if one.sends != two.receives || one.receives != two.sends {
            Some(WorldField::Links)
        } else {
            None
        }
    }
}

impl WorldConfig {
    /// Returns the configuration of one of both stations.
    pub fn station(config: Valid<WorldConfig>, side: Side) -> Valid<StationConfig>
        ensures { result ≡ station_of side config }
    {
        let config = config.get();
        match side {
            Side::One => Valid::known(config.one),
            Side::Two => Valid::known(config.two),
        }
    }
}
