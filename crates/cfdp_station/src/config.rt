ghost use Rattle.std.specs.Prelude.{◌≡◌};
ghost use Rattle.aos_frame.specs.Frame.{IsLink};
ghost use Rattle.cfdp_entity.specs.Config.{IsConfig};
ghost use Rattle.cfdp_station.specs.Config.{IsStationConfig};

use cfdp_entity::EntityConfig;
use link_stack::LinkConfig;

/// The least and the most octets of packets that may wait in a lane.
pub const LEAST_CAPACITY: usize = 8192;
/// The most octets, see [`LEAST_CAPACITY`].
pub const MOST_CAPACITY: usize = 65536;

/// How many octets of packets may wait in a lane if nothing else is set.
pub const DEFAULT_CAPACITY: usize = 16_384;

/// How a station is set up: its entity, and both directions of its link. It is valid only if these
/// are and the capacity is in its range.
#[derive(Clone, Copy, Debug, PartialEq, Eq)]
pub struct StationConfig {
    /// Who it is, to whom it sends, and how.
    pub entity: EntityConfig,
    /// The frames that it sends.
    pub sends: LinkConfig,
    /// The frames that it receives: what its peer has as `sends`.
    pub receives: LinkConfig,
    /// The most octets of packets that may wait in each lane: 8,192 to 65,536.
    pub capacity: usize,
}

impl StationConfig {
    /// Returns the configuration of a station with this entity, which sends and receives such
    /// frames; 16,384 octets of packets may wait in each lane.
    pub fn new(entity: EntityConfig, sends: LinkConfig, receives: LinkConfig) -> StationConfig
        ensures valid { IsConfig entity → IsLink sends → IsLink receives → IsStationConfig result }
        ensures is { result ≡ record {
          entity = entity;
          sends = sends;
          receives = receives;
          capacity = 16384;
        } }
    {
        StationConfig {
            entity,
            sends,
            receives,
            capacity: DEFAULT_CAPACITY,
        }
    }
}
