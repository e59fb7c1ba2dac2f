//! The datagrams between a station and its peer: what one carries, and the wire that they go over,
//! which keeps the rate, waits if there is nothing to do, and sends and receives beacons. A
//! [`Transport`] takes them to the peer: a UDP socket. The keeper of a secured wire, which notes
//! accepted numbers in the station's state file.
//!
//! Tested by `tests/rows/stations.rows`, `tests/stations.py` and `tests/relay.py`, through the
//! program above.
#![tactic(auto)]

mod beacons;
mod came;
mod carrier;
mod datagram_wire;
mod fate;
mod keeper;
mod kept_datagram;
mod link_clock;
mod machine_clock;
mod pace;
mod paced_transport;
mod pacer;
mod reports;
mod reserving;
mod sending;
mod shared_numbers;
mod silence;
mod station_clock;
mod transport;
mod turn_limits;
mod udp_transport;
mod unit;
mod waiting;

pub use carrier::{Carrier, CarrierWire, PacketForm, PduCarrier};
pub use datagram_wire::DatagramWire;
pub use keeper::StationKeeper;
pub use pace::{Pace, frame_len};
pub use pacer::{Pacer, a_rate_is_kept};
pub use shared_numbers::SharedNumbers;
pub use transport::Transport;
pub use udp_transport::{UdpTransport, Unusable};
pub use unit::Unit;
