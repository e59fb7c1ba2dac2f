//! A port: a station of CFDP, class 2 (CCSDS 727.0-B-5), on a wire of whoever uses it.
//!
//! A wire takes frames to the peer, and brings frames from it: a UDP socket, say, or a queue. It
//! may lose what it is given. A port is asked for files that it must send, and takes turns: it
//! gives its station the time, gives the wire the frames that leave, and the station those that
//! came.
//!
//! ```
//! let mut port = Port::new(alloc, Side::One, config, (outbox, inbox), wire)?;
//! port.put(b"a.txt", b"b.txt", &mut lookout)?;
//! loop {
//!     port.send(now, &mut lookout)?;
//!     port.receive(&mut lookout);
//! }
//! ```
//!
//! Tested by `tests/rows/folders.rows` and `tests/stations.py`, through the programs above.
#![tactic(auto)]

mod lookout;
mod losses;
mod lossy_wire;
mod pair;
mod passed;
mod peer_turn;
mod port;
mod showing;
mod turn;
mod wire;

pub use lookout::Lookout;
pub use losses::{FrameLosses, Losses};
pub use lossy_wire::LossyWire;
pub use pair::take_turns;
pub use passed::Passed;
pub use port::Port;
pub use station_pair::Side;
pub use wire::{PeerWire, Wire, WireFault};
