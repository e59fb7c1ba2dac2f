//! How a station is set up towards its peer: how fast it sends, how long it waits, and the link.
use crate::carrier::Carrier;
use crate::unit::Unit;
use cfdp_exchange::Beacon;
use cfdp_station::{Lane, LinkConfig};

/// The octets of a datagram for which room is asked beside those of its frame.
const DATAGRAM_COST: u64 = 768;

/// The most octets for which room is asked.
const MOST_ROOM: u64 = 4 << 20;

/// The octets of the longest packet that leaves: 6 of its primary header, up to 63 of a secondary
/// one, and a PDU of at most 4,134, with a CRC.
const MOST_PACKET: usize = 4203;

/// How long a wire waits for its peer, how fast it sends, and the link.
#[derive(Clone, Copy)]
pub struct Pace {
    /// The most frames in a second; 0 for any number.
    pub rate: u64,
    /// After this number of seconds in which nothing came and nothing was open it is silent; if it
    /// is 0, never.
    pub idle: u64,
    /// The frames that it sends, and those that it takes.
    pub sends: LinkConfig,
    pub receives: LinkConfig,
    /// What a datagram is.
    pub carrier: Carrier,
    /// What it says to its peer of how it is set up.
    pub beacon: Beacon,
    /// The unit of the time that it gives to the station.
    pub unit: Unit,
}

impl Pace {
    /// Returns the octets of the longest datagram that leaves.
    pub fn most_octets(&self) -> usize {
        match self.carrier {
            Carrier::Frames => frame_len(&self.sends).max(frame_len(&self.receives)),
            Carrier::Packets(_) | Carrier::Pdus => MOST_PACKET,
        }
    }

    /// Returns how many octets of room are asked of the system for what may come before it is
    /// taken: a second's frames at the rate, or 4 MiB.
    pub fn room(&self) -> u32 {
        let frames = if self.rate == 0 {
            u64::MAX
        } else {
            self.rate.max(64)
        };
        let octets = DATAGRAM_COST.saturating_add(self.most_octets() as u64);
        frames.saturating_mul(octets).min(MOST_ROOM) as u32
    }

    /// Returns `true` if a datagram is of the link. A frame looks like one that carries packets: it
    /// has the length and one of both channels. Otherwise there must be a PDU in it that is for the
    /// station.
    pub fn is_of_link(&self, datagram: &[u8]) -> bool {
        if let Some(carrier) = self.carrier.of_pdus() {
            return carrier.pdu_in(self.receives.apid, datagram).is_ok();
        }
        let link = &self.receives;
        match datagram.get(1) {
            Some(octet) => {
                let virtual_channel = octet & 63;
                datagram.len() == frame_len(link)
                    && (virtual_channel == link.virtual_channel
                        || virtual_channel == link.data_virtual_channel)
            }
            None => false,
        }
    }
}

/// Returns the octets of each frame of a link, with its fields.
pub fn frame_len(link: &LinkConfig) -> usize {
    link.lane(Lane::Directives).frame_len()
}
