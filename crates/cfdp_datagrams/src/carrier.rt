//! What a datagram between a station and its peer carries: an AOS frame, a Space Packet, or a PDU.
//!
//! A station sends and takes AOS frames. If its peer knows no frames, a [`CarrierWire`] lies
//! between the station's port and the wire of datagrams: of the frames that leave it takes the
//! PDUs, and each of them leaves in a datagram of its own; of the datagrams that come it makes the
//! frames in which the peer's PDUs would have come. So the station, and all that is proved of it,
//! stay as they are.
ghost use Rattle.std.specs.Prelude.{◌≡◌};
ghost use Rattle.cfdp_datagrams.specs.CarrierWire.{pdu_carrier};

pub mod datagram;
pub mod wire;

pub use datagram::{PacketForm, PduCarrier};
pub use wire::CarrierWire;

/// What a datagram is.
#[derive(Clone, Copy, Debug, PartialEq, Eq)]
pub enum Carrier {
    /// An AOS frame (CCSDS 732.0-B-4).
    Frames,
    /// A Space Packet (CCSDS 133.0-B-2) with one PDU.
    Packets(PacketForm),
    /// A PDU (CCSDS 727.0-B-5).
    Pdus,
}

impl Carrier {
    /// Returns how a datagram has one PDU; `None` if it is a frame, which may have parts of
    /// several.
    pub fn of_pdus(self) -> Option<PduCarrier>
        ensures { result ≡ pdu_carrier self }
    {
        match self {
            Carrier::Frames => None,
            Carrier::Packets(form) => Some(PduCarrier::Packets(form)),
            Carrier::Pdus => Some(PduCarrier::Pdus),
        }
    }
}
