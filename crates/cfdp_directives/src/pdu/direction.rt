// Which way a PDU goes, and for whom it is.
ghost use Rattle.std.specs.Prelude.{◌≡◌, ◌↔◌, IsTrue};
ghost use Rattle.cfdp_directives.specs.Pdu.Content.{view};
ghost use Rattle.cfdp_directives.specs.Pdu.Direction as directions;

use crate::pdu::codes::Acknowledged;
use crate::pdu::content::Pdu;
use cfdp_header::{Direction, Header};

impl Pdu<'_> {
    /// Returns which way it goes: a Finished, a NAK, a Keep Alive and an ACK of EOF toward the
    /// file's sender, all others toward its receiver (CCSDS 727.0-B-5, table 5-1).
    pub fn direction(&self) -> Direction
        ensures { result ≡ directions.direction_of (view self.now) }
    {
        match self {
            Pdu::FileData { .. } | Pdu::Metadata { .. } | Pdu::Eof { .. } | Pdu::Prompt { .. } => {
                Direction::TowardReceiver
            }
            Pdu::Finished { .. } | Pdu::Nak { .. } | Pdu::KeepAlive { .. } => {
                Direction::TowardSender
            }
            Pdu::Ack { of, .. } => match of {
                Acknowledged::Eof => Direction::TowardSender,
                Acknowledged::Finished => Direction::TowardReceiver,
            },
        }
    }
}

/// Returns `true` if the direction bit of a header is right for what the PDU says. If it isn't, an
/// entity refuses the PDU.
pub fn direction_fits(header: &Header, pdu: &Pdu<'_>) -> bool
    ensures value { result ≡ directions.direction_fits header.now (view pdu.now) }
    ensures same { IsTrue result
        ↔ (header.now.direction ≡ directions.direction_of (view pdu.now)) }
{
    header.direction == pdu.direction()
}

/// Returns `true` if a PDU with this header is for the entity `own`, and comes from the entity
/// `peer`. The direction bit says which of them must be the file's sender, the header's source; the
/// other must be its receiver, the header's destination.
pub fn is_for(own: u64, peer: u64, header: &Header) -> bool
    ensures { result ≡ directions.is_for own peer header.now }
{
    match header.direction {
        Direction::TowardSender => header.id.source == own && header.destination == peer,
        Direction::TowardReceiver => header.id.source == peer && header.destination == own,
    }
}
