//! Which field of a caller's configuration isn't as it must be.
ghost use Rattle.std.specs.Prelude.{◌≡◌, ◌≤◌};
ghost use Rattle.cfdp_c.specs.Codes as codes;

use cfdp_station::{EntityField, LinkField, StationField};

/// A field of a [`CfdpConfig`](crate::CfdpConfig) that isn't as it must be.
#[derive(Clone, Copy)]
pub enum BadField {
    /// One that the station's own configuration has.
    Station(StationField),
    /// Its size: it must be the size of this library's struct.
    Size,
    /// A number that no checksum has.
    Checksum,
    /// It must be 0 or 1.
    PduCrc,
    /// A number that no handler has.
    OnAckLimit,
    /// See `OnAckLimit`.
    OnNakLimit,
    /// See `OnAckLimit`.
    OnInactivity,
    /// It must be 0 or 1, of the frames that it sends.
    SendsControlField,
    /// See `SendsControlField`.
    SendsErrorControl,
    /// It must be 0 or 1, of the frames that it receives.
    ReceivesControlField,
    /// See `ReceivesControlField`.
    ReceivesErrorControl,
}

impl BadField {
    /// Returns the number that names it: 70 to 99.
    pub(crate) fn number(self) -> u32
        ensures number { result ≡ codes.field_number self }
        ensures names { codes.NamesField result }
    {
        match self {
            BadField::Station(field) => station_number(field),
            BadField::Size => 70,
            BadField::Checksum => 76,
            BadField::OnAckLimit => 90,
            BadField::OnNakLimit => 91,
            BadField::OnInactivity => 92,
            BadField::SendsControlField => 94,
            BadField::SendsErrorControl => 95,
            BadField::PduCrc => 96,
            BadField::ReceivesControlField => 98,
            BadField::ReceivesErrorControl => 99,
        }
    }
}

fn station_number(field: StationField) -> u32
    ensures number { result ≡ codes.station_number field }
    ensures names { (71 ≤ result) × (result ≤ 97) }
{
    match field {
        StationField::Entity(field) => entity_number(field),
        StationField::Capacity => 81,
        StationField::Sends(field) => link_number(field),
        StationField::Receives(field) => link_number(field) + 4,
    }
}

fn entity_number(field: EntityField) -> u32
    ensures number { result ≡ codes.entity_number field }
    ensures names { (71 ≤ result) × (result ≤ 80) }
{
    match field {
        EntityField::IdWidth => 71,
        EntityField::Entity => 72,
        EntityField::Peer => 73,
        EntityField::NumberWidth => 74,
        EntityField::Segment => 75,
        EntityField::ChecksumKind => 76,
        EntityField::EofTime => 77,
        EntityField::NakTime => 78,
        EntityField::FinishedTime => 79,
        EntityField::InactivityTime => 80,
    }
}

// Of the frames that it sends; those of the frames that it receives are greater by 4.
fn link_number(field: LinkField) -> u32
    ensures number { result ≡ codes.link_number field }
    ensures names { (82 ≤ result) × (result ≤ 93) }
{
    match field {
        LinkField::VirtualChannel => 82,
        LinkField::DataVirtualChannel => 83,
        LinkField::Zone => 84,
        LinkField::Apid => 85,
        LinkField::InsertZone => 93,
    }
}
