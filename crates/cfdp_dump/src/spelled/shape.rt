//! What the frames of a link are made of.
ghost use Rattle.std.specs.Prelude.{◌≡◌};
ghost use Rattle.cfdp_dump.specs.Spelled.Shape as shapes;

use aos_frame::{FrameFields, HEADER_LEN, LinkConfig};
use mpdu::MPDU_HEADER_LEN;
use station_pair::{Side, WorldConfig};

/// What the frames of one direction of a link have after their header.
#[derive(Clone, Copy)]
pub struct FrameShape {
    /// The octets of the packet zone, which must be 16 to 2,040.
    pub zone: u16,
    /// The fields beside the M_PDU. An insert zone must have at most 64 octets.
    pub fields: FrameFields,
}

impl FrameShape {
    /// Returns the frames of a link.
    pub fn of(link: LinkConfig) -> FrameShape
        ensures { result ≡ shapes.shape_of link }
    {
        FrameShape {
            zone: link.zone,
            fields: link.fields,
        }
    }

    /// Returns the octets of a whole frame.
    pub fn frame_len(self) -> usize
        ensures { result ≡ shapes.frame_len self }
    {
        HEADER_LEN + MPDU_HEADER_LEN + usize::from(self.zone) + self.fields.extra()
    }
}

/// What the frames are made of that each of two stations sends.
#[derive(Clone, Copy)]
pub struct FrameShapes {
    /// Those of the first one.
    pub one: FrameShape,
    /// Those of the second one.
    pub two: FrameShape,
}

impl FrameShapes {
    /// Returns the frames of two stations with this configuration.
    pub fn of(config: &WorldConfig) -> FrameShapes
        ensures { result ≡ shapes.shapes_of config.now }
    {
        FrameShapes {
            one: FrameShape::of(config.one.sends),
            two: FrameShape::of(config.two.sends),
        }
    }

    /// Returns the frames that this station sends.
    pub fn sent_by(self, side: Side) -> FrameShape
        ensures { result ≡ shapes.shape_from self side }
    {
        match side {
            Side::One => self.one,
            Side::Two => self.two,
        }
    }
}
