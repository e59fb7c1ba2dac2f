//! What the two ends of a link agree on.
ghost use Rattle.std.specs.Prelude.{◌≡◌};
ghost use Rattle.aos_frame.specs.Frame.{IsChannel, IsLink, frame_len, lane_channel, other_lane};
ghost use Rattle.aos_frame.specs.Fields.{FitsChannel, FitsLink};

use crate::MPDU_HEADER_LEN;
use crate::fields::FrameFields;
use crate::header::{HEADER_LEN, IDLE_CHANNEL};
use thiserror::Error;
use valid_config::{Config, Valid};

/// The least octets of a packet zone.
pub const LEAST_ZONE: u16 = 16;
/// The most octets of a packet zone.
pub const MOST_ZONE: u16 = 2040;

/// The greatest application process identifier; the next one is that of idle packets.
pub const MOST_APID: u16 = 2046;

/// One of the two virtual channels of a direction of a link. Directives overtake file data, since
/// they go on a channel of their own.
#[derive(Clone, Copy, Debug, PartialEq, Eq)]
pub enum Lane {
    /// The channel of directives: all PDUs except file data.
    Directives,
    /// The channel of file data.
    Data,
}

impl Lane {
    /// Both lanes.
    pub const ALL: [Lane; 2] = [Lane::Directives, Lane::Data];

    /// Returns the other lane of a direction.
    pub fn other(self) -> Lane
        ensures { result ≡ other_lane self }
    {
        match self {
            Lane::Directives => Lane::Data,
            Lane::Data => Lane::Directives,
        }
    }
}

/// What both ends of one direction of a link know of its frames, and of the packets in them.
#[derive(Clone, Copy, Debug, PartialEq, Eq)]
pub struct LinkConfig {
    /// The spacecraft identifier of the frames, 0 to 255.
    pub spacecraft: u8,
    /// The virtual channel identifier of the frames that carry directives, 0 to 62.
    pub virtual_channel: u8,
    /// The virtual channel identifier of the frames that carry file data, 0 to 62. It must differ
    /// from `virtual_channel`.
    pub data_virtual_channel: u8,
    /// Octets of the packet zone, 16 to 2,040. A frame has 8 more, and its fields.
    pub zone: u16,
    /// The application process identifier of the packets, 0 to 2,046; 2,047 is the identifier of
    /// idle packets.
    pub apid: u16,
    /// Which fields the frames have beside their header and their M_PDU: an insert zone of up to 64
    /// octets, an operational control field, a frame error control field.
    pub fields: FrameFields,
}

/// What both ends know of the frames of one virtual channel, and of the packets in them.
#[derive(Clone, Copy, Debug, PartialEq, Eq)]
pub struct ChannelConfig {
    /// The spacecraft identifier of the frames, 0 to 255.
    pub spacecraft: u8,
    /// The virtual channel identifier, 0 to 62.
    pub virtual_channel: u8,
    /// Octets of the packet zone, 16 to 2,040. A frame has 8 more, and its fields.
    pub zone: u16,
    /// The application process identifier of the packets, 0 to 2,046.
    pub apid: u16,
    /// Which fields the frames have beside their header and their M_PDU.
    pub fields: FrameFields,
}

/// An invalid field of a [`LinkConfig`] or of a [`ChannelConfig`].
#[derive(Clone, Copy, Debug, PartialEq, Eq, Error)]
pub enum LinkField {
    /// The virtual channel; in a link, the channel of directives.
    #[error("virtual channel must be 0 to 62")]
    VirtualChannel,
    /// The virtual channel of file data.
    #[error("data virtual channel must be 0 to 62 and differ from virtual channel")]
    DataVirtualChannel,
    /// The octets of the packet zone.
    #[error("packet zone must be 16 to 2040 octets")]
    Zone,
    /// The application process identifier.
    #[error("APID must be 0 to 2046")]
    Apid,
    /// The octets of the insert zone.
    #[error("insert zone must be 0 to 64 octets")]
    InsertZone,
}

impl Config for LinkConfig {
    type Field = LinkField;

    ghost IsValid = { IsLink };

    ghost Fits = { FitsLink };

    fn amiss(&self) -> Option<LinkField> {
        if IDLE_CHANNEL <= self.virtual_channel {
            Some(LinkField::VirtualChannel)
        } else if IDLE_CHANNEL <= self.data_virtual_channel
            || self.data_virtual_channel == self.virtual_channel
        {
            Some(LinkField::DataVirtualChannel)
        } else if !(LEAST_ZONE..=MOST_ZONE).contains(&self.zone) {
            Some(LinkField::Zone)
        } else if MOST_APID < self.apid {
            Some(LinkField::Apid)
        } else if self.fields.amiss().is_some() {
            Some(LinkField::InsertZone)
        } else {
            None
        }
    }
}

impl Config for ChannelConfig {
    type Field = LinkField;

    ghost IsValid = { IsChannel };

    ghost Fits = { FitsChannel };

    fn amiss(&self) -> Option<LinkField> {
        if IDLE_CHANNEL <= self.virtual_channel {
            Some(LinkField::VirtualChannel)
        } else if !(LEAST_ZONE..=MOST_ZONE).contains(&self.zone) {
            Some(LinkField::Zone)
        } else if MOST_APID < self.apid {
            Some(LinkField::Apid)
        } else if self.fields.amiss().is_some() {
            Some(LinkField::InsertZone)
        } else {
            None
        }
    }
}

impl LinkConfig {
    /// Returns one lane of the link: its frames have the lane's virtual channel, and all else as
    /// the link has it.
    pub fn lane(&self, lane: Lane) -> ChannelConfig
        ensures is { result ≡ lane_channel lane self.now }
        ensures valid { IsLink self.now → IsChannel result }
    {
        ChannelConfig {
            spacecraft: self.spacecraft,
            virtual_channel: match lane {
                Lane::Directives => self.virtual_channel,
                Lane::Data => self.data_virtual_channel,
            },
            zone: self.zone,
            apid: self.apid,
            fields: self.fields,
        }
    }
}

impl ChannelConfig {
    /// Returns one lane of a valid link, as `lane` does. It is valid too.
    pub fn of(link: Valid<LinkConfig>, lane: Lane) -> Valid<ChannelConfig>
        ensures { result ≡ lane_channel lane link }
    {
        Valid::known(link.get().lane(lane))
    }

    /// Returns the number of octets of each frame: 8 more than a zone has, and the octets of its
    /// fields.
    pub fn frame_len(&self) -> usize
        ensures { result ≡ frame_len self.now }
    {
        let channel = *self;
        HEADER_LEN + MPDU_HEADER_LEN + usize::from(channel.zone) + channel.fields.extra()
    }
}
