//! How a caller says what a station is set up as.
ghost use Rattle.std.specs.Prelude.{◌≡◌, ◌≢◌, ◌<◌, ◌↔◌, IsOk, IfOk, IfErr, IsSome, IfSome};
ghost use Rattle.cfdp_c.specs.Config.{config_of, entity_of, fields_of, flag_of, handler_of};
ghost use Rattle.cfdp_c.specs.Config.{limit_of, link_of, policy_of, config_len, default_config};
ghost use Rattle.cfdp_c.specs.Config.{HasFlags, HasNames, IsUsable, NamesEntity, Suits};

use crate::bad_field::BadField;
use cfdp_directives::{ChecksumKind, Handler, Handlers, Limits, Policy, Times};
use cfdp_station::{
    Config, DEFAULT_CAPACITY, EntityConfig, FrameFields, LinkConfig, StationConfig, Valid,
};
use std::mem::size_of;

/// Octets of a [`CfdpConfig`].
const CONFIG_LEN: usize = size_of::<CfdpConfig>();

/// One direction of a link, as [`LinkConfig`] has it.
#[repr(C)]
#[derive(Clone, Copy)]
pub struct CfdpLink {
    /// Octets of the packet zone: 16 to 2,040. A frame has 8 more, and those of its fields.
    pub zone: u16,
    /// The application process of the packets: 0 to 2,046.
    pub apid: u16,
    /// The spacecraft of the frames.
    pub spacecraft: u8,
    /// The virtual channel of the frames that carry directives: 0 to 62.
    pub virtual_channel: u8,
    /// The virtual channel of the frames that carry file data: 0 to 62; it must not be
    /// `virtual_channel`.
    pub data_virtual_channel: u8,
    /// Octets of the insert zone after a frame's header: 0 to 64.
    pub insert_zone: u8,
    /// 1 if frames have an operational control field, of 4 octets, otherwise 0.
    pub control_field: u8,
    /// 1 if frames have a frame error control field, of 2 octets, otherwise 0.
    pub error_control: u8,
}

/// A [`StationConfig`] as a plain struct.
#[repr(C)]
#[derive(Clone, Copy)]
pub struct CfdpConfig {
    /// Octets of this struct, as the caller's header has it: it must be the library's, or it is
    /// refused.
    pub size: usize,
    /// The id of this entity.
    pub entity: u64,
    /// The id of the other one.
    pub peer: u64,
    /// The sequence number of the first transaction.
    pub first_number: u64,
    /// The most octets of packets that may wait in each lane to be made frames: 8,192 to 65,536.
    pub capacity: usize,
    /// How long the ACK of an EOF is waited for, in the caller's unit of time: 1 or more.
    pub eof_time: u32,
    /// How long what a NAK asked for is waited for.
    pub nak_time: u32,
    /// How long the ACK of a Finished is waited for.
    pub finished_time: u32,
    /// How long any PDU of a transaction is waited for.
    pub inactivity_time: u32,
    /// The frames that it sends.
    pub sends: CfdpLink,
    /// The frames that it receives: the peer's `sends`.
    pub receives: CfdpLink,
    /// 1 if the PDUs of the files that it sends, and those that answer them, end in a CRC, of 2
    /// octets, otherwise 0.
    pub pdu_crc: u8,
    /// The most octets of a file in one PDU: 1 to 4,096.
    pub segment: u16,
    /// Octets of an entity id: 1 to 8.
    pub id_width: u8,
    /// Octets of a sequence number: 1 to 8.
    pub number_width: u8,
    /// The checksum of the files that it sends, by SANA's numbers: 0 (modular), 1 (CRC-32 of
    /// Proximity-1), 2 (CRC-32C), 3 (CRC-32 of IEEE 802.3) or 15 (null).
    pub checksum: u8,
    /// How often an EOF is sent again.
    pub eof_limit: u8,
    /// How often a NAK is sent again.
    pub nak_limit: u8,
    /// How often a Finished is sent again.
    pub finished_limit: u8,
    /// What is done if no ACK comes: 0 cancels, 1 suspends, 2 ignores it, 3 abandons.
    pub on_ack_limit: u8,
    /// What is done if nothing comes after NAKs.
    pub on_nak_limit: u8,
    /// What is done if nothing at all comes.
    pub on_inactivity: u8,
    /// How many gaps what is held of a file may have; 0: no limit.
    pub most_gaps: u64,
}

impl CfdpLink {
    fn config(&self) -> Option<LinkConfig>
        ensures some { IsSome result ↔ HasFlags self.now }
        ensures same { IfSome result (λ link. link ≡ link_of self.now) }
    {
        Some(LinkConfig {
            spacecraft: self.spacecraft,
            virtual_channel: self.virtual_channel,
            data_virtual_channel: self.data_virtual_channel,
            zone: self.zone,
            apid: self.apid,
            fields: self.fields()?,
        })
    }

    fn fields(&self) -> Option<FrameFields>
        ensures some { IsSome result ↔ HasFlags self.now }
        ensures same { IfSome result (λ fields. fields ≡ fields_of self.now) }
    {
        Some(FrameFields {
            insert_zone: self.insert_zone,
            control_field: flag(self.control_field)?,
            error_control: flag(self.error_control)?,
        })
    }
}

impl CfdpConfig {
    /// Returns the station's own configuration, if one can be set up so; otherwise a field that
    /// isn't as it must be.
    pub(crate) fn config(&self) -> Result<Valid<StationConfig>, BadField>
        ensures some { IsOk result ↔ IsUsable self.now }
        ensures same { IfOk result (λ config. config ≡ config_of self.now) }
        ensures field { IfErr result (λ field. Suits field self.now → ⊥) }
    {
        if self.size != CONFIG_LEN {
            return Err(BadField::Size);
        }
        let Some(config) = self.named() else {
            return Err(self.unnamed());
        };
        match config.validate() {
            Ok(config) => Ok(config),
            Err(field) => Err(BadField::Station(field)),
        }
    }

    // The same, of any numbers that stand for something.
    fn named(&self) -> Option<StationConfig>
        ensures some { IsSome result ↔ HasNames self.now }
        ensures same { IfSome result (λ config. config ≡ config_of self.now) }
    {
        Some(StationConfig {
            entity: self.entity()?,
            sends: self.sends.config()?,
            receives: self.receives.config()?,
            capacity: self.capacity,
        })
    }

    // The first number that stands for nothing.
    fn unnamed(&self) -> BadField
        requires { HasNames self.now → ⊥ }
        ensures { Suits result self.now → ⊥ }
    {
        if 16 <= self.checksum {
            BadField::Checksum
        } else if 2 <= self.pdu_crc {
            BadField::PduCrc
        } else if 4 <= self.on_ack_limit {
            BadField::OnAckLimit
        } else if 4 <= self.on_nak_limit {
            BadField::OnNakLimit
        } else if 4 <= self.on_inactivity {
            BadField::OnInactivity
        } else {
            self.unnamed_of_links()
        }
    }

    // The first number of a link that stands for nothing.
    fn unnamed_of_links(&self) -> BadField
        requires { HasFlags self.now.sends → HasFlags self.now.receives → ⊥ }
        ensures { Suits result self.now → ⊥ }
    {
        if 2 <= self.sends.control_field {
            BadField::SendsControlField
        } else if 2 <= self.sends.error_control {
            BadField::SendsErrorControl
        } else if 2 <= self.receives.control_field {
            BadField::ReceivesControlField
        } else {
            BadField::ReceivesErrorControl
        }
    }

    fn entity(&self) -> Option<EntityConfig>
        ensures some { IsSome result ↔ NamesEntity self.now }
        ensures same { IfSome result (λ entity. entity ≡ entity_of self.now) }
    {
        Some(EntityConfig {
            entity: self.entity,
            peer: self.peer,
            id_width: self.id_width,
            number_width: self.number_width,
            first_number: self.first_number,
            segment: self.segment,
            checksum_kind: ChecksumKind::from_code(self.checksum)?,
            pdu_crc: flag(self.pdu_crc)?,
            policy: self.policy()?,
        })
    }

    fn policy(&self) -> Option<Policy>
        ensures some { IsSome result ↔ ((self.now.on_ack_limit < 4)
            × (self.now.on_nak_limit < 4) × (self.now.on_inactivity < 4)) }
        ensures same { IfSome result (λ policy. policy ≡ policy_of self.now) }
    {
        Some(Policy {
            limits: Limits {
                eof: self.eof_limit,
                nak: self.nak_limit,
                finished: self.finished_limit,
            },
            times: Times {
                eof: self.eof_time,
                nak: self.nak_time,
                finished: self.finished_time,
                inactivity: self.inactivity_time,
            },
            handlers: Handlers {
                ack: handler(self.on_ack_limit)?,
                nak: handler(self.on_nak_limit)?,
                inactivity: handler(self.on_inactivity)?,
            },
            most_gaps: limit(self.most_gaps),
        })
    }
}

// Whether something is so: it must be 0 or 1.
pub(crate) fn flag(number: u8) -> Option<bool>
    ensures some { IsSome result ↔ (number < 2) }
    ensures same { IfSome result (λ flag. flag ≡ flag_of number) }
{
    match number {
        0 => Some(false),
        1 => Some(true),
        _ => None,
    }
}

fn handler(number: u8) -> Option<Handler>
    ensures some { IsSome result ↔ (number < 4) }
    ensures same { IfSome result (λ handler. handler ≡ handler_of number) }
{
    Handler::from_number(number)
}

// The limit that a number says: 0 says that there is none.
fn limit(number: u64) -> Option<u64>
    ensures { result ≡ limit_of number }
{
    if number == 0 { None } else { Some(number) }
}

/// Fills in the defaults: those of a script's station 1. Station 2 has both ids, and both links,
/// the other way round. It reads `size` first: if that is another, the caller's header has another
/// struct, and nothing is written.
#[tactic(auto, unfolding(cfdp_directives::specs::Pdu::Codes::is_known))]
#[unsafe(no_mangle)]
pub extern "C" fn cfdp_fill_defaults(config: &mut CfdpConfig)
    ensures same { config.old.size ≡ config_len → config.new ≡ default_config }
    ensures usable { config.old.size ≡ config_len → IsUsable config.new }
    ensures other { config.old.size ≢ config_len → config.new ≡ config.old }
{
    if config.size != CONFIG_LEN {
        return;
    }
    *config = CfdpConfig {
        size: CONFIG_LEN,
        entity: 1,
        peer: 2,
        first_number: 1,
        capacity: DEFAULT_CAPACITY,
        eof_time: 10,
        nak_time: 10,
        finished_time: 10,
        inactivity_time: 100,
        sends: CfdpLink {
            zone: 256,
            apid: 100,
            spacecraft: 42,
            virtual_channel: 5,
            data_virtual_channel: 7,
            insert_zone: 0,
            control_field: 0,
            error_control: 0,
        },
        receives: CfdpLink {
            zone: 256,
            apid: 101,
            spacecraft: 42,
            virtual_channel: 6,
            data_virtual_channel: 8,
            insert_zone: 0,
            control_field: 0,
            error_control: 0,
        },
        pdu_crc: 0,
        segment: 1024,
        id_width: 2,
        number_width: 4,
        checksum: 0,
        eof_limit: 3,
        nak_limit: 3,
        finished_limit: 3,
        on_ack_limit: 0,
        on_nak_limit: 0,
        on_inactivity: 0,
        most_gaps: 0,
    };
}
