//! What can be set of stations.
ghost use Rattle.std.specs.Prelude.{◌≡◌, ◌==◌, ◌<◌, ◌^◌, ◌↔◌, IsSome, IfSome};
ghost use Rattle.station_pair.specs.Stations.{IsWorldConfig};
ghost use Rattle.cfdp_report.specs.Settings.{pair_of, world_of, station_of, entity_of, policy_of};
ghost use Rattle.cfdp_report.specs.Settings.{limits_of, times_of, handlers_of, handler_of, link_of};
ghost use Rattle.cfdp_report.specs.Settings.{FitFields, FitSending, FitPolicy, FitLimits, FitTimes};
ghost use Rattle.cfdp_report.specs.Settings.{FitFrames, FitHandlers, fields_of, limit_of};

pub mod table;

use crate::settings::table::{Setting, TABLE};
use cfdp_directives::{ChecksumKind, Handler, Handlers, Limits, Policy, Times};
use cfdp_entity::EntityConfig;
use cfdp_station::{FrameFields, LinkConfig, StationConfig};
use station_pair::{Side, WorldConfig};
use valid_config::{Config, Valid};

/// The values that were set so far, in range or not: each the value of the [`Setting`] of its name.
#[derive(Clone, Copy)]
pub struct Settings {
    pub zone: u64,
    pub insert_zone: u64,
    pub control_field: u64,
    pub error_control: u64,
    pub segment: u64,
    pub id_width: u64,
    pub number_width: u64,
    pub first_number: u64,
    pub checksum: u64,
    pub pdu_crc: u64,
    pub eof_limit: u64,
    pub nak_limit: u64,
    pub finished_limit: u64,
    pub eof_time: u64,
    pub nak_time: u64,
    pub finished_time: u64,
    pub inactivity_time: u64,
    pub on_ack_limit: u64,
    pub on_nak_limit: u64,
    pub on_inactivity: u64,
    pub most_gaps: u64,
}

impl Settings {
    ghost use Rattle.cfdp_report.specs.Settings.{set_value};

    /// The values before the first `set`.
    pub const DEFAULT: Settings = Settings {
        zone: TABLE[Setting::Zone as usize].default,
        insert_zone: TABLE[Setting::InsertZone as usize].default,
        control_field: TABLE[Setting::ControlField as usize].default,
        error_control: TABLE[Setting::ErrorControl as usize].default,
        segment: TABLE[Setting::Segment as usize].default,
        id_width: TABLE[Setting::IdWidth as usize].default,
        number_width: TABLE[Setting::NumberWidth as usize].default,
        first_number: TABLE[Setting::FirstNumber as usize].default,
        checksum: TABLE[Setting::Checksum as usize].default,
        pdu_crc: TABLE[Setting::PduCrc as usize].default,
        eof_limit: TABLE[Setting::EofLimit as usize].default,
        nak_limit: TABLE[Setting::NakLimit as usize].default,
        finished_limit: TABLE[Setting::FinishedLimit as usize].default,
        eof_time: TABLE[Setting::EofTime as usize].default,
        nak_time: TABLE[Setting::NakTime as usize].default,
        finished_time: TABLE[Setting::FinishedTime as usize].default,
        inactivity_time: TABLE[Setting::InactivityTime as usize].default,
        on_ack_limit: TABLE[Setting::OnAckLimit as usize].default,
        on_nak_limit: TABLE[Setting::OnNakLimit as usize].default,
        on_inactivity: TABLE[Setting::OnInactivity as usize].default,
        most_gaps: TABLE[Setting::MostGaps as usize].default,
    };

    /// Changes one value.
    pub fn set(&mut self, setting: Setting, value: u64)
        ensures { self.new ≡ set_value self.old setting value }
    {
        match setting {
            Setting::Zone => self.zone = value,
            Setting::InsertZone => self.insert_zone = value,
            Setting::ControlField => self.control_field = value,
            Setting::ErrorControl => self.error_control = value,
            Setting::Segment => self.segment = value,
            Setting::IdWidth => self.id_width = value,
            Setting::NumberWidth => self.number_width = value,
            Setting::FirstNumber => self.first_number = value,
            Setting::Checksum => self.checksum = value,
            Setting::PduCrc => self.pdu_crc = value,
            Setting::EofLimit => self.eof_limit = value,
            Setting::NakLimit => self.nak_limit = value,
            Setting::FinishedLimit => self.finished_limit = value,
            Setting::EofTime => self.eof_time = value,
            Setting::NakTime => self.nak_time = value,
            Setting::FinishedTime => self.finished_time = value,
            Setting::InactivityTime => self.inactivity_time = value,
            Setting::OnAckLimit => self.on_ack_limit = value,
            Setting::OnNakLimit => self.on_nak_limit = value,
            Setting::OnInactivity => self.on_inactivity = value,
            Setting::MostGaps => self.most_gaps = value,
        }
    }

    /// Returns the value of a setting.
    fn value(&self, setting: Setting) -> u64 {
        match setting {
            Setting::Zone => self.zone,
            Setting::InsertZone => self.insert_zone,
            Setting::ControlField => self.control_field,
            Setting::ErrorControl => self.error_control,
            Setting::Segment => self.segment,
            Setting::IdWidth => self.id_width,
            Setting::NumberWidth => self.number_width,
            Setting::FirstNumber => self.first_number,
            Setting::Checksum => self.checksum,
            Setting::PduCrc => self.pdu_crc,
            Setting::EofLimit => self.eof_limit,
            Setting::NakLimit => self.nak_limit,
            Setting::FinishedLimit => self.finished_limit,
            Setting::EofTime => self.eof_time,
            Setting::NakTime => self.nak_time,
            Setting::FinishedTime => self.finished_time,
            Setting::InactivityTime => self.inactivity_time,
            Setting::OnAckLimit => self.on_ack_limit,
            Setting::OnNakLimit => self.on_nak_limit,
            Setting::OnInactivity => self.on_inactivity,
            Setting::MostGaps => self.most_gaps,
        }
    }

    /// Returns the first setting whose value is out of its range, with the value.
    pub fn out_of_range(&self) -> Option<(Setting, u64)> {
        for row in &TABLE {
            let value = self.value(row.setting);
            if !row.range.has(value) {
                return Some((row.setting, value));
            }
        }
        None
    }

    /// Returns the configuration of both stations with these values, if each fits its field and the
    /// whole is valid.
    pub fn config(&self) -> Option<Valid<WorldConfig>>
        ensures some { IsSome result ↔ (FitFields self.now × IsWorldConfig (world_of self.now)) }
        ensures same { IfSome result (λ config. config ≡ world_of self.now) }
    {
        let config = WorldConfig {
            one: self.station(Side::One)?,
            two: self.station(Side::Two)?,
        };
        config.validate().ok()
    }

    /// Returns the configurations of two stations with these ids and links, if each value fits its
    /// field and the whole is valid. The first one sends over the first link.
    pub fn pair(
        &self,
        first: u64,
        second: u64,
        one: LinkConfig,
        two: LinkConfig,
    ) -> Option<Valid<WorldConfig>>
        ensures same { IfSome result (λ config. config ≡ pair_of self.now first second one two) }
    {
        let first_entity = EntityConfig {
            entity: first,
            peer: second,
            ..self.entity(Side::One)?
        };
        let second_entity = EntityConfig {
            entity: second,
            peer: first,
            ..self.entity(Side::Two)?
        };
        let config = WorldConfig {
            one: StationConfig::new(first_entity, one, two),
            two: StationConfig::new(second_entity, two, one),
        };
        config.validate().ok()
    }

    /// Returns the configuration of a station, if each value fits its field.
    fn station(&self, side: Side) -> Option<StationConfig>
        ensures some { IsSome result ↔ FitFields self.now }
        ensures same { IfSome result (λ config. config ≡ station_of self.now side) }
    {
        let (zone, fields) = (u16::try_from(self.zone).ok()?, self.fields()?);
        Some(StationConfig::new(
            self.entity(side)?,
            link(side, zone, fields),
            link(side.other(), zone, fields),
        ))
    }

    /// Returns which fields frames have, if each value fits.
    fn fields(&self) -> Option<FrameFields>
        ensures some { IsSome result ↔ FitFrames self.now }
        ensures same { IfSome result (λ fields. fields ≡ fields_of self.now) }
    {
        Some(FrameFields {
            insert_zone: octet(self.insert_zone)?,
            control_field: flag(self.control_field)?,
            error_control: flag(self.error_control)?,
        })
    }

    /// Returns a station's entity. Its first number may be one that its octets can't have: then
    /// each put is refused.
    fn entity(&self, side: Side) -> Option<EntityConfig>
        ensures some { IsSome result ↔ (FitSending self.now × FitPolicy self.now) }
        ensures same { IfSome result (λ config. config ≡ entity_of self.now side) }
    {
        Some(EntityConfig {
            entity: side.entity(),
            peer: side.other().entity(),
            id_width: octet(self.id_width)?,
            number_width: octet(self.number_width)?,
            first_number: self.first_number,
            segment: u16::try_from(self.segment).ok()?,
            checksum_kind: ChecksumKind::from_code(octet(self.checksum)?)?,
            pdu_crc: flag(self.pdu_crc)?,
            policy: self.policy()?,
        })
    }

    fn policy(&self) -> Option<Policy>
        ensures some { IsSome result ↔ FitPolicy self.now }
        ensures same { IfSome result (λ policy. policy ≡ policy_of self.now) }
    {
        Some(Policy {
            limits: self.limits()?,
            times: self.times()?,
            handlers: self.handlers()?,
            most_gaps: limit(self.most_gaps),
        })
    }

    fn limits(&self) -> Option<Limits>
        ensures some { IsSome result ↔ FitLimits self.now }
        ensures same { IfSome result (λ limits. limits ≡ limits_of self.now) }
    {
        Some(Limits {
            eof: octet(self.eof_limit)?,
            nak: octet(self.nak_limit)?,
            finished: octet(self.finished_limit)?,
        })
    }

    fn times(&self) -> Option<Times>
        ensures some { IsSome result ↔ FitTimes self.now }
        ensures same { IfSome result (λ times. times ≡ times_of self.now) }
    {
        Some(Times {
            eof: duration(self.eof_time)?,
            nak: duration(self.nak_time)?,
            finished: duration(self.finished_time)?,
            inactivity: duration(self.inactivity_time)?,
        })
    }

    fn handlers(&self) -> Option<Handlers>
        ensures some { IsSome result ↔ FitHandlers self.now }
        ensures same { IfSome result (λ handlers. handlers ≡ handlers_of self.now) }
    {
        Some(Handlers {
            ack: handler(self.on_ack_limit)?,
            nak: handler(self.on_nak_limit)?,
            inactivity: handler(self.on_inactivity)?,
        })
    }
}

fn octet(value: u64) -> Option<u8>
    ensures some { IsSome result ↔ (value < 256) }
    ensures same { IfSome result (λ octet. octet ≡ value) }
{
    u8::try_from(value).ok()
}

/// Returns what 0 and 1 say.
fn flag(value: u64) -> Option<bool>
    ensures some { IsSome result ↔ (value < 2) }
    ensures same { IfSome result (λ flag. flag ≡ (value == 1)) }
{
    match value {
        0 => Some(false),
        1 => Some(true),
        _ => None,
    }
}

fn duration(value: u64) -> Option<u32>
    ensures some { IsSome result ↔ (value < 2 ^ 32) }
    ensures same { IfSome result (λ duration. duration ≡ value) }
{
    u32::try_from(value).ok()
}

fn handler(number: u64) -> Option<Handler>
    ensures some { IsSome result ↔ (number < 4) }
    ensures same { IfSome result (λ handler. handler ≡ handler_of number) }
{
    Handler::from_number(octet(number)?)
}

/// Returns the limit that a number says: 0 says that there is none.
fn limit(number: u64) -> Option<u64>
    ensures { result ≡ limit_of number }
{
    if number == 0 { None } else { Some(number) }
}

/// Returns the frames that a station sends.
fn link(side: Side, zone: u16, fields: FrameFields) -> LinkConfig
    ensures { result ≡ link_of side zone fields }
{
    let (virtual_channel, data_virtual_channel, apid) = match side {
        Side::One => (5, 7, 100),
        Side::Two => (6, 8, 101),
    };
    LinkConfig {
        spacecraft: 42,
        virtual_channel,
        data_virtual_channel,
        zone,
        apid,
        fields,
    }
}
