//! All settings: the key of each, its range and its default, and a line of help.
ghost use Rattle.std.specs.Prelude.{◌≡◌, map};
ghost use Rattle.cfdp_report.specs.Settings.{is, key_among, row_key, setting_of};

use crate::nearest::Nearest;
use aos_frame::{LEAST_ZONE, MOST_INSERT_ZONE, MOST_ZONE};
use cfdp_entity::{MOST_SEGMENT, MOST_WIDTH};
use std::alloc::{AllocError, Global};
use std::fmt;

/// What a script's `set` sets, for both stations.
#[derive(Clone, Copy)]
pub enum Setting {
    /// Octets of a frame's packet zone.
    Zone,
    /// Octets of a frame's insert zone.
    InsertZone,
    /// Whether frames have an operational control field: 0 or 1.
    ControlField,
    /// Whether frames have a frame error control field: 0 or 1.
    ErrorControl,
    /// Octets of the file in one PDU at the most.
    Segment,
    /// Octets of an entity id.
    IdWidth,
    /// Octets of a sequence number.
    NumberWidth,
    /// The sequence number of a station's first put.
    FirstNumber,
    /// The code of the checksum type.
    Checksum,
    /// Whether PDUs end in a CRC: 0 or 1.
    PduCrc,
    /// How often an EOF is sent again.
    EofLimit,
    /// How often a NAK is sent again.
    NakLimit,
    /// How often a Finished is sent again.
    FinishedLimit,
    /// How long the ACK of an EOF is waited for.
    EofTime,
    /// How long what a NAK asked for is waited for.
    NakTime,
    /// How long the ACK of a Finished is waited for.
    FinishedTime,
    /// How long any PDU of a transaction is waited for.
    InactivityTime,
    /// The number of what is done if no ACK comes.
    OnAckLimit,
    /// The number of what is done if nothing comes after NAKs.
    OnNakLimit,
    /// The number of what is done if nothing at all comes.
    OnInactivity,
    /// How many gaps a file that is received may have; 0: no limit.
    MostGaps,
}

/// What is known of a setting.
#[derive(Clone, Copy)]
pub struct Row {
    /// Which setting it is.
    pub setting: Setting,
    /// Its key in a script.
    pub key: &'static str,
    /// The values that it may have.
    pub range: Range,
    /// Its value if nothing sets it.
    pub default: u64,
    /// What the help says of it; nothing if what it says of the next one holds of it too.
    pub help: &'static str,
}

/// All settings, in the order of `Setting`.
pub const TABLE: [Row; 21] = [
    Row {
        setting: Setting::Zone,
        key: "zone",
        range: Range::Between(LEAST_ZONE as u64, MOST_ZONE as u64),
        default: 256,
        help: "octets of the packet zone of a frame, 16 to 2040",
    },
    Row {
        setting: Setting::InsertZone,
        key: "insert_zone",
        range: Range::Between(0, MOST_INSERT_ZONE as u64),
        default: 0,
        help: "octets of the insert zone of a frame, 0 to 64",
    },
    Row {
        setting: Setting::ControlField,
        key: "control_field",
        range: Range::Between(0, 1),
        default: 0,
        help: "1: frames have an operational control field",
    },
    Row {
        setting: Setting::ErrorControl,
        key: "error_control",
        range: Range::Between(0, 1),
        default: 0,
        help: "1: frames have a frame error control field",
    },
    Row {
        setting: Setting::Segment,
        key: "segment",
        range: Range::Between(1, MOST_SEGMENT as u64),
        default: 1024,
        help: "most octets of file data in one PDU, 1 to 4096",
    },
    Row {
        setting: Setting::IdWidth,
        key: "id_width",
        range: Range::Between(1, MOST_WIDTH as u64),
        default: 2,
        help: "octets of an entity id, 1 to 8",
    },
    Row {
        setting: Setting::NumberWidth,
        key: "number_width",
        range: Range::Between(1, MOST_WIDTH as u64),
        default: 4,
        help: "octets of a transaction number, 1 to 8",
    },
    Row {
        setting: Setting::FirstNumber,
        key: "first_number",
        range: Range::Between(0, u64::MAX),
        default: 1,
        help: "number of the first put, below 256^number_width",
    },
    Row {
        setting: Setting::Checksum,
        key: "checksum",
        range: Range::BetweenOr(0, 3, 15),
        default: 0,
        help: "0 modular, 1 Proximity-1, 2 CRC-32C, 3 CRC-32, 15 null",
    },
    Row {
        setting: Setting::PduCrc,
        key: "pdu_crc",
        range: Range::Between(0, 1),
        default: 0,
        help: "1: PDUs end in a CRC",
    },
    Row {
        setting: Setting::EofLimit,
        key: "eof_limit",
        range: Range::Between(0, 255),
        default: 3,
        help: "",
    },
    Row {
        setting: Setting::NakLimit,
        key: "nak_limit",
        range: Range::Between(0, 255),
        default: 3,
        help: "",
    },
    Row {
        setting: Setting::FinishedLimit,
        key: "finished_limit",
        range: Range::Between(0, 255),
        default: 3,
        help: "retransmissions before a fault, 0 to 255",
    },
    Row {
        setting: Setting::EofTime,
        key: "eof_time",
        range: Range::Between(1, 4_294_967_295),
        default: 10,
        help: "",
    },
    Row {
        setting: Setting::NakTime,
        key: "nak_time",
        range: Range::Between(1, 4_294_967_295),
        default: 10,
        help: "",
    },
    Row {
        setting: Setting::FinishedTime,
        key: "finished_time",
        range: Range::Between(1, 4_294_967_295),
        default: 10,
        help: "",
    },
    Row {
        setting: Setting::InactivityTime,
        key: "inactivity_time",
        range: Range::Between(1, 4_294_967_295),
        default: 100,
        help: "time to wait for an answer, or any PDU, below 2^32",
    },
    Row {
        setting: Setting::OnAckLimit,
        key: "on_ack_limit",
        range: Range::Between(0, 3),
        default: 0,
        help: "",
    },
    Row {
        setting: Setting::OnNakLimit,
        key: "on_nak_limit",
        range: Range::Between(0, 3),
        default: 0,
        help: "",
    },
    Row {
        setting: Setting::OnInactivity,
        key: "on_inactivity",
        range: Range::Between(0, 3),
        default: 0,
        help: "then: 0 cancel, 1 suspend, 2 ignore, 3 abandon",
    },
    Row {
        setting: Setting::MostGaps,
        key: "most_gaps",
        range: Range::Between(0, u64::MAX),
        default: 0,
        help: "most gaps of a file that is received, 0: no limit",
    },
];

/// The values that a setting may have.
#[derive(Clone, Copy)]
pub enum Range {
    /// From the first number to the second.
    Between(u64, u64),
    /// From the first number to the second, or the third.
    BetweenOr(u64, u64, u64),
}

impl Range {
    /// Returns `true` if a value is one of them.
    pub fn has(self, value: u64) -> bool {
        match self {
            Range::Between(least, most) => least <= value && value <= most,
            Range::BetweenOr(least, most, other) => {
                least <= value && value <= most || value == other
            }
        }
    }
}

/// Writes it in words.
impl fmt::Display for Range {
    fn fmt<W: fmt::Write>(&self, f: &mut fmt::Formatter<W>) -> fmt::Result {
        match self {
            Range::Between(0, u64::MAX) => f.write_str("any number"),
            Range::Between(least, most) => write!(f, "{least} to {most}"),
            Range::BetweenOr(least, most, other) => write!(f, "{least} to {most} or {other}"),
        }
    }
}

impl Setting {
    fn row(self) -> Row
        ensures { result.setting ≡ self }
    {
        TABLE[self as usize]
    }

    /// Returns its key in a script.
    pub fn key(self) -> &'static str {
        self.row().key
    }

    /// Returns the values that it may have.
    pub fn range(self) -> Range {
        self.row().range
    }
}

/// Returns the setting that has this key.
pub fn parse_setting(word: &[u8]) -> Option<Setting>
    ensures { result ≡ setting_of word.now }
{
    with_key(&TABLE, word)
}

/// Returns the setting of the first of these rows that has this key.
fn with_key(rows: &[Row], word: &[u8]) -> Option<Setting>
    ensures { result ≡ key_among (map row_key rows.now) word.now }
{
    for row in rows {
        if row.has_key(word) {
            return Some(row.setting);
        }
    }
    None
}

impl Row {
    fn has_key(&self, word: &[u8]) -> bool
        ensures { result ≡ is word.now self.now.key.now }
    {
        word == self.key.as_bytes()
    }

    /// Writes what the help says of it. `is_first` says whether it is the first setting that this
    /// text holds for.
    fn write_help<W: fmt::Write>(&self, f: &mut fmt::Formatter<W>, is_first: bool) -> fmt::Result {
        let (key, default, help) = (self.key, self.default, self.help);
        f.write_str(if is_first { "  " } else { ", " })?;
        if help.is_empty() {
            write!(f, "{key} {default}")
        } else if is_first {
            let width = 21usize.saturating_sub(key.len());
            write!(f, "{key} {default:<width$}{help}\n")
        } else {
            write!(f, "{key} {default}\n{:24}{help}\n", "")
        }
    }
}

/// Lines of help: all settings with their values if nothing sets them, and what they mean.
#[derive(Clone, Copy)]
pub struct SettingsHelp;

impl fmt::Display for SettingsHelp {
    fn fmt<W: fmt::Write>(&self, f: &mut fmt::Formatter<W>) -> fmt::Result {
        let mut is_first = true;
        for row in &TABLE {
            row.write_help(f, is_first)?;
            is_first = !row.help.is_empty();
        }
        Ok(())
    }
}

/// The keys of all settings, with commas between.
#[derive(Clone, Copy)]
pub struct Keys;

impl fmt::Display for Keys {
    fn fmt<W: fmt::Write>(&self, f: &mut fmt::Formatter<W>) -> fmt::Result {
        let mut mark = "";
        for row in &TABLE {
            write!(f, "{mark}{}", row.key)?;
            mark = ", ";
        }
        Ok(())
    }
}

/// Looks for the nearest word among the keys of all settings.
///
/// # Errors
///
/// `AllocError` if there is no memory.
pub fn consider_keys(alloc: Global, nearest: &mut Nearest<'_>) -> Result<(), AllocError> {
    for row in &TABLE {
        nearest.consider(alloc, row.key)?;
    }
    Ok(())
}
