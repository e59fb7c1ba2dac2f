//! The options that a settings file may say.

/// What the value of an option is, in a file and on a command line.
#[derive(Clone, Copy, PartialEq, Eq)]
pub enum ValueKind {
    /// A text: the word after the option.
    Text,
    /// A whole number from 0: the word after the option, in decimal digits.
    Number,
    /// True or false: the option stands there, or not.
    Flag,
    /// A list of pairs of texts: the option stands before each pair.
    Pairs,
    /// A table of whole numbers from 0: the option stands before each key and its number.
    Numbers,
}

/// An option of a station.
#[derive(Clone, Copy)]
pub struct SettingsOption {
    /// Its name, without the hyphens in front.
    pub name: &'static str,
    /// What its value is.
    pub kind: ValueKind,
}

/// All options of a station but those that name a settings file, in the order of its help.
pub const OPTIONS: [SettingsOption; 40] = [
    SettingsOption {
        name: "id",
        kind: ValueKind::Number,
    },
    SettingsOption {
        name: "peer",
        kind: ValueKind::Number,
    },
    SettingsOption {
        name: "listen",
        kind: ValueKind::Text,
    },
    SettingsOption {
        name: "to",
        kind: ValueKind::Text,
    },
    SettingsOption {
        name: "idle",
        kind: ValueKind::Number,
    },
    SettingsOption {
        name: "first-number",
        kind: ValueKind::Number,
    },
    SettingsOption {
        name: "rate",
        kind: ValueKind::Number,
    },
    SettingsOption {
        name: "drop",
        kind: ValueKind::Number,
    },
    SettingsOption {
        name: "loss",
        kind: ValueKind::Number,
    },
    SettingsOption {
        name: "seed",
        kind: ValueKind::Number,
    },
    SettingsOption {
        name: "carrier",
        kind: ValueKind::Text,
    },
    SettingsOption {
        name: "unit",
        kind: ValueKind::Text,
    },
    SettingsOption {
        name: "inbox",
        kind: ValueKind::Text,
    },
    SettingsOption {
        name: "outbox",
        kind: ValueKind::Text,
    },
    SettingsOption {
        name: "state",
        kind: ValueKind::Text,
    },
    SettingsOption {
        name: "journal",
        kind: ValueKind::Text,
    },
    SettingsOption {
        name: "journal-every",
        kind: ValueKind::Number,
    },
    SettingsOption {
        name: "no-journal",
        kind: ValueKind::Flag,
    },
    SettingsOption {
        name: "keys",
        kind: ValueKind::Text,
    },
    SettingsOption {
        name: "put",
        kind: ValueKind::Pairs,
    },
    SettingsOption {
        name: "set",
        kind: ValueKind::Numbers,
    },
    SettingsOption {
        name: "spool",
        kind: ValueKind::Text,
    },
    SettingsOption {
        name: "remove-sent",
        kind: ValueKind::Flag,
    },
    SettingsOption {
        name: "retries",
        kind: ValueKind::Number,
    },
    SettingsOption {
        name: "at-once",
        kind: ValueKind::Number,
    },
    SettingsOption {
        name: "most-size",
        kind: ValueKind::Number,
    },
    SettingsOption {
        name: "most-open",
        kind: ValueKind::Number,
    },
    SettingsOption {
        name: "no-overwrite",
        kind: ValueKind::Flag,
    },
    SettingsOption {
        name: "names",
        kind: ValueKind::Text,
    },
    SettingsOption {
        name: "commands",
        kind: ValueKind::Flag,
    },
    SettingsOption {
        name: "control",
        kind: ValueKind::Text,
    },
    SettingsOption {
        name: "console",
        kind: ValueKind::Text,
    },
    SettingsOption {
        name: "console-token",
        kind: ValueKind::Text,
    },
    SettingsOption {
        name: "console-host",
        kind: ValueKind::Text,
    },
    SettingsOption {
        name: "no-time",
        kind: ValueKind::Flag,
    },
    SettingsOption {
        name: "json",
        kind: ValueKind::Flag,
    },
    SettingsOption {
        name: "explain",
        kind: ValueKind::Flag,
    },
    SettingsOption {
        name: "trace",
        kind: ValueKind::Flag,
    },
    SettingsOption {
        name: "pcap",
        kind: ValueKind::Text,
    },
    SettingsOption {
        name: "chart",
        kind: ValueKind::Text,
    },
];
