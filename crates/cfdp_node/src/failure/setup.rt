//! Why what is asked of a command can't be set up.
use cfdp_command_line::tell_line;
use cfdp_report::{Hint, LineError, Setting};
use cfdp_setup::{KeyHint, Misfit};
use std::fmt;
use thiserror::Error;

/// What doesn't fit together of what is asked: a mistake of whoever asked.
#[derive(Clone, Copy, Error)]
pub enum SetupError<'a> {
    /// A number must stand after this key of `--set`, and this word is none.
    #[error("--set {key} {word}: {error}{hint}", error = LineError::BadNumber)]
    BadNumber {
        key: &'a str,
        word: &'a str,
        hint: Hint,
    },
    /// `--set` has no such key.
    #[error("--set {key} {word}: unknown key{hint}")]
    UnknownKey {
        key: &'a str,
        word: &'a str,
        hint: KeyHint,
    },
    /// This value of a setting of scripts is out of its range.
    #[error("{key} must be {range} (got {1})", key = .0.key(), range = .0.range())]
    OutOfRange(Setting, u64),
    /// The ids and the link of a station can't be as they are set.
    #[error("{0}")]
    Misfit(Misfit),
    /// The number of the first transaction doesn't fit the octets that `number_width` sets.
    #[error("--first-number does not fit into {0} octets: set number_width, 1 to 8")]
    WideNumber(u64),
    /// The frames of a loop with keys have a zone that is shorter than the first number.
    #[error("zone must be {0} to 2040 with --keys (got {1})")]
    ShortZone(u16, u16),
    /// The station and its peer have this one address.
    #[error("--listen and --to must differ (both are {0})")]
    OneAddress(&'a str),
    /// The inbox and the spool are this one folder.
    #[error("--inbox and --spool must differ (both are the folder {0}): the station would send \
        what it receives")]
    OneFolder(&'a str),
    /// The file of keys of the first path lies in a folder that isn't out of the peer's reach.
    #[error("{0}: lies in the folder {1}, whose files are sent or received: move it elsewhere")]
    KeysPlace(&'a str, &'a str),
    /// The journal has this number of the entity, or a lesser one.
    #[error("transaction number {number} was used: the journal has {own}:{used} (leave \
        --first-number out, or name the state file of that journal)")]
    UsedNumber {
        number: u64,
        own: u64,
        used: u64,
    },
    // Options and settings that need another one, or exclude it.
    #[error("--console-token needs --console ADDR")]
    TokenWithoutConsole,
    #[error("--console-host needs --console-token FILE")]
    HostWithoutToken,
    #[error("--keys needs a state file: name one with --state")]
    KeysWithoutState,
    #[error("--keys needs --carrier frames")]
    KeysWithoutFrames,
    #[error("insert_zone, control_field and error_control need --carrier frames")]
    FieldsWithoutFrames,
    #[error("--set mac needs --keys FILE")]
    MacWithoutKeys,
    #[error("--put needs --outbox FOLDER or --spool FOLDER")]
    PutWithoutFolder,
    #[error("--spool and --outbox exclude each other")]
    SpoolAndOutbox,
}

impl SetupError<'_> {
    /// Says on standard error in which line of the settings file the key stands that is set
    /// wrongly, if it is one.
    pub fn tell_line(&self, rt: &HostRuntime) {
        match self {
            SetupError::BadNumber { key, .. } | SetupError::UnknownKey { key, .. } => {
                tell_line(rt, key);
            }
            SetupError::OutOfRange(setting, _) => tell_line(rt, setting.key()),
            SetupError::Misfit(misfit) => {
                if let Some(key) = misfit.key() {
                    tell_line(rt, key);
                }
            }
            _ => {}
        }
    }
}

impl fmt::Debug for SetupError<'_> {
    fn fmt<W: fmt::Write>(&self, f: &mut fmt::Formatter<W>) -> fmt::Result {
        write!(f, "{self}")
    }
}
