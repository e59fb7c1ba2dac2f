//! What every command of the program shares: the words of lines and of reports, how a run ends, and
//! what can be set.
//!
//! Tested by `tests/rows/`, through the programs above.
#![tactic(auto)]

mod cause;
mod exit;
mod input;
mod line_error;
mod meaning;
mod nearest;
mod number;
mod reading;
mod report;
mod settings;
mod unread;
mod words;

pub use cause::cause_text;
pub use exit::{Exit, Fault};
pub use input::Input;
pub use line_error::{BadLine, Hint, LineError, Quote, Reason};
pub use meaning::{parse_asked, parse_id};
pub use nearest::Nearest;
pub use number::{HexNumber, parse_hex_octet, parse_number};
pub use reading::read_up_to;
pub use report::answer::{Answer, Answered};
pub use report::name::{Name, hex_digit};
pub use report::wording::{
    Id, condition_name, condition_words, delivery_word, phase_word, status_word,
};
pub use report::{ToldWords, own_completions, write_answer, write_answers, write_indications};
pub use settings::Settings;
pub use settings::table::{Keys, Range, Setting, SettingsHelp, consider_keys, parse_setting};
pub use unread::Unread;
pub use words::{Words, cut_at_first, without_return};
