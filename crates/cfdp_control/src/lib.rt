//! Lines of commands to a running station: what they ask for, and where they come from, which is
//! standard input, connections of clients (`ask` is one), and browsers.
//!
//! Tested by `tests/rows/stations.rows`, `tests/stations.py` and `tests/console.py`, through the
//! program above.
#![tactic(auto)]

mod cause;
mod command;
mod connection;
mod control_client;
mod json_answer;
mod laws;
mod line;
mod line_buffer;
mod line_sources;
mod shown;
mod standard_input;
mod stream;
mod web_door;

pub use cause::{address_cause, is_malformed};
pub use command::{
    Asked, CommandError, CommandHelp, Verb, parse_command, printed_names, split_form,
};
pub use control_client::ask;
pub use laws::a_printed_name_is_read_as_itself;
pub use line::{LineFault, Speaker};
pub use line_sources::{ControlError, LineSources};
pub use stream::{remove_socket, socket_path};
pub use web_door::{DoorError, WebDoor};
