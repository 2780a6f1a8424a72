//! The lines that a session is sent: reports and replies as JSON objects after gpsd_json(5), and packets as
//! they came or in hexadecimal. The exact texts are this project's own.
#![tactic(auto)]

mod array;
mod device;
mod fixed_lines;
mod line;
mod member;
mod names;
mod object;
mod placing;
mod poll;
mod pulse;
mod sky;
mod tpv;
mod watch;

pub use device::devices_line;
pub use fixed_lines::{error_line, version_line};
pub use line::{line_of, push_line, push_text};
pub use names::{Class, Key, head, label};
pub use poll::poll_line;
pub use watch::watch_line;
