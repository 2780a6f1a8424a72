//! The JSON lines of this project's daemon, read back: a line is read exactly if it is the text of a value in range, each byte of it.
//!
//! The lines are those that `json_line` writes, after gpsd_json(5). Lines of other daemons are not read.
#![tactic(auto)]

mod class;
mod cursor;
mod device;
mod fault;
mod fix;
mod laws;
mod line;
mod list;
mod members;
mod numbers;
mod object;
mod poll;
mod pulse;
mod reading;
mod sky;
mod texts;
mod watch;

pub use class::class_of;
pub use fault::LineFault;
pub use json_line::Class;
pub use laws::{polls_name_their_devices, reports_are_read_back};
pub use line::{Fixes, Line, Listed, Polled, Skies};
pub use reading::read_line;
