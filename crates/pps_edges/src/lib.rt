//! Captured pulse edges: their text, and which of them mark a second whose time the satellites gave.
//!
//! An edge has the capture's sequence number and stamp, as the pulse-per-second interface of RFC 2783
//! hands them out. The text form and the pairing with serial time are this project's own.
#![tactic(auto)]

mod line;
mod pulses;

pub use line::{edge_of_line, nine_digits, whole_number};
pub use pulses::Pulses;
