//! Another daemon as a device: the head of lines that it sends before its packets, and what is handed on after it. This project's own.
#![tactic(auto)]

mod laws;
mod stage;

pub use laws::{
    another_daemon_is_a_device, heads_are_taken_off, heads_end_exactly, requests_are_understood,
};
pub use stage::Stage;
