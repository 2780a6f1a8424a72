//! The devices of a book, the opening of its generation and the log since, and their history.
//!
//! A log is kept by the pieces that came, never by symbols, and the reports themselves are not kept: the history is a function of logs.
//! A full log is forgotten by a turn, which keeps of it what later reports and replies need. This project's own.
#![tactic(auto)]

mod addition;
mod device_log;
mod device_stage;
mod device_state;
mod device_states;
mod gather;
mod generation;
mod laws;
mod log;

pub use addition::Addition;
pub use device_log::DeviceLog;
pub use device_stage::DeviceStage;
pub use laws::{
    history_goes_on, later_history_is_decided, stops_stand_in_the_log, turns_forget_no_device,
};
