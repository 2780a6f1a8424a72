//! The end of a daemon's run: what a daemon is told to serve, and what it hands back at its end.
//!
//! What is left of the daemon's devices, sessions and monitors is settled once all threads have ended. Both ends of each lane
//! are at hand, so it is known which of the pieces put were received. Each monitor is compared with what its unit has published. This project's own.
#![tactic(auto)]

mod device;
mod done;
mod laws;
mod monitor;
mod plan;
mod reader;
mod served;
mod session;

pub use device::{DeviceRun, device_done, device_failed};
pub use done::{DeviceDone, MonitorDone, SessionDone};
pub use hub_promise::DeviceEnd;
pub use laws::readers_tell_last_how_their_sources_ended;
pub use monitor::monitor_done;
pub use output_lines::SessionEnd;
pub use plan::Plan;
pub use served::Served;
pub use session::session_done;
