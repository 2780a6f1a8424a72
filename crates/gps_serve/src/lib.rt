//! The running daemon: its threads round one hub. Readers put what their sources give into lanes, the calling thread pumps the lanes into the
//! hub (`serve_floor`), a door worker admits sessions, each of which has a reader and a writer (`serve_door`), one worker publishes samples,
//! and monitors take them. This project's own.
//!
//! A thread that has nothing to do waits in a read, in an accept, or on a bell.
#![tactic(auto)]

mod daemon_end;
mod gathering;
mod ground;
mod lanes;
mod laws;
mod readers;
mod scope;
mod served;
mod settling;
mod starts;
mod status;

pub use laws::ended_devices_are_logged_whole;
pub use serve_end::{DeviceDone, DeviceEnd, MonitorDone, Plan, Served, SessionDone, SessionEnd};
pub use served::serve;
