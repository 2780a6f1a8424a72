//! The hub of the running daemon: one book, the lanes of its devices and sessions, and the state of its door, all under one lock. Each
//! call is one event. Its type keeps what always holds of the daemon: what the book has is what was received
//! from the lanes, and what each session was given is what its requests select of that.
#![tactic(auto)]

mod device;
mod door;
mod hub;
mod inlets;
mod naming;
mod open_sessions;
mod parted;
mod pumped;
mod session;
mod settling;

pub use gps_lane::{Ending, Piece};
pub use hub::Hub;
pub use hub_door::{DoorNaming, DoorSeat, DoorTable};
pub use hub_promise::DeviceEnd;
pub use inlets::Inlets;
pub use naming::HubNaming;
pub use open_sessions::Look;
pub use parted::Parted;
pub use pumped::Pumped;
