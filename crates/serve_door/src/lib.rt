//! The door worker of the running daemon: it takes links, has a session admitted for each, starts the session's threads, and empties its
//! lanes once the session is closed.
#![tactic(auto)]

mod attended;
mod context;
mod door;
mod door_thread;
mod doorman;
mod due_sinks;
mod places;
mod release;
mod seated;

pub use context::DoorContext;
pub use door::{DoorBegin, DoorDone};
pub use door_thread::{Tending, start_door};
pub use due_sinks::DueSinks;
pub use places::PIECES;
