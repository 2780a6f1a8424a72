//! A world: what gives the running daemon its sources, its door and its clock. This project's own.
//!
//! One in memory holds what it gives and has modelled contents; the real one opens files, connections and a listener. [`open`] opens
//! what a daemon works with: its inputs, the places of its edges, and its door.
#![tactic(auto)]

mod asked;
mod daemon;
mod deadline;
mod head_source;
mod held_pipes;
mod loss;
mod memory_world;
mod open_files;
mod opener;
mod opening;
mod place;
mod reading;
mod real_gate;
mod real_input;
mod real_world;
mod world;

pub use asked::Asked;
pub use daemon::DaemonFault;
pub use held_pipes::{HeldPipes, WaitingPipes};
pub use loss::Loss;
pub use memory_world::MemoryWorld;
pub use opening::{Outside, Stop, open};
pub use place::Place;
pub use real_gate::RealGate;
pub use real_input::RealInput;
pub use real_world::RealWorld;
pub use world::{Opened, World};
