//! What the frames of the UBX protocol say: each frame as a note.
//!
//! Source: u-blox interface description, the messages UBX-NAV-PVT, UBX-NAV-SAT, UBX-NAV-DOP and UBX-NAV-EOE. All other
//! frames give a note with nothing in it.
#![tactic(auto)]

mod fields;
mod message;
mod motion;
mod pvt;
mod sat;
mod time;

pub use message::note_of_frame;
pub use time::times_are_sums;
