//! All sessions of a run, by number, also those that are closed: what each is answered, what is spread to it, its closing
//! and the turn. No call walks over sessions that were closed before this generation. This project's own.
#![tactic(auto)]

mod laws;
mod member;
mod roster;
mod spreading;
mod texts;
mod walk;

pub use laws::exact_outlets_overrun_by_room;
pub use roster::{AdmitFault, Roster};
pub use spreading::spread;
