//! The lines of a script: which event each of them is.
//!
//! A script drives a book and its monitors by hand, one event a line. What a line may be is said here line by line; what
//! earlier lines decide, as which devices there are and which number a session gets next, is not. The grammar is this
//! project's own.
//!
//! [`workload`] makes a script for measuring: two receivers, three sessions, four units and a monitor, for a given number of seconds. The same
//! seed gives the same script. Its sentences are of NMEA 0183.
#![tactic(auto)]

mod event;
mod laws;
mod line;
mod numbers;
mod payload;
mod script;
mod sentences;
mod words;

pub use event::ScriptEvent;
pub use laws::halves_are_joined_by_the_mark;
pub use line::event_of;
pub use script::workload;
