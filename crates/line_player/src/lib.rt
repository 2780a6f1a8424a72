//! The lines of a text, run one after the other as they are read from a source, and their output written to a sink.
#![tactic(auto)]

mod fault;
mod lines;
mod playing;
mod plays_lines;

pub use playing::play;
pub use plays_lines::{EndStep, LineStep, PlaysLines};
