//! Scripts: a script is read line by line and played on a book in one thread. How much a generation of the book holds changes nothing.
#![tactic(auto)]

mod generating;
mod held;
mod quiet;
mod replaying;
mod script;

pub use generating::generate;
pub use replay_script::workload;
pub use replaying::{replay, replay_core};
