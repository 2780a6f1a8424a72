//! The commands but `serve`, each from a source to a sink: [`run`] does what the words ask for and gives the exit status. Round it stand the
//! standard streams as a command uses them, and what is said on standard error if the status is not 0. This project's own.
#![tactic(auto)]

mod answering;
mod laws;
mod progress;
mod reasons;
mod run_outcome;
mod running;
mod standard_streams;
mod streams;

pub use answering::answer;
pub use laws::{faults_show_at_their_statuses, statuses_if_nothing_fails};
pub use reasons::{say, tell_end, tell_no_memory, tell_no_text, tell_refused};
pub use run_outcome::{REFUSED, RunOutcome};
pub use running::{run, run_words};
pub use standard_streams::StandardStreams;
pub use streams::{CountedInput, CountedOutput};
