//! The one history of a daemon, in one thread: its devices, the sessions that are each given what their policies select, and the samples
//! that wait for its segments.
//!
//! A daemon runs longer than one history: at its limit of symbols a book begins a new generation and forgets the old log, and what later
//! reports, replies and samples need of it is kept. No session sees it.
#![tactic(auto)]

mod book;
mod fault;
mod knowing;
mod placing;
mod telling;

pub use book::Book;
pub use book_batch::Batch;
pub use book_sessions::spread;
pub use book_units::{UnitState, UnitStep};
pub use fault::BookFault;
