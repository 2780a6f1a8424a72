//! The lines of a run's output: an item that was sent to a session, the end of a reading, and the lines that close a run.
//!
//! Each call adds one line, with its end, to a buffer. What a refusal leaves in the buffer is open. The lines are this
//! project's own.
#![tactic(auto)]

mod closing;
mod item;
mod reading;
mod word;

pub use closing::{SessionEnd, push_closing_line, push_unit_line};
pub use item::push_item_line;
pub use reading::push_reading_line;
