//! The lanes of the running daemon: bounded queues between two threads, each with one end that puts and one that gets,
//! and the bells by which a thread that sleeps is woken. This project's own, over the queue of `crossbeam_queue`.
//!
//! The pieces that readers put into their lanes are here too: what one read gave, a line of pulse edges, and at the end how the source ended.
#![tactic(auto)]

mod bell;
mod bond;
mod chunk;
mod due;
mod ends;
mod order;
mod outlet;
mod piece;
mod short_line;
mod table_name;

pub use bell::Bell;
pub use chunk::Chunk;
pub use due::Due;
pub use ends::{Pushed, Rx, Tx, lane, lane_about, settle, settle_or_close};
pub use order::About;
pub use piece::{Ending, Piece};
pub use short_line::ShortLine;
pub use table_name::TableName;
