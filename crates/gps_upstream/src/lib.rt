//! Another daemon as a source: it is asked for its packets, the head of lines before them is taken off, and the packets are handed on.
//!
//! `Upstream` is a source over one connection, which has a source and a sink. The lines are those of this project's own daemon, after
//! gpsd_json(5).
#![tactic(auto)]

mod asking;
mod begin;
mod cutter;
mod head;
mod reading;
mod upstream;

pub use head::Head;
pub use upstream::Upstream;
