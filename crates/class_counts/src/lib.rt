//! Counts of what came: the lines of each class for `lines`, from a source to a sink, and the packets of each kind among the first bytes of a device
//! ([`FirstBytes`]), for a message that says why there is no fix. This project's own.
#![tactic(auto)]

mod counting;
mod first_bytes;
mod reading;
mod running;
mod tally;
mod writing;

pub use first_bytes::{Finding, FirstBytes, PacketCounts};
pub use running::count_lines;
