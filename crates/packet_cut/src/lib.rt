//! Cuts a stream of device bytes into packets: sentences of NMEA 0183 and frames of the u-blox protocol, mixed.
//!
//! At the head of the bytes a sentence or a frame is a packet, the beginning of either waits for more bytes, and
//! everything else is junk byte by byte, so that a packet inside the bytes of a broken one is still found. The rule
//! is this project's own.
#![tactic(auto)]

mod change;
mod cut;
mod cutter;
mod found;
mod head;
mod kept;
mod laws;
mod next;
mod placed;

pub use change::CutterChange;
pub use cut::PacketCut;
pub use cutter::Cutter;
pub use found::{Found, cut_all};
pub use head::{Head, head_at};
pub use laws::{
    heads_go_by_the_sets, packets_are_a_beginning, packets_are_long, packets_go_on, rest_is_short,
    stamps_change_no_packet,
};
pub use placed::{Placed, PlacedCut};
