//! A source whose silence ends an epoch: NMEA does not say when the sentences of one moment are complete. (This project's own; the frame that says so
//! is u-blox' UBX-NAV-EOE.)
//!
//! `CycleSource::new(alloc, source, Some(100))` hands on what the source gives. After 100 ms without a byte it puts a NAV-EOE frame behind it, if no
//! packet is open and the last one is no NAV-EOE.
#![tactic(auto)]

mod cycle_source;
mod handed;
mod laws;
mod split_watch;

pub use cycle_source::CycleSource;
pub use laws::{an_end_put_in_changes_no_packet, frames_put_in_stand_between_the_packets};
pub use split_watch::Split;
