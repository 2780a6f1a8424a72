//! The units of a book: for each device one of its serial times and one of its pulses.
//!
//! A unit hands samples to any number of monitors through a shared segment. It has the segment's one publisher, and the
//! samples that wait to be published. At a turn a book forgets its old history; what a unit has not published is carried
//! over it, and no segment, no monitor and no sample is touched.
#![tactic(auto)]

mod laws;
mod unit;
mod units;

pub use laws::reports_give_samples_in_order;
pub use unit::{UnitState, UnitStep};
pub use units::Units;
