//! A monitor of a shared segment: it takes samples by loads of its own, while the publisher stores.
//!
//! A reading loads count, valid, the nine words of the body, and count again. If the two counts are equal, the body
//! that lies between them was published whole, and half of the count is its number. The words are those of the NTP
//! reference clock driver 28 (shared memory), mode 1.
#![tactic(auto)]

mod loads;
mod monitor;
mod plays;
mod reading;

pub use monitor::Monitor;
pub use reading::{MonStep, Reading};
pub use shm_segment::Numbered;
