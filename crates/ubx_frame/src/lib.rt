//! The frames of the UBX protocol: where a list of bytes begins with a whole frame, or may still become one.
//!
//! Source: u-blox interface description, UBX frame structure and UBX checksum. A payload has at most 2,048 bytes
//! here, which is this project's own limit.
#![tactic(auto)]

mod checksum;
mod finder;
mod frame;
mod laws;
mod window;

pub use finder::FrameFinder;
pub use frame::{Shape, frame_at};
pub use laws::{parts_are_read, shapes_are_stable};
