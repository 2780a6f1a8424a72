//! Sentences of NMEA 0183 at the head of a list of bytes.
//!
//! A sentence is `$`, a body of printable bytes, `*`, two hexadecimal digits, an optional CR, and LF
//! (NMEA 0183). That its checksum is required, and that it has at most 128 bytes, is this project's own.
#![tactic(auto)]

mod body_length;
mod laws;
mod sentence;

pub use laws::{body_is_read, shapes_are_stable};
pub use sentence::{Shape, checksum, sentence_at};
