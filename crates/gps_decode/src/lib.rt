//! What a receiver sends, read to its end and written as the JSON lines of its fixes and skies, or as two sentences of NMEA
//! 0183 for each fix: what the commands `decode` and `pseudo` do.
#![tactic(auto)]

mod decoding;
mod fault;
mod texts;

pub use decoding::{decode, pseudo};
