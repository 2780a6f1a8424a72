//! What a sentence of NMEA 0183 says, as a note: one reading for each kind of field, one rule for each kind of sentence.
//!
//! Read are GGA, RMC, GLL, GSA, GSV, VTG and ZDA of any talker. A field that is missing or unreadable is an absent
//! quantity, and a sentence of another kind gives a note with nothing in it.
#![tactic(auto)]

mod fields;
mod kinds;
mod laws;
mod notes;
mod places;
mod readings;
mod satellites;

pub use laws::bodies_are_split_at_commas;
pub use notes::note_of;
