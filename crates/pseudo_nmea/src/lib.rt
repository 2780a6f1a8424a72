//! A fix as two sentences of NMEA 0183, one RMC and one GGA: so that programs that read only sentences can follow a
//! receiver which speaks UBX.
//!
//! What the sentences cannot say, the height above the ellipsoid and the climb, is left out. That the decoders of this
//! project give the rest back, of each fix that fits the sentences, is proved (see [`sentences_give_the_fix_back`]).
#![tactic(auto)]

mod dates;
mod fields;
mod laws;
mod pseudo;
mod sentence;

pub use laws::{
    fields_are_read_back, fixes_of_frames_fit, sentences_give_the_fix_back, texts_are_sentences,
};
pub use pseudo::{push_sentences, sentences_of};
