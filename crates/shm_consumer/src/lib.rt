//! A shared segment of twelve words, through which one giver hands samples to one taker.
//!
//! The words are those of the NTP reference clock driver 28 (shared memory), mode 1. The giver stores a sample as the
//! publisher of `shm_segment` does. The taker reads as a monitor does, and then clears `valid`: it uses up the sample.
//! So two sides store into `valid`, and the rule that every step keeps says that no sample is consumed twice, that the
//! numbers of those consumed rise strictly, and that each of them was published whole.
//!
//! [`HandOff`] holds the words, [`Giver`] stores samples into them and [`Taker`] consumes them. A [`HandNotice`] carries
//! to the taker what was published.
#![tactic(auto)]

mod consumption;
mod giver;
mod hand_off;
mod loads;
mod notice;
mod plays;
mod rule;
mod stores;
mod taker;
mod view;

pub use consumption::{Consumption, TakeStep};
pub use giver::Giver;
pub use hand_off::{HandOff, HandSeat, HandTable};
pub use notice::HandNotice;
pub use rule::HandOffRule;
pub use shm_segment::{Begin, Phase, PubStep, Sample};
pub use taker::Taker;
pub use view::{Access, Role, View};
