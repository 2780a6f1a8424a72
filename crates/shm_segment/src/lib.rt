//! A shared segment of twelve words, in which one publisher hands samples to any number of monitors.
//!
//! The words are those of the NTP reference clock driver 28 (shared memory), mode 1: the publisher makes `count` odd,
//! writes the body, and makes `count` even again. Each store and each load is one atomic step on one word, and the
//! rule that every step keeps says that a monitor never takes a sample which was not published whole.
//!
//! [`Segment`] holds the words and [`Publisher`] stores into them. A [`MonitorSeat`], a [`Notice`] and an [`Account`] are
//! seats of the same table, which other threads step with or carry knowledge in.
#![tactic(auto)]

mod plays;
mod publisher;
mod rule;
mod sample;
mod seats;
mod segment;
mod stores;
mod view;
mod word_numbers;

pub use plays::Accounts;
pub use publisher::{Begin, Phase, PubStep, Publisher};
pub use rule::SegmentRule;
pub use sample::Sample;
pub use seats::{Account, MonitorSeat, Notice};
pub use segment::{Segment, SegmentTable, TableSeat};
pub use view::{KnownSamples, Load, Numbered, Role, View};
pub use word_numbers::{BODY, COUNT, VALID};
