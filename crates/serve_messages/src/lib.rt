//! What the daemon says on standard error, and how it is told to stop. [`TellingWorld`] is the real world, which says what it opens and what becomes
//! of it. A [`Speaker`] writes messages from a thread of its own. [`Beside`] starts what runs beside the daemon: what waits for its stop, looks names up
//! and reports its numbers. This project's own.
#![tactic(auto)]

mod beside;
mod door_counts;
mod form;
mod later;
mod link_count;
mod lookup;
mod messages;
mod place_text;
mod readability;
mod report;
mod same_place;
mod start_notice;
mod stopping;
mod system;
mod tally;
mod telling;
mod telling_door;
mod telling_source;
mod terminal_check;
mod told_device;

pub use beside::Beside;
pub use form::{MessageForm, Weight};
pub use lookup::{DaemonMachine, LookupMachine, Lookups};
pub use messages::{Messages, Speaker, Tell, Voice};
pub use report::tell_report;
pub use same_place::tell_bad_places;
pub use stopping::{FileId, Machine, StopMachine, StopRequest, share};
pub use tally::{Report, Tally};
pub use telling::{Setup, TellingWorld};
pub use telling_door::TellingDoor;
pub use telling_source::TellingSource;
