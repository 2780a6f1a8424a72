//! What each event of a script does to a book, its sessions and its monitors, in one thread.
//!
//! A monitor's load gives a word after a number of stores that lies between the number that the monitor knew of and the
//! one that the publisher has made when it hears of the load. Here the monitor is told before each load and the publisher
//! hears after it, and no store comes between: so the word is exactly the one that the publisher has stored.
//!
//! Here are also the laws of a unit's stores: what its publisher does next, and what the unit shows, is a function of its first
//! number, its samples and its number of stores.
#![tactic(auto)]

mod declarations;
mod ends;
mod event_step;
mod exact;
mod laws;
mod player;
mod playing;
mod replay_book;
mod script_end;
mod segments;
mod sessions;
mod unit_monitor;

pub use declarations::Declarations;
pub use event_step::EventStep;
pub use laws::stores_have_a_closed_form;
pub use player::Player;
pub use replay_book::ReplayBook;
pub use script_end::ScriptEnd;
pub use unit_monitor::UnitMonitor;
