//! Epochs: the notes of one receiver, grouped by the moment that they are about, and the reports of each group.
//!
//! A note begins an epoch if its time tag changes or an end of epoch comes before it (this project's own rules).
//! An epoch gives its serial time, then a fix and a sky once it is closed.
#![tactic(auto)]

mod checkpoint;
mod days;
mod epochs;
mod fixes;
mod heard;
mod keys;
mod laws;
mod marks;
mod once;
mod point;
mod running;
mod said;
mod used_id;

pub use days::Days;
pub use epochs::Epochs;
pub use fixes::fix_of;
pub use heard::Heard;
pub use laws::{epochs_hold_all_notes, reports_are_those_of_the_closed_epochs};
pub use marks::all_marked;
pub use running::{is_eoe, is_gsa, system_of};
pub use said::{Said, is_fix_kind, is_sky_kind, itow_tag, serial_time, tod_tag};
pub use used_id::UsedId;
