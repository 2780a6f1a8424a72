//! What a session watches: the changes that WATCH objects ask for, the policy after them, and which report
//! a policy selects in which form. After the WATCH object of gpsd_json(5); that an absent member other than
//! `enable` keeps its value is this project's own.
#![tactic(auto)]

mod change;
mod policies;
mod selection;

pub use change::{Change, ChangeFault, change_of};
pub use policies::{opening, updated};
pub use selection::selects;
