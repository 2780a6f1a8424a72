//! The list of admitted sessions and dropped links, on which the hub of the running daemon and its door worker agree. The hub is behind a
//! lock, so what was known of it is forgotten at each call; what the door worker's seat knows is not. This project's own.
#![tactic(auto)]

mod keeper;
mod naming;
mod plays;
mod rule;
mod seat;
mod steps;
mod table;
mod view;

pub use keeper::Keeper;
pub use naming::DoorNaming;
pub use plays::Entering;
pub use seat::DoorSeat;
pub use table::DoorTable;
pub use view::{DoorView, Entry};
