//! One session: its marks, its items and the outlet that takes them. An item is either the whole reply to one opening or
//! request, or one selected report. This project's own.
#![tactic(auto)]

mod item;
mod laws;
mod mark;
mod outlet;
mod plain_outlet;
mod session;
mod subject;

pub use item::Item;
pub use laws::{
    a_mark_adds_its_reply, an_index_stands_in_one_stretch_at_most, gains_add_up, generations_join,
    items_before_an_end_stay, items_grow_by_what_is_selected, marks_stand_within_the_history,
    other_reports_add_nothing,
};
pub use mark::{Close, Mark};
pub use outlet::{Outlet, Push, TwoEnded};
pub use plain_outlet::PlainOutlet;
pub use session::Session;
pub use subject::{DeviceHeld, Subject};
