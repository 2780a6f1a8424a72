//! What the output of a script holds: the items of its sessions, the readings of its monitors, and its closing lines. And what its
//! monitors take, through all of its lines. This project's own.
#![tactic(auto)]

mod laws;

pub use laws::{
    an_output_is_its_lines, closings_are_the_other_lines, item_lines_tell_their_items,
    loads_write_their_readings, monitors_are_written_their_readings,
    monitors_take_published_samples, sessions_answer_their_requests,
    sessions_are_closed_for_a_cause, sessions_are_written_as_they_are_taken,
    sessions_are_written_their_items, units_are_written_their_samples,
};
