//! A session over the whole run, through all generations of the history. This project's own.
#![tactic(auto)]

mod account_laws;
mod asking_laws;
mod laws;

pub use account_laws::{
    a_closed_session_hears_nothing, a_closing_ends_an_account, a_new_session_has_an_account,
    entries_carry_accounts, input_extends_an_account, others_keep_their_accounts,
    quiet_entries_carry_accounts, shutting_ends_accounts, taking_moves_an_item,
};
pub use asking_laws::{
    a_closing_is_not_heard, a_new_client_has_sent_nothing, each_stretch_has_its_policy,
    entries_are_not_heard, shutting_is_not_heard, taking_is_not_heard, what_is_heard_is_answered,
    what_is_sent_in_vain_has_no_answer, what_was_sent_stays_answered,
};
pub use laws::{
    a_closing_ends_a_run, a_new_session_begins_a_run, a_run_is_in_order, a_turn_keeps_a_run,
    answers_extend_a_run, entries_extend_all_runs, one_run_changes, quiet_entries_keep_all_runs,
    reports_close_by_overrun, reports_extend_a_run, shutting_ends_a_run, shutting_ends_all_runs,
    taking_keeps_a_run, what_a_run_gains_is_given, what_is_taken_was_given_first,
};
