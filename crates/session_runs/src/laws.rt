//! What the calls of a book do to the runs of its sessions, as contracts of functions that do nothing.

ghost use Rattle.session_runs.specs.Laws.{AdmittedRunBegins, AnswersExtendRuns, ClosingsEndRuns, GivenMore, GivenTaken, MovesExtendRuns, OneRunChanges, QuietEntriesKeepRuns, ReportsExtendRuns, ReportsOverrun, RunsAreInOrder, ShutAllRuns, ShutsEndRuns, TakingKeepsRuns, TurnsKeepRuns};

/// A new session has one stretch, its opening, after the whole log.
pub fn a_new_session_begins_a_run()
    ensures { AdmittedRunBegins }
{}

/// Reports come to one session: its items of the whole run and what its outlet keeps gain the same lines.
pub fn reports_extend_a_run()
    ensures { ReportsExtendRuns }
{}

/// Reports close a session only by an overrun, at the place of one of them.
pub fn reports_close_by_overrun()
    ensures { ReportsOverrun }
{}

/// The stretches of a run are in order, within the whole history.
pub fn a_run_is_in_order()
    ensures { RunsAreInOrder }
{}

/// A turn leaves a run as it is.
pub fn a_turn_keeps_a_run()
    ensures { TurnsKeepRuns }
{}

/// Entries come to a book, after a turn or without one: each run goes on.
pub fn entries_extend_all_runs()
    ensures { MovesExtendRuns }
{}

/// Entries that give no report leave each run as it is.
pub fn quiet_entries_keep_all_runs()
    ensures { QuietEntriesKeepRuns }
{}

/// Answers are further stretches, after the whole log.
pub fn answers_extend_a_run()
    ensures { AnswersExtendRuns }
{}

/// A closing is after the whole log.
pub fn a_closing_ends_a_run()
    ensures { ClosingsEndRuns }
{}

/// A session that is shut is closed after the whole log, if it was open.
pub fn shutting_ends_a_run()
    ensures { ShutsEndRuns }
{}

/// All sessions are shut.
#[tactic(auto, using(crate::proofs::Books::shut_all))]
pub fn shutting_ends_all_runs()
    ensures { ShutAllRuns }
{}

/// What was taken of the items changes no run.
#[tactic(auto, using(crate::proofs::Going::taking_keeps))]
pub fn taking_keeps_a_run()
    ensures { TakingKeepsRuns }
{}

/// If one session changes, the run of each other one is as it was.
pub fn one_run_changes()
    ensures { OneRunChanges }
{}

/// An outlet is given what the run gains.
#[tactic(auto, using(crate::proofs::Books::given_more))]
pub fn what_a_run_gains_is_given()
    ensures { GivenMore }
{}

/// Items are taken in the order in which they were given.
#[tactic(auto, using(crate::proofs::Books::given_taken))]
pub fn what_is_taken_was_given_first()
    ensures { GivenTaken }
{}
