//! The laws of sessions, as contracts of functions that do nothing.

ghost use Rattle.std.specs.Prelude.{◌≡◌, ℕ, true, List, None};
ghost use Rattle.gps_report.specs.declared.report.Report.{Report};
ghost use Rattle.session_core.specs.Holding.{Selection};
ghost use Rattle.session_core.specs.SessionView.{SessionView};
ghost use Rattle.book_sessions.specs.Spreading.{Reports, TakesByRoom, due};

/// Over exact outlets, whose room is known: what is due is pushed as far as there is room, and the first line beyond it closes the session. So
/// an open session whose outlet keeps no more than it may hold stays open exactly if that and what is due are together at most its capacity.
#[tactic(auto, using(crate::proofs::Overruns::overrun_is_by_room))]
pub fn exact_outlets_overrun_by_room()
    ensures { (lines : Selection) (first : ℕ) (reports : List Report) (old new : SessionView) → old.closing ≡ None
        → Reports true lines first reports old new → TakesByRoom (due lines old.policy first reports) old new }
{}
