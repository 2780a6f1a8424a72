//! The laws of a session's items, as contracts of functions that do nothing.

ghost use Rattle.std.specs.Prelude.{◌≡◌, ◌≤◌, ◌+◌, ℕ, [], ◌∷◌, ◌++◌, List, Some, None, length, map};
ghost use Rattle.std.specs.Option.{option_to_list};
ghost use Rattle.gps_report.specs.declared.report.Report.{Report};
ghost use Rattle.session_core.specs.declared.mark.Close.{Close};
ghost use Rattle.session_core.specs.SessionView.{SessionView, last_place};
ghost use Rattle.session_core.specs.Stretches.{Stretch, AreInOrder, items_to, last_watched, left_of, placed_from, selected, stretches_at};
ghost use Rattle.session_core.specs.Holding.{Selection, Agrees, SessionGains, Holding};
ghost use Rattle.session_core.specs.Generations.{Generation, AreGenerations, run_items, run_reports, run_stretches};

/// Up to the history's end, more reports add what the last policy selects of them.
#[tactic(auto, using(crate::proofs::Growth::items_grow))]
pub fn items_grow_by_what_is_selected()
    ensures { (lines : Selection) (first : Stretch) (rest : List Stretch) (history more : List Report) → AreInOrder (length history) (first ∷ rest)
        → items_to lines (length (history ++ more)) (first ∷ rest) (history ++ more)
        ≡ items_to lines (length history) (first ∷ rest) history ++ selected lines (last_watched first.policy rest) more }
{}

/// Reports after the end add nothing.
#[tactic(auto, using(crate::proofs::Growth::items_stay))]
pub fn items_before_an_end_stay()
    ensures { (lines : Selection) (end : ℕ) (stretches : List Stretch) (history more : List Report) → end ≤ length history → AreInOrder end stretches
        → items_to lines end stretches (history ++ more) ≡ items_to lines end stretches history }
{}

/// A mark at the end adds only its reply.
#[tactic(auto, using(crate::proofs::Growth::items_marked))]
pub fn a_mark_adds_its_reply()
    ensures { (lines : Selection) (end : ℕ) (stretches : List Stretch) (last : Stretch) (history : List Report) → last.place ≡ end
        → items_to lines end (stretches ++ last ∷ []) history ≡ items_to lines end stretches history ++ option_to_list last.reply }
{}

/// No report is sent twice.
#[tactic(auto, using(crate::proofs::Intervals::one_stretch))]
pub fn an_index_stands_in_one_stretch_at_most()
    ensures { (index end : ℕ) (stretches : List Stretch) → AreInOrder end stretches → stretches_at index end stretches ≤ 1 }
{}

/// The items of the generations, joined, are those of one log without turns. The last generation may end at a closing.
#[tactic(auto, using(crate::proofs::Joining::generations, crate::proofs::Joining::whole_run))]
pub fn generations_join()
    ensures next { (lines : Selection) (end : ℕ) (earlier later : List Stretch) (before history : List Report) → AreInOrder (length before) earlier
        → items_to lines (length before + end) (earlier ++ map (placed_from (length before)) later) (before ++ history)
        ≡ items_to lines (length before) earlier before ++ items_to lines end (left_of earlier ++ later) history }
    ensures run { (lines : Selection) (run : List Generation) → AreGenerations run
        → run_items lines [] run ≡ items_to lines (length (run_reports run)) (run_stretches 0 run) (run_reports run) }
{}

/// An open session gains nothing by reports that its policy does not select, and a closed one gains nothing by any.
pub fn other_reports_add_nothing()
    ensures unselected { (lines : Selection) (history more : List Report) (s : SessionView) (stretches : List Stretch) → s.closing ≡ None
        → selected lines s.policy more ≡ [] → Holding lines history s stretches → SessionGains lines history (history ++ more) s s stretches stretches [] }
    ensures closed { (lines : Selection) (history more : List Report) (s : SessionView) (stretches : List Stretch) (closing : ℕ × Close)
        → s.closing ≡ Some closing
        → Agrees lines history s stretches → SessionGains lines history (history ++ more) s s stretches stretches [] }
{}

/// What two calls gain, one after the other.
pub fn gains_add_up()
    ensures { (lines : Selection) (first second third : List Report) (old mid now : SessionView) (before between after : List Stretch) (one two : List (List ℕ))
        → SessionGains lines first second old mid before between one → SessionGains lines second third mid now between after two
        → SessionGains lines first third old now before after (one ++ two) }
{}

/// A reply, a report or a closing at the history's length comes at or after the last mark.
pub fn marks_stand_within_the_history()
    ensures { (lines : Selection) (history : List Report) (s : SessionView) (stretches : List Stretch) → Agrees lines history s stretches
        → last_place 0 s.marks ≤ length history }
{}
