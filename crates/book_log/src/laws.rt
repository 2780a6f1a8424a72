//! The laws of a history, as contracts of functions that do nothing.

ghost use Rattle.std.specs.Prelude.{◌≡◌, ◌<◌, ◌++◌, ℕ, true, List, get_or, length};
ghost use Rattle.book_log.specs.Entries.{Entry, GoesOn, has_end, has_lost, stops_in};
ghost use Rattle.book_log.specs.History.{history, history_after};
ghost use Rattle.book_log.specs.Standing.{DeviceStateView, StandsFor, DeviceStatesView, is_ended, is_lost};
ghost use Rattle.book_log.specs.DeviceLogView.{LogHolds, DeviceLogView, stopped_of, turned};

/// A longer log has the history of its beginning, and then what the rest adds after it.
#[tactic(auto, using(crate::proofs::HistoryLaws::whole_history, crate::proofs::HistoryLaws::parts_of_history))]
pub fn history_goes_on()
    ensures whole { (before log : List Entry) → history (before ++ log) ≡ history before ++ history_after before log }
    ensures parts { (before log more : List Entry) → history_after before (log ++ more) ≡ history_after before log ++ history_after (before ++ log) more }
{}

/// What more of a log adds is the same after all logs that one summary stands for, and so is the history of a generation.
#[tactic(auto, using(crate::proofs::HistoryLaws::history_decided, crate::proofs::ReadLaws::generation_decided))]
pub fn later_history_is_decided()
    ensures generation { (b : DeviceLogView) (before other : List Entry) → LogHolds b → StandsFor b.opening before → StandsFor b.opening other
        → history_after before b.log ≡ history_after other b.log }
    ensures more { (kept : DeviceStatesView) (before other log : List Entry) → StandsFor kept before → StandsFor kept other
        → GoesOn (length kept.lines) before log → history_after before log ≡ history_after other log }
{}

/// A turn's opening stands for each log that the old one stood for, followed by the log since; and what always holds goes on holding.
#[tactic(auto, using(crate::proofs::ReadLaws::turn_stands, crate::proofs::LoggedSteps::turned_holds))]
pub fn turns_forget_no_device()
    ensures stands { (b : DeviceLogView) (before : List Entry) → LogHolds b → StandsFor b.opening before → StandsFor (turned b).opening (before ++ b.log) }
    ensures holds { (b : DeviceLogView) → LogHolds b → LogHolds (turned b) }
{}

/// A device has its end in the whole log exactly if it has ended, and its loss exactly if it was lost.
#[tactic(auto, using(crate::proofs::ReadLaws::stops_stand, crate::proofs::ReadLaws::end_stands, crate::proofs::ReadLaws::loss_stands))]
pub fn stops_stand_in_the_log()
    ensures stopped { (b : DeviceLogView) (before : List Entry) (d : ℕ) → LogHolds b → StandsFor b.opening before → d < length b.present.lines
        → get_or (stopped_of b.present) d true ≡ stops_in d (before ++ b.log) }
    ensures ended { (b : DeviceLogView) (before : List Entry) (d : ℕ) (free : DeviceStateView) → LogHolds b → StandsFor b.opening before
        → d < length b.present.lines
        → is_ended (get_or b.present.lines d free).stage ≡ has_end d (before ++ b.log) }
    ensures lost { (b : DeviceLogView) (before : List Entry) (d : ℕ) (free : DeviceStateView) → LogHolds b → StandsFor b.opening before
        → d < length b.present.lines
        → is_lost (get_or b.present.lines d free).stage ≡ has_lost d (before ++ b.log) }
{}
