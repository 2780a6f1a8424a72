//! The laws of the output of a script, and of its monitors, as contracts of functions that do nothing.

ghost use Rattle.std.specs.Prelude.{◌≡◌, ◌<◌, ◌^◌, ℕ, true, List, [], Some, None, length, map, slice_get};
ghost use Rattle.std.specs.List.{AllByRecursion, concat, filter, list_all};
ghost use Rattle.ubx_frame.specs.Frame.{is_byte};
ghost use Rattle.session_core.specs.declared.mark.Close.TheVariants.{HungUp};
ghost use Rattle.book_log.specs.History.{history};
ghost use Rattle.replay_script.specs.declared.event.ScriptEvent.TheVariants.{Hang};
ghost use Rattle.line_cut.specs.Lines.{line_cut, lines};
ghost use Rattle.output_lines.specs.Items.{item_line};
ghost use Rattle.shm_segment.specs.Rule.{Rises};
ghost use Rattle.replay_player.specs.Clients.{Client};
ghost use Rattle.replay_player.specs.Effects.{EventEffect, loads};
ghost use Rattle.replay_player.specs.States.{State};
ghost use Rattle.gps_replay.specs.Closings.{closings};
ghost use Rattle.gps_replay.specs.Run.{run};
ghost use Rattle.replay_laws.specs.Accounts.{Comes, HasCauseIf, IsHeard, IsLast, lines_run, log_of, state_after};
ghost use Rattle.replay_laws.specs.Readings.{IsOfPublished, is_by, line_of, lines_of, readings_at_load, readings_of, taken_by};
ghost use Rattle.replay_laws.specs.Outputs.{IsDrained, RefusesALine, RefusesNoLine, end_state, is_other_line, last_line_of_unit, last_state};
ghost use Rattle.replay_laws.specs.Outputs.{lines_taken, monitor_lines, output_so_far, session_lines, state_so_far, taken_line, taken_lines, unit_lines};

/// The output of a script is its lines, each with its line feed, and nothing else.
pub fn an_output_is_its_lines()
    ensures { (queue : ℕ) (script : List ℕ) → concat (lines (run queue script)) ≡ run queue script }
{}

/// The lines of session S in the output of a script are those that begin with `sS `. If no line of the script is refused, they are
/// the lines of all items that the session's run selects of the log, in order, and then its closing line (`whole`). If one is
/// refused, they are those of the items that were taken before it, the first of the same items (`refused`). A number that no
/// session has has no line (`none`).
pub fn sessions_are_written_their_items()
    ensures whole { (queue : ℕ) (script : List ℕ) (s : ℕ) (c : Client) → RefusesNoLine queue script
        → slice_get (end_state queue script).clients s ≡ Some c → IsDrained s (end_state queue script) c (run queue script) }
    ensures refused { (queue : ℕ) (script : List ℕ) (s : ℕ) (c : Client) → RefusesALine queue script
        → slice_get (last_state queue script).clients s ≡ Some c
        → session_lines s (run queue script) ≡ lines_taken s (last_state queue script) c }
    ensures none { (queue : ℕ) (script : List ℕ) (s : ℕ) → s < 2 ^ 64 → slice_get (last_state queue script).clients s ≡ None
        → session_lines s (run queue script) ≡ [] }
{}

/// Of the lines of a script those before the first refused one are run. The log is what the events of these lines bring. A session is
/// opened by one of them. It answers request k of all that these lines send it, in order, when that request was ended: by what the
/// lines before that one brought. While it is open it has answered each request, and at most 65,536 are answered.
pub fn sessions_answer_their_requests()
    ensures log { (queue : ℕ) (texts : List (List ℕ)) → (state_after queue texts).log ≡ log_of (lines_run queue texts) }
    ensures sessions { (queue : ℕ) (texts : List (List ℕ)) (s : ℕ) (c : Client) → slice_get (state_after queue texts).clients s ≡ Some c
        → IsHeard queue (state_after queue texts).names (state_after queue texts).log (lines_run queue texts) s c }
{}

/// A session that is closed was closed by one of these lines, for its cause (`cause`). One that a line hangs up was closed by that
/// line, at the place that it had then (`hung_up`). The end of a script closes those that are open (`at_end`).
pub fn sessions_are_closed_for_a_cause()
    ensures cause { (queue : ℕ) (texts : List (List ℕ)) (s : ℕ) (c : Client) → slice_get (state_after queue texts).clients s ≡ Some c
        → HasCauseIf queue (state_after queue texts).names (state_after queue texts).log (lines_run queue texts) s c c.run.closing }
    ensures hung_up { (queue : ℕ) (texts before : List (List ℕ)) (s : ℕ) (c : Client) → slice_get (state_after queue texts).clients s ≡ Some c
        → Comes (lines_run queue texts) before (Hang s) → c.run.closing ≡ Some (length (history (log_of before)), HungUp) }
    ensures at_end { (queue : ℕ) (script : List ℕ) (s : ℕ) (c : Client) → slice_get (end_state queue script).clients s ≡ Some c → IsLast queue script s c }
{}

/// Before the end of a script is read, the lines of session S in what is written are those of the items that were taken.
pub fn sessions_are_written_as_they_are_taken()
    ensures { (queue : ℕ) (bytes : List ℕ) (s : ℕ) (c : Client) → slice_get (state_so_far queue bytes).clients s ≡ Some c
        → session_lines s (output_so_far queue bytes) ≡ lines_taken s (state_so_far queue bytes) c }
{}

/// The line of an item determines the item: two items of bytes that have the same line are the same.
pub fn item_lines_tell_their_items()
    ensures { (s : ℕ) (one other : List ℕ) → list_all is_byte one ≡ true → list_all is_byte other ≡ true
        → item_line s one ≡ item_line s other → one ≡ other }
{}

/// The lines of monitor M in the output of a script are those that begin with `mM `. They are the lines of the readings that it
/// ended, in order (`readings`). Those that begin with `mM taken ` are the lines of the samples that it took (`taken`); see
/// `monitors_take_published_samples`.
pub fn monitors_are_written_their_readings()
    ensures readings { (queue : ℕ) (script : List ℕ) (m : ℕ) → m < 2 ^ 64
        → monitor_lines m (run queue script) ≡ map line_of (filter (is_by m) (readings_of queue (line_cut script))) }
    ensures taken { (queue : ℕ) (script : List ℕ) (m : ℕ) → m < 2 ^ 64
        → taken_lines m (run queue script) ≡ map (taken_line m) (taken_by m (readings_of queue (line_cut script))) }
{}

/// The line of unit U in the output of a script is the one that begins with `uU `. It says how many samples the history gave the unit
/// and were published, twice the number of the last of them, and how many had no number left. A unit without samples has no line
/// (`whole`), nor has any if a line of the script is refused (`refused`).
pub fn units_are_written_their_samples()
    ensures whole { (queue : ℕ) (script : List ℕ) (u : ℕ) → u < 2 ^ 64 → RefusesNoLine queue script
        → unit_lines u (run queue script) ≡ last_line_of_unit u (end_state queue script) }
    ensures refused { (queue : ℕ) (script : List ℕ) (u : ℕ) → RefusesALine queue script → unit_lines u (run queue script) ≡ [] }
{}

/// The closing lines of a script, which `generate` writes, are its output without the lines of items and of readings. A line of a
/// session is its closing line exactly if `drained` comes after its number: no item begins so.
pub fn closings_are_the_other_lines()
    ensures { (queue : ℕ) (script : List ℕ) → closings queue script ≡ concat (filter is_other_line (lines (run queue script))) }
{}

/// Each sample that a monitor takes is the published sample of its number: the number is above the unit's first number, by no more
/// than the number of samples that are published at that line (`published`). The numbers that one monitor takes do not fall
/// (`in_order`). It is said of the lines of any script; those up to the first refused one are run.
pub fn monitors_take_published_samples()
    ensures published { (queue : ℕ) (lines : List (List ℕ)) → AllByRecursion IsOfPublished (readings_of queue lines) }
    ensures in_order { (queue monitor : ℕ) (lines : List (List ℕ)) → Rises 0 (taken_by monitor (readings_of queue lines)) }
{}

/// The readings that a line of loads ends are those that it writes.
pub fn loads_write_their_readings()
    ensures { (monitor steps : ℕ) (state : State) (effect : EventEffect) → loads monitor steps state ≡ Some effect
        → effect.written ≡ lines_of (readings_at_load monitor steps state) }
{}
