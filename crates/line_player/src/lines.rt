ghost use Rattle.std.specs.Prelude.{◌≡◌, ◌≤◌, ◌<◌, ◌+◌, ◌-◌, ◌^◌, ◌++◌, [], List, ℕ, Ok, IfOk, OnOk, length};
ghost use Rattle.line_cut.specs.Standing.{StandsFor, spelling};
ghost use Rattle.line_player.specs.Rules.{text_in};
ghost use Rattle.line_player.specs.Courses.{bad_line, course_so_far, output_of, whole_course, written_so_far};
ghost use Rattle.line_player.specs.LineSteps.{EndPart, IsAt, IsDue, IsDueAtEnd, RunsLast, RunsLines, StepDone};
ghost use Rattle.line_player.specs.declared.lines.Round.{Round};
ghost use Rattle.line_player.specs.declared.plays_lines.EndStep.{EndStep};
ghost use Rattle.line_player.specs.declared.plays_lines.LineStep.{LineStep};

use crate::plays_lines::{EndStep, LineStep, PlaysLines};
use gps_fixed::{Bytes, NoMemory, push_decimal};
use line_cut::{Last, Limit, LineCutter, Next, WholeLine, text_of};
use std::alloc::Global;

/// At the end this many bytes are written before more are added.
const ENOUGH_DUE: usize = 65_536;

/// What became of the lines that were known.
#[derive(Clone, Copy)]
pub(crate) enum Round {
    /// Each of them was run.
    Run,
    /// The line of this number was refused, and those before it were run.
    RefusedAt { number: u64 },
}

/// The lines of a text as its pieces come: how many were run, and what is due and not yet written.
#[derive(Drop)]
pub(crate) struct Lines {
    limit: Limit,
    cutter: LineCutter,
    count: u64,
    due: Bytes,
}

/// The part of a line that is run.
fn text_in(limit: Limit, line: &[u8]) -> &[u8]
    ensures { result.now ≡ text_in limit line.now }
{
    match limit {
        Limit::Text(_) => text_of(line),
        Limit::Whole(_) => line,
    }
}

/// Runs an ended line. It only forwards, for the prover: its contract says all of it by one relation.
fn run_line<P: PlaysLines>(
    limit: Limit,
    player: &mut P,
    line: WholeLine<'_>,
    due: &mut Bytes,
) -> Result<LineStep, NoMemory>
    requires known { (state : P.State) × P.stands player.old state }
    ensures rounds { (state : P.State) → P.stands player.old state
        → StepDone result (P.rules player.old) state (text_in limit (spelling line.entry)) (P.stands player.new) due.old due.new }
    ensures rules_stay { P.rules player.new ≡ P.rules player.old }
{
    player.line(text_in(limit, line.as_slice()), due)
}

#[tactic(auto, unfolding(crate::specs::Courses::bad_line))]
fn push_bad_line(out: &mut Bytes, number: u64) -> Result<(), NoMemory>
    ensures { OnOk result (out.new ≡ out.old ++ bad_line number) }
{
    out.extend_from_slice(b"bad line ")?;
    push_decimal(out, number)?;
    out.extend_from_slice(b"\n")
}

impl Lines {
    /// Before the first byte.
    pub(crate) fn new(alloc: Global, limit: Limit) -> Lines
        ensures limit { result.limit ≡ limit }
        ensures cutter_limit { result.cutter.limit ≡ limit }
        ensures stands { StandsFor result.cutter [] }
        ensures count { result.count ≡ 0 }
    {
        Lines {
            limit,
            cutter: LineCutter::new(alloc, limit),
            count: 0,
            due: Bytes::new(alloc),
        }
    }

    pub(crate) fn due(&self) -> &[u8]
        ensures { result.now ≡ self.now.due }
    {
        self.due.as_slice()
    }

    /// What was due was written.
    pub(crate) fn clear_due(&mut self)
        ensures { self.new.due ≡ [] }
    {
        self.due.clear();
    }

    /// Runs the lines that a piece makes known, up to the first refused one.
    #[tactic(auto)]
    fn run<P: PlaysLines>(&mut self, player: &mut P, piece: &[u8]) -> Result<LineStep, NoMemory>
        // The count has room, and the player has run the lines that were read before.
        requires room { self.old.count + length piece.now < 2 ^ 64 - 1 }
        requires limit { self.old.limit ≡ (P.rules player.old).limit }
        requires known { (bytes : List ℕ) × IsAt (P.rules player.old) bytes self.old.cutter self.old.count (P.stands player.old) }

        // What the piece adds.
        ensures runs { (bytes : List ℕ) → IsAt (P.rules player.old) bytes self.old.cutter self.old.count (P.stands player.old)
            → RunsLines result (P.rules player.old) bytes piece.now self.new.cutter self.new.count (P.stands player.new) self.old.due self.new.due }

        // The count rises by at most the length of the piece. The limit and the rules stay.
        ensures number { self.new.count ≤ self.old.count + length piece.now }
        ensures limit_stays { self.new.limit ≡ self.old.limit }
        ensures rules_stay { P.rules player.new ≡ P.rules player.old }
    {
        let mut rest = piece;
        'lines: loop {
            match self.cutter.next(rest)? {
                Next::Line(line, used) => {
                    match run_line(self.limit, player, line, &mut self.due)? {
                        LineStep::Made => {
                            self.count += 1;
                            rest = &rest[used..];
                        }
                        LineStep::Refused => return Ok(LineStep::Refused),
                    }
                }
                Next::TooLong(_) => return Ok(LineStep::Refused),
                Next::Used => return Ok(LineStep::Made),
            }
        }
    }

    /// Adds the refusal of the next line to what is due.
    fn refuse(&mut self) -> Result<Round, NoMemory>
        requires room { self.old.count < 2 ^ 64 - 1 }
        ensures refused { IfOk result (λ round. round ≡ Round.RefusedAt (self.old.count + 1)) }
        ensures due { OnOk result (self.new.due ≡ self.old.due ++ bad_line (self.old.count + 1)) }
        ensures cutter { self.new.cutter ≡ self.old.cutter }
        ensures count { self.new.count ≡ self.old.count }
        ensures limit { self.new.limit ≡ self.old.limit }
    {
        let number = self.count + 1;
        push_bad_line(&mut self.due, number)?;
        Ok(Round::RefusedAt { number })
    }

    /// Adds what the lines of a piece write to what is due.
    pub(crate) fn take<P: PlaysLines>(
        &mut self,
        player: &mut P,
        piece: &[u8],
    ) -> Result<Round, NoMemory>
        // The count has room, and the player has run the lines that were read before.
        requires room { self.old.count + length piece.now < 2 ^ 64 - 1 }
        requires limit { self.old.limit ≡ (P.rules player.old).limit }
        requires known { (bytes : List ℕ) × IsAt (P.rules player.old) bytes self.old.cutter self.old.count (P.stands player.old) }

        // What is due after the piece, and how far the player is.
        ensures due { (bytes : List ℕ) → IsAt (P.rules player.old) bytes self.old.cutter self.old.count (P.stands player.old)
            → IsDue result (course_so_far (P.rules player.old) (bytes ++ piece.now)).refused
            (written_so_far (P.rules player.old) bytes) (written_so_far (P.rules player.old) (bytes ++ piece.now)) self.new.due }
        ensures at { (bytes : List ℕ) → IsAt (P.rules player.old) bytes self.old.cutter self.old.count (P.stands player.old)
            → result ≡ Ok Round.Run → IsAt (P.rules player.old) (bytes ++ piece.now) self.new.cutter self.new.count (P.stands player.new) }

        // The count rises by at most the length of the piece. The limit and the rules stay.
        ensures number { self.new.count ≤ self.old.count + length piece.now }
        ensures limit_stays { self.new.limit ≡ self.old.limit }
        ensures rules_stay { P.rules player.new ≡ P.rules player.old }
    {
        self.due.clear();
        match self.run(player, piece)? {
            LineStep::Made => Ok(Round::Run),
            LineStep::Refused => self.refuse(),
        }
    }

    /// Runs the line that the end makes known, if there is one.
    fn run_last<P: PlaysLines>(&mut self, player: &mut P) -> Result<LineStep, NoMemory>
        requires known { (bytes : List ℕ) × IsAt (P.rules player.old) bytes self.old.cutter self.old.count (P.stands player.old) }
        ensures runs { (bytes : List ℕ) → IsAt (P.rules player.old) bytes self.old.cutter self.old.count (P.stands player.old)
            → RunsLast result (P.rules player.old) bytes self.new.count (P.stands player.new) self.old.due self.new.due }
        ensures count_stays { self.new.count ≡ self.old.count }
        ensures rules_stay { P.rules player.new ≡ P.rules player.old }
    {
        match self.cutter.last() {
            Last::None => Ok(LineStep::Made),
            Last::Line(line) => player.line(line, &mut self.due),
            Last::TooLong => Ok(LineStep::Refused),
        }
    }

    /// Adds what the last line writes to what is due, and ends the lines.
    pub(crate) fn finish<P: PlaysLines>(&mut self, player: &mut P) -> Result<Round, NoMemory>
        requires room { self.old.count < 2 ^ 64 - 1 }
        requires known { (bytes : List ℕ) × IsAt (P.rules player.old) bytes self.old.cutter self.old.count (P.stands player.old) }
        ensures due { (bytes : List ℕ) → IsAt (P.rules player.old) bytes self.old.cutter self.old.count (P.stands player.old)
            → IsDueAtEnd result (whole_course (P.rules player.old) bytes).refused
            (written_so_far (P.rules player.old) bytes) (output_of (P.rules player.old) bytes) (P.ends player.new) self.new.due }
    {
        self.due.clear();
        match self.run_last(player)? {
            LineStep::Made => {
                player.end()?;
                Ok(Round::Run)
            }
            LineStep::Refused => self.refuse(),
        }
    }

    /// Adds what the end writes to what is due, up to its last byte or to enough for one write.
    pub(crate) fn add_end<P: PlaysLines>(&mut self, player: &mut P) -> Result<EndStep, NoMemory>
        requires known { (left : List ℕ) × P.ends player.old left }
        ensures part { (left : List ℕ) → P.ends player.old left → EndPart result left (P.ends player.new) self.old.due self.new.due }
        ensures fewer { result ≡ Ok EndStep.More → P.steps_left player.new < P.steps_left player.old }
    {
        'parts: loop {
            match player.end_step(&mut self.due)? {
                EndStep::More => {
                    if self.due.len() >= ENOUGH_DUE {
                        return Ok(EndStep::More);
                    }
                }
                EndStep::Last => return Ok(EndStep::Last),
            }
        }
    }
}
