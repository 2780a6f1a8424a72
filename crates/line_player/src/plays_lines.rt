use gps_fixed::{Bytes, NoMemory};

/// What running a line did.
#[derive(Clone, Copy, Debug, PartialEq, Eq)]
pub enum LineStep {
    /// The line was run.
    Made,
    /// It is not allowed there, and nothing was done.
    Refused,
}

/// How much of what the end of the lines writes was added.
#[derive(Clone, Copy, Debug, PartialEq, Eq)]
pub enum EndStep {
    /// A part of it was added, and more may follow.
    More,
    /// All of it was added.
    Last,
}

/// Runs the lines of a text, one after the other.
pub trait PlaysLines: Drop {
    ghost use Rattle.std.specs.Prelude.{◌≡◌, ◌<◌, ℕ, List, Ok, OnOk};
    ghost use Rattle.line_player.specs.declared.plays_lines.EndStep.{EndStep};
    ghost use Rattle.line_player.specs.Rules.{Rules};
    ghost use Rattle.line_player.specs.LineSteps.{EndPart, StepDone};

    /// What the lines so far have made.
    ghost State: { Type 0 };

    /// What a line does, and what the end does; no line changes that.
    ghost rules: { Self → Rules State };

    /// Whether the lines so far have made this state.
    ghost stands: { Self → State → Type 0 };

    /// Runs a line, without its line end if the limit does not count that, and adds what it writes to `out`. After
    /// `NoMemory` the player is of no use, and whatever was added is no part of the output.
    fn line(&mut self, text: &[u8], out: &mut Bytes) -> Result<LineStep, NoMemory>
        requires known { (state : State) × stands self.old state }
        ensures rounds { (state : State) → stands self.old state
            → StepDone result (rules self.old) state text.now (stands self.new) out.old out.new }
        ensures rules_stay { rules self.new ≡ rules self.old };

    /// The lines have ended, and these bytes are still to be written.
    ghost ends: { Self → List ℕ → Type 0 };

    /// How many steps of the end are left at most.
    ghost steps_left: { Self → ℕ };

    /// Ends the lines: no line may follow.
    fn end(&mut self) -> Result<(), NoMemory>
        requires known { (state : State) × stands self.old state }
        ensures ends { (state : State) → stands self.old state → OnOk result (ends self.new ((rules self.old).end_writes state)) };

    /// Adds the next part of what the end writes to `out`. After `NoMemory` the player is of no use, and whatever was added is no
    /// part of the output.
    fn end_step(&mut self, out: &mut Bytes) -> Result<EndStep, NoMemory>
        requires known { (left : List ℕ) × ends self.old left }
        ensures part { (left : List ℕ) → ends self.old left → EndPart result left (ends self.new) out.old out.new }
        ensures fewer { result ≡ Ok EndStep.More → steps_left self.new < steps_left self.old };
}
