ghost use Rattle.std.specs.Prelude.{◌≡◌, ◌≤◌, ◌<◌, length};
ghost use Rattle.gps_outside.specs.declared.intake.IntakeStep.{IntakeStep};
ghost use Rattle.gps_outside.specs.Counts.{Rose};
ghost use Rattle.gps_outside.specs.Told.{Goes, Stays};
ghost use Rattle.gps_outside.specs.ReadSteps.{FitsRoom, Hands, IntakeGoesOn, Spends, StepCountsQuiet, StepFailsOnly};

use crate::{ReadStep, Source};
use std::marker::Model;

/// The quiet that ends a reading.
const LAST_QUIET: u32 = 1_000;

/// What one step of a reading returns, or how the reading ends.
#[derive(Clone, Copy, Debug, PartialEq, Eq)]
pub enum IntakeStep {
    /// This number of bytes, at least one, is at the head of the buffer; the reading goes on.
    Piece(usize),
    /// The read was quiet; the reading goes on.
    Quiet,
    /// The limit is passed: this number of bytes at the head of the buffer, perhaps none, is the last within it, and what came
    /// after them was dropped. The reading is over.
    Last(usize),
    /// Nothing is left in the source. The reading is over.
    End,
    /// The source failed. The reading is over.
    Failed,
    /// A read was quiet for the thousandth time in this reading, which is over.
    TooQuiet,
}

/// A reading of a source to its end, step by step: how many bytes it may still read, and how often nothing came.
///
/// A loop over its steps ends: each step that goes on returns a byte or counts one of at most 1,000 quiets.
#[derive(Drop)]
pub struct Intake {
    room: usize,
    quiets: u32,
}

impl Model for Intake {
    ghost use Rattle.std.specs.Prelude.{◌<◌};
    ghost use Rattle.gps_outside.specs.ReadSteps.{Budget};

    ghost Value = { Budget };

    ghost view = { λ s. record { room = s.room; quiets = s.quiets } };

    ghost invariant = { λ s. s.quiets < 1000 };
}

impl Intake {
    /// A reading of at most `limit` bytes.
    pub fn new(limit: u64) -> Intake
        ensures { result ≡ record { room = limit; quiets = 0 } }
    {
        Intake {
            room: limit as usize,
            quiets: 0,
        }
    }

    /// Reads once.
    pub fn step<S: Source>(&mut self, source: &mut S, buf: &mut [u8]) -> IntakeStep
        // What it reads, and what that takes from the budget.
        requires { 0 < length buf.old }
        ensures fits { FitsRoom result (length buf.new) }
        ensures budget { Spends result self.old self.new }
        ensures goes_on { IntakeGoesOn result self.old self.new }
        ensures bytes { Hands result buf.new (S.content source.old) (S.content source.new) }

        // What the source counts, and what a failed read leaves in it.
        ensures faults_stay { S.faults source.old ≤ S.faults source.new }
        ensures quiets_stay { S.quiets source.old ≤ S.quiets source.new }
        ensures failed { result ≡ IntakeStep.Failed → Rose (S.faults source.old) (S.faults source.new) }
        ensures kept { S.keeps_at_fault source.old → result ≡ IntakeStep.Failed → Goes Stays (S.content source.old) (S.content source.new) }

        // A quiet read counts once, and only a failure counts as a fault.
        ensures quiet { result ≡ IntakeStep.Quiet → Rose (S.quiets source.old) (S.quiets source.new) }
        ensures too_quiet { result ≡ IntakeStep.TooQuiet → Rose (S.quiets source.old) (S.quiets source.new) }
        ensures fails_only { StepFailsOnly result (S.faults source.old) (S.faults source.new) }
        ensures counts_quiet { StepCountsQuiet result (S.quiets source.old) (S.quiets source.new) }
    {
        match source.read(buf) {
            ReadStep::Got(n) if n <= self.room => {
                self.room -= n;
                IntakeStep::Piece(n)
            }
            ReadStep::Got(_) => {
                let n = self.room;
                self.room = 0;
                IntakeStep::Last(n)
            }
            ReadStep::Quiet if self.quiets + 1 < LAST_QUIET => {
                self.quiets += 1;
                IntakeStep::Quiet
            }
            ReadStep::Quiet => IntakeStep::TooQuiet,
            ReadStep::End => IntakeStep::End,
            ReadStep::Failed => IntakeStep::Failed,
        }
    }
}
