ghost use Rattle.std.specs.Prelude.{◌≡◌, ◌≤◌, []};
ghost use Rattle.gps_outside.specs.Calls.{source_call};
ghost use Rattle.class_counts.specs.Reading.{ReadCause, Reads};
ghost use Rattle.class_counts.specs.Standing.{CountStands};

use crate::counting::{Count, Stop};
use gps_outside::{Intake, IntakeStep, Source};
use std::alloc::Global;

/// How many bytes an input has at most.
const MOST_BYTES: u64 = 1_073_741_824;

/// How the reading of an input ended.
#[derive(Clone, Copy)]
pub(crate) enum Reading {
    /// Nothing is left in the source.
    End,
    /// A line is bad, or there is no memory to read it.
    Stopped(Stop),
    /// As many bytes as an input may have were read, and one more came.
    Full,
    /// The source failed.
    Failed,
    /// A read was quiet for the thousandth time.
    TooQuiet,
}

/// Reads lines to the source's end, or to the first bad one.
#[tactic(auto, using(crate::proofs::CountingSteps::ended, crate::proofs::CountingSteps::failed, crate::proofs::CountingSteps::too_quiet))]
pub(crate) fn read_lines<S: Source>(alloc: Global, count: &mut Count, source: &mut S) -> Reading
    requires { CountStands count.old [] }
    ensures reads { Reads result count.new (S.content source.old) (S.content source.new) }
    ensures cause { ReadCause result (source_call S.Source source.old source.new) }
    ensures faults_stay { S.faults source.old ≤ S.faults source.new }
    ensures quiets_stay { S.quiets source.old ≤ S.quiets source.new }
{
    let mut intake = Intake::new(MOST_BYTES);
    let mut buf = [0u8; 512];
    'rounds: loop {
        match intake.step(source, &mut buf) {
            IntakeStep::Piece(n) => match count.feed(alloc, &buf[..n]) {
                Ok(()) => {}
                Err(stop) => return Reading::Stopped(stop),
            },
            IntakeStep::Quiet => {}
            IntakeStep::Last(n) => match count.feed(alloc, &buf[..n]) {
                Ok(()) => return Reading::Full,
                Err(stop) => return Reading::Stopped(stop),
            },
            IntakeStep::End => return Reading::End,
            IntakeStep::Failed => return Reading::Failed,
            IntakeStep::TooQuiet => return Reading::TooQuiet,
        }
    }
}
