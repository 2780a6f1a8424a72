ghost use Rattle.std.specs.Prelude.{◌≤◌, IfOk};
ghost use Rattle.gps_outside.specs.ReadSteps.{ReadHasCause, ReadsToEnd};

use crate::{Intake, IntakeStep, Source};
use gps_fixed::NoMemory;
use std::alloc::Global;

/// How the reading of a source to its end ended.
#[derive(Clone, Copy, Debug, PartialEq, Eq)]
pub enum ReadEnd {
    /// Nothing is left in the source.
    AtEnd,
    /// As many bytes as the limit allows were read, and then one more.
    Full,
    /// The source failed.
    Failed,
    /// A read was quiet for the thousandth time.
    TooQuiet,
}

/// Reads a source to its end, or to a limit of bytes: the bytes, and how it ended.
pub fn read_all<S: Source>(
    alloc: Global,
    source: &mut S,
    limit: u64,
) -> Result<(Vec<u8>, ReadEnd), NoMemory>
    ensures bytes { IfOk result (λ read. ReadsToEnd read.1 limit read.0.items (S.content source.old) (S.content source.new)) }
    ensures cause { IfOk result (λ read. ReadHasCause read.1 (S.faults source.old) (S.faults source.new) (S.quiets source.old) (S.quiets source.new)) }
    ensures faults_stay { S.faults source.old ≤ S.faults source.new }
    ensures quiets_stay { S.quiets source.old ≤ S.quiets source.new }
{
    let mut bytes = Vec::new(alloc);
    let mut intake = Intake::new(limit);
    let mut buf = [0u8; 512];
    'rounds: loop {
        match intake.step(source, &mut buf) {
            IntakeStep::Piece(n) => bytes.extend_from_slice(&buf[..n])?,
            IntakeStep::Quiet => {}
            IntakeStep::Last(n) => {
                bytes.extend_from_slice(&buf[..n])?;
                return Ok((bytes, ReadEnd::Full));
            }
            IntakeStep::End => return Ok((bytes, ReadEnd::AtEnd)),
            IntakeStep::Failed => return Ok((bytes, ReadEnd::Failed)),
            IntakeStep::TooQuiet => return Ok((bytes, ReadEnd::TooQuiet)),
        }
    }
}
