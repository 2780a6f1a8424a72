ghost use Rattle.std.specs.Prelude.{◌≡◌, ◌≢◌, ◌<◌, ◌≤◌, ◌-◌, length, take, drop, Some, IfSome, IfNone};
ghost use Rattle.gps_outside.specs.Counts.{Rose};
ghost use Rattle.upstream_laws.specs.declared.stage.Stage.{Stage};
ghost use Rattle.gps_upstream.specs.declared.reading.HeadStep.{HeadStep};
ghost use Rattle.gps_upstream.specs.Calls.{answer_of};
ghost use Rattle.gps_upstream.specs.Reading.{CountsQuiet, FailsOnly, FitsBuffer, Gives, HeadGoesOn};

use crate::cutter::HeadCutter;
use gps_outside::{ReadStep, Source};
use upstream_laws::Stage;

/// What the reading of a head, and of what follows it, gives.
#[derive(Clone, Copy, Debug, PartialEq, Eq)]
pub(crate) enum HeadStep {
    /// This many bytes that follow the head are at the beginning of the buffer.
    Got(usize),
    /// What was read has no head.
    Bad,
    /// Nothing is left in the source.
    End,
    /// Nothing came this time.
    Quiet,
    /// The source failed.
    Failed,
}

impl HeadStep {
    /// The answer of a source.
    pub(crate) fn answer(self) -> ReadStep
        ensures { result ≡ answer_of self }
    {
        match self {
            HeadStep::Got(n) => ReadStep::Got(n),
            HeadStep::Bad => ReadStep::Failed,
            HeadStep::End => ReadStep::End,
            HeadStep::Quiet => ReadStep::Quiet,
            HeadStep::Failed => ReadStep::Failed,
        }
    }
}

/// Moves what follows the first `used` of `n` bytes to the beginning of the buffer, and returns how many bytes that are.
fn hand_on(buf: &mut [u8], used: usize, n: usize) -> usize
    requires used { used ≤ n }
    requires n { n ≤ length buf.old }
    ensures count { result ≡ n - used }
    ensures bytes { take result buf.new ≡ drop used (take n buf.old) }
{
    if used > 0 {
        buf.copy_within(used..n, 0);
    }
    n - used
}

/// Reads once. None: all bytes that came belong to the head.
///
/// It is what the loop of [`read_on`] repeats, as a function of its own for the prover.
fn read_once<S: Source>(source: &mut S, cutter: &mut HeadCutter, buf: &mut [u8]) -> Option<HeadStep>
    // What is read, and what of it belongs to the head.
    requires room { 0 < length buf.old }
    requires head { cutter.old.stage ≢ Stage.Nowhere }
    ensures fits { IfSome result (λ step. FitsBuffer step (length buf.old)) }
    ensures gives { IfSome result (λ step. Gives step buf.new cutter.old cutter.new (S.content source.old) (S.content source.new)) }
    ensures goes_on { IfNone result (HeadGoesOn cutter.old cutter.new (S.content source.old) (S.content source.new)) }

    // What the source counts, if this read answers.
    ensures faults_stay { S.faults source.old ≤ S.faults source.new }
    ensures quiets_stay { S.quiets source.old ≤ S.quiets source.new }
    ensures failed { result ≡ Some HeadStep.Failed → Rose (S.faults source.old) (S.faults source.new) }
    ensures quiet { result ≡ Some HeadStep.Quiet → Rose (S.quiets source.old) (S.quiets source.new) }
    ensures fails_only { IfSome result (λ step. FailsOnly step (S.faults source.old) (S.faults source.new)) }
    ensures counts_quiet { IfSome result (λ step. CountsQuiet step (S.quiets source.old) (S.quiets source.new)) }

    // What it counts, if all bytes belong to the head: nothing.
    ensures no_fault { IfNone result (S.faults source.new ≡ S.faults source.old) }
    ensures no_quiet { IfNone result (S.quiets source.new ≡ S.quiets source.old) }
{
    match source.read(buf) {
        ReadStep::Got(n) => {
            let used = cutter.take(&buf[..n]);
            match cutter.stage() {
                Stage::Nowhere => Some(HeadStep::Bad),
                Stage::Behind if used < n => Some(HeadStep::Got(hand_on(buf, used, n))),
                _ => None,
            }
        }
        ReadStep::End => Some(HeadStep::End),
        ReadStep::Quiet => Some(HeadStep::Quiet),
        ReadStep::Failed => Some(HeadStep::Failed),
    }
}

/// Reads until there is something to hand on, or the reading cannot go on.
pub(crate) fn read_on<S: Source>(
    source: &mut S,
    cutter: &mut HeadCutter,
    buf: &mut [u8],
) -> HeadStep
    // What is read, and what of it is handed on.
    requires room { 0 < length buf.old }
    requires head { cutter.old.stage ≢ Stage.Nowhere }
    ensures fits { FitsBuffer result (length buf.old) }
    ensures gives { Gives result buf.new cutter.old cutter.new (S.content source.old) (S.content source.new) }

    // What the source counts: a fault for a failure, a quiet read if nothing came in time.
    ensures faults_stay { S.faults source.old ≤ S.faults source.new }
    ensures quiets_stay { S.quiets source.old ≤ S.quiets source.new }
    ensures failed { result ≡ HeadStep.Failed → Rose (S.faults source.old) (S.faults source.new) }
    ensures quiet { result ≡ HeadStep.Quiet → Rose (S.quiets source.old) (S.quiets source.new) }
    ensures fails_only { FailsOnly result (S.faults source.old) (S.faults source.new) }
    ensures counts_quiet { CountsQuiet result (S.quiets source.old) (S.quiets source.new) }
{
    'rounds: loop {
        if let Some(step) = read_once(source, cutter, buf) {
            return step;
        }
    }
}
