ghost use Rattle.std.specs.Prelude.{◌≡◌, ◌≢◌, ◌≤◌, ◌==◌, List, ℕ, length, not};
ghost use Rattle.line_cut.specs.Lines.{open_line};
ghost use Rattle.gps_outside.specs.Calls.{sink_call, source_call};
ghost use Rattle.gps_outside.specs.Outcomes.{HasCause};
ghost use Rattle.gps_outside.specs.declared.outcome.CommandOutcome.{CommandOutcome};
ghost use Rattle.class_counts.specs.Standing.{CountStands};
ghost use Rattle.class_counts.specs.Counted.{Counted, IsWithin};
ghost use Rattle.class_counts.specs.Writing.{EndsWith, StopsWith, WriteCause};

use crate::counting::{Count, Stop};
use crate::reading::{Reading, read_lines};
use crate::writing::{refuse, report};
use gps_outside::{CommandOutcome, Sink, Source};
use std::alloc::Global;

/// Ends a count at its first bad line, or when out of memory.
fn stop<K: Sink>(alloc: Global, stop: Stop, good: u64, sink: &mut K) -> CommandOutcome
    requires takes { K.takes sink.old }
    ensures takes { K.takes sink.new }
    ensures closes { StopsWith stop good result (K.written sink.old) (K.written sink.new) }
    ensures cause { WriteCause result (K.faults sink.old) (K.faults sink.new) }
    ensures faults_stay { K.faults sink.old ≤ K.faults sink.new }
{
    match stop {
        Stop::Bad => refuse(alloc, good, sink),
        Stop::NoMemory => CommandOutcome::NoMemory,
    }
}

/// Ends a count at the end of its input, whose last line may lack its end.
fn end<K: Sink>(alloc: Global, count: &Count, sink: &mut K) -> CommandOutcome
    requires takes { K.takes sink.old }
    ensures takes { K.takes sink.new }
    ensures closes { (bytes : List ℕ) → CountStands count.now bytes
        → EndsWith (not (length (open_line bytes) == 0)) count.now result (K.written sink.old) (K.written sink.new) }
    ensures cause { WriteCause result (K.faults sink.old) (K.faults sink.new) }
    ensures faults_stay { K.faults sink.old ≤ K.faults sink.new }
{
    if count.is_open() {
        refuse(alloc, count.good, sink)
    } else {
        report(alloc, &count.tally, sink)
    }
}

/// As [`count_lines`], which forwards to it. The two are apart for the prover: `within` follows from the other clauses.
#[tactic(auto, using(crate::proofs::Ends::counted_end, crate::proofs::Ends::counted_stop, crate::proofs::Ends::counted_full, crate::proofs::Ends::counted_failed, crate::proofs::Ends::counted_quiet))]
fn count<S: Source, K: Sink>(alloc: Global, source: &mut S, sink: &mut K) -> CommandOutcome
    // The sink is open, and stays open.
    requires takes { K.takes sink.old }
    ensures takes { K.takes sink.new }

    // What is read, and what is written.
    ensures counted { Counted result (S.content source.old) (S.content source.new) (K.written sink.old) (K.written sink.new) }
    ensures cause { HasCause result (source_call S.Source source.old source.new) (sink_call K.Sink sink.old sink.new) }

    // Counts of faults and quiet reads never fall.
    ensures faults_stay { S.faults source.old ≤ S.faults source.new }
    ensures quiets_stay { S.quiets source.old ≤ S.quiets source.new }
    ensures sink_faults_stay { K.faults sink.old ≤ K.faults sink.new }
{
    let mut count = Count::new(alloc);
    match read_lines(alloc, &mut count, source) {
        Reading::End => end(alloc, &count, sink),
        Reading::Stopped(why) => stop(alloc, why, count.good, sink),
        Reading::Full => CommandOutcome::Full,
        Reading::Failed => CommandOutcome::ReadFault,
        Reading::TooQuiet => CommandOutcome::TooQuiet,
    }
}

/// Reads lines to the source's end, or to the first bad one, and writes how many are of each class, or the number of that
/// line. A line is ended by LF and has at most 1,048,576 bytes; an input at most 1,073,741,824.
///
/// The sink is open, and stays open. The source's faults rise exactly if the outcome is a read fault, and the sink's exactly if it is a
/// write fault; a count is too quiet exactly at the thousandth quiet read.
pub fn count_lines<S: Source, K: Sink>(
    alloc: Global,
    source: &mut S,
    sink: &mut K,
) -> CommandOutcome
    // The sink is open, and stays open.
    requires takes { K.takes sink.old }
    ensures takes { K.takes sink.new }

    // What is read, and what is written.
    ensures counted { Counted result (S.content source.old) (S.content source.new) (K.written sink.old) (K.written sink.new) }
    ensures cause { HasCause result (source_call S.Source source.old source.new) (sink_call K.Sink sink.old sink.new) }

    // An input within the limits is neither too long nor bad. Counts never fall.
    ensures within { IsWithin (S.content source.old) → (result ≢ CommandOutcome.Full) × ((number : ℕ) → result ≢ CommandOutcome.BadLine number) }
    ensures faults_stay { S.faults source.old ≤ S.faults source.new }
    ensures quiets_stay { S.quiets source.old ≤ S.quiets source.new }
    ensures sink_faults_stay { K.faults sink.old ≤ K.faults sink.new }
{
    let outcome = count(alloc, source, sink);
    outcome
}
