ghost use Rattle.std.specs.Prelude.{◌≡◌, ◌≤◌, ◌+◌, IfOk};
ghost use Rattle.gps_outside.specs.declared.outcome.CommandOutcome.{CommandOutcome};
ghost use Rattle.class_counts.specs.Tallies.{bad_line, kept_number, numbers_text};
ghost use Rattle.class_counts.specs.Writing.{Closes, WriteCause, bad_behind};

use crate::tally::Tally;
use gps_fixed::{Bytes, NoMemory, push_decimal};
use gps_outside::{CommandOutcome, Sink, write_all};
use std::alloc::Global;

/// `bad line N`, after the given number of good lines.
#[tactic(auto, unfolding(crate::specs::Tallies::bad_line))]
fn bad_line(alloc: Global, good: u64) -> Result<Bytes, NoMemory>
    ensures { IfOk result (λ text. text ≡ bad_line (kept_number (good + 1))) }
{
    let mut text = Bytes::new(alloc);
    text.extend_from_slice(b"bad line ")?;
    push_decimal(&mut text, good.saturating_add(1))?;
    text.push(b'\n')?;
    Ok(text)
}

/// The numbers of all classes, in one line.
fn numbers(alloc: Global, tally: &Tally) -> Result<Bytes, NoMemory>
    ensures { IfOk result (λ text. text ≡ numbers_text tally.now.numbers) }
{
    let mut text = Bytes::new(alloc);
    tally.push(&mut text)?;
    Ok(text)
}

/// Writes the number of the first bad line.
pub(crate) fn refuse<K: Sink>(alloc: Global, good: u64, sink: &mut K) -> CommandOutcome
    requires takes { K.takes sink.old }
    ensures takes { K.takes sink.new }
    ensures closes { Closes (CommandOutcome.BadLine (kept_number (good + 1))) (bad_behind good) result (K.written sink.old) (K.written sink.new) }
    ensures cause { WriteCause result (K.faults sink.old) (K.faults sink.new) }
    ensures faults_stay { K.faults sink.old ≤ K.faults sink.new }
{
    match bad_line(alloc, good) {
        Ok(text) => {
            if write_all(sink, text.as_slice()) {
                CommandOutcome::BadLine {
                    number: good.saturating_add(1),
                }
            } else {
                CommandOutcome::WriteFault
            }
        }
        Err(NoMemory) => CommandOutcome::NoMemory,
    }
}

/// Writes the numbers of all classes.
pub(crate) fn report<K: Sink>(alloc: Global, tally: &Tally, sink: &mut K) -> CommandOutcome
    requires takes { K.takes sink.old }
    ensures takes { K.takes sink.new }
    ensures closes { Closes CommandOutcome.Done (numbers_text tally.now.numbers) result (K.written sink.old) (K.written sink.new) }
    ensures cause { WriteCause result (K.faults sink.old) (K.faults sink.new) }
    ensures faults_stay { K.faults sink.old ≤ K.faults sink.new }
{
    match numbers(alloc, tally) {
        Ok(text) => {
            if write_all(sink, text.as_slice()) {
                CommandOutcome::Done
            } else {
                CommandOutcome::WriteFault
            }
        }
        Err(NoMemory) => CommandOutcome::NoMemory,
    }
}
