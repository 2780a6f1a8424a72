ghost use Rattle.std.specs.Prelude.{map};
ghost use Rattle.std.specs.List.{concat};
ghost use Rattle.gps_outside.specs.Outcomes.{status_of};
ghost use Rattle.command_run.specs.Answers.{WritesAnswer};

use crate::reasons::say;
use gps_outside::{CommandOutcome, Sink, write_all};
use std::io::Eprint;

/// Writes parts that follow one another.
fn write_parts<K: Sink>(parts: &[&str], sink: &mut K) -> CommandOutcome
    requires takes { K.takes sink.old }
    ensures takes { K.takes sink.new }
    ensures answers { WritesAnswer (concat (map (λ part. part.now) parts.now)) (status_of result) (K.written sink.old) (K.written sink.new)
        (K.faults sink.old) (K.faults sink.new) }
{
    'parts: for part in parts {
        if !write_all(sink, part.as_bytes()) {
            return CommandOutcome::WriteFault;
        }
    }
    CommandOutcome::Done
}

/// Writes an answer of the program itself, part after part, to standard output, and gives the status.
pub fn answer<K: Sink, R: Eprint>(rt: &R, parts: &[&str], sink: &mut K) -> u8
    // The sink is open, and stays open.
    requires takes { K.takes sink.old }
    ensures takes { K.takes sink.new }

    // It is written whole, or the sink failed.
    ensures answers { WritesAnswer (concat (map (λ part. part.now) parts.now)) result (K.written sink.old) (K.written sink.new)
        (K.faults sink.old) (K.faults sink.new) }
{
    let outcome = write_parts(parts, sink);
    if outcome == CommandOutcome::WriteFault {
        say(
            rt,
            "standard output: the answer could not be written: its reader has gone, it is closed, or the disk is full",
        );
    }
    outcome.status()
}
