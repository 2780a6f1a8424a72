ghost use Rattle.std.specs.Prelude.{◌≡◌, ◌≤◌, ◌⊎◌};
ghost use Rattle.gps_fixed.specs.Limits.{most_history, most_queue};
ghost use Rattle.gps_outside.specs.declared.outcome.CommandOutcome.{CommandOutcome};
ghost use Rattle.gps_outside.specs.Calls.{sink_call, source_call};
ghost use Rattle.gps_outside.specs.Outcomes.{HasCause, NothingFails, status_of};
ghost use Rattle.gps_replay.specs.Replayed.{IsScript, Replayed};

use crate::script::Script;
use gps_outside::{CommandOutcome, Sink, Source};
use line_cut::Limit;
use line_player::play;
use std::alloc::Global;

/// The bytes of a line without its line end.
pub(crate) const MOST_IN_LINE: usize = 4_096;

/// The bytes of a script.
const MOST_BYTES: u32 = 1_073_741_824;

/// Reads a script and writes the output of its run. A generation of its book holds at most `limit` entries, which changes
/// nothing of the output; an outlet keeps `queue` items if no line says another number.
///
/// A line is played as soon as its end was read, or enough of it to be too long. At [`CommandOutcome::BadLine`] the line N
/// was refused, and `bad line N` follows what those before it write.
///
/// The sink is open, and stays open. The source's faults rise exactly if the outcome is a read fault, and the sink's exactly if it is a
/// write fault; a play is too quiet exactly at the thousandth quiet read.
pub fn replay<S: Source, K: Sink>(
    alloc: Global,
    source: &mut S,
    sink: &mut K,
    limit: u32,
    queue: u32,
) -> CommandOutcome
    // The sink is open, and the two numbers are within the bounds of the command.
    requires takes { K.takes sink.old }
    requires some { 1 ≤ limit }
    requires most { limit ≤ most_history }
    requires least { 1 ≤ queue }
    requires within { queue ≤ most_queue }

    // What is read, and what is written.
    ensures takes { K.takes sink.new }
    ensures replayed { Replayed result queue (S.content source.old) (S.content source.new) (K.written sink.old) (K.written sink.new) }

    // The counts of faults and quiet reads show the cause of the outcome.
    ensures cause { HasCause result (source_call S.Source source.old source.new) (sink_call K.Sink sink.old sink.new) }

    // If nothing fails and memory suffices, a script within the limits is played whole.
    ensures complete { IsScript queue (S.content source.old)
        → NothingFails (source_call S.Source source.old source.new) (sink_call K.Sink sink.old sink.new)
        → (result ≡ CommandOutcome.Done) ⊎ (result ≡ CommandOutcome.NoMemory) }

    // Counts never fall.
    ensures faults_stay { S.faults source.old ≤ S.faults source.new }
    ensures quiets_stay { S.quiets source.old ≤ S.quiets source.new }
    ensures sink_faults_stay { K.faults sink.old ≤ K.faults sink.new }
{
    let mut script = Script::new(alloc, limit, queue);
    play(
        alloc,
        Limit::Text(MOST_IN_LINE),
        MOST_BYTES,
        &mut script,
        source,
        sink,
    )
}

/// As [`replay`], with its exit status.
///
/// 0: the source was read to its end, and all was written. 3: the source failed, or a thousand reads were quiet. 4: the
/// sink failed. 5: more bytes came than a script may have. 6: a line was refused. 7: out of memory.
pub fn replay_core<S: Source, K: Sink>(
    alloc: Global,
    source: &mut S,
    sink: &mut K,
    limit: u32,
    queue: u32,
) -> u8
    // The sink is open, and the two numbers are within the bounds of the command.
    requires takes { K.takes sink.old }
    requires some { 1 ≤ limit }
    requires most { limit ≤ most_history }
    requires least { 1 ≤ queue }
    requires within { queue ≤ most_queue }

    // What is read, and what is written.
    ensures takes { K.takes sink.new }
    ensures replayed { (outcome : CommandOutcome) × (result ≡ status_of outcome)
        × HasCause outcome (source_call S.Source source.old source.new) (sink_call K.Sink sink.old sink.new)
        × Replayed outcome queue (S.content source.old) (S.content source.new) (K.written sink.old) (K.written sink.new) }

    // If nothing fails and memory suffices, a script within the limits is played whole.
    ensures complete { IsScript queue (S.content source.old)
        → NothingFails (source_call S.Source source.old source.new) (sink_call K.Sink sink.old sink.new)
        → (result ≡ 0) ⊎ (result ≡ 7) }

    // Counts never fall.
    ensures faults_stay { S.faults source.old ≤ S.faults source.new }
    ensures quiets_stay { S.quiets source.old ≤ S.quiets source.new }
    ensures sink_faults_stay { K.faults sink.old ≤ K.faults sink.new }
{
    replay(alloc, source, sink, limit, queue).status()
}
