ghost use Rattle.std.specs.Prelude.{◌≡◌, ◌≤◌, ℕ, length};
ghost use Rattle.replay_script.specs.Workload.{workload_of};
ghost use Rattle.gps_outside.specs.Calls.{sink_call};
ghost use Rattle.gps_replay.specs.Generated.{Generated, GeneratedCause};

use crate::held::HeldScript;
use crate::quiet::Quiet;
use crate::replaying::MOST_IN_LINE;
use gps_fixed::{Bytes, NoMemory};
use gps_outside::{CommandOutcome, Sink};
use line_cut::Limit;
use line_player::play;
use replay_script::workload;
use std::alloc::Global;

/// How many symbols a generation holds, and how many items the outlet of a session keeps.
const LIMIT: u32 = 16_777_216;

const QUEUE: u32 = 4_096;

/// Plays a made script, and writes its closing lines.
#[tactic(auto, using(crate::proofs::Making::generated, crate::proofs::Making::caused, crate::proofs::Making::nothing_played))]
fn play_made<K: Sink>(alloc: Global, script: Bytes, sink: &mut K) -> CommandOutcome
    requires takes { K.takes sink.old }
    requires short { length script ≤ 4_294_967_295 }
    ensures takes { K.takes sink.new }
    ensures generated { (seed size : ℕ) → script ≡ workload_of seed size → Generated result seed size (K.written sink.old) (K.written sink.new) }
    ensures cause { (seed size : ℕ) → size ≤ 10000 → script ≡ workload_of seed size → GeneratedCause result (sink_call K.Sink sink.old sink.new) }
    ensures faults_stay { K.faults sink.old ≤ K.faults sink.new }
{
    match u32::try_from(script.len()) {
        Ok(most) => {
            let mut quiet = Quiet::new(alloc, LIMIT, QUEUE);
            let mut source = HeldScript::new(script);
            play(
                alloc,
                Limit::Text(MOST_IN_LINE),
                most,
                &mut quiet,
                &mut source,
                sink,
            )
        }
        Err(_) => unreachable!(),
    }
}

/// Makes the script of `size` seconds, plays it with the default history and queue, and writes only its closing lines. No line
/// of it is refused. The sink is open, and stays open; its faults rise exactly if the outcome is a write fault.
#[tactic(auto, using(crate::proofs::Making::nothing_played))]
pub fn generate<K: Sink>(alloc: Global, seed: u32, size: u32, sink: &mut K) -> CommandOutcome
    // The sink is open, and the size is 1 to 10,000.
    requires takes { K.takes sink.old }
    requires from { 1 ≤ size }
    requires to { size ≤ 10000 }

    // What is written.
    ensures takes { K.takes sink.new }
    ensures generated { Generated result seed size (K.written sink.old) (K.written sink.new) }

    // The sink counts a fault exactly if a write failed.
    ensures cause { GeneratedCause result (sink_call K.Sink sink.old sink.new) }
    ensures faults_stay { K.faults sink.old ≤ K.faults sink.new }
{
    match workload(alloc, seed, size) {
        Ok(script) => play_made(alloc, script, sink),
        Err(NoMemory) => CommandOutcome::NoMemory,
    }
}
