ghost use Rattle.std.specs.Prelude.{◌≡◌, ◌≤◌, ◌⊎◌, Some, None, map, string_bytes};
ghost use Rattle.gps_words.specs.Asked.{asked_of};
ghost use Rattle.gps_words.specs.Within.{IsInRange};
ghost use Rattle.gps_words.specs.declared.command.CommandLine.{CommandLine};
ghost use Rattle.gps_outside.specs.Calls.{clock_call, sink_call, source_call};
ghost use Rattle.gps_outside.specs.Outcomes.{CountsStay, NothingFails, StatusHasCause, status_of};
ghost use Rattle.gps_outside.specs.declared.outcome.CommandOutcome.{CommandOutcome};
ghost use Rattle.command_run.specs.Commands.{Does, EndedAs, IsWithinLimits};
ghost use Rattle.command_run.specs.declared.run_outcome.RunOutcome.{RunOutcome};

use crate::run_outcome::RunOutcome;
use class_counts::count_lines;
use gps_decode::{decode, pseudo};
use gps_outside::{Clock, CommandOutcome, Sink, Source};
use gps_replay::{generate, replay};
use gps_words::{CommandLine, WordsFault, asked};
use std::alloc::Global;

/// Does what a command asks for.
fn do_command<S: Source, K: Sink, C: Clock>(
    alloc: Global,
    command: CommandLine,
    source: &mut S,
    sink: &mut K,
    clock: &mut C,
) -> CommandOutcome
    // The numbers are in their ranges, and the sink is open. It stays open.
    requires within { IsInRange command }
    requires takes { K.takes sink.old }
    ensures takes { K.takes sink.new }

    // What the command does outside.
    ensures does { Does command result
        (source_call S.Source source.old source.new) (sink_call K.Sink sink.old sink.new) (clock_call C.Clock clock.old clock.new) }
    ensures counts_stay { CountsStay (source_call S.Source source.old source.new) (sink_call K.Sink sink.old sink.new) }
{
    match command {
        CommandLine::Decode { history } => decode(alloc, history, source, sink, clock),
        CommandLine::Pseudo { history } => pseudo(alloc, history, source, sink, clock),
        CommandLine::Replay { history, queue } => replay(alloc, source, sink, history, queue),
        CommandLine::Generate { seed, size } => generate(alloc, seed, size, sink),
        CommandLine::Lines => count_lines(alloc, source, sink),
    }
}

/// Does what the words ask for, as [`run`], and says how it ended: also which line was refused.
#[tactic(auto, using(crate::proofs::Commands::nothing_done))]
pub fn run_words<S: Source, K: Sink, C: Clock>(
    alloc: Global,
    words: &[String],
    source: &mut S,
    sink: &mut K,
    clock: &mut C,
) -> RunOutcome
    // The sink is open, and stays open.
    requires takes { K.takes sink.old }
    ensures takes { K.takes sink.new }

    // If the words are invalid, nothing is read or written.
    ensures refused { result ≡ RunOutcome.Refused → asked_of (map string_bytes words.now) ≡ None }
    ensures only { asked_of (map string_bytes words.now) ≡ None
        → (result ≡ RunOutcome.Refused) ⊎ (result ≡ RunOutcome.Ended CommandOutcome.NoMemory) }
    ensures untouched { asked_of (map string_bytes words.now) ≡ None
        → (source.new ≡ source.old) × (sink.new ≡ sink.old) × (clock.new ≡ clock.old) }

    // What the command does outside.
    ensures does { (command : CommandLine) → asked_of (map string_bytes words.now) ≡ Some command
        → EndedAs (λ outcome. Does command outcome (source_call S.Source source.old source.new) (sink_call K.Sink sink.old sink.new)
        (clock_call C.Clock clock.old clock.new)) result }
    ensures counts_stay { CountsStay (source_call S.Source source.old source.new) (sink_call K.Sink sink.old sink.new) }
{
    match asked(alloc, words) {
        Ok(command) => RunOutcome::Ended(do_command(alloc, command, source, sink, clock)),
        Err(WordsFault::Refused) => RunOutcome::Refused,
        Err(WordsFault::NoMemory) => RunOutcome::Ended(CommandOutcome::NoMemory),
    }
}

/// Does what the words ask for, and gives the exit status. The words come without the program's name.
///
/// `decode [--history N]` reads what a receiver sends and writes its fixes and skies as JSON lines, as epochs close.
/// `pseudo [--history N]` reads the same, and writes two sentences for each fix, for programs that read sentences alone.
/// `replay [--history N] [--queue N]` plays a script in one thread, and writes what clients take and what monitors read;
/// `generate --seed N --size N` plays a made one, and writes its closing lines alone.
/// `lines` reads the lines of a session with the daemon, and writes how many are of each class.
///
/// The status is
/// - 0: the input was read to its end, and all was written;
/// - 2: the command line is invalid; nothing was read or written;
/// - 3: the source failed, or a thousand reads brought nothing;
/// - 4: the sink failed;
/// - 5: more bytes came than are allowed;
/// - 6: a line was refused;
/// - 7: out of memory.
///
/// `decode` and `pseudo` ask the clock once after each read that gave bytes. If neither the source nor the sink fails and fewer
/// than a thousand reads bring nothing, the status is neither 3 nor 4. It is 0 or 7 if the source also holds no more than is
/// allowed and no line that is refused; for `generate` it always is. What is said of bytes and stamps is said of a source, a
/// sink and a clock whose contents are modelled.
///
/// The sink is open, and stays open. With status 0, 2, 5, 6 or 7 no read and no write failed, and fewer than a thousand reads
/// brought nothing. With status 3 either a read failed, or it was the thousandth that brought nothing, and no write failed.
/// With status 4 a write failed; of `decode` and `pseudo` the source may have failed before it, since what waits is written then.
pub fn run<S: Source, K: Sink, C: Clock>(
    alloc: Global,
    words: &[String],
    source: &mut S,
    sink: &mut K,
    clock: &mut C,
) -> u8
    // The sink is open, and stays open.
    requires takes { K.takes sink.old }
    ensures takes { K.takes sink.new }

    // If the words are invalid, nothing is read or written.
    ensures refused { result ≡ 2 → asked_of (map string_bytes words.now) ≡ None }
    ensures only { asked_of (map string_bytes words.now) ≡ None → (result ≡ 2) ⊎ (result ≡ 7) }
    ensures untouched { asked_of (map string_bytes words.now) ≡ None
        → (source.new ≡ source.old) × (sink.new ≡ sink.old) × (clock.new ≡ clock.old) }

    // What the command does outside, by how it ends.
    ensures does { (command : CommandLine) → asked_of (map string_bytes words.now) ≡ Some command
        → (outcome : CommandOutcome) × (result ≡ status_of outcome) × Does command outcome
        (source_call S.Source source.old source.new) (sink_call K.Sink sink.old sink.new) (clock_call C.Clock clock.old clock.new) }

    // What must have happened outside for each status.
    ensures cause { StatusHasCause result (source_call S.Source source.old source.new) (sink_call K.Sink sink.old sink.new) }
    ensures counts_stay { CountsStay (source_call S.Source source.old source.new) (sink_call K.Sink sink.old sink.new) }

    // All is done if nothing fails and the input is within the limits.
    ensures complete { (command : CommandLine) → asked_of (map string_bytes words.now) ≡ Some command
        → IsWithinLimits command (S.content source.old)
        → NothingFails (source_call S.Source source.old source.new) (sink_call K.Sink sink.old sink.new) → (result ≡ 0) ⊎ (result ≡ 7) }
{
    run_words(alloc, words, source, sink, clock).status()
}
