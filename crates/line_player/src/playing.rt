ghost use Rattle.std.specs.Prelude.{◌≡◌, ◌≤◌, ◌<◌, ◌+◌, ◌-◌, ◌^◌, ◌++◌, ◌⊎◌, List, ℕ, Option, Ok, IfOk, length};
ghost use Rattle.line_player.specs.Courses.{course_so_far, output_of, whole_course, written_so_far};
ghost use Rattle.gps_outside.specs.Calls.{sink_call, source_call};
ghost use Rattle.gps_outside.specs.Outcomes.{HasCause, NothingFails};
ghost use Rattle.line_player.specs.Played.{IsWithin, HasPlayed};
ghost use Rattle.line_player.specs.LineSteps.{IsAt, IsDue, WriteCause, Writes, WritesAtEnd, WritesEnd, WritesPart};
ghost use Rattle.line_player.specs.declared.lines.Round.{Round};
ghost use Rattle.line_player.specs.declared.plays_lines.EndStep.{EndStep};
ghost use Rattle.gps_outside.specs.declared.outcome.CommandOutcome.{CommandOutcome};

use crate::fault::Fault;
use crate::lines::{Lines, Round};
use crate::plays_lines::{EndStep, PlaysLines};
use gps_fixed::NoMemory;
use gps_outside::{CommandOutcome, Intake, IntakeStep, Sink, Source, write_all};
use line_cut::Limit;
use std::alloc::Global;

/// Writes what is due, unless there was no memory for it.
#[tactic(auto, using(crate::proofs::Writing::made, crate::proofs::Writing::refused, crate::proofs::Writing::broken))]
fn write_due<K: Sink>(round: Result<Round, NoMemory>, due: &[u8], sink: &mut K) -> Result<(), Fault>
    requires takes { K.takes sink.old }
    ensures takes { K.takes sink.new }
    ensures wrote { (refused : Option ℕ) (before all : List ℕ) → IsDue round refused before all due.now
        → Writes result refused before all (K.written sink.old) (K.written sink.new) }
    ensures made { IfOk result (λ _. round ≡ Ok Round.Run) }
    ensures cause { WriteCause result (K.faults sink.old) (K.faults sink.new) }
    ensures faults_stay { K.faults sink.old ≤ K.faults sink.new }
{
    match round {
        Err(NoMemory) => Err(Fault::NoMemory),
        Ok(Round::Run) => {
            if write_all(sink, due) {
                Ok(())
            } else {
                Err(Fault::Sink)
            }
        }
        Ok(Round::RefusedAt { number }) => {
            if write_all(sink, due) {
                Err(Fault::BadLine { number })
            } else {
                Err(Fault::Sink)
            }
        }
    }
}

/// Runs the lines that a piece makes known, and writes what is due then.
fn hand_on<P: PlaysLines, K: Sink>(
    lines: &mut Lines,
    player: &mut P,
    piece: &[u8],
    sink: &mut K,
) -> Result<(), Fault>
    // The sink is open, and the player has run the lines that were read before.
    requires takes { K.takes sink.old }
    requires room { lines.old.count + length piece.now < 2 ^ 64 - 1 }
    requires limit { lines.old.limit ≡ (P.rules player.old).limit }
    requires known { (bytes : List ℕ) × IsAt (P.rules player.old) bytes lines.old.cutter lines.old.count (P.stands player.old) }

    // What the piece adds, to the player and to what is written.
    ensures takes { K.takes sink.new }
    ensures wrote { (bytes : List ℕ) → IsAt (P.rules player.old) bytes lines.old.cutter lines.old.count (P.stands player.old)
        → Writes result (course_so_far (P.rules player.old) (bytes ++ piece.now)).refused
        (written_so_far (P.rules player.old) bytes) (written_so_far (P.rules player.old) (bytes ++ piece.now))
        (K.written sink.old) (K.written sink.new) }
    ensures at { IfOk result (λ _. (bytes : List ℕ)
        → IsAt (P.rules player.old) bytes lines.old.cutter lines.old.count (P.stands player.old)
        → IsAt (P.rules player.old) (bytes ++ piece.now) lines.new.cutter lines.new.count (P.stands player.new)) }

    // The count rises by at most the length of the piece. The limit and the rules stay.
    ensures number { lines.new.count ≤ lines.old.count + length piece.now }
    ensures limit_stays { lines.new.limit ≡ lines.old.limit }
    ensures rules_stay { P.rules player.new ≡ P.rules player.old }

    // The sink counts a fault exactly if a write failed.
    ensures cause { WriteCause result (K.faults sink.old) (K.faults sink.new) }
    ensures faults_stay { K.faults sink.old ≤ K.faults sink.new }
{
    let round = lines.take(player, piece);
    write_due(round, lines.due(), sink)
}

/// Writes what is due and the next part of what the end writes.
fn write_part<P: PlaysLines, K: Sink>(
    lines: &mut Lines,
    player: &mut P,
    sink: &mut K,
) -> Result<EndStep, Fault>
    // The sink is open, and the player is writing its end.
    requires takes { K.takes sink.old }
    requires known { (left : List ℕ) × P.ends player.old left }

    // What is written. Each part leaves less to do.
    ensures takes { K.takes sink.new }
    ensures wrote { (left : List ℕ) → P.ends player.old left
        → WritesPart result (lines.old.due ++ left) (P.ends player.new) lines.new.due (K.written sink.old) (K.written sink.new) }
    ensures fewer { result ≡ Ok EndStep.More → P.steps_left player.new < P.steps_left player.old }

    // The sink counts a fault exactly if a write failed.
    ensures cause { WriteCause result (K.faults sink.old) (K.faults sink.new) }
    ensures faults_stay { K.faults sink.old ≤ K.faults sink.new }
{
    match lines.add_end(player) {
        Ok(step) => {
            if write_all(sink, lines.due()) {
                lines.clear_due();
                Ok(step)
            } else {
                Err(Fault::Sink)
            }
        }
        Err(NoMemory) => Err(Fault::NoMemory),
    }
}

/// Writes what is due and all that the end writes, a part after the other.
fn write_end<P: PlaysLines, K: Sink>(
    lines: &mut Lines,
    player: &mut P,
    sink: &mut K,
) -> Result<(), Fault>
    requires takes { K.takes sink.old }
    requires known { (left : List ℕ) × P.ends player.old left }
    ensures takes { K.takes sink.new }
    ensures wrote { (left : List ℕ) → P.ends player.old left → WritesEnd result (lines.old.due ++ left) (K.written sink.old) (K.written sink.new) }
    ensures cause { WriteCause result (K.faults sink.old) (K.faults sink.new) }
    ensures faults_stay { K.faults sink.old ≤ K.faults sink.new }
{
    'parts: loop {
        match write_part(lines, player, sink) {
            Ok(EndStep::More) => {}
            Ok(EndStep::Last) => return Ok(()),
            Err(fault) => return Err(fault),
        }
    }
}

/// Runs the line that the source's end makes known, and writes what is due at the end.
fn close<P: PlaysLines, K: Sink>(
    lines: &mut Lines,
    player: &mut P,
    sink: &mut K,
) -> Result<(), Fault>
    // The sink is open, and the player has run the lines that were read before.
    requires takes { K.takes sink.old }
    requires room { lines.old.count < 2 ^ 64 - 1 }
    requires known { (bytes : List ℕ) × IsAt (P.rules player.old) bytes lines.old.cutter lines.old.count (P.stands player.old) }

    // What is written at the end.
    ensures takes { K.takes sink.new }
    ensures wrote { (bytes : List ℕ) → IsAt (P.rules player.old) bytes lines.old.cutter lines.old.count (P.stands player.old)
        → WritesAtEnd result (whole_course (P.rules player.old) bytes).refused
        (written_so_far (P.rules player.old) bytes) (output_of (P.rules player.old) bytes)
        (K.written sink.old) (K.written sink.new) }

    // The sink counts a fault exactly if a write failed.
    ensures cause { WriteCause result (K.faults sink.old) (K.faults sink.new) }
    ensures faults_stay { K.faults sink.old ≤ K.faults sink.new }
{
    match lines.finish(player) {
        Ok(Round::Run) => write_end(lines, player, sink),
        Ok(Round::RefusedAt { number }) => {
            if write_all(sink, lines.due()) {
                Err(Fault::BadLine { number })
            } else {
                Err(Fault::Sink)
            }
        }
        Err(NoMemory) => Err(Fault::NoMemory),
    }
}

/// As [`play`], which forwards to it. The two are apart for the prover: `complete` follows from the other clauses.
fn read_through<S: Source, K: Sink, P: PlaysLines>(
    alloc: Global,
    limit: Limit,
    most: u32,
    player: &mut P,
    source: &mut S,
    sink: &mut K,
) -> CommandOutcome
    // The sink is open, and the player is at its start.
    requires takes { K.takes sink.old }
    requires limit { limit ≡ (P.rules player.old).limit }
    requires starts { P.stands player.old (P.rules player.old).start }

    // What is read, and what is written.
    ensures takes { K.takes sink.new }
    ensures played { HasPlayed result (P.rules player.old) most (S.content source.old) (S.content source.new)
        (K.written sink.old) (K.written sink.new) }

    // The counts of faults and quiet reads show the cause of the outcome.
    ensures cause { HasCause result (source_call S.Source source.old source.new) (sink_call K.Sink sink.old sink.new) }
    ensures faults_stay { S.faults source.old ≤ S.faults source.new }
    ensures quiets_stay { S.quiets source.old ≤ S.quiets source.new }
    ensures sink_faults_stay { K.faults sink.old ≤ K.faults sink.new }
{
    let mut lines = Lines::new(alloc, limit);
    let mut intake = Intake::new(most as u64);
    let mut buf = [0u8; 512];
    'rounds: loop {
        match intake.step(source, &mut buf) {
            IntakeStep::Piece(n) => match hand_on(&mut lines, player, &buf[..n], sink) {
                Ok(()) => {}
                Err(fault) => return fault.outcome(),
            },
            IntakeStep::Quiet => {}
            IntakeStep::Last(n) => match hand_on(&mut lines, player, &buf[..n], sink) {
                Ok(()) => return CommandOutcome::Full,
                Err(fault) => return fault.outcome(),
            },
            IntakeStep::End => match close(&mut lines, player, sink) {
                Ok(()) => return CommandOutcome::Done,
                Err(fault) => return fault.outcome(),
            },
            IntakeStep::Failed => return CommandOutcome::ReadFault,
            IntakeStep::TooQuiet => return CommandOutcome::TooQuiet,
        }
    }
}

/// Reads a text of at most `most` bytes to the source's end, runs its lines as soon as they are known, up to the first
/// refused one, and writes what they write.
///
/// A line is known once its end was read, or enough of it to be too long; the source's end ends the last one. A
/// refused line N is written as `bad line N`, after what those before it write. What the end writes is written part by
/// part, so no more than one part of it is in memory.
///
/// The sink is open, and stays open. The source's faults rise exactly if the outcome is a read fault, and the sink's exactly if it is a
/// write fault; a play is too quiet exactly at the thousandth quiet read.
///
/// If neither the source nor the sink fails, fewer than a thousand reads are quiet, at most `most` bytes are left in the
/// source and none of their lines is refused, all is read and written, unless memory runs out. This is said of sources
/// whose contents are modelled.
pub fn play<S: Source, K: Sink, P: PlaysLines>(
    alloc: Global,
    limit: Limit,
    most: u32,
    player: &mut P,
    source: &mut S,
    sink: &mut K,
) -> CommandOutcome
    // The sink is open, and the player is at its start.
    requires takes { K.takes sink.old }
    requires limit { limit ≡ (P.rules player.old).limit }
    requires starts { P.stands player.old (P.rules player.old).start }

    // What is read, and what is written.
    ensures takes { K.takes sink.new }
    ensures played { HasPlayed result (P.rules player.old) most (S.content source.old) (S.content source.new)
        (K.written sink.old) (K.written sink.new) }

    // The counts of faults and quiet reads show the cause of the outcome.
    ensures cause { HasCause result (source_call S.Source source.old source.new) (sink_call K.Sink sink.old sink.new) }
    ensures faults_stay { S.faults source.old ≤ S.faults source.new }
    ensures quiets_stay { S.quiets source.old ≤ S.quiets source.new }
    ensures sink_faults_stay { K.faults sink.old ≤ K.faults sink.new }

    // If nothing fails and memory suffices, a text within the limits is played whole.
    ensures complete { IsWithin (P.rules player.old) most (S.content source.old)
        → NothingFails (source_call S.Source source.old source.new) (sink_call K.Sink sink.old sink.new)
        → (result ≡ CommandOutcome.Done) ⊎ (result ≡ CommandOutcome.NoMemory) }
{
    read_through(alloc, limit, most, player, source, sink)
}
