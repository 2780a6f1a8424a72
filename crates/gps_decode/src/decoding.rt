ghost use Rattle.std.specs.Prelude.{◌≡◌, ◌≤◌, ◌∷◌, ◌++◌, [], List, codes};
ghost use Rattle.gps_report.specs.declared.edge.Symbol.{Symbol};
ghost use Rattle.device_core.specs.Stream.{piece};
ghost use Rattle.device_core.specs.Standing.{StandsFor};
ghost use Rattle.device_core.specs.Reports.{device_close};
ghost use Rattle.gps_decode.specs.Texts.{line_of, sentences_of, texts_by, texts_of};
ghost use Rattle.gps_decode.specs.Decode.{Decoded, HandsOn, WriteCause, Written};
ghost use Rattle.gps_outside.specs.Calls.{sink_call, source_call};
ghost use Rattle.gps_outside.specs.Outcomes.{HasLateCause};

use crate::fault::Fault;
use crate::texts::{Draft, Output};
use device_core::Device;
use gps_fixed::Stamp;
use gps_outside::{Clock, CommandOutcome, Intake, IntakeStep, Sink, Source};
use std::alloc::Global;

/// Feeds the device with the bytes of one read, and adds what is written of its gains.
#[tactic(auto, using(crate::proofs::HandingOn::handed_on, crate::proofs::HandingOn::fed_none))]
fn hand_on<K: Sink>(
    device: &mut Device,
    output: &Output,
    draft: &mut Draft,
    at: Stamp,
    bytes: &[u8],
    sink: &mut K,
) -> Result<(), Fault>
    requires takes { K.takes sink.old }
    ensures takes { K.takes sink.new }
    ensures lines { (stream : List Symbol) → StandsFor device.old.now stream
        → HandsOn (texts_by output.now) result stream (piece at bytes.now) device.new.now draft.old draft.new (K.written sink.old) (K.written sink.new) }
    ensures cause { WriteCause result (K.faults sink.old) (K.faults sink.new) }
    ensures faults_stay { K.faults sink.old ≤ K.faults sink.new }
{
    match device.feed_without_packets(at, bytes) {
        Ok(gained) => draft.write(output, gained.as_slice(), sink),
        Err(_) => Err(draft.give_up(sink)),
    }
}

/// As [`hand_on`], for the last bytes: nothing waits any more.
#[tactic(auto, using(crate::proofs::HandingOn::flushed, crate::proofs::HandingOn::flushed_part))]
fn hand_on_last<K: Sink>(
    device: &mut Device,
    output: &Output,
    draft: &mut Draft,
    at: Stamp,
    bytes: &[u8],
    sink: &mut K,
) -> Result<(), Fault>
    requires takes { K.takes sink.old }
    ensures takes { K.takes sink.new }
    ensures lines { (stream : List Symbol) → StandsFor device.old.now stream
        → HandsOn (texts_by output.now) result stream (piece at bytes.now) device.new.now draft.old [] (K.written sink.old) (K.written sink.new) }
    ensures cause { WriteCause result (K.faults sink.old) (K.faults sink.new) }
    ensures faults_stay { K.faults sink.old ≤ K.faults sink.new }
{
    match hand_on(device, output, draft, at, bytes, sink) {
        Ok(()) => {
            if draft.flush(sink) {
                Ok(())
            } else {
                Err(Fault::Sink)
            }
        }
        Err(fault) => Err(fault),
    }
}

/// Closes the device's running epoch, and writes what waits and what is written of the epoch.
#[tactic(auto, using(crate::proofs::HandingOn::closed, crate::proofs::HandingOn::closed_part, crate::proofs::HandingOn::closed_none))]
fn close<K: Sink>(
    device: &mut Device,
    output: &Output,
    draft: &mut Draft,
    sink: &mut K,
) -> Result<(), Fault>
    requires takes { K.takes sink.old }
    ensures takes { K.takes sink.new }
    ensures lines { (stream : List Symbol) → StandsFor device.old.now stream
        → Written result (texts_of (texts_by output.now) (device_close stream)) draft.old [] (K.written sink.old) (K.written sink.new) }
    ensures cause { WriteCause result (K.faults sink.old) (K.faults sink.new) }
    ensures faults_stay { K.faults sink.old ≤ K.faults sink.new }
{
    match device.finish() {
        Ok(left) => match draft.write(output, left.as_slice(), sink) {
            Ok(()) => {
                if draft.flush(sink) {
                    Ok(())
                } else {
                    Err(Fault::Sink)
                }
            }
            Err(fault) => Err(fault),
        },
        Err(_) => Err(draft.give_up(sink)),
    }
}

/// As [`decode`] and [`pseudo`], with a new device.
///
/// Lines wait for further ones while more input is ready, and never while the source may wait.
fn write_reports<S: Source, K: Sink, C: Clock>(
    alloc: Global,
    output: &Output,
    history: u64,
    source: &mut S,
    sink: &mut K,
    clock: &mut C,
) -> CommandOutcome
    // The sink is open, and stays open.
    requires takes { K.takes sink.old }
    ensures takes { K.takes sink.new }

    // What is read, and what is written.
    ensures decoded { Decoded (texts_by output.now) result history (S.content source.old) (S.content source.new)
        (C.stamps clock.old) (C.stamps clock.new) (K.written sink.old) (K.written sink.new) }

    // The counts of faults and quiet reads show the cause of the outcome.
    ensures cause { HasLateCause result (source_call S.Source source.old source.new) (sink_call K.Sink sink.old sink.new) }
    ensures faults_stay { S.faults source.old ≤ S.faults source.new }
    ensures quiets_stay { S.quiets source.old ≤ S.quiets source.new }
    ensures sink_faults_stay { K.faults sink.old ≤ K.faults sink.new }
{
    let mut device = Device::new(alloc);
    let mut draft = Draft::new(alloc);
    let mut intake = Intake::new(history);
    let mut buf = [0u8; 512];
    'rounds: loop {
        if !draft.flush_unless_ready(&*source, sink) {
            return CommandOutcome::WriteFault;
        }
        match intake.step(source, &mut buf) {
            IntakeStep::Piece(n) => {
                match hand_on(
                    &mut device,
                    output,
                    &mut draft,
                    clock.now(),
                    &buf[..n],
                    sink,
                ) {
                    Ok(()) => {}
                    Err(fault) => return fault.outcome(),
                }
            }
            IntakeStep::Quiet => {}
            IntakeStep::Last(n) => {
                match hand_on_last(
                    &mut device,
                    output,
                    &mut draft,
                    clock.now(),
                    &buf[..n],
                    sink,
                ) {
                    Ok(()) => return CommandOutcome::Full,
                    Err(fault) => return fault.outcome(),
                }
            }
            IntakeStep::End => match close(&mut device, output, &mut draft, sink) {
                Ok(()) => return CommandOutcome::Done,
                Err(fault) => return fault.outcome(),
            },
            IntakeStep::Failed => {
                if draft.flush(sink) {
                    return CommandOutcome::ReadFault;
                }
                return CommandOutcome::WriteFault;
            }
            IntakeStep::TooQuiet => {
                if draft.flush(sink) {
                    return CommandOutcome::TooQuiet;
                }
                return CommandOutcome::WriteFault;
            }
        }
    }
}

/// Reads what one device sends to the source's end, or to a limit, and writes the JSON lines of its fixes and skies for the
/// name `stdin`, in order, as epochs close.
///
/// At most `history` bytes are read, 1 to 512 at a time. After each read that gave bytes the clock is asked once, and its stamp
/// is that of all of them. Lines wait for further ones while more input is ready, and never while the source may wait.
///
/// The outcome says what was read and written:
/// - `Done`: all that the source had, and all lines, with those of the epoch that was open at its end;
/// - `ReadFault`: a read failed; `TooQuiet`: it was the thousandth quiet read; `Full`: `history` bytes were read, and
///   more came. The lines so far were written, without those of the open epoch;
/// - `WriteFault`: a write failed; `NoMemory`: out of memory. A prefix of the lines was written.
///
/// The sink is open, and stays open. The source's faults rise only if a read failed, and the sink's exactly if the outcome is a
/// write fault. A read may have failed before it, since what waits is written then. What is said of bytes and stamps is said of a
/// source, a sink and a clock whose contents are modelled.
pub fn decode<S: Source, K: Sink, C: Clock>(
    alloc: Global,
    history: u64,
    source: &mut S,
    sink: &mut K,
    clock: &mut C,
) -> CommandOutcome
    // The sink is open, and stays open.
    requires takes { K.takes sink.old }
    ensures takes { K.takes sink.new }

    // What is read, and what is written.
    ensures decoded { Decoded line_of result history (S.content source.old) (S.content source.new)
        (C.stamps clock.old) (C.stamps clock.new) (K.written sink.old) (K.written sink.new) }

    // The counts of faults and quiet reads show the cause of the outcome.
    ensures cause { HasLateCause result (source_call S.Source source.old source.new) (sink_call K.Sink sink.old sink.new) }
    ensures faults_stay { S.faults source.old ≤ S.faults source.new }
    ensures quiets_stay { S.quiets source.old ≤ S.quiets source.new }
    ensures sink_faults_stay { K.faults sink.old ≤ K.faults sink.new }
{
    write_reports(alloc, &Output::Lines, history, source, sink, clock)
}

/// Reads what one device sends as [`decode`] does, and writes two sentences of NMEA 0183 for each fix, an RMC and a GGA, in place
/// of its line, and nothing for a sky. The outcomes are those of [`decode`].
pub fn pseudo<S: Source, K: Sink, C: Clock>(
    alloc: Global,
    history: u64,
    source: &mut S,
    sink: &mut K,
    clock: &mut C,
) -> CommandOutcome
    // The sink is open, and stays open.
    requires takes { K.takes sink.old }
    ensures takes { K.takes sink.new }

    // What is read, and what is written.
    ensures decoded { Decoded sentences_of result history (S.content source.old) (S.content source.new)
        (C.stamps clock.old) (C.stamps clock.new) (K.written sink.old) (K.written sink.new) }

    // The counts of faults and quiet reads show the cause of the outcome.
    ensures cause { HasLateCause result (source_call S.Source source.old source.new) (sink_call K.Sink sink.old sink.new) }
    ensures faults_stay { S.faults source.old ≤ S.faults source.new }
    ensures quiets_stay { S.quiets source.old ≤ S.quiets source.new }
    ensures sink_faults_stay { K.faults sink.old ≤ K.faults sink.new }
{
    write_reports(alloc, &Output::Sentences, history, source, sink, clock)
}
