//! What is said on standard error if a command ends with another status than 0. It changes no status: a standard error that is closed or full is
//! ignored.

use crate::run_outcome::RunOutcome;
use crate::streams::{CountedInput, CountedOutput};
use class_counts::Finding;
use gps_help::{COMMANDS, EXAMPLES, OTHERS, Refusal, SERVE, USAGE, refused};
use gps_outside::{CommandOutcome, Sink, Source};
use gps_words::{CommandLine, asked};
use std::alloc::Global;
use std::fs::{self, File};
use std::io::Eprint;
use std::os::unix::fs::FileTypeExt;
use std::rt::Files;

/// How many bytes `replay` and `lines` read at most.
const MOST: u64 = 1_073_741_824;

/// The greatest value of `--history`.
const GREATEST: u32 = 33_554_432;

/// The lines of a script.
const EVENTS: &str =
    "device NAME, segment U N, bytes D STAMP HEX, text D STAMP TEXT, edge D LINE, end D, lose D, open S [N], say S TEXT, part S TEXT, \
input S HEX, hang S, take S N, monitor M U, store U N, load M N, a comment (#), or nothing";

/// Says why the words are refused, behind `head`: the reason first, and then how the command is called, or how all are, with the help if none was
/// asked for.
pub fn tell_refused<R: Eprint>(rt: &R, alloc: Global, words: &[String], head: &str) {
    match refused(alloc, words) {
        Ok(Some(refusal)) => tell_refusal(rt, &refusal, words, head),
        Ok(None) => {}
        Err(_) => say(rt, "out of memory for the reason"),
    }
}

fn tell_refusal<R: Eprint>(rt: &R, refusal: &Refusal, words: &[String], head: &str) {
    let told = refusal.told(words);
    let _ = eprintln!(rt; "{head}{told}");
    let _ = match refusal.command {
        Some(command) => {
            let usage = command.usage();
            eprintln!(rt; "usage: {usage}")
        }
        None => eprintln!(rt; "{USAGE}"),
    };
    if refusal.wants_help() {
        let _ = eprint!(rt; "{COMMANDS}{SERVE}{OTHERS}{EXAMPLES}");
    }
}

/// Says that a word is not UTF-8.
pub fn tell_no_text<R: Eprint>(rt: &R) {
    say(rt, "a word of the command line is not UTF-8");
    let _ = eprintln!(rt; "{USAGE}");
}

/// Says something on standard error, after the program's name.
pub fn say<R: Eprint>(rt: &R, what: &str) {
    let _ = eprintln!(rt; "gpsrelay: {what}");
}

/// Says that the command stopped at its limit of bytes.
fn tell_full<R: Eprint>(rt: &R, command: &CommandLine) {
    let _ = match command {
        CommandLine::Decode { history } | CommandLine::Pseudo { history } => {
            eprintln!(rt;
                "gpsrelay: stopped after {history} bytes: say --history N for more, up to {GREATEST}, or --history all"
            )
        }
        CommandLine::Replay { .. } | CommandLine::Generate { .. } | CommandLine::Lines => {
            eprintln!(rt;
                "gpsrelay: stopped after {MOST} bytes: no more are read at a time; split the input"
            )
        }
    };
}

/// Says what was expected in the line that is bad.
fn tell_bad_line<R: Eprint>(rt: &R, command: &CommandLine, number: u64) {
    let _ = match command {
        CommandLine::Lines => {
            eprintln!(rt;
                "gpsrelay: line {number} of the input is not a line of the daemon, byte for byte; expected: a JSON object as it writes them, and CR LF"
            )
        }
        _ => {
            eprintln!(rt;
                "gpsrelay: line {number} of the input is no line of a script, or may not stand there; expected: {EVENTS}"
            )
        }
    };
}

/// Says that bytes came in which no fix was found.
fn tell_nothing_found<S: Source, K: Sink, R: Eprint>(
    rt: &R,
    command: &CommandLine,
    input: &CountedInput<S, R>,
    output: &CountedOutput<K>,
) {
    let bytes = input.bytes();
    if bytes == 0 || output.bytes() > 0 {
        return;
    }
    if let CommandLine::Decode { .. } | CommandLine::Pseudo { .. } = command {
        let _ = match input.first().finding() {
            Finding::Packets(counts) => eprintln!(rt; "gpsrelay: {bytes} bytes came: {counts}"),
            Finding::Unchecked(number) => eprintln!(rt;
                "gpsrelay: {bytes} bytes came: {number} sentences without a checksum, which are passed over"
            ),
            Finding::Json => eprintln!(rt;
                "gpsrelay: {bytes} bytes of JSON came, which is decoded already: gpsrelay lines counts it, and track.py makes pictures of it"
            ),
            Finding::Fix | Finding::Nothing => eprintln!(rt;
                "gpsrelay: {bytes} bytes came, and no fix was found: is it NMEA 0183 or UBX, at the right speed?"
            ),
        };
    }
}

/// Whether standard output is a pipe or a socket. A write there fails only if its reader has gone.
fn is_pipe<R: Files<File = File>>(rt: &R) -> bool {
    match fs::metadata(rt, "/proc/self/fd/1") {
        Ok(metadata) => metadata.file_type().is_fifo() || metadata.file_type().is_socket(),
        Err(_) => false,
    }
}

/// Says that a write failed. If the reader of a pipe has gone, as in `decode | head`, nothing is said.
fn tell_write_fault<R: Eprint + Files<File = File>>(rt: &R) {
    if !is_pipe(rt) {
        say(
            rt,
            "standard output: a write failed: it is closed, or the disk is full",
        );
    }
}

/// Says how a command ended, if there is something to say.
fn tell_outcome<S: Source, K: Sink, R: Eprint + Files<File = File>>(
    rt: &R,
    command: &CommandLine,
    outcome: CommandOutcome,
    input: &CountedInput<S, R>,
    output: &CountedOutput<K>,
) {
    match outcome {
        CommandOutcome::Done => tell_nothing_found(rt, command, input, output),
        CommandOutcome::ReadFault => say(
            rt,
            "standard input: a read failed: is it closed, a directory, or a device that was unplugged?",
        ),
        CommandOutcome::TooQuiet => say(
            rt,
            "standard input: nothing came a thousand times: does the device send?",
        ),
        CommandOutcome::WriteFault => tell_write_fault(rt),
        CommandOutcome::Full => tell_full(rt, command),
        CommandOutcome::BadLine { number } => tell_bad_line(rt, command, number),
        CommandOutcome::NoMemory => tell_no_memory(rt),
    }
}

/// Says how the words were done, if there is something to say: why they are refused, or why their command ended so.
pub fn tell_end<S: Source, K: Sink, R: Eprint + Files<File = File>>(
    rt: &R,
    alloc: Global,
    words: &[String],
    outcome: RunOutcome,
    input: &CountedInput<S, R>,
    output: &CountedOutput<K>,
) {
    match outcome {
        RunOutcome::Refused => tell_refused(rt, alloc, words, "gpsrelay: "),
        RunOutcome::Ended(outcome) => match asked(alloc, words) {
            Ok(command) => tell_outcome(rt, &command, outcome, input, output),
            Err(_) => tell_no_memory(rt),
        },
    }
}

/// Says that the program is out of memory.
pub fn tell_no_memory<R: Eprint>(rt: &R) {
    say(
        rt,
        "out of memory: raise its limit, or give a smaller --history or --queue, if the command has them",
    );
}
