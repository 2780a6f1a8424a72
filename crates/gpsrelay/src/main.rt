//! The program `gpsrelay`: a daemon, modelled on gpsd, that serves satellite receivers to up to 64 clients at a time, and commands that read what a
//! receiver or a recorded script sends on standard input. Help and the version are answered without running any of them.
#![tactic(auto)]

ghost use Rattle.std.specs.Prelude.{◌≡◌, ◌≤◌, IfSome, map, string_bytes};
ghost use Rattle.gps_words.specs.Serve.{serve_asked_of};
ghost use Rattle.gps_world.specs.Asking.{asked_nothing};
ghost use Rattle.serve_workers.specs.Writing.{AllowsClients};
ghost use Rattle.serve_end.specs.Lines.{text_of};
ghost use Rattle.gpsrelay.specs.Closing.{WritesClosing};
ghost use Rattle.gpsrelay.specs.Served.{devices_asked};

mod serve;

use command_run::{
    CountedInput, CountedOutput, REFUSED, StandardStreams, answer, run_words, tell_end,
    tell_no_memory, tell_no_text, tell_refused,
};
use gps_fixed::NoMemory;
use gps_help::question_in;
use gps_outside::{CommandOutcome, RealClock, RealSink, RealSource, Sink, write_all};
use gps_serve::Served;
use gps_words::{ServeOptions, WordsFault, serve_asked};
use gps_world::World;
use serve::serve_main;
use serve_messages::{
    Beside, DaemonMachine, Machine, MessageForm, Setup, Tell, TellingWorld, Weight, share,
    tell_bad_places, tell_report,
};
use std::alloc::Global;
use std::io::{Eprint, ErrorKind, IsTerminal};
use std::process::ExitCode;
use std::sync::{Arc, Wait};
use std::thread::Threads;
use std::{env, io, time};
use wire::Outward;

/// Why the command line could not be read: it is not UTF-8, or there was no memory for it.
fn fault_of(error: &io::Error) -> WordsFault {
    match error.kind() {
        ErrorKind::OutOfMemory => WordsFault::NoMemory,
        _ => WordsFault::Refused,
    }
}

/// The words that the program was called with, without its own name.
fn words_of_call(rt: &HostRuntime) -> Result<Vec<String>, WordsFault> {
    let mut words = Vec::new(rt.alloc());
    match env::args(rt) {
        Ok(called) => {
            for word in called.skip(1) {
                if words.push(word).is_err() {
                    return Err(WordsFault::NoMemory);
                }
            }
            Ok(words)
        }
        Err(error) => Err(fault_of(&error)),
    }
}

/// Does what the words of a command ask for, over the real streams and the machine's clock, and says how it ended.
fn run_command(rt: HostRuntime, words: &[String]) -> Result<u8, NoMemory> {
    let is_shown = rt.stderr().is_terminal() && !rt.stdout().is_terminal();
    let input = RealSource::of_input(rt, rt.alloc(), rt.stdin())?;
    let mut source = CountedInput::new(rt.alloc(), rt, input, is_shown);
    let mut sink = CountedOutput::new(RealSink::new(Outward::of_output(rt.stdout())));
    let mut clock = RealClock::new(rt);
    let outcome = run_words(rt.alloc(), words, &mut source, &mut sink, &mut clock);
    source.end_progress();
    tell_end(&rt, rt.alloc(), words, outcome, &source, &sink);
    Ok(outcome.status())
}

/// Writes the closing lines of a run of the daemon, and gives its status: that of the run, if they are written.
fn close<W: World, K: Sink, R: Wait + Copy>(
    alloc: Global,
    served: &Served<W, R>,
    sink: &mut K,
) -> u8
    requires takes { K.takes sink.old }
    ensures takes { K.takes sink.new }
    ensures closes { WritesClosing served.now.status (text_of served.now.book served.now.sessions.items served.now.monitors.items) result
        (K.written sink.old) (K.written sink.new) (K.faults sink.old) (K.faults sink.new) }
    ensures faults_stay { K.faults sink.old ≤ K.faults sink.new }
{
    match served.lines(alloc) {
        Ok(lines) => {
            if write_all(sink, lines.as_slice()) {
                served.status
            } else {
                CommandOutcome::WriteFault.status()
            }
        }
        Err(NoMemory) => CommandOutcome::NoMemory.status(),
    }
}

/// Says why the daemon ended.
fn tell_status<V: Tell>(voice: &V, status: u8) {
    match status {
        3 => voice.tell_fault("a device could not be opened or failed; see above"),
        4 => voice.tell_fault(
            "standard output: the closing lines could not be written: its reader has gone, it is closed, or the disk is full",
        ),
        7 => voice.tell_fault(
            "out of memory, or the system started no thread: raise the limits, or give a smaller --history or --queue",
        ),
        8 => voice.tell_fault("it could not listen, or could accept no more clients; see above"),
        _ => {}
    }
}

/// Whether the words are those of the daemon.
fn are_for_daemon(words: &[String]) -> bool {
    match words {
        [] => false,
        [word, ..] => word.as_str() == "serve",
    }
}

/// Says that there is no memory, and gives the status for it.
fn end_without_memory(rt: &HostRuntime) -> u8 {
    tell_no_memory(rt);
    CommandOutcome::NoMemory.status()
}

/// What the daemon's world is begun with. `notice` is the socket of a service manager that waits until it listens.
fn setup_of(
    options: &ServeOptions,
    beside: &Beside,
    notice: Option<String>,
) -> Result<Setup, NoMemory> {
    let numbers = options.numbers;
    Ok(Setup {
        reopen: numbers.reopen,
        gap: numbers.cycle_gap,
        stop: share(&beside.stop),
        tally: Arc::try_clone(&beside.tally)?,
        is_reported: numbers.report.is_some(),
        notice,
    })
}

/// Writes the closing lines of a run of the daemon, says its last numbers and why it ended, and gives its status.
fn end_daemon<W: World, K: Sink, R: Wait + Copy + time::Clock + Eprint>(
    rt: R,
    beside: &Beside,
    is_reported: bool,
    served: &Served<W, R>,
    sink: &mut K,
) -> u8
    requires { K.takes sink.old }
{
    let status = close(beside.alloc, served, sink);
    let voice = beside.speaker.voice(rt);
    if is_reported {
        tell_report(&rt, &voice, &beside.tally);
    }
    tell_status(&voice, status);
    beside.speaker.end(&rt);
    status
}

/// Serves over this world until its end, writes the closing lines, and gives the status.
fn run_daemon<W: World, K: Sink, R: Threads + Wait + Copy + Send + Sync + time::Clock + Eprint>(
    rt: R,
    words: &[String],
    world: W,
    beside: &Beside,
    is_reported: bool,
    sink: &mut K,
) -> u8
    requires asked { W.asked world ≡ asked_nothing }
    requires writes { IfSome (serve_asked_of (map string_bytes words.now))
        (λ s. AllowsClients W.Out.asks W.Out.written W.Out.allows (devices_asked (W.behind world) s)) }
    requires takes { K.takes sink.old }
{
    let served = serve_main(rt, beside.alloc, words, world);
    end_daemon(rt, beside, is_reported, &served, sink)
}

/// What is to be done yet after the words were looked at.
enum Left {
    Nothing { status: u8 },
    Serving(ServeOptions),
}

/// What stands before a fault on standard error.
fn head_of_faults(rt: &HostRuntime) -> &'static str {
    MessageForm::of_errors(rt).head(Weight::Fault)
}

/// What the words of `serve` ask for. If they are invalid, or a place of theirs is, that is said.
fn left_of_serve(rt: &HostRuntime, words: &[String]) -> Left {
    match serve_asked(rt.alloc(), words) {
        Ok(options) => {
            if tell_bad_places(rt, &options, head_of_faults(rt)) {
                Left::Nothing { status: REFUSED }
            } else {
                Left::Serving(options)
            }
        }
        Err(WordsFault::Refused) => {
            tell_refused(rt, rt.alloc(), words, head_of_faults(rt));
            Left::Nothing { status: REFUSED }
        }
        Err(WordsFault::NoMemory) => Left::Nothing {
            status: end_without_memory(rt),
        },
    }
}

/// Answers a question, or does a command. The daemon is left, since only `main` may start threads.
fn do_words(rt: HostRuntime, words: &[String]) -> Left {
    if let Some(question) = question_in(words) {
        let mut sink = RealSink::new(Outward::of_output(rt.stdout()));
        return Left::Nothing {
            status: answer(&rt, question.answer(), &mut sink),
        };
    }
    if are_for_daemon(words) {
        return left_of_serve(&rt, words);
    }
    let status = match run_command(rt, words) {
        Ok(status) => status,
        Err(NoMemory) => end_without_memory(&rt),
    };
    Left::Nothing { status }
}

/// Says why the words could not be read, and gives the status for it.
fn end_unread(rt: &HostRuntime, fault: WordsFault) -> u8 {
    match fault {
        WordsFault::Refused => {
            tell_no_text(rt);
            REFUSED
        }
        WordsFault::NoMemory => end_without_memory(rt),
    }
}

fn main(rt: HostRuntime) -> ExitCode {
    // Held to the end, so that nothing else takes the number of a standard stream.
    let _taken = StandardStreams::take(&rt);
    let words = match words_of_call(&rt) {
        Ok(words) => words,
        Err(fault) => return ExitCode::from(end_unread(&rt, fault)),
    };
    let words = words.as_slice();
    let status = match do_words(rt, words) {
        Left::Nothing { status } => status,
        Left::Serving(options) => {
            let notice = env::var(&rt, "NOTIFY_SOCKET").ok();
            let form = MessageForm::of_errors(&rt);
            let Ok(beside) = Beside::start(rt, Machine(rt), rt.alloc(), form, &options) else {
                return ExitCode::from(end_without_memory(&rt));
            };
            let Ok(setup) = setup_of(&options, &beside, notice) else {
                return ExitCode::from(end_without_memory(&rt));
            };
            let is_reported = setup.is_reported;
            let machine = DaemonMachine::new(rt, &beside.lookups);
            let voice = beside.speaker.voice(rt);
            let world = TellingWorld::new(rt.alloc(), rt, machine, voice, setup);
            let mut sink = RealSink::new(Outward::of_output(rt.stdout()));
            run_daemon(rt, words, world, &beside, is_reported, &mut sink)
        }
    };
    ExitCode::from(status)
}
