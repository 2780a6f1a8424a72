ghost use Rattle.std.specs.Prelude.{◌≡◌, true, false, None, Some, IfOk, map, option_map, string_bytes};
ghost use Rattle.clap.specs.Simple.{app_of, matches_of};
ghost use Rattle.gps_words.specs.Options.{are_taken};
ghost use Rattle.clap.specs.Words.{found_of, rows_of};
ghost use Rattle.gps_words.specs.Devices.{shown_devices};
ghost use Rattle.gps_words.specs.Within.{IsWithin};
ghost use Rattle.gps_words.specs.Serve.{cycle_gap_in, devices_among, if_address, listen_in, monitor_in, numbers_in, reopen_in, report_in, requests_in, serve_app, serve_asked_of, serve_in, serve_of, serve_of_numbers, serve_with, shown, stop_in, stop_or, wait_in};

use crate::WordsFault;
use crate::device::{Input, is_address, path};
use crate::devices::{Devices, read_devices};
use crate::numbers::{number_given, number_if_given};
use crate::options::{bare, matches_in, with_list, with_options};
use crate::replay::{history, queue};
use clap::ArgMatches;
use gps_fixed::{Bytes, NoMemory};
use gps_report::Names;
use std::alloc::{AllocError, Global};

/// The numbers among the options of `serve`.
#[derive(Clone, Copy, Debug, PartialEq, Eq)]
pub struct ServeNumbers {
    /// How many items the outlet of a session keeps at most, 1 to 65,536.
    pub queue: u32,
    /// How many requests of a session are answered, 1 to 4,294,967,294. Its next request closes it.
    pub requests: u32,
    /// How many symbols a generation has at most, 1 to 33,554,432.
    pub history: u32,
    /// For how many sessions that watch the devices wait, at most 64.
    pub wait: u32,
    /// How many readings each monitor makes, at most 1,000,000.
    pub monitor: u32,
    /// After how many seconds, 1 to 3,600, a place that has ended or failed is opened again; never if there is none.
    pub reopen: Option<u32>,
    /// After how many milliseconds of silence, 1 to 10,000, the sentences of one moment are complete; never if there is none.
    pub cycle_gap: Option<u32>,
    /// Every how many seconds, 10 to 86,400, the daemon says what it does; never if there is none.
    pub report: Option<u32>,
}

/// The options of `serve`. The devices are in three lists of one length, in the order of their numbers.
#[derive(Drop)]
pub struct ServeOptions {
    pub names: Names,
    pub inputs: Vec<Input>,
    /// For each device the path of a file with its edges, if there is one.
    pub edges: Vec<Option<Bytes>>,
    /// Where clients connect: `HOST:PORT`.
    pub listen: Bytes,
    pub numbers: ServeNumbers,
    /// The path of the file whose first byte or end ends the daemon, if there is one.
    pub stop: Option<Bytes>,
}

#[tactic(auto, using(crate::proofs::Given::first_of_rows))]
fn requests(matches: &ArgMatches) -> Option<u32>
    ensures { result ≡ requests_in (rows_of (found_of matches.now)) }
{
    number_given(matches.get_str("requests"), 65_536, 1, 4_294_967_294)
}

#[tactic(auto, using(crate::proofs::Given::first_of_rows))]
fn wait(matches: &ArgMatches) -> Option<u32>
    ensures { result ≡ wait_in (rows_of (found_of matches.now)) }
{
    number_given(matches.get_str("wait"), 0, 0, 64)
}

#[tactic(auto, using(crate::proofs::Given::first_of_rows))]
fn monitor(matches: &ArgMatches) -> Option<u32>
    ensures { result ≡ monitor_in (rows_of (found_of matches.now)) }
{
    number_given(matches.get_str("monitor"), 0, 0, 1_000_000)
}

#[tactic(auto, using(crate::proofs::Given::first_of_rows))]
fn reopen(matches: &ArgMatches) -> Option<Option<u32>>
    ensures { result ≡ reopen_in (rows_of (found_of matches.now)) }
{
    number_if_given(matches.get_str("reopen"), 1, 3_600)
}

#[tactic(auto, using(crate::proofs::Given::first_of_rows))]
fn cycle_gap(matches: &ArgMatches) -> Option<Option<u32>>
    ensures { result ≡ cycle_gap_in (rows_of (found_of matches.now)) }
{
    number_if_given(matches.get_str("cycle-gap"), 1, 10_000)
}

#[tactic(auto, using(crate::proofs::Given::first_of_rows))]
fn report(matches: &ArgMatches) -> Option<Option<u32>>
    ensures { result ≡ report_in (rows_of (found_of matches.now)) }
{
    number_if_given(matches.get_str("report"), 10, 86_400)
}

#[tactic(auto, unfolding(crate::specs::Serve::numbers_in))]
fn numbers(matches: &ArgMatches) -> Option<ServeNumbers>
    ensures { result ≡ numbers_in (rows_of (found_of matches.now)) }
{
    let queue = queue(matches)?;
    let requests = requests(matches)?;
    let history = history(matches)?;
    let wait = wait(matches)?;
    let monitor = monitor(matches)?;
    let reopen = reopen(matches)?;
    let cycle_gap = cycle_gap(matches)?;
    let report = report(matches)?;
    Some(ServeNumbers {
        queue,
        requests,
        history,
        wait,
        monitor,
        reopen,
        cycle_gap,
        report,
    })
}

/// Where clients connect.
#[tactic(auto, using(crate::proofs::Given::first_of_rows))]
fn listen<'a>(matches: &ArgMatches<'a>) -> &'a str
    ensures { result.now ≡ listen_in (rows_of (found_of matches.now)) }
{
    match matches.get_str("listen") {
        Some(text) => text,
        None => "127.0.0.1:2947",
    }
}

/// The path that a text is, if it is not left out.
fn stop_of(alloc: Global, text: Option<&str>) -> Result<Option<Option<Bytes>>, NoMemory>
    ensures { IfOk result (λ stop. stop ≡ stop_or (option_map (λ t. t.now) text.entry)) }
{
    match text {
        Some(text) => match path(alloc, text.as_bytes())? {
            Some(path) => Ok(Some(Some(path))),
            None => Ok(None),
        },
        None => Ok(Some(None)),
    }
}

/// The path of the file whose first byte or end ends the daemon.
#[tactic(auto, using(crate::proofs::Given::first_of_rows))]
fn stop(alloc: Global, matches: &ArgMatches) -> Result<Option<Option<Bytes>>, NoMemory>
    ensures { IfOk result (λ stop. stop ≡ stop_in (rows_of (found_of matches.now))) }
{
    stop_of(alloc, matches.get_str("stop"))
}

/// The options that have a value.
const OPTIONS: [&str; 10] = [
    "listen",
    "queue",
    "requests",
    "history",
    "wait",
    "monitor",
    "reopen",
    "cycle-gap",
    "report",
    "stop",
];

fn command<'a>(alloc: Global) -> Result<clap::Command<'a>, AllocError>
    ensures { IfOk result (λ command. app_of command ≡ serve_app) }
{
    let command = with_options(bare(alloc, "serve"), alloc, &OPTIONS)?;
    with_list(command, alloc, "device")
}

/// The options, if the text of `--listen` is an address.
fn listening(
    alloc: Global,
    listen: &str,
    numbers: ServeNumbers,
    stop: Option<Bytes>,
    devices: Devices,
) -> Result<Option<ServeOptions>, NoMemory>
    ensures { IfOk result (λ options. option_map shown options ≡ if_address listen.now numbers stop (shown_devices devices)) }
{
    if !is_address(listen.as_bytes()) {
        return Ok(None);
    }
    let listen = Bytes::from_slice(alloc, listen.as_bytes())?;
    let Devices {
        names,
        inputs,
        edges,
    } = devices;
    Ok(Some(ServeOptions {
        names,
        inputs,
        edges,
        listen,
        numbers,
        stop,
    }))
}

#[tactic(auto, using(crate::proofs::Given::all_of_rows))]
fn devices(alloc: Global, matches: &ArgMatches) -> Result<Option<Devices>, NoMemory>
    ensures { IfOk result (λ devices. option_map shown_devices devices ≡ devices_among (rows_of (found_of matches.now))) }
{
    match matches.get_strs("device") {
        Some(texts) => read_devices(alloc, texts),
        None => Ok(None),
    }
}

/// The options with these numbers and this path of `--stop`.
fn options_with(
    alloc: Global,
    matches: &ArgMatches,
    numbers: ServeNumbers,
    stop: Option<Bytes>,
) -> Result<Option<ServeOptions>, NoMemory>
    ensures { IfOk result (λ options. option_map shown options ≡ serve_with (rows_of (found_of matches.now)) numbers stop) }
{
    match devices(alloc, matches)? {
        Some(devices) => listening(alloc, listen(matches), numbers, stop, devices),
        None => Ok(None),
    }
}

/// The options with these numbers.
fn options_of(
    alloc: Global,
    matches: &ArgMatches,
    numbers: ServeNumbers,
) -> Result<Option<ServeOptions>, NoMemory>
    ensures { IfOk result (λ options. option_map shown options ≡ serve_of_numbers (rows_of (found_of matches.now)) numbers) }
{
    match stop(alloc, matches)? {
        Some(stop) => options_with(alloc, matches, numbers, stop),
        None => Ok(None),
    }
}

#[tactic(auto, unfolding(crate::specs::Serve::serve_in))]
fn serve_in(alloc: Global, matches: &ArgMatches) -> Result<Option<ServeOptions>, NoMemory>
    ensures { IfOk result (λ options. option_map shown options ≡ serve_in (rows_of (found_of matches.now))) }
{
    match numbers(matches) {
        Some(numbers) => options_of(alloc, matches, numbers),
        None => Ok(None),
    }
}

/// What clap reads from the words of `serve`.
fn matches<'a>(alloc: Global, words: &'a [String]) -> Result<ArgMatches<'a>, WordsFault>
    ensures taken { IfOk result (λ _. are_taken serve_app (map string_bytes words.entry.now) ≡ true) }
    ensures rows { IfOk result (λ m. rows_of (found_of m) ≡ matches_of serve_app (map string_bytes words.entry.now)) }
    ensures refused { result ≡ Err WordsFault.Refused → are_taken serve_app (map string_bytes words.entry.now) ≡ false }
{
    let command = command(alloc)?;
    matches_in(command, words)
}

/// The words of `serve`, its name among them.
#[tactic(auto, using(crate::proofs::Readings::read_is, crate::proofs::Readings::read_refused))]
fn serve(alloc: Global, words: &[String]) -> Result<ServeOptions, WordsFault>
    ensures ok { IfOk result (λ options. serve_of (map string_bytes words.now) ≡ Some (shown options)) }
    ensures refused { result ≡ Err WordsFault.Refused → serve_of (map string_bytes words.now) ≡ None }
{
    let matches = matches(alloc, words)?;
    match serve_in(alloc, &matches) {
        Ok(Some(options)) => Ok(options),
        Ok(None) => Err(WordsFault::Refused),
        Err(NoMemory) => Err(WordsFault::NoMemory),
    }
}

fn asked_for(alloc: Global, words: &[String]) -> Result<ServeOptions, WordsFault>
    ensures ok { IfOk result (λ options. serve_asked_of (map string_bytes words.now) ≡ Some (shown options)) }
    ensures refused { result ≡ Err WordsFault.Refused → serve_asked_of (map string_bytes words.now) ≡ None }
{
    match words {
        [] => Err(WordsFault::Refused),
        [word, ..] => {
            if word.as_str() == "serve" {
                serve(alloc, words)
            } else {
                Err(WordsFault::Refused)
            }
        }
    }
}

/// The options of `serve` that the words ask for. `Refused` comes exactly if the first word is another or is missing, if
/// `clap` finds a fault in the words or a number's text is none in its range, if the path of `--stop` is empty, if the text of
/// `--listen` is no `HOST:PORT`, or if there are not 1 to 16 device words, which name at most 8 devices: each name has one word that says
/// where its bytes come from, and at most one with its edges, after that.
pub fn serve_asked(alloc: Global, words: &[String]) -> Result<ServeOptions, WordsFault>
    ensures ok { IfOk result (λ options. serve_asked_of (map string_bytes words.now) ≡ Some (shown options)) }
    ensures within { IfOk result (λ options. IsWithin (shown options)) }
    ensures refused { result ≡ Err WordsFault.Refused → serve_asked_of (map string_bytes words.now) ≡ None }
{
    let options = asked_for(alloc, words)?;
    Ok(options)
}
