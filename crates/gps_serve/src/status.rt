ghost use Rattle.std.specs.Prelude.{◌≡◌, ◌⊎◌, ◌||◌, true, false};
ghost use Rattle.std.specs.List.{All, list_all, list_any};
ghost use Rattle.hub_promise.specs.Given.{is_end};
ghost use Rattle.serve_end.specs.Failing.{AnyOf};
ghost use Rattle.gps_serve.specs.Lost.{IsNotClosedOutOfMemory, IsNotLostOutOfMemory, WasClosedOutOfMemory, closed_out_of_memory, lost_out_of_memory, ended_out_of_memory, lines_out_of_memory, link_out_of_memory, run_out_of_memory};
ghost use Rattle.gps_serve.specs.Statuses.{daemon_out_of_memory, outcome_status};

use gps_hub::{DeviceEnd, Ending};
use gps_lane::Tx;
use gps_outside::{ClientSink, Source};
use report_book::Book;
use serve_end::DeviceRun;
use serve_workers::{LinkDone, ReaderDone, ReadingsDone};
use session_core::{Close, Item};
use std::sync::Wait;

pub(crate) fn either(before: bool, now: bool) -> bool
    ensures { result ≡ (before || now) }
{
    before || now
}

/// How a daemon's work ended.
#[derive(Clone, Copy)]
pub(crate) struct DaemonOutcome {
    /// A source of a device or of its edges failed.
    pub(crate) read_fault: bool,
    /// The door failed.
    pub(crate) door_fault: bool,
    /// Each device has ended.
    pub(crate) ended: bool,
    /// The daemon was out of memory.
    pub(crate) no_memory: bool,
}

impl DaemonOutcome {
    /// Whether the daemon was out of memory: that was seen, or a device was lost though no source failed. If one failed, only what was
    /// seen counts: it includes each device that was lost for lack of memory.
    pub(crate) fn is_out_of_memory(&self) -> bool
        ensures { result ≡ daemon_out_of_memory self.now }
    {
        self.no_memory || (!self.read_fault && !self.ended)
    }

    /// The status: 3 after a read fault, else 8 after a fault of the door, else 7 if it was out of memory, else 0.
    pub(crate) fn status(&self) -> u8
        ensures { result ≡ outcome_status self.now }
    {
        if self.read_fault {
            3
        } else if self.door_fault {
            8
        } else if self.is_out_of_memory() {
            7
        } else {
            0
        }
    }
}

/// Whether a reader ended because it was out of memory.
fn ended_out_of_memory(ending: Option<Ending>) -> bool
    ensures { result ≡ ended_out_of_memory ending }
{
    match ending {
        Some(Ending::NoMemory) => true,
        Some(Ending::End | Ending::Failed) | None => false,
    }
}

/// Whether the reader of a device's edges did so, if there is one.
fn lines_out_of_memory<S: Source, R: Wait + Copy>(reader: &Option<ReaderDone<S, R>>) -> bool
    ensures { result ≡ lines_out_of_memory reader.now }
{
    match reader {
        Some(reader) => ended_out_of_memory(reader.ending),
        None => false,
    }
}

/// Whether a reader of a device did so.
fn run_out_of_memory<S: Source, R: Wait + Copy>(run: &DeviceRun<S, R>) -> bool
    ensures { result ≡ run_out_of_memory run.now }
{
    either(
        ended_out_of_memory(run.bytes.ending),
        lines_out_of_memory(&run.edges),
    )
}

/// Whether a reader of any device did so.
pub(crate) fn any_run_out_of_memory<S: Source, R: Wait + Copy>(runs: &[DeviceRun<S, R>]) -> bool
    ensures { result ≡ list_any run_out_of_memory runs.now }
{
    runs.iter().any(|run| run_out_of_memory(run))
}

/// Whether each device has ended.
pub(crate) fn all_ended(ends: &[Option<DeviceEnd>]) -> bool
    ensures { result ≡ list_all is_end ends.now }
{
    ends.iter().all(|end| *end == Some(DeviceEnd::Ended))
}

/// Whether a device was lost because it was out of memory.
fn lost_out_of_memory(end: Option<DeviceEnd>) -> bool
    ensures { result ≡ lost_out_of_memory end }
{
    end == Some(DeviceEnd::NoMemory)
}

/// Whether any device was lost because it was out of memory.
fn any_end_out_of_memory(ends: &[Option<DeviceEnd>]) -> bool
    ensures { result ≡ list_any lost_out_of_memory ends.now }
{
    ends.iter().any(|end| lost_out_of_memory(*end))
}

/// Whether the reader of any session ended because it was out of memory.
pub(crate) fn any_link_out_of_memory<S: Source, K: ClientSink, R: Wait + Copy>(
    runs: &[LinkDone<S, K, R>],
) -> bool
    ensures { result ≡ list_any link_out_of_memory runs.now }
{
    runs.iter()
        .any(|run| ended_out_of_memory(run.reader.ending))
}

/// Whether a session was closed because it was out of memory.
fn closed_out_of_memory(closing: Option<(u64, Close)>) -> bool
    ensures { result ≡ closed_out_of_memory closing }
{
    match closing {
        Some((_, why)) => why == Close::NoMemory,
        None => false,
    }
}

/// Whether the book closed a session because it was out of memory.
fn book_out_of_memory<R: Wait + Copy>(book: &Book<Tx<Item, R>>) -> bool
    ensures kept { result ≡ false → All (λ session. IsNotClosedOutOfMemory session.session.closing) book.now.sessions }
    ensures cut { result ≡ true → AnyOf WasClosedOutOfMemory book.now.sessions }
{
    let mut is_out_of_memory = false;
    'sessions: for session in 0..book.opened() {
        is_out_of_memory = either(
            is_out_of_memory,
            closed_out_of_memory(book.closing(session)),
        );
    }
    is_out_of_memory
}

/// Whether each monitor made all its readings, as it does unless it is out of memory.
pub(crate) fn are_whole(watched: &[ReadingsDone]) -> bool
    ensures { result ≡ list_all (λ watch. watch.whole) watched.now }
{
    watched.iter().all(|watch| watch.whole)
}

/// Whether the daemon was out of memory: a thread, or the book for a device or a session.
pub(crate) fn was_out_of_memory<R: Wait + Copy>(
    by_threads: bool,
    book: &Book<Tx<Item, R>>,
    ends: &[Option<DeviceEnd>],
) -> bool
    ensures threads { result ≡ false → by_threads ≡ false }
    ensures devices { result ≡ false → All IsNotLostOutOfMemory ends.now }
    ensures sessions { result ≡ false → All (λ session. IsNotClosedOutOfMemory session.session.closing) book.now.sessions }
    ensures cause { result ≡ true → (by_threads ≡ true) ⊎ (list_any lost_out_of_memory ends.now ≡ true) ⊎ AnyOf WasClosedOutOfMemory book.now.sessions }
{
    let by_book = either(any_end_out_of_memory(ends), book_out_of_memory(book));
    either(by_threads, by_book)
}
