ghost use Rattle.std.specs.Prelude.{◌≡◌, ◌++◌, IfOk, OnOk};
ghost use Rattle.std.specs.List.{flat_map};
ghost use Rattle.serve_end.specs.Lines.{book_text, monitor_text, session_text, text_of, unit_text_at, units_text};

use crate::{DeviceDone, MonitorDone, SessionDone};
use gps_fixed::{Bytes, NoMemory};
use gps_lane::Tx;
use gps_outside::{ClientSink, Source};
use gps_world::World;
use output_lines::{push_closing_line, push_reading_line, push_unit_line};
use report_book::Book;
use session_core::Item;
use shm_monitor::Reading;
use std::alloc::Global;
use std::sync::Wait;

/// The most units of a book.
const UNITS: u8 = 16;

/// What a daemon hands back: its status, and all that its threads worked with.
#[derive(Drop)]
pub struct Served<W: World, R: Wait + Copy> {
    /// The exit status: 0, 2, 3, 7 or 8.
    pub status: u8,
    /// None if nothing was served: something could not be opened, or the daemon was out of memory before its first thread was started.
    pub book: Option<Book<Tx<Item, R>>>,
    /// One for each device, in the order of the plan; none if nothing was served.
    pub devices: Vec<DeviceDone<W::In, R>>,
    /// One for each session, in the order of their numbers.
    pub sessions: Vec<SessionDone<W::In, W::Out, R>>,
    /// One for each unit that has a monitor, in the order of the units.
    pub monitors: Vec<MonitorDone>,
    /// The door, if it was opened. If nothing was served, nobody asked it.
    pub gate: Option<W::Gate>,
    pub world: W,
    /// How many links were dropped because there were too many sessions; it saturates.
    pub full: u64,
    /// Whether the daemon was out of memory.
    pub no_memory: bool,
}

#[tactic(auto, using(crate::proofs::Texts::not_closed, crate::proofs::Texts::not_there, crate::proofs::Texts::was_closed))]
fn push_session<S: Source, K: ClientSink, R: Wait + Copy>(
    out: &mut Bytes,
    book: &Book<Tx<Item, R>>,
    session: &SessionDone<S, K, R>,
) -> Result<(), NoMemory>
    ensures text { OnOk result (out.new ≡ out.old ++ session_text book.now.sessions session.now) }
{
    let Some((_, why)) = book.closing(session.number) else {
        return Ok(());
    };
    let Some(items) = book.items(session.number) else {
        return Ok(());
    };
    push_closing_line(out, session.number, session.end, why, items)
}

fn push_sessions<S: Source, K: ClientSink, R: Wait + Copy>(
    out: &mut Bytes,
    book: &Book<Tx<Item, R>>,
    sessions: &[SessionDone<S, K, R>],
) -> Result<(), NoMemory>
    ensures text { OnOk result (out.new ≡ out.old ++ flat_map (session_text book.now.sessions) sessions.now) }
{
    for session in sessions {
        push_session(out, book, session)?;
    }
    Ok(())
}

fn push_unit<R: Wait + Copy>(
    out: &mut Bytes,
    book: &Book<Tx<Item, R>>,
    unit: u8,
) -> Result<(), NoMemory>
    ensures text { OnOk result (out.new ≡ out.old ++ unit_text_at book.now.units unit) }
{
    match book.unit(unit) {
        Some(state) => push_unit_line(out, unit, state),
        None => Ok(()),
    }
}

#[tactic(auto, using(crate::proofs::Texts::unit_more, crate::proofs::Texts::all_units))]
fn push_units<R: Wait + Copy>(out: &mut Bytes, book: &Book<Tx<Item, R>>) -> Result<(), NoMemory>
    ensures text { OnOk result (out.new ≡ out.old ++ units_text book.now.units) }
{
    book.show();
    for unit in 0..UNITS {
        push_unit(out, book, unit)?;
    }
    Ok(())
}

#[tactic(auto, using(crate::proofs::Texts::last_is))]
fn push_monitor(out: &mut Bytes, done: &MonitorDone) -> Result<(), NoMemory>
    ensures text { OnOk result (out.new ≡ out.old ++ monitor_text done.now) }
{
    match done.taken.last() {
        Some(pair) => push_reading_line(out, done.unit, &Reading::Taken(*pair)),
        None => Ok(()),
    }
}

fn push_monitors(out: &mut Bytes, monitors: &[MonitorDone]) -> Result<(), NoMemory>
    ensures text { OnOk result (out.new ≡ out.old ++ flat_map monitor_text monitors.now) }
{
    for done in monitors {
        push_monitor(out, done)?;
    }
    Ok(())
}

fn lines_of<S: Source, K: ClientSink, R: Wait + Copy>(
    alloc: Global,
    book: &Book<Tx<Item, R>>,
    sessions: &[SessionDone<S, K, R>],
    monitors: &[MonitorDone],
) -> Result<Bytes, NoMemory>
    ensures text { IfOk result (λ out. out ≡ book_text book.now sessions.now monitors.now) }
{
    let mut out = Bytes::new(alloc);
    push_sessions(&mut out, book, sessions)?;
    push_units(&mut out, book)?;
    push_monitors(&mut out, monitors)?;
    Ok(out)
}

impl<W: World, R: Wait + Copy> Served<W, R> {
    /// The lines that close a run: one for each session, one for each unit that had a sample, and for each monitor that took a sample the
    /// line of its last one. Nothing if there is no book.
    pub fn lines(&self, alloc: Global) -> Result<Bytes, NoMemory>
        ensures text { IfOk result (λ out. out ≡ text_of self.now.book self.now.sessions.items self.now.monitors.items) }
    {
        match &self.book {
            Some(book) => lines_of(
                alloc,
                book,
                self.sessions.as_slice(),
                self.monitors.as_slice(),
            ),
            None => Ok(Bytes::new(alloc)),
        }
    }
}
