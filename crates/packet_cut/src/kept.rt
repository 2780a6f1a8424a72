//! Bytes with their stamps. Those of one piece have one stamp, so it is kept once for a run of bytes.

ghost use Rattle.std.specs.Prelude.{◌≡◌, ◌≤◌, ◌<◌, ◌+◌, ◌++◌, List, [], IfOk, IfSome, IfNone, drop, length, vec_capacity};
ghost use Rattle.packet_cut.specs.Packets.{bytes_of, most_pending, stamped};
ghost use Rattle.packet_cut.specs.Runs.{runs_after, run_of, IsRunPlace, HasRoom};
ghost use Rattle.packet_cut.specs.Standing.{stamp_in};

use gps_fixed::{NoMemory, Stamp};
use std::alloc::Global;
use std::marker::Model;

/// Bytes that follow one another and have one stamp.
#[derive(Clone, Copy)]
pub(crate) struct Run {
    pub(crate) at: Stamp,
    /// How many bytes it has.
    pub(crate) count: usize,
}

/// A place in a list of runs.
#[derive(Clone, Copy)]
pub(crate) struct RunPlace {
    /// How many runs come before it.
    run: usize,
    /// How many bytes of its run come before it.
    before: usize,
}

/// Bytes that are kept, each with its stamp.
#[derive(Drop)]
pub(crate) struct Kept {
    bytes: Vec<u8>,
    runs: Vec<Run>,
}

impl Model for Kept {
    ghost use Rattle.std.specs.Prelude.{List, vec_capacity};
    ghost use Rattle.packet_cut.specs.Packets.{Stamped};
    ghost use Rattle.packet_cut.specs.Runs.{spread, IsKept};

    ghost Value = { List Stamped };

    ghost view = { λ k. spread k.runs.items k.bytes.items };

    ghost invariant = { λ k. IsKept k.runs.items k.bytes.items (vec_capacity k.bytes) (vec_capacity k.runs) };
}

impl Kept {
    /// No bytes, and no room for any.
    pub(crate) fn new(alloc: Global) -> Kept
        ensures { result ≡ [] }
    {
        Kept {
            bytes: Vec::new(alloc),
            runs: Vec::new(alloc),
        }
    }

    /// The bytes of one piece, and room for the runs.
    pub(crate) fn of_piece(at: Stamp, bytes: Vec<u8>, room: Vec<Run>) -> Kept
        requires short { length bytes.items ≤ most_pending }
        requires room { HasRoom (length bytes.items) (vec_capacity bytes) (vec_capacity room) }
        requires no_runs { room.items ≡ [] }
        ensures { result ≡ stamped at bytes.items }
    {
        let mut runs = room;
        add_run(&mut runs, at, bytes.len());
        Kept { bytes, runs }
    }

    /// The bytes without their stamps.
    pub(crate) fn bytes(&self) -> &[u8]
        ensures bytes { result.now ≡ bytes_of self.now }
        ensures len { length result.now ≡ length self.now }
        ensures most { length result.now ≤ most_pending }
    {
        self.bytes.as_slice()
    }

    /// The stamp of the byte at a place. Those behind the last have the given one.
    pub(crate) fn stamp_at(&self, place: usize, at: Stamp) -> Stamp
        ensures { result ≡ stamp_in self.now at place }
    {
        match run_place(self.runs.as_slice(), place) {
            Some(found) => self.runs[found.run].at,
            None => at,
        }
    }

    /// Removes the first bytes, and adds those of a piece. It takes no memory.
    pub(crate) fn shift(&mut self, gone: usize, at: Stamp, more: &[u8])
        requires some { 0 < length self.old }
        requires short { length (drop gone self.old ++ stamped at more.now) ≤ most_pending }
        ensures { self.new ≡ drop gone self.old ++ stamped at more.now }
    {
        drop_front(&mut self.bytes, gone);
        drop_runs(&mut self.runs, gone);
        extend_within(&mut self.bytes, more);
        add_run(&mut self.runs, at, more.len());
    }

    /// The same bytes once more, with as much room.
    pub(crate) fn copy(&self, alloc: Global) -> Result<Kept, NoMemory>
        ensures { IfOk result (λ copy. copy ≡ self.now) }
    {
        let bytes = copy_of(alloc, &self.bytes)?;
        let runs = copy_of(alloc, &self.runs)?;
        Ok(Kept { bytes, runs })
    }
}

/// Where the byte is that has the given number of bytes before it.
fn run_place(runs: &[Run], count: usize) -> Option<RunPlace>
    ensures some { IfSome result (λ place. IsRunPlace runs.now count place) }
    ensures none { IfNone result (runs_after count runs.now ≡ []) }
{
    let mut run = 0;
    let mut before = count;
    'runs: while run < runs.len() {
        if before < runs[run].count {
            return Some(RunPlace { run, before });
        }
        before -= runs[run].count;
        run += 1;
    }
    None
}

/// Removes the runs of the first bytes.
fn drop_runs(runs: &mut Vec<Run>, count: usize)
    ensures items { runs.new.items ≡ runs_after count runs.old.items }
    ensures room { vec_capacity runs.new ≡ vec_capacity runs.old }
{
    match run_place(runs.as_slice(), count) {
        Some(place) => {
            drop_front(runs, place.run);
            runs[0].count -= place.before;
        }
        None => runs.clear(),
    }
}

/// Adds a run for which there is room, if it has any bytes.
fn add_run(runs: &mut Vec<Run>, at: Stamp, count: usize)
    requires { 0 < count → length runs.old.items < vec_capacity runs.old }
    ensures items { runs.new.items ≡ runs.old.items ++ run_of at count }
    ensures room { vec_capacity runs.new ≡ vec_capacity runs.old }
{
    if count > 0 {
        runs.push_reserved(Run { at, count });
    }
}

/// Removes the first items.
#[tactic(auto, using(crate::proofs::Fronts::none_gone, crate::proofs::Fronts::front_gone))]
fn drop_front<T: Copy>(items: &mut Vec<T>, count: usize)
    ensures items { items.new.items ≡ drop count items.old.items }
    ensures room { vec_capacity items.new ≡ vec_capacity items.old }
{
    let len = items.len();
    let count = count.min(len);
    if count == 0 {
        return;
    }
    items.copy_within(count..len, 0);
    items.truncate(len - count);
}

/// Adds bytes for which there is room.
fn extend_within(bytes: &mut Vec<u8>, more: &[u8])
    requires { length bytes.old.items + length more.now ≤ vec_capacity bytes.old }
    ensures items { bytes.new.items ≡ bytes.old.items ++ more.now }
    ensures room { vec_capacity bytes.old ≤ vec_capacity bytes.new }
{
    let _added = bytes.extend_from_slice(more);
}

/// A copy of the items, in a vector with at least as much room.
pub(crate) fn copy_of<T: Copy>(alloc: Global, items: &Vec<T>) -> Result<Vec<T>, NoMemory>
    ensures items { IfOk result (λ all. all.items ≡ items.now.items) }
    ensures room { IfOk result (λ all. vec_capacity items.now ≤ vec_capacity all) }
{
    let mut all = Vec::with_capacity(alloc, items.capacity())?;
    all.extend_from_slice(items.as_slice())?;
    Ok(all)
}
