ghost use Rattle.std.specs.Prelude.{◌≡◌, ◌≤◌, ◌<◌, [], length, drop, IfOk};
ghost use Rattle.gps_outside.specs.declared.sink.WriteStep.{WriteStep};
ghost use Rattle.gps_outside.specs.Counts.{Rose};
ghost use Rattle.gps_outside.specs.Writes.{FailsOnly, FitsPiece, Writes};
ghost use Rattle.gps_outside.specs.WritePlans.{taken, by_entry, answer_of, filled_after};

use crate::plan::next_entry;
use crate::{ClientSink, Sink, WritePlan, WriteStep};
use gps_fixed::NoMemory;
use std::alloc::Global;
use std::marker::Model;
use std::vec::IntoIter;

/// A sink in memory that follows a plan, entry by entry, and after the plan takes whole pieces, as far as its room goes.
///
/// Its room is allocated at once, so a write takes no memory.
#[derive(Drop)]
pub struct MemorySink {
    written: Vec<u8>,
    plan: IntoIter<WritePlan>,
    room: usize,
    faults: u64,
}

impl Model for MemorySink {
    ghost use Rattle.std.specs.Prelude.{◌≤◌, length, vec_capacity};
    ghost use Rattle.std.specs.Vec.Iter.{into_iter_items};
    ghost use Rattle.gps_outside.specs.WritePlans.{Filled};

    ghost Value = { Filled };

    ghost view = { λ s. record {
      written = s.written.items;
      plan = into_iter_items s.plan;
      room = s.room;
      faults = s.faults;
    } };

    ghost invariant = { λ s. (length s.written.items ≤ s.room) × (s.room ≤ vec_capacity s.written) };
}

impl MemorySink {
    pub fn new(alloc: Global, plan: Vec<WritePlan>, room: u32) -> Result<MemorySink, NoMemory>
        ensures { IfOk result (λ s. s ≡ record { written = []; plan = plan.items; room = room; faults = 0 }) }
    {
        let room = room as usize;
        Ok(MemorySink {
            written: Vec::with_capacity(alloc, room)?,
            plan: plan.into_iter(),
            room,
            faults: 0,
        })
    }

    /// The bytes that were written so far.
    pub fn written(&self) -> &[u8]
        ensures { result.now ≡ self.now.written }
    {
        self.written.as_slice()
    }

    /// How often a write failed.
    pub fn faults(&self) -> u64
        ensures { result ≡ self.now.faults }
    {
        self.faults
    }
}

impl MemorySink {
    /// Writes as its plan says.
    fn take(&mut self, piece: &[u8]) -> WriteStep
        // What each sink promises.
        requires { 0 < length piece.now }
        ensures fits { FitsPiece result (length piece.now) }
        ensures bytes { Writes result piece.now (Some self.old.written) (Some self.new.written) }
        ensures faults_stay { self.old.faults ≤ self.new.faults }
        ensures failed { result ≡ WriteStep.Failed → Rose self.old.faults self.new.faults }
        ensures fails_only { FailsOnly result self.old.faults self.new.faults }

        // This one answers as its plan says.
        ensures answer { result ≡ answer_of self.old (length piece.now) }
        ensures after { self.new ≡ filled_after result piece.now self.old }
    {
        let space = self.room - self.written.len();
        let step = answer_by(next_entry(&mut self.plan), piece.len(), space);
        match step {
            WriteStep::Wrote(n) => {
                let _ = self.written.extend_from_slice(&piece[..n]);
            }
            WriteStep::Failed => self.faults = self.faults.saturating_add(1),
        }
        step
    }
}

impl Sink for MemorySink {
    ghost use Rattle.std.specs.Prelude.{Some};

    ghost faults = { λ s. s.faults };

    ghost written = { λ s. Some s.written };

    fn write(&mut self, piece: &[u8]) -> WriteStep
        // What each sink promises.
        requires some { 0 < length piece.now }
        ensures fits { FitsPiece result (length piece.now) }
        ensures bytes { Writes result piece.now (Some self.old.written) (Some self.new.written) }
        ensures faults_stay { self.old.faults ≤ self.new.faults }
        ensures failed { result ≡ WriteStep.Failed → Rose self.old.faults self.new.faults }
        ensures fails_only { FailsOnly result self.old.faults self.new.faults }

        // This one answers as its plan says.
        ensures answer { result ≡ answer_of self.old (length piece.now) }
        ensures after { self.new ≡ filled_after result piece.now self.old }
    {
        self.take(piece)
    }
}

/// As a client's link it delivers at once what it was written.
impl ClientSink for MemorySink {
    ghost use Rattle.std.specs.Prelude.{Some};

    ghost faults = { λ s. s.faults };

    ghost written = { λ s. Some s.written };

    fn write(&mut self, piece: &[u8]) -> WriteStep {
        self.take(piece)
    }
}

/// What an entry of the plan answers to a piece of this length.
fn answer_by(entry: Option<WritePlan>, len: usize, space: usize) -> WriteStep
    ensures { result ≡ by_entry entry len space }
{
    match entry {
        None => taken_of(len, len, space),
        Some(WritePlan::Take(most)) => taken_of(most, len, space),
        Some(WritePlan::Fail) => WriteStep::Failed,
    }
}

/// At most `n` of the piece's bytes, but one at least, as far as the space goes.
fn taken_of(most: usize, len: usize, space: usize) -> WriteStep
    ensures { result ≡ taken most len space }
{
    if space == 0 {
        WriteStep::Failed
    } else {
        WriteStep::Wrote(most.max(1).min(len.min(space)))
    }
}
