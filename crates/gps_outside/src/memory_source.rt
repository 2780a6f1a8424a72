ghost use Rattle.std.specs.Prelude.{◌≡◌, ◌≤◌, ◌<◌, [], length, take, drop};
ghost use Rattle.gps_outside.specs.declared.source.ReadStep.{ReadStep};
ghost use Rattle.gps_outside.specs.Counts.{Rose};
ghost use Rattle.gps_outside.specs.Reads.{CountsQuiet, FailsOnly, FitsBuffer, Reads};
ghost use Rattle.gps_outside.specs.ReadPlans.{given, by_entry, answer_of, held_after};

use crate::plan::next_entry;
use crate::{AtEnd, ReadPlan, ReadStep, Source, Waits};
use std::marker::Model;
use std::vec::IntoIter;

/// A source in memory that follows a plan, entry by entry, and after the plan gives as many bytes as fit.
///
/// If nothing is left, an entry `Give` and the time after the plan answer as `at_end` says.
#[derive(Drop)]
pub struct MemorySource {
    held: Vec<u8>,
    at: usize,
    plan: IntoIter<ReadPlan>,
    at_end: AtEnd,
    faults: u64,
    quiets: u64,
}

impl Model for MemorySource {
    ghost use Rattle.std.specs.Prelude.{◌≤◌, length, take, drop};
    ghost use Rattle.std.specs.Vec.Iter.{into_iter_items};
    ghost use Rattle.gps_outside.specs.ReadPlans.{MemorySourceView};

    ghost Value = { MemorySourceView };

    ghost view = { λ s. record {
      stream = record { taken = take s.at s.held.items; left = drop s.at s.held.items };
      plan = into_iter_items s.plan;
      at_end = s.at_end;
      faults = s.faults;
      quiets = s.quiets;
    } };

    ghost invariant = { λ s. s.at ≤ length s.held.items };
}

impl MemorySource {
    pub fn new(held: Vec<u8>, plan: Vec<ReadPlan>, at_end: AtEnd) -> MemorySource
        ensures { result ≡ record {
          stream = record { taken = []; left = held.items };
          plan = plan.items;
          at_end = at_end;
          faults = 0;
          quiets = 0;
        } }
    {
        MemorySource {
            held,
            at: 0,
            plan: plan.into_iter(),
            at_end,
            faults: 0,
            quiets: 0,
        }
    }

    /// The bytes that were read so far.
    pub fn taken(&self) -> &[u8]
        ensures { result.now ≡ self.now.stream.taken }
    {
        &self.held[..self.at]
    }

    /// The bytes that are left.
    pub fn left(&self) -> &[u8]
        ensures { result.now ≡ self.now.stream.left }
    {
        &self.held[self.at..]
    }

    /// How often a read failed.
    pub fn faults(&self) -> u64
        ensures { result ≡ self.now.faults }
    {
        self.faults
    }

    /// How often a read was quiet.
    pub fn quiets(&self) -> u64
        ensures { result ≡ self.now.quiets }
    {
        self.quiets
    }
}

impl Source for MemorySource {
    ghost use Rattle.std.specs.Prelude.{Some};

    ghost faults = { λ s. s.faults };

    ghost quiets = { λ s. s.quiets };

    ghost content = { λ s. Some s.stream };

    ghost keeps_at_fault = { λ _. Unit {0} };

    fn read(&mut self, buf: &mut [u8]) -> ReadStep
        // What each source promises.
        requires { 0 < length buf.old }
        ensures fits { FitsBuffer result (length buf.old) }
        ensures bytes { Reads result buf.new (Some self.old.stream) (Some self.new.stream) }
        ensures faults_stay { self.old.faults ≤ self.new.faults }
        ensures quiets_stay { self.old.quiets ≤ self.new.quiets }
        ensures failed { result ≡ ReadStep.Failed → Rose self.old.faults self.new.faults }
        ensures quiet { result ≡ ReadStep.Quiet → Rose self.old.quiets self.new.quiets }
        ensures fails_only { FailsOnly result self.old.faults self.new.faults }
        ensures counts_quiet { CountsQuiet result self.old.quiets self.new.quiets }
        ensures kept { result ≡ ReadStep.Failed → self.new.stream ≡ self.old.stream }

        // This one answers as its plan says.
        ensures answer { result ≡ answer_of self.old (length buf.old) }
        ensures after { self.new ≡ held_after result self.old }
    {
        let step = answer_by(
            next_entry(&mut self.plan),
            buf.len(),
            self.left(),
            self.at_end,
        );
        match step {
            ReadStep::Got(n) => {
                buf[..n].copy_from_slice(&self.held[self.at..self.at + n]);
                self.at += n;
            }
            ReadStep::End => {}
            ReadStep::Quiet => self.quiets = self.quiets.saturating_add(1),
            ReadStep::Failed => self.faults = self.faults.saturating_add(1),
        }
        step
    }

    /// After its plan, while bytes are left.
    fn is_ready(&self) -> bool {
        self.plan.len() == 0 && !self.left().is_empty()
    }
}

impl Waits for MemorySource {
    /// It never waits.
    fn set_wait(&mut self, _wait: Option<u32>) {}

    fn is_there(&self) -> bool {
        true
    }
}

/// What an entry of the plan answers to a buffer with this room.
fn answer_by(entry: Option<ReadPlan>, room: usize, left: &[u8], at_end: AtEnd) -> ReadStep
    ensures { result ≡ by_entry entry room left.now at_end }
{
    match entry {
        None => given_of(room, left, at_end),
        Some(ReadPlan::Give(most)) => given_of(most.min(room), left, at_end),
        Some(ReadPlan::Quiet) => ReadStep::Quiet,
        Some(ReadPlan::Fail) => ReadStep::Failed,
    }
}

/// At most `n` of the bytes left, but one at least.
fn given_of(most: usize, left: &[u8], at_end: AtEnd) -> ReadStep
    ensures { result ≡ given most left.now at_end }
{
    match (left.len(), at_end) {
        (0, AtEnd::End) => ReadStep::End,
        (0, AtEnd::Quiet) => ReadStep::Quiet,
        (len, _) => ReadStep::Got(most.max(1).min(len)),
    }
}
