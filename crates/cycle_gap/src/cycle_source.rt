ghost use Rattle.std.specs.Prelude.{◌≡◌, ◌≢◌, ◌<◌, ◌≤◌, [], None, true, length};
ghost use Rattle.gps_outside.specs.Counts.{Rose};
ghost use Rattle.gps_outside.specs.declared.source.ReadStep.{ReadStep};
ghost use Rattle.gps_outside.specs.Reads.{FitsBuffer, Reads, FailsOnly, CountsQuiet};
ghost use Rattle.cycle_gap.specs.Handed.{HandsOn, MayEnd, Stands, got_of};

use crate::Split;
use crate::handed::Handed;
use gps_outside::{ReadStep, Source, Waits};
use std::alloc::Global;
use std::marker::Model;

/// No read waits longer than this number of milliseconds, so that a reader hears soon that it is told to end.
const LONGEST_WAIT: u32 = 1_000;

/// A source that puts a NAV-EOE behind what came, once the source within was silent for the gap: if no packet is open, and the last one is no NAV-EOE,
/// received or put in.
#[derive(Drop)]
pub struct CycleSource<S: Waits> {
    source: S,
    handed: Handed,
    /// For how many milliseconds no byte came, as far as was waited for a NAV-EOE; none if the source was away since the last byte.
    silent: Option<u32>,
    quiets: u64,
}

impl<S: Waits> Model for CycleSource<S> {
    ghost use Rattle.cycle_gap.specs.Handed.{Cycle};

    ghost Value = { Cycle };

    ghost view = { λ s. record { kept = s.handed; content = S.Source.content s.source; faults = S.Source.faults s.source; quiets = s.quiets } };
}

impl<S: Waits> CycleSource<S> {
    /// A source from which nothing was read, with this gap of milliseconds; none: it is handed on as it is.
    pub fn new(alloc: Global, source: S, gap: Option<u32>) -> CycleSource<S>
        ensures kept { Stands result.kept [] [] }
        ensures content { result.content ≡ S.Source.content source }
        ensures faults { result.faults ≡ S.Source.faults source }
        ensures quiets { result.quiets ≡ 0 }
    {
        CycleSource {
            source,
            handed: Handed::new(alloc, gap),
            silent: None,
            quiets: 0,
        }
    }

    /// The source within.
    pub fn source(&self) -> &S {
        &self.source
    }

    /// Opens what the next read would open, which may take long. If that fails, the next read is the fault.
    pub fn open(&mut self)
        ensures kept { self.new.kept ≡ self.old.kept }
        ensures content { self.new.content ≡ self.old.content }
        ensures faults { self.new.faults ≡ self.old.faults }
        ensures quiets { self.new.quiets ≡ self.old.quiets }
    {
        self.source.open();
    }

    /// The first moment that came in two parts, if there was one: the gap is too short.
    pub fn split(&self) -> Option<Split> {
        self.handed.split()
    }
}

impl<S: Waits> CycleSource<S> {
    /// For how long the next read waits, if a NAV-EOE may follow it.
    fn wait(&self) -> Option<u32>
        ensures { result ≢ None → MayEnd self.now.kept }
    {
        let gap = self.handed.due()?;
        let silent = self.silent?;
        Some(gap.saturating_sub(silent).min(LONGEST_WAIT))
    }

    /// Reads the source within.
    fn read_source(&mut self, buf: &mut [u8], wait: Option<u32>) -> ReadStep
        requires room { 0 < length buf.old }
        ensures fits { FitsBuffer result (length buf.old) }
        ensures bytes { Reads result buf.new self.old.content self.new.content }
        ensures faults_stay { self.old.faults ≤ self.new.faults }
        ensures failed { result ≡ ReadStep.Failed → Rose self.old.faults self.new.faults }
        ensures fails_only { FailsOnly result self.old.faults self.new.faults }
        ensures kept { self.new.kept ≡ self.old.kept }
        ensures quiets { self.new.quiets ≡ self.old.quiets }
    {
        if wait.is_none() {
            return self.source.read(buf);
        }
        self.source.set_wait(wait);
        let step = self.source.read(buf);
        self.source.set_wait(None);
        step
    }

    /// After a quiet read that waited so long: whether the source was silent for the whole gap.
    fn is_over(&mut self, wait: Option<u32>) -> bool
        ensures waited { result ≡ true → wait ≢ None }
        ensures same { self.new ≡ self.old }
    {
        if !self.source.is_there() {
            self.silent = None;
            return false;
        }
        let (Some(wait), Some(silent)) = (wait, self.silent) else {
            return false;
        };
        let silent = silent.saturating_add(wait);
        self.silent = Some(silent);
        self.handed.is_reached(silent)
    }
}

impl<S: Waits> Source for CycleSource<S> {
    ghost use Rattle.std.specs.Prelude.{None};

    ghost faults = { λ s. s.faults };

    ghost quiets = { λ s. s.quiets };

    ghost content = { λ _. None };

    fn read(&mut self, buf: &mut [u8]) -> ReadStep
        // What each source promises.
        requires { 0 < length buf.old }
        ensures fits { FitsBuffer result (length buf.old) }
        ensures bytes { Reads result buf.new None None }
        ensures faults_stay { self.old.faults ≤ self.new.faults }
        ensures quiets_stay { self.old.quiets ≤ self.new.quiets }
        ensures failed { result ≡ ReadStep.Failed → Rose self.old.faults self.new.faults }
        ensures quiet { result ≡ ReadStep.Quiet → Rose self.old.quiets self.new.quiets }
        ensures fails_only { FailsOnly result self.old.faults self.new.faults }
        ensures counts_quiet { CountsQuiet result self.old.quiets self.new.quiets }

        // What is handed on is what the source within gave, with frames put in.
        ensures handed { HandsOn (got_of result buf.new) self.old self.new }
    {
        if self.handed.has_left() {
            return ReadStep::Got(self.handed.hand_on(buf));
        }
        let wait = self.wait();
        let step = self.read_source(buf, wait);
        match step {
            ReadStep::Got(n) => {
                self.silent = Some(0);
                self.handed.take(&buf[..n]);
                ReadStep::Got(n)
            }
            ReadStep::Quiet => {
                if self.is_over(wait) {
                    self.handed.put_end();
                    return ReadStep::Got(self.handed.hand_on(buf));
                }
                self.quiets = self.quiets.saturating_add(1);
                ReadStep::Quiet
            }
            ReadStep::End => ReadStep::End,
            ReadStep::Failed => ReadStep::Failed,
        }
    }

    fn finish(&mut self) {
        self.source.finish();
    }
}
