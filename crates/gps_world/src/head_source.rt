ghost use Rattle.std.specs.Prelude.{◌≡◌, ◌<◌, ◌≤◌, length};
ghost use Rattle.gps_outside.specs.Counts.{Rose};
ghost use Rattle.gps_outside.specs.Reads.{FailsOnly, FitsBuffer};
ghost use Rattle.gps_outside.specs.declared.source.ReadStep.{ReadStep};

use crate::deadline::Deadline;
use gps_outside::{ReadStep, RealSource, Source, Waits};
use std::fs::File;
use std::net::{Net, TcpStream};
use std::rt::Files;
use std::time::Clock;

/// A connection to a daemon, which answers once that nothing came, when its head must have ended: a read inside the head goes on while
/// bytes come, however few, and would not look at the clock.
///
/// Bytes that are ready are read first, also after that moment: this process may have been stopped while they came. A head has at most
/// 1,048,576 bytes, so that they have an end.
#[derive(Drop)]
pub(crate) struct HeadSource<R: Files<File = File> + Net<Stream = TcpStream> + Clock + Copy> {
    machine: R,
    source: RealSource<R>,
    /// When the head must have ended; none once that was said.
    end: Option<Deadline>,
    quiets: u64,
}

impl<R: Files<File = File> + Net<Stream = TcpStream> + Clock + Copy> HeadSource<R> {
    pub(crate) fn new(machine: R, source: RealSource<R>, end: Deadline) -> HeadSource<R> {
        HeadSource {
            machine,
            source,
            end: Some(end),
            quiets: 0,
        }
    }

    /// Whether the moment has come.
    fn is_late(&self) -> bool {
        match self.end {
            Some(end) => end.has_passed(&self.machine),
            None => false,
        }
    }

    /// Reads, and once more if bytes are ready after a read that gave none, as it was interrupted or late.
    fn read_ready(&mut self, buf: &mut [u8]) -> ReadStep
        requires { 0 < length buf.old }
        ensures fits { FitsBuffer result (length buf.old) }
        ensures faults_stay { self.old.source.faults ≤ self.new.source.faults }
        ensures failed { result ≡ ReadStep.Failed → Rose self.old.source.faults self.new.source.faults }
        ensures fails_only { FailsOnly result self.old.source.faults self.new.source.faults }
        ensures quiets { self.new.quiets ≡ self.old.quiets }
    {
        match self.source.read(buf) {
            ReadStep::Quiet if self.source.is_readable() => self.source.read(buf),
            step => step,
        }
    }
}

impl<R: Files<File = File> + Net<Stream = TcpStream> + Clock + Copy> Source for HeadSource<R> {
    ghost use Rattle.std.specs.Prelude.{None};

    ghost faults = { λ s. s.source.faults };

    ghost quiets = { λ s. s.quiets };

    ghost content = { λ _. None };

    fn read(&mut self, buf: &mut [u8]) -> ReadStep {
        if self.is_late() && !self.source.is_readable() {
            self.end = None;
            self.quiets = self.quiets.saturating_add(1);
            return ReadStep::Quiet;
        }
        let step = self.read_ready(buf);
        if let ReadStep::Quiet = step {
            self.quiets = self.quiets.saturating_add(1);
        }
        step
    }
}

impl<R: Files<File = File> + Net<Stream = TcpStream> + Clock + Copy> Waits for HeadSource<R> {
    fn set_wait(&mut self, wait: Option<u32>) {
        self.source.set_wait(wait);
    }

    fn is_there(&self) -> bool {
        self.source.is_there()
    }
}
