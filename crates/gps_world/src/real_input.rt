ghost use Rattle.std.specs.Prelude.{◌≡◌};

use crate::opener::{Found, Inlet};
use crate::reading::Reading;
use crate::{DaemonFault, Loss};
use gps_outside::{Awaited, ReadStep, RealSource, Source, Waits};
use std::fs::File;
use std::io;
use std::marker::Model;
use std::net::{Net, TcpStream};
use std::rt::Files;
use std::time::Clock;

/// What a real world opens as a source: a file, a named pipe, a host, a link, or the packets of another daemon. It counts
/// its faults and quiets, and its contents are not modelled.
///
/// The place of one that is opened again may be away: each read is quiet then, and so is the one at which it was lost. What it
/// gives is what its place gave each time, joined.
#[derive(Drop)]
pub struct RealInput<R: Files<File = File> + Net<Stream = TcpStream> + Clock + Copy> {
    reading: Reading<R>,
    faults: u64,
    quiets: u64,
}

impl<R: Files<File = File> + Net<Stream = TcpStream> + Clock + Copy> Model for RealInput<R> {
    ghost use Rattle.gps_outside.specs.Counts.{Tally};

    ghost Value = { Tally };

    ghost view = { λ s. record { faults = s.faults; quiets = s.quiets } };
}

impl<R: Files<File = File> + Net<Stream = TcpStream> + Clock + Copy> RealInput<R> {
    pub(crate) fn new(reading: Reading<R>) -> RealInput<R>
        ensures { result ≡ record { faults = 0; quiets = 0 } }
    {
        RealInput {
            reading,
            faults: 0,
            quiets: 0,
        }
    }

    /// Reads a source as it is.
    pub fn of_source(source: RealSource<R>) -> RealInput<R>
        ensures { result ≡ record { faults = 0; quiets = 0 } }
    {
        let found = Found {
            inlet: Inlet::Source(source),
            returns: false,
        };
        RealInput::new(Reading::of_found(found, None))
    }

    /// Opens what the next read would open, which may take long, if its place is opened only once. If that fails, the next read is the fault.
    pub fn open(&mut self)
        ensures { self.new ≡ self.old }
    {
        self.reading.begin();
    }

    /// What its next read waits for, before it can give bytes. None once it is open, and while it is away.
    pub fn awaited(&self) -> Option<Awaited> {
        self.reading.awaited()
    }

    /// Whether its place is away, and is opened again.
    pub fn is_away(&self) -> bool {
        self.reading.is_away()
    }

    /// Why the last read found its place gone, if it did.
    pub fn loss(&self) -> Option<Loss> {
        self.reading.loss()
    }

    /// Why it failed, after a fault of what is no daemon.
    pub fn fault(&self) -> Option<io::Error> {
        self.reading.fault()
    }

    /// Why another daemon failed, after a fault of it.
    pub fn daemon_fault(&self) -> Option<DaemonFault> {
        self.reading.daemon_fault()
    }
}

impl<R: Files<File = File> + Net<Stream = TcpStream> + Clock + Copy> Source for RealInput<R> {
    ghost use Rattle.std.specs.Prelude.{None};

    ghost faults = { λ s. s.faults };

    ghost quiets = { λ s. s.quiets };

    ghost content = { λ _. None };

    ghost keeps_at_fault = { λ _. Unit {0} };

    fn read(&mut self, buf: &mut [u8]) -> ReadStep {
        let step = self.reading.read(buf);
        match step {
            ReadStep::Quiet => self.quiets = self.quiets.saturating_add(1),
            ReadStep::Failed => self.faults = self.faults.saturating_add(1),
            ReadStep::Got(_) | ReadStep::End => {}
        }
        step
    }

    fn is_ready(&self) -> bool {
        self.reading.is_ready()
    }

    /// Closes what it reads. It is not opened again.
    fn finish(&mut self) {
        self.reading.finish();
    }
}

impl<R: Files<File = File> + Net<Stream = TcpStream> + Clock + Copy> Waits for RealInput<R> {
    fn set_wait(&mut self, wait: Option<u32>) {
        self.reading.set_wait(wait);
    }

    /// A place that is opened again is opened by its read.
    fn open(&mut self) {
        self.reading.begin();
    }

    fn is_there(&self) -> bool {
        !self.is_away() && self.loss().is_none() && self.awaited().is_none()
    }
}
