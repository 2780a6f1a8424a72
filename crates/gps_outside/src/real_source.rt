ghost use Rattle.std.specs.Prelude.{◌≡◌, IfOk};

use crate::inlet::{AHEAD, Awaited, Inlet, Link};
use crate::{Listening, ReadStep, Source, Waits};
use gps_fixed::{Bytes, NoMemory};
use std::alloc::Global;
use std::fs::File;
use std::io::{self, BufReader, Stdin};
use std::marker::Model;
use std::net::{Net, TcpStream};
use std::rt::Files;
use std::time::{Clock, Duration};

/// A file, a named pipe, standard input, a host or the link of a client as a source. It counts its faults and
/// quiets, and its contents are not modelled.
///
/// Of a file and of standard input it asks the system for more than a read may take, and hands what came ahead on to the
/// next reads; it never waits for more than came at once. A stream is read as it is asked. What may wait long to be
/// opened, a named pipe and a host, is opened by the first read. A read of a terminal, another device, a pipe or a
/// host waits for bytes for a second, and is quiet then; a host that does not answer within five seconds, or refuses, is a
/// fault, and so is one that is this daemon itself. After its end it stays ended, and after a fault each read is a fault.
#[derive(Drop)]
pub struct RealSource<R> {
    machine: R,
    inlet: Inlet,
    /// How many milliseconds a read of a device or a host waits for bytes; none: a second.
    wait: Option<i32>,
    faults: u64,
    quiets: u64,
}

impl<R> Model for RealSource<R> {
    ghost use Rattle.gps_outside.specs.Counts.{Tally};

    ghost Value = { Tally };

    ghost view = { λ s. record { faults = s.faults; quiets = s.quiets } };
}

impl<R> RealSource<R> {
    fn new(machine: R, inlet: Inlet) -> RealSource<R>
        ensures { result ≡ record { faults = 0; quiets = 0 } }
    {
        RealSource {
            machine,
            inlet,
            wait: None,
            faults: 0,
            quiets: 0,
        }
    }

    /// Reads a file, from its present place on.
    pub fn of_file(machine: R, alloc: Global, file: File) -> Result<RealSource<R>, NoMemory>
    where
        R: Drop,
        ensures { IfOk result (λ s. s ≡ record { faults = 0; quiets = 0 }) }
    {
        match BufReader::with_capacity(alloc, AHEAD, file) {
            Ok(reader) => Ok(RealSource::new(machine, Inlet::File(reader))),
            Err(_) => Err(NoMemory),
        }
    }

    /// Reads a terminal, a pipe or another device, whose reads have a time-out.
    pub fn of_device(machine: R, alloc: Global, file: File) -> Result<RealSource<R>, NoMemory>
    where
        R: Drop,
        ensures { IfOk result (λ s. s ≡ record { faults = 0; quiets = 0 }) }
    {
        match BufReader::with_capacity(alloc, AHEAD, file) {
            Ok(reader) => Ok(RealSource::new(machine, Inlet::Device(reader))),
            Err(_) => Err(NoMemory),
        }
    }

    /// Reads standard input.
    pub fn of_input(machine: R, alloc: Global, input: Stdin) -> Result<RealSource<R>, NoMemory>
    where
        R: Drop,
        ensures { IfOk result (λ s. s ≡ record { faults = 0; quiets = 0 }) }
    {
        match BufReader::with_capacity(alloc, AHEAD, input) {
            Ok(reader) => Ok(RealSource::new(machine, Inlet::Input(reader))),
            Err(_) => Err(NoMemory),
        }
    }

    /// Reads the pipe of this path, which its first read opens. That waits for a writer.
    pub fn of_pipe(machine: R, alloc: Global, path: Bytes) -> RealSource<R>
        ensures { result ≡ record { faults = 0; quiets = 0 } }
    {
        RealSource::new(machine, Inlet::Pipe(alloc, path))
    }

    /// Reads the pipe of this path, and waits for no writer: until the first bytes of one the pipe is open at both ends. A writer that comes
    /// and goes meanwhile without bytes is not seen. That the path is gone, or that of another file, is a fault. A pipe that may not be
    /// written is opened for reading alone, by the first read, which waits for a writer.
    ///
    /// After the end it stays open until the source is resumed, finished or dropped, so that what the next writer writes is kept.
    pub fn of_kept_pipe(machine: R, alloc: Global, path: Bytes) -> io::Result<RealSource<R>>
    where
        R: Files<File = File> + Drop,
        ensures { IfOk result (λ s. s ≡ record { faults = 0; quiets = 0 }) }
    {
        let inlet = Inlet::of_kept_pipe(&machine, alloc, path)?;
        Ok(RealSource::new(machine, inlet))
    }

    /// Reads what a host sends at this HOST:PORT, unless the daemon itself listens there. Its first read connects.
    pub fn of_host(machine: R, address: Bytes, listening: Listening) -> RealSource<R>
        ensures { result ≡ record { faults = 0; quiets = 0 } }
    {
        RealSource::new(machine, Inlet::Host(address, listening))
    }

    /// Reads a TCP stream, with the time-out that it has.
    pub fn of_stream(machine: R, stream: TcpStream) -> RealSource<R>
        ensures { result ≡ record { faults = 0; quiets = 0 } }
    {
        RealSource::new(machine, Inlet::Stream(stream))
    }

    /// Reads the link of a client, a TCP stream that has this time-out. It ends if the client is idle for too long: no whole
    /// request came within 60 s, or it watches nothing and asked nothing for 15 minutes.
    pub(crate) fn of_link(
        machine: R,
        alloc: Global,
        stream: TcpStream,
        wait: Duration,
    ) -> io::Result<RealSource<R>>
    where
        R: Clock + Drop,
        ensures { IfOk result (λ s. s ≡ record { faults = 0; quiets = 0 }) }
    {
        let now = machine.monotonic()?;
        Ok(RealSource::new(machine, Inlet::Link(Link::new(alloc, stream, wait, now))))
    }

    /// Whether it is a pipe that has ended and stays open, so that it may be resumed.
    pub fn is_left_open(&self) -> bool {
        self.inlet.is_left_open()
    }

    /// Goes on with a pipe that has ended and stays open, and gives what was written since. False: nobody has come, and the pipe may not be
    /// written, so that it cannot wait for a writer. A fault if the path is no longer that of the pipe, and the pipe holds no bytes.
    pub fn resume(&mut self) -> io::Result<bool>
    where
        R: Files<File = File>,
        ensures { self.new ≡ self.old }
    {
        self.inlet.resume(&self.machine)
    }

    /// What its next read waits for, before it can give bytes. None once it is open.
    pub fn awaited(&self) -> Option<Awaited> {
        self.inlet.awaited()
    }

    /// Whether the next read would not wait for bytes. Known only of a stream; else false.
    pub fn is_readable(&self) -> bool {
        self.inlet.is_readable()
    }

    /// Whether it is a host that is this daemon itself, after that fault.
    pub fn is_own(&self) -> bool {
        self.inlet.is_own()
    }

    /// Why it failed, after a fault.
    pub fn fault(&self) -> Option<io::Error> {
        self.inlet.fault()
    }
}

impl<R: Files<File = File> + Net<Stream = TcpStream> + Clock> RealSource<R> {
    /// Opens what the next read would open, which may take long. If that fails, the next read is the fault.
    pub fn open(&mut self)
        ensures { self.new ≡ self.old }
    {
        self.inlet.begin(&self.machine);
    }
}

impl<R: Files<File = File> + Net<Stream = TcpStream> + Clock + Drop> Source for RealSource<R> {
    ghost use Rattle.std.specs.Prelude.{None};

    ghost faults = { λ s. s.faults };

    ghost quiets = { λ s. s.quiets };

    ghost content = { λ _. None };

    ghost keeps_at_fault = { λ _. Unit {0} };

    fn read(&mut self, buf: &mut [u8]) -> ReadStep {
        match self.inlet.read(&self.machine, self.wait, buf) {
            Ok(0) => ReadStep::End,
            Ok(n) => ReadStep::Got(n),
            Err(_) => {
                if self.inlet.has_failed() {
                    self.faults = self.faults.saturating_add(1);
                    ReadStep::Failed
                } else {
                    self.quiets = self.quiets.saturating_add(1);
                    ReadStep::Quiet
                }
            }
        }
    }

    fn is_ready(&self) -> bool {
        self.inlet.is_ready()
    }

    /// Closes the file or the stream; what came ahead is dropped.
    fn finish(&mut self) {
        self.inlet = Inlet::Ended;
    }
}

impl<R: Files<File = File> + Net<Stream = TcpStream> + Clock + Drop> Waits for RealSource<R> {
    /// Of a terminal, another device, a pipe or a host.
    fn set_wait(&mut self, wait: Option<u32>) {
        self.wait = match wait {
            Some(wait) => Some(i32::try_from(wait).unwrap_or(i32::MAX)),
            None => None,
        };
    }

    fn open(&mut self) {
        self.inlet.begin(&self.machine);
    }

    fn is_there(&self) -> bool {
        self.awaited().is_none()
    }
}
