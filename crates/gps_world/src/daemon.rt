ghost use Rattle.std.specs.Prelude.{◌<◌, length, IfOk};
ghost use Rattle.gps_outside.specs.Reads.{FitsBuffer};

use crate::deadline::Deadline;
use crate::head_source::HeadSource;
use crate::opener::text_of;
use gps_fixed::Bytes;
use gps_outside::{
    ConnectFault, Listening, ReadStep, RealSink, RealSource, Source, Waits, connect,
};
use gps_upstream::{Head, Upstream};
use std::fs::File;
use std::io;
use std::net::{Net, TcpStream};
use std::rt::Files;
use std::time::{Clock, Duration};
use wire::Outward;

/// How many seconds after it was connected the head of a daemon must have ended.
const HEAD_WAIT: u64 = 10;

/// How many seconds a read waits for bytes, and the request for room.
const TICK: u64 = 1;

/// Why another daemon gives no more packets.
#[derive(Clone, Copy, Debug)]
pub enum DaemonFault {
    /// It is this daemon itself.
    Own,
    /// No connection to it was made.
    Unreached(io::Error),
    /// The request for packets could not be written.
    Unsent,
    /// What it sent is not the answer of such a daemon.
    NoDaemon,
    /// The connection ended before its answer was whole.
    ClosedEarly,
    /// Its answer was not whole within ten seconds.
    TooLate,
    /// The connection broke after its answer.
    Broken,
}

/// A connection to a daemon.
#[derive(Drop)]
struct Connection<R: Files<File = File> + Net<Stream = TcpStream> + Clock + Copy> {
    upstream: Upstream<HeadSource<R>, RealSink>,
    /// When the head must have ended; none once it has.
    end: Option<Deadline>,
}

#[derive(Drop)]
enum State<R: Files<File = File> + Net<Stream = TcpStream> + Clock + Copy> {
    /// The first read connects to this HOST:PORT.
    Waiting(Bytes, Listening),
    Open(Connection<R>),
    Ended,
    Broken(DaemonFault),
}

/// The packets of another daemon, over one TCP connection.
///
/// Its first read connects, as that of a host, and asks for the packets of all devices of the daemon. What the daemon answers
/// before the packets must be whole ten seconds later; silence after it is no fault. After its end it stays ended, and after a
/// fault each read is a fault.
#[derive(Drop)]
pub(crate) struct Daemon<R: Files<File = File> + Net<Stream = TcpStream> + Clock + Copy> {
    machine: R,
    state: State<R>,
}

fn connection_over<R: Files<File = File> + Net<Stream = TcpStream> + Clock + Copy>(
    machine: R,
    stream: TcpStream,
) -> io::Result<Connection<R>> {
    stream.set_read_timeout(Some(Duration::from_secs(TICK)))?;
    stream.set_write_timeout(Some(Duration::from_secs(TICK)))?;
    let source = RealSource::of_stream(machine, stream.try_clone()?);
    let sink = RealSink::new(Outward::of_stream(stream));
    let end = Deadline::after(&machine, Duration::from_secs(HEAD_WAIT))?;
    let source = HeadSource::new(machine, source, end);
    Ok(Connection {
        upstream: Upstream::new(source, sink, None),
        end: Some(end),
    })
}

fn connection_to<R: Files<File = File> + Net<Stream = TcpStream> + Clock + Copy>(
    machine: R,
    address: &Bytes,
    listening: &Listening,
) -> Result<Connection<R>, DaemonFault> {
    let text = match text_of(address) {
        Ok(text) => text,
        Err(error) => return Err(DaemonFault::Unreached(error)),
    };
    let stream = match connect(&machine, text, listening) {
        Ok(stream) => stream,
        Err(ConnectFault::Own) => return Err(DaemonFault::Own),
        Err(ConnectFault::Unreached(error)) => return Err(DaemonFault::Unreached(error)),
    };
    match connection_over(machine, stream) {
        Ok(connection) => Ok(connection),
        Err(error) => Err(DaemonFault::Unreached(error)),
    }
}

impl<R: Files<File = File> + Net<Stream = TcpStream> + Clock + Copy> Connection<R> {
    /// Whether the head has not ended in time.
    fn is_late(&self, machine: &R) -> bool {
        match self.end {
            Some(end) => end.has_passed(machine),
            None => false,
        }
    }

    /// Why a read failed.
    fn cause(&self) -> DaemonFault {
        match self.upstream.head() {
            Head::Unsent => DaemonFault::Unsent,
            Head::Bad => DaemonFault::NoDaemon,
            Head::Start | Head::Reading => DaemonFault::ClosedEarly,
            Head::Done => DaemonFault::Broken,
        }
    }

    /// Reads once, and looks whether the head has ended.
    fn read(&mut self, machine: &R, buf: &mut [u8]) -> Result<ReadStep, DaemonFault>
        requires { 0 < length buf.old }
        ensures { IfOk result (λ step. FitsBuffer step (length buf.old)) }
    {
        let step = self.upstream.read(buf);
        if let Head::Done = self.upstream.head() {
            self.end = None;
        }
        match step {
            ReadStep::Failed => Err(self.cause()),
            ReadStep::End if self.end.is_some() => Err(DaemonFault::ClosedEarly),
            ReadStep::Quiet if self.is_late(machine) => Err(DaemonFault::TooLate),
            step => Ok(step),
        }
    }
}

impl<R: Files<File = File> + Net<Stream = TcpStream> + Clock + Copy> Daemon<R> {
    /// The daemon at this HOST:PORT, unless that is this daemon itself. Its first read connects.
    pub(crate) fn new(machine: R, address: Bytes, listening: Listening) -> Daemon<R> {
        Daemon {
            machine,
            state: State::Waiting(address, listening),
        }
    }

    /// It is in this state from now on.
    fn turn(&mut self, state: State<R>) {
        self.state = state;
    }

    /// Connects, if that was not done yet.
    fn open(&mut self) -> Result<(), DaemonFault> {
        if let State::Waiting(address, listening) = &self.state {
            let connection = connection_to(self.machine, address, listening)?;
            self.turn(State::Open(connection));
        }
        Ok(())
    }

    /// Connects, if that was not done yet. If that fails, the next read is the fault.
    pub(crate) fn begin(&mut self) {
        if let Err(fault) = self.open() {
            self.turn(State::Broken(fault));
        }
    }

    fn read_open(&mut self, buf: &mut [u8]) -> Result<ReadStep, DaemonFault>
        requires { 0 < length buf.old }
        ensures { IfOk result (λ step. FitsBuffer step (length buf.old)) }
    {
        self.open()?;
        match &mut self.state {
            State::Open(connection) => connection.read(&self.machine, buf),
            State::Waiting(_, _) | State::Ended => Ok(ReadStep::End),
            State::Broken(fault) => Err(*fault),
        }
    }

    /// Takes the next packets, as a source does.
    pub(crate) fn read(&mut self, buf: &mut [u8]) -> ReadStep
        requires { 0 < length buf.old }
        ensures { FitsBuffer result (length buf.old) }
    {
        match self.read_open(buf) {
            Ok(step) => {
                if let ReadStep::End = step {
                    self.turn(State::Ended);
                }
                step
            }
            Err(fault) => {
                self.turn(State::Broken(fault));
                ReadStep::Failed
            }
        }
    }
}

impl<R: Files<File = File> + Net<Stream = TcpStream> + Clock + Copy> Daemon<R> {
    /// Closes the connection.
    pub(crate) fn finish(&mut self) {
        self.turn(State::Ended);
    }

    /// The next reads wait for packets for this number of milliseconds; none: for as long as they do of themselves.
    pub(crate) fn set_wait(&mut self, wait: Option<u32>) {
        if let State::Open(connection) = &mut self.state {
            connection.upstream.set_wait(wait);
        }
    }

    /// Whether its next read connects.
    pub(crate) fn is_waiting(&self) -> bool {
        matches!(self.state, State::Waiting(_, _))
    }

    /// Why it failed, after a fault.
    pub(crate) fn fault(&self) -> Option<DaemonFault> {
        match self.state {
            State::Broken(fault) => Some(fault),
            _ => None,
        }
    }
}
