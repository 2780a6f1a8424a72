ghost use Rattle.std.specs.Prelude.{◌≡◌, IfOk, true};
ghost use Rattle.std.specs.Io.{ReadsAtMost};

use crate::connecting::{ConnectFault, connect};
use crate::kept_pipe::KeptPipe;
use crate::link_sink::STEP;
use crate::listening::Listening;
use crate::quiet::{has_vanished, is_quiet};
use crate::readable::{has_hung_up, is_readable};
use gps_fixed::Bytes;
use idle_client::IdleTimer;
use std::alloc::Global;
use std::fs::{self, File};
use std::io::{self, BufReader, ErrorKind, Read, Stdin};
use std::net::{Net, TcpStream};
use std::rt::Files;
use std::time::{Clock, Duration};
use std::{mem, str};

/// How many bytes one read asks of a file or of standard input.
pub(crate) const AHEAD: usize = 32_768;

/// How many seconds a read of a host waits for bytes.
const HOST_WAIT: u64 = 1;

/// How many milliseconds a read of a terminal, a pipe or another device waits for bytes.
pub(crate) const DEVICE_WAIT: i32 = 1_000;

/// How many reads of a link that is idle for too long may follow one another, while bytes of it are ready. In pieces of 512 bytes they are
/// more than the system holds for a socket, so all that was ready is read.
const LATE_READS: u32 = 16_384;

/// What the next read of a source waits for, before it can give bytes.
#[derive(Clone, Copy, Debug, PartialEq, Eq)]
pub enum Awaited {
    /// A writer of a named pipe.
    Writer,
    /// The answer of a host.
    Host,
}

/// The link of a client, which ends if the client is idle for too long.
#[derive(Drop)]
pub(crate) struct Link {
    stream: TcpStream,
    timer: IdleTimer,
    /// How long a read waits for bytes. The stream's own time-out stays as it is, since what delivers to the client sets it.
    wait: Duration,
    /// When the last read was made.
    now: Duration,
    /// How many reads came since the link is idle for too long.
    late: u32,
    /// Whether it ends with the next read, as it was idle for too long when the last one brought bytes.
    is_over: bool,
}

/// What a real source reads. At its end, and after a fault, it has closed what it read, but for a pipe that may be opened again.
#[derive(Drop)]
pub(crate) enum Inlet {
    /// A named pipe, which is opened by the first read: that waits for a writer.
    Pipe(Global, Bytes),
    /// A named pipe that may be opened again.
    Kept(KeptPipe),
    /// The same before it is opened, if it may not be written: the first read waits for a writer.
    Closed(Global, Bytes),
    /// A host, to which the first read connects.
    Host(Bytes, Listening),
    File(BufReader<File>),
    /// A terminal, a pipe or another device, whose reads have a time-out.
    Device(BufReader<File>),
    Input(BufReader<Stdin>),
    Stream(TcpStream),
    Link(Link),
    Ended,
    Broken(io::Error),
    /// A host that is this daemon itself.
    Own,
}

fn vanished() -> io::Error {
    io::Error::new(ErrorKind::Uncategorized, "its host answers no more")
}

/// Why a daemon does not read itself.
fn own_fault() -> io::Error {
    io::Error::new(ErrorKind::Uncategorized, "this daemon itself listens there")
}

pub(crate) fn text_of(bytes: &Bytes) -> io::Result<&str> {
    match str::from_utf8(bytes.as_slice()) {
        Ok(text) => Ok(text),
        Err(_) => Err(io::Error::from(ErrorKind::InvalidInput)),
    }
}

fn open_pipe<R: Files<File = File>>(machine: &R, alloc: Global, path: &Bytes) -> io::Result<Inlet> {
    let file = fs::open(machine, text_of(path)?)?;
    Ok(Inlet::Device(BufReader::with_capacity(alloc, AHEAD, file)?))
}

pub(crate) fn timed_out() -> io::Error {
    io::Error::from(ErrorKind::TimedOut)
}

/// Reads a stream. It waits for bytes for this number of milliseconds; none: until its own time-out.
fn read_stream(stream: &mut TcpStream, wait: Option<i32>, buf: &mut [u8]) -> io::Result<usize>
    ensures { ReadsAtMost result buf.new }
{
    match wait {
        Some(wait) if !is_readable(stream, wait) => Err(timed_out()),
        _ => stream.read(buf),
    }
}

/// Reads a device, and waits for bytes for this number of milliseconds.
pub(crate) fn read_device(
    device: &mut BufReader<File>,
    wait: i32,
    buf: &mut [u8],
) -> io::Result<usize>
    ensures { ReadsAtMost result buf.new }
{
    if device.buffer().is_empty() && !is_readable(device.get_ref(), wait) {
        return Err(timed_out());
    }
    device.read(buf)
}

/// Reads a host. If it has vanished, that is said in words of its own, as the system calls it a time-out.
fn read_host(stream: &mut TcpStream, wait: Option<i32>, buf: &mut [u8]) -> io::Result<usize>
    ensures { ReadsAtMost result buf.new }
{
    match read_stream(stream, wait, buf) {
        Err(error) if has_vanished(&error) => Err(vanished()),
        other => other,
    }
}

fn open_host<R: Net<Stream = TcpStream> + Clock>(
    machine: &R,
    address: &Bytes,
    listening: &Listening,
) -> io::Result<Inlet> {
    match connect(machine, text_of(address)?, listening) {
        Ok(stream) => {
            stream.set_read_timeout(Some(Duration::from_secs(HOST_WAIT)))?;
            Ok(Inlet::Stream(stream))
        }
        Err(ConnectFault::Own) => Ok(Inlet::Own),
        Err(ConnectFault::Unreached(error)) => Err(error),
    }
}

impl Link {
    /// The link of a stream that came now, and has this time-out.
    pub(crate) fn new(alloc: Global, stream: TcpStream, wait: Duration, now: Duration) -> Link {
        Link {
            stream,
            timer: IdleTimer::new(alloc, now),
            wait,
            now,
            late: 0,
            is_over: false,
        }
    }

    /// Whether the link ends, as it is idle for too long and none of its bytes is ready. They are looked for, since this process may have been
    /// stopped while they came.
    fn is_idle(&mut self) -> bool {
        if !self.timer.is_over(self.now) {
            self.late = 0;
            return false;
        }
        self.late = self.late.saturating_add(1);
        self.late > LATE_READS || !is_readable(&self.stream, 0)
    }

    /// Takes the bytes of one read, which may be none, and returns whether the link ends.
    fn take<R: Clock>(&mut self, machine: &R, bytes: &[u8]) -> bool {
        // If the clock fails, it is as late as before.
        if let Ok(now) = machine.monotonic() {
            self.now = now;
        }
        // Out of memory: from then on it is never idle.
        let _ = self.timer.take(bytes, self.now);
        if self.is_idle() {
            return true;
        }
        self.wait = self.timer.wait(self.now);
        false
    }

    /// Whether what delivers to the client has begun to read the stream: then its time-out is [`STEP`], which the system may round up.
    fn is_delivered(&self) -> bool {
        match self.stream.read_timeout() {
            Ok(Some(wait)) => wait < Duration::from_millis(2 * STEP),
            _ => false,
        }
    }

    /// How a connection that is over in both directions ends: one whose client has vanished at its end, any other with a fault. What it sent
    /// before is not read any more, as no answer can reach it.
    fn cut_off(&self) -> io::Result<usize>
        ensures { IfOk result (λ n. n ≡ 0) }
    {
        match self.stream.take_error() {
            Ok(Some(error)) if has_vanished(&error) => Ok(0),
            _ => Err(io::Error::from(ErrorKind::ConnectionReset)),
        }
    }

    /// Reads once. A link that is being delivered has ended.
    fn read_once(&mut self, buf: &mut [u8]) -> io::Result<usize>
        ensures { ReadsAtMost result buf.new }
    {
        let wait = i32::try_from(self.wait.as_millis()).unwrap_or(i32::MAX);
        if !is_readable(&self.stream, wait) {
            return Err(timed_out());
        }
        // What delivers says so before it closes the connection.
        let is_cut_off = has_hung_up(&self.stream);
        if self.is_delivered() {
            return Ok(0);
        }
        if is_cut_off {
            return self.cut_off();
        }
        self.stream.read(buf)
    }

    /// Reads, unless the link is over. What a read brought is handed on, also if the link is idle for too long by then.
    fn read<R: Clock>(&mut self, machine: &R, buf: &mut [u8]) -> io::Result<usize>
        ensures { ReadsAtMost result buf.new }
    {
        if self.is_over {
            return Ok(0);
        }
        let result = self.read_once(buf);
        match &result {
            Ok(n) => self.is_over = self.take(machine, &buf[..*n]),
            Err(error) if is_quiet(error) => self.is_over = self.take(machine, &[]),
            Err(_) => {}
        }
        if self.is_over && result.is_err() {
            return Ok(0);
        }
        result
    }
}

impl Inlet {
    /// What its next read opens.
    pub(crate) fn awaited(&self) -> Option<Awaited> {
        match self {
            Inlet::Pipe(_, _) | Inlet::Closed(_, _) => Some(Awaited::Writer),
            Inlet::Kept(pipe) if pipe.is_waiting() => Some(Awaited::Writer),
            Inlet::Host(_, _) => Some(Awaited::Host),
            _ => None,
        }
    }

    /// Whether bytes that came ahead are still to be returned.
    pub(crate) fn is_ready(&self) -> bool {
        match self {
            Inlet::File(file) | Inlet::Device(file) => !file.buffer().is_empty(),
            Inlet::Kept(pipe) => pipe.is_ready(),
            Inlet::Input(input) => !input.buffer().is_empty(),
            _ => false,
        }
    }

    /// Whether the next read would not wait for bytes of a stream.
    pub(crate) fn is_readable(&self) -> bool {
        match self {
            Inlet::Stream(stream) => is_readable(stream, 0),
            _ => false,
        }
    }

    /// Whether it failed: then each read fails.
    pub(crate) fn has_failed(&self) -> bool {
        matches!(self, Inlet::Broken(_) | Inlet::Own)
    }

    /// Whether it is a host that is this daemon itself.
    pub(crate) fn is_own(&self) -> bool {
        matches!(self, Inlet::Own)
    }

    /// Why it failed.
    pub(crate) fn fault(&self) -> Option<io::Error> {
        match self {
            Inlet::Broken(error) => Some(*error),
            Inlet::Own => Some(own_fault()),
            _ => None,
        }
    }

    /// It is in this state from now on.
    fn set(&mut self, state: Inlet) {
        *self = state;
    }

    /// Opens a pipe of this path. One that may not be written is opened by its first read.
    pub(crate) fn of_kept_pipe<R: Files<File = File>>(
        machine: &R,
        alloc: Global,
        path: Bytes,
    ) -> io::Result<Inlet> {
        let again = match path.copy() {
            Ok(path) => path,
            Err(_) => return Err(io::Error::from(ErrorKind::OutOfMemory)),
        };
        match KeptPipe::open(machine, alloc, path) {
            Ok(pipe) => Ok(Inlet::Kept(pipe)),
            Err(error) if error.kind() == ErrorKind::PermissionDenied => {
                Ok(Inlet::Closed(alloc, again))
            }
            Err(error) => Err(error),
        }
    }

    /// Whether it is a pipe that may be opened again, after the end of its last writer.
    pub(crate) fn is_left_open(&self) -> bool {
        match self {
            Inlet::Kept(pipe) => pipe.has_ended(),
            _ => false,
        }
    }

    /// Goes on with a pipe that may be opened again, after the end of its last writer. False: nobody has come.
    pub(crate) fn resume<R: Files<File = File>>(&mut self, machine: &R) -> io::Result<bool> {
        match self {
            Inlet::Kept(pipe) => pipe.resume(machine),
            _ => Ok(false),
        }
    }

    /// Opens the pipe that only its first read opens.
    fn open_closed<R: Files<File = File>>(&mut self, machine: &R) -> io::Result<()> {
        match mem::replace(self, Inlet::Ended) {
            Inlet::Closed(alloc, path) => {
                self.set(Inlet::Kept(KeptPipe::open_to_read(machine, alloc, path)?));
            }
            other => self.set(other),
        }
        Ok(())
    }

    /// Its bytes have ended.
    fn end(&mut self) {
        match self {
            Inlet::Kept(pipe) => pipe.end(),
            _ => self.set(Inlet::Ended),
        }
    }

    /// Opens what its first read opens.
    fn open<R: Files<File = File> + Net<Stream = TcpStream> + Clock>(
        &mut self,
        machine: &R,
    ) -> io::Result<()> {
        match self {
            Inlet::Pipe(alloc, path) => {
                let opened = open_pipe(machine, *alloc, path)?;
                self.set(opened);
            }
            Inlet::Host(address, listening) => {
                let opened = open_host(machine, address, listening)?;
                self.set(opened);
            }
            Inlet::Closed(_, _) => self.open_closed(machine)?,
            _ => {}
        }
        Ok(())
    }

    /// Opens what the next read would open. A fault of that breaks it, so that the next read fails.
    pub(crate) fn begin<R: Files<File = File> + Net<Stream = TcpStream> + Clock>(
        &mut self,
        machine: &R,
    ) {
        if let Err(error) = self.open(machine) {
            self.set(Inlet::Broken(error));
        }
    }

    fn read_open<R: Files<File = File> + Clock>(
        &mut self,
        machine: &R,
        wait: Option<i32>,
        buf: &mut [u8],
    ) -> io::Result<usize>
        ensures { ReadsAtMost result buf.new }
    {
        match self {
            Inlet::File(file) => file.read(buf),
            Inlet::Device(device) => read_device(device, wait.unwrap_or(DEVICE_WAIT), buf),
            Inlet::Input(input) => input.read(buf),
            Inlet::Stream(stream) => read_host(stream, wait, buf),
            Inlet::Link(link) => link.read(machine, buf),
            Inlet::Kept(pipe) => pipe.read(machine, wait.unwrap_or(DEVICE_WAIT), buf),
            Inlet::Ended => Ok(0),
            Inlet::Broken(error) => Err(*error),
            Inlet::Own => Err(own_fault()),
            Inlet::Pipe(_, _) | Inlet::Closed(_, _) | Inlet::Host(_, _) => {
                Err(io::Error::from(ErrorKind::NotConnected))
            }
        }
    }

    /// Reads once. A fault that is no lack of bytes breaks it, and so does each fault of its opening.
    pub(crate) fn read<R: Files<File = File> + Net<Stream = TcpStream> + Clock>(
        &mut self,
        machine: &R,
        wait: Option<i32>,
        buf: &mut [u8],
    ) -> io::Result<usize>
        ensures { ReadsAtMost result buf.new }
    {
        if let Err(error) = self.open(machine) {
            self.set(Inlet::Broken(error));
            return Err(error);
        }
        let result = self.read_open(machine, wait, buf);
        match &result {
            Ok(0) => self.end(),
            Err(error) if !is_quiet(error) && !self.has_failed() => {
                self.set(Inlet::Broken(*error));
            }
            _ => {}
        }
        result
    }
}
