ghost use Rattle.std.specs.Prelude.{◌≡◌, [], IfOk};

use crate::link_sink::STEP;
use crate::probes::probe;
use crate::quiet::is_quiet;
use crate::{Closer, Door, DoorStep, LinkSink, RealSource};
use std::alloc::Global;
use std::fs::File;
use std::io::{self, ErrorKind};
use std::marker::Model;
use std::net::{Net, SocketAddr, TcpListener, TcpStream};
use std::os::fd::OwnedFd;
use std::rt::Files;
use std::time::{self, Duration};
use wire::Outward;

/// How many milliseconds one call of a door waits for a link. Nothing is lost by waiting, as a link is accepted at once; what
/// ended meanwhile is joined after a call.
const ACCEPT_WAIT: u64 = 5_000;

/// How many milliseconds a door rests if no file or room is left for a link.
const REST: u64 = 100;

/// How many milliseconds the first read of a link waits for bytes.
const READ_WAIT: u64 = 500;

/// What accept(2) of Linux answers if the socket was shut down (EINVAL).
const SHUT: i32 = 22;

/// What accept(2) of Linux answers if the system or this process has no file or no room left (ENOMEM, ENFILE, EMFILE, ENOBUFS), if a
/// firewall refuses the link (EPERM), or if the link's network failed before it was accepted.
const PASSING: [i32; 13] = [1, 12, 23, 24, 64, 71, 92, 95, 100, 101, 105, 112, 113];

/// What the system answers if it or this process has no file or no room left (ENOMEM, ENFILE, EMFILE, ENOBUFS).
const LACKING: [i32; 4] = [12, 23, 24, 105];

fn is_lacking(error: &io::Error) -> bool {
    match error.raw_os_error() {
        Some(code) => LACKING.contains(&code),
        None => false,
    }
}

/// Whether the next link may come all the same.
fn is_passing(error: &io::Error) -> bool {
    let passes = match error.raw_os_error() {
        Some(code) => PASSING.contains(&code),
        None => false,
    };
    passes || error.kind() == ErrorKind::ConnectionAborted
}

/// Whether the door was closed.
fn is_shut(error: &io::Error) -> bool {
    error.raw_os_error() == Some(SHUT)
}

/// Both directions of a client's link. Small pieces are sent at once, and a client that reads nothing for a second is a fault, so none holds
/// the thread that serves it. A client whose machine vanishes without a word has ended 50 s after its last byte.
fn link_of<R: time::Clock + Copy>(
    machine: R,
    alloc: Global,
    stream: TcpStream,
) -> io::Result<(RealSource<R>, LinkSink<R>)>
    ensures { IfOk result (λ link. (link.0 ≡ record { faults = 0; quiets = 0 }) × (link.1 ≡ record { bytes = []; faults = 0 })) }
{
    let wait = Duration::from_millis(READ_WAIT);
    stream.set_nodelay(true)?;
    probe(&stream);
    stream.set_read_timeout(Some(wait))?;
    stream.set_write_timeout(Some(Duration::from_millis(STEP)))?;
    let other = stream.try_clone()?;
    let source = RealSource::of_link(machine, alloc, stream, wait)?;
    Ok((
        source,
        LinkSink::new(machine, alloc, Outward::of_stream(other)),
    ))
}

/// A TCP listener as a door. It counts its faults and quiets, and its links are not modelled.
///
/// If no link waits for five seconds it is quiet; so it is if a link breaks off before it is accepted, and if no file or room is
/// left for it: the door stays open for those that come later. Its closer closes it.
#[derive(Drop)]
pub struct RealDoor<R> {
    machine: R,
    alloc: Global,
    listener: TcpListener,
    faults: u64,
    quiets: u64,
    /// Why the last call took no link.
    lack: Option<io::Error>,
}

impl<R> Model for RealDoor<R> {
    ghost use Rattle.gps_outside.specs.Counts.{Tally};

    ghost Value = { Tally };

    ghost view = { λ s. record { faults = s.faults; quiets = s.quiets } };
}

/// The socket of a listener as a stream, for the calls that a listener has not.
fn socket_of(listener: &TcpListener) -> io::Result<TcpStream> {
    Ok(TcpStream::from(OwnedFd::from(listener.try_clone()?)))
}

impl<R: time::Clock + Copy> RealDoor<R> {
    pub fn of_listener(machine: R, alloc: Global, listener: TcpListener) -> io::Result<RealDoor<R>>
        ensures { IfOk result (λ door. door ≡ record { faults = 0; quiets = 0 }) }
    {
        let socket = socket_of(&listener)?;
        socket.set_read_timeout(Some(Duration::from_millis(ACCEPT_WAIT)))?;
        Ok(RealDoor {
            machine,
            alloc,
            listener,
            faults: 0,
            quiets: 0,
            lack: None,
        })
    }

    /// Why the last call took no link, if no file or no room was left for one.
    pub fn lack(&self) -> Option<io::Error> {
        self.lack
    }

    /// Where it listens.
    pub fn address(&self) -> io::Result<SocketAddr> {
        self.listener.local_addr()
    }

    fn next_link(&self) -> io::Result<(RealSource<R>, LinkSink<R>)>
        ensures { IfOk result (λ link. (link.0 ≡ record { faults = 0; quiets = 0 }) × (link.1 ≡ record { bytes = []; faults = 0 })) }
    {
        let (stream, _) = self.listener.accept()?;
        match link_of(self.machine, self.alloc, stream) {
            Ok(link) => Ok(link),
            Err(error) if is_lacking(&error) => Err(error),
            Err(_) => Err(io::Error::from(ErrorKind::ConnectionAborted)),
        }
    }
}

impl<R> Door for RealDoor<R>
where
    R: Files<File = File> + Net<Stream = TcpStream> + time::Clock + Copy,
{
    ghost use Rattle.std.specs.Prelude.{None};

    type In = RealSource<R>;

    type Out = LinkSink<R>;

    ghost faults = { λ s. s.faults };

    ghost quiets = { λ s. s.quiets };

    ghost links = { λ _. None };

    fn accept(&mut self) -> DoorStep<RealSource<R>, LinkSink<R>> {
        self.lack = None;
        match self.next_link() {
            Ok((source, sink)) => DoorStep::Link(source, sink),
            Err(error) if is_shut(&error) => DoorStep::Closed,
            Err(error) if is_quiet(&error) => {
                self.quiets = self.quiets.saturating_add(1);
                DoorStep::Quiet
            }
            Err(error) if is_passing(&error) => {
                self.lack = is_lacking(&error).then_some(error);
                self.machine.sleep(Duration::from_millis(REST));
                self.quiets = self.quiets.saturating_add(1);
                DoorStep::Quiet
            }
            Err(_) => {
                self.faults = self.faults.saturating_add(1);
                DoorStep::Failed
            }
        }
    }

    fn closer(&self) -> Option<Closer> {
        match socket_of(&self.listener) {
            Ok(socket) => Some(Closer::of_socket(socket)),
            Err(_) => None,
        }
    }
}
