ghost use Rattle.std.specs.Prelude.{◌≡◌, [], None, Some};
ghost use Rattle.std.specs.Io.{ReadsAtMost, WritesAtMost};
ghost use Rattle.wire.specs.Calls.{CountsFailure, Took};

use crate::acknowledged::is_acknowledged;
use crate::failure::may_pass;
use crate::patience::give_up_after;
use ghost_list::GhostList;
use std::alloc::Global;
use std::fs::File;
use std::io::{self, ErrorKind, Read, Stdout, Write};
use std::marker::Model;
use std::net::{Shutdown, TcpStream};
use std::rt::Files;
use std::time::Duration;

/// What is written.
#[derive(Drop)]
enum Outlet {
    Output(Stdout),
    Stream(TcpStream),
    Closed,
}

impl Outlet {
    /// One call of the system.
    fn write(&mut self, piece: &[u8]) -> io::Result<usize>
        ensures { WritesAtMost result piece.now }
    {
        match self {
            Outlet::Output(output) => output.write(piece),
            Outlet::Stream(stream) => stream.write(piece),
            Outlet::Closed => Err(io::Error::from(ErrorKind::NotConnected)),
        }
    }

    /// One call of the system that reads what the other side of a stream sent.
    fn skip(&mut self, buf: &mut [u8]) -> io::Result<usize>
        ensures { ReadsAtMost result buf.new }
    {
        match self {
            Outlet::Stream(stream) => stream.read(buf),
            Outlet::Output(_) | Outlet::Closed => Ok(0),
        }
    }
}

/// A descriptor that is written, seen as the bytes that its writes took, the number of writes that failed for good, and the number of its link.
#[derive(Drop)]
pub struct Outward {
    outlet: Outlet,
    taken: GhostList<u8>,
    failures: GhostList<ErrorKind>,
    link: Option<u64>,
}

impl Model for Outward {
    ghost use Rattle.std.specs.Prelude.{length};
    ghost use Rattle.wire.specs.Wires.{Wire};

    ghost Value = { Wire };

    ghost view = { λ s. record { bytes = s.taken; failed = length s.failures; link = s.link } };
}

impl Outward {
    fn new(outlet: Outlet, link: Option<u64>) -> Outward
        ensures { result ≡ record { bytes = []; failed = 0; link = link } }
    {
        Outward {
            outlet,
            taken: GhostList::new(),
            failures: GhostList::new(),
            link,
        }
    }

    /// Writes standard output.
    pub fn of_output(output: Stdout) -> Outward
        ensures { result ≡ record { bytes = []; failed = 0; link = None } }
    {
        Outward::new(Outlet::Output(output), None)
    }

    /// Writes a TCP stream that no listener gave.
    pub fn of_stream(stream: TcpStream) -> Outward
        ensures { result ≡ record { bytes = []; failed = 0; link = None } }
    {
        Outward::new(Outlet::Stream(stream), None)
    }

    /// The half of a link that is written.
    pub(crate) fn of_link(stream: TcpStream, link: u64) -> Outward
        ensures { result ≡ record { bytes = []; failed = 0; link = Some link } }
    {
        Outward::new(Outlet::Stream(stream), Some(link))
    }

    /// One call of the system; what it took is added to the bytes.
    pub fn write(&mut self, piece: &[u8]) -> io::Result<usize>
        ensures fits { WritesAtMost result piece.now }
        ensures took { Took result piece.now self.old.bytes self.new.bytes }
        ensures failed { CountsFailure result self.old.failed self.new.failed }
        ensures link { self.new.link ≡ self.old.link }
    {
        let result = self.outlet.write(piece);
        match &result {
            Ok(n) => self.taken.add_all(&piece[..*n]),
            Err(error) if may_pass(error) => {}
            Err(error) => self.failures.add(&error.kind()),
        }
        result
    }

    /// Reads bytes that the other side sent and nobody wants. No source says that it gave them.
    pub fn skip(&mut self, buf: &mut [u8]) -> io::Result<usize>
        ensures fits { ReadsAtMost result buf.new }
        ensures same { self.new ≡ self.old }
    {
        self.outlet.skip(buf)
    }

    /// Whether it is a stream that was not closed.
    pub fn is_stream(&self) -> bool {
        matches!(&self.outlet, Outlet::Stream(_))
    }

    /// From here on a read of the stream, by whichever half, waits this long.
    pub fn set_read_timeout(&self, wait: Duration) {
        if let Outlet::Stream(stream) = &self.outlet {
            let _ = stream.set_read_timeout(Some(wait));
        }
    }

    /// Says to the other side of a stream that nothing follows.
    pub fn end(&self) -> io::Result<()> {
        match &self.outlet {
            Outlet::Stream(stream) => stream.shutdown(Shutdown::Write),
            Outlet::Output(_) | Outlet::Closed => Ok(()),
        }
    }

    /// Whether the other side of a stream has acknowledged its end, and with it all bytes: then nothing is on its way any more. False also if the
    /// system does not say.
    pub fn is_acknowledged<R: Files<File = File>>(&self, machine: &R, alloc: Global) -> bool {
        match &self.outlet {
            Outlet::Stream(stream) => is_acknowledged(machine, alloc, stream).unwrap_or(false),
            Outlet::Output(_) | Outlet::Closed => false,
        }
    }

    /// Closes both directions of a stream, so that a read of it that waits ends at once. What was written and not accepted yet the system keeps
    /// until the other side accepts nothing for this number of milliseconds; by default for as long as the other side stays.
    pub fn close(&mut self, kept: Option<u64>)
        ensures { self.new ≡ self.old }
    {
        if let Outlet::Stream(stream) = &self.outlet {
            if let Some(kept) = kept {
                give_up_after(stream, kept);
            }
            let _ = stream.shutdown(Shutdown::Both);
        }
        self.outlet = Outlet::Closed;
    }
}
