ghost use Rattle.std.specs.Prelude.{◌≡◌, ◌+◌, ◌++◌, [], None};
ghost use Rattle.std.specs.Io.{ReadsAtMost};
ghost use Rattle.wire.specs.Calls.{CountsFailure, Gave};

use crate::failure::may_pass;
use ghost_list::GhostList;
use std::fs::File;
use std::io::{self, ErrorKind, Read, Stdin};
use std::marker::Model;
use std::net::TcpStream;

/// What is read.
#[derive(Drop)]
enum Inlet {
    File(File),
    Input(Stdin),
    Stream(TcpStream),
}

impl Inlet {
    /// One call of the system.
    fn read(&mut self, buf: &mut [u8]) -> io::Result<usize>
        ensures { ReadsAtMost result buf.new }
    {
        match self {
            Inlet::File(file) => file.read(buf),
            Inlet::Input(input) => input.read(buf),
            Inlet::Stream(stream) => stream.read(buf),
        }
    }
}

/// A descriptor that is read, seen as the bytes that its reads gave, the number of reads that failed for good, and the number of its link.
#[derive(Drop)]
pub struct Inward {
    inlet: Inlet,
    given: GhostList<u8>,
    failures: GhostList<ErrorKind>,
    link: Option<u64>,
}

impl Model for Inward {
    ghost use Rattle.std.specs.Prelude.{length};
    ghost use Rattle.wire.specs.Wires.{Wire};

    ghost Value = { Wire };

    ghost view = { λ s. record { bytes = s.given; failed = length s.failures; link = s.link } };
}

impl Inward {
    fn new(inlet: Inlet, link: Option<u64>) -> Inward
        ensures { result ≡ record { bytes = []; failed = 0; link = link } }
    {
        Inward {
            inlet,
            given: GhostList::new(),
            failures: GhostList::new(),
            link,
        }
    }

    /// Reads a file, from its present place on.
    pub fn of_file(file: File) -> Inward
        ensures { result ≡ record { bytes = []; failed = 0; link = None } }
    {
        Inward::new(Inlet::File(file), None)
    }

    /// Reads standard input.
    pub fn of_input(input: Stdin) -> Inward
        ensures { result ≡ record { bytes = []; failed = 0; link = None } }
    {
        Inward::new(Inlet::Input(input), None)
    }

    /// Reads a TCP stream that no listener gave.
    pub fn of_stream(stream: TcpStream) -> Inward
        ensures { result ≡ record { bytes = []; failed = 0; link = None } }
    {
        Inward::new(Inlet::Stream(stream), None)
    }

    /// The half of a link that is read.
    pub(crate) fn of_link(stream: TcpStream, link: u64) -> Inward
        ensures { result ≡ record { bytes = []; failed = 0; link = Some link } }
    {
        Inward::new(Inlet::Stream(stream), Some(link))
    }

    /// One call of the system; what it gave is added to the bytes.
    pub fn read(&mut self, buf: &mut [u8]) -> io::Result<usize>
        ensures fits { ReadsAtMost result buf.new }
        ensures gave { Gave result buf.new self.old.bytes self.new.bytes }
        ensures failed { CountsFailure result self.old.failed self.new.failed }
        ensures link { self.new.link ≡ self.old.link }
    {
        let result = self.inlet.read(buf);
        match &result {
            Ok(n) => self.given.add_all(&buf[..*n]),
            Err(error) if may_pass(error) => {}
            Err(error) => self.failures.add(&error.kind()),
        }
        result
    }

    /// Goes on with another opening of the same place, and closes this one. It is no link from then on.
    pub fn reopen(&mut self, next: Inward)
        ensures gave { self.new.bytes ≡ self.old.bytes ++ next.bytes }
        ensures failed { self.new.failed ≡ self.old.failed + next.failed }
        ensures link { self.new.link ≡ None }
    {
        let Inward {
            inlet,
            given,
            failures,
            link: _,
        } = next;
        self.inlet = inlet;
        self.given.append(given);
        self.failures.append(failures);
        self.link = None;
    }
}
