ghost use Rattle.std.specs.Prelude.{◌≡◌};

use crate::RealInput;
use gps_outside::{Closer, Door, DoorStep, LinkSink, RealDoor};
use std::fs::File;
use std::io;
use std::marker::Model;
use std::net::{Net, SocketAddr, TcpStream};
use std::rt::Files;
use std::time::Clock;

/// The door of the real world: a TCP listener, whose links are inputs of the real world. They are not modelled.
#[derive(Drop)]
pub struct RealGate<R> {
    door: RealDoor<R>,
}

impl<R> Model for RealGate<R> {
    ghost use Rattle.gps_outside.specs.Counts.{Tally};

    ghost Value = { Tally };

    ghost view = { λ s. s.door };
}

impl<R> RealGate<R> {
    pub(crate) fn new(door: RealDoor<R>) -> RealGate<R>
        ensures { result ≡ door }
    {
        RealGate { door }
    }
}

impl<R: Clock + Copy> RealGate<R> {
    /// Why the last call took no link, if no file or no room was left for one.
    pub fn lack(&self) -> Option<io::Error> {
        self.door.lack()
    }

    /// Where it listens.
    pub fn address(&self) -> io::Result<SocketAddr> {
        self.door.address()
    }
}

impl<R: Files<File = File> + Net<Stream = TcpStream> + Clock + Copy> Door for RealGate<R> {
    ghost use Rattle.std.specs.Prelude.{None};

    type In = RealInput<R>;

    type Out = LinkSink<R>;

    ghost faults = { λ s. s.faults };

    ghost quiets = { λ s. s.quiets };

    ghost links = { λ _. None };

    fn accept(&mut self) -> DoorStep<RealInput<R>, LinkSink<R>> {
        match self.door.accept() {
            DoorStep::Link(source, sink) => DoorStep::Link(RealInput::of_source(source), sink),
            DoorStep::Quiet => DoorStep::Quiet,
            DoorStep::Closed => DoorStep::Closed,
            DoorStep::Failed => DoorStep::Failed,
        }
    }

    fn closer(&self) -> Option<Closer> {
        self.door.closer()
    }
}
