ghost use Rattle.std.specs.Prelude.{◌≡◌, IfOk};
ghost use Rattle.gps_world.specs.Asking.{asked_nothing};

use crate::opener::{Opener, Opening, text_of};
use crate::reading::{Again, Reading};
use crate::{Asked, HeldPipes, Opened, Place, RealGate, RealInput, WaitingPipes, World};
use gps_fixed::Bytes;
use gps_outside::{Awaited, LinkSink, RealClock, RealDoor};
use std::alloc::Global;
use std::fs::File;
use std::marker::Model;
use std::net::{Net, TcpListener, TcpStream};
use std::rt::Files;
use std::time::Duration;
use std::{io, time};

/// The real world: files, TCP connections, a TCP listener and the machine's clock. Their contents are not modelled.
///
/// A file that cannot be opened is a fault, for whatever reason; so is no memory for its buffer. What may wait long to be
/// opened, a named pipe and a host, is opened by the first read of its source; if that fails, it is a fault of the
/// source.
///
/// If places are opened again, one that ended, failed or is not there yet gives a source all the same, but a regular file. A
/// host where the daemon itself listens is a fault for ever. While a place is away, a folder or a regular file in it is looked at again later, and
/// so is a named pipe or terminal that is open under another name.
#[derive(Drop)]
pub struct RealWorld<R> {
    machine: R,
    alloc: Global,
    opener: Opener<R>,
    /// After how long a place is opened again; none: never.
    reopen: Option<Duration>,
    asked: Asked,
    /// Which of the places that it was asked for are named pipes that wait for a writer to be opened.
    are_pipes: [bool; 16],
    input_faults: u64,
    listen_faults: u64,
    fault: Option<io::Error>,
}

impl<R> Model for RealWorld<R> {
    ghost use Rattle.gps_world.specs.RealWorlds.{Opener};

    ghost Value = { Opener };

    ghost view = { λ s. record { asked = s.asked; input_faults = s.input_faults; listen_faults = s.listen_faults } };
}

impl<R: Copy> RealWorld<R> {
    /// The world of this machine. Places are opened again after this number of seconds, if one is given.
    pub fn new(alloc: Global, machine: R, reopen: Option<u32>) -> RealWorld<R>
        ensures { result ≡ record { asked = asked_nothing; input_faults = 0; listen_faults = 0 } }
    {
        let reopen = match reopen {
            Some(seconds) => Some(Duration::from_secs(u64::from(seconds))),
            None => None,
        };
        RealWorld {
            machine,
            alloc,
            opener: Opener::new(machine, alloc),
            reopen,
            asked: Asked::nothing(alloc),
            are_pipes: [false; 16],
            input_faults: 0,
            listen_faults: 0,
            fault: None,
        }
    }
}

impl<R: Net<Listener = TcpListener, Stream = TcpStream> + time::Clock + Copy> RealWorld<R> {
    fn bind(&self, address: &Bytes) -> io::Result<RealGate<R>>
        ensures { IfOk result (λ gate. gate ≡ record { faults = 0; quiets = 0 }) }
    {
        let listener = TcpListener::bind(&self.machine, text_of(address)?)?;
        if let Ok(at) = listener.local_addr() {
            self.opener.listening().set(at);
        }
        Ok(RealGate::new(RealDoor::of_listener(self.machine, self.alloc, listener)?))
    }
}

impl<R> RealWorld<R> {
    /// Why the last input that could not be opened failed, or else the listening.
    pub fn fault(&self) -> Option<io::Error> {
        self.fault
    }

    /// The named pipes among its inputs whose readers may wait for a writer, as far as there is memory for their paths.
    pub fn waiting_pipes(&self) -> WaitingPipes {
        let mut pipes = WaitingPipes::none(self.alloc);
        for (place, is_pipe) in self.asked.places().iter().zip(self.are_pipes.iter()) {
            if let (Place::File(path), true) = (place, *is_pipe) {
                pipes.add(path);
            }
        }
        pipes
    }
}

impl<R> RealWorld<R>
where
    R: Files<File = File> + Net<Listener = TcpListener, Stream = TcpStream> + time::Clock + Copy,
{
    /// Opens a place that is opened again after this time.
    fn open_again(&self, place: &Place, wait: Duration) -> io::Result<RealInput<R>>
        ensures { IfOk result (λ input. input ≡ record { faults = 0; quiets = 0 }) }
    {
        let opener = self.opener.of_input(self.asked.places().len());
        let again = Again::new(self.machine, opener, place.copy()?, wait);
        match again.open_first() {
            Ok(found) => Ok(RealInput::new(Reading::of_found(found, Some(again)))),
            Err(_) if self.opener.may_come(place) => Ok(RealInput::new(Reading::of_away(again))),
            Err(error) => Err(error),
        }
    }

    fn open(&self, place: &Place) -> io::Result<RealInput<R>>
        ensures { IfOk result (λ input. input ≡ record { faults = 0; quiets = 0 }) }
    {
        match self.reopen {
            Some(wait) => self.open_again(place, wait),
            None => {
                let found = self.opener.open(place, Opening::Only)?;
                Ok(RealInput::new(Reading::of_found(found, None)))
            }
        }
    }
}

impl<R> World for RealWorld<R>
where
    R: Files<File = File>
        + Net<Listener = TcpListener, Stream = TcpStream>
        + time::Clock
        + Copy
        + Send,
{
    ghost use Rattle.std.specs.Prelude.{None};

    type In = RealInput<R>;

    type Out = LinkSink<R>;

    type Now = RealClock<R>;

    type Gate = RealGate<R>;

    ghost input_faults = { λ s. s.input_faults };

    ghost listen_faults = { λ s. s.listen_faults };

    ghost asked = { λ s. s.asked };

    ghost behind = { λ _ _. None };

    ghost links = { λ _. None };

    ghost stamps = { λ _. None };

    fn input(&mut self, place: Place) -> Opened<RealInput<R>> {
        let source = self.open(&place);
        let number = self.asked.places().len();
        self.asked.add(place);
        match source {
            Ok(source) => {
                self.are_pipes[number] = self.reopen.is_none()
                    && source.awaited() == Some(Awaited::Writer);
                Opened::Ready(source)
            }
            Err(error) => {
                self.fault = Some(error);
                self.input_faults = self.input_faults.saturating_add(1);
                Opened::Failed
            }
        }
    }

    fn listen(&mut self, address: Bytes) -> Opened<RealGate<R>> {
        let door = self.bind(&address);
        self.asked.set_address(address);
        match door {
            Ok(door) => Opened::Ready(door),
            Err(error) => {
                self.fault = Some(error);
                self.listen_faults = self.listen_faults.saturating_add(1);
                Opened::Failed
            }
        }
    }

    fn clock(&mut self) -> RealClock<R> {
        RealClock::new(self.machine)
    }

    fn wake_readers(&self) -> Option<HeldPipes> {
        let mut held = HeldPipes::none(self.alloc);
        for (place, is_pipe) in self.asked.places().iter().zip(self.are_pipes.iter()) {
            if let (Place::File(path), true) = (place, *is_pipe) {
                held.rouse(&self.machine, path);
            }
        }
        Some(held)
    }
}
