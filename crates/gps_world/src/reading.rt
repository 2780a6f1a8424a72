ghost use Rattle.std.specs.Prelude.{◌<◌, length};
ghost use Rattle.gps_outside.specs.Reads.{FitsBuffer};

use crate::opener::{Found, Inlet, Opener, Opening};
use crate::{DaemonFault, Loss, Place};
use gps_outside::{Awaited, ReadStep, Source};
use std::fs::File;
use std::net::{Net, TcpStream};
use std::rt::Files;
use std::time::{Clock, Duration};
use std::{io, mem};

/// No read of a place that is away sleeps longer, in seconds.
const NAP: u64 = 1;

/// How a place is opened again.
#[derive(Drop)]
pub(crate) struct Again<R: Files<File = File> + Net<Stream = TcpStream> + Clock + Copy> {
    opener: Opener<R>,
    machine: R,
    place: Place,
    wait: Duration,
    /// When it is opened next, by the machine's clock.
    next: Duration,
    /// A named pipe that has ended, and stays open until then: what a writer writes meanwhile is kept.
    left: Option<Found<R>>,
}

impl<R: Files<File = File> + Net<Stream = TcpStream> + Clock + Copy> Again<R> {
    /// The place is opened again after this time.
    pub(crate) fn new(machine: R, opener: Opener<R>, place: Place, wait: Duration) -> Again<R> {
        Again {
            opener,
            machine,
            place,
            wait,
            next: Duration::ZERO,
            left: None,
        }
    }

    /// Opens it for the first time.
    pub(crate) fn open_first(&self) -> io::Result<Found<R>> {
        self.opener.open(&self.place, Opening::First)
    }
}

/// Whether it is a named pipe that has ended, and stays open.
fn is_left_open<R: Files<File = File> + Net<Stream = TcpStream> + Clock + Copy>(
    found: &Option<Found<R>>,
) -> bool {
    match found {
        Some(found) => found.inlet.is_left_open(),
        None => false,
    }
}

impl<R: Files<File = File> + Net<Stream = TcpStream> + Clock + Copy> Again<R> {
    /// It is opened again later.
    fn put_off(&mut self) {
        if let Ok(now) = self.machine.monotonic() {
            self.next = now.saturating_add(self.wait);
        }
    }

    /// What stays open until the place is opened again is this from now on.
    fn keep(&mut self, left: Option<Found<R>>) {
        self.left = left;
    }

    /// The place is away from now on. What was there is closed, but for a named pipe that has ended.
    fn leave(&mut self, found: Option<Found<R>>) {
        self.put_off();
        if is_left_open(&found) {
            self.keep(found);
        } else {
            drop(found);
            self.opener.leave();
        }
    }

    /// How long it is still away; none if it is time to open it.
    fn left_time(&self) -> Option<Duration> {
        match self.machine.monotonic() {
            Ok(now) if now < self.next => Some(self.next.saturating_sub(now)),
            _ => None,
        }
    }

    /// Goes on with a named pipe that stayed open. None if there is none, or its path is no longer that of this pipe; false if nobody has come.
    fn resume(&mut self) -> Option<bool> {
        match &mut self.left {
            Some(found) => found.inlet.resume().ok(),
            None => None,
        }
    }

    /// Opens it again. None: it is a named pipe to which nobody has come.
    fn open(&mut self) -> io::Result<Option<Found<R>>> {
        match self.resume() {
            Some(true) => Ok(self.left.take()),
            Some(false) => Ok(None),
            None => {
                self.keep(None);
                Ok(Some(self.opener.open(&self.place, Opening::Later)?))
            }
        }
    }
}

/// What a place gives now.
#[derive(Drop)]
enum State<R: Files<File = File> + Net<Stream = TcpStream> + Clock + Copy> {
    There(Found<R>),
    /// It ended, failed or was never there, and is opened again.
    Away,
}

/// The reading of one place, which may be opened again.
#[derive(Drop)]
pub(crate) struct Reading<R: Files<File = File> + Net<Stream = TcpStream> + Clock + Copy> {
    state: State<R>,
    again: Option<Again<R>>,
    /// What the last read lost.
    loss: Option<Loss>,
}

impl<R: Files<File = File> + Net<Stream = TcpStream> + Clock + Copy> Found<R> {
    /// Whether it is a host that is this daemon itself.
    fn is_own(&self) -> bool {
        match &self.inlet {
            Inlet::Source(source) => source.is_own(),
            Inlet::Daemon(daemon) => matches!(daemon.fault(), Some(DaemonFault::Own)),
        }
    }

    /// Why it gives nothing after a fault of a read. `is_first`: that read opened it.
    fn loss(&self, is_first: bool) -> Loss {
        match &self.inlet {
            Inlet::Source(source) if is_first => Loss::Unopened(source.fault()),
            Inlet::Source(source) => Loss::Failed(source.fault()),
            Inlet::Daemon(daemon) => match daemon.fault() {
                Some(DaemonFault::Unreached(error)) => Loss::Unopened(Some(error)),
                Some(fault) => Loss::Daemon(fault),
                None => Loss::Failed(None),
            },
        }
    }
}

impl<R: Files<File = File> + Net<Stream = TcpStream> + Clock + Copy> Reading<R> {
    /// Reads what was found.
    pub(crate) fn of_found(found: Found<R>, again: Option<Again<R>>) -> Reading<R> {
        Reading {
            state: State::There(found),
            again,
            loss: None,
        }
    }

    /// Reads a place that is away. The first read opens it.
    pub(crate) fn of_away(again: Again<R>) -> Reading<R> {
        Reading {
            state: State::Away,
            again: Some(again),
            loss: None,
        }
    }

    /// It is in this state from now on.
    fn turn(&mut self, state: State<R>) {
        self.state = state;
    }

    /// It gives nothing until it is opened again.
    fn lose(&mut self, loss: Loss) {
        let found = match mem::replace(&mut self.state, State::Away) {
            State::There(found) => Some(found),
            State::Away => None,
        };
        if let Some(again) = &mut self.again {
            again.leave(found);
        }
        self.loss = Some(loss);
    }

    /// What an end or a fault of what was found means: a loss, if its place is opened again.
    fn loss_by(&self, step: ReadStep, is_first: bool) -> Option<Loss> {
        let State::There(found) = &self.state else {
            return None;
        };
        if self.again.is_none() || !found.returns {
            return None;
        }
        match step {
            ReadStep::End => Some(Loss::Ended),
            ReadStep::Failed if !found.is_own() => Some(found.loss(is_first)),
            _ => None,
        }
    }

    /// Opens what the next read would open, if its place is opened only once.
    pub(crate) fn begin(&mut self) {
        if self.again.is_none() {
            if let State::There(found) = &mut self.state {
                found.inlet.begin();
            }
        }
    }

    /// Reads what was found.
    fn read_there(&mut self, buf: &mut [u8]) -> ReadStep
        requires { 0 < length buf.old }
        ensures { FitsBuffer result (length buf.old) }
    {
        let is_first = self.awaited().is_some();
        let step = match &mut self.state {
            State::There(found) => found.inlet.read(buf),
            State::Away => ReadStep::End,
        };
        match self.loss_by(step, is_first) {
            Some(loss) => {
                self.lose(loss);
                ReadStep::Quiet
            }
            None => step,
        }
    }

    /// Opens the place, if it is time for it, or sleeps for a while. False: it is never opened again.
    fn wait_away(&mut self) -> bool {
        let Some(again) = &mut self.again else {
            return false;
        };
        if let Some(left) = again.left_time() {
            again.machine.sleep(left.min(Duration::from_secs(NAP)));
            return true;
        }
        match again.open() {
            Ok(Some(found)) => self.turn(State::There(found)),
            Ok(None) => again.put_off(),
            Err(error) => {
                again.put_off();
                self.loss = Some(Loss::Unopened(Some(error)));
            }
        }
        true
    }

    /// Takes the next bytes, as a source does. Quiet also while its place is away, and at its loss.
    pub(crate) fn read(&mut self, buf: &mut [u8]) -> ReadStep
        requires { 0 < length buf.old }
        ensures { FitsBuffer result (length buf.old) }
    {
        self.loss = None;
        if !self.is_away() {
            return self.read_there(buf);
        }
        if self.wait_away() {
            ReadStep::Quiet
        } else {
            ReadStep::End
        }
    }
}

impl<R: Files<File = File> + Net<Stream = TcpStream> + Clock + Copy> Reading<R> {
    pub(crate) fn is_away(&self) -> bool {
        matches!(self.state, State::Away)
    }

    /// What the last read lost.
    pub(crate) fn loss(&self) -> Option<Loss> {
        self.loss
    }

    /// What its next read waits for, before it can give bytes.
    pub(crate) fn awaited(&self) -> Option<Awaited> {
        match &self.state {
            State::There(found) => found.inlet.awaited(),
            State::Away => None,
        }
    }

    /// Why it failed, after a fault of what is no daemon.
    pub(crate) fn fault(&self) -> Option<io::Error> {
        match &self.state {
            State::There(
                Found {
                    inlet: Inlet::Source(source),
                    returns: _,
                },
            ) => source.fault(),
            _ => None,
        }
    }

    /// Why another daemon failed, after a fault of it.
    pub(crate) fn daemon_fault(&self) -> Option<DaemonFault> {
        match &self.state {
            State::There(
                Found {
                    inlet: Inlet::Daemon(daemon),
                    returns: _,
                },
            ) => daemon.fault(),
            _ => None,
        }
    }

    /// The next reads wait for bytes for this number of milliseconds; none: for as long as they do of themselves.
    pub(crate) fn set_wait(&mut self, wait: Option<u32>) {
        if let State::There(found) = &mut self.state {
            found.inlet.set_wait(wait);
        }
    }

    pub(crate) fn is_ready(&self) -> bool {
        match &self.state {
            State::There(found) => found.inlet.is_ready(),
            State::Away => false,
        }
    }

    /// Closes what it reads. It is not opened again.
    pub(crate) fn finish(&mut self) {
        self.again = None;
        if let State::There(found) = &mut self.state {
            found.inlet.finish();
        }
    }
}
