ghost use Rattle.std.specs.Prelude.{◌<◌, length};
ghost use Rattle.gps_outside.specs.Reads.{FitsBuffer};

use crate::Place;
use crate::daemon::Daemon;
use crate::open_files::OpenFiles;
use crate::place::copy_of;
use gps_fixed::Bytes;
use gps_outside::{Awaited, Listening, ReadStep, RealSource, Source, Waits};
use std::alloc::Global;
use std::fs::{self, File, FileType};
use std::io::{self, ErrorKind, IsTerminal};
use std::net::{Net, TcpStream};
use std::os::unix::fs::FileTypeExt;
use std::rt::Files;
use std::str;
use std::time::Clock;

/// What was opened at a place.
#[derive(Drop)]
pub(crate) enum Inlet<R: Files<File = File> + Net<Stream = TcpStream> + Clock + Copy> {
    Source(RealSource<R>),
    Daemon(Daemon<R>),
}

/// What was opened at a place, and whether its place may give something again after its end: all but a regular file, a block device and a
/// folder may.
#[derive(Drop)]
pub(crate) struct Found<R: Files<File = File> + Net<Stream = TcpStream> + Clock + Copy> {
    pub(crate) inlet: Inlet<R>,
    pub(crate) returns: bool,
}

/// Whether a place is opened again.
#[derive(Clone, Copy, PartialEq, Eq)]
pub(crate) enum Opening {
    /// It is opened once.
    Only,
    /// It is opened for the first time, and again later.
    First,
    /// It was away.
    Later,
}

/// Opens places.
#[derive(Drop)]
pub(crate) struct Opener<R> {
    machine: R,
    alloc: Global,
    listening: Listening,
    files: OpenFiles,
    /// The number of the input whose place is opened.
    number: usize,
}

pub(crate) fn text_of(bytes: &Bytes) -> io::Result<&str> {
    match str::from_utf8(bytes.as_slice()) {
        Ok(text) => Ok(text),
        Err(_) => Err(io::Error::from(ErrorKind::InvalidInput)),
    }
}

/// Why a file is no place of a receiver that was away: what is there is not its own.
fn is_no_receiver(kind: FileType) -> Option<io::Error> {
    let reason = if kind.is_dir() {
        "it is a folder"
    } else if kind.is_file() {
        "it is a regular file"
    } else if kind.is_block_device() {
        "it is a block device"
    } else {
        return None;
    };
    Some(io::Error::new(ErrorKind::Uncategorized, reason))
}

fn is_taken() -> io::Error {
    io::Error::new(ErrorKind::Uncategorized, "it is open under another name")
}

impl<R: Copy> Opener<R> {
    pub(crate) fn new(machine: R, alloc: Global) -> Opener<R> {
        Opener {
            machine,
            alloc,
            listening: Listening::nowhere(alloc),
            files: OpenFiles::none(alloc),
            number: 0,
        }
    }

    /// What opens the place of the input of this number.
    pub(crate) fn of_input(&self, number: usize) -> Opener<R> {
        Opener {
            machine: self.machine,
            alloc: self.alloc,
            listening: self.listening.share(),
            files: self.files.share(),
            number,
        }
    }
}

impl<R> Opener<R> {
    /// Where the daemon listens.
    pub(crate) fn listening(&self) -> &Listening {
        &self.listening
    }

    /// What was opened is closed: another name may open it.
    pub(crate) fn leave(&self) {
        self.files.leave(self.number);
    }
}

impl<R: Files<File = File> + Copy> Opener<R> {
    fn open_pipe(&self, path: &Bytes, opening: Opening) -> io::Result<RealSource<R>> {
        let known = fs::metadata(&self.machine, text_of(path)?)?;
        let path = copy_of(path)?;
        if opening == Opening::Only {
            return Ok(RealSource::of_pipe(self.machine, self.alloc, path));
        }
        if !self.files.take(self.number, &known) {
            return Err(is_taken());
        }
        RealSource::of_kept_pipe(self.machine, self.alloc, path)
    }

    /// Whether no other input reads this terminal. One that is opened once was compared with all others.
    fn is_free(&self, file: &File, opening: Opening) -> io::Result<bool> {
        if opening == Opening::Only || !file.is_terminal() {
            return Ok(true);
        }
        Ok(self.files.take(self.number, &file.metadata()?))
    }

    /// Whether a place that could not be opened now may be there later.
    pub(crate) fn may_come(&self, place: &Place) -> bool {
        let Place::File(path) = place else {
            return true;
        };
        let Ok(text) = text_of(path) else {
            return false;
        };
        match fs::metadata(&self.machine, text) {
            Ok(known) => !known.is_file(),
            Err(_) => true,
        }
    }
}

impl<R: Files<File = File> + Net<Stream = TcpStream> + Clock + Copy> Opener<R> {
    /// Opens a file, a terminal or another character device.
    fn open_file(&self, path: &str, opening: Opening) -> io::Result<Found<R>> {
        let file = fs::open(&self.machine, path)?;
        let is_device = file.metadata()?.file_type().is_char_device();
        if !self.is_free(&file, opening)? {
            return Err(is_taken());
        }
        let source = if is_device {
            RealSource::of_device(self.machine, self.alloc, file)
        } else {
            RealSource::of_file(self.machine, self.alloc, file)
        };
        match source {
            Ok(source) => Ok(Found {
                inlet: Inlet::Source(source),
                returns: is_device,
            }),
            Err(_) => Err(io::Error::from(ErrorKind::OutOfMemory)),
        }
    }

    /// Opens what is at a path.
    fn open_path(&self, path: &Bytes, opening: Opening) -> io::Result<Found<R>> {
        let text = text_of(path)?;
        let kind = fs::metadata(&self.machine, text)?.file_type();
        if kind.is_fifo() {
            let source = self.open_pipe(path, opening)?;
            return Ok(Found {
                inlet: Inlet::Source(source),
                returns: true,
            });
        }
        if opening == Opening::Later || opening == Opening::First && kind.is_dir() {
            if let Some(reason) = is_no_receiver(kind) {
                return Err(reason);
            }
        }
        self.open_file(text, opening)
    }

    /// Opens what is at a path. If that fails, another input may open it.
    fn open_or_leave(&self, path: &Bytes, opening: Opening) -> io::Result<Found<R>> {
        let opened = self.open_path(path, opening);
        if opened.is_err() {
            self.leave();
        }
        opened
    }

    /// Opens a place. What may wait long is opened by the first read.
    ///
    /// If it is opened again later, a folder is refused, as a receiver may yet come in its place. If it was away, so are a regular file and a
    /// block device, and a named pipe or terminal that another input has open.
    pub(crate) fn open(&self, place: &Place, opening: Opening) -> io::Result<Found<R>> {
        let inlet = match place {
            Place::File(path) => return self.open_or_leave(path, opening),
            Place::Tcp(address) => {
                let address = copy_of(address)?;
                let listening = self.listening.share();
                Inlet::Source(RealSource::of_host(self.machine, address, listening))
            }
            Place::Gpsd(address) => {
                let address = copy_of(address)?;
                let listening = self.listening.share();
                Inlet::Daemon(Daemon::new(self.machine, address, listening))
            }
        };
        Ok(Found {
            inlet,
            returns: true,
        })
    }
}

impl<R: Files<File = File> + Net<Stream = TcpStream> + Clock + Copy> Inlet<R> {
    pub(crate) fn read(&mut self, buf: &mut [u8]) -> ReadStep
        requires { 0 < length buf.old }
        ensures { FitsBuffer result (length buf.old) }
    {
        match self {
            Inlet::Source(source) => source.read(buf),
            Inlet::Daemon(daemon) => daemon.read(buf),
        }
    }

    /// Whether it is a named pipe that has ended and stays open.
    pub(crate) fn is_left_open(&self) -> bool {
        match self {
            Inlet::Source(source) => source.is_left_open(),
            Inlet::Daemon(_) => false,
        }
    }

    /// Goes on with a named pipe that has ended and stays open. False: nobody has come.
    pub(crate) fn resume(&mut self) -> io::Result<bool> {
        match self {
            Inlet::Source(source) => source.resume(),
            Inlet::Daemon(_) => Ok(false),
        }
    }

    /// Opens what the next read would open.
    pub(crate) fn begin(&mut self) {
        match self {
            Inlet::Source(source) => source.open(),
            Inlet::Daemon(daemon) => daemon.begin(),
        }
    }

    /// What its next read waits for, before it can give bytes.
    pub(crate) fn awaited(&self) -> Option<Awaited> {
        match self {
            Inlet::Source(source) => source.awaited(),
            Inlet::Daemon(daemon) => daemon.is_waiting().then_some(Awaited::Host),
        }
    }

    /// The next reads wait for bytes for this number of milliseconds; none: for as long as they do of themselves.
    pub(crate) fn set_wait(&mut self, wait: Option<u32>) {
        match self {
            Inlet::Source(source) => source.set_wait(wait),
            Inlet::Daemon(daemon) => daemon.set_wait(wait),
        }
    }

    pub(crate) fn is_ready(&self) -> bool {
        match self {
            Inlet::Source(source) => source.is_ready(),
            Inlet::Daemon(_) => false,
        }
    }

    /// Closes what it reads.
    pub(crate) fn finish(&mut self) {
        match self {
            Inlet::Source(source) => source.finish(),
            Inlet::Daemon(daemon) => daemon.finish(),
        }
    }
}
