ghost use Rattle.std.specs.Io.{ReadsAtMost};

use crate::inlet::{AHEAD, DEVICE_WAIT, read_device, text_of, timed_out};
use crate::readable::{has_bytes, has_hung_up, is_readable};
use gps_fixed::Bytes;
use std::alloc::Global;
use std::fs::{self, File, Metadata, OpenOptions};
use std::io::{self, BufReader, ErrorKind};
use std::os::unix::fs::{FileTypeExt, MetadataExt};
use std::rt::Files;

/// A named pipe that may be opened again. It is open at both ends until the first bytes of a writer, so that nothing waits for a writer.
///
/// After its last writer it stays open until it is dropped or opened again, so that what the next one writes meanwhile is kept.
#[derive(Drop)]
pub(crate) struct KeptPipe {
    path: Bytes,
    reader: BufReader<File>,
    /// Its other end, while it waits for the first bytes of a writer.
    both: Option<File>,
    has_ended: bool,
}

/// Whether two names lead to one file.
fn is_same(one: &Metadata, other: &Metadata) -> bool {
    one.dev() == other.dev() && one.ino() == other.ino()
}

fn gone() -> io::Error {
    io::Error::from(ErrorKind::NotFound)
}

/// Opens a pipe at both ends. That waits for nobody.
fn open_both<R: Files<File = File>>(machine: &R, path: &str) -> io::Result<File> {
    let both = OpenOptions::new()
        .read(true)
        .write(true)
        .open(machine, path)?;
    if both.metadata()?.file_type().is_fifo() {
        Ok(both)
    } else {
        Err(gone())
    }
}

impl KeptPipe {
    /// Opens a pipe that may be written, and waits for no writer.
    pub(crate) fn open<R: Files<File = File>>(
        machine: &R,
        alloc: Global,
        path: Bytes,
    ) -> io::Result<KeptPipe> {
        let text = text_of(&path)?;
        let both = open_both(machine, text)?;
        // It has a writer by now, so this does not wait.
        let reader = BufReader::with_capacity(alloc, AHEAD, fs::open(machine, text)?)?;
        Ok(KeptPipe {
            path,
            reader,
            both: Some(both),
            has_ended: false,
        })
    }

    /// Opens a pipe that may only be read. That waits for a writer.
    pub(crate) fn open_to_read<R: Files<File = File>>(
        machine: &R,
        alloc: Global,
        path: Bytes,
    ) -> io::Result<KeptPipe> {
        let file = fs::open(machine, text_of(&path)?)?;
        let reader = BufReader::with_capacity(alloc, AHEAD, file)?;
        Ok(KeptPipe {
            path,
            reader,
            both: None,
            has_ended: false,
        })
    }

    /// A fault if its path is no longer that of this pipe.
    fn is_there<R: Files<File = File>>(&self, machine: &R) -> io::Result<()> {
        let there = fs::metadata(machine, text_of(&self.path)?)?;
        if is_same(&there, &self.reader.get_ref().metadata()?) {
            Ok(())
        } else {
            Err(gone())
        }
    }

    /// Whether it waits for the first bytes of a writer.
    pub(crate) fn is_waiting(&self) -> bool {
        self.both.is_some()
    }

    /// Whether its last writer has gone.
    pub(crate) fn has_ended(&self) -> bool {
        self.has_ended
    }

    /// Notes that its last writer has gone.
    pub(crate) fn end(&mut self) {
        self.has_ended = true;
    }

    /// Whether bytes that came ahead are still to be returned.
    pub(crate) fn is_ready(&self) -> bool {
        !self.reader.buffer().is_empty()
    }

    /// Opens its other end again, so that it waits for the next writer. One that may not be written is only looked at: false if it has no writer.
    fn open_again<R: Files<File = File>>(&mut self, machine: &R) -> io::Result<bool> {
        self.is_there(machine)?;
        match open_both(machine, text_of(&self.path)?) {
            Ok(both) => {
                if !is_same(&both.metadata()?, &self.reader.get_ref().metadata()?) {
                    return Err(gone());
                }
                self.both = Some(both);
                Ok(true)
            }
            Err(error) if error.kind() == ErrorKind::PermissionDenied => {
                Ok(!has_hung_up(self.reader.get_ref()))
            }
            Err(error) => Err(error),
        }
    }

    /// Goes on after the end of its last writer, with all that was written since. False: nothing was, and it may not be written itself. A fault
    /// if its path is no longer that of this pipe, and it holds no bytes.
    pub(crate) fn resume<R: Files<File = File>>(&mut self, machine: &R) -> io::Result<bool> {
        if has_bytes(self.reader.get_ref()) || self.open_again(machine)? {
            self.has_ended = false;
            return Ok(true);
        }
        Ok(false)
    }

    /// Reads once, and waits for bytes for this number of milliseconds. Quiet also if no writer has come within a second.
    pub(crate) fn read<R: Files<File = File>>(
        &mut self,
        machine: &R,
        wait: i32,
        buf: &mut [u8],
    ) -> io::Result<usize>
        ensures { ReadsAtMost result buf.new }
    {
        if self.has_ended {
            return Ok(0);
        }
        if self.both.is_some() {
            if !is_readable(self.reader.get_ref(), DEVICE_WAIT) {
                self.is_there(machine)?;
                return Err(timed_out());
            }
            self.both = None;
        }
        read_device(&mut self.reader, wait, buf)
    }
}
