use crate::Place;
use arrayvec::ArrayVec;
use gps_fixed::Bytes;
use std::alloc::Global;
use std::fs::{self, File, OpenOptions};
use std::os::unix::fs::FileTypeExt;
use std::rt::Files;
use std::{io, str};

/// Named pipes that are open at both ends, so that no reader of theirs waits for a writer. Takes no memory.
#[derive(Drop)]
pub struct HeldPipes {
    /// None for a pipe that could not be opened.
    files: ArrayVec<Option<File>, 16, Global>,
}

/// Opens a pipe at both ends, which does not wait: a reader that waits for a writer goes on, and its read waits a second for bytes. None: there
/// is no pipe. Nothing is written into it, as its reader would hand it on.
///
/// What was opened is looked at once more, as another file may have taken its place meanwhile.
fn rouse<R: Files<File = File>>(machine: &R, path: &str) -> io::Result<Option<File>> {
    if !fs::metadata(machine, path)?.file_type().is_fifo() {
        return Ok(None);
    }
    let file = OpenOptions::new()
        .read(true)
        .write(true)
        .open(machine, path)?;
    if !file.metadata()?.file_type().is_fifo() {
        return Ok(None);
    }
    Ok(Some(file))
}

fn rouse_path<R: Files<File = File>>(machine: &R, path: &Bytes) -> Option<File> {
    let Ok(path) = str::from_utf8(path.as_slice()) else {
        return None;
    };
    match rouse(machine, path) {
        Ok(file) => file,
        Err(_) => None,
    }
}

impl HeldPipes {
    pub(crate) fn none(alloc: Global) -> HeldPipes {
        HeldPipes {
            files: ArrayVec::new_in(alloc),
        }
    }

    /// Opens a pipe at both ends, and holds it.
    pub(crate) fn rouse<R: Files<File = File>>(&mut self, machine: &R, path: &Bytes) {
        let _ = self.files.try_push(rouse_path(machine, path));
    }
}

/// The paths of named pipes whose readers may wait for a writer.
#[derive(Drop)]
pub struct WaitingPipes {
    paths: ArrayVec<Option<Bytes>, 16, Global>,
}

impl WaitingPipes {
    pub(crate) fn none(alloc: Global) -> WaitingPipes {
        WaitingPipes {
            paths: ArrayVec::new_in(alloc),
        }
    }

    /// One more path, if there is memory for it.
    pub(crate) fn add(&mut self, path: &Bytes) {
        let _ = self.paths.try_push(path.copy().ok());
    }

    /// Opens each of these pipes at both ends, and holds them: no reader of theirs waits for a writer any more.
    pub fn rouse<R: Files<File = File>>(&self, alloc: Global, machine: &R) -> HeldPipes {
        let mut held = HeldPipes::none(alloc);
        for path in self.paths.iter() {
            if let Some(path) = path {
                held.rouse(machine, path);
            }
        }
        held
    }
}
