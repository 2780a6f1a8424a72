//! The file descriptors 0 to 2, which only standard streams may have: otherwise what is written to standard error could go to a receiver.

use std::fs::{File, OpenOptions};
use std::io;
use std::os::fd::AsRawFd;
use std::rt::Files;

/// The file descriptor of standard input.
const INPUT: i32 = 0;

/// The file descriptor of standard error, the last of the three.
const ERROR: i32 = 2;

/// Files that take the place of standard streams that were closed before the program began. Reads and writes of them fail, as those of a
/// closed stream do.
#[derive(Drop)]
pub struct StandardStreams {
    input: Option<File>,
    output: Option<File>,
    error: Option<File>,
}

fn open_null<R: Files<File = File>>(files: &R, how: &OpenOptions) -> io::Result<File> {
    how.open(files, "/dev/null")
}

/// A file that cannot be read, if the descriptor of standard input is free.
fn take_input<R: Files<File = File>>(files: &R) -> Option<File> {
    match open_null(files, OpenOptions::new().write(true)) {
        Ok(file) if file.as_raw_fd() == INPUT => Some(file),
        _ => None,
    }
}

/// A file that cannot be written, if the descriptor of a standard stream is free.
fn take_next<R: Files<File = File>>(files: &R) -> Option<File> {
    match open_null(files, OpenOptions::new().read(true)) {
        Ok(file) if file.as_raw_fd() <= ERROR => Some(file),
        _ => None,
    }
}

impl StandardStreams {
    /// Takes the descriptors that are free. The system gives the lowest one first.
    pub fn take<R: Files<File = File>>(files: &R) -> StandardStreams {
        StandardStreams {
            input: take_input(files),
            output: take_next(files),
            error: take_next(files),
        }
    }
}
