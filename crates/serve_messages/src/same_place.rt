//! Whether two words of `serve` name one FIFO or terminal. Of such a file each byte is read once, so two devices would share its bytes. And whether
//! the path that stops the daemon is there.

use crate::place_text::text_of;
use crate::system::is_terminal;
use gps_fixed::Bytes;
use gps_report::Name;
use gps_words::{Input, ServeOptions};
use std::fs::{self, File};
use std::io::{Eprint, ErrorKind};
use std::os::unix::fs::{FileTypeExt, MetadataExt};
use std::rt::Files;
use std::{fmt, str};

/// What a word gives a path for.
#[derive(Clone, Copy)]
enum Role {
    Device,
    Edges,
    Stop,
}

/// A path among the words, and what it is for.
#[derive(Clone, Copy)]
struct Given<'a> {
    role: Role,
    name: Option<&'a Name>,
    path: &'a Bytes,
}

impl fmt::Display for Given<'_> {
    fn fmt<W: fmt::Write>(&self, f: &mut fmt::Formatter<W>) -> fmt::Result {
        let name = match self.name {
            Some(name) => str::from_utf8(name.as_slice()).unwrap_or("?"),
            None => "?",
        };
        match self.role {
            Role::Device => f.write_str(name),
            Role::Edges => write!(f, "the edges of {}", name),
            Role::Stop => f.write_str("--stop"),
        }
    }
}

/// Two words that name one file.
#[derive(Clone, Copy)]
struct SamePlace<'a> {
    first: Given<'a>,
    second: Given<'a>,
}

impl fmt::Display for SamePlace<'_> {
    fn fmt<W: fmt::Write>(&self, f: &mut fmt::Formatter<W>) -> fmt::Result {
        write!(f, "{} and {} name the same file", self.first, self.second)
    }
}

/// The path of an input, if it is a file.
fn path_of(input: &Input) -> Option<&Bytes> {
    match input {
        Input::File(path) => Some(path),
        Input::Tcp(_) | Input::Gpsd(_) => None,
    }
}

/// The path at this place: those of the devices come first, then those of their edges, and then that of `--stop`.
fn given_at(options: &ServeOptions, at: usize) -> Option<Given<'_>> {
    let count = options.inputs.len();
    if let Some(input) = options.inputs.get(at) {
        return Some(Given {
            role: Role::Device,
            name: options.names.as_slice().get(at),
            path: path_of(input)?,
        });
    }
    let at = at.checked_sub(count)?;
    if let Some(edges) = options.edges.get(at) {
        return Some(Given {
            role: Role::Edges,
            name: options.names.as_slice().get(at),
            path: edges.as_ref()?,
        });
    }
    let at = at.checked_sub(options.edges.len())?;
    if at > 0 {
        return None;
    }
    Some(Given {
        role: Role::Stop,
        name: None,
        path: options.stop.as_ref()?,
    })
}

/// Whether two paths name one FIFO or terminal.
fn is_same<R: Files<File = File>>(rt: &R, first: &Bytes, second: &Bytes) -> bool {
    let (Ok(one), Ok(other)) = (
        fs::metadata(rt, text_of(first)),
        fs::metadata(rt, text_of(second)),
    ) else {
        return false;
    };
    one.dev() == other.dev()
        && one.ino() == other.ino()
        && (one.file_type().is_fifo() || is_terminal(rt, first))
}

/// The first of the paths before this place that names the same file.
fn first_of_same<'a, R: Files<File = File>>(
    rt: &R,
    options: &'a ServeOptions,
    path: &Bytes,
    at: usize,
) -> Option<Given<'a>> {
    for before in 0..at {
        if let Some(first) = given_at(options, before) {
            if is_same(rt, first.path, path) {
                return Some(first);
            }
        }
    }
    None
}

/// The first two words that name one FIFO or terminal.
fn same_place<'a, R: Files<File = File>>(
    rt: &R,
    options: &'a ServeOptions,
) -> Option<SamePlace<'a>> {
    let count = options
        .inputs
        .len()
        .saturating_add(options.edges.len())
        .saturating_add(1);
    for at in 0..count {
        if let Some(second) = given_at(options, at) {
            if let Some(first) = first_of_same(rt, options, second.path, at) {
                return Some(SamePlace { first, second });
            }
        }
    }
    None
}

/// What the path of `--stop` lacks.
#[derive(Clone, Copy)]
enum StopLack {
    /// Its folder is there, and no such file in it.
    File,
    /// What comes before its last name is no folder.
    Folder,
}

/// The folder of a path.
fn folder_of(path: &str) -> &str {
    match path.rsplit_once('/') {
        Some(("", _)) => "/",
        Some((folder, _)) => folder,
        None => ".",
    }
}

/// What is lacking, if the path of `--stop` names nothing.
fn stop_lack<R: Files<File = File>>(rt: &R, path: &str) -> Option<StopLack> {
    match fs::metadata(rt, path) {
        Ok(_) => return None,
        Err(error)
            if error.kind() == ErrorKind::NotFound || error.kind() == ErrorKind::NotADirectory => {}
        Err(_) => return None,
    }
    match fs::metadata(rt, folder_of(path)) {
        Ok(metadata) if metadata.file_type().is_dir() => Some(StopLack::File),
        _ => Some(StopLack::Folder),
    }
}

/// Says that the path of `--stop` names nothing.
fn tell_stop_lack<R: Eprint>(rt: &R, path: &str, lack: StopLack, head: &str) {
    let _ = match lack {
        StopLack::File => eprintln!(rt;
            "{head}--stop {path}: no such file; make it first: mkfifo {path}"
        ),
        StopLack::Folder => {
            let folder = folder_of(path);
            eprintln!(rt;
                "{head}--stop {path}: there is no folder {folder}; make it first, and then the file: mkfifo {path}"
            )
        }
    };
}

/// Says, behind `head`, that two words name one FIFO or terminal, or that the path of `--stop` names nothing, if so.
pub fn tell_bad_places<R: Eprint + Files<File = File>>(
    rt: &R,
    options: &ServeOptions,
    head: &str,
) -> bool {
    if let Some(same) = same_place(rt, options) {
        let _ = eprintln!(rt; "{head}{same}");
        return true;
    }
    let Some(path) = &options.stop else {
        return false;
    };
    let path = text_of(path);
    match stop_lack(rt, path) {
        Some(lack) => {
            tell_stop_lack(rt, path, lack, head);
            true
        }
        None => false,
    }
}
