//! What the system says of a place: why it cannot be opened or read, who may read it, and whether it is a terminal.

use crate::place_text::text_of;
use gps_fixed::Bytes;
use gps_world::DaemonFault;
use std::alloc::Global;
use std::fmt;
use std::fs::{self, File, FileType};
use std::io::{self, ErrorKind, IsTerminal};
use std::os::unix::fs::{FileTypeExt, MetadataExt};
use std::rt::Files;

/// The system's reason at the end of a message, or nothing if none is known.
#[derive(Clone, Copy)]
pub struct Reason(pub Option<io::Error>);

impl fmt::Display for Reason {
    fn fmt<W: fmt::Write>(&self, f: &mut fmt::Formatter<W>) -> fmt::Result {
        let Some(error) = self.0 else {
            return Ok(());
        };
        let kind = error.kind();
        match kind {
            ErrorKind::NotFound => f.write_str(": no such file"),
            ErrorKind::InvalidInput => f.write_str(": no such address"),
            ErrorKind::PermissionDenied => f.write_str(": permission denied"),
            ErrorKind::AddrInUse => f.write_str(
                ": address in use; another daemon may serve there: say --listen HOST:PORT",
            ),
            ErrorKind::AddrNotAvailable => {
                f.write_str(": address not available; this machine has no such address")
            }
            // Only a connection has a time limit here.
            ErrorKind::TimedOut => f.write_str(": no answer within 5 seconds"),
            // The kind says nothing; the error has the system's text.
            ErrorKind::Uncategorized => write!(f, ": {}", error),
            _ => write!(f, ": {}", kind),
        }
    }
}

/// Why another daemon failed.
#[derive(Clone, Copy)]
pub struct DaemonReason(pub DaemonFault);

impl fmt::Display for DaemonReason {
    fn fmt<W: fmt::Write>(&self, f: &mut fmt::Formatter<W>) -> fmt::Result {
        match self.0 {
            DaemonFault::Own => f.write_str("this daemon itself listens there"),
            DaemonFault::Unreached(error) => {
                let kind = error.kind();
                match kind {
                    ErrorKind::InvalidInput => f.write_str("no such address"),
                    ErrorKind::WouldBlock | ErrorKind::TimedOut => {
                        f.write_str("no answer within 5 seconds")
                    }
                    ErrorKind::Uncategorized => write!(f, "{}", error),
                    _ => write!(f, "{}", kind),
                }
            }
            DaemonFault::Unsent => f.write_str("the request could not be sent"),
            DaemonFault::NoDaemon => f.write_str("what answers there is neither gpsd nor gpsrelay"),
            DaemonFault::ClosedEarly => {
                f.write_str("the connection ended before its answer was whole")
            }
            DaemonFault::TooLate => f.write_str("its answer was not whole within 10 seconds"),
            DaemonFault::Broken => f.write_str("the connection broke"),
        }
    }
}

fn file_type_of<R: Files>(rt: &R, path: &Bytes) -> io::Result<FileType> {
    let metadata = fs::metadata(rt, text_of(path))?;
    Ok(metadata.file_type())
}

/// Whether a path is that of a regular file.
pub fn is_regular<R: Files<File = File>>(rt: &R, path: &Bytes) -> bool {
    match file_type_of(rt, path) {
        Ok(kind) => kind.is_file(),
        Err(_) => false,
    }
}

/// Whether a path is that of a terminal. Only a character device is opened for it.
pub fn is_terminal<R: Files<File = File>>(rt: &R, path: &Bytes) -> bool {
    let is_device = match file_type_of(rt, path) {
        Ok(kind) => kind.is_char_device(),
        Err(_) => false,
    };
    if !is_device {
        return false;
    }
    match fs::open(rt, text_of(path)) {
        Ok(file) => file.is_terminal(),
        Err(_) => false,
    }
}

/// The bit of a file's mode by which its group may read it.
const GROUP_READS: u32 = 0o040;

/// The bit of a file's mode by which everybody may read it.
const OTHERS_READ: u32 = 0o004;

/// The name in a line of /etc/group, as `dialout:x:20:me`, if the line is that of the group with this number.
fn name_in_line(line: &str, group: u32) -> Option<&str> {
    let (name, rest) = line.split_once(':')?;
    let (_, rest) = rest.split_once(':')?;
    let number = match rest.split_once(':') {
        Some((number, _)) => number,
        None => rest,
    };
    match number.parse::<u32>() {
        Ok(number) if number == group => Some(name),
        _ => None,
    }
}

/// The name of a group, or its number, if /etc/group has no name for it.
fn group_name<R: Files<File = File>>(rt: &R, alloc: Global, group: u32) -> Option<String> {
    if let Ok(file) = File::open(rt, "/etc/group") {
        if let Ok(text) = io::read_to_string(alloc, file) {
            for line in text.lines() {
                if let Some(name) = name_in_line(line, group) {
                    return String::from_str(alloc, name).ok();
                }
            }
        }
    }
    format!(in alloc; "{group}").ok()
}

/// Who may read a file that this user may not, in words, if that is known.
pub fn who_may_read<R: Files<File = File>>(rt: &R, alloc: Global, path: &Bytes) -> Option<String> {
    let metadata = fs::metadata(rt, text_of(path)).ok()?;
    let mode = metadata.mode();
    if mode & OTHERS_READ != 0 {
        return None;
    }
    if mode & GROUP_READS == 0 {
        return format!(in alloc; "only its owner may read it").ok();
    }
    let group = group_name(rt, alloc, metadata.gid())?;
    format!(in alloc; "its group is {group}: is this user in it?").ok()
}

/// What to do if a path ends with a speed, as `/dev/ttyUSB0:9600`, and is a terminal without it.
pub fn speed_in<R: Files<File = File>>(rt: &R, alloc: Global, path: &Bytes) -> Option<String> {
    let (terminal, speed) = text_of(path).rsplit_once(':')?;
    let speed = speed.parse::<u32>().ok()?;
    let kind = fs::metadata(rt, terminal).ok()?.file_type();
    if !kind.is_char_device() {
        return None;
    }
    format!(in alloc;
        "leave the speed out, and set it before: gpsrelay-port {terminal} {speed}"
    ).ok()
}
