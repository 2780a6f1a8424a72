//! Tells a service manager that the daemon has started: one datagram, `READY=1`, to the socket that the variable NOTIFY_SOCKET names
//! (sd_notify(3) of systemd describes it).
//!
//! `tell_ready("/run/systemd/notify")` is the whole of it. Whether the datagram was read is not known.

ghost use Rattle.std.specs.Prelude.{◌≤◌, IfSome};

use libc::close;
use libc::net::{AF_UNIX, MSG_NOSIGNAL, SOCK_CLOEXEC, SOCK_DGRAM, sendto, socket};

/// Where the path stands in C's `sockaddr_un`, behind the family, and how many bytes it may have.
const PATH_AT: usize = 2;

const PATH_SIZE: usize = 108;

/// The notice: the line that says that the service has started.
const READY: &[u8] = b"READY=1\n";

/// An address for the C library: bytes, of which the first `len` count.
#[derive(Drop)]
struct Address {
    bytes: [u8; 128],
    len: u32,
}

/// The address of a Unix socket. A path that begins with `@` names a socket without a file: then its first byte is 0 (unix(7)).
/// None if the path is no whole path, or too long.
fn address_of(path: &[u8]) -> Option<Address>
    ensures fits { IfSome result (λ a. a.len ≤ 128) }
{
    let is_abstract = match path.first()? {
        b'/' => false,
        b'@' => true,
        _ => return None,
    };
    if path.len() > PATH_SIZE {
        return None;
    }
    let mut bytes = [0u8; 128];
    bytes[..PATH_AT].copy_from_slice(&(AF_UNIX as u16).to_ne_bytes());
    bytes[PATH_AT..PATH_AT + path.len()].copy_from_slice(path);
    if is_abstract {
        bytes[PATH_AT] = 0;
    }
    let len = (PATH_AT + path.len()) as u32;
    Some(Address { bytes, len })
}

/// Tells the service manager that waits at this socket that the daemon has started. Whether the notice was sent.
pub fn tell_ready(path: &str) -> bool {
    let Some(address) = address_of(path.as_bytes()) else {
        return false;
    };
    let fd = unsafe { socket(AF_UNIX, SOCK_DGRAM | SOCK_CLOEXEC, 0) };
    if fd < 0 {
        return false;
    }
    let sent = unsafe { sendto(fd, READY, MSG_NOSIGNAL, &address.bytes, address.len) };
    let _ = close(fd);
    sent >= 0
}
