use libc::net::{
    IPPROTO_TCP, SO_KEEPALIVE, SOL_SOCKET, TCP_KEEPCNT, TCP_KEEPIDLE, TCP_KEEPINTVL, setsockopt,
};
use std::os::fd::AsRawFd;

/// After how many seconds without a byte the system asks the other side whether it is there.
const IDLE: u32 = 20;

/// How many seconds the other side has for an answer.
const PAUSE: u32 = 10;

/// After how many questions without an answer the connection is over.
const PROBES: u32 = 3;

/// A number as an option of a socket holds it, in its first four bytes.
fn option_of(number: u32) -> [u8; 16] {
    let [a, b, c, d] = number.to_ne_bytes();
    [a, b, c, d, 0, 0, 0, 0, 0, 0, 0, 0, 0, 0, 0, 0]
}

/// Makes the system end a connection whose other side has vanished without a word, as a machine that lost its power: 50 s after the last byte.
/// Without it such a connection stays open for ever if nothing is sent.
pub(crate) fn probe<F: AsRawFd>(socket: &F) {
    let fd = socket.as_raw_fd();
    let _ = unsafe { setsockopt(fd, IPPROTO_TCP, TCP_KEEPIDLE, &option_of(IDLE), 4) };
    let _ = unsafe { setsockopt(fd, IPPROTO_TCP, TCP_KEEPINTVL, &option_of(PAUSE), 4) };
    let _ = unsafe { setsockopt(fd, IPPROTO_TCP, TCP_KEEPCNT, &option_of(PROBES), 4) };
    let _ = unsafe { setsockopt(fd, SOL_SOCKET, SO_KEEPALIVE, &option_of(1), 4) };
}
