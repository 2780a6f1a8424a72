use libc::net::{IPPROTO_TCP, TCP_USER_TIMEOUT, setsockopt};
use std::os::fd::AsRawFd;

/// Makes the system give up a connection, and what it still has to send, once the other side has accepted nothing for this number of
/// milliseconds. Without it the system keeps both for as long as the other side stays, also after the socket was closed.
pub(crate) fn give_up_after<F: AsRawFd>(socket: &F, wait: u64) {
    let wait = u32::try_from(wait).unwrap_or(u32::MAX);
    let [a, b, c, d] = wait.to_ne_bytes();
    let value = [a, b, c, d, 0, 0, 0, 0, 0, 0, 0, 0, 0, 0, 0, 0];
    let _ = unsafe { setsockopt(socket.as_raw_fd(), IPPROTO_TCP, TCP_USER_TIMEOUT, &value, 4) };
}
