use libc::net::{POLLHUP, POLLIN, poll};
use libc::types::pollfd;
use std::os::fd::AsRawFd;

fn question<F: AsRawFd>(file: &F) -> [pollfd; 1] {
    [pollfd {
        fd: file.as_raw_fd(),
        events: POLLIN,
        revents: 0,
    }]
}

/// Whether a read would not wait: bytes are there, or the end, or a fault. Waits for it for at most this number of milliseconds.
pub(crate) fn is_readable<F: AsRawFd>(file: &F, wait: i32) -> bool {
    poll(&mut question(file), wait) > 0
}

/// Whether bytes are there now.
pub(crate) fn has_bytes<F: AsRawFd>(file: &F) -> bool {
    let mut asked = question(file);
    let _ = poll(&mut asked, 0);
    asked[0].revents & POLLIN != 0
}

/// Whether nobody is on the other side any more: a named pipe that had a writer has none, or a connection is over in both directions.
pub(crate) fn has_hung_up<F: AsRawFd>(file: &F) -> bool {
    let mut asked = question(file);
    let _ = poll(&mut asked, 0);
    asked[0].revents & POLLHUP != 0
}
