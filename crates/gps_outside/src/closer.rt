use std::net::{Shutdown, TcpStream};

/// What closes a door from another thread: a call of it that waits for a link ends at once, and so does each later one.
#[derive(Drop)]
pub struct Closer {
    // A listener has no call for this, but shares its socket with a stream.
    socket: TcpStream,
}

impl Closer {
    pub(crate) fn of_socket(socket: TcpStream) -> Closer {
        Closer { socket }
    }

    pub fn close(&self) {
        let _ = self.socket.shutdown(Shutdown::Both);
    }
}
