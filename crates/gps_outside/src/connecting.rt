use crate::Listening;
use crate::probes::probe;
use std::io::{self, ErrorKind};
use std::net::{Net, TcpStream, ToSocketAddrs};
use std::time::{Clock, Duration};

/// How many seconds the hosts of one address may take to answer, all together.
const CONNECT_WAIT: u64 = 5;

/// Why no connection was made.
#[derive(Clone, Copy, Debug)]
pub enum ConnectFault {
    /// The daemon itself listens there.
    Own,
    /// The address is none, or its host refuses or does not answer. Not to answer within five seconds is a time-out.
    Unreached(io::Error),
}

fn connect_any<R: Net<Stream = TcpStream> + Clock>(
    machine: &R,
    address: &str,
) -> io::Result<TcpStream> {
    let start = machine.monotonic()?;
    let mut last = io::Error::from(ErrorKind::InvalidInput);
    for at in address.to_socket_addrs(machine)? {
        let waited = machine.monotonic()?.saturating_sub(start);
        let left = Duration::from_secs(CONNECT_WAIT).saturating_sub(waited);
        if left.is_zero() {
            break;
        }
        match TcpStream::connect_timeout(machine, &at, left) {
            Ok(stream) => {
                probe(&stream);
                return Ok(stream);
            }
            Err(error) => last = error,
        }
    }
    Err(last)
}

/// Connects to HOST:PORT, within five seconds. An address of the host that refuses is followed by its next one. If the host vanishes without a
/// word, a read of the connection fails 50 s after the last byte.
pub fn connect<R: Net<Stream = TcpStream> + Clock>(
    machine: &R,
    address: &str,
    listening: &Listening,
) -> Result<TcpStream, ConnectFault> {
    match connect_any(machine, address) {
        Ok(stream) if listening.is_peer_of(&stream) => Err(ConnectFault::Own),
        Ok(stream) => Ok(stream),
        Err(error) => Err(ConnectFault::Unreached(error)),
    }
}
