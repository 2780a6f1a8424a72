use std::alloc::Global;
use std::fmt::{self, Display};
use std::fs::{self, File};
use std::io;
use std::net::{IpAddr, SocketAddr, TcpStream};
use std::rt::Files;

/// The row of a socket in the system's table: its address, that of the other side, and the state FIN_WAIT2, in which all bytes and the end are
/// acknowledged. Source: proc(5), /proc/net/tcp.
#[derive(Drop)]
struct Row {
    here: SocketAddr,
    there: SocketAddr,
}

/// An address as the table has it: each four bytes as one number of this machine, then the port.
#[derive(Drop)]
struct Shown(SocketAddr);

impl Display for Shown {
    fn fmt<W: fmt::Write>(&self, f: &mut fmt::Formatter<W>) -> fmt::Result {
        match self.0.ip() {
            IpAddr::V4(ip) => write!(f, "{:08X}", u32::from_ne_bytes(ip.octets()))?,
            IpAddr::V6(ip) => {
                let [a, b, c, d, e, f0, g, h, i, j, k, l, m, n, o, p] = ip.octets();
                for word in [[a, b, c, d], [e, f0, g, h], [i, j, k, l], [m, n, o, p]] {
                    write!(f, "{:08X}", u32::from_ne_bytes(word))?;
                }
            }
        }
        write!(f, ":{:04X}", self.0.port())
    }
}

impl Display for Row {
    fn fmt<W: fmt::Write>(&self, f: &mut fmt::Formatter<W>) -> fmt::Result {
        write!(f, " {} {} 05 ", Shown(self.here), Shown(self.there))
    }
}

impl Row {
    fn table(&self) -> &'static str {
        match self.here {
            SocketAddr::V4(_) => "/proc/self/net/tcp",
            SocketAddr::V6(_) => "/proc/self/net/tcp6",
        }
    }
}

/// Whether the other side of a stream has acknowledged its end, and with it all bytes. The kit has no call that asks the system for this, so its
/// table is read, which takes some milliseconds. False also if the table does not tell.
pub(crate) fn is_acknowledged<R: Files<File = File>>(
    machine: &R,
    alloc: Global,
    stream: &TcpStream,
) -> io::Result<bool> {
    let row = Row {
        here: stream.local_addr()?,
        there: stream.peer_addr()?,
    };
    let table = io::read_to_string(alloc, fs::open(machine, row.table())?)?;
    let text = format!(in alloc; "{row}")?;
    Ok(table.contains(text.as_str()))
}
