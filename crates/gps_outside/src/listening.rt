use std::alloc::Global;
use std::io;
use std::net::{IpAddr, Ipv6Addr, SocketAddr, TcpStream};
use std::sync::Arc;
use std::sync::atomic::{AtomicU64, Ordering};

/// An address with its port, in three words. No port: none was set yet, as it is set last.
#[derive(Drop)]
struct Words {
    high: AtomicU64,
    low: AtomicU64,
    port: AtomicU64,
}

/// Where the daemon itself listens, once it does. All that connect share it, so that no device is the daemon itself.
#[derive(Drop)]
pub struct Listening {
    /// None if there was no memory for them: then nothing is known.
    words: Option<Arc<Words, Global>>,
}

/// An address of four bytes as one of sixteen.
fn long_of(ip: IpAddr) -> Ipv6Addr {
    match ip {
        IpAddr::V4(ip) => ip.to_ipv6_mapped(),
        IpAddr::V6(ip) => ip,
    }
}

/// The two halves of an address.
fn halves_of(ip: Ipv6Addr) -> (u64, u64) {
    let o = ip.octets();
    let high = u64::from_be_bytes([o[0], o[1], o[2], o[3], o[4], o[5], o[6], o[7]]);
    let low = u64::from_be_bytes([o[8], o[9], o[10], o[11], o[12], o[13], o[14], o[15]]);
    (high, low)
}

fn address_of(high: u64, low: u64) -> IpAddr {
    Ipv6Addr::from_bits(u128::from(high) << 64 | u128::from(low)).to_canonical()
}

/// Whether a listener at `at` accepts what comes to `to`. One without an address of its own accepts what comes to any of the machine.
fn takes(at: IpAddr, to: IpAddr) -> bool {
    match (at, to) {
        (IpAddr::V4(_), IpAddr::V6(_)) => false,
        _ => at == to || at.is_unspecified(),
    }
}

impl Words {
    fn set(&self, at: SocketAddr) {
        let (high, low) = halves_of(long_of(at.ip()));
        self.high.store(high, Ordering::SeqCst);
        self.low.store(low, Ordering::SeqCst);
        self.port.store(u64::from(at.port()), Ordering::SeqCst);
    }

    fn is_peer_of(&self, stream: &TcpStream) -> io::Result<bool> {
        let port = self.port.load(Ordering::SeqCst);
        let peer = stream.peer_addr()?;
        if port == 0 || port != u64::from(peer.port()) {
            return Ok(false);
        }
        let to = peer.ip().to_canonical();
        let is_here = to.is_loopback() || to == stream.local_addr()?.ip().to_canonical();
        let high = self.high.load(Ordering::SeqCst);
        let low = self.low.load(Ordering::SeqCst);
        Ok(is_here && takes(address_of(high, low), to))
    }
}

impl Listening {
    /// It listens nowhere yet.
    pub fn nowhere(alloc: Global) -> Listening {
        let words = Words {
            high: AtomicU64::new(0),
            low: AtomicU64::new(0),
            port: AtomicU64::new(0),
        };
        Listening {
            words: Arc::new(alloc, words).ok(),
        }
    }

    /// A copy.
    pub fn share(&self) -> Listening {
        let words = match &self.words {
            Some(words) => Arc::try_clone(words).ok(),
            None => None,
        };
        Listening { words }
    }

    /// The daemon listens at this address.
    pub fn set(&self, at: SocketAddr) {
        if let Some(words) = &self.words {
            words.set(at);
        }
    }

    /// Whether a stream that was connected now has the daemon itself as its peer.
    pub(crate) fn is_peer_of(&self, stream: &TcpStream) -> bool {
        match &self.words {
            Some(words) => words.is_peer_of(stream).unwrap_or(false),
            None => false,
        }
    }
}
