//! The numbers of a running daemon: what came of each device, and how many clients there are. Any thread may add to them.

use crate::link_count::LinkTally;
use gps_fixed::{NoMemory, Stamp};
use gps_report::{Name, Names, Packet};
use packet_cut::Cutter;
use std::alloc::Global;
use std::sync::Arc;
use std::sync::atomic::{AtomicU64, Ordering};
use std::time::Duration;
use std::{fmt, str};

/// A stamp for a cutter whose packets are only counted.
const ANY_TIME: Stamp = Stamp { sec: 0, nsec: 0 };

/// What came of one device.
#[derive(Drop)]
struct DeviceTally {
    bytes: AtomicU64,
    packets: AtomicU64,
    /// When the last bytes came, in milliseconds of the machine's clock; 0 if none came.
    last: AtomicU64,
}

/// The numbers of a daemon.
#[derive(Drop)]
pub struct Tally {
    names: Vec<Name>,
    devices: Vec<DeviceTally>,
    links: Arc<LinkTally>,
}

fn milliseconds(time: Duration) -> u64 {
    u64::try_from(time.as_millis()).unwrap_or(u64::MAX)
}

impl DeviceTally {
    fn new() -> DeviceTally {
        DeviceTally {
            bytes: AtomicU64::new(0),
            packets: AtomicU64::new(0),
            last: AtomicU64::new(0),
        }
    }

    fn add(&self, bytes: usize, packets: usize, now: Duration) {
        self.bytes.fetch_add(bytes as u64, Ordering::SeqCst);
        self.packets.fetch_add(packets as u64, Ordering::SeqCst);
        self.last.store(milliseconds(now).max(1), Ordering::SeqCst);
    }

    fn read(&self, now: Duration) -> DeviceNumbers {
        let last = self.last.load(Ordering::SeqCst);
        DeviceNumbers {
            bytes: self.bytes.load(Ordering::SeqCst),
            packets: self.packets.load(Ordering::SeqCst),
            age: (last > 0).then_some(milliseconds(now).saturating_sub(last)),
        }
    }
}

/// What came of one device so far, as it is reported.
#[derive(Clone, Copy)]
struct DeviceNumbers {
    bytes: u64,
    packets: u64,
    /// How many milliseconds ago the last bytes came.
    age: Option<u64>,
}

impl fmt::Display for DeviceNumbers {
    fn fmt<W: fmt::Write>(&self, f: &mut fmt::Formatter<W>) -> fmt::Result {
        write!(f, "{} bytes, {} packets", self.bytes, self.packets)?;
        match self.age {
            Some(age) => write!(f, ", the last {}.{} s ago", age / 1_000, age % 1_000 / 100),
            None => Ok(()),
        }
    }
}

impl Tally {
    /// The numbers of a daemon with these devices, to which nothing came yet.
    pub fn new(alloc: Global, names: &Names) -> Result<Tally, NoMemory> {
        let links = Arc::new(alloc, LinkTally::new())?;
        let mut copies = Vec::with_capacity(alloc, names.len())?;
        let mut devices = Vec::with_capacity(alloc, names.len())?;
        for name in names.as_slice() {
            copies.push(name.copy()?)?;
            devices.push(DeviceTally::new())?;
        }
        Ok(Tally {
            names: copies,
            devices,
            links,
        })
    }

    /// How many devices it has.
    pub fn devices(&self) -> usize {
        self.devices.len()
    }

    /// The numbers of its links, for the door.
    pub fn links(&self) -> Option<Arc<LinkTally>> {
        Arc::try_clone(&self.links).ok()
    }

    /// Adds what came of the device with this number.
    fn add(&self, device: usize, bytes: usize, packets: usize, now: Duration) {
        if let Some(tally) = self.devices.get(device) {
            tally.add(bytes, packets, now);
        }
    }

    /// The numbers at this moment of the machine's clock, as one line.
    pub fn report(&self, now: Duration) -> Report<'_> {
        Report { tally: self, now }
    }
}

/// A line with the numbers of a daemon.
#[derive(Clone, Copy)]
pub struct Report<'a> {
    tally: &'a Tally,
    now: Duration,
}

impl fmt::Display for Report<'_> {
    fn fmt<W: fmt::Write>(&self, f: &mut fmt::Formatter<W>) -> fmt::Result {
        let links = &self.tally.links;
        write!(
            f,
            "report: {} clients now, {} at most, {} sessions, {} turned away",
            links.now(),
            links.most(),
            links.admitted(),
            links.turned_away()
        )?;
        for (name, device) in self.tally.names.iter().zip(self.tally.devices.iter()) {
            let name = str::from_utf8(name.as_slice()).unwrap_or("?");
            write!(f, "; {}: {}", name, device.read(self.now))?;
        }
        Ok(())
    }
}

/// Counts what comes of one device. Packets are counted by a cutter of its own.
#[derive(Drop)]
pub struct Meter {
    tally: Arc<Tally>,
    device: usize,
    cutter: Cutter,
}

/// Whether a packet is counted: all are but NAV-EOE, which says nothing of itself. `serve --cycle-gap` puts such frames behind what came.
fn is_counted(packet: &Packet) -> bool {
    !matches!(packet.bytes.as_slice(), [0xB5, 0x62, 0x01, 0x61, ..])
}

impl Meter {
    pub fn new(alloc: Global, tally: Arc<Tally>, device: usize) -> Meter {
        Meter {
            tally,
            device,
            cutter: Cutter::new(alloc),
        }
    }

    /// Counts a piece that came now.
    pub fn add(&mut self, piece: &[u8], now: Duration) {
        // No memory for them: these packets are not counted.
        let packets = match self.cutter.push(ANY_TIME, piece) {
            Ok(packets) => packets.iter().filter(|packet| is_counted(packet)).count(),
            Err(NoMemory) => 0,
        };
        self.tally.add(self.device, piece.len(), packets, now);
    }
}
