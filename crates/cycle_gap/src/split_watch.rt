use gps_report::{Note, Packet, PacketKind};
use nmea_decode::note_of;
use std::alloc::Global;
use ubx_decode::note_of_frame;

/// A moment that came in two parts.
#[derive(Clone, Copy, Debug, PartialEq, Eq)]
pub struct Split {
    /// The gap that is too short, in milliseconds.
    pub gap: u32,
    /// The moment, in nanoseconds of the day.
    pub tod: u64,
}

/// The kind of a packet: talker and formatter of a sentence, class and identifier of a frame.
type Head = [u8; 6];

/// A packet that gives a time.
#[derive(Clone, Copy)]
struct Timed {
    head: Head,
    /// Nanoseconds of the day.
    tod: u64,
}

/// Looks for a moment that came in two parts, as the gap is too short: the first packet with a time behind a frame that was put in has the time of the
/// one before it, and is of another kind. A receiver whose clock stands still repeats one kind.
#[derive(Drop)]
pub(crate) struct SplitWatch {
    /// The first packet with a time behind the last frame.
    now: Option<Timed>,
    /// The one of the part before it.
    before: Option<Timed>,
    found: Option<u64>,
}

/// What a packet tells. None if memory runs out.
fn note(alloc: Global, packet: &Packet) -> Option<Note> {
    let bytes = packet.bytes.as_slice();
    let note = match packet.kind {
        PacketKind::Nmea => note_of(alloc, bytes),
        PacketKind::Ubx => note_of_frame(alloc, bytes),
    };
    note.ok()
}

fn head_of(packet: &Packet) -> Option<Head> {
    match packet.bytes.as_slice() {
        [a, b, c, d, e, f, ..] => Some([*a, *b, *c, *d, *e, *f]),
        _ => None,
    }
}

fn time_of(alloc: Global, packet: &Packet) -> Option<Timed> {
    let tod = note(alloc, packet)?.tod?;
    let head = head_of(packet)?;
    Some(Timed { head, tod })
}

impl SplitWatch {
    pub(crate) fn new() -> SplitWatch {
        SplitWatch {
            now: None,
            before: None,
            found: None,
        }
    }

    /// The moment that came in two parts, in nanoseconds of the day: the first that was found.
    pub(crate) fn found(&self) -> Option<u64> {
        self.found
    }

    fn take(&mut self, now: Timed) {
        self.now = Some(now);
        if let Some(before) = self.before {
            if before.tod == now.tod && before.head != now.head {
                self.found = Some(now.tod);
            }
        }
    }

    /// Looks at packets that came, until one of them gives a time.
    pub(crate) fn look(&mut self, alloc: Global, packets: &[Packet]) {
        if self.now.is_some() || self.found.is_some() {
            return;
        }
        for packet in packets {
            if let Some(now) = time_of(alloc, packet) {
                return self.take(now);
            }
        }
    }

    /// A frame is put in.
    pub(crate) fn next_part(&mut self) {
        if let Some(now) = self.now.take() {
            self.before = Some(now);
        }
    }
}
