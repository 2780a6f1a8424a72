//! The first bytes of standard input, so that it can be said which packets came if none gave a fix.

use device_core::Device;
use gps_fixed::{NoMemory, Stamp};
use gps_report::{Body, PacketKind};
use packet_cut::{Found, cut_all};
use std::alloc::Global;
use std::{fmt, str};

/// How many bytes are kept.
const MOST: usize = 65_536;

/// How many kinds of sentences are named.
const KINDS: usize = 12;

/// How many bytes are given to a device at once.
const PIECE: usize = 512;

/// A stamp for bytes whose fixes are only looked for.
const ANY_TIME: Stamp = Stamp { sec: 0, nsec: 0 };

/// What is among bytes.
#[derive(Drop)]
pub enum Finding<'a> {
    /// Packets that give a fix.
    Fix,
    /// Packets, none of which gives a fix.
    Packets(PacketCounts<'a>),
    /// No packet, but this number of sentences that lack their checksum.
    Unchecked(u64),
    /// What begins as a JSON object does.
    Json,
    /// None of these.
    Nothing,
}

/// The first bytes that came, and whether these are all.
#[derive(Drop)]
pub struct FirstBytes {
    alloc: Global,
    bytes: Vec<u8>,
    are_all: bool,
}

/// The kind of a sentence, as `GNS`: without its talker, and the whole address of a sentence of a maker's own.
fn kind_of(sentence: &[u8]) -> &[u8] {
    let [_, body @ ..] = sentence else {
        return sentence;
    };
    let end = body
        .iter()
        .position(|byte| matches!(*byte, b',' | b'*'))
        .unwrap_or(body.len());
    let address = &body[..end];
    match address {
        [b'P', ..] => address,
        [_, _, kind @ ..] if kind.len() == 3 => kind,
        _ => address,
    }
}

/// A kind of sentence, and how many came.
#[derive(Clone, Copy)]
struct Count<'a> {
    kind: &'a [u8],
    number: u64,
}

/// Which packets are among bytes.
#[derive(Drop)]
pub struct PacketCounts<'a> {
    sentences: u64,
    frames: u64,
    kinds: Vec<Count<'a>>,
    are_all: bool,
}

/// Whether a frame is a NAV-EOE, which says nothing of itself: `serve --cycle-gap` puts such frames behind what came.
fn is_end_of_epoch(bytes: &[u8], found: &Found) -> bool {
    matches!(bytes.get(found.start..), Some([_, _, 0x01, 0x61, ..]))
}

impl<'a> PacketCounts<'a> {
    fn is_empty(&self) -> bool {
        self.sentences == 0 && self.frames == 0
    }

    fn add_kind(&mut self, kind: &'a [u8]) {
        for count in self.kinds.iter_mut() {
            if count.kind == kind {
                count.number = count.number.saturating_add(1);
                return;
            }
        }
        let _ = self.kinds.push(Count { kind, number: 1 });
    }

    fn add(&mut self, bytes: &'a [u8], found: &Found) {
        match found.kind {
            PacketKind::Nmea => {
                self.sentences = self.sentences.saturating_add(1);
                if let Some(packet) = bytes.get(found.start..) {
                    self.add_kind(kind_of(packet));
                }
            }
            PacketKind::Ubx => {
                if !is_end_of_epoch(bytes, found) {
                    self.frames = self.frames.saturating_add(1);
                }
            }
        }
    }
}

fn is_fix(body: &Body) -> bool {
    matches!(body, Body::Tpv(_))
}

/// How many lines begin as a sentence does, and have no checksum.
fn unchecked_among(bytes: &[u8]) -> u64 {
    let mut number: u64 = 0;
    for line in bytes.split(|byte| *byte == b'\n') {
        if is_unchecked(line) {
            number = number.saturating_add(1);
        }
    }
    number
}

fn is_byte_of_body(byte: u8) -> bool {
    matches!(byte, b' '..=b'~') && byte != b'$' && byte != b'*'
}

/// Whether a line is a sentence but for its checksum: `$`, and a body with a comma.
fn is_unchecked(line: &[u8]) -> bool {
    let line = match line {
        [line @ .., b'\r'] => line,
        _ => line,
    };
    match line {
        [b'$', body @ ..] => {
            body.contains(&b',') && body.iter().all(|byte| is_byte_of_body(*byte))
        }
        _ => false,
    }
}

impl FirstBytes {
    pub fn new(alloc: Global) -> FirstBytes {
        FirstBytes {
            alloc,
            bytes: Vec::new(alloc),
            are_all: true,
        }
    }

    /// Keeps a piece that came, as far as there is room.
    pub fn add(&mut self, piece: &[u8]) {
        if !self.are_all {
            return;
        }
        let room = MOST.saturating_sub(self.bytes.len());
        let part = piece.len().min(room);
        let is_kept = self.bytes.extend_from_slice(&piece[..part]).is_ok();
        self.are_all = is_kept && part == piece.len();
    }

    /// Whether no more bytes are kept.
    pub fn is_full(&self) -> bool {
        !self.are_all || self.bytes.len() >= MOST
    }

    /// Whether a device that sends them gives a fix.
    fn gives_fix(&self) -> Result<bool, NoMemory> {
        let mut device = Device::new(self.alloc);
        for piece in self.bytes.chunks(PIECE) {
            let said = device.feed_without_packets(ANY_TIME, piece)?;
            if said.iter().any(is_fix) {
                return Ok(true);
            }
        }
        let last = device.finish()?;
        Ok(last.iter().any(is_fix))
    }

    /// What is among them. If there is no memory to look, it is taken for a fix, of which nothing is said.
    pub fn finding(&self) -> Finding<'_> {
        match self.gives_fix() {
            Ok(false) => {}
            Ok(true) | Err(NoMemory) => return Finding::Fix,
        }
        if let Some(counts) = self.packets() {
            return Finding::Packets(counts);
        }
        let bytes = self.bytes.as_slice();
        match (unchecked_among(bytes), bytes) {
            (0, [b'{', b'"', ..]) => Finding::Json,
            (0, _) => Finding::Nothing,
            (number, _) => Finding::Unchecked(number),
        }
    }

    /// The packets among them, if there are any and there is memory to look.
    pub fn packets(&self) -> Option<PacketCounts<'_>> {
        let bytes = self.bytes.as_slice();
        let found = cut_all(self.alloc, bytes).ok()?;
        let mut counts = PacketCounts {
            sentences: 0,
            frames: 0,
            kinds: Vec::new(self.alloc),
            are_all: self.are_all,
        };
        for packet in found.iter() {
            counts.add(bytes, packet);
        }
        if counts.is_empty() {
            return None;
        }
        Some(counts)
    }
}

impl fmt::Display for PacketCounts<'_> {
    fn fmt<W: fmt::Write>(&self, f: &mut fmt::Formatter<W>) -> fmt::Result {
        if !self.are_all {
            write!(f, "of the first {} bytes, ", MOST)?;
        }
        if self.sentences > 0 {
            write!(f, "{} sentences", self.sentences)?;
            if self.frames > 0 {
                f.write_str(" and ")?;
            }
        }
        if self.frames > 0 {
            write!(f, "{} UBX frames", self.frames)?;
        }
        f.write_str(", none that gives a fix")?;
        for (at, count) in self.kinds.iter().take(KINDS).enumerate() {
            let before = if at == 0 { ": " } else { ", " };
            let kind = str::from_utf8(count.kind).unwrap_or("?");
            write!(f, "{}{} {}", before, kind, count.number)?;
        }
        if self.kinds.len() > KINDS {
            f.write_str(" and others")?;
        }
        Ok(())
    }
}
