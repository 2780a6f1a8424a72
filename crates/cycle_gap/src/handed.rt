ghost use Rattle.std.specs.Prelude.{◌≡◌, ◌≢◌, ◌<◌, ◌≤◌, ◌++◌, [], List, None, true, false, take, length, ℕ};
ghost use Rattle.packet_cut.specs.Packets.{packets_of, rest_of, stamped};
ghost use Rattle.cycle_gap.specs.End.{end_of_epoch, is_end, no_stamp};
ghost use Rattle.cycle_gap.specs.Handed.{KeepsGap, MayEnd, RunsOn, Stands};

use crate::Split;
use crate::split_watch::SplitWatch;
use gps_fixed::Stamp;
use gps_report::{Packet, PacketKind};
use packet_cut::Cutter;
use std::alloc::Global;
use std::marker::Model;

/// NAV-EOE with a time of week of 0.
const END_OF_EPOCH: [u8; 12] = [
    0xB5, 0x62, 0x01, 0x61, 0x04, 0x00, 0x00, 0x00, 0x00, 0x00, 0x66, 0xC7,
];

/// What the cutter stamps, which is not looked at.
const NO_STAMP: Stamp = Stamp { sec: 0, nsec: 0 };

/// What is kept of the bytes that were handed on, with the frames that were put in.
#[derive(Drop)]
pub(crate) struct Handed {
    cutter: Cutter,
    /// After how many milliseconds of silence the packets of one moment are complete; never if there is none.
    gap: Option<u32>,
    /// Whether the last packet is no NAV-EOE.
    is_running: bool,
    /// The bytes of a frame that are still to be handed on.
    left: &'static [u8],
    alloc: Global,
    watch: SplitWatch,
}

impl Model for Handed {
    ghost use Rattle.cycle_gap.specs.Handed.{Kept};

    ghost Value = { Kept };

    ghost view = { λ h. record { pending = h.cutter; gap = h.gap; is_running = h.is_running; left = h.left.now } };
}

#[tactic(auto, unfolding(crate::specs::End::is_end))]
fn is_end(packet: &Packet) -> bool
    ensures { result ≡ is_end packet.now }
{
    match packet.kind {
        PacketKind::Nmea => false,
        PacketKind::Ubx => packet
            .bytes
            .as_slice()
            .starts_with(&[0xB5, 0x62, 0x01, 0x61]),
    }
}

/// Whether the last packet is no NAV-EOE, behind more packets.
fn runs_on(before: bool, mut more: Vec<Packet>) -> bool
    ensures { result ≡ true → RunsOn before more.items }
{
    match more.pop() {
        Some(last) => !is_end(&last),
        None => before,
    }
}

impl Handed {
    /// Nothing was handed on.
    pub(crate) fn new(alloc: Global, gap: Option<u32>) -> Handed
        ensures { Stands result [] [] }
    {
        Handed {
            cutter: Cutter::new(alloc),
            gap,
            is_running: false,
            left: &[],
            alloc,
            watch: SplitWatch::new(),
        }
    }

    /// The gap, if a NAV-EOE may follow after it.
    pub(crate) fn due(&self) -> Option<u32>
        ensures { result ≢ None → MayEnd self.now }
    {
        if self.is_running && self.cutter.kept() == 0 {
            self.gap
        } else {
            None
        }
    }

    /// Whether this number of milliseconds is the gap or more.
    pub(crate) fn is_reached(&self, silent: u32) -> bool {
        match self.gap {
            Some(gap) => silent >= gap,
            None => false,
        }
    }

    /// The first moment that a frame has cut in two parts.
    pub(crate) fn split(&self) -> Option<Split> {
        let gap = self.gap?;
        let tod = self.watch.found()?;
        Some(Split { gap, tod })
    }

    /// Whether bytes of a frame are still to be handed on.
    pub(crate) fn has_left(&self) -> bool
        ensures none { result ≡ false → self.now.left ≡ [] }
        ensures some { result ≡ true → 0 < length self.now.left }
    {
        !self.left.is_empty()
    }

    /// Hands on what is left of a frame, as far as it fits.
    pub(crate) fn hand_on(&mut self, buf: &mut [u8]) -> usize
        requires room { 0 < length buf.old }
        requires left { 0 < length self.old.left }
        ensures some { 1 ≤ result }
        ensures within { result ≤ length buf.old }
        ensures stands { (given taken : List ℕ) → Stands self.old given taken → Stands self.new (given ++ take result buf.new) taken }
    {
        let n = self.left.len().min(buf.len());
        let (now, later) = self.left.split_at(n);
        buf[..n].copy_from_slice(now);
        self.left = later;
        n
    }

    /// A NAV-EOE follows.
    pub(crate) fn put_end(&mut self)
        requires left { self.old.left ≡ [] }
        requires may { MayEnd self.old }
        ensures left { 0 < length self.new.left }
        ensures frame { self.new.left ≡ end_of_epoch }
        ensures stands { (given taken : List ℕ) → Stands self.old given taken → Stands self.new given taken }
    {
        self.watch.next_part();
        self.is_running = false;
        self.left = &END_OF_EPOCH;
    }

    /// Cuts bytes that are handed on. If memory runs out, nothing is put in from then on.
    fn note(&mut self, piece: &[u8])
        ensures left { self.new.left ≡ self.old.left }
        ensures gap { KeepsGap self.old.gap self.new.gap }
        ensures pending { self.new.gap ≢ None → self.new.pending ≡ rest_of (self.old.pending ++ stamped no_stamp piece.now) }
        ensures running { self.new.gap ≢ None → self.new.is_running ≡ true
            → RunsOn self.old.is_running (packets_of (self.old.pending ++ stamped no_stamp piece.now)) }
    {
        if self.gap.is_none() {
            return;
        }
        match self.cutter.push(NO_STAMP, piece) {
            Ok(packets) => {
                self.watch.look(self.alloc, packets.as_slice());
                self.is_running = runs_on(self.is_running, packets);
            }
            Err(_) => self.gap = None,
        }
    }

    /// Notes bytes that are handed on.
    pub(crate) fn take(&mut self, piece: &[u8])
        requires left { self.old.left ≡ [] }
        ensures left { self.new.left ≡ [] }
        ensures stands { (given taken : List ℕ) → Stands self.old given taken → Stands self.new (given ++ piece.now) (taken ++ piece.now) }
    {
        self.note(piece);
    }
}
