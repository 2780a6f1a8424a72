ghost use Rattle.std.specs.Prelude.{◌≡◌, ◌+◌, ◌*◌, ◌≤◌, ◌++◌, [], List, IfOk, OnOk, OnErr, length, map};
ghost use Rattle.packet_cut.specs.Packets.{Stamped, most_pending, stamped, packets_of, rest_of, placed_packet};
ghost use Rattle.packet_cut.specs.Standing.{StandsFor, Gains, IsCut, Fits, applied};

use crate::change::CutterChange;
use crate::cut::{PacketCut, cut_behind, place_behind};
use crate::kept::Kept;
use crate::placed::PlacedCut;
use gps_fixed::{NoMemory, Stamp};
use gps_report::Packet;
use std::alloc::Global;
use std::marker::Model;

/// Cuts bytes that come piece by piece. It keeps the bytes that are pending, each with its stamp, and nothing else.
#[derive(Drop)]
pub struct Cutter {
    alloc: Global,
    kept: Kept,
}

impl Model for Cutter {
    ghost use Rattle.std.specs.Prelude.{List, ◌≤◌, length};
    ghost use Rattle.packet_cut.specs.Packets.{Stamped, most_pending};

    ghost Value = { List Stamped };

    ghost view = { λ c. c.kept };

    ghost invariant = { λ c. length c.kept ≤ most_pending };
}

impl Cutter {
    /// A cutter that was given no bytes yet. Takes no memory.
    pub fn new(alloc: Global) -> Cutter
        ensures empty { result ≡ [] }
        ensures stands { StandsFor result [] }
    {
        Cutter {
            alloc,
            kept: Kept::new(alloc),
        }
    }

    /// The packets that a piece completes, and the change that `put` makes of it. The cutter stays as it is. Each packet
    /// has at least 6 of the bytes that are pending, at most 2,055, and those of the piece.
    pub fn cut(&self, at: Stamp, piece: &[u8]) -> Result<PacketCut, NoMemory>
        ensures cut { IfOk result (λ cut. IsCut self.now at piece.now cut.packets.items cut.change) }
        ensures gains { IfOk result (λ cut. (stream : List Stamped) → StandsFor self.now stream
            → Gains stream (stamped at piece.now) cut.packets.items
            × StandsFor (applied cut.change self.now) (stream ++ stamped at piece.now)) }
        ensures few { IfOk result (λ cut. 6 * length cut.packets.items ≤ length self.now + length piece.now) }
        ensures most { length self.now ≤ most_pending }
    {
        cut_behind(self.alloc, &self.kept, at, piece)
    }

    /// The packets that a piece completes, by their places, so that none is copied; and the change that `put` makes of it. The cutter stays as it is.
    pub fn place(&self, at: Stamp, piece: &[u8]) -> Result<PlacedCut, NoMemory>
        ensures { IfOk result (λ cut. IsCut self.now at piece.now (map (placed_packet cut.bytes.items) cut.placed.items) cut.change) }
    {
        place_behind(self.alloc, &self.kept, at, piece)
    }

    /// Makes the change of a cut. Takes no memory. The cutter must be as it was at the cut.
    pub fn put(&mut self, change: CutterChange)
        requires { Fits change self.old }
        ensures { self.new ≡ applied change self.old }
    {
        let CutterChange {
            anew,
            gone,
            at,
            more,
            room,
        } = change;
        if anew {
            self.kept = Kept::of_piece(at, more, room);
        } else {
            self.kept.shift(gone, at, more.as_slice());
        }
    }

    /// The packets that a piece completes, each with the stamp of its first byte and at least 6 of the bytes that were
    /// pending and those of the piece. A refusal leaves the cutter as it was.
    pub fn push(&mut self, at: Stamp, piece: &[u8]) -> Result<Vec<Packet>, NoMemory>
        ensures gains { IfOk result (λ packets. (stream : List Stamped) → StandsFor self.old stream
            → Gains stream (stamped at piece.now) packets.items
            × StandsFor self.new (stream ++ stamped at piece.now)) }
        ensures packets { IfOk result (λ packets. packets.items ≡ packets_of (self.old ++ stamped at piece.now)) }
        ensures rest { OnOk result (self.new ≡ rest_of (self.old ++ stamped at piece.now)) }
        ensures few { IfOk result (λ packets. 6 * length packets.items ≤ length self.old + length piece.now) }
        ensures err { OnErr result (self.new ≡ self.old) }
    {
        let PacketCut { packets, change } = self.cut(at, piece)?;
        self.put(change);
        Ok(packets)
    }

    /// How many bytes are pending, at most 2,055. Takes no memory.
    pub fn kept(&self) -> u32
        ensures len { result ≡ length self.now }
        ensures rest { (stream : List Stamped) → StandsFor self.now stream → result ≡ length (rest_of stream) }
        ensures most { result ≤ most_pending }
    {
        self.kept.bytes().len() as u32
    }

    /// A cutter that stands for the same bytes.
    pub fn copy(&self) -> Result<Cutter, NoMemory>
        ensures { IfOk result (λ copy. copy ≡ self.now) }
    {
        let kept = self.kept.copy(self.alloc)?;
        Ok(Cutter {
            alloc: self.alloc,
            kept,
        })
    }
}
