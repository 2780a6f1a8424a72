ghost use Rattle.std.specs.Prelude.{◌≡◌, ◌≤◌, ◌<◌, ◌+◌, ◌++◌, ℕ, List, [], IfOk, IsTrue, length, map, drop};
ghost use Rattle.packet_cut.specs.Heads.{head_of};
ghost use Rattle.packet_cut.specs.Packets.{bytes_of, stamped, packets_of, rest_of, placed_packet};
ghost use Rattle.packet_cut.specs.Standing.{IsCut, IsFound, stream_of};

use crate::Head;
use crate::change::{CutterChange, piece_in};
use crate::kept::Kept;
use crate::next::{Next, next_from};
use crate::placed::{Placed, PlacedCut, copies_of};
use gps_fixed::{NoMemory, Stamp};
use gps_report::Packet;
use std::alloc::Global;
use ubx_frame::FrameFinder;

/// Few packets are shorter; so there is room for all of a piece at once, mostly.
const USUAL_PACKET: usize = 48;

/// What a piece of bytes completes, and what a cutter keeps then.
#[derive(Drop)]
pub struct PacketCut {
    /// The packets, in order.
    pub packets: Vec<Packet>,
    /// For `Cutter::put`.
    pub change: CutterChange,
}

/// The packets of a list of bytes, and the place of its rest. The first bytes are kept ones, which have their own stamps.
#[derive(Drop)]
struct Places {
    placed: Vec<Placed>,
    rest: usize,
}

/// All packets, each with the stamp of its first byte.
#[tactic(auto, using(crate::proofs::Steps::cut_begin))]
fn places_in(alloc: Global, kept: &Kept, at: Stamp, bytes: &[u8]) -> Result<Places, NoMemory>
    requires { bytes.now ≡ bytes_of (stream_of kept.now at bytes.now) }
    ensures { IfOk result (λ found. IsFound (stream_of kept.now at bytes.now) (map (placed_packet bytes.now) found.placed.items) found.rest) }
{
    let mut placed = Vec::with_capacity(alloc, bytes.len() / USUAL_PACKET)?;
    let mut frames = FrameFinder::new(bytes);
    let mut place = 0usize;
    'packets: loop {
        match next_from(&mut frames, bytes, place) {
            Next::Packet(found) => {
                placed.push(Placed {
                    kind: found.kind,
                    at: kept.stamp_at(found.start, at),
                    start: found.start,
                    len: found.len,
                })?;
                place = found.start + found.len;
            }
            Next::Rest(rest) => return Ok(Places { placed, rest }),
        }
    }
}

/// The cut of a piece that follows what was kept.
pub(crate) fn cut_behind(
    alloc: Global,
    kept: &Kept,
    at: Stamp,
    piece: &[u8],
) -> Result<PacketCut, NoMemory>
    ensures { IfOk result (λ cut. IsCut kept.now at piece.now cut.packets.items cut.change) }
{
    let PlacedCut {
        bytes,
        placed,
        change,
    } = place_behind(alloc, kept, at, piece)?;
    let packets = copies_of(alloc, bytes.as_slice(), placed.as_slice())?;
    Ok(PacketCut { packets, change })
}

/// The same, by places.
pub(crate) fn place_behind(
    alloc: Global,
    kept: &Kept,
    at: Stamp,
    piece: &[u8],
) -> Result<PlacedCut, NoMemory>
    ensures { IfOk result (λ cut. IsCut kept.now at piece.now (map (placed_packet cut.bytes.items) cut.placed.items) cut.change) }
{
    match kept.bytes() {
        [] => place_piece(alloc, kept, at, piece),
        bytes if is_waiting(bytes, piece.len()) => place_nothing(alloc, kept, at, piece),
        _ => place_joined(alloc, kept, at, piece),
    }
}

/// The cut if nothing was kept.
fn place_piece(alloc: Global, kept: &Kept, at: Stamp, piece: &[u8]) -> Result<PlacedCut, NoMemory>
    requires { length kept.now ≡ 0 }
    ensures { IfOk result (λ cut. IsCut kept.now at piece.now (map (placed_packet cut.bytes.items) cut.placed.items) cut.change) }
{
    let bytes = piece_in(alloc, piece.len(), piece)?;
    let Places { placed, rest } = places_in(alloc, kept, at, bytes.as_slice())?;
    let change = CutterChange::anew(alloc, at, behind(piece, rest))?;
    Ok(PlacedCut {
        bytes,
        placed,
        change,
    })
}

/// The cut if a frame still waits for more than the piece.
fn place_nothing(alloc: Global, kept: &Kept, at: Stamp, piece: &[u8]) -> Result<PlacedCut, NoMemory>
    requires some { 0 < length kept.now }
    requires pending { head_of (bytes_of kept.now ++ piece.now) ≡ Head.Pending }
    ensures { IfOk result (λ cut. IsCut kept.now at piece.now (map (placed_packet cut.bytes.items) cut.placed.items) cut.change) }
{
    let change = CutterChange::onward(alloc, 0, at, piece)?;
    Ok(PlacedCut {
        bytes: Vec::new(alloc),
        placed: Vec::new(alloc),
        change,
    })
}

/// The cut of the kept bytes and the piece as one list.
fn place_joined(alloc: Global, kept: &Kept, at: Stamp, piece: &[u8]) -> Result<PlacedCut, NoMemory>
    requires { 0 < length kept.now }
    ensures { IfOk result (λ cut. IsCut kept.now at piece.now (map (placed_packet cut.bytes.items) cut.placed.items) cut.change) }
{
    let bytes = joined(alloc, kept.bytes(), piece)?;
    let Places { placed, rest } = places_in(alloc, kept, at, bytes.as_slice())?;
    let gone = rest.min(kept.bytes().len());
    let change = CutterChange::onward(alloc, gone, at, behind(piece, rest - gone))?;
    Ok(PlacedCut {
        bytes,
        placed,
        change,
    })
}

/// The kept bytes and those of the piece.
fn joined(alloc: Global, kept: &[u8], piece: &[u8]) -> Result<Vec<u8>, NoMemory>
    ensures { IfOk result (λ all. all.items ≡ kept.now ++ piece.now) }
{
    let mut all = Vec::with_capacity(alloc, kept.len().saturating_add(piece.len()))?;
    all.extend_from_slice(kept)?;
    all.extend_from_slice(piece)?;
    Ok(all)
}

/// Whether the kept bytes begin a frame that the given number of further bytes does not end.
fn is_waiting(kept: &[u8], more: usize) -> bool
    ensures { IsTrue result → (piece : List ℕ) → length piece ≡ more → head_of (kept.now ++ piece) ≡ Head.Pending }
{
    match kept {
        [first, second, _, _, low, high, ..] if *first == 0xB5 && *second == 0x62 => {
            let len = usize::from(*low) + 256 * usize::from(*high);
            len <= 2048 && more < (len + 8).saturating_sub(kept.len())
        }
        _ => false,
    }
}

fn behind(piece: &[u8], place: usize) -> &[u8]
    requires { place ≤ length piece.now }
    ensures { result.now ≡ drop place piece.now }
{
    &piece[place..]
}
