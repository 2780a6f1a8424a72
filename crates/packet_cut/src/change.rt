ghost use Rattle.std.specs.Prelude.{◌≡◌, ◌≤◌, IfOk, true, false, vec_capacity};
ghost use Rattle.packet_cut.specs.Packets.{stamped};

use crate::kept::{Run, copy_of};
use gps_fixed::{NoMemory, Stamp};
use std::alloc::Global;
use std::marker::Model;

/// The most bytes that are ever pending: the longest frame but its last byte.
const MOST_KEPT: usize = 2055;

/// How the bytes that a cutter keeps change: some are removed at the front and others added at the end, or all are new. Those that are added
/// are of one piece, so they have one stamp.
#[derive(Drop)]
pub struct CutterChange {
    pub(crate) anew: bool,
    pub(crate) gone: usize,
    pub(crate) at: Stamp,
    pub(crate) more: Vec<u8>,
    /// No runs, but room for those of all bytes that may ever be pending, if all are new. What is not used of it is never touched.
    pub(crate) room: Vec<Run>,
}

impl Model for CutterChange {
    ghost use Rattle.std.specs.Prelude.{◌≡◌, [], true, length, vec_capacity};
    ghost use Rattle.packet_cut.specs.Packets.{stamped};
    ghost use Rattle.packet_cut.specs.Runs.{HasRoom};
    ghost use Rattle.packet_cut.specs.Standing.{Shift};

    ghost Value = { Shift };

    ghost view = { λ c. record { anew = c.anew; gone = c.gone; more = stamped c.at c.more.items } };

    // New bytes are given room for all that may ever be pending, so that none is needed later.
    ghost invariant = { λ c. (c.room.items ≡ []) × (c.anew ≡ true → HasRoom (length c.more.items) (vec_capacity c.more) (vec_capacity c.room)) };
}

impl CutterChange {
    /// The bytes of a piece are the only ones.
    pub(crate) fn anew(alloc: Global, at: Stamp, piece: &[u8]) -> Result<CutterChange, NoMemory>
        ensures { IfOk result (λ change. change ≡ record { anew = true; gone = 0; more = stamped at piece.now }) }
    {
        let room = if piece.is_empty() { 0 } else { MOST_KEPT };
        let more = piece_in(alloc, room, piece)?;
        Ok(CutterChange {
            anew: true,
            gone: 0,
            at,
            more,
            room: Vec::with_capacity(alloc, room)?,
        })
    }

    /// Removes this number of bytes, and adds those of a piece.
    pub(crate) fn onward(
        alloc: Global,
        gone: usize,
        at: Stamp,
        piece: &[u8],
    ) -> Result<CutterChange, NoMemory>
        ensures { IfOk result (λ change. change ≡ record { anew = false; gone = gone; more = stamped at piece.now }) }
    {
        let more = piece_in(alloc, piece.len(), piece)?;
        Ok(CutterChange {
            anew: false,
            gone,
            at,
            more,
            room: Vec::new(alloc),
        })
    }

    /// The same change once more.
    pub fn copy(&self, alloc: Global) -> Result<CutterChange, NoMemory>
        ensures { IfOk result (λ change. change ≡ self.now) }
    {
        let more = copy_of(alloc, &self.more)?;
        let room = copy_of(alloc, &self.room)?;
        Ok(CutterChange {
            anew: self.anew,
            gone: self.gone,
            at: self.at,
            more,
            room,
        })
    }
}

/// The bytes of a piece, in a vector with room for at least the given number.
pub(crate) fn piece_in(alloc: Global, room: usize, piece: &[u8]) -> Result<Vec<u8>, NoMemory>
    ensures items { IfOk result (λ all. all.items ≡ piece.now) }
    ensures room { IfOk result (λ all. room ≤ vec_capacity all) }
{
    let mut all = Vec::with_capacity(alloc, room.max(piece.len()))?;
    all.extend_from_slice(piece)?;
    Ok(all)
}
