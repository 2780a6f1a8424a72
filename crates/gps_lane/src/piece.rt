ghost use Rattle.std.specs.Prelude.{◌≡◌, IfOk};
ghost use Rattle.gps_lane.specs.declared.piece.Piece.{Piece};
ghost use Rattle.gps_lane.specs.Sizes.{IsChunk, IsShort};

use crate::due::Due;
use crate::{Chunk, ShortLine};
use gps_fixed::{NoMemory, Stamp};
use std::alloc::Global;

/// How a source ended.
#[derive(Clone, Copy, Debug, PartialEq, Eq)]
pub enum Ending {
    /// Nothing was left in it.
    End,
    /// It failed.
    Failed,
    /// Its reader was out of memory.
    NoMemory,
}

/// What a reader puts into its lane.
#[derive(Debug, Drop, PartialEq, Eq)]
pub enum Piece {
    /// Bytes of a device, and the time when they came.
    Bytes { at: Stamp, bytes: Chunk },
    /// A line of pulse edges.
    Line(ShortLine),
    /// Bytes of a session's requests.
    Input(Chunk),
    /// The last piece: how the source ended.
    Last(Ending),
}

/// What a reader puts into its lane is a prefix of what its source holds.
impl Due for Piece {
    ghost use Rattle.gps_lane.specs.Held.{AreDue};

    ghost due = { AreDue };
}

impl Piece {
    /// A copy of bytes of a device.
    pub fn bytes(alloc: Global, at: Stamp, bytes: &[u8]) -> Result<Piece, NoMemory>
        requires { IsChunk bytes.now }
        ensures { IfOk result (λ piece. piece ≡ Piece.Bytes at bytes.now) }
    {
        let bytes = Chunk::of(alloc, bytes)?;
        Ok(Piece::Bytes { at, bytes })
    }

    /// A copy of a line of pulse edges.
    pub fn line(alloc: Global, line: &[u8]) -> Result<Piece, NoMemory>
        requires { IsShort line.now }
        ensures { IfOk result (λ piece. piece ≡ Piece.Line line.now) }
    {
        let line = ShortLine::of(alloc, line)?;
        Ok(Piece::Line(line))
    }

    /// A copy of bytes of a session's requests.
    pub fn input(alloc: Global, bytes: &[u8]) -> Result<Piece, NoMemory>
        requires { IsChunk bytes.now }
        ensures { IfOk result (λ piece. piece ≡ Piece.Input bytes.now) }
    {
        let bytes = Chunk::of(alloc, bytes)?;
        Ok(Piece::Input(bytes))
    }
}
