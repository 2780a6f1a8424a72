ghost use Rattle.std.specs.Prelude.{◌≡◌, IfOk};
ghost use Rattle.gps_lane.specs.Sizes.{IsChunk};

use gps_fixed::{Bytes, NoMemory};
use std::alloc::Global;
use std::marker::Model;

/// The bytes that one read gave: 1 to 512.
#[derive(Debug, Drop, PartialEq, Eq)]
pub struct Chunk {
    bytes: Bytes,
}

impl Model for Chunk {
    ghost use Rattle.std.specs.Prelude.{List, ℕ};
    ghost use Rattle.gps_lane.specs.Sizes.{IsChunk};

    ghost Value = { List ℕ };

    ghost view = { λ chunk. chunk.bytes };

    ghost invariant = { λ chunk. IsChunk chunk.bytes };

    ghost inverse = { λ bytes. record { bytes = bytes } };
}

impl Chunk {
    /// A copy of these bytes.
    pub fn of(alloc: Global, bytes: &[u8]) -> Result<Chunk, NoMemory>
        requires { IsChunk bytes.now }
        ensures { IfOk result (λ chunk. chunk ≡ bytes.now) }
    {
        let bytes = Bytes::from_slice(alloc, bytes)?;
        Ok(Chunk { bytes })
    }

    pub fn as_slice(&self) -> &[u8]
        ensures bytes { result.now ≡ self.now }
        ensures size { IsChunk self.now }
    {
        self.bytes.as_slice()
    }
}
