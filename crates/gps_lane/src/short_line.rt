ghost use Rattle.std.specs.Prelude.{◌≡◌, IfOk};
ghost use Rattle.gps_lane.specs.Sizes.{IsShort};

use gps_fixed::{Bytes, NoMemory};
use std::alloc::Global;
use std::marker::Model;

/// A line without its line end: at most 64 bytes.
#[derive(Debug, Drop, PartialEq, Eq)]
pub struct ShortLine {
    bytes: Bytes,
}

impl Model for ShortLine {
    ghost use Rattle.std.specs.Prelude.{List, ℕ};
    ghost use Rattle.gps_lane.specs.Sizes.{IsShort};

    ghost Value = { List ℕ };

    ghost view = { λ line. line.bytes };

    ghost invariant = { λ line. IsShort line.bytes };

    ghost inverse = { λ bytes. record { bytes = bytes } };
}

impl ShortLine {
    /// A copy of this line.
    pub fn of(alloc: Global, line: &[u8]) -> Result<ShortLine, NoMemory>
        requires { IsShort line.now }
        ensures { IfOk result (λ short. short ≡ line.now) }
    {
        let bytes = Bytes::from_slice(alloc, line)?;
        Ok(ShortLine { bytes })
    }

    pub fn as_slice(&self) -> &[u8]
        ensures bytes { result.now ≡ self.now }
        ensures size { IsShort self.now }
    {
        self.bytes.as_slice()
    }
}
