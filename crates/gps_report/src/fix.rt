use crate::{Position, Sats};
use gps_fixed::Stamp;

/// Where the receiver was and how it moved in one epoch.
#[derive(Clone, Copy, Debug, PartialEq, Eq)]
pub struct Fix {
    /// 1 no fix, 2 two and 3 three dimensions.
    pub mode: u8,
    pub time: Option<Stamp>,
    pub position: Option<Position>,
    pub alt_hae: Option<i64>,
    pub alt_msl: Option<i64>,
    pub geoid_sep: Option<i64>,
    pub track: Option<i64>,
    pub speed: Option<i64>,
    pub climb: Option<i64>,
}

/// The satellites of one epoch, and its dilutions in hundredths.
#[derive(Debug, Drop)]
pub struct Sky {
    pub time: Option<Stamp>,
    pub pdop: Option<u32>,
    pub hdop: Option<u32>,
    pub vdop: Option<u32>,
    pub sats: Sats,
}

/// A time by the satellites, and the host's stamp that belongs to it.
#[derive(Clone, Copy, Debug, PartialEq, Eq)]
pub struct Pair {
    pub reference: Stamp,
    pub host: Stamp,
}

impl Sky {
    ghost use Rattle.std.specs.Prelude.{◌≡◌, IfOk};

    pub fn copy(&self) -> Result<Sky, gps_fixed::NoMemory>
        ensures { IfOk result (λ sky. sky ≡ self.now) }
    {
        let sats = self.sats.copy()?;
        Ok(Sky {
            time: self.time,
            pdop: self.pdop,
            hdop: self.hdop,
            vdop: self.vdop,
            sats,
        })
    }
}
