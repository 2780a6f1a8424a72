use crate::{Ids, Sats};
use std::alloc::Global;

/// What a note was read from.
#[derive(Clone, Copy, Debug, PartialEq, Eq)]
pub enum NoteKind {
    Gga,
    Rmc,
    Gll,
    Gsa,
    Gsv,
    Vtg,
    Zda,
    /// UBX-NAV-PVT.
    Pvt,
    /// UBX-NAV-SAT.
    Sat,
    /// UBX-NAV-DOP.
    Dop,
    /// UBX-NAV-EOE, the end of an epoch.
    Eoe,
    /// A sentence or frame that is handed on and not read.
    Other,
}

/// What distinguishes a note's epoch from the next: the time of day in nanoseconds, or u-blox's `iTOW`.
#[derive(Clone, Copy, Debug, PartialEq, Eq)]
pub enum Tag {
    Tod(u64),
    Itow(u32),
}

/// Latitude and longitude in nanodegrees, north and east above zero.
#[derive(Clone, Copy, Debug, PartialEq, Eq)]
pub struct Position {
    pub lat: i64,
    pub lon: i64,
}

/// What one sentence or frame says. An unreadable or missing field is an absent quantity.
#[derive(Debug, Drop)]
pub struct Note {
    pub kind: NoteKind,
    pub tag: Option<Tag>,
    /// Nanoseconds of the day, below 86,400 * 10^9.
    pub tod: Option<u64>,
    /// Days since 1970-01-01.
    pub day: Option<i32>,
    /// Whether the receiver calls its fix valid.
    pub status: Option<bool>,
    /// 1 no fix, 2 two and 3 three dimensions.
    pub dim: Option<u8>,
    pub position: Option<Position>,
    /// Height above the ellipsoid, in millimetres.
    pub alt_hae: Option<i64>,
    /// Height above mean sea level, in millimetres.
    pub alt_msl: Option<i64>,
    /// The geoid above the ellipsoid, in millimetres.
    pub geoid_sep: Option<i64>,
    /// Course over ground from true north, in 1e-4 degree.
    pub track: Option<i64>,
    /// Speed over ground, in millimetres a second.
    pub speed: Option<i64>,
    /// Upward speed, in millimetres a second.
    pub climb: Option<i64>,
    /// Dilutions of precision, in hundredths.
    pub pdop: Option<u32>,
    pub hdop: Option<u32>,
    pub vdop: Option<u32>,
    pub used: Ids,
    pub sats: Sats,
    /// The system that a GSA speaks of, in `gnssId`'s counting.
    pub system: Option<u8>,
}

impl Note {
    ghost use Rattle.std.specs.Prelude.{◌≡◌};
    ghost use Rattle.gps_report.specs.Note.{empty_note};

    /// A note of a kind, with nothing given. Takes no memory.
    pub fn empty(alloc: Global, kind: NoteKind) -> Note
        ensures { result ≡ empty_note kind }
    {
        Note {
            kind,
            tag: None,
            tod: None,
            day: None,
            status: None,
            dim: None,
            position: None,
            alt_hae: None,
            alt_msl: None,
            geoid_sep: None,
            track: None,
            speed: None,
            climb: None,
            pdop: None,
            hdop: None,
            vdop: None,
            used: Ids::new(alloc),
            sats: Sats::new(alloc),
            system: None,
        }
    }
}
