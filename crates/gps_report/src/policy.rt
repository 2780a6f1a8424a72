use crate::Name;
use gps_fixed::NoMemory;

/// How a report is written for a session.
#[derive(Clone, Copy, Debug, PartialEq, Eq)]
pub enum Form {
    /// One JSON line.
    Json,
    /// A sentence as it came.
    Text,
    /// A frame as two hexadecimal digits a byte, and CR LF.
    Hex,
    /// A frame as it came.
    Verbatim,
}

/// What a session watches, after the WATCH object of gpsd_json(5).
#[derive(Debug, Drop, PartialEq, Eq)]
pub struct Policy {
    pub enable: bool,
    pub json: bool,
    pub nmea: bool,
    /// 0 nothing, 1 frames in hexadecimal, 2 frames as they came.
    pub raw: u8,
    pub pps: bool,
    /// The one device that is watched; without one, all are.
    pub device: Option<Name>,
}

/// Why a request is answered by an ERROR line.
#[derive(Clone, Copy, Debug, PartialEq, Eq)]
pub enum CommandFault {
    Unknown,
    BadJson,
    BadWatch,
    TooLong,
}

impl Policy {
    ghost use Rattle.std.specs.Prelude.{◌≡◌, IfOk};

    pub fn copy(&self) -> Result<Policy, NoMemory>
        ensures { IfOk result (λ policy. policy ≡ self.now) }
    {
        let device = match &self.device {
            Some(name) => Some(name.copy()?),
            None => None,
        };
        Ok(Policy {
            enable: self.enable,
            json: self.json,
            nmea: self.nmea,
            raw: self.raw,
            pps: self.pps,
            device,
        })
    }
}
