use gps_fixed::{Bytes, Stamp};
use gps_report::{Edge, Name};

/// What a line of a script asks for. Devices, units, sessions and monitors are named by their numbers, as written.
#[derive(Debug, Drop, PartialEq, Eq)]
pub enum ScriptEvent {
    /// The line is empty, or begins with `#`.
    Nothing,
    /// The next device has this name.
    Device(Name),
    /// A unit's samples are numbered from the one after this number on, at most 1,073,741,823.
    Segment {
        unit: u64,
        first: u32,
    },
    /// A device gets these 1 to 512 bytes, all of one stamp.
    Feed {
        device: u64,
        at: Stamp,
        bytes: Bytes,
    },
    Edge {
        device: u64,
        edge: Edge,
    },
    /// A device ends.
    End(u64),
    /// A device is lost.
    Lose(u64),
    /// A session opens; its outlet keeps 1 to 65,536 items, or as many as others do.
    Open {
        session: u64,
        cap: Option<u32>,
    },
    /// A session's client sends these 1 to 512 bytes.
    Input {
        session: u64,
        bytes: Bytes,
    },
    /// A session's client hangs up.
    Hang(u64),
    /// A session's client takes at most 1 to 65,536 items.
    Take {
        session: u64,
        most: u32,
    },
    /// A monitor of a unit.
    Monitor {
        monitor: u64,
        unit: u64,
    },
    /// A unit's publisher makes 1 to 1,000 steps.
    Store {
        unit: u64,
        steps: u32,
    },
    /// A monitor makes 1 to 1,000 steps.
    Load {
        monitor: u64,
        steps: u32,
    },
}
