use gps_report::Policy;

/// Why a session is closed.
#[derive(Clone, Copy, Debug, PartialEq, Eq)]
pub enum Close {
    /// The far end was closed.
    HungUp,
    /// The far end's input could not be read.
    ReadFault,
    /// The daemon has ended.
    DaemonEnd,
    /// It sent more requests than are answered.
    TooManyRequests,
    /// Its outlet was full.
    Overrun,
    /// Out of memory.
    NoMemory,
}

/// From this place of its generation's history on, this policy holds.
#[derive(Debug, Drop, PartialEq, Eq)]
pub struct Mark {
    pub place: u64,
    pub policy: Policy,
}
