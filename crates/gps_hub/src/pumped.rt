use report_book::BookFault;

/// What a look at the lanes of a device or a session did.
#[derive(Clone, Copy, Debug, PartialEq, Eq)]
pub enum Pumped {
    /// One piece was received from a lane.
    Fed,
    /// The lanes held nothing.
    Empty,
    /// Devices wait until more sessions have watched, or the door has closed or failed; `watched` have so far.
    Waiting { watched: u32 },
    /// The device has stopped, or the session is closed.
    Done,
    /// A piece was received, and the book refused it: the device was lost, or the session closed.
    Refused(BookFault),
}
