use gps_report::Edge;
use std::collections::LinkedList;

/// What the sources of a device hold, each if that is modelled. It is used in proofs only.
pub struct DeviceHeld {
    /// The device's name.
    pub name: LinkedList<u8>,
    /// The bytes that its source holds.
    pub bytes: Option<LinkedList<u8>>,
    /// The edges that its source of edges holds; the empty list if it has no such source.
    pub edges: Option<LinkedList<Edge>>,
}

/// What may go through a lane is judged by this. It is used in proofs only.
pub struct Subject {
    /// What its own source holds, if that is modelled: that of a device, or that of a client, which sends it requests.
    pub source: Option<LinkedList<u8>>,
    /// Of a lane to a client: the devices of whose reports the client is told.
    pub devices: LinkedList<DeviceHeld>,
}
