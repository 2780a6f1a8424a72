use gps_fixed::Stamp;

/// Which side of a pulse was captured.
#[derive(Clone, Copy, Debug, PartialEq, Eq)]
pub enum EdgeKind {
    Assert,
    Clear,
}

/// A captured edge of a pulse, with the capture's own sequence number (RFC 2783, section 3).
#[derive(Clone, Copy, Debug, PartialEq, Eq)]
pub struct Edge {
    pub kind: EdgeKind,
    pub seq: u32,
    pub at: Stamp,
}

/// One entry of a device's stream: a byte with the stamp of its piece, or an edge.
#[derive(Clone, Copy, Debug, PartialEq, Eq)]
pub enum Symbol {
    Byte(Stamp, u8),
    Edge(Edge),
}
