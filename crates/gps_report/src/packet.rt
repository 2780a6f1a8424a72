use gps_fixed::{Bytes, Stamp};

/// The protocol of a packet.
#[derive(Clone, Copy, Debug, PartialEq, Eq)]
pub enum PacketKind {
    /// An NMEA 0183 sentence, from `$` to its line feed.
    Nmea,
    /// A u-blox frame, from B5 62 to CK_B.
    Ubx,
}

/// A sentence or a frame as it came, with the stamp of its first byte.
#[derive(Debug, Drop, PartialEq, Eq)]
pub struct Packet {
    pub kind: PacketKind,
    pub at: Stamp,
    pub bytes: Bytes,
}
