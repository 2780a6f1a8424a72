ghost use Rattle.std.specs.Prelude.{◌≡◌, IfOk, map, take, drop};
ghost use Rattle.packet_cut.specs.Packets.{placed_packet};

use crate::change::CutterChange;
use gps_fixed::{Bytes, NoMemory, Stamp};
use gps_report::{Packet, PacketKind};
use std::alloc::Global;

/// A packet by its place in a list of bytes, with the stamp of its first byte.
#[derive(Clone, Copy, Debug, PartialEq, Eq)]
pub struct Placed {
    pub kind: PacketKind,
    pub at: Stamp,
    /// How many bytes come before it.
    pub start: usize,
    /// How many bytes it has.
    pub len: usize,
}

/// What a piece of bytes completes, as places in the bytes that were pending and those of the piece: no packet is copied.
#[derive(Drop)]
pub struct PlacedCut {
    pub bytes: Vec<u8>,
    /// The packets, in order.
    pub placed: Vec<Placed>,
    /// For `Cutter::put`.
    pub change: CutterChange,
}

impl Placed {
    /// The bytes of the packet.
    pub fn part<'a>(&self, bytes: &'a [u8]) -> &'a [u8]
        ensures { result.now ≡ take self.now.len (drop self.now.start bytes.now) }
    {
        let (_, behind) = bytes.split_at(self.start.min(bytes.len()));
        let (part, _) = behind.split_at(self.len.min(behind.len()));
        part
    }
}

fn copy_of(alloc: Global, bytes: &[u8], placed: &Placed) -> Result<Packet, NoMemory>
    ensures { IfOk result (λ packet. packet ≡ placed_packet bytes.now placed.now) }
{
    let text = Bytes::from_slice(alloc, placed.part(bytes))?;
    Ok(Packet {
        kind: placed.kind,
        at: placed.at,
        bytes: text,
    })
}

/// The packets at these places.
pub(crate) fn copies_of(
    alloc: Global,
    bytes: &[u8],
    placed: &[Placed],
) -> Result<Vec<Packet>, NoMemory>
    ensures { IfOk result (λ packets. packets.items ≡ map (placed_packet bytes.now) placed.now) }
{
    let mut packets = Vec::with_capacity(alloc, placed.len())?;
    'placed: for each in placed {
        let packet = copy_of(alloc, bytes, each)?;
        packets.push(packet)?;
    }
    Ok(packets)
}
