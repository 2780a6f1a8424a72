ghost use Rattle.std.specs.Prelude.{◌≡◌, IfOk};
ghost use Rattle.packet_cut.specs.Packets.{found_of};

use crate::next::{Next, next_from};
use gps_fixed::NoMemory;
use gps_report::PacketKind;
use std::alloc::Global;
use ubx_frame::FrameFinder;

/// A packet by its place in a list of bytes.
#[derive(Clone, Copy, Debug, PartialEq, Eq)]
pub struct Found {
    pub kind: PacketKind,
    /// How many bytes come before it.
    pub start: usize,
    /// How many bytes it has.
    pub len: usize,
}

/// All packets of a list of bytes, in order. What is pending at its end gives none.
#[tactic(auto, using(crate::proofs::Steps::found_begin, crate::proofs::Steps::found_step, crate::proofs::Steps::found_end))]
pub fn cut_all(alloc: Global, bytes: &[u8]) -> Result<Vec<Found>, NoMemory>
    ensures { IfOk result (λ found. found.items ≡ found_of bytes.now) }
{
    let mut found = Vec::new(alloc);
    let mut frames = FrameFinder::new(bytes);
    let mut place = 0usize;
    'packets: loop {
        match next_from(&mut frames, bytes, place) {
            Next::Packet(packet) => {
                found.push(packet)?;
                place = packet.start + packet.len;
            }
            Next::Rest(_) => return Ok(found),
        }
    }
}
