//! Where a source with a gap puts a NAV-EOE, with buffers that it fits into, and with smaller ones.

use cycle_gap::CycleSource;
use gps_outside::{AtEnd, MemorySource, ReadStep, Source};
use std::alloc::{AllocError, Global};
use std::test::Fail;

/// NAV-EOE with a time of week of 0, by the u-blox interface description.
const END: [u8; 12] = [0xB5, 0x62, 1, 0x61, 4, 0, 0, 0, 0, 0, 0x66, 0xC7];

/// What such a source hands on of these bytes, up to its first quiet read. A buffer has room for 1 to 13 bytes.
fn handed_on(alloc: Global, bytes: &[u8], room: usize) -> Result<Vec<u8>, AllocError> {
    let held = MemorySource::new(bytes.to_vec(alloc)?, Vec::new(alloc), AtEnd::Quiet);
    let mut source = CycleSource::new(alloc, held, Some(100));
    let mut buf = [0u8; 13];
    let room = room.clamp(1, 13);
    let mut found = Vec::new(alloc);
    for _ in 0..100u32 {
        match source.read(&mut buf[..room]) {
            ReadStep::Got(n) => found.extend_from_slice(&buf[..n])?,
            ReadStep::End | ReadStep::Quiet | ReadStep::Failed => break,
        }
    }
    Ok(found)
}

#[test]
fn an_end_stands_behind_a_whole_packet_alone(rt: HostRuntime) -> Result<(), Fail> {
    for room in [1, 5, 12, 13] {
        let mut wanted = b"$A*41\r\n".to_vec(rt.alloc())?;
        wanted.extend_from_slice(&END)?;
        assert_eq!(rt; handed_on(rt.alloc(), b"$A*41\r\n", room)?, wanted);
        for bytes in [b"$A*4".as_slice(), b"junk\r\n".as_slice(), END.as_slice()] {
            assert_eq!(rt; handed_on(rt.alloc(), bytes, room)?.as_slice(), bytes);
        }
    }
    Ok(())
}
