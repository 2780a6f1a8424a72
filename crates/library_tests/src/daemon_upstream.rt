//! `serve` over another daemon in memory.

ghost use Rattle.std.specs.Prelude.{IfOk};
ghost use Rattle.gps_outside.specs.Links.{IsUnread};
ghost use Rattle.gps_upstream.specs.Upward.{content_of, faults_of};
ghost use Rattle.gps_world.specs.MemoryWorlds.{HaveSources};

use crate::daemon::{HISTORY, UNIT, ended_so, plan_of, serve};
use crate::texts::{RMC, joined};
use gps_fixed::{Bytes, NoMemory};
use gps_outside::{AtEnd, MemorySink, MemorySource};
use gps_upstream::Upstream;
use gps_world::Place;
use std::alloc::Global;
use std::test::Fail;

/// The lines with which a daemon answers the request for packets.
const HEAD: &[u8] =
    b"{\"class\":\"VERSION\",\"release\":\"gpsrelay-1\",\"rev\":\"1\",\"proto_major\":3,\"proto_minor\":1}\r\n\
{\"class\":\"DEVICES\",\"devices\":[{\"class\":\"DEVICE\",\"path\":\"g\"}]}\r\n\
{\"class\":\"WATCH\",\"enable\":true,\"json\":false,\"nmea\":false,\"raw\":2,\"pps\":false}\r\n";

/// A NAV-EOE frame.
const FRAME: &[u8] = b"\xb5b\x01a\x04\x00\x00\x00\x00\x00f\xc7";

type Daemon = Upstream<MemorySource, MemorySink>;

fn daemon_place(alloc: Global) -> Result<Place, NoMemory> {
    Ok(Place::Gpsd(Bytes::from_slice(alloc, b"h:1")?))
}

/// The daemon at `h:1`, which answers, sends a frame and a sentence, and ends.
fn places_of_daemon(alloc: Global) -> Result<Vec<(Place, Daemon)>, NoMemory>
    ensures { IfOk result (λ places. HaveSources (λ source. IsUnread (content_of source) (faults_of source) source.quiets) places.items) }
{
    let sent = joined(alloc, &[HEAD, FRAME, RMC])?;
    let source = MemorySource::new(sent, Vec::new(alloc), AtEnd::End);
    let sink = MemorySink::new(alloc, Vec::new(alloc), 128)?;
    let mut places = Vec::new(alloc);
    places.push((daemon_place(alloc)?, Upstream::new(source, sink, None)))?;
    Ok(places)
}

#[test]
fn another_daemon_is_served_as_a_device(rt: HostRuntime) -> Result<(), Fail> {
    let alloc = rt.alloc();
    let plan = plan_of(alloc, daemon_place(alloc)?, 0, HISTORY)?;
    let places = places_of_daemon(alloc)?;
    let daemon = serve(rt, alloc, plan, places, Vec::new(alloc));
    assert!(rt; ended_so(alloc, &daemon, 0, &[UNIT], &[])?);
    Ok(())
}
