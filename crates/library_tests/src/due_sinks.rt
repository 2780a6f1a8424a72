//! `serve` over a sink in memory that allows just what its client is due. Sinks that allow anything make the premise `writes` of `serve` empty.

ghost use Rattle.std.specs.Prelude.{◌≡◌, IfOk, Some};
ghost use Rattle.gps_outside.specs.Links.{IsUnread};
ghost use Rattle.gps_serve.specs.Told.{devices_in};
ghost use Rattle.gps_world.specs.MemoryWorlds.{HaveSources, IsUnusedGate, bytes_at};
ghost use Rattle.serve_end.specs.Plans.{IsPlan};

use crate::daemon::{HISTORY, WATCH_JSON, WHOLE, file, place_x, plan_of};
use crate::texts::{FIVE, joined};
use gps_fixed::NoMemory;
use gps_outside::{AtEnd, ClientSink, DoorPlan, MemoryClock, MemoryDoor, MemorySource, WriteStep};
use gps_serve::Plan;
use gps_world::{MemoryWorld, Place};
use std::alloc::Global;
use std::marker::{Brand, PhantomData};
use std::sync::Wait;
use std::test::Fail;
use std::thread::Threads;

/// What the sources of the devices hold. Each call picks it.
trait Devices {
    ghost use Rattle.std.specs.Prelude.{List};
    ghost use Rattle.session_core.specs.declared.subject.DeviceHeld.{DeviceHeld};

    ghost devices: { List DeviceHeld };
}

impl Devices for Brand {
    ghost use Rattle.std.specs.Prelude.{[]};

    ghost devices = { [] };
}

/// How many bytes a sink takes at a time, so that a line is written in parts.
const MOST: usize = 7;

/// A sink in memory, which allows just what its client is due of what these devices hold. It tells what its client sends.
#[derive(Drop)]
struct DueSink<D: Devices> {
    asks: Vec<u8>,
    written: Vec<u8>,
    faults: u64,
    of: PhantomData<D>,
}

impl<D: Devices> ClientSink for DueSink<D> {
    ghost use Rattle.std.specs.Prelude.{Some};
    ghost use Rattle.session_runs.specs.Due.{MayWrite};

    ghost faults = { λ s. s.faults };

    ghost written = { λ s. Some s.written.items };

    ghost asks = { λ s. Some s.asks.items };

    ghost allows = { λ s piece. MayWrite (record { source = Some s.asks.items; devices = D.devices }) (Some s.written.items) piece };

    fn write(&mut self, piece: &[u8]) -> WriteStep {
        let n = piece.len().min(MOST);
        match self.written.extend_from_slice(&piece[..n]) {
            Ok(()) => WriteStep::Wrote(n),
            Err(_) => {
                self.faults = self.faults.saturating_add(1);
                WriteStep::Failed
            }
        }
    }
}

/// A door through which one client comes, which sends this request and then nothing more.
fn door_of<D: Devices>(
    alloc: Global,
    request: &[u8],
) -> Result<MemoryDoor<MemorySource, DueSink<D>>, NoMemory>
    ensures { IfOk result (λ door. IsUnusedGate door) }
{
    let source = MemorySource::new(request.to_vec(alloc)?, Vec::new(alloc), AtEnd::Quiet);
    let sink = DueSink {
        asks: request.to_vec(alloc)?,
        written: Vec::new(alloc),
        faults: 0,
        of: PhantomData,
    };
    let mut plan = Vec::new(alloc);
    plan.push(DoorPlan::Link(source, sink))?;
    Ok(MemoryDoor::new(plan, AtEnd::Quiet))
}

/// The status of a daemon, and what its client was written.
#[derive(Drop)]
struct Left {
    status: u8,
    written: Vec<u8>,
}

/// Serves one client, whose sink allows just what it is due. The clock gives one stamp for ever.
fn serve_due<D, R>(
    rt: R,
    alloc: Global,
    plan: Plan,
    places: Vec<(Place, MemorySource)>,
    request: &[u8],
) -> Result<Left, NoMemory>
where
    D: Devices + Send,
    R: Threads + Wait + Copy + Send + Sync,
    requires plan { IsPlan plan }
    requires sources { HaveSources (λ source. IsUnread (Some source.stream) source.faults source.quiets) places.items }
    requires devices { D.devices ≡ devices_in plan (bytes_at (λ source. Some source.stream) places.items) }
{
    let door = door_of::<D>(alloc, request)?;
    let clock = MemoryClock::new(Vec::new(alloc), FIVE);
    let world = MemoryWorld::new(alloc, places, door, clock);
    let daemon = gps_serve::serve(rt, alloc, plan, world);
    let written = match daemon.sessions.get(0) {
        Some(done) => done.sink.written.as_slice().to_vec(alloc)?,
        None => Vec::new(alloc),
    };
    Ok(Left {
        status: daemon.status,
        written,
    })
}

#[test]
fn a_client_is_written_just_what_it_is_due(rt: HostRuntime) -> Result<(), Fail> {
    let alloc = rt.alloc();
    let plan = plan_of(alloc, file(alloc, b"x")?, 1, HISTORY)?;
    let places = place_x(alloc, &[])?;
    let left = serve_due::<Brand, _>(rt, alloc, plan, places, WATCH_JSON)?;
    let wanted = joined(alloc, WHOLE)?;
    assert_eq!(rt; left.status, 0);
    assert!(rt; left.written.as_slice() == wanted.as_slice());
    Ok(())
}
