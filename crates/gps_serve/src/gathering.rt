ghost use Rattle.std.specs.Prelude.{◌≡◌, ◌≤◌, ◌<◌, [], length, IfOk, true, false};
ghost use Rattle.std.specs.List.{All, AllZip};
ghost use Rattle.std.specs.Vec.{vec_len, vec_capacity};
ghost use Rattle.hub_promise.specs.Keeping.{IsClosed};
ghost use Rattle.serve_end.specs.Runs.{RunCause, EachRun, source_facts};
ghost use Rattle.serve_workers.specs.Sessions.{SessionRuns};
ghost use Rattle.gps_serve.specs.AtEnd.{AtEnd, settings_of, start_with};
ghost use Rattle.gps_serve.specs.Facts.{world_facts};
ghost use Rattle.gps_serve.specs.HandingBack.{EndHasCause, back_of};
ghost use Rattle.serve_door.specs.Doors.{IsNewLink, Tended, door_now};
ghost use Rattle.serve_floor.specs.Bursts.{AreAtRest, HasStopped};
ghost use Rattle.gps_serve.specs.Dealt.{puts_of};
ghost use Rattle.gps_serve.specs.Runs.{DevicesRan, IsLeftOf};
ghost use Rattle.gps_serve.specs.Stamps.{StampsAreGiven};
ghost use Rattle.gps_serve.specs.Units.{CountFromZero};
ghost use Rattle.gps_serve.specs.Works.{MonitorsRan};

use crate::daemon_end::DaemonEnd;
use crate::scope::{Ended, room};
use crate::settling::{DevicesDone, devices_done, monitors_done, sessions_done};
use crate::status::{DaemonOutcome, all_ended, was_out_of_memory};
use gps_fixed::NoMemory;
use gps_hub::{Hub, HubNaming, Parted};
use gps_world::World;
use serve_door::DoorDone;
use serve_end::{DeviceDone, MonitorDone};
use serve_floor::{Burst, Floor, Rings};
use serve_workers::Dials;
use std::alloc::Global;
use std::snapshot::Snapshot;
use std::sync::Wait;

/// The numbers of a plan.
#[derive(Clone, Copy)]
pub(crate) struct Numbers {
    pub(crate) queue: u32,
    pub(crate) requests: u32,
    pub(crate) limit: u32,
    pub(crate) wait: u32,
    pub(crate) tries: u32,
}

/// Bursts until all devices have stopped, as they have once the pump has ended. No thread is left to wake.
fn close<J: HubNaming, R: Wait + Copy>(rt: &R, alloc: Global, floor: Floor<J, R>) -> Floor<J, R>
    ensures closed { All IsClosed result.hub.book.sessions }
    ensures stopped { All HasStopped result.hub.ends }
{
    let mut floor = floor;
    let mut rings = Rings::new(alloc);
    for _ in rt.forever() {
        match floor.burst(false, &mut rings) {
            Burst::Over => return floor,
            Burst::Fed | Burst::Held | Burst::Idle => {}
        }
    }
    unreachable!()
}

/// Publishes the samples that wait.
fn publish_all<J: HubNaming, R: Wait + Copy>(rt: &R, floor: Floor<J, R>) -> Floor<J, R>
    ensures sessions { result.hub.book.sessions ≡ floor.hub.book.sessions }
    ensures ends { result.hub.ends ≡ floor.hub.ends }
    ensures rest { AreAtRest (length J.terms.segments) result.hub.book.units }
{
    let mut floor = floor;
    'rounds: for _ in rt.forever() {
        if !floor.publish() {
            return floor;
        }
    }
    unreachable!()
}

/// Takes what is left in the lanes, publishes what waits then, and hands back the hub.
pub(crate) fn shut<J: HubNaming, R: Wait + Copy>(
    rt: &R,
    alloc: Global,
    floor: Floor<J, R>,
) -> Hub<J, R>
    ensures closed { All IsClosed result.book.sessions }
    ensures stopped { All HasStopped result.ends }
    ensures rest { AreAtRest (length J.terms.segments) result.book.units }
{
    let floor = close(rt, alloc, floor);
    publish_all(rt, floor).into_hub()
}

/// Room for what is put together at the end.
#[derive(Drop)]
pub(crate) struct DoneRooms<W: World, R: Wait + Copy> {
    pub(crate) devices: Vec<DeviceDone<W::In, R>>,
    pub(crate) monitors: Vec<MonitorDone>,
    ghost devices_none: { devices.items ≡ [] },
    ghost devices_len: { vec_len devices ≡ 0 },
    ghost monitors_none: { monitors.items ≡ [] },
    ghost monitors_len: { vec_len monitors ≡ 0 },
}

pub(crate) fn make_done_rooms<W: World, R: Wait + Copy>(
    alloc: Global,
    devices: usize,
    monitors: usize,
) -> Result<DoneRooms<W, R>, NoMemory>
    ensures devices { IfOk result (λ rooms. devices ≤ vec_capacity rooms.devices) }
    ensures monitors { IfOk result (λ rooms. monitors ≤ vec_capacity rooms.monitors) }
{
    let devices = room(alloc, devices)?;
    let monitors = room(alloc, monitors)?;
    Ok(DoneRooms { devices, monitors })
}

/// Puts together what is left, and how the work ended.
pub(crate) fn gather<W: World, J: HubNaming, D: Dials, R: Wait + Copy>(
    rt: &R,
    hub: Hub<J, R>,
    ended: Ended<W::In, W::Out, W::Gate, J, R>,
    rooms: DoneRooms<W, R>,
    numbers: Numbers,
    first: Snapshot<W::Gate>,
) -> DaemonEnd<W::In, W::Out, W::Gate, R>
    // What the readers of the devices did.
    requires ran { DevicesRan D.may (source_facts W.In.Source) J.terms.lanes ended.runs.items }
    requires causes { EachRun (RunCause W.In.faults) ended.runs.items }
    requires stamped { StampsAreGiven D.first (puts_of ended.runs.items) }

    // What the door worker did.
    requires cause { ended.door.failed ≡ true → 0 < W.Gate.faults ended.door.gate }
    requires sound { ended.door.failed ≡ false → W.Gate.faults ended.door.gate ≡ 0 }
    requires tended { Tended (IsNewLink W.In.content W.In.faults W.In.quiets W.Out.written W.Out.faults)
        (SessionRuns W.In.content W.In.faults W.In.quiets W.Out.written W.Out.faults) numbers.queue (W.Gate.links first.value)
        (door_now (W.Gate.links ended.door.gate) (W.Gate.faults ended.door.gate) (W.Gate.quiets ended.door.gate)
        ended.door.seat.drops ended.door.full ended.door.no_memory)
        ended.door.seat ended.door.runs.items }

    // What the monitors did.
    requires watched { MonitorsRan numbers.tries J.terms.segments ended.watched.items }

    // The hub, once all is closed, stopped and published.
    requires wait { J.terms.wait ≡ numbers.wait }
    requires closed { All IsClosed hub.book.sessions }
    requires stopped { All HasStopped hub.ends }
    requires rest { AreAtRest (length J.terms.segments) hub.book.units }
    requires from { CountFromZero J.terms.segments }

    // The rooms are large enough.
    requires devices { vec_len ended.runs ≤ vec_capacity rooms.devices }
    requires monitors { vec_len ended.watched ≤ vec_capacity rooms.monitors }

    // What is left is what the threads left, and fits together. The outcome has its cause.
    ensures left { AllZip IsLeftOf ended.runs.items result.devices.items }
    ensures at_end { AtEnd (start_with (settings_of J.terms numbers.queue numbers.tries) D.may D.first (W.Gate.links first.value))
        (world_facts W.In.Source W.Out.ClientSink W.Gate.Door) (back_of result) result.book }
    ensures cause { EndHasCause W.In.faults W.Gate.faults result }
{
    let by_threads = ended.threads_out_of_memory();
    let Ended {
        runs,
        watched,
        door,
    } = ended;
    let DoorDone {
        gate,
        seat,
        runs: session_runs,
        room,
        full,
        no_memory: _,
        failed,
    } = door;
    let Parted {
        mut book,
        inlets,
        ends,
        sessions,
    } = hub.part(seat);
    book.show();
    let DoneRooms { devices, monitors } = rooms;
    let no_memory = was_out_of_memory(by_threads, &book, ends.as_slice());
    let ended = all_ended(ends.as_slice());
    let DevicesDone {
        devices,
        failed: read_fault,
    } = devices_done::<W::In, D, R>(runs, inlets, ends, devices);
    let sessions = sessions_done(rt, &mut book, session_runs, sessions, room);
    let monitors = monitors_done(&mut book, watched, numbers.tries, no_memory, monitors);
    let outcome = DaemonOutcome {
        read_fault,
        door_fault: failed,
        ended,
        no_memory,
    };
    DaemonEnd {
        outcome,
        book,
        gate,
        devices,
        sessions,
        monitors,
        full,
    }
}
