//! `serve` over a world in memory.

ghost use Rattle.std.specs.Prelude.{◌≡◌, ◌≤◌, [], ◌∷◌, IfOk, None, Some};
ghost use Rattle.gps_outside.specs.DoorPlans.{HaveLinks};
ghost use Rattle.gps_outside.specs.Links.{AsksOf, IsUnread, IsUnwritten};
ghost use Rattle.gps_world.specs.MemoryWorlds.{HaveSources};
ghost use Rattle.serve_end.specs.Plans.{IsPlan};

use crate::cues::{CountingSink, Cue, CuedSource};
use crate::texts::{ACTIVE, ENDED, FIVE, Parts, RMC, joined, one_name};
use gps_fixed::{Bytes, NoMemory};
use gps_outside::{
    AtEnd, DoorPlan, MemoryClock, MemoryDoor, MemorySource, ReadPlan, Source, WritePlan,
};
use gps_serve::{DeviceEnd, Plan, Served};
use gps_world::{MemoryWorld, Place};
use std::alloc::Global;
use std::sync::atomic::AtomicU64;
use std::sync::{Arc, Wait};
use std::test::Fail;
use std::thread::Threads;

const VERSION: &[u8] =
    b"{\"class\":\"VERSION\",\"release\":\"gpsrelay-1\",\"rev\":\"1\",\"proto_major\":3,\"proto_minor\":1}\r\n";

const DEVICES: &[u8] =
    b"{\"class\":\"DEVICES\",\"devices\":[{\"class\":\"DEVICE\",\"path\":\"g\"}]}\r\n";

const JSON: &[u8] =
    b"{\"class\":\"WATCH\",\"enable\":true,\"json\":true,\"nmea\":false,\"raw\":0,\"pps\":false}\r\n";

const NMEA: &[u8] =
    b"{\"class\":\"WATCH\",\"enable\":true,\"json\":false,\"nmea\":true,\"raw\":0,\"pps\":false}\r\n";

const FIX: &[u8] =
    b"{\"class\":\"TPV\",\"device\":\"g\",\"mode\":2,\"time\":\"1994-03-23T12:35:19.000Z\",\
\"lat\":48.117300000,\"lon\":11.516666667,\"track\":84.4000,\"speed\":11.524}\r\n";

/// What a session is sent that watches from before the device's first byte to its end.
pub(crate) const WHOLE: Parts<'static> = &[VERSION, DEVICES, JSON, ACTIVE, FIX, ENDED];

pub(crate) const WATCH_JSON: &[u8] = b"?WATCH={\"json\":true};\n";

pub(crate) const UNIT: &[u8] = b"u0 published 1 count 2 left 0\n";

pub(crate) const HISTORY: u32 = 16_777_216;

pub(crate) fn file(alloc: Global, path: &[u8]) -> Result<Place, NoMemory> {
    Ok(Place::File(Bytes::from_slice(alloc, path)?))
}

/// A daemon whose sinks count lines.
type Daemon<I, R> = Served<MemoryWorld<I, CountingSink>, R>;

/// The plan of a daemon over one device, which waits for this many clients that watch.
pub(crate) fn plan_of(alloc: Global, input: Place, wait: u32, limit: u32) -> Result<Plan, NoMemory>
    requires wait { wait ≤ 64 }
    requires low { 1 ≤ limit }
    requires high { limit ≤ 33554432 }
    ensures { IfOk result (λ plan. IsPlan plan) }
{
    let names = one_name(alloc)?;
    let mut inputs = Vec::new(alloc);
    inputs.push(input)?;
    let mut edges = Vec::new(alloc);
    edges.push(None)?;
    Ok(Plan {
        names,
        inputs,
        edges,
        listen: Bytes::from_slice(alloc, b"h:1")?,
        queue: 64,
        requests: 65_536,
        limit,
        wait,
        tries: 0,
    })
}

/// Serves a plan; the clock gives one stamp for ever, and behind its plan the door is quiet.
pub(crate) fn serve<I, R>(
    rt: R,
    alloc: Global,
    plan: Plan,
    places: Vec<(Place, I)>,
    door: Vec<DoorPlan<I, CountingSink>>,
) -> Daemon<I, R>
where
    I: Source + Send,
    R: Threads + Wait + Copy + Send + Sync,
    requires plan { IsPlan plan }
    requires sources { HaveSources (λ source. IsUnread (I.content source) (I.faults source) (I.quiets source)) places.items }
    requires links { HaveLinks
        (λ source. IsUnread (I.content source) (I.faults source) (I.quiets source))
        (λ sink. IsUnwritten None sink.faults)
        (λ source _. AsksOf (I.content source) None) door.items }
{
    let door = MemoryDoor::new(door, AtEnd::Quiet);
    let clock = MemoryClock::new(Vec::new(alloc), FIVE);
    let world = MemoryWorld::new(alloc, places, door, clock);
    gps_serve::serve(rt, alloc, plan, world)
}

/// Whether a daemon ended with this status and these closing lines, and wrote these items to its sessions, in order.
pub(crate) fn ended_so<I: Source + Send, R: Wait + Copy>(
    alloc: Global,
    daemon: &Daemon<I, R>,
    status: u8,
    closing: Parts<'_>,
    sent: &[Parts<'_>],
) -> Result<bool, NoMemory> {
    let wanted = joined(alloc, closing)?;
    let lines = daemon.lines(alloc)?;
    if daemon.status != status || lines.as_slice() != wanted.as_slice() {
        return Ok(false);
    }
    for (done, items) in daemon.sessions.as_slice().iter().zip(sent) {
        if done.sink.sink.written() != joined(alloc, *items)?.as_slice() {
            return Ok(false);
        }
    }
    Ok(daemon.sessions.len() == sent.len())
}

fn end_of<I: Source + Send, R: Wait + Copy>(daemon: &Daemon<I, R>) -> Option<DeviceEnd> {
    match daemon.devices.get(0) {
        Some(done) => done.end,
        None => None,
    }
}

fn no_lines(alloc: Global) -> Result<Arc<AtomicU64>, NoMemory> {
    Ok(Arc::new(alloc, AtomicU64::new(0))?)
}

/// A client that sends this request and then nothing more.
fn client(
    alloc: Global,
    request: &[u8],
    sink: CountingSink,
) -> Result<DoorPlan<MemorySource, CountingSink>, NoMemory>
    requires { sink.faults ≡ 0 }
    ensures { IfOk result (λ plan. HaveLinks
        (λ source. IsUnread (Some source.stream) source.faults source.quiets)
        (λ sink. IsUnwritten None sink.faults)
        (λ source _. AsksOf (Some source.stream) None) (plan ∷ [])) }
{
    let source = MemorySource::new(request.to_vec(alloc)?, Vec::new(alloc), AtEnd::Quiet);
    Ok(DoorPlan::Link(source, sink))
}

/// A door through which one client comes that watches fixes; it may fail before.
fn one_client(
    alloc: Global,
    fails: bool,
    writes: &[WritePlan],
) -> Result<Vec<DoorPlan<MemorySource, CountingSink>>, NoMemory>
    ensures { IfOk result (λ plan. HaveLinks
        (λ source. IsUnread (Some source.stream) source.faults source.quiets)
        (λ sink. IsUnwritten None sink.faults)
        (λ source _. AsksOf (Some source.stream) None) plan.items) }
{
    let sink = CountingSink::of(alloc, writes, &no_lines(alloc)?, None)?;
    let link = client(alloc, WATCH_JSON, sink)?;
    let mut plan = Vec::new(alloc);
    if fails {
        plan.push(DoorPlan::Fail)?;
    }
    plan.push(link)?;
    Ok(plan)
}

/// Two clients. The first is not written to before the second one was.
fn two_clients(alloc: Global) -> Result<Vec<DoorPlan<MemorySource, CountingSink>>, NoMemory>
    ensures { IfOk result (λ plan. HaveLinks
        (λ source. IsUnread (Some source.stream) source.faults source.quiets)
        (λ sink. IsUnwritten None sink.faults)
        (λ source _. AsksOf (Some source.stream) None) plan.items) }
{
    let second = no_lines(alloc)?;
    let held = CountingSink::of(
        alloc,
        &[],
        &no_lines(alloc)?,
        Some(Arc::try_clone(&second)?),
    )?;
    let free = CountingSink::of(alloc, &[], &second, None)?;
    let first = client(alloc, WATCH_JSON, held)?;
    let other = client(alloc, b"?WATCH={\"nmea\":true};\n", free)?;
    let mut plan = Vec::new(alloc);
    plan.push(first)?;
    plan.push(other)?;
    Ok(plan)
}

/// The place `x`, behind which there is one sentence.
pub(crate) fn place_x(
    alloc: Global,
    reads: &[ReadPlan],
) -> Result<Vec<(Place, MemorySource)>, NoMemory>
    ensures { IfOk result (λ places. HaveSources (λ source. IsUnread (Some source.stream) source.faults source.quiets) places.items) }
{
    let source = MemorySource::new(RMC.to_vec(alloc)?, reads.to_vec(alloc)?, AtEnd::End);
    let mut places = Vec::new(alloc);
    places.push((file(alloc, b"x")?, source))?;
    Ok(places)
}

/// How the device's source is read, whether the door fails, and how the client's sink is written; and what comes of it. If no device has an
/// end, nothing was served.
struct Row<'a> {
    path: &'a [u8],
    limit: u32,
    reads: &'a [ReadPlan],
    door_fails: bool,
    writes: &'a [WritePlan],
    status: u8,
    end: Option<DeviceEnd>,
    closing: Parts<'a>,
    sent: &'a [Parts<'a>],
}

#[test]
fn a_client_is_sent_what_came_until_the_end_or_a_fault(rt: HostRuntime) -> Result<(), Fail> {
    let rows: &[Row<'_>] = &[
        Row {
            path: b"x",
            limit: HISTORY,
            reads: &[],
            door_fails: false,
            writes: &[],
            status: 0,
            end: Some(DeviceEnd::Ended),
            closing: &[b"s0 drained daemonend 5\n", UNIT],
            sent: &[WHOLE],
        },
        Row {
            path: b"x",
            limit: 69,
            reads: &[],
            door_fails: false,
            writes: &[],
            status: 0,
            end: Some(DeviceEnd::Ended),
            closing: &[b"s0 drained daemonend 5\n", UNIT],
            sent: &[WHOLE],
        },
        Row {
            path: b"x",
            limit: HISTORY,
            reads: &[ReadPlan::Give(512), ReadPlan::Fail],
            door_fails: false,
            writes: &[],
            status: 3,
            end: Some(DeviceEnd::ReadFault),
            closing: &[b"s0 drained daemonend 3\n", UNIT],
            sent: &[&[VERSION, DEVICES, JSON, ACTIVE]],
        },
        Row {
            path: b"x",
            limit: HISTORY,
            reads: &[],
            door_fails: true,
            writes: &[],
            status: 8,
            end: Some(DeviceEnd::Ended),
            closing: &[UNIT],
            sent: &[],
        },
        Row {
            path: b"x",
            limit: HISTORY,
            reads: &[],
            door_fails: false,
            writes: &[WritePlan::Fail],
            status: 0,
            end: Some(DeviceEnd::Ended),
            closing: &[b"s0 writefault daemonend 5\n", UNIT],
            sent: &[&[]],
        },
        Row {
            path: b"y",
            limit: HISTORY,
            reads: &[],
            door_fails: false,
            writes: &[],
            status: 3,
            end: None,
            closing: &[],
            sent: &[],
        },
    ];
    let alloc = rt.alloc();
    for row in rows {
        let places = place_x(alloc, row.reads)?;
        let door = one_client(alloc, row.door_fails, row.writes)?;
        let plan = plan_of(alloc, file(alloc, row.path)?, 1, row.limit)?;
        let daemon = serve(rt, alloc, plan, places, door);
        assert_eq!(rt; end_of(&daemon), row.end);
        assert_eq!(rt; daemon.book.is_some(), row.end.is_some());
        assert!(rt; ended_so(alloc, &daemon, row.status, row.closing, row.sent)?);
    }
    Ok(())
}

#[test]
fn a_client_that_takes_nothing_holds_up_no_other(rt: HostRuntime) -> Result<(), Fail> {
    let alloc = rt.alloc();
    let plan = plan_of(alloc, file(alloc, b"x")?, 2, HISTORY)?;
    let places = place_x(alloc, &[])?;
    let door = two_clients(alloc)?;
    let daemon = serve(rt, alloc, plan, places, door);
    let closing: Parts<'_> = &[
        b"s0 drained daemonend 5\n",
        b"s1 drained daemonend 3\n",
        UNIT,
    ];
    let sent: &[Parts<'_>] = &[WHOLE, &[VERSION, DEVICES, NMEA, RMC]];
    assert!(rt; ended_so(alloc, &daemon, 0, closing, sent)?);
    Ok(())
}

/// A door through which one client comes that does what it does at its cues.
fn cued_client(
    alloc: Global,
    cues: &'static [Cue],
    lines: &Arc<AtomicU64>,
) -> Result<Vec<DoorPlan<CuedSource, CountingSink>>, NoMemory>
    ensures { IfOk result (λ plan. HaveLinks
        (λ source. IsUnread None 0 source.quiets)
        (λ sink. IsUnwritten None sink.faults)
        (λ _ _. AsksOf None None) plan.items) }
{
    let source = CuedSource::of(cues, lines)?;
    let sink = CountingSink::of(alloc, &[], lines, None)?;
    let mut plan = Vec::new(alloc);
    plan.push(DoorPlan::Link(source, sink))?;
    Ok(plan)
}

/// The places `x` and `y`, whose sources do what they do at their cues.
fn cued_places(
    alloc: Global,
    x: &'static [Cue],
    y: &'static [Cue],
    lines: &Arc<AtomicU64>,
) -> Result<Vec<(Place, CuedSource)>, NoMemory>
    ensures { IfOk result (λ places. HaveSources (λ source. IsUnread None 0 source.quiets) places.items) }
{
    let first = CuedSource::of(x, lines)?;
    let second = CuedSource::of(y, lines)?;
    let mut places = Vec::new(alloc);
    places.push((file(alloc, b"x")?, first))?;
    places.push((file(alloc, b"y")?, second))?;
    Ok(places)
}

#[test]
fn a_client_is_heard_and_written_to_while_the_device_goes_on(rt: HostRuntime) -> Result<(), Fail> {
    let alloc = rt.alloc();
    let lines = no_lines(alloc)?;
    let asks: &'static [Cue] = &[Cue::Give(0, WATCH_JSON), Cue::Give(4, b"?VERSION;\n")];
    let gives: &'static [Cue] = &[Cue::Give(3, RMC), Cue::End(5)];
    let places = cued_places(alloc, gives, &[], &lines)?;
    let door = cued_client(alloc, asks, &lines)?;
    let plan = plan_of(alloc, file(alloc, b"x")?, 0, HISTORY)?;
    let daemon = serve(rt, alloc, plan, places, door);
    let closing: Parts<'_> = &[b"s0 drained daemonend 6\n", UNIT];
    let sent: Parts<'_> = &[VERSION, DEVICES, JSON, ACTIVE, VERSION, FIX, ENDED];
    assert!(rt; ended_so(alloc, &daemon, 0, closing, &[sent])?);
    Ok(())
}
