ghost use Rattle.std.specs.Prelude.{◌≡◌, ◌≢◌, ◌≤◌, ◌*◌, ◌⊎◌, ◌++◌, ℕ, List, [], length, map, None, IsSome, IfSome, IfErr, IfOk, is_some, false};
ghost use Rattle.std.specs.List.{All, AllZip};
ghost use Rattle.std.specs.Vec.{vec_capacity};
ghost use Rattle.gps_fixed.specs.Limits.{most_queue};
ghost use Rattle.gps_outside.specs.Counts.{Rose};
ghost use Rattle.book_units.specs.Units.{segment_of};
ghost use Rattle.hub_promise.specs.Keeping.{IsUnused, NothingGot};
ghost use Rattle.hub_promise.specs.Parts.{devices_held, terms_of};
ghost use Rattle.session_runs.specs.Due.{MayWrite};
ghost use Rattle.serve_workers.specs.Writing.{AllowsClients};
ghost use Rattle.gps_serve.specs.Told.{devices_in};
ghost use Rattle.gps_world.specs.Asking.{asked_nothing};
ghost use Rattle.gps_world.specs.OpenInOrder.{AsksAll, AsksPrefix, behind_once, dial_of, places_in};
ghost use Rattle.serve_end.specs.Plans.{IsPlan};
ghost use Rattle.serve_end.specs.Runs.{source_facts};
ghost use Rattle.serve_workers.specs.Segments.{segments_of};
ghost use Rattle.gps_serve.specs.AtEnd.{AtEnd, handed_back, settings_in, settings_of, start_in, start_with};
ghost use Rattle.gps_serve.specs.Facts.{gate_facts, world_facts};
ghost use Rattle.gps_serve.specs.HandingBack.{EndHasCause, back_of};
ghost use Rattle.gps_serve.specs.Outcome.{OutcomeHasCause};
ghost use Rattle.gps_serve.specs.Served.{BytesHeld, EdgesHeld, IsUnasked, monitored};
ghost use Rattle.gps_serve.specs.Runs.{DeviceReads};
ghost use Rattle.gps_serve.specs.Starts.{IsFreshDevice};
ghost use Rattle.gps_serve.specs.Units.{CountFromZero};
ghost use Rattle.gps_serve.specs.Whole.{IsWhole};

use crate::daemon_end::{DaemonEnd, Unserved, hand_back};
use crate::gathering::{DoneRooms, Numbers, gather, make_done_rooms, shut};
use crate::ground::{Ground, prepare};
use crate::lanes::DeviceLanes;
use crate::scope::{Rooms, Shared, in_scope, make_rooms, set_up};
use crate::starts::DeviceStart;
use gps_fixed::NoMemory;
use gps_hub::{DoorSeat, Hub, HubNaming};
use gps_outside::{ClientSink, Door, Source};
use gps_world::{Outside, Stop, World, open};
use serve_door::{DoorBegin, DueSinks};
use serve_end::{Plan, Served};
use serve_floor::floor_of;
use serve_workers::{Dials, SharedClock};
use std::alloc::Global;
use std::marker::Brand;
use std::snapshot::Snapshot;
use std::sync::{Mutex, Wait};
use std::thread::Threads;

/// What the door worker begins with.
fn begin_of<S: Source, K: ClientSink, G: Door<In = S, Out = K>, J: HubNaming, R: Wait + Copy>(
    alloc: Global,
    gate: G,
    seat: DoorSeat<J>,
    queue: u32,
) -> DoorBegin<S, K, G, J, R>
    // The queue is in its range, and the door's list is empty.
    requires low { 1 ≤ queue }
    requires high { queue ≤ most_queue }
    requires new { seat.links ≡ [] }
    requires no_drops { seat.drops ≡ [] }
    requires not_done { seat.done ≡ false }

    // Each sink allows what its client is due.
    requires writes { AllowsClients K.asks K.written K.allows (devices_held J.terms.names J.terms.lanes) }

    // The door worker begins with this door and this queue.
    ensures gate { result.gate ≡ gate }
    ensures queue { result.queue ≡ queue }
{
    DoorBegin {
        gate,
        seat,
        room: Vec::new(alloc),
        queue,
        sinks: DueSinks::known(),
    }
}

/// All room for what the threads do and hand back, and for what is put together of it.
#[derive(Drop)]
struct RunRooms<W: World, D: Dials, R: Wait + Copy> {
    threads: Rooms<W::In, D, R>,
    done: DoneRooms<W, R>,
}

fn make_run_rooms<W: World, D: Dials, R: Wait + Copy>(
    alloc: Global,
    devices: usize,
    monitors: usize,
) -> Result<RunRooms<W, D, R>, NoMemory>
    ensures works { IfOk result (λ rooms. devices ≤ vec_capacity rooms.threads.works) }
    ensures runs { IfOk result (λ rooms. devices ≤ vec_capacity rooms.threads.runs) }
    ensures watching { IfOk result (λ rooms. monitors ≤ vec_capacity rooms.threads.watching) }
    ensures watched { IfOk result (λ rooms. monitors ≤ vec_capacity rooms.threads.watched) }
    ensures devices { IfOk result (λ rooms. devices ≤ vec_capacity rooms.done.devices) }
    ensures monitors { IfOk result (λ rooms. monitors ≤ vec_capacity rooms.done.monitors) }
{
    let threads = make_rooms(alloc, devices, monitors)?;
    let done = make_done_rooms(alloc, devices, monitors)?;
    Ok(RunRooms { threads, done })
}

/// What comes back if there is no memory to begin with: what the readers would have begun with, and the door.
#[derive(Drop)]
struct Unstarted<S: Source, G, R> {
    starts: Vec<DeviceStart<S, R>>,
    gate: G,
}

/// Serves what was prepared. All room is taken before the first thread starts. If there is no memory for it, no thread was started, and the sources
/// and the door come back as they were. After that nothing is refused.
fn run<
    J: HubNaming + Send + Sync,
    D: Dials + Send + Sync,
    W: World,
    R: Threads + Wait + Copy + Send + Sync,
>(
    rt: R,
    alloc: Global,
    ground: Ground<W::In, R>,
    gate: W::Gate,
    clock: W::Now,
    world: &W,
    numbers: Numbers,
) -> Result<DaemonEnd<W::In, W::Out, W::Gate, R>, Unstarted<W::In, W::Gate, R>>
    // `J` is what no call of the hub changes.
    requires terms { J.terms ≡ terms_of ground.book ground.lanes.inlets.items numbers.wait }
    requires table { ground.doors.table ≡ J.table }
    requires ledger { ground.doors.ledger ≡ J.name }
    requires parts { ground.doors.parts ≡ J.parts }
    requires whole { ground.doors.parts ≡ J.whole }

    // `D` is what is known of the clock and its table.
    requires dials { D.may ≡ dial_of (W.Now.stamps clock) }
    requires clock { D.first ≡ W.Now.stamps clock }
    requires stamps { ground.stamps ≡ D.table }

    // The book is new, and nothing was received from the lanes.
    requires unused { IsUnused ground.book }
    requires count { length ground.lanes.inlets.items ≡ length ground.book.names }
    requires nothing { All NothingGot ground.lanes.inlets.items }
    requires few { length ground.book.names ≤ 8 }
    requires units { length ground.book.units ≡ 2 * length ground.book.names }

    // The readers begin with unread sources and new lanes, the monitors with the segments of the units.
    requires fresh { AllZip (IsFreshDevice (source_facts W.In.Source)) ground.lanes.starts.items ground.lanes.inlets.items }
    requires monitor_starts { segments_of ground.monitor_starts.items ≡ monitored numbers.tries (map segment_of ground.book.units) }
    requires from { CountFromZero (map segment_of ground.book.units) }

    // The numbers are in their ranges, and the door has no fault yet.
    requires wait { numbers.wait ≤ 64 }
    requires low { 1 ≤ numbers.queue }
    requires high { numbers.queue ≤ most_queue }
    requires sound { W.Gate.faults gate ≡ 0 }

    // Each sink of a client allows what its client is due.
    requires writes { AllowsClients W.Out.asks W.Out.written W.Out.allows (devices_held J.terms.names J.terms.lanes) }

    // What is left fits together, and the outcome has its cause.
    ensures reads { IfOk result (λ end. AllZip (DeviceReads (source_facts W.In.Source)) ground.lanes.starts.items end.devices.items) }
    ensures at_end { IfOk result (λ end. AtEnd (start_with (settings_of J.terms numbers.queue numbers.tries) D.may D.first (W.Gate.links gate))
        (world_facts W.In.Source W.Out.ClientSink W.Gate.Door) (back_of end) end.book) }
    ensures cause { IfOk result (EndHasCause W.In.faults W.Gate.faults) }

    // Nothing was read and nobody asked the door, unless all that is left is handed back.
    ensures unread { IfErr result (λ unstarted. unstarted.starts ≡ ground.lanes.starts) }
    ensures unasked { IfErr result (λ unstarted. unstarted.gate ≡ gate) }
{
    let Ground {
        book,
        lanes,
        doors,
        stamps,
        monitor_starts,
        bells,
    } = ground;
    let DeviceLanes { starts, inlets } = lanes;
    let devices = inlets.len() as u8;
    let Ok(rooms) = make_run_rooms::<W, D, R>(alloc, starts.len(), monitor_starts.len()) else {
        return Err(Unstarted { starts, gate });
    };
    let Ok((hub, seat)) = Hub::<J, R>::new(alloc, book, inlets, doors, numbers.wait) else {
        return Err(Unstarted { starts, gate });
    };
    let RunRooms { threads, done } = rooms;
    let floor = Mutex::new(floor_of(alloc, hub, devices));
    let (giver, roll) = stamps.open::<D>();
    let clock = Mutex::new(SharedClock::<W::Now, D>::new(clock, giver));
    let first = Snapshot::of(&gate);
    let door = begin_of(alloc, gate, seat, numbers.queue);
    let setup = set_up::<W::In, W::Out, W::Gate, D, J, R>(
        starts,
        monitor_starts,
        door,
        roll,
        threads,
    );
    let shared = Shared {
        floor: &floor,
        clock: &clock,
        bells: &bells,
    };
    let ended = in_scope(rt, alloc, shared, world, numbers.tries, setup);
    let hub = shut(&rt, alloc, floor.into_inner());
    let left = gather::<W, J, D, R>(&rt, hub, ended, done, numbers, first);
    Ok(left)
}

/// Serves a plan until each of its devices has ended or was lost.
///
/// The status is 0 if every device has ended, 3 if a source failed or could not be opened, 8 if the door failed or could not be opened, and 7 if
/// the daemon was out of memory or could start no thread. If several hold, it is the first of 3, 8 and 7.
///
/// Once a thread was started, a book is handed back, however the work ends.
#[tactic(auto, using(crate::proofs::Asked::some_of, crate::proofs::Asked::all_of, crate::proofs::Asked::few_of))]
pub fn serve<W: World, R: Threads + Wait + Copy + Send + Sync>(
    rt: R,
    alloc: Global,
    plan: Plan,
    world: W,
) -> Served<W, R>
    // The plan can be served, and the world was asked for nothing.
    requires plan { IsPlan plan }
    requires asked { W.asked world ≡ asked_nothing }

    // A sink of a client allows each write that `MayWrite` admits: one that, with what was written before, begins items that the client may be due. It
    // need not allow any other. So each write that ever happens is such a write, also if this never returns.
    requires writes { (sink : W.Out) (piece : List ℕ)
        → MayWrite (record { source = W.Out.asks sink; devices = devices_in plan (W.behind world) }) (W.Out.written sink) piece
        → W.Out.allows sink piece }

    // The status, and why it is so.
    ensures range { (result.status ≡ 0) ⊎ (result.status ≡ 3) ⊎ (result.status ≡ 7) ⊎ (result.status ≡ 8) }
    ensures cause { OutcomeHasCause W.In.faults W.Gate.faults (Rose (W.input_faults world) (W.input_faults result.world))
        (Rose (W.listen_faults world) (W.listen_faults result.world)) result }

    // There is no book only if a source or the door could not be opened, or memory was short.
    ensures none { result.book ≡ None → ((result.status ≡ 3) × Rose (W.input_faults world) (W.input_faults result.world))
        ⊎ ((result.status ≡ 8) × Rose (W.listen_faults world) (W.listen_faults result.world)) ⊎ (result.status ≡ 7) }

    // If there is none, nobody asked the door. It is handed back, if the daemon has listened and that did not fail.
    ensures listened { result.book ≡ None → (W.asked result.world).address ≢ None → (result.status ≡ 8) ⊎ IsSome result.gate }
    ensures unasked { result.book ≡ None → IfSome result.gate (IsUnasked (gate_facts W.Gate.Door) (W.links world)) }

    // What is handed back fits together.
    ensures at_end { IfSome result.book
        (AtEnd (start_in W.World (settings_in plan) world) (world_facts W.In.Source W.Out.ClientSink W.Gate.Door) (handed_back result)) }

    // What was taken from the sources of the devices.
    ensures whole { IsSome result.book → All (IsWhole (dial_of (W.stamps world)) (source_facts W.In.Source)) result.devices.items }
    ensures held { IsSome result.book
        → AllZip (BytesHeld (behind_once (plan.inputs.items ++ places_in plan.edges.items) (W.behind world)) (source_facts W.In.Source))
        plan.inputs.items result.devices.items }
    ensures held_edges { IsSome result.book
        → AllZip (EdgesHeld (behind_once (plan.inputs.items ++ places_in plan.edges.items) (W.behind world)) (source_facts W.In.Source))
        plan.edges.items result.devices.items }

    // A device has a source of edges exactly if the plan gives it one.
    ensures edges { IsSome result.book → map (λ device. is_some device.edges) result.devices.items ≡ map is_some plan.edges.items }

    // What the world was asked for.
    ensures asked { AsksPrefix (W.asked result.world) (plan.inputs.items ++ places_in plan.edges.items) plan.listen }
    ensures all_asked { IsSome result.book → AsksAll (W.asked result.world) (plan.inputs.items ++ places_in plan.edges.items) plan.listen }
{
    let mut world = world;
    let Plan {
        names,
        inputs,
        edges,
        listen,
        queue,
        requests,
        limit,
        wait,
        tries,
    } = plan;
    let numbers = Numbers {
        queue,
        requests,
        limit,
        wait,
        tries,
    };
    let _few = names.len();
    let Outside {
        inputs,
        edges,
        gate,
        clock,
    } = match open(alloc, &mut world, inputs, edges, listen) {
        Ok(outside) => outside,
        Err(stop) => return hand_back(alloc, world, Err(Unserved { stop, gate: None })),
    };
    match prepare(rt, alloc, names, numbers, inputs, edges) {
        Ok(ground) => {
            match run::<Brand, Brand, W, R>(rt, alloc, ground, gate, clock, &world, numbers) {
                Ok(end) => hand_back(alloc, world, Ok(end)),
                Err(unstarted) => {
                    let Unstarted { starts: _, gate } = unstarted;
                    let stop = Stop::NoMemory;
                    let gate = Some(gate);
                    hand_back(alloc, world, Err(Unserved { stop, gate }))
                }
            }
        }
        Err(NoMemory) => {
            let stop = Stop::NoMemory;
            let gate = Some(gate);
            hand_back(alloc, world, Err(Unserved { stop, gate }))
        }
    }
}
