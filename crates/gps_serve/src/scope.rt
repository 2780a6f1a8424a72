ghost use Rattle.std.specs.Prelude.{◌≡◌, ◌≤◌, ◌⊎◌, [], true, false, length, IfOk};
ghost use Rattle.std.specs.List.{AllZip, list_all, list_any};
ghost use Rattle.std.specs.Vec.{vec_len, vec_capacity};
ghost use Rattle.serve_end.specs.Runs.{RunCause, EachRun, source_facts};
ghost use Rattle.gps_serve.specs.Dealt.{AreNumbered, SharesUsed, StampedIf};
ghost use Rattle.gps_serve.specs.Facts.{gate_facts, sink_facts};
ghost use Rattle.gps_serve.specs.Lost.{link_out_of_memory, run_out_of_memory};
ghost use Rattle.gps_serve.specs.Runs.{RanOn};
ghost use Rattle.gps_serve.specs.Scopes.{DoorFails, DoorTended, MonitorsWatched, ReadersHaveCauses, ReadersRan};
ghost use Rattle.gps_serve.specs.Starts.{EachTold};
ghost use Rattle.gps_serve.specs.Statuses.{EachWhole};
ghost use Rattle.gps_serve.specs.Works.{JoinsDevice, JoinsMonitor, ReadersAre, WatchedBy, WatchesFor};

use crate::readers::{DeviceWork, JoinedDevice, join_readers, start_readers};
use crate::starts::DeviceStart;
use crate::status::{any_link_out_of_memory, any_run_out_of_memory, are_whole, either};
use gps_fixed::NoMemory;
use gps_hub::HubNaming;
use gps_outside::{ClientSink, Clock, Door, Source};
use serve_door::{DoorBegin, DoorContext, DoorDone, start_door};
use serve_end::DeviceRun;
use serve_floor::{Floor, Waker, pump, start_publisher, wake_readers};
use serve_workers::{
    Bells, Dials, MonitorPromise, MonitorStart, ReadingsDone, SharedClock, Spawner, Work,
    start_monitor,
};
use stamp_shares::StampRoll;
use std::alloc::Global;
use std::sync::{Mutex, Wait};
use std::thread;
use std::thread::Threads;

/// Empty room for what the threads do and hand back.
#[derive(Drop)]
pub(crate) struct Rooms<S: Source, D: Dials, R: Wait + Copy> {
    pub(crate) works: Vec<DeviceWork<S, D, R>>,
    pub(crate) runs: Vec<DeviceRun<S, R>>,
    pub(crate) watching: Vec<Work<ReadingsDone, MonitorPromise>>,
    pub(crate) watched: Vec<ReadingsDone>,
    ghost works_none: { works.items ≡ [] },
    ghost runs_none: { runs.items ≡ [] },
    ghost watching_none: { watching.items ≡ [] },
    ghost watched_none: { watched.items ≡ [] },
    ghost works_len: { vec_len works ≡ 0 },
    ghost runs_len: { vec_len runs ≡ 0 },
    ghost watching_len: { vec_len watching ≡ 0 },
    ghost watched_len: { vec_len watched ≡ 0 },
}

/// What the threads begin with, and room for what they do and hand back, made before the first of them starts.
#[derive(Drop)]
pub(crate) struct Setup<
    S: Source,
    K: ClientSink,
    G: Door<In = S, Out = K>,
    D: Dials,
    J: HubNaming,
    R: Wait + Copy,
> {
    starts: Vec<DeviceStart<S, R>>,
    monitor_starts: Vec<MonitorStart>,
    door: DoorBegin<S, K, G, J, R>,
    roll: StampRoll<D>,
    works: Vec<DeviceWork<S, D, R>>,
    runs: Vec<DeviceRun<S, R>>,
    watching: Vec<Work<ReadingsDone, MonitorPromise>>,
    watched: Vec<ReadingsDone>,
    ghost told: { EachTold S.content starts.items },
    ghost roll_new: { roll ≡ record { begun = 0; ended = [] } },
    ghost works_none: { works.items ≡ [] },
    ghost runs_none: { runs.items ≡ [] },
    ghost watching_none: { watching.items ≡ [] },
    ghost watched_none: { watched.items ≡ [] },
    ghost works_len: { vec_len works ≡ 0 },
    ghost runs_len: { vec_len runs ≡ 0 },
    ghost watching_len: { vec_len watching ≡ 0 },
    ghost watched_len: { vec_len watched ≡ 0 },
    ghost works_room: { vec_len starts ≤ vec_capacity works },
    ghost runs_room: { vec_len starts ≤ vec_capacity runs },
    ghost watching_room: { vec_len monitor_starts ≤ vec_capacity watching },
    ghost watched_room: { vec_len monitor_starts ≤ vec_capacity watched },
}

/// What the daemon's threads share.
#[derive(Drop)]
pub(crate) struct Shared<'s, C: Clock, J: HubNaming, D: Dials, R: Wait + Copy> {
    pub(crate) floor: &'s Mutex<Floor<J, R>>,
    pub(crate) clock: &'s Mutex<SharedClock<C, D>>,
    pub(crate) bells: &'s Bells,
}

/// What the threads handed back.
#[derive(Drop)]
pub(crate) struct Ended<
    S: Source,
    K: ClientSink,
    G: Door<In = S, Out = K>,
    J: HubNaming,
    R: Wait + Copy,
> {
    pub(crate) runs: Vec<DeviceRun<S, R>>,
    pub(crate) watched: Vec<ReadingsDone>,
    pub(crate) door: DoorDone<S, K, G, J, R>,
}

impl<S: Source, K: ClientSink, G: Door<In = S, Out = K>, J: HubNaming, R: Wait + Copy> Ended<
    S,
    K,
    G,
    J,
    R,
> {
    /// Whether a thread was out of memory: the door's at an admission, a reader, or a monitor, which then misses a sample that it took.
    pub(crate) fn threads_out_of_memory(&self) -> bool
        ensures whole { result ≡ false → EachWhole self.now.watched.items }
        ensures door { result ≡ false → self.now.door.no_memory ≡ false }
        ensures runs { result ≡ false → list_any run_out_of_memory self.now.runs.items ≡ false }
        ensures links { result ≡ false → list_any link_out_of_memory self.now.door.runs.items ≡ false }
        ensures cause { result ≡ true → (self.now.door.no_memory ≡ true) ⊎ (list_any run_out_of_memory self.now.runs.items ≡ true)
            ⊎ (list_any link_out_of_memory self.now.door.runs.items ≡ true) ⊎ (list_all (λ watch. watch.whole) self.now.watched.items ≡ false) }
    {
        let readers = either(
            any_run_out_of_memory(self.runs.as_slice()),
            any_link_out_of_memory(self.door.runs.as_slice()),
        );
        let threads = either(readers, !are_whole(self.watched.as_slice()));
        either(self.door.no_memory, threads)
    }
}

/// Room for the given number of elements.
pub(crate) fn room<T: Drop>(alloc: Global, count: usize) -> Result<Vec<T>, NoMemory>
    ensures none { IfOk result (λ room. room.items ≡ []) }
    ensures len { IfOk result (λ room. vec_len room ≡ 0) }
    ensures room { IfOk result (λ room. count ≤ vec_capacity room) }
{
    match Vec::with_capacity(alloc, count) {
        Ok(room) => Ok(room),
        Err(_) => Err(NoMemory),
    }
}

/// Takes all room for what the threads of so many devices and monitors do and hand back.
pub(crate) fn make_rooms<S: Source, D: Dials, R: Wait + Copy>(
    alloc: Global,
    devices: usize,
    units: usize,
) -> Result<Rooms<S, D, R>, NoMemory>
    ensures works { IfOk result (λ rooms. devices ≤ vec_capacity rooms.works) }
    ensures runs { IfOk result (λ rooms. devices ≤ vec_capacity rooms.runs) }
    ensures watching { IfOk result (λ rooms. units ≤ vec_capacity rooms.watching) }
    ensures watched { IfOk result (λ rooms. units ≤ vec_capacity rooms.watched) }
{
    let works = room(alloc, devices)?;
    let runs = room(alloc, devices)?;
    let watching = room(alloc, units)?;
    let watched = room(alloc, units)?;
    Ok(Rooms {
        works,
        runs,
        watching,
        watched,
    })
}

/// Puts together what the threads begin with. Nothing is refused here.
pub(crate) fn set_up<
    S: Source,
    K: ClientSink,
    G: Door<In = S, Out = K>,
    D: Dials,
    J: HubNaming,
    R: Wait + Copy,
>(
    starts: Vec<DeviceStart<S, R>>,
    monitor_starts: Vec<MonitorStart>,
    door: DoorBegin<S, K, G, J, R>,
    roll: StampRoll<D>,
    rooms: Rooms<S, D, R>,
) -> Setup<S, K, G, D, J, R>
    requires told { EachTold S.content starts.items }
    requires roll { roll ≡ record { begun = 0; ended = [] } }

    // There is room for each device and each monitor.
    requires works { vec_len starts ≤ vec_capacity rooms.works }
    requires runs { vec_len starts ≤ vec_capacity rooms.runs }
    requires watching { vec_len monitor_starts ≤ vec_capacity rooms.watching }
    requires watched { vec_len monitor_starts ≤ vec_capacity rooms.watched }

    // The threads begin with these.
    ensures starts { result.starts ≡ starts }
    ensures monitor_starts { result.monitor_starts ≡ monitor_starts }
    ensures door { result.door ≡ door }
{
    let Rooms {
        works,
        runs,
        watching,
        watched,
    } = rooms;
    Setup {
        starts,
        monitor_starts,
        door,
        roll,
        works,
        runs,
        watching,
        watched,
    }
}

/// Starts the monitors.
#[tactic(auto, using(serve_workers::proofs::Zips::ran_none, serve_workers::proofs::Zips::ran_more, serve_workers::proofs::Zips::ran_all))]
fn start_monitors<'s, E, R: Threads + Wait + Copy + Send + Sync + 's>(
    spawner: &Spawner<'s, E, R>,
    monitor_starts: Vec<MonitorStart>,
    tries: u32,
    bells: &'s Bells,
    room: Vec<Work<ReadingsDone, MonitorPromise>>,
) -> Vec<Work<ReadingsDone, MonitorPromise>>
    requires none { room.items ≡ [] }
    requires empty { vec_len room ≡ 0 }
    requires enough { vec_len monitor_starts ≤ vec_capacity room }
    ensures started { AllZip (WatchesFor tries) monitor_starts.items result.items }
    ensures count { vec_len result ≡ vec_len monitor_starts }
{
    let mut works = room;
    'monitor_starts: for monitor_start in monitor_starts {
        let own = bells.monitor(works.len());
        works.push_reserved(start_monitor(spawner, monitor_start, tries, own));
    }
    works
}

/// Starts the readers of the devices.
#[tactic(auto, using(serve_workers::proofs::Zips::ran_none, serve_workers::proofs::Zips::ran_more, serve_workers::proofs::Zips::ran_all, crate::proofs::Stamps::none_numbered, crate::proofs::Stamps::none_counted))]
fn start_devices<
    's,
    E,
    S: Source + Send + 's,
    C: Clock + Send + 's,
    D: Dials + Send + Sync + 's,
    R: Wait + Copy + Send + Sync + 's,
>(
    spawner: &Spawner<'s, E, R>,
    starts: Vec<DeviceStart<S, R>>,
    clock: &'s Mutex<SharedClock<C, D>>,
    roll: &mut StampRoll<D>,
    bells: &'s Bells,
    room: Vec<DeviceWork<S, D, R>>,
) -> Vec<DeviceWork<S, D, R>>
    // The room is empty, and large enough.
    requires told { EachTold S.content starts.items }
    requires none { room.items ≡ [] }
    requires empty { vec_len room ≡ 0 }
    requires enough { vec_len starts ≤ vec_capacity room }

    // The readers of each device work on its start.
    ensures started { AllZip ReadersAre starts.items result.items }
    ensures count { vec_len result ≡ vec_len starts }

    // Each device has the next share of the clock's stamps; no share has come back.
    ensures shares { AreNumbered roll.old.begun result.items }
    ensures ended { roll.new.ended ≡ roll.old.ended }
{
    let mut works = room;
    'starts: for start in starts {
        let own = bells.device(works.len());
        let share = clock.lock(&spawner.rt).begin(roll);
        works.push_reserved(start_readers(spawner, start, clock, share, own, &bells.pump));
    }
    works
}

/// Waits for the readers of the devices, and takes in their shares of the clock's stamps.
#[tactic(auto, using(serve_workers::proofs::Zips::ran_none, serve_workers::proofs::Zips::ran_more, serve_workers::proofs::Zips::ran_all, crate::proofs::Stamps::none_used, serve_end::proofs::Causes::each_run_more))]
fn join_devices<S: Source, C: Clock, D: Dials, R: Wait + Copy, T: Threads + Wait>(
    rt: &T,
    clock: &Mutex<SharedClock<C, D>>,
    roll: &mut StampRoll<D>,
    works: Vec<DeviceWork<S, D, R>>,
    room: Vec<DeviceRun<S, R>>,
) -> Vec<DeviceRun<S, R>>
    // No share of the stamps has come back, and the room is empty and large enough.
    requires no_share { roll.old.ended ≡ [] }
    requires none { room.items ≡ [] }
    requires empty { vec_len room ≡ 0 }
    requires enough { vec_len works ≤ vec_capacity room }

    // The readers of each device did their work, and met only faults of its sources.
    ensures joined { AllZip (JoinsDevice D.may (source_facts S.Source)) works.items result.items }
    ensures causes { EachRun (RunCause S.faults) result.items }
    ensures count { vec_len result ≡ vec_len works }

    // The pieces of each device have the stamps of its share.
    ensures shares { SharesUsed works.items result.items roll.new.ended }
{
    let mut runs = room;
    'works: for work in works {
        let JoinedDevice { run, share } = join_readers(rt, work);
        clock.lock(rt).end(roll, share);
        runs.push_reserved(run);
    }
    runs
}

/// Waits for the monitors.
#[tactic(auto, using(serve_workers::proofs::Zips::ran_none, serve_workers::proofs::Zips::ran_more, serve_workers::proofs::Zips::ran_all))]
fn join_monitors<T: Threads>(
    rt: &T,
    works: Vec<Work<ReadingsDone, MonitorPromise>>,
    room: Vec<ReadingsDone>,
) -> Vec<ReadingsDone>
    requires none { room.items ≡ [] }
    requires empty { vec_len room ≡ 0 }
    requires enough { vec_len works ≤ vec_capacity room }
    ensures joined { AllZip JoinsMonitor works.items result.items }
    ensures count { vec_len result ≡ vec_len works }
{
    let mut watched = room;
    'works: for work in works {
        watched.push_reserved(work.join(rt));
    }
    watched
}

/// Starts all threads, pumps until all devices have stopped, and joins them. If there is no thread for the door or the publisher, no device is read,
/// and each is lost.
#[tactic(auto, using(crate::proofs::Started::devices_ran, crate::proofs::Started::monitors_ran))]
fn work<
    's,
    E,
    S: Source + Send + 's,
    K: ClientSink + Send + 's,
    G: Door<In = S, Out = K> + Send + 's,
    C: Clock + Send + 's,
    J: HubNaming + Send + Sync + 's,
    D: Dials + Send + Sync + 's,
    R: Threads + Wait + Copy + Send + Sync + 's,
    V: Waker,
>(
    spawner: &Spawner<'s, E, R>,
    shared: Shared<'s, C, J, D, R>,
    waker: &V,
    tries: u32,
    setup: Setup<S, K, G, D, J, R>,
) -> Ended<S, K, G, J, R>
    // What became of the door and its links.
    ensures fails { DoorFails G.faults setup.door.gate result }
    ensures tended { DoorTended (source_facts S.Source) (sink_facts K.ClientSink)
        (gate_facts G.Door) setup.door.queue setup.door.gate result }

    // What the readers of the devices did.
    ensures causes { ReadersHaveCauses S.faults result }
    ensures ran { ReadersRan D.may (source_facts S.Source) setup.starts.items result }
    ensures stamped { StampedIf D.first setup.starts.items result }

    // What the monitors did.
    ensures watched { MonitorsWatched tries setup.monitor_starts.items result }
{
    let (rt, alloc, scope) = (spawner.rt, spawner.alloc, spawner.scope);
    let Shared {
        floor,
        clock,
        bells,
    } = shared;
    let Setup {
        starts,
        monitor_starts,
        door,
        mut roll,
        works,
        runs,
        watching,
        watched,
    } = setup;
    let closer = door.gate.closer();
    let queue = door.queue;
    let publisher = start_publisher(spawner, floor, bells, &closer);
    let context = DoorContext {
        spawner: Spawner { rt, alloc, scope },
        floor,
        bells,
    };
    let door = start_door(context, door);
    let watching = start_monitors(spawner, monitor_starts, tries, bells, watching);
    let works = start_devices(spawner, starts, clock, &mut roll, bells, works);
    pump(&rt, alloc, floor, bells, queue);
    // The door worker finds its bell closed, once its call returns.
    if let Some(closer) = closer {
        closer.close();
    }
    let held = wake_readers(&rt, floor, waker);
    let runs = join_devices(&rt, clock, &mut roll, works, runs);
    drop(held);
    clock.lock(&rt).settle(roll);
    let watched = join_monitors(&rt, watching, watched);
    publisher.join(&rt);
    let door = door.join(&rt);
    Ended {
        runs,
        watched,
        door,
    }
}

/// Runs all threads in a scope. Nothing is refused here: all room was taken before.
pub(crate) fn in_scope<
    'e,
    S: Source + Send + 'e,
    K: ClientSink + Send + 'e,
    G: Door<In = S, Out = K> + Send + 'e,
    C: Clock + Send + 'e,
    J: HubNaming + Send + Sync + 'e,
    D: Dials + Send + Sync + 'e,
    R: Threads + Wait + Copy + Send + Sync + 'e,
    V: Waker,
>(
    rt: R,
    alloc: Global,
    shared: Shared<'e, C, J, D, R>,
    waker: &V,
    tries: u32,
    setup: Setup<S, K, G, D, J, R>,
) -> Ended<S, K, G, J, R>
    // What became of the door and its links.
    ensures fails { DoorFails G.faults setup.door.gate result }
    ensures tended { DoorTended (source_facts S.Source) (sink_facts K.ClientSink)
        (gate_facts G.Door) setup.door.queue setup.door.gate result }

    // What the readers of the devices did.
    ensures causes { ReadersHaveCauses S.faults result }
    ensures ran { ReadersRan D.may (source_facts S.Source) setup.starts.items result }
    ensures stamped { StampedIf D.first setup.starts.items result }

    // What the monitors did.
    ensures watched { MonitorsWatched tries setup.monitor_starts.items result }
{
    thread::scope(
        thread::scope_env(),
        &rt,
        move |scope| work(&Spawner { rt, alloc, scope }, shared, waker, tries, setup),
    )
}
