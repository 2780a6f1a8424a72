ghost use Rattle.std.specs.Prelude.{◌≡◌, option_map};
ghost use Rattle.serve_end.specs.Runs.{EdgeCause, EdgesRan, RunCause, source_facts};
ghost use Rattle.gps_serve.specs.Dealt.{UsesShare};
ghost use Rattle.gps_serve.specs.Starts.{AreTold, EdgesTold, edge_start_of};
ghost use Rattle.gps_serve.specs.Works.{BytesAre, EdgesAre, JoinsDevice, ReadersAre};

use crate::starts::{DeviceStart, EdgeStart};
use gps_lane::Bell;
use gps_outside::{Clock, Source};
use serve_end::DeviceRun;
use serve_workers::{
    DeviceBells, DeviceReaderDone, DeviceReading, Dials, EdgeReading, ReaderBells, ReaderDone,
    SharedClock, Spawner, Work, start_device, start_edges,
};
use stamp_shares::StampShare;
use std::sync::{Mutex, Wait};
use std::thread::Threads;

/// The readers of a device at work.
#[derive(Drop)]
pub(crate) struct DeviceWork<S: Source, D: Dials, R: Wait + Copy> {
    bytes: Work<DeviceReaderDone<S, R, D>, DeviceReading<S, R, D>>,
    edges: Option<Work<ReaderDone<S, R>, EdgeReading<S, R>>>,
}

/// What the readers of a device hand back, and its share of the clock's stamps.
#[derive(Drop)]
pub(crate) struct JoinedDevice<S: Source, D: Dials, R: Wait + Copy> {
    pub(crate) run: DeviceRun<S, R>,
    pub(crate) share: StampShare<D>,
}

fn start_edge_work<'s, E, S: Source + Send + 's, R: Wait + Copy + Send + Sync + 's>(
    spawner: &Spawner<'s, E, R>,
    start: Option<EdgeStart<S, R>>,
    own: &'s DeviceBells,
    pump: &'s Bell,
) -> Option<Work<ReaderDone<S, R>, EdgeReading<S, R>>>
    requires told { EdgesTold S.content start }
    ensures { EdgesAre start result }
{
    match start {
        Some(start) => {
            let EdgeStart { source, lines } = start;
            let bells = ReaderBells {
                own: &own.edges,
                alone: &own.alone,
                pump,
            };
            Some(start_edges(spawner, source, lines, bells))
        }
        None => None,
    }
}

/// Starts the readers of a device.
pub(crate) fn start_readers<
    's,
    E,
    S: Source + Send + 's,
    C: Clock + Send + 's,
    D: Dials + Send + Sync + 's,
    R: Wait + Copy + Send + Sync + 's,
>(
    spawner: &Spawner<'s, E, R>,
    start: DeviceStart<S, R>,
    clock: &'s Mutex<SharedClock<C, D>>,
    share: StampShare<D>,
    own: &'s DeviceBells,
    pump: &'s Bell,
) -> DeviceWork<S, D, R>
    requires told { AreTold S.content start }
    ensures started { ReadersAre start result }
    ensures share { result.bytes.share.value ≡ share }
{
    let DeviceStart {
        source,
        bytes,
        edges,
    } = start;
    let bells = ReaderBells {
        own: &own.bytes,
        alone: &own.alone,
        pump,
    };
    let bytes = start_device(spawner, source, clock, share, bytes, bells);
    let edges = start_edge_work(spawner, edges, own, pump);
    DeviceWork { bytes, edges }
}

#[tactic(auto, using(serve_end::proofs::Causes::lines_cause))]
fn join_edges<S: Source, R: Wait + Copy, T: Threads>(
    rt: &T,
    work: Option<Work<ReaderDone<S, R>, EdgeReading<S, R>>>,
) -> Option<ReaderDone<S, R>>
    ensures ran { (start : _) → EdgesAre start work → EdgesRan (source_facts S.Source) (option_map edge_start_of start) result }
    ensures cause { EdgeCause S.faults result }
{
    match work {
        Some(work) => Some(work.join(rt)),
        None => None,
    }
}

/// Waits for the readers of a device.
#[tactic(auto, using(serve_end::proofs::Causes::reads_cause))]
pub(crate) fn join_readers<S: Source, D: Dials, R: Wait + Copy, T: Threads>(
    rt: &T,
    work: DeviceWork<S, D, R>,
) -> JoinedDevice<S, D, R>
    ensures ran { JoinsDevice D.may (source_facts S.Source) work result.run }
    ensures cause { RunCause S.faults result.run }
    ensures share { UsesShare work result.run result.share }
{
    let DeviceWork { bytes, edges } = work;
    let DeviceReaderDone {
        reader: bytes,
        share,
    } = bytes.join(rt);
    let edges = join_edges(rt, edges);
    let run = DeviceRun { bytes, edges };
    JoinedDevice { run, share }
}
