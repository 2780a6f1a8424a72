ghost use Rattle.std.specs.Prelude.{◌≡◌};

use crate::context::DoorContext;
use crate::door::{DoorBegin, DoorDone, tend};
use gps_hub::HubNaming;
use gps_outside::{ClientSink, Door, Source};
use serve_workers::{Work, start};
use std::marker::PhantomData;
use std::snapshot::Snapshot;
use std::sync::Wait;
use std::thread::{Promise, Threads};

/// The promise of the door worker's thread: what `tend` ensures for this door.
#[derive(Drop)]
pub struct Tending<G: Door, J: HubNaming> {
    pub gate: Snapshot<G>,
    pub queue: u32,
    marker: PhantomData<J>,
}

impl<S: Source, K: ClientSink, G: Door<In = S, Out = K>, J: HubNaming, R: Wait + Copy> Promise<
    DoorDone<S, K, G, J, R>,
> for Tending<G, J> {
    ghost use Rattle.serve_workers.specs.Sessions.{SessionRuns};
    ghost use Rattle.serve_door.specs.Doors.{FailsBy, IsNewLink, Tended, door_now};

    ghost kept_by = { λ p r. Tended (IsNewLink S.content S.faults S.quiets K.written K.faults)
        (SessionRuns S.content S.faults S.quiets K.written K.faults) p.queue (G.links p.gate.value)
        (door_now (G.links r.gate) (G.faults r.gate) (G.quiets r.gate) r.seat.drops r.full r.no_memory) r.seat r.runs.items
        × FailsBy r.failed (G.faults p.gate.value) (G.faults r.gate) };
}

/// Starts the door worker. If there is no thread for it, no device is read, the door is closed, and it is asked once here.
pub fn start_door<
    's,
    E,
    S: Source + Send + 's,
    K: ClientSink + Send + 's,
    G: Door<In = S, Out = K> + Send + 's,
    J: HubNaming + Send + Sync + 's,
    R: Threads + Wait + Copy + Send + Sync + 's,
>(
    context: DoorContext<'s, E, J, R>,
    begin: DoorBegin<S, K, G, J, R>,
) -> Work<DoorDone<S, K, G, J, R>, Tending<G, J>>
    ensures gate { result.gate.value ≡ begin.gate }
    ensures queue { result.queue ≡ begin.queue }
{
    let promise = Tending {
        gate: Snapshot::of(&begin.gate),
        queue: begin.queue,
        marker: PhantomData,
    };
    let closer = begin.gate.closer();
    let (scope, bells) = (context.spawner.scope, context.bells);
    start(
        scope,
        promise,
        move || tend(&context, begin),
        move || bells.give_up(&closer),
    )
}
