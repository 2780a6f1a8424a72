ghost use Rattle.std.specs.Prelude.{◌≡◌, ◌≤◌, [], false};
ghost use Rattle.std.specs.Vec.{vec_len, vec_capacity};
ghost use Rattle.gps_fixed.specs.Limits.{most_queue};
ghost use Rattle.serve_workers.specs.Sessions.{SessionRuns};
ghost use Rattle.serve_door.specs.Doors.{FailsBy, IsNewLink, Tended, door_now};

use crate::context::DoorContext;
use crate::doorman::Doorman;
use crate::due_sinks::DueSinks;
use crate::seated::Sessions;
use gps_hub::{DoorSeat, HubNaming};
use gps_outside::{ClientSink, Door, Source};
use serve_end::SessionDone;
use serve_workers::LinkDone;
use std::sync::Wait;
use std::thread::Threads;

/// What the door worker begins with.
#[derive(Drop)]
pub struct DoorBegin<
    S: Source,
    K: ClientSink,
    G: Door<In = S, Out = K>,
    J: HubNaming,
    R: Wait + Copy,
> {
    pub gate: G,
    pub seat: DoorSeat<J>,
    pub room: Vec<SessionDone<S, K, R>>,
    pub queue: u32,
    pub sinks: DueSinks<K, J>,
    pub ghost low: { 1 ≤ queue },
    pub ghost high: { queue ≤ most_queue },
    pub ghost none: { room.items ≡ [] },
    pub ghost new: { seat.links ≡ [] },
    pub ghost no_drops: { seat.drops ≡ [] },
    pub ghost not_done: { seat.done ≡ false },
}

/// What the door worker hands back: what each session handed back, in order, and an empty list with room for one `SessionDone` of each;
/// how many links were dropped for a bound, whether one was dropped for lack of memory, and whether the door failed.
#[derive(Drop)]
pub struct DoorDone<
    S: Source,
    K: ClientSink,
    G: Door<In = S, Out = K>,
    J: HubNaming,
    R: Wait + Copy,
> {
    pub gate: G,
    pub seat: DoorSeat<J>,
    pub runs: Vec<LinkDone<S, K, R>>,
    pub room: Vec<SessionDone<S, K, R>>,
    pub full: u64,
    pub no_memory: bool,
    pub failed: bool,
    pub ghost none: { room.items ≡ [] },
    pub ghost enough: { vec_len runs ≤ vec_capacity room },
}

/// Asks the door for links, at least once, until the bell is closed.
pub(crate) fn tend<
    's,
    E,
    S: Source + Send + 's,
    K: ClientSink + Send + 's,
    G: Door<In = S, Out = K> + Send + 's,
    J: HubNaming + Send + Sync + 's,
    R: Threads + Wait + Copy + Send + Sync + 's,
>(context: &DoorContext<'s, E, J, R>, begin: DoorBegin<S, K, G, J, R>) -> DoorDone<S, K, G, J, R>
    ensures tended { Tended (IsNewLink S.content S.faults S.quiets K.written K.faults)
        (SessionRuns S.content S.faults S.quiets K.written K.faults) begin.queue (G.links begin.gate)
        (door_now (G.links result.gate) (G.faults result.gate) (G.quiets result.gate) result.seat.drops result.full result.no_memory)
        result.seat result.runs.items }
    ensures fails { FailsBy result.failed (G.faults begin.gate) (G.faults result.gate) }
{
    let (rt, alloc) = (context.spawner.rt, context.spawner.alloc);
    let DoorBegin {
        gate,
        seat,
        room,
        queue,
        sinks,
    } = begin;
    let mut doorman = Doorman {
        gate,
        seat,
        sessions: Sessions::none(alloc),
        room,
        full: 0,
        no_memory: false,
        failed: false,
        sinks,
    };
    let mut to_ask = true;
    'asks: for _ in rt.forever() {
        let last = context.bells.door.is_closed();
        to_ask = doorman.step(context, queue, to_ask, last);
        if last {
            return doorman.leave(&rt);
        }
    }
    unreachable!()
}
