ghost use Rattle.std.specs.Prelude.{◌≡◌, ◌≤◌, [], true, IfOk};
ghost use Rattle.gps_fixed.specs.Limits.{most_queue};
ghost use Rattle.gps_lane.specs.Held.{of_source};
ghost use Rattle.hub_promise.specs.Parts.{subject_of};

use gps_fixed::NoMemory;
use gps_hub::HubNaming;
use gps_lane::{About, Due, Piece, Rx, Tx, lane_about};
use gps_outside::ClientSink;
use serve_workers::SessionBells;
use session_core::Item;
use std::alloc::Global;
use std::marker::Brand;
use std::sync::{Arc, Wait};

/// How many pieces a reader's lane holds.
pub const PIECES: u32 = 64;

/// The bells of a session: once for the door worker, which closes them and asks whether the threads are gone, and once for each thread of the session,
/// which sleeps on them.
#[derive(Drop)]
pub(crate) struct ThreadBells {
    pub(crate) door: Arc<SessionBells>,
    pub(crate) reader: Arc<SessionBells>,
    pub(crate) writer: Arc<SessionBells>,
}

/// The lanes and the bells of a session, before it is admitted.
#[derive(Drop)]
pub(crate) struct Places<R> {
    pub(crate) outlet: Tx<Item, R>,
    pub(crate) items: Rx<Item, R>,
    pub(crate) pieces: Tx<Piece, R>,
    pub(crate) input: Rx<Piece, R>,
    /// The same bells, for the pump.
    pub(crate) pump: Arc<SessionBells>,
    pub(crate) bells: ThreadBells,
}

fn thread_bells(pump: &Arc<SessionBells>) -> Result<ThreadBells, NoMemory> {
    let door = Arc::try_clone(pump)?;
    let reader = Arc::try_clone(pump)?;
    let writer = Arc::try_clone(pump)?;
    Ok(ThreadBells {
        door,
        reader,
        writer,
    })
}

/// A lane about what the call picks, by this sink.
fn lane_of<T: Due + Drop, K, R: Wait + Copy, E: About>(
    rt: R,
    alloc: Global,
    cap: u32,
    _sink: &K,
) -> Result<(Tx<T, R>, Rx<T, R>), NoMemory>
    requires low { 1 ≤ cap }
    requires high { cap ≤ most_queue }

    // A new lane with this room, about what was picked.
    ensures cap { IfOk result (λ ends. ends.0.cap ≡ cap) }
    ensures nothing { IfOk result (λ ends. (ends.0.put ≡ []) × (ends.1.got ≡ [])) }
    ensures open { IfOk result (λ ends. ends.0.is_open ≡ true) }
    ensures one_lane { IfOk result (λ ends. ends.1.lane ≡ ends.0.lane) }
    ensures about { IfOk result (λ ends. (ends.0.about ≡ E.about) × (ends.1.about ≡ E.about)) }
{
    lane_about::<T, R, E>(rt, alloc, cap)
}

/// The lane of a session's items: about the devices of the hub, and what the client sends, if its sink tells that.
fn item_lane<K: ClientSink, J: HubNaming, R: Wait + Copy>(
    rt: R,
    alloc: Global,
    queue: u32,
    sink: &K,
) -> Result<(Tx<Item, R>, Rx<Item, R>), NoMemory>
    requires low { 1 ≤ queue }
    requires high { queue ≤ most_queue }

    // A new lane with this room, about this client.
    ensures cap { IfOk result (λ ends. ends.0.cap ≡ queue) }
    ensures nothing { IfOk result (λ ends. (ends.0.put ≡ []) × (ends.1.got ≡ [])) }
    ensures open { IfOk result (λ ends. ends.0.is_open ≡ true) }
    ensures one_lane { IfOk result (λ ends. ends.1.lane ≡ ends.0.lane) }
    ensures about { IfOk result (λ ends. (ends.0.about ≡ subject_of J.terms (K.asks sink.now)) × (ends.1.about ≡ subject_of J.terms (K.asks sink.now))) }
{
    lane_of::<Item, K, R, Brand>(rt, alloc, queue, sink)
}

/// The lane of a session's input: about what the client sends, if its sink tells that.
fn input_lane<K: ClientSink, R: Wait + Copy>(
    rt: R,
    alloc: Global,
    sink: &K,
) -> Result<(Tx<Piece, R>, Rx<Piece, R>), NoMemory>
    ensures nothing { IfOk result (λ ends. (ends.0.put ≡ []) × (ends.1.got ≡ [])) }
    ensures open { IfOk result (λ ends. ends.0.is_open ≡ true) }
    ensures one_lane { IfOk result (λ ends. ends.1.lane ≡ ends.0.lane) }
    ensures about { IfOk result (λ ends. (ends.0.about ≡ of_source (K.asks sink.now)) × (ends.1.about ≡ of_source (K.asks sink.now))) }
{
    lane_of::<Piece, K, R, Brand>(rt, alloc, PIECES, sink)
}

/// New lanes and bells for a session of a client with this sink.
pub(crate) fn make_places<K: ClientSink, J: HubNaming, R: Wait + Copy>(
    rt: R,
    alloc: Global,
    queue: u32,
    sink: &K,
) -> Result<Places<R>, NoMemory>
    requires low { 1 ≤ queue }
    requires high { queue ≤ most_queue }
    ensures outlet { IfOk result (λ p. (p.outlet.put ≡ []) × (p.outlet.cap ≡ queue)) }
    ensures items { IfOk result (λ p. (p.items.lane ≡ p.outlet.lane) × (p.items.got ≡ [])) }
    ensures input { IfOk result (λ p. (p.input.got ≡ []) × (p.input.lane ≡ p.pieces.lane) × (p.pieces.put ≡ [])) }
    ensures open { IfOk result (λ p. (p.outlet.is_open ≡ true) × (p.pieces.is_open ≡ true)) }

    // What the lanes are about.
    ensures about { IfOk result (λ p. p.outlet.about ≡ subject_of J.terms p.input.about.source) }
    ensures items_about { IfOk result (λ p. p.items.about ≡ subject_of J.terms (K.asks sink.now)) }
    ensures asks { IfOk result (λ p. p.pieces.about.source ≡ K.asks sink.now) }
{
    let (outlet, items) = item_lane::<K, J, R>(rt, alloc, queue, sink)?;
    let (pieces, input) = input_lane::<K, R>(rt, alloc, sink)?;
    let pump = Arc::new(alloc, SessionBells::new())?;
    let bells = thread_bells(&pump)?;
    Ok(Places {
        outlet,
        items,
        pieces,
        input,
        pump,
        bells,
    })
}
