ghost use Rattle.std.specs.Prelude.{◌≡◌, ◌<◌, ◌++◌, [], length, get_or, None, option_map};
ghost use Rattle.std.specs.Option.{option_to_list};
ghost use Rattle.gps_outside.specs.Writes.{AllowsInParts};
ghost use Rattle.hub_door.specs.Admissions.{SessionLanes};
ghost use Rattle.hub_promise.specs.Given.{TellsOnce};
ghost use Rattle.serve_workers.specs.declared.session.SessionLink.{SessionLink};
ghost use Rattle.serve_workers.specs.Sessions.{SessionRuns};
ghost use Rattle.serve_workers.specs.declared.writer.WriterEnd.{WriterEnd};
ghost use Rattle.serve_door.specs.Released.{AreEndsOf, GotMore, WritesItem, WritesOn};

use gps_hub::{DoorSeat, Hub, HubNaming};
use gps_lane::Rx;
use gps_outside::{ClientSink, Source, send_all};
use serve_floor::Floor;
use serve_workers::{LinkDone, WriterDone, WriterEnd};
use session_core::Item;
use std::sync::{Mutex, Wait};

/// How many items are dropped under one lock at most.
const BATCH: u32 = 256;

/// Gets the next item of a closed session's outlet, and drops it. False if there is none.
#[tactic(auto, using(crate::proofs::Released::got_item))]
fn drop_item<J: HubNaming, R: Wait + Copy>(
    hub: &mut Hub<J, R>,
    seat: &mut DoorSeat<J>,
    number: u32,
    items: &mut Rx<Item, R>,
) -> bool
    requires there { number < length seat.old.links }
    requires outlet { (free : SessionLanes) → items.old.lane ≡ (get_or seat.old.links number free).outlet }
    ensures seat { seat.new ≡ seat.old }
    ensures items { GotMore items.old items.new }
{
    hub.settle_outlet(seat, number, items).is_some()
}

/// Gets at most `BATCH` of the next items of a closed session's outlet, and drops them. False if none is left.
#[tactic(auto, using(crate::proofs::Released::got_none, crate::proofs::Released::got_on, crate::proofs::Released::outlet_still))]
fn drop_items<J: HubNaming, R: Wait + Copy>(
    hub: &mut Hub<J, R>,
    seat: &mut DoorSeat<J>,
    number: u32,
    items: &mut Rx<Item, R>,
) -> bool
    requires there { number < length seat.old.links }
    requires outlet { (free : SessionLanes) → items.old.lane ≡ (get_or seat.old.links number free).outlet }
    ensures seat { seat.new ≡ seat.old }
    ensures items { GotMore items.old items.new }
{
    'items: for _ in 0..BATCH {
        if !drop_item(hub, seat, number, items) {
            return false;
        }
    }
    true
}

/// Gets the next items of a closed session whose sink has failed, under one lock. False if none is left.
#[tactic(auto, using(crate::proofs::Released::skipped_on))]
fn skip_items<K: ClientSink, J: HubNaming, R: Wait + Copy>(
    rt: &R,
    floor: &Mutex<Floor<J, R>>,
    seat: &mut DoorSeat<J>,
    number: u32,
    writer: &mut WriterDone<K, R>,
) -> bool
    requires there { number < length seat.old.links }
    requires outlet { (free : SessionLanes) → writer.old.items.lane ≡ (get_or seat.old.links number free).outlet }
    requires failed { writer.old.end ≡ WriterEnd.WriteFault }
    ensures seat { seat.new ≡ seat.old }
    ensures on { WritesOn K.written K.faults writer.old writer.new }
{
    drop_items(&mut floor.lock(rt).hub, seat, number, &mut writer.items)
}

/// Gets the next item of a closed session's outlet, if there is one.
fn next_item<J: HubNaming, R: Wait + Copy>(
    rt: &R,
    floor: &Mutex<Floor<J, R>>,
    seat: &mut DoorSeat<J>,
    number: u32,
    items: &mut Rx<Item, R>,
) -> Option<Item>
    requires there { number < length seat.old.links }
    requires outlet { (free : SessionLanes) → items.old.lane ≡ (get_or seat.old.links number free).outlet }
    ensures seat { seat.new ≡ seat.old }
    ensures items { items.new ≡ record items.old { got = items.old.got ++ option_to_list result } }
{
    floor.lock(rt).hub.settle_outlet(seat, number, items)
}

/// Writes an item, unless the sink had failed.
#[tactic(auto, using(crate::proofs::Released::item_written, crate::proofs::Released::item_cut, crate::proofs::Released::item_skipped))]
fn write_item<K: ClientSink>(end: WriterEnd, sink: &mut K, item: Item) -> WriterEnd
    requires allowed { end ≡ WriterEnd.Drained → AllowsInParts K.asks K.written K.allows sink.old item }
    ensures client { K.asks sink.new ≡ K.asks sink.old }
    ensures all { result ≡ WriterEnd.Drained → (end ≡ WriterEnd.Drained) × (K.written sink.new ≡ option_map (λ bytes. bytes ++ item) (K.written sink.old)) }
    ensures item { WritesItem item end result (K.written sink.old) (K.written sink.new) (K.faults sink.old) (K.faults sink.new) }
{
    match end {
        WriterEnd::WriteFault => return WriterEnd::WriteFault,
        WriterEnd::Drained => {}
    }
    if send_all(sink, item.bytes()) {
        return WriterEnd::Drained;
    }
    WriterEnd::WriteFault
}

/// Gets the next item of a closed session's outlet, and writes it unless the sink had failed. False if there is none.
#[tactic(auto, using(crate::proofs::Released::none_on))]
fn write_next<K: ClientSink, J: HubNaming, R: Wait + Copy>(
    rt: &R,
    floor: &Mutex<Floor<J, R>>,
    seat: &mut DoorSeat<J>,
    number: u32,
    writer: &mut WriterDone<K, R>,
) -> bool
    requires there { number < length seat.old.links }
    requires outlet { (free : SessionLanes) → writer.old.items.lane ≡ (get_or seat.old.links number free).outlet }
    ensures seat { seat.new ≡ seat.old }
    ensures on { WritesOn K.written K.faults writer.old writer.new }
{
    let Some(item) = next_item(rt, floor, seat, number, &mut writer.items) else {
        return false;
    };
    writer.items.show_due();
    writer.end = write_item(writer.end, &mut writer.sink, item);
    true
}

/// Gets the next item of a closed session's outlet, and writes it; or gets and drops up to `BATCH`, if its sink has failed. False if none is left.
fn get_next<K: ClientSink, J: HubNaming, R: Wait + Copy>(
    rt: &R,
    floor: &Mutex<Floor<J, R>>,
    seat: &mut DoorSeat<J>,
    number: u32,
    writer: &mut WriterDone<K, R>,
) -> bool
    requires there { number < length seat.old.links }
    requires outlet { (free : SessionLanes) → writer.old.items.lane ≡ (get_or seat.old.links number free).outlet }
    ensures seat { seat.new ≡ seat.old }
    ensures on { WritesOn K.written K.faults writer.old writer.new }
{
    match writer.end {
        WriterEnd::WriteFault => skip_items(rt, floor, seat, number, writer),
        WriterEnd::Drained => write_next(rt, floor, seat, number, writer),
    }
}

/// Gets the items that a closed session's outlet still holds, and writes them until the sink fails. No item is written under the lock.
#[tactic(auto, using(crate::proofs::Released::on_none, crate::proofs::Released::outlet_still))]
fn empty_outlet<K: ClientSink, J: HubNaming, R: Wait + Copy>(
    rt: &R,
    floor: &Mutex<Floor<J, R>>,
    seat: &mut DoorSeat<J>,
    number: u32,
    writer: &mut WriterDone<K, R>,
)
    requires there { number < length seat.old.links }
    requires outlet { (free : SessionLanes) → writer.old.items.lane ≡ (get_or seat.old.links number free).outlet }
    ensures seat { seat.new ≡ seat.old }
    ensures on { WritesOn K.written K.faults writer.old writer.new }
{
    'items: for _ in rt.forever() {
        if !get_next(rt, floor, seat, number, writer) {
            return;
        }
    }
    unreachable!()
}

/// Empties the two lanes of a closed session, so that they need no memory from then on. Items are written unless a write of this session
/// failed; otherwise they are dropped, as is what the input lane holds.
#[tactic(auto, using(crate::proofs::Released::input_still))]
pub(crate) fn release_lanes<S: Source, K: ClientSink, J: HubNaming, R: Wait + Copy>(
    rt: &R,
    floor: &Mutex<Floor<J, R>>,
    seat: &mut DoorSeat<J>,
    number: u32,
    run: LinkDone<S, K, R>,
) -> LinkDone<S, K, R>
    requires ends { AreEndsOf seat.old number run.writer.items run.reader.pieces }
    requires once { TellsOnce run.reader.pieces.put }
    ensures seat { seat.new ≡ seat.old }
    ensures runs { (link : SessionLink S K R) → SessionRuns S.content S.faults S.quiets K.written K.faults link run
        → SessionRuns S.content S.faults S.quiets K.written K.faults link result }
{
    let LinkDone {
        mut reader,
        mut writer,
    } = run;
    empty_outlet(rt, floor, seat, number, &mut writer);
    floor
        .lock(rt)
        .hub
        .settle_input(seat, number, &mut reader.pieces);
    LinkDone { reader, writer }
}
