ghost use Rattle.std.specs.Prelude.{◌≡◌, ◌<◌, ◌≤◌, ◌⊎◌, ℕ, List, [], ◌++◌, true, false, length, Option, None};
ghost use Rattle.gps_outside.specs.Counts.{Rose};
ghost use Rattle.gps_outside.specs.declared.sink.WriteStep.{WriteStep};
ghost use Rattle.gps_outside.specs.Writes.{AllowsInParts, FailsOnly, FitsPiece, Writes as WritesPiece, WritesAll};
ghost use Rattle.serve_workers.specs.declared.writer.WriterEnd.{WriterEnd};
ghost use Rattle.serve_workers.specs.Writing.{Gathers, MayWriteOn, Writes};

use gps_lane::{Bell, Rx};
use gps_outside::{ClientSink, WriteStep};
use session_core::Item;
use std::alloc::Global;
use std::sync::Wait;

/// How the writing of a session ended.
#[derive(Clone, Copy, Debug, PartialEq, Eq)]
pub enum WriterEnd {
    /// All items that were received were written, and delivered if the writer was the last to write.
    Drained,
    /// The sink failed.
    WriteFault,
}

/// The room for the items of one write. Each session has it, so it is small.
const ROOM: usize = 16_384;

/// Writes a piece. Once the bell is closed, the sink is told before each write that what is still to be written is bounded.
fn write_piece<K: ClientSink>(own: &Bell, sink: &mut K, piece: &[u8]) -> bool
    requires allowed { AllowsInParts K.asks K.written K.allows sink.old piece.now }

    // What was written. What its client sends stays as it was.
    ensures client { K.asks sink.new ≡ K.asks sink.old }
    ensures bytes { WritesAll result piece.now (K.written sink.old) (K.written sink.new) }
    ensures unmodelled { K.written sink.old ≡ None → K.written sink.new ≡ None }

    // It failed exactly if the faults rose.
    ensures faults_stay { K.faults sink.old ≤ K.faults sink.new }
    ensures failed { result ≡ false → Rose (K.faults sink.old) (K.faults sink.new) }
    ensures fails_only { result ≡ true → K.faults sink.new ≡ K.faults sink.old }
{
    let mut rest = piece;
    'writes: while !rest.is_empty() {
        match write_some(own, sink, rest) {
            WriteStep::Wrote(n) => rest = &rest[n..],
            WriteStep::Failed => return false,
        }
    }
    true
}

fn tell_end<K: ClientSink>(own: &Bell, sink: &mut K)
    ensures client { K.asks sink.new ≡ K.asks sink.old }
    ensures bytes { K.written sink.new ≡ K.written sink.old }
    ensures faults { K.faults sink.new ≡ K.faults sink.old }
{
    if own.is_closed() {
        sink.end_soon();
    }
}

fn write_some<K: ClientSink>(own: &Bell, sink: &mut K, piece: &[u8]) -> WriteStep
    requires some { 0 < length piece.now }
    requires allowed { (now : K) → K.asks now ≡ K.asks sink.old → K.written now ≡ K.written sink.old → K.allows now piece.now }

    // What was written. What its client sends stays as it was.
    ensures client { K.asks sink.new ≡ K.asks sink.old }
    ensures fits { FitsPiece result (length piece.now) }
    ensures bytes { WritesPiece result piece.now (K.written sink.old) (K.written sink.new) }
    ensures unmodelled { K.written sink.old ≡ None → K.written sink.new ≡ None }

    // It failed exactly if the faults rose.
    ensures faults_stay { K.faults sink.old ≤ K.faults sink.new }
    ensures failed { result ≡ WriteStep.Failed → Rose (K.faults sink.old) (K.faults sink.new) }
    ensures fails_only { FailsOnly result (K.faults sink.old) (K.faults sink.new) }
{
    tell_end(own, sink);
    sink.write(piece)
}

/// Takes the waiting items for which the buffer has room. The first one without room is handed back.
fn gather<R: Wait + Copy>(rt: &R, items: &mut Rx<Item, R>, joined: &mut Vec<u8>) -> Option<Item>
    ensures gathers { Gathers result joined.old.items joined.new.items items.old.got items.new.got }
    ensures lane { items.new ≡ record items.old { got = items.new.got } }
{
    'items: for _ in rt.forever() {
        let Some(item) = items.pop() else {
            return None;
        };
        if joined.capacity() - joined.len() < item.bytes().len() {
            return Some(item);
        }
        match joined.extend_from_slice(item.bytes()) {
            Ok(()) => {}
            Err(_) => return Some(item),
        }
    }
    unreachable!()
}

/// Begins the empty buffer with an item, unless it has no room for it.
fn begin(joined: &mut Vec<u8>, item: &Item) -> bool
    requires { joined.old.items ≡ [] }
    ensures put { result ≡ true → joined.new.items ≡ item.now }
    ensures empty { result ≡ false → joined.new.items ≡ [] }
{
    if joined.capacity() < item.bytes().len() {
        return false;
    }
    match joined.extend_from_slice(item.bytes()) {
        Ok(()) => true,
        Err(_) => false,
    }
}

/// Writes the items of a session until its bell is closed and none waits: all that wait in one write, as far as the buffer
/// holds them. It sleeps on its bell only after a round that found none.
fn write_on<K: ClientSink, R: Wait + Copy>(
    rt: &R,
    items: &mut Rx<Item, R>,
    own: &Bell,
    sink: &mut K,
    room: Vec<u8>,
) -> WriterEnd
    requires room { room.items ≡ [] }

    // The sink allows what is due, and after a drained lane it still does.
    requires goes_on { MayWriteOn K.asks K.written K.allows sink.old items.old }
    ensures goes_on { result ≡ WriterEnd.Drained → MayWriteOn K.asks K.written K.allows sink.new items.new }

    // What was written is what was received.
    ensures writes { Writes result items.old.got items.new.got (K.written sink.old) (K.written sink.new) }
    ensures lane { items.new ≡ record items.old { got = items.new.got } }

    // It ended with a fault exactly if the faults rose.
    ensures faults_stay { K.faults sink.old ≤ K.faults sink.new }
    ensures failed { result ≡ WriterEnd.WriteFault → Rose (K.faults sink.old) (K.faults sink.new) }
    ensures sound { result ≡ WriterEnd.Drained → K.faults sink.new ≡ K.faults sink.old }
{
    let mut joined = room;
    'rounds: for _ in rt.forever() {
        let closed = own.is_closed();
        let over = gather(rt, items, &mut joined);
        items.show_due();
        if !write_piece(own, sink, joined.as_slice()) {
            return WriterEnd::WriteFault;
        }
        let nothing = joined.is_empty();
        joined.clear();
        match over {
            Some(item) => {
                if begin(&mut joined, &item) {
                    continue;
                }
                if !write_piece(own, sink, item.bytes()) {
                    return WriterEnd::WriteFault;
                }
            }
            None => {
                if nothing {
                    if closed {
                        return WriterEnd::Drained;
                    }
                    own.wait(rt);
                }
            }
        }
    }
    unreachable!()
}

/// Delivers what was written to the client, which also ends a read of the same socket.
#[tactic(auto, using(crate::proofs::Rounds::undelivered))]
fn deliver<K: ClientSink>(sink: &mut K, end: WriterEnd) -> WriterEnd
    ensures client { K.asks sink.new ≡ K.asks sink.old }
    ensures bytes { K.written sink.new ≡ K.written sink.old }
    ensures writes { (got got' : List (List ℕ)) (before : Option (List ℕ)) → Writes end got got' before (K.written sink.old)
        → Writes result got got' before (K.written sink.new) }
    ensures faults_stay { K.faults sink.old ≤ K.faults sink.new }
    ensures failed { result ≡ WriterEnd.WriteFault → (end ≡ WriterEnd.WriteFault) ⊎ Rose (K.faults sink.old) (K.faults sink.new) }
    ensures sound { result ≡ WriterEnd.Drained → (end ≡ WriterEnd.Drained) × (K.faults sink.new ≡ K.faults sink.old) }
{
    let delivered = sink.deliver();
    if delivered {
        return end;
    }
    WriterEnd::WriteFault
}

/// Writes the items of a session until its bell is closed and none waits, or its sink fails, and then delivers them to the client. That ends a
/// read of the same socket.
///
/// It asks for 16 KB once, to join what waits; if they are refused, it writes item by item. Once its bell is closed, the sink is told that it
/// ends soon, so that a slow client does not hold it up.
///
/// Each write is one that the sink allows, also of a writer that never returns: with what was written before, it begins what the client is due.
pub fn write_items<K: ClientSink, R: Wait + Copy>(
    rt: &R,
    alloc: Global,
    items: &mut Rx<Item, R>,
    own: &Bell,
    sink: &mut K,
) -> WriterEnd
    requires goes_on { MayWriteOn K.asks K.written K.allows sink.old items.old }
    ensures goes_on { result ≡ WriterEnd.Drained → MayWriteOn K.asks K.written K.allows sink.new items.new }

    // What was written is what was received.
    ensures writes { Writes result items.old.got items.new.got (K.written sink.old) (K.written sink.new) }
    ensures lane { items.new ≡ record items.old { got = items.new.got } }

    // It ended with a fault exactly if the faults rose.
    ensures faults_stay { K.faults sink.old ≤ K.faults sink.new }
    ensures failed { result ≡ WriterEnd.WriteFault → Rose (K.faults sink.old) (K.faults sink.new) }
    ensures sound { result ≡ WriterEnd.Drained → K.faults sink.new ≡ K.faults sink.old }
{
    let room = match Vec::with_capacity(alloc, ROOM) {
        Ok(room) => room,
        Err(_) => Vec::new(alloc),
    };
    let end = write_on(rt, items, own, sink, room);
    deliver(sink, end)
}
