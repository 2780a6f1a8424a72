ghost use Rattle.std.specs.Prelude.{◌≡◌, ◌<◌, ◌≤◌, ◌++◌, ℕ, List, [], length, Option, IfNone, None, false, true};
ghost use Rattle.std.specs.Option.{option_to_list};
ghost use Rattle.book_sessions.specs.MemberView.{MemberView};
ghost use Rattle.gps_lane.specs.Ends.{Taking};
ghost use Rattle.gps_fixed.specs.Lists.{IsPrefix};
ghost use Rattle.gps_outside.specs.Counts.{Rose};
ghost use Rattle.gps_outside.specs.Writes.{AllowsInParts, WritesAll};
ghost use Rattle.serve_workers.specs.Writing.{MayWriteOn};
ghost use Rattle.serve_workers.specs.declared.writer.WriterEnd.{WriterEnd};
ghost use Rattle.serve_workers.specs.declared.session.SessionLink.{SessionLink};
ghost use Rattle.serve_workers.specs.Sessions.{SessionRuns, Wrote};
ghost use Rattle.serve_end.specs.Lanes.{OneMoreAtMost, Settles};
ghost use Rattle.serve_end.specs.Outlets.{Empties, IsOutletOf, given_to, writer_end};

use crate::done::SessionDone;
use crate::reader::{SettledReader, settle_reader};
use gps_lane::{Piece, Rx, Tx};
use gps_outside::{ClientSink, Source, send_all};
use output_lines::SessionEnd;
use report_book::Book;
use serve_workers::{LinkDone, WriterDone, WriterEnd};
use session_core::Item;
use std::sync::Wait;

fn session_end(end: WriterEnd) -> SessionEnd
    ensures { writer_end result ≡ end }
{
    match end {
        WriterEnd::Drained => SessionEnd::Drained,
        WriterEnd::WriteFault => SessionEnd::WriteFault,
    }
}

/// Gets the next item of a session's outlet, if there is one.
#[tactic(auto, using(hub_promise::proofs::Settling::settles, hub_promise::proofs::Settling::far_end))]
fn next_item<R: Wait + Copy>(
    book: &mut Book<Tx<Item, R>>,
    number: u32,
    items: &mut Rx<Item, R>,
) -> Option<Item>
    requires there { number < length book.old.sessions }
    requires outlet { IsOutletOf number items.old book.old }
    ensures book { book.new ≡ book.old }
    ensures items { items.new ≡ record items.old { got = items.old.got ++ option_to_list result } }
    ensures begins { (free : MemberView) → IsPrefix items.new.got (given_to number book.old free) }
    ensures all { IfNone result ((free : MemberView) → items.new.got ≡ given_to number book.old free) }
{
    match book.settle(number, items) {
        Ok(item) => item,
        Err(_) => unreachable!(),
    }
}

/// Writes an item; false if the sink failed.
fn write_item<K: ClientSink>(sink: &mut K, item: Item) -> bool
    requires allowed { AllowsInParts K.asks K.written K.allows sink.old item }

    // What was written. What its client sends stays as it was.
    ensures client { K.asks sink.new ≡ K.asks sink.old }
    ensures bytes { WritesAll result item (K.written sink.old) (K.written sink.new) }
    ensures unmodelled { K.written sink.old ≡ None → K.written sink.new ≡ None }

    // It failed exactly if the faults rose.
    ensures faults_stay { K.faults sink.old ≤ K.faults sink.new }
    ensures failed { result ≡ false → Rose (K.faults sink.old) (K.faults sink.new) }
    ensures fails_only { result ≡ true → K.faults sink.new ≡ K.faults sink.old }
{
    send_all(sink, item.bytes())
}

/// Writes the items that a session's outlet still holds, until it holds none or the sink fails.
fn drain<K: ClientSink, R: Wait + Copy>(
    rt: &R,
    book: &mut Book<Tx<Item, R>>,
    number: u32,
    items: &mut Rx<Item, R>,
    sink: &mut K,
) -> WriterEnd
    requires there { number < length book.old.sessions }
    requires outlet { IsOutletOf number items.old book.old }

    // The sink allows what is due, and after a drained outlet it still does.
    requires goes_on { MayWriteOn K.asks K.written K.allows sink.old items.old }
    ensures goes_on { result ≡ WriterEnd.Drained → MayWriteOn K.asks K.written K.allows sink.new items.new }

    // The book stays, and the outlet gives its items in order.
    ensures book { book.new ≡ book.old }
    ensures outlet { (free : MemberView) → Empties result (given_to number book.old free) items.old items.new }
    ensures wrote { Wrote result items.old items.new (K.written sink.old) (K.written sink.new) (K.faults sink.old) (K.faults sink.new) }
{
    'items: for _ in rt.forever() {
        match next_item(book, number, items) {
            Some(item) => {
                items.show_due();
                if !write_item(sink, item) {
                    return WriterEnd::WriteFault;
                }
            }
            None => return WriterEnd::Drained,
        }
    }
    unreachable!()
}

/// Writes what a session's outlet still holds, if its writer wrote all that it received. Otherwise receives at most one more item, unwritten.
fn settle_outlet<K: ClientSink, R: Wait + Copy>(
    rt: &R,
    book: &mut Book<Tx<Item, R>>,
    number: u32,
    writer: WriterDone<K, R>,
) -> WriterDone<K, R>
    requires there { number < length book.old.sessions }
    requires outlet { IsOutletOf number writer.items book.old }
    ensures book { book.new ≡ book.old }
    ensures outlet { (free : MemberView) → Empties result.end (given_to number book.old free) writer.items result.items }
    ensures wrote { (rx : Taking (List ℕ)) (before : Option (List ℕ)) (faults : ℕ)
        → Wrote writer.end rx writer.items before (K.written writer.sink) faults (K.faults writer.sink)
        → Wrote result.end rx result.items before (K.written result.sink) faults (K.faults result.sink) }
{
    let WriterDone { sink, items, end } = writer;
    let mut sink = sink;
    let mut items = items;
    match end {
        WriterEnd::Drained => {
            let end = drain(rt, book, number, &mut items, &mut sink);
            WriterDone { sink, items, end }
        }
        WriterEnd::WriteFault => {
            let _ = next_item(book, number, &mut items);
            WriterDone { sink, items, end }
        }
    }
}

/// Puts together what is left of a session, and settles its two lanes. At most one more piece is received from its input lane. What its outlet
/// still holds is written, if its writer wrote all that it received.
pub fn session_done<S: Source, K: ClientSink, R: Wait + Copy>(
    rt: &R,
    book: &mut Book<Tx<Item, R>>,
    number: u32,
    run: LinkDone<S, K, R>,
    input: Rx<Piece, R>,
) -> SessionDone<S, K, R>
    // The book has the session, and these are the far ends of its two lanes.
    requires there { number < length book.old.sessions }
    requires input { input.lane ≡ run.reader.pieces.lane }
    requires outlet { IsOutletOf number run.writer.items book.old }

    // The book stays as it is.
    ensures book { book.new ≡ book.old }
    ensures number { result.number ≡ number }

    // The input: what its reader hands back, and at most one more piece.
    ensures source { result.source ≡ run.reader.source }
    ensures input_tx { result.input_tx ≡ run.reader.pieces }
    ensures input_rx { Settles run.reader.pieces input result.input_rx }
    ensures one_more { (link : SessionLink S K R) → SessionRuns S.content S.faults S.quiets K.written K.faults link run → link.pieces.put ≡ []
        → OneMoreAtMost input result.input_rx }

    // The outlet: which items were received, and what was written of them.
    ensures items_rx { (free : MemberView) → Empties (writer_end result.end) (given_to number book.old free) run.writer.items result.items_rx }
    ensures wrote { (link : SessionLink S K R) → SessionRuns S.content S.faults S.quiets K.written K.faults link run
        → Wrote (writer_end result.end) link.items result.items_rx (K.written link.sink) (K.written result.sink) (K.faults link.sink) (K.faults result.sink) }
{
    let LinkDone { reader, writer } = run;
    let SettledReader {
        source,
        tx: input_tx,
        rx: input_rx,
    } = settle_reader(reader, input);
    let WriterDone { sink, items, end } = settle_outlet(rt, book, number, writer);
    SessionDone {
        number,
        source,
        sink,
        input_tx,
        input_rx,
        items_rx: items,
        end: session_end(end),
    }
}
