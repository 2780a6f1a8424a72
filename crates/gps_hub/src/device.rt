// What each piece of a device's lanes does to the book.
ghost use Rattle.std.specs.Prelude.{◌≡◌, ℕ, List, [], Some, None, IfOk, OnErr, IfErr};
ghost use Rattle.book_log.specs.Entries.{edged, ended, fed, lost};
ghost use Rattle.gps_lane.specs.Ends.{Taking};
ghost use Rattle.gps_lane.specs.Lane.{MayKeep};
ghost use Rattle.report_book.specs.Allowing.{MayAdd};
ghost use Rattle.report_book.specs.Moves.{AddsQuietly, Earns};
ghost use Rattle.report_book.specs.Refusals.{device_fault};
ghost use Rattle.report_book.specs.Standing.{BookHolds};
ghost use Rattle.report_book.specs.declared.fault.BookFault.TheVariants.{NoMemory as BookNoMemory};
ghost use Rattle.gps_lane.specs.declared.piece.Piece.TheVariants.{Bytes, Line, Last};
ghost use Rattle.hub_promise.specs.Giving.{MayGiveBytes, MayGiveEdge, MayGiveNext};
ghost use Rattle.hub_promise.specs.Given.{end_by, end_of as end_value};
ghost use Rattle.hub_promise.specs.Keeping.{LaneIsRead, Lasts as LastsView};
ghost use Rattle.hub_promise.specs.Parts.{InletsView};
ghost use Rattle.hub_promise.specs.Steps.{DeviceStep, MovesOn, stop_entries, with_bytes, with_edge};
ghost use Rattle.gps_hub.specs.Pumping.{Looked, TookBytes, TookLine};
ghost use Rattle.pps_edges.specs.Scan.{edge_in};

use crate::inlets::{Inlets, Lasts, Next};
use crate::pumped::Pumped;
use gps_fixed::Stamp;
use gps_lane::{Chunk, Ending, Piece, ShortLine, Tx};
use gps_report::Edge;
use hub_promise::DeviceEnd;
use pps_edges::edge_of_line;
use report_book::{Book, BookFault};
use session_core::Item;
use std::sync::Wait;

/// How a device ends, if its two sources ended so.
fn end_of(bytes: Ending, edges: Ending) -> DeviceEnd
    ensures { result ≡ end_value bytes edges }
{
    match bytes {
        Ending::NoMemory => DeviceEnd::NoMemory,
        Ending::End => match edges {
            Ending::End => DeviceEnd::Ended,
            Ending::Failed => DeviceEnd::ReadFault,
            Ending::NoMemory => DeviceEnd::NoMemory,
        },
        Ending::Failed => match edges {
            Ending::End | Ending::Failed => DeviceEnd::ReadFault,
            Ending::NoMemory => DeviceEnd::NoMemory,
        },
    }
}

/// Loses a device.
fn lose<R: Wait + Copy>(book: &mut Book<Tx<Item, R>>, d: u8)
    requires { device_fault book.old d ≡ None }
    ensures lost { AddsQuietly book.old book.new (lost d) }
    ensures earns { Earns book.old book.new (lost d) }
{
    match book.lose_device(d) {
        Ok(()) => {}
        Err(_) => unreachable!(),
    }
}

/// Loses a device, because the book refused a piece of it.
fn refuse<R: Wait + Copy>(
    book: &mut Book<Tx<Item, R>>,
    end: &mut Option<DeviceEnd>,
    d: u8,
    fault: BookFault,
) -> Pumped
    // The device runs, and the book was out of memory.
    requires runs { device_fault book.old d ≡ None }
    requires fault { fault ≡ BookNoMemory }

    // The device is lost.
    ensures lost { AddsQuietly book.old book.new (lost d) }
    ensures earns { Earns book.old book.new (lost d) }
    ensures end { end.new ≡ Some DeviceEnd.NoMemory }

    // The answer is the book's fault.
    ensures answer { result ≡ Pumped.Refused fault }
    ensures memory { fault ≡ BookNoMemory }
{
    lose(book, d);
    *end = Some(DeviceEnd::NoMemory);
    Pumped::Refused(fault)
}

/// Stops a device in the book, given how it ended.
fn stop_as<R: Wait + Copy>(
    book: &mut Book<Tx<Item, R>>,
    d: u8,
    end: DeviceEnd,
) -> Result<(), BookFault>
    requires runs { device_fault book.old d ≡ None }
    requires may { MayAdd MayKeep d (ended d) book.old }
    ensures stops { IfOk result (λ _. MovesOn book.old book.new (stop_entries d (Some end))) }
    ensures refusal { IfErr result (λ fault. fault ≡ BookNoMemory) }
    ensures unchanged { OnErr result (book.new ≡ book.old) }
{
    match end {
        DeviceEnd::Ended => {
            book.show();
            book.end_device(d)?;
            Ok(())
        }
        DeviceEnd::ReadFault | DeviceEnd::NoMemory => {
            lose(book, d);
            Ok(())
        }
    }
}

/// Stops a device in the book, if both of its lanes have told how their source ended.
fn stop<R: Wait + Copy>(
    book: &mut Book<Tx<Item, R>>,
    d: u8,
    bytes: Option<Ending>,
    edges: Option<Ending>,
) -> Result<Option<DeviceEnd>, BookFault>
    requires runs { device_fault book.old d ≡ None }
    requires may { MayAdd MayKeep d (ended d) book.old }
    ensures end { IfOk result (λ end. end ≡ end_by [] bytes edges) }
    ensures stops { IfOk result (λ end. MovesOn book.old book.new (stop_entries d end)) }
    ensures refusal { IfErr result (λ fault. fault ≡ BookNoMemory) }
    ensures unchanged { OnErr result (book.new ≡ book.old) }
{
    let Some(bytes) = bytes else {
        return Ok(None);
    };
    let Some(edges) = edges else {
        return Ok(None);
    };
    let end = end_of(bytes, edges);
    match stop_as(book, d, end) {
        Ok(()) => Ok(Some(end)),
        Err(fault) => Err(fault),
    }
}

fn feed<R: Wait + Copy>(
    book: &mut Book<Tx<Item, R>>,
    end: &mut Option<DeviceEnd>,
    d: u8,
    at: Stamp,
    bytes: &Chunk,
) -> Pumped
    requires runs { device_fault book.old d ≡ None }
    requires going { end.old ≡ None }
    requires may { MayAdd MayKeep d (fed d at bytes.now) book.old }
    ensures step { (x : InletsView) (lasts : LastsView) → DeviceStep d book.old book.new x (with_bytes (Bytes at bytes.now) x) end.old end.new lasts lasts }
    ensures answer { (lasts : LastsView) → TookBytes result d (Bytes at bytes.now) lasts end.new book.old book.new }
{
    book.show();
    match book.feed(d, at, bytes.as_slice()) {
        Ok(()) => Pumped::Fed,
        Err(fault) => refuse(book, end, d, fault),
    }
}

fn bytes_end<R: Wait + Copy>(
    book: &mut Book<Tx<Item, R>>,
    lasts: &mut Lasts,
    end: &mut Option<DeviceEnd>,
    d: u8,
    ending: Ending,
) -> Pumped
    requires runs { device_fault book.old d ≡ None }
    requires going { end.old ≡ None }
    requires may { MayAdd MayKeep d (ended d) book.old }
    ensures step { (x : InletsView) → DeviceStep d book.old book.new x (with_bytes (Last ending) x) end.old end.new lasts.old lasts.new }
    ensures answer { TookBytes result d (Last ending) lasts.old end.new book.old book.new }
{
    match stop(book, d, Some(ending), lasts.edges) {
        Ok(stopped) => {
            lasts.bytes = Some(ending);
            *end = stopped;
            Pumped::Fed
        }
        Err(fault) => {
            lasts.bytes = Some(ending);
            refuse(book, end, d, fault)
        }
    }
}

/// Gives the book a piece of a device's lane.
fn take_bytes<R: Wait + Copy>(
    book: &mut Book<Tx<Item, R>>,
    lasts: &mut Lasts,
    end: &mut Option<DeviceEnd>,
    d: u8,
    piece: Piece,
) -> Pumped
    requires runs { device_fault book.old d ≡ None }
    requires going { end.old ≡ None }
    requires may { MayGiveBytes d piece book.old }
    ensures step { (x : InletsView) → DeviceStep d book.old book.new x (with_bytes piece x) end.old end.new lasts.old lasts.new }
    ensures answer { TookBytes result d piece lasts.old end.new book.old book.new }
{
    match piece {
        Piece::Bytes { at, bytes } => feed(book, end, d, at, &bytes),
        Piece::Last(ending) => bytes_end(book, lasts, end, d, ending),
        Piece::Line(_) => Pumped::Fed,
        Piece::Input(_) => Pumped::Fed,
    }
}

fn edge<R: Wait + Copy>(
    book: &mut Book<Tx<Item, R>>,
    end: &mut Option<DeviceEnd>,
    d: u8,
    edge: Edge,
) -> Pumped
    requires runs { device_fault book.old d ≡ None }
    requires going { end.old ≡ None }
    requires may { MayAdd MayKeep d (edged d edge) book.old }
    ensures step { (line : List ℕ) (x : InletsView) (lane : Taking Piece) (lasts : LastsView) → Some edge ≡ edge_in line → x.edges ≡ Some lane
        → DeviceStep d book.old book.new x (with_edge (Line line) x) end.old end.new lasts lasts }
    ensures answer { (line : List ℕ) (lasts : LastsView) → Some edge ≡ edge_in line → TookLine result d (Line line) lasts end.new book.old book.new }
{
    book.show();
    match book.edge(d, edge) {
        Ok(()) => Pumped::Fed,
        Err(fault) => refuse(book, end, d, fault),
    }
}

/// The edge in a line, if it is readable.
fn read_edge(line: &ShortLine) -> Option<Edge>
    ensures { result ≡ edge_in line.now }
{
    edge_of_line(line.as_slice())
}

fn edges_end<R: Wait + Copy>(
    book: &mut Book<Tx<Item, R>>,
    lasts: &mut Lasts,
    end: &mut Option<DeviceEnd>,
    d: u8,
    ending: Ending,
) -> Pumped
    requires runs { device_fault book.old d ≡ None }
    requires going { end.old ≡ None }
    requires may { MayAdd MayKeep d (ended d) book.old }
    ensures step { (x : InletsView) (lane : Taking Piece) → x.edges ≡ Some lane
        → DeviceStep d book.old book.new x (with_edge (Last ending) x) end.old end.new lasts.old lasts.new }
    ensures answer { TookLine result d (Last ending) lasts.old end.new book.old book.new }
{
    match stop(book, d, lasts.bytes, Some(ending)) {
        Ok(stopped) => {
            lasts.edges = Some(ending);
            *end = stopped;
            Pumped::Fed
        }
        Err(fault) => {
            lasts.edges = Some(ending);
            refuse(book, end, d, fault)
        }
    }
}

fn line<R: Wait + Copy>(
    book: &mut Book<Tx<Item, R>>,
    end: &mut Option<DeviceEnd>,
    d: u8,
    line: &ShortLine,
) -> Pumped
    requires runs { device_fault book.old d ≡ None }
    requires going { end.old ≡ None }
    requires may { MayGiveEdge d (Line line.now) book.old }
    ensures step { (x : InletsView) (lane : Taking Piece) (lasts : LastsView) → x.edges ≡ Some lane
        → DeviceStep d book.old book.new x (with_edge (Line line.now) x) end.old end.new lasts lasts }
    ensures answer { (lasts : LastsView) → TookLine result d (Line line.now) lasts end.new book.old book.new }
{
    match read_edge(line) {
        Some(found) => edge(book, end, d, found),
        None => Pumped::Fed,
    }
}

/// Gives the book a piece of a device's edge lane.
fn take_edge<R: Wait + Copy>(
    book: &mut Book<Tx<Item, R>>,
    lasts: &mut Lasts,
    end: &mut Option<DeviceEnd>,
    d: u8,
    piece: Piece,
) -> Pumped
    requires runs { device_fault book.old d ≡ None }
    requires going { end.old ≡ None }
    requires may { MayGiveEdge d piece book.old }
    ensures step { (x : InletsView) (lane : Taking Piece) → x.edges ≡ Some lane
        → DeviceStep d book.old book.new x (with_edge piece x) end.old end.new lasts.old lasts.new }
    ensures answer { TookLine result d piece lasts.old end.new book.old book.new }
{
    match piece {
        Piece::Line(text) => line(book, end, d, &text),
        Piece::Last(ending) => edges_end(book, lasts, end, d, ending),
        Piece::Bytes { at: _, bytes: _ } => Pumped::Fed,
        Piece::Input(_) => Pumped::Fed,
    }
}

/// Gets a piece of a device's lanes, if there is one, and gives it to the book.
fn pump_one<R: Wait + Copy>(
    book: &mut Book<Tx<Item, R>>,
    inlets: &mut Inlets<R>,
    lasts: &mut Lasts,
    end: &mut Option<DeviceEnd>,
    d: u8,
) -> Pumped
    requires runs { device_fault book.old d ≡ None }
    requires going { end.old ≡ None }
    requires may { MayGiveNext d inlets.old book.old }
    ensures step { DeviceStep d book.old book.new inlets.old inlets.new end.old end.new lasts.old lasts.new }
    ensures answer { Looked result d inlets.old inlets.new lasts.old end.new book.old book.new }
    ensures empty { result ≡ Pumped.Empty → (book.new ≡ book.old) × (end.new ≡ end.old) }
{
    match inlets.next(lasts) {
        Next::Nothing => Pumped::Empty,
        Next::Bytes(piece) => {
            inlets.show_read();
            take_bytes(book, lasts, end, d, piece)
        }
        Next::Edges(piece) => {
            inlets.show_read();
            take_edge(book, lasts, end, d, piece)
        }
    }
}

/// The same, and what was received from the device's lanes is a prefix of what their sources hold.
pub(crate) fn pump<R: Wait + Copy>(
    book: &mut Book<Tx<Item, R>>,
    inlets: &mut Inlets<R>,
    lasts: &mut Lasts,
    end: &mut Option<DeviceEnd>,
    d: u8,
) -> Pumped
    requires runs { device_fault book.old d ≡ None }
    requires going { end.old ≡ None }
    requires may { MayGiveNext d inlets.old book.old }

    // What the book did with the piece, and the answer.
    ensures step { DeviceStep d book.old book.new inlets.old inlets.new end.old end.new lasts.old lasts.new }
    ensures answer { Looked result d inlets.old inlets.new lasts.old end.new book.old book.new }
    ensures empty { result ≡ Pumped.Empty → (book.new ≡ book.old) × (end.new ≡ end.old) }

    // What was received is a prefix of what the sources hold.
    ensures read { LaneIsRead inlets.new }
{
    let pumped = pump_one(book, inlets, lasts, end, d);
    inlets.show_read();
    pumped
}
