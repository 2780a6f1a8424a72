ghost use Rattle.std.specs.Prelude.{◌≡◌, ◌≤◌, ◌*◌, length, map, IfOk};
ghost use Rattle.std.specs.List.{All, AllZip};
ghost use Rattle.gps_fixed.specs.Limits.{most_history};
ghost use Rattle.book_units.specs.Units.{segment_of};
ghost use Rattle.serve_workers.specs.Segments.{segments_of};
ghost use Rattle.hub_promise.specs.Keeping.{IsUnused, NothingGot};
ghost use Rattle.gps_world.specs.OpenInOrder.{AreUnread, sources_in};
ghost use Rattle.serve_end.specs.Runs.{source_facts};
ghost use Rattle.gps_serve.specs.Starts.{IsFreshDevice, edges_at, sources_at};
ghost use Rattle.gps_serve.specs.Units.{CountFromZero};
ghost use Rattle.gps_serve.specs.Served.{monitored};

use crate::gathering::Numbers;
use crate::lanes::{DeviceLanes, lay};
use gps_fixed::NoMemory;
use gps_hub::DoorTable;
use gps_lane::Tx;
use gps_outside::Source;
use gps_report::Names;
use report_book::Book;
use serve_workers::{Bells, MonitorStart, monitor_starts};
use session_core::Item;
use stamp_shares::StampTable;
use std::alloc::Global;
use std::sync::Wait;

/// What is made before the hub: the book, the lanes of the devices, the tables of the door and of the clock's stamps, the monitors, and the bells.
#[derive(Drop)]
pub(crate) struct Ground<S: Source, R: Wait + Copy> {
    pub(crate) book: Book<Tx<Item, R>>,
    pub(crate) lanes: DeviceLanes<S, R>,
    pub(crate) doors: DoorTable,
    pub(crate) stamps: StampTable,
    pub(crate) monitor_starts: Vec<MonitorStart>,
    pub(crate) bells: Bells,
}

/// A new book, whose units are numbered from 1 on. The given number of requests of each of its sessions is answered.
fn new_book<R: Wait + Copy>(
    alloc: Global,
    names: Names,
    limit: u32,
    requests: u32,
) -> Result<Book<Tx<Item, R>>, NoMemory>
    requires some { 1 ≤ limit }
    requires most { limit ≤ most_history }

    // The book is new, with these names and these numbers.
    ensures unused { IfOk result IsUnused }
    ensures names { IfOk result (λ book. book.names ≡ names) }
    ensures limit { IfOk result (λ book. book.log.limit ≡ limit) }
    ensures requests { IfOk result (λ book. book.most_requests ≡ requests) }

    // It has two units for each of at most eight devices, and their samples are counted from 1.
    ensures units { IfOk result (λ book. length book.units ≡ 2 * length names) }
    ensures from { IfOk result (λ book. CountFromZero (map segment_of book.units)) }
    ensures few { length names ≤ 8 }
{
    let _few = names.len();
    let mut book = Book::new(alloc, names, limit, [0; 16])?;
    book.allow_requests(requests);
    Ok(book)
}

fn monitor_starts_if<R: Wait + Copy>(
    alloc: Global,
    book: &mut Book<Tx<Item, R>>,
    tries: u32,
) -> Result<Vec<MonitorStart>, NoMemory>
    requires few { length book.old.units ≤ 16 }
    ensures book { book.new ≡ book.old }
    ensures segments { IfOk result (λ monitor_starts. segments_of monitor_starts.items ≡ monitored tries (map segment_of book.old.units)) }
{
    if tries == 0 {
        Ok(Vec::new(alloc))
    } else {
        monitor_starts(alloc, book)
    }
}

/// The tables of the door and of the clock's stamps, the monitors, and the bells.
#[derive(Drop)]
struct Tables {
    doors: DoorTable,
    stamps: StampTable,
    monitor_starts: Vec<MonitorStart>,
    bells: Bells,
}

fn make_tables<R: Wait + Copy>(
    alloc: Global,
    book: &mut Book<Tx<Item, R>>,
    tries: u32,
    devices: usize,
) -> Result<Tables, NoMemory>
    requires few { length book.old.units ≤ 16 }
    ensures book { book.new ≡ book.old }
    ensures segments { IfOk result (λ tables. segments_of tables.monitor_starts.items ≡ monitored tries (map segment_of book.old.units)) }
{
    let doors = DoorTable::new(alloc)?;
    let stamps = StampTable::new(alloc)?;
    let monitor_starts = monitor_starts_if(alloc, book, tries)?;
    let bells = Bells::new(alloc, devices)?;
    Ok(Tables {
        doors,
        stamps,
        monitor_starts,
        bells,
    })
}

/// Makes all that the hub and the threads need.
#[tactic(auto, using(crate::proofs::Starting::nothing_got))]
pub(crate) fn prepare<S: Source, R: Wait + Copy>(
    rt: R,
    alloc: Global,
    names: Names,
    numbers: Numbers,
    inputs: Vec<S>,
    edges: Vec<Option<S>>,
) -> Result<Ground<S, R>, NoMemory>
    // The limit is in its range. Each device has an input, and may have a source of edges.
    requires some { 1 ≤ numbers.limit }
    requires most { numbers.limit ≤ most_history }
    requires count { length inputs.items ≡ length names }
    requires each { length edges.items ≡ length names }

    // Nothing was read from the sources.
    requires inputs { AreUnread S.content S.faults S.quiets inputs.items }
    requires edges { AreUnread S.content S.faults S.quiets (sources_in edges.items) }

    // The book is new, with two units for each of at most eight devices.
    ensures unused { IfOk result (λ ground. IsUnused ground.book) }
    ensures names { IfOk result (λ ground. ground.book.names ≡ names) }
    ensures limit { IfOk result (λ ground. ground.book.log.limit ≡ numbers.limit) }
    ensures requests { IfOk result (λ ground. ground.book.most_requests ≡ numbers.requests) }
    ensures few { length names ≤ 8 }
    ensures units { IfOk result (λ ground. length ground.book.units ≡ 2 * length ground.book.names) }

    // Each device has its lanes. Nothing was received from them, and no sample was counted.
    ensures count { IfOk result (λ ground. length ground.lanes.inlets.items ≡ length ground.book.names) }
    ensures nothing { IfOk result (λ ground. All NothingGot ground.lanes.inlets.items) }
    ensures from { IfOk result (λ ground. CountFromZero (map segment_of ground.book.units)) }

    // The readers begin with these sources and new lanes, the monitors with the segments of the units.
    ensures sources { IfOk result (λ ground. sources_at ground.lanes.starts.items ≡ inputs.items) }
    ensures edge_sources { IfOk result (λ ground. edges_at ground.lanes.starts.items ≡ edges.items) }
    ensures monitor_starts { IfOk result (λ ground. segments_of ground.monitor_starts.items ≡ monitored numbers.tries (map segment_of ground.book.units)) }
    ensures fresh { IfOk result (λ ground.
        AllZip (IsFreshDevice (source_facts S.Source)) ground.lanes.starts.items ground.lanes.inlets.items) }
{
    let count = names.len();
    let mut book = new_book(alloc, names, numbers.limit, numbers.requests)?;
    let lanes = lay(rt, alloc, inputs, edges)?;
    let Tables {
        doors,
        stamps,
        monitor_starts,
        bells,
    } = make_tables(alloc, &mut book, numbers.tries, count)?;
    Ok(Ground {
        book,
        lanes,
        doors,
        stamps,
        monitor_starts,
        bells,
    })
}
