ghost use Rattle.std.specs.Prelude.{◌≡◌, ◌≤◌, [], length, map, IfOk};
ghost use Rattle.std.specs.Arc.{arc_value};
ghost use Rattle.book_units.specs.Units.{segment_of};
ghost use Rattle.serve_workers.specs.Monitors.{MonitorRan};

use crate::monitor::run_monitor;
use crate::spawner::Spawner;
use crate::work::{Work, start};
use gps_fixed::NoMemory;
use gps_lane::{Bell, Tx};
use report_book::Book;
use session_core::Item;
use shm_monitor::{Monitor, Numbered};
use shm_segment::Segment;
use std::alloc::Global;
use std::snapshot::Snapshot;
use std::sync::{Arc, Wait};
use std::thread::Promise;

/// The most units.
const UNITS: u8 = 16;

/// A unit's monitor, before it reads.
#[derive(Drop)]
pub struct MonitorStart {
    pub segment: Arc<Segment>,
    pub monitor: Monitor,
    ghost part: { monitor.segment ≡ arc_value segment },
    ghost new: { (monitor.taken ≡ []) × (monitor.kept ≡ []) },
}

/// What a monitor hands back: itself, what it took with a new number, and whether it made all its readings.
#[derive(Drop)]
pub struct ReadingsDone {
    pub segment: Arc<Segment>,
    pub monitor: Monitor,
    pub taken: Vec<Numbered>,
    pub whole: bool,
}

/// A monitor promises that it made the given number of readings of this segment.
#[derive(Drop)]
pub struct MonitorPromise {
    pub segment: Snapshot<Arc<Segment>>,
    pub tries: u32,
}

impl Promise<ReadingsDone> for MonitorPromise {
    ghost use Rattle.std.specs.Prelude.{◌≡◌};
    ghost use Rattle.std.specs.Arc.{arc_value};
    ghost use Rattle.serve_workers.specs.Monitors.{MonitorRan};

    ghost kept_by = { λ p r. (r.segment ≡ p.segment.value) × MonitorRan (arc_value r.segment) p.tries r.whole r.monitor r.taken.items };
}

/// A monitor for each unit, in order.
#[tactic(auto, using(crate::proofs::Segments::no_segment, crate::proofs::Segments::one_segment, crate::proofs::Segments::no_unit, crate::proofs::Segments::last_unit))]
pub fn monitor_starts<R: Wait + Copy>(
    alloc: Global,
    book: &mut Book<Tx<Item, R>>,
) -> Result<Vec<MonitorStart>, NoMemory>
    requires few { length book.old.units ≤ 16 }
    ensures book { book.new ≡ book.old }
    ensures segments { IfOk result (λ starts. map (λ start. arc_value start.segment) starts.items ≡ map segment_of book.old.units) }
{
    let mut monitor_starts = Vec::new(alloc);
    'units: for unit in 0..UNITS {
        if book.unit(unit).is_none() {
            break;
        }
        let Ok((segment, seat)) = book.monitor_seat(unit) else {
            return Err(NoMemory);
        };
        let monitor = Monitor::of(seat);
        monitor_starts.push(MonitorStart { segment, monitor })?;
    }
    Ok(monitor_starts)
}

fn monitor_all<R: Wait>(
    rt: &R,
    alloc: Global,
    monitor_start: MonitorStart,
    tries: u32,
    own: &Bell,
) -> ReadingsDone
    ensures segment { result.segment ≡ monitor_start.segment }
    ensures watched { MonitorRan (arc_value result.segment) tries result.whole result.monitor result.taken.items }
{
    let MonitorStart {
        segment,
        mut monitor,
    } = monitor_start;
    let mut taken = Vec::new(alloc);
    let whole = run_monitor(rt, &segment, &mut monitor, tries, own, &mut taken).is_ok();
    ReadingsDone {
        segment,
        monitor,
        taken,
        whole,
    }
}

/// Starts a unit's monitor. If there is no thread for it, it makes its readings at once.
pub fn start_monitor<'s, E, R: Wait + Copy + Send + Sync + 's>(
    spawner: &Spawner<'s, E, R>,
    monitor_start: MonitorStart,
    tries: u32,
    own: &'s Bell,
) -> Work<ReadingsDone, MonitorPromise>
    ensures segment { result.segment.value ≡ monitor_start.segment }
    ensures tries { result.tries ≡ tries }
{
    let promise = MonitorPromise {
        segment: Snapshot::of(&monitor_start.segment),
        tries,
    };
    let (rt, alloc, scope) = (spawner.rt, spawner.alloc, spawner.scope);
    start(
        scope,
        promise,
        move || monitor_all(&rt, alloc, monitor_start, tries, own),
        move || own.close(),
    )
}
