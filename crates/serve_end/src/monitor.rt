ghost use Rattle.std.specs.Prelude.{◌≡◌, ◌<◌, length, get_or};
ghost use Rattle.std.specs.Arc.{arc_value};
ghost use Rattle.book_units.specs.Steps.{BearsOut};
ghost use Rattle.book_units.specs.Units.{UnitView};
ghost use Rattle.shm_segment.specs.Publishing.{noticed};
ghost use Rattle.shm_segment.specs.Seats.{SegmentId};
ghost use Rattle.shm_monitor.specs.MonitorView.{informed};
ghost use Rattle.serve_end.specs.Units.{Confirms, IsSegmentOf, published_of};

use crate::done::MonitorDone;
use gps_lane::Tx;
use report_book::Book;
use serve_workers::ReadingsDone;
use session_core::Item;
use shm_monitor::Monitor;
use shm_segment::{Account, Notice, Segment};
use std::sync::Wait;

/// What the unit's publisher has published.
#[tactic(auto, using(crate::proofs::Published::not_refused))]
fn notice_of<R: Wait + Copy>(book: &mut Book<Tx<Item, R>>, unit: u8) -> Notice
    requires { unit < length book.old.units }
    ensures notice { (free : UnitView) → result ≡ noticed (get_or book.old.units unit free).publisher }
    ensures part { (segment : SegmentId) → IsSegmentOf unit segment book.old → result.segment ≡ segment }
    ensures unchanged { book.new ≡ book.old }
{
    book.show();
    match book.notice(unit) {
        Ok(notice) => notice,
        Err(_) => unreachable!(),
    }
}

/// The unit's publisher hears of the monitor's pairs and loads.
#[tactic(auto, using(crate::proofs::Published::not_refused))]
fn tell<R: Wait + Copy>(book: &mut Book<Tx<Item, R>>, unit: u8, account: Account)
    requires unit { unit < length book.old.units }
    requires account { IsSegmentOf unit account.segment book.old }
    ensures heard { (free : UnitView) → BearsOut (get_or book.old.units unit free) account.taken account.kept }
    ensures unchanged { book.new ≡ book.old }
{
    book.show();
    match book.hear(unit, account) {
        Ok(()) => {}
        Err(_) => unreachable!(),
    }
}

/// The monitor learns of all that its unit has published.
fn inform<R: Wait + Copy>(
    book: &mut Book<Tx<Item, R>>,
    unit: u8,
    segment: &Segment,
    monitor: &mut Monitor,
)
    requires unit { unit < length book.old.units }
    requires segment { IsSegmentOf unit segment.now book.old }
    requires monitor { monitor.old.segment ≡ segment.now }
    ensures book { book.new ≡ book.old }
    ensures segment { monitor.new.segment ≡ monitor.old.segment }
    ensures told { (free : UnitView) → monitor.new ≡ informed monitor.old (published_of (get_or book.old.units unit free)) }
{
    let notice = notice_of(book, unit);
    monitor.meet(segment, notice);
}

/// The unit confirms all that its monitor took and loaded.
fn confirm<R: Wait + Copy>(
    book: &mut Book<Tx<Item, R>>,
    unit: u8,
    segment: &Segment,
    monitor: &mut Monitor,
)
    requires unit { unit < length book.old.units }
    requires segment { IsSegmentOf unit segment.now book.old }
    requires monitor { monitor.old.segment ≡ segment.now }
    ensures book { book.new ≡ book.old }
    ensures monitor { monitor.new ≡ monitor.old }
    ensures bears_out { (free : UnitView) → BearsOut (get_or book.old.units unit free) monitor.old.taken monitor.old.kept }
{
    let account = monitor.account(segment);
    tell(book, unit, account);
}

/// Puts together what is left of a unit's monitor, which is compared with what its unit has published.
pub fn monitor_done<R: Wait + Copy>(
    book: &mut Book<Tx<Item, R>>,
    unit: u8,
    watch: ReadingsDone,
) -> MonitorDone
    // The monitor read the segment of this unit.
    requires unit { unit < length book.old.units }
    requires segment { IsSegmentOf unit (arc_value watch.segment) book.old }
    requires monitor { watch.monitor.segment ≡ arc_value watch.segment }

    // The book stays, and the unit's number and the samples are handed on.
    ensures book { book.new ≡ book.old }
    ensures unit { result.unit ≡ unit }
    ensures taken { result.taken ≡ watch.taken }

    // The unit confirms the samples: each is one that it published.
    ensures confirms { (free : UnitView) → Confirms (get_or book.old.units unit free) watch.monitor result.monitor result.taken.items }
{
    let ReadingsDone {
        segment,
        monitor,
        taken,
        whole: _,
    } = watch;
    let mut monitor = monitor;
    inform(book, unit, &segment, &mut monitor);
    confirm(book, unit, &segment, &mut monitor);
    MonitorDone {
        unit,
        monitor,
        taken,
    }
}
