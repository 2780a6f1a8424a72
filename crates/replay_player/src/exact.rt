//! One load, and what the book knows before and after it.

ghost use Rattle.std.specs.Prelude.{◌≡◌, ◌<◌, length, get_or};
ghost use Rattle.shm_segment.specs.Publishing.{noticed, words_now};
ghost use Rattle.shm_monitor.specs.MonitorView.{LoadsAs, informed};
ghost use Rattle.book_units.specs.Steps.{BearsOut};
ghost use Rattle.book_units.specs.Units.{UnitView, segment_of};
ghost use Rattle.replay_player.specs.Loads.{reading_after, step_of};

use report_book::Book;
use session_core::Outlet;
use shm_monitor::{MonStep, Monitor};
use shm_segment::{Account, Notice, Segment};

/// What the unit's publisher has published.
#[tactic(auto, using(crate::proofs::Known::not_refused))]
fn notice_of<O: Outlet>(book: &mut Book<O>, unit: u8) -> Notice
    requires { unit < length book.old.units }
    ensures notice { (free : UnitView) → result ≡ noticed (get_or book.old.units unit free).publisher }
    ensures unchanged { book.new ≡ book.old }
{
    book.show();
    match book.notice(unit) {
        Ok(notice) => notice,
        Err(_) => unreachable!(),
    }
}

/// The unit's publisher hears of the monitor's loads.
#[tactic(auto, using(crate::proofs::Known::not_refused))]
fn tell<O: Outlet>(book: &mut Book<O>, unit: u8, account: Account)
    requires unit { unit < length book.old.units }
    requires account { (free : UnitView) → account.segment ≡ segment_of (get_or book.old.units unit free) }
    ensures heard { (free : UnitView) → BearsOut (get_or book.old.units unit free) account.taken account.kept }
    ensures unchanged { book.new ≡ book.old }
{
    book.show();
    match book.hear(unit, account) {
        Ok(()) => {}
        Err(_) => unreachable!(),
    }
}

/// Makes one load, of the word that the unit's publisher has stored.
pub(crate) fn load<O: Outlet>(
    book: &mut Book<O>,
    unit: u8,
    segment: &Segment,
    monitor: &mut Monitor,
) -> MonStep
    // The monitor is one of this unit's segment.
    requires unit { unit < length book.old.units }
    requires part { (free : UnitView) → segment_of (get_or book.old.units unit free) ≡ segment.now }
    requires monitor { monitor.old.segment ≡ segment.now }

    // What the load answers, and what the reading has loaded then.
    ensures step { (free : UnitView) → result ≡ step_of (words_now (get_or book.old.units unit free).publisher) monitor.old.reading }
    ensures reading { (free : UnitView) → monitor.new.reading ≡ reading_after (words_now (get_or book.old.units unit free).publisher) monitor.old.reading }

    // What stays.
    ensures segment { monitor.new.segment ≡ monitor.old.segment }
    ensures unchanged { book.new ≡ book.old }
{
    let notice = notice_of(book, unit);
    monitor.meet(segment, notice);
    let step = monitor.step(segment);
    let account = monitor.account(segment);
    tell(book, unit, account);
    step
}
