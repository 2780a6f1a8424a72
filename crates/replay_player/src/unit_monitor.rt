ghost use Rattle.std.specs.Prelude.{◌≡◌, [], IfOk, get_or};
ghost use Rattle.book_units.specs.Units.{UnitView, segment_of};
ghost use Rattle.report_book.specs.Refusals.{RefusesAs, missing_unit};
ghost use Rattle.replay_player.specs.Loads.{step_of};
ghost use Rattle.replay_player.specs.UnitMonitorView.{IsOf, after_load, watched, words_beside};

use crate::exact::load;
use report_book::{Book, BookFault};
use session_core::Outlet;
use shm_monitor::{MonStep, Monitor};
use shm_segment::Segment;
use std::marker::Model;
use std::sync::Arc;

/// A monitor of one of a book's units. Contracts see the unit's number, its segment, and what the running reading has loaded.
#[derive(Drop)]
pub struct UnitMonitor {
    unit: u8,
    segment: Arc<Segment>,
    monitor: Monitor,
}

impl Model for UnitMonitor {
    ghost use Rattle.std.specs.Prelude.{◌≡◌};
    ghost use Rattle.std.specs.Arc.{arc_value};
    ghost use Rattle.replay_player.specs.UnitMonitorView.{UnitMonitorView, watched};

    ghost Value = { UnitMonitorView };

    ghost view = { λ w. watched w.unit w.monitor.segment w.monitor.reading };

    ghost invariant = { λ w. w.monitor.segment ≡ arc_value w.segment };
}

impl UnitMonitor {
    /// A monitor that has not read yet, of this unit.
    #[tactic(auto, using(crate::proofs::Known::seat_part))]
    pub fn of<O: Outlet>(book: &mut Book<O>, unit: u8) -> Result<UnitMonitor, BookFault>
        ensures watcher { IfOk result (λ w. (free : UnitView) → w ≡ watched unit (segment_of (get_or book.old.units unit free)) []) }
        ensures of { IfOk result (λ w. IsOf w book.old) }
        ensures refusal { RefusesAs (missing_unit book.old unit) result }
        ensures unchanged { book.new ≡ book.old }
    {
        book.show();
        let (segment, seat) = book.monitor_seat(unit)?;
        Ok(UnitMonitor {
            unit,
            segment,
            monitor: Monitor::of(seat),
        })
    }

    /// Makes the one next load of the running reading, or of a new one: count, valid, the nine words of the body, count. It
    /// gives the word as the unit's publisher has stored it by now. Takes no memory.
    pub fn step<O: Outlet>(&mut self, book: &mut Book<O>) -> MonStep
        requires { IsOf self.old book.old }
        ensures step { (free : UnitView) → result ≡ step_of (words_beside self.old book.old free) self.old.reading }
        ensures watcher { (free : UnitView) → self.new ≡ after_load (words_beside self.old book.old free) self.old }
        ensures of { IsOf self.new book.new }
        ensures unchanged { book.new ≡ book.old }
    {
        load(book, self.unit, &self.segment, &mut self.monitor)
    }
}
