//! The events of units and monitors.

ghost use Rattle.std.specs.Prelude.{◌≡◌, ◌≤◌, ◌<◌, ◌*◌, ◌&&◌, ◌++◌, true, Some, OnOk, get_or, set, slice_get, List, [], length, nat_eq, nat_lt, slice_index};
ghost use Rattle.shm_monitor.specs.declared.reading.MonStep.{MonStep};
ghost use Rattle.book_units.specs.Units.{UnitView};
ghost use Rattle.replay_player.specs.Loads.{step_of};
ghost use Rattle.replay_player.specs.Stored.{stores_next};
ghost use Rattle.replay_player.specs.UnitMonitorView.{UnitMonitorView, IsOf, after_load, words_beside};
ghost use Rattle.replay_player.specs.Effects.{loads, most_watches, step_line, stores, watches, with_stores};
ghost use Rattle.replay_player.specs.Playing.{Acts, LoadsOne, BookStandsFor};
ghost use Rattle.replay_player.specs.States.{State, MonitorState, samples_at};

use crate::event_step::EventStep;
use crate::replay_book::ReplayBook;
use crate::unit_monitor::UnitMonitor;
use gps_fixed::{Bytes, NoMemory};
use output_lines::push_reading_line;
use report_book::Book;
use session_core::PlainOutlet;
use shm_monitor::MonStep;

/// How many monitors may be in a script.
const MOST_MONITORS: usize = 64;

/// The line of a reading that this step ends.
fn push_step(out: &mut Bytes, m: u8, step: MonStep) -> Result<(), NoMemory>
    ensures { OnOk result (out.new ≡ out.old ++ step_line m step) }
{
    match step {
        MonStep::Loaded { word: _, value: _ } => Ok(()),
        MonStep::Done(reading) => push_reading_line(out, m, &reading),
    }
}

/// One of the monitors makes a load.
fn step_at(watchers: &mut Vec<UnitMonitor>, m: usize, book: &mut Book<PlainOutlet>) -> MonStep
    requires there { m < length watchers.old.items }
    requires of { (free : UnitMonitorView) → IsOf (get_or watchers.old.items m free) book.old }
    ensures step { (free : UnitMonitorView) (other : UnitView) → result
        ≡ step_of (words_beside (get_or watchers.old.items m free) book.old other) (get_or watchers.old.items m free).reading }
    ensures becomes { (free : UnitMonitorView) (other : UnitView) → watchers.new.items
        ≡ set watchers.old.items m (after_load (words_beside (get_or watchers.old.items m free) book.old other) (get_or watchers.old.items m free)) }
    ensures unchanged { book.new ≡ book.old }
{
    let watcher = &mut watchers[m];
    watcher.step(book)
}

impl ReplayBook {
    /// Whether there is such a unit.
    fn has_unit(&self, u: u64) -> bool
        ensures { result ≡ nat_lt u (2 * length self.now.book.names) }
    {
        u < 2 * u64::from(self.devices)
    }

    /// Whether this is the next monitor, of a unit that is there.
    fn may_watch(&self, m: u64, u: u64) -> bool
        ensures { result ≡ (nat_eq m (length self.now.watchers) && nat_lt (length self.now.watchers) most_watches && nat_lt u
            (2 * length self.now.book.names)) }
    {
        let count = self.watchers.len();
        m == count as u64 && count < MOST_MONITORS && self.has_unit(u)
    }

    /// The next monitor, of this unit.
    pub fn watch(&mut self, m: u64, u: u64) -> Result<EventStep, NoMemory>
        ensures acts { (state : State) → BookStandsFor self.old state → Acts result (watches m u state) self.new [] [] }
    {
        if !self.may_watch(m, u) {
            return Ok(EventStep::Refused);
        }
        self.book.show();
        let Ok(watcher) = UnitMonitor::of(&mut self.book, u as u8) else {
            return Err(NoMemory);
        };
        self.watchers.push(watcher)?;
        Ok(EventStep::Made)
    }

    /// A unit's publisher makes one step.
    fn store_one(&mut self, u: u8)
        requires { u < 2 * length self.old.book.names }
        ensures stored { (state : State) → BookStandsFor self.old state
            → BookStandsFor self.new (with_stores u (stores_next (slice_index state.firsts u) (samples_at u state) (slice_index state.stores u)) state) }
        ensures names { self.new.book.names ≡ self.old.book.names }
    {
        self.book.show();
        let Ok(_) = self.book.publish_step(u) else {
            unreachable!()
        };
    }

    /// A unit's publisher makes the given number of steps.
    pub fn store(&mut self, u: u64, steps: u32) -> Result<EventStep, NoMemory>
        ensures acts { (state : State) → BookStandsFor self.old state → Acts result (stores u steps state) self.new [] [] }
    {
        if !self.has_unit(u) {
            return Ok(EventStep::Refused);
        }
        self.book.show();
        let u = u as u8;
        'steps: for made in 0..steps {
            self.store_one(u);
        }
        Ok(EventStep::Made)
    }

    /// Whether there is such a monitor.
    fn has_watcher(&self, m: u64) -> bool
        ensures { result ≡ nat_lt m (length self.now.watchers) }
    {
        m < self.watchers.len() as u64
    }

    /// A monitor makes one load, and the line of a reading that it ends is written.
    fn load_one(&mut self, m: u8, out: &mut Bytes) -> Result<(), NoMemory>
        requires there { m < length self.old.watchers }
        requires of { (free : UnitMonitorView) → IsOf (get_or self.old.watchers m free) self.old.book }
        ensures loaded { OnOk result ((state : State) (t : MonitorState) → BookStandsFor self.old state → slice_get state.watches m ≡ Some t
            → LoadsOne m self.new out.old out.new state t) }
        ensures count { length self.new.watchers ≡ length self.old.watchers }
    {
        let step = step_at(&mut self.watchers, usize::from(m), &mut self.book);
        push_step(out, m, step)
    }

    /// A monitor makes the given number of loads.
    pub fn load(&mut self, m: u64, steps: u32, out: &mut Bytes) -> Result<EventStep, NoMemory>
        requires known { (state : State) × BookStandsFor self.old state }
        ensures acts { (state : State) → BookStandsFor self.old state → Acts result (loads m steps state) self.new out.old out.new }
    {
        if !self.has_watcher(m) {
            return Ok(EventStep::Refused);
        }
        let m = m as u8;
        'loads: for made in 0..steps {
            self.load_one(m, out)?;
        }
        Ok(EventStep::Made)
    }
}
