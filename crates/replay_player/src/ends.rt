//! What happens at a script's end.

ghost use Rattle.std.specs.Prelude.{◌≡◌, ◌<◌, ◌*◌, ◌++◌, true, ℕ, Some, List, length, slice_get, OnOk};
ghost use Rattle.std.specs.List.{flat_map, range_with_len};
ghost use Rattle.replay_player.specs.Stored.{is_store};
ghost use Rattle.replay_player.specs.Clients.{Client, items_of};
ghost use Rattle.replay_player.specs.Ending.{DrainsOne, HaveStopped, IsServed, PublishesOne, Shows, stores_left};
ghost use Rattle.replay_player.specs.Ends.{all_closed, all_ended, closings_at_end, counted, end_line, ended_at, published, shut};
ghost use Rattle.replay_player.specs.Playing.{BookStandsFor};
ghost use Rattle.replay_player.specs.States.{State, units_in};

use crate::replay_book::ReplayBook;
use book_units::UnitStep;
use gps_fixed::{Bytes, NoMemory};
use output_lines::{SessionEnd, push_closing_line, push_unit_line};
use report_book::BookFault;

/// An outlet keeps no more items.
const MOST_KEPT: u32 = 65_536;

/// A refusal of a device that has stopped is none here.
fn unless_wanting(outcome: Result<(), BookFault>) -> Result<(), NoMemory>
    ensures { OnOk result (IsServed outcome) }
{
    match outcome {
        Err(BookFault::NoMemory) => Err(NoMemory),
        _ => Ok(()),
    }
}

impl ReplayBook {
    /// A device that has not stopped ends.
    fn end_one(&mut self, d: u8) -> Result<(), NoMemory>
        requires { d < length self.old.book.names }
        ensures ended { (state : State) → BookStandsFor self.old state → OnOk result (BookStandsFor self.new (ended_at state d)) }
        ensures count { length self.new.book.names ≡ length self.old.book.names }
    {
        self.book.show();
        unless_wanting(self.book.end_device(d))
    }

    /// Each device that has not stopped ends.
    pub(crate) fn end_devices(&mut self) -> Result<(), NoMemory>
        ensures ended { (state : State) → BookStandsFor self.old state → OnOk result (BookStandsFor self.new (all_ended state)) }
    {
        'devices: for d in 0..self.devices {
            self.end_one(d)?;
        }
        Ok(())
    }

    /// If each device has stopped, the open sessions are closed.
    pub(crate) fn close_sessions(&mut self)
        ensures shut { (state : State) → BookStandsFor self.old state → HaveStopped state → BookStandsFor self.new (shut state) }
    {
        self.book.show();
        if self.book.all_ended() {
            self.book.shut();
        }
    }

    /// Writes the closing line of a session.
    fn write_closing(&self, s: u32, out: &mut Bytes) -> Result<(), NoMemory>
        ensures line { (state : State) (c : Client) → BookStandsFor self.now state → slice_get state.clients s ≡ Some c
            → OnOk result (out.new ≡ out.old ++ end_line s c.run.closing (counted (items_of state.names state.log c))) }
    {
        let Some((_, why)) = self.book.closing(s) else {
            return Ok(());
        };
        let Some(items) = self.book.items(s) else {
            return Ok(());
        };
        push_closing_line(out, s, SessionEnd::Drained, why, items)
    }

    /// Writes the items of a session that are left, and its closing line.
    pub(crate) fn drain_one(&mut self, s: u32, out: &mut Bytes) -> Result<(), NoMemory>
        ensures drains { (state : State) (c : Client) → BookStandsFor self.old state → slice_get state.clients s ≡ Some c
            → OnOk result (DrainsOne s self.new out.old out.new state c) }
    {
        self.take(u64::from(s), MOST_KEPT, out)?;
        self.write_closing(s, out)
    }

    /// A unit's publisher makes a store; false if it makes none.
    fn publish_one(&mut self, u: u8) -> bool
        requires { u < 2 * length self.old.book.names }
        ensures publishes { (state : State) → BookStandsFor self.old state → PublishesOne u result self.new state }
        ensures less { result ≡ true → stores_left u self.new.book.units < stores_left u self.old.book.units }
        ensures count { length self.new.book.names ≡ length self.old.book.names }
    {
        self.book.show();
        let Ok(step) = self.book.publish_step(u) else {
            unreachable!()
        };
        is_store(&step)
    }

    /// Publishes all samples of a unit, as far as its numbers go, and writes its line.
    fn publish_unit(&mut self, u: u8, out: &mut Bytes) -> Result<(), NoMemory>
        requires { u < 2 * length self.old.book.names }
        ensures shows { (state : State) → BookStandsFor self.old state → OnOk result (Shows u self.new out.old out.new state) }
        ensures count { length self.new.book.names ≡ length self.old.book.names }
    {
        'stores: while self.publish_one(u) {}
        self.book.show();
        let Some(shown) = self.book.unit(u) else {
            return Ok(());
        };
        push_unit_line(out, u, shown)
    }

    /// Publishes the samples of all units, and writes their lines.
    pub(crate) fn publish(&mut self, out: &mut Bytes) -> Result<(), NoMemory>
        ensures shows { (state : State) → BookStandsFor self.old state
            → OnOk result (out.new ≡ out.old ++ flat_map (published state) (range_with_len 0 (units_in state))) }
    {
        self.book.show();
        'units: for u in 0..2 * self.devices {
            self.publish_unit(u, out)?;
        }
        Ok(())
    }

    /// Writes the closing lines of all sessions.
    fn close_lines(&self, out: &mut Bytes) -> Result<(), NoMemory>
        ensures lines { (state : State) → BookStandsFor self.now state
            → OnOk result (out.new ≡ out.old ++ all_closed state.names state.log 0 state.clients) }
    {
        'sessions: for s in 0..self.book.opened() {
            self.write_closing(s, out)?;
        }
        Ok(())
    }

    /// What happens at a script's end, and only its closing lines, without the items that are left.
    pub fn end_quietly(&mut self, out: &mut Bytes) -> Result<(), NoMemory>
        ensures writes { (state : State) → BookStandsFor self.old state → OnOk result (out.new ≡ out.old ++ closings_at_end state) }
    {
        self.end_devices()?;
        self.close_sessions();
        self.close_lines(out)?;
        self.publish(out)
    }
}

/// Whether a step made a store.
fn is_store(step: &UnitStep) -> bool
    ensures { result ≡ is_store step.now }
{
    match step {
        UnitStep::Stored { .. } => true,
        _ => false,
    }
}
