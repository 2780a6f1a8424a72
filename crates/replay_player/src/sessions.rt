//! The events of sessions.

ghost use Rattle.std.specs.Prelude.{◌≡◌, ◌≤◌, ◌<◌, ◌^◌, true, Some, List, [], length, nat_lt, slice_get, unwrap_or};
ghost use Rattle.gps_fixed.specs.Limits.{most_queue};
ghost use Rattle.replay_script.specs.Events.{IsCap, IsPiece};
ghost use Rattle.replay_player.specs.Clients.{Client};
ghost use Rattle.replay_player.specs.Effects.{hangs, hears, opens, takes};
ghost use Rattle.replay_player.specs.Playing.{Acts, BookStandsFor, TakesOne};
ghost use Rattle.replay_player.specs.States.{State};

use crate::event_step::{EventStep, event_step_of, event_step_of_admission};
use crate::replay_book::ReplayBook;
use gps_fixed::{Bytes, NoMemory};
use output_lines::push_item_line;
use session_core::{Close, PlainOutlet};

impl ReplayBook {
    /// Whether there is such a session.
    fn has_session(&self, s: u64) -> bool
        ensures is { result ≡ nat_lt s (length self.now.book.sessions) }
        ensures small { result ≡ true → s < 2 ^ 32 }
    {
        s < u64::from(self.book.opened())
    }

    /// The next session opens, over an outlet that keeps the given number of items.
    pub fn open(&mut self, s: u64, cap: u32) -> Result<EventStep, NoMemory>
        requires least { 1 ≤ cap }
        requires most { cap ≤ most_queue }
        ensures acts { (state : State) → BookStandsFor self.old state → Acts result (opens s cap state) self.new [] [] }
    {
        if s != u64::from(self.book.opened()) {
            return Ok(EventStep::Refused);
        }
        self.book.show();
        let outlet = PlainOutlet::new(self.alloc, cap)?;
        event_step_of_admission(self.book.admit(outlet))
    }

    /// The same over an outlet that keeps `queue` items if no number is given.
    pub(crate) fn open_with(
        &mut self,
        s: u64,
        cap: Option<u32>,
        queue: u32,
    ) -> Result<EventStep, NoMemory>
        requires least { 1 ≤ queue }
        requires most { queue ≤ most_queue }
        requires cap { IsCap cap }
        ensures acts { (state : State) → BookStandsFor self.old state → Acts result (opens s (unwrap_or cap queue) state) self.new [] [] }
    {
        match cap {
            Some(cap) => self.open(s, cap),
            None => self.open(s, queue),
        }
    }

    /// A session's client sends a piece.
    pub fn input(&mut self, s: u64, piece: &[u8]) -> Result<EventStep, NoMemory>
        requires piece { IsPiece piece.now }
        ensures acts { (state : State) → BookStandsFor self.old state → Acts result (hears s piece.now state) self.new [] [] }
    {
        if !self.has_session(s) {
            return Ok(EventStep::Refused);
        }
        self.book.show();
        event_step_of(self.book.input(s as u32, piece))
    }

    /// A session's client hangs up.
    pub fn hang(&mut self, s: u64) -> Result<EventStep, NoMemory>
        ensures acts { (state : State) → BookStandsFor self.old state → Acts result (hangs s state) self.new [] [] }
    {
        if !self.has_session(s) {
            return Ok(EventStep::Refused);
        }
        self.book.show();
        event_step_of(self.book.hang_up(s as u32, Close::HungUp))
    }

    /// Takes the first of the items that a session's outlet keeps, and writes its line; false if it keeps none.
    fn take_one(&mut self, s: u32, out: &mut Bytes) -> Result<bool, NoMemory>
        requires { s < length self.old.book.sessions }
        ensures takes { (state : State) (c : Client) → BookStandsFor self.old state → slice_get state.clients s ≡ Some c
            → TakesOne s result self.new out.old out.new state c }
        ensures count { length self.new.book.sessions ≡ length self.old.book.sessions }
    {
        let Ok(item) = self.book.take(s) else {
            unreachable!()
        };
        let Some(item) = item else {
            return Ok(false);
        };
        push_item_line(out, s, item.bytes())?;
        Ok(true)
    }

    /// A session's client takes at most the given number of items.
    pub fn take(&mut self, s: u64, most: u32, out: &mut Bytes) -> Result<EventStep, NoMemory>
        ensures acts { (state : State) → BookStandsFor self.old state → Acts result (takes s most state) self.new out.old out.new }
    {
        if !self.has_session(s) {
            return Ok(EventStep::Refused);
        }
        let s = s as u32;
        'items: for taken in 0..most {
            if !self.take_one(s, out)? {
                return Ok(EventStep::Made);
            }
        }
        Ok(EventStep::Made)
    }
}
