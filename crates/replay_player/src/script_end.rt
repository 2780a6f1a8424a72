ghost use Rattle.std.specs.Prelude.{◌≡◌, ◌<◌, true, Ok, IfOk, List, ℕ};
ghost use Rattle.replay_player.specs.Ending.{EndAdds, Leaves, sessions_left};
ghost use Rattle.replay_player.specs.Ends.{written_at_end};
ghost use Rattle.replay_player.specs.Playing.{BookStandsFor};
ghost use Rattle.replay_player.specs.States.{State};

use crate::replay_book::ReplayBook;
use gps_fixed::{Bytes, NoMemory};
use std::marker::Model;

/// A script that has ended: its devices have ended and its sessions are closed, and some of what the end writes is still to be written.
#[derive(Drop)]
pub struct ScriptEnd {
    book: ReplayBook,
    /// The first session whose lines are to be written.
    next: u32,
}

impl Model for ScriptEnd {
    ghost use Rattle.replay_player.specs.Ending.{ScriptEndView};

    ghost Value = { ScriptEndView };

    ghost view = { λ e. record { book = e.book; next = e.next } };
}

impl ScriptEnd {
    /// Ends a script on this stage. Nothing of what the end writes is written yet.
    pub fn of(mut book: ReplayBook) -> Result<ScriptEnd, NoMemory>
        ensures { (state : State) → BookStandsFor book state → IfOk result (λ end. Leaves end (written_at_end state)) }
    {
        book.end_devices()?;
        book.close_sessions();
        Ok(ScriptEnd { book, next: 0 })
    }

    /// Adds the items of the next session that are left, and its closing line; after the last session the lines of all units, and then
    /// nothing is left. False if nothing is left.
    pub fn step(&mut self, out: &mut Bytes) -> Result<bool, NoMemory>
        requires known { (left : List ℕ) × Leaves self.old left }
        ensures adds { (left : List ℕ) → Leaves self.old left → EndAdds result left self.new out.old out.new }
        ensures fewer { result ≡ Ok true → sessions_left self.new < sessions_left self.old }
    {
        if self.next >= self.book.book.opened() {
            self.book.publish(out)?;
            return Ok(false);
        }
        self.book.drain_one(self.next, out)?;
        self.next += 1;
        Ok(true)
    }
}
