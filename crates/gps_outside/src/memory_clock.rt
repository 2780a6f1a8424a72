ghost use Rattle.std.specs.Prelude.{◌≡◌, [], ◌∷◌, ◌++◌};
ghost use Rattle.gps_outside.specs.Told.{Goes};
ghost use Rattle.gps_outside.specs.Ticks.{Gives};
ghost use Rattle.gps_outside.specs.ClockPlans.{stamp_of, set_after};

use crate::Clock;
use gps_fixed::Stamp;
use std::marker::Model;

/// A clock in memory that gives its stamps in order, and then the last one for ever.
#[derive(Drop)]
pub struct MemoryClock {
    stamps: Vec<Stamp>,
    at: usize,
    last: Stamp,
}

impl Model for MemoryClock {
    ghost use Rattle.std.specs.Prelude.{◌≤◌, length, drop, [], ◌∷◌, ◌++◌};
    ghost use Rattle.gps_outside.specs.ClockPlans.{Set};

    ghost Value = { Set };

    ghost view = { λ s. record {
      dial = record { may = s.stamps.items ++ s.last ∷ []; left = drop s.at s.stamps.items };
      last = s.last;
    } };
}

impl MemoryClock {
    /// Takes no memory.
    pub fn new(stamps: Vec<Stamp>, last: Stamp) -> MemoryClock
        ensures { result ≡ record { dial = record { may = stamps.items ++ last ∷ []; left = stamps.items }; last = last } }
    {
        MemoryClock {
            stamps,
            at: 0,
            last,
        }
    }

    /// The stamp that it gives after all others.
    pub fn last(&self) -> Stamp
        ensures { result ≡ self.now.last }
    {
        self.last
    }
}

impl Clock for MemoryClock {
    ghost use Rattle.std.specs.Prelude.{Some};

    ghost stamps = { λ s. Some s.dial };

    fn now(&mut self) -> Stamp
        ensures gives { Goes (Gives result) (Some self.old.dial) (Some self.new.dial) }
        ensures stamp { result ≡ stamp_of self.old }
        ensures after { self.new ≡ set_after self.old }
    {
        match self.stamps.get(self.at) {
            Some(stamp) => {
                self.at += 1;
                *stamp
            }
            None => self.last,
        }
    }
}
