use std::marker::Model;

/// A point of time: whole seconds since 1970-01-01T00:00:00Z, and nanoseconds of the second.
///
/// `sec` lies in 0..=9,999,999,999 and `nsec` below 1,000,000,000.
#[derive(Clone, Copy, Debug, PartialEq, Eq, PartialOrd, Ord)]
pub struct Stamp {
    pub sec: i64,
    pub nsec: u32,
}

impl Model for Stamp {
    ghost use Rattle.gps_fixed.specs.Moment.{Moment, IsMoment};

    ghost Value = { Moment };

    ghost view = { λ s. record { sec = s.sec; nsec = s.nsec } };

    ghost invariant = { λ s. IsMoment s.sec s.nsec };

    ghost inverse = { λ m. record { sec = m.sec; nsec = m.nsec } };
}
