ghost use Rattle.std.specs.Prelude.{◌≡◌};
ghost use Rattle.std.specs.Duration.{as_nanos};
ghost use Rattle.gps_outside.specs.Ticks.{nearest_stamp};

use crate::Clock;
use gps_fixed::Stamp;
use std::time::{self, Duration};

/// The machine's clock. Its stamps are not modelled.
#[derive(Drop)]
pub struct RealClock<R> {
    machine: R,
}

impl<R: time::Clock + Drop> RealClock<R> {
    pub fn new(machine: R) -> RealClock<R> {
        RealClock { machine }
    }
}

impl<R: time::Clock + Drop> Clock for RealClock<R> {
    ghost use Rattle.std.specs.Prelude.{None};

    ghost stamps = { λ _. None };

    fn now(&mut self) -> Stamp {
        match self.machine.since_1970() {
            Ok(since) => stamp_of(since),
            Err(_) => stamp_of(Duration::ZERO),
        }
    }
}

/// The stamp that is this long after 1970-01-01T00:00:00Z, or the last stamp if that is later.
fn stamp_of(since: Duration) -> Stamp
    ensures { result ≡ nearest_stamp (as_nanos since) }
{
    let sec = since.as_secs();
    if sec <= 9_999_999_999 {
        Stamp {
            sec: sec as i64,
            nsec: since.subsec_nanos(),
        }
    } else {
        Stamp {
            sec: 9_999_999_999,
            nsec: 999_999_999,
        }
    }
}
