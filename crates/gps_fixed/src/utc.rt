ghost use Rattle.std.specs.Prelude.{◌≡◌, ◌*◌, ◌^◌, ◌<◌, pos, ◌≤ℤ◌};
ghost use Rattle.gps_fixed.specs.Utc.{utc};

use crate::Stamp;

const NANOSECONDS: u64 = 1_000_000_000;

/// The stamp of a day (counted from 1970-01-01, 0..=47,500) and a time of that day in nanoseconds.
pub fn utc_of(day: i32, tod: u64) -> Stamp
    requires from { pos 0 ≤ℤ day }
    requires to { day ≤ℤ pos 47_500 }
    requires within { tod < 86_400 * 10 ^ 9 }
    ensures { result ≡ utc day tod }
{
    Stamp {
        sec: 86_400 * day as i64 + (tod / NANOSECONDS) as i64,
        nsec: (tod % NANOSECONDS) as u32,
    }
}
