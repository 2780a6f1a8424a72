//! A sample for each number.

use gps_fixed::Stamp;
use shm_segment::Sample;

/// A sample whose words all depend on its number.
pub(crate) fn numbered(number: u32) -> Sample {
    Sample {
        reference: Stamp {
            sec: i64::from(number),
            nsec: number % 1_000_000_000,
        },
        host: Stamp {
            sec: 2 * i64::from(number),
            nsec: 999_999_999 - number % 1_000_000_000,
        },
        precision: (number % 100) as i8,
    }
}
