//! The time of a NAV-PVT.

ghost use Rattle.std.specs.Prelude.{◌≡◌, ℕ, ◌<◌, ◌≤◌, length, IfSome, Some, ℤ, pos, unsigned_abs};
ghost use Rattle.ubx_decode.specs.Time.{IsSum, carried, clock, day_length, fraction, joined, time_of};

use crate::fields::{is_set, plus};
use gps_fixed::{day_of, le_i32, le_u16};

/// Nanoseconds of a day.
const DAY_LENGTH: u64 = 86_400_000_000_000;

/// The days 1980-01-01 and 2099-12-31, counted from 1970-01-01.
const FIRST_DAY: u64 = 3_652;

const LAST_DAY: u64 = 47_481;

/// A day, counted from 1970-01-01, and the nanoseconds of that day.
#[derive(Clone, Copy)]
pub struct DayTime {
    pub day: i32,
    pub tod: u64,
}

/// The time by the clock, in nanoseconds of the day; second 60 is the second after 59.
#[tactic(auto, unfolding(crate::specs::Time::clock))]
fn clock(hour: u8, minute: u8, second: u8) -> Option<u64>
    ensures value { result ≡ clock hour minute second }
    ensures bound { IfSome result (λ n. n ≤ day_length) }
{
    if hour <= 23 && minute <= 59 && second <= 60 {
        Some((3_600 * u64::from(hour) + 60 * u64::from(minute) + u64::from(second)) * 1_000_000_000)
    } else {
        None
    }
}

/// Nanoseconds to be added, if they are no more than a second.
#[tactic(auto, unfolding(crate::specs::Time::fraction))]
fn fraction(nano: i32) -> Option<i32>
    ensures { result ≡ fraction nano }
{
    if nano.unsigned_abs() <= 1_000_000_000 {
        Some(nano)
    } else {
        None
    }
}

/// The date and a time counted from the midnight before its own, carried; `None` if the day leaves 1980..=2099.
#[tactic(auto, unfolding(crate::specs::Time::carried))]
fn carried(date: u32, since: u64) -> Option<DayTime>
    ensures { result ≡ carried date since }
{
    let day = (u64::from(date) + since / DAY_LENGTH).saturating_sub(1);
    if FIRST_DAY <= day && day <= LAST_DAY {
        Some(DayTime {
            day: day as i32,
            tod: since % DAY_LENGTH,
        })
    } else {
        None
    }
}

/// The three together, if all are there.
fn joined(date: Option<i32>, clock: Option<u64>, nano: Option<i32>) -> Option<DayTime>
    requires { IfSome clock (λ n. n ≤ day_length) }
    ensures { result ≡ joined date clock nano }
{
    match (date, clock, nano) {
        (Some(date), Some(clock), Some(nano)) => carried(
            date.unsigned_abs(),
            plus(DAY_LENGTH + clock, nano),
        ),
        _ => None,
    }
}

/// The time of a NAV-PVT, if it is valid and readable.
#[tactic(auto, unfolding(crate::specs::Time::time_of))]
pub(crate) fn time_of(payload: &[u8]) -> Option<DayTime>
    requires { length payload.now ≡ 92 }
    ensures { result ≡ time_of payload.now }
{
    let valid = payload[11];
    if is_set(valid, 0) && is_set(valid, 1) {
        joined(
            day_of(i32::from(le_u16(payload, 4)), payload[6], payload[7]),
            clock(payload[8], payload[9], payload[10]),
            fraction(le_i32(payload, 16)),
        )
    } else {
        None
    }
}

/// A time that is given is the date, the clock and the nanoseconds added up, as a day and nanoseconds of that day.
#[tactic(auto, using(crate::proofs::Sums::sum_is, crate::proofs::Sums::within_is))]
pub fn times_are_sums()
    ensures sum { (date clock : ℕ) (nano : ℤ) (time : DayTime) → unsigned_abs nano ≤ 1_000_000_000
        → joined (Some (pos date)) (Some clock) (Some nano) ≡ Some time → IsSum date clock nano time }
    ensures within { (date since : ℕ) (time : DayTime) → carried date since ≡ Some time → time.tod < day_length }
{}
