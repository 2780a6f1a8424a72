//! Where a receiver is and how it moves, by the fields of a NAV-PVT.

ghost use Rattle.std.specs.Prelude.{◌≡◌, ◌+◌, ◌≤◌, ◌-ℤ◌, neg_ℤ, length};
ghost use Rattle.gps_fixed.specs.Fields.{i4_at};
ghost use Rattle.ubx_decode.specs.Motion.{mode_of, position_of, speed_of, track_of};

use crate::fields::is_set;
use gps_fixed::{le_i32, nearest_ratio};
use gps_report::Position;

/// 2 or 3 dimensions for a good fix, else 1.
#[tactic(auto, unfolding(crate::specs::Motion::mode_of))]
pub(crate) fn mode_of(fix_type: u8, flags: u8) -> u8
    ensures { result ≡ mode_of fix_type flags }
{
    if !is_set(flags, 0) {
        return 1;
    }
    match fix_type {
        2 => 2,
        3 | 4 => 3,
        _ => 1,
    }
}

/// Latitude and longitude in 1e-7 degree, as nanodegrees; `None` beyond a pole, or more than half around the earth.
#[tactic(auto, unfolding(crate::specs::Motion::position_of))]
fn position_of(lat: i32, lon: i32) -> Option<Position>
    ensures { result ≡ position_of lat lon }
{
    if lat.unsigned_abs() <= 900_000_000 && lon.unsigned_abs() <= 1_800_000_000 {
        Some(Position {
            lat: 100 * i64::from(lat),
            lon: 100 * i64::from(lon),
        })
    } else {
        None
    }
}

/// A speed over ground, if it is not below zero.
#[tactic(auto, unfolding(crate::specs::Motion::speed_of))]
fn speed_of(speed: i32) -> Option<i64>
    ensures { result ≡ speed_of speed }
{
    if speed < 0 {
        None
    } else {
        Some(i64::from(speed))
    }
}

/// A heading in 1e-5 degree, as 1e-4 degree from north; `None` below half around to the left, or over once around.
#[tactic(auto, unfolding(crate::specs::Motion::track_of))]
fn track_of(heading: i32) -> Option<i64>
    ensures { result ≡ track_of heading }
{
    let heading = i64::from(heading);
    if heading < -18_000_000 || heading > 36_000_000 {
        None
    } else if heading < 0 {
        Some(nearest_ratio(heading + 36_000_000, 1, 10))
    } else {
        Some(nearest_ratio(heading, 1, 10))
    }
}

/// The position of a NAV-PVT.
pub(crate) fn position(payload: &[u8]) -> Option<Position>
    requires { length payload.now ≡ 92 }
    ensures { result ≡ position_of (i4_at payload.now 28) (i4_at payload.now 24) }
{
    position_of(le_i32(payload, 28), le_i32(payload, 24))
}

/// A height of a NAV-PVT in millimetres, above the ellipsoid at 32 and above mean sea level at 36.
pub(crate) fn height(payload: &[u8], at: usize) -> Option<i64>
    requires room { at + 4 ≤ 92 }
    requires length { length payload.now ≡ 92 }
    ensures { result ≡ Some (i4_at payload.now at) }
{
    Some(i64::from(le_i32(payload, at)))
}

/// How far mean sea level is above the ellipsoid.
pub(crate) fn separation(payload: &[u8]) -> Option<i64>
    requires { length payload.now ≡ 92 }
    ensures { result ≡ Some (i4_at payload.now 32 -ℤ i4_at payload.now 36) }
{
    Some(i64::from(le_i32(payload, 32)) - i64::from(le_i32(payload, 36)))
}

/// The course of a NAV-PVT.
pub(crate) fn track(payload: &[u8]) -> Option<i64>
    requires { length payload.now ≡ 92 }
    ensures { result ≡ track_of (i4_at payload.now 64) }
{
    track_of(le_i32(payload, 64))
}

/// The speed over ground of a NAV-PVT.
pub(crate) fn speed(payload: &[u8]) -> Option<i64>
    requires { length payload.now ≡ 92 }
    ensures { result ≡ speed_of (i4_at payload.now 60) }
{
    speed_of(le_i32(payload, 60))
}

/// The upward speed of a NAV-PVT, which says the downward one.
pub(crate) fn climb(payload: &[u8]) -> Option<i64>
    requires { length payload.now ≡ 92 }
    ensures { result ≡ Some (neg_ℤ (i4_at payload.now 56)) }
{
    Some(-i64::from(le_i32(payload, 56)))
}
