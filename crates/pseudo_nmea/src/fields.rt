// The texts of single fields. Each is added with the comma before it.
ghost use Rattle.std.specs.Prelude.{◌≡◌, ◌≤◌, ◌<◌, ◌*◌, ◌^◌, ◌∷◌, ◌++◌, OnOk, IfSome, unsigned_abs};
ghost use Rattle.gps_fixed.specs.Civil.{civil_of};
ghost use Rattle.pseudo_nmea.specs.Sentences.{field};
ghost use Rattle.pseudo_nmea.specs.Fields.{clock, clock_digits, date, date_digits, minutes, angle, placed, side, latitude, north, longitude, east, knots, course, metres};

use crate::dates::civil_of;
use gps_fixed::{Bytes, NoMemory, Stamp, nearest_ratio, push_digits, push_scaled};
use gps_report::Position;

const DEGREE: u64 = 1_000_000_000;

/// A text.
#[tactic(auto, unfolding(crate::specs::Sentences::field))]
pub(crate) fn push_text(out: &mut Bytes, text: &[u8]) -> Result<(), NoMemory>
    ensures { OnOk result (out.new ≡ out.old ++ field text.now) }
{
    out.push(b',')?;
    out.extend_from_slice(text)
}

#[tactic(auto, unfolding(crate::specs::Fields::clock_digits))]
fn push_clock_digits(out: &mut Bytes, second: u32) -> Result<(), NoMemory>
    ensures { OnOk result (out.new ≡ out.old ++ clock_digits second) }
{
    push_digits(out, second / 3_600, 2)?;
    push_digits(out, second / 60 % 60, 2)?;
    push_digits(out, second % 60, 2)
}

/// hhmmss and nine decimals.
#[tactic(auto, unfolding(crate::specs::Sentences::field, crate::specs::Fields::clock))]
pub(crate) fn push_clock(out: &mut Bytes, time: Option<Stamp>) -> Result<(), NoMemory>
    ensures { OnOk result (out.new ≡ out.old ++ field (clock time)) }
{
    out.push(b',')?;
    match time {
        Some(at) => {
            push_clock_digits(out, (at.sec as u64 % 86_400) as u32)?;
            out.push(b'.')?;
            push_digits(out, at.nsec, 9)
        }
        None => Ok(()),
    }
}

#[tactic(auto, unfolding(crate::specs::Fields::date_digits))]
fn push_date_digits(out: &mut Bytes, day: u32) -> Result<(), NoMemory>
    requires { day ≤ 115_740 }
    ensures { OnOk result (out.new ≡ out.old ++ date_digits (civil_of day)) }
{
    let date = civil_of(day);
    if 1980 <= date.year && date.year <= 2079 {
        push_digits(out, date.day as u32, 2)?;
        push_digits(out, date.month as u32, 2)?;
        push_digits(out, date.year as u32 % 100, 2)
    } else {
        Ok(())
    }
}

/// ddmmyy, in the years that two digits can name.
#[tactic(auto, unfolding(crate::specs::Sentences::field, crate::specs::Fields::date))]
pub(crate) fn push_date(out: &mut Bytes, time: Option<Stamp>) -> Result<(), NoMemory>
    ensures { OnOk result (out.new ≡ out.old ++ field (date time)) }
{
    out.push(b',')?;
    match time {
        Some(at) => push_date_digits(out, (at.sec as u64 / 86_400) as u32),
        None => Ok(()),
    }
}

/// The position, if it lies on the earth.
pub(crate) fn placed(position: Option<Position>) -> Option<Position>
    ensures { result ≡ placed position }
{
    match position {
        Some(place)
            if place.lat.unsigned_abs() <= 90 * DEGREE
                && place.lon.unsigned_abs() <= 180 * DEGREE => { Some(place) }
        _ => None,
    }
}

/// Minutes of an angle below a degree: two digits and seven decimals.
#[tactic(auto, unfolding(crate::specs::Fields::minutes))]
fn push_minutes(out: &mut Bytes, rest: u64) -> Result<(), NoMemory>
    requires { rest < 1_000_000_000 }
    ensures { OnOk result (out.new ≡ out.old ++ minutes rest) }
{
    let units = ((6 * rest + 5) / 10) as u32;
    push_digits(out, units / 10_000_000, 2)?;
    out.push(b'.')?;
    push_digits(out, units % 10_000_000, 7)
}

#[tactic(auto, unfolding(crate::specs::Fields::angle))]
fn push_angle(out: &mut Bytes, value: i64, count: u8) -> Result<(), NoMemory>
    requires count { count ≤ 9 }
    requires value { unsigned_abs value ≤ 180 * 10 ^ 9 }
    ensures { OnOk result (out.new ≡ out.old ++ angle count value) }
{
    let magnitude = value.unsigned_abs();
    push_digits(out, (magnitude / DEGREE) as u32, count)?;
    push_minutes(out, magnitude % DEGREE)
}

fn side<'a>(plus: &'a [u8], minus: &'a [u8], value: i64) -> &'a [u8]
    ensures { result.now ≡ side plus.now minus.now value }
{
    if value < 0 { minus } else { plus }
}

/// The latitude, and its letter.
#[tactic(auto, unfolding(crate::specs::Sentences::field, crate::specs::Fields::latitude, crate::specs::Fields::north))]
pub(crate) fn push_latitude(out: &mut Bytes, place: Option<Position>) -> Result<(), NoMemory>
    requires { IfSome place (λ p. unsigned_abs p.lat ≤ 90 * 10 ^ 9) }
    ensures { OnOk result (out.new ≡ out.old ++ field (latitude place) ++ field (north place)) }
{
    out.push(b',')?;
    match place {
        Some(place) => {
            push_angle(out, place.lat, 2)?;
            push_text(out, side(b"N", b"S", place.lat))
        }
        None => out.push(b','),
    }
}

/// The longitude, and its letter.
#[tactic(auto, unfolding(crate::specs::Sentences::field, crate::specs::Fields::longitude, crate::specs::Fields::east))]
pub(crate) fn push_longitude(out: &mut Bytes, place: Option<Position>) -> Result<(), NoMemory>
    requires { IfSome place (λ p. unsigned_abs p.lon ≤ 180 * 10 ^ 9) }
    ensures { OnOk result (out.new ≡ out.old ++ field (longitude place) ++ field (east place)) }
{
    out.push(b',')?;
    match place {
        Some(place) => {
            push_angle(out, place.lon, 3)?;
            push_text(out, side(b"E", b"W", place.lon))
        }
        None => out.push(b','),
    }
}

/// A speed of millimetres a second, in knots.
#[tactic(auto, unfolding(crate::specs::Sentences::field, crate::specs::Fields::knots))]
pub(crate) fn push_knots(out: &mut Bytes, speed: Option<i64>) -> Result<(), NoMemory>
    ensures { OnOk result (out.new ≡ out.old ++ field (knots speed)) }
{
    out.push(b',')?;
    match speed {
        Some(speed) if 0 <= speed && speed <= 514_444_444 => {
            push_scaled(out, nearest_ratio(speed, 900, 463), 3)
        }
        _ => Ok(()),
    }
}

/// A course in 1e-4 degree.
#[tactic(auto, unfolding(crate::specs::Sentences::field, crate::specs::Fields::course))]
pub(crate) fn push_track(out: &mut Bytes, track: Option<i64>) -> Result<(), NoMemory>
    ensures { OnOk result (out.new ≡ out.old ++ field (course track)) }
{
    out.push(b',')?;
    match track {
        Some(track) if 0 <= track && track <= 3_600_000 => push_scaled(out, track, 4),
        _ => Ok(()),
    }
}

/// A height of millimetres, in metres.
#[tactic(auto, unfolding(crate::specs::Sentences::field, crate::specs::Fields::metres))]
pub(crate) fn push_height(out: &mut Bytes, height: Option<i64>) -> Result<(), NoMemory>
    ensures { OnOk result (out.new ≡ out.old ++ field (metres height)) }
{
    out.push(b',')?;
    match height {
        Some(height) if height.unsigned_abs() < 1_000_000_000_000 => push_scaled(out, height, 3),
        _ => Ok(()),
    }
}
