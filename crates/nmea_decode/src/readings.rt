ghost use Rattle.std.specs.Prelude.{◌≡◌, ◌==◌, ◌*◌, ◌+◌, ◌^◌, ◌<◌, ◌≤◌, pos, Some, IfSome};
ghost use Rattle.std.specs.Char.{is_ascii_digit};
ghost use Rattle.std.specs.Option.{option_and_then};
ghost use Rattle.gps_fixed.specs.Scaled.{scaled};
ghost use Rattle.nmea_decode.specs.Fields.{behind, field, is_field_end};
ghost use Rattle.nmea_decode.specs.Readings.{above_nought, azimuth_of, clock, date_from, date_of, dated, day_ns, day_with, days_passed, dilution_of, elevation_of, full_year, height_of, id_of, later_by, long_date_of, number_up_to, plain_number, speed_of, strength_of, IsOfCentury, time_of, tod_of, track_of, up_to, within_right_angle};

use crate::fields::next;
use gps_fixed::{day_of, nearest_ratio, read_digits, read_scaled};

const SECOND: u64 = 1_000_000_000;

const DAY: u64 = 86_400 * SECOND;

/// A number with the given number of decimals, from 0 to `most`.
#[tactic(auto, unfolding(crate::specs::Readings::number_up_to))]
fn number(text: &[u8], most: u32, decimals: u8) -> Option<u32>
    requires { decimals ≤ 9 }
    ensures number { result ≡ number_up_to most decimals text.now }
    ensures within { IfSome result (λ n. n ≤ most) }
{
    match read_scaled(text, decimals) {
        Some(n) if n >= 0 && n <= i64::from(most) => Some(n as u32),
        _ => None,
    }
}

fn is_digit(c: u8) -> bool
    ensures { result ≡ is_ascii_digit c }
{
    c.is_ascii_digit()
}

/// One to three digits and nothing else, as most fields of a satellite are.
fn few_digits(text: &[u8]) -> Option<u32>
    ensures { IfSome result (λ n. scaled 0 text.now ≡ Some (pos n)) }
{
    match text {
        [a] if is_digit(*a) => Some(u32::from(*a - b'0')),
        [a, b] if is_digit(*a) && is_digit(*b) => {
            Some(10 * u32::from(*a - b'0') + u32::from(*b - b'0'))
        }
        [a, b, c] if is_digit(*a) && is_digit(*b) && is_digit(*c) => {
            Some(100 * u32::from(*a - b'0') + 10 * u32::from(*b - b'0') + u32::from(*c - b'0'))
        }
        _ => None,
    }
}

/// A number without its decimals. Many fields are empty.
#[inline(always)]
#[tactic(auto, using(crate::proofs::Plain::nothing_read))]
fn integer(text: &[u8]) -> Option<i64>
    ensures { result ≡ scaled 0 text.now }
{
    match few_digits(text) {
        Some(n) => Some(i64::from(n)),
        None if text.is_empty() => None,
        None => read_scaled(text, 0),
    }
}

/// A number from 0 to `most`.
fn up_to(n: Option<i64>, most: u32) -> Option<u32>
    ensures number { result ≡ option_and_then (up_to most) n }
    ensures within { IfSome result (λ n. n ≤ most) }
{
    match n {
        Some(n) if n >= 0 && n <= i64::from(most) => Some(n as u32),
        _ => None,
    }
}

/// A text as such a number, without its decimals.
#[tactic(auto, unfolding(crate::specs::Readings::number_up_to))]
fn whole(text: &[u8], most: u32) -> Option<u32>
    ensures number { result ≡ number_up_to most 0 text.now }
    ensures within { IfSome result (λ n. n ≤ most) }
{
    up_to(integer(text), most)
}

/// Whether a field ends here: none follows, or the comma before the next.
fn is_field_end(text: &[u8]) -> bool
    ensures { result ≡ is_field_end text.now }
{
    match text {
        [] => true,
        [c, ..] => *c == b',',
    }
}

/// A first field of two or three digits, as most fields of a satellite are, and the text after it. No comma is looked for.
#[inline(always)]
fn few_digits_next(text: &[u8]) -> Option<(u32, &[u8])>
    ensures number { IfSome result (λ r. scaled 0 (field text.now) ≡ Some (pos r.0)) }
    ensures behind { IfSome result (λ r. r.1.now ≡ behind text.now) }
{
    match text {
        [_, a, b, rest @ ..] if is_digit(*a) && is_digit(*b) && is_field_end(rest) => {
            let n = 10 * u32::from(*a - b'0') + u32::from(*b - b'0');
            Some((n, rest))
        }
        [_, a, b, c, rest @ ..]
            if is_digit(*a) && is_digit(*b) && is_digit(*c) && is_field_end(rest) => {
            let n = 100 * u32::from(*a - b'0') + 10 * u32::from(*b - b'0') + u32::from(*c - b'0');
            Some((n, rest))
        }
        _ => None,
    }
}

/// Any first field, and the text after it.
#[inline(never)]
fn integer_next(text: &[u8]) -> (Option<i64>, &[u8])
    ensures number { result.0 ≡ scaled 0 (field text.now) }
    ensures behind { result.1.now ≡ behind text.now }
{
    let (first, rest) = next(text);
    (integer(first), rest)
}

/// The first field as a number without its decimals, and the text after it.
#[inline(always)]
fn next_integer(text: &[u8]) -> (Option<i64>, &[u8])
    ensures number { result.0 ≡ scaled 0 (field text.now) }
    ensures behind { result.1.now ≡ behind text.now }
{
    match few_digits_next(text) {
        Some((n, rest)) => (Some(i64::from(n)), rest),
        None => integer_next(text),
    }
}

/// The same, from 0 to `most`.
#[inline(always)]
#[tactic(auto, unfolding(crate::specs::Readings::number_up_to))]
fn next_whole(text: &[u8], most: u32) -> (Option<u32>, &[u8])
    ensures number { result.0 ≡ number_up_to most 0 (field text.now) }
    ensures behind { result.1.now ≡ behind text.now }
    ensures within { IfSome result.0 (λ n. n ≤ most) }
{
    let (n, rest) = next_integer(text);
    (up_to(n, most), rest)
}

fn above_nought(n: Option<u32>) -> Option<u32>
    requires { IfSome n (λ n. n ≤ 999) }
    ensures number { result ≡ option_and_then above_nought n }
    ensures within { IfSome result (λ n. n ≤ 999) }
{
    match n {
        Some(n) if n > 0 => Some(n),
        _ => None,
    }
}

/// The id of a satellite, 1..=999, and the text after its field.
#[inline(always)]
#[tactic(auto, unfolding(crate::specs::Readings::id_of))]
pub(crate) fn next_id(text: &[u8]) -> (Option<u32>, &[u8])
    ensures id { result.0 ≡ id_of (field text.now) }
    ensures behind { result.1.now ≡ behind text.now }
    ensures within { IfSome result.0 (λ n. n ≤ 999) }
{
    let (n, rest) = next_whole(text, 999);
    (above_nought(n), rest)
}

fn within_right_angle(n: Option<i64>) -> Option<i32>
    ensures { result ≡ option_and_then within_right_angle n }
{
    match n {
        Some(n) if -90 <= n && n <= 90 => Some(n as i32),
        _ => None,
    }
}

/// Degrees above the horizon, -90..=90, and the text after their field.
#[inline(always)]
#[tactic(auto, unfolding(crate::specs::Readings::elevation_of))]
pub(crate) fn next_elevation(text: &[u8]) -> (Option<i32>, &[u8])
    ensures elevation { result.0 ≡ elevation_of (field text.now) }
    ensures behind { result.1.now ≡ behind text.now }
{
    let (n, rest) = next_integer(text);
    (within_right_angle(n), rest)
}

/// Degrees from true north, 0..=360, and the text after their field.
#[inline(always)]
pub(crate) fn next_azimuth(text: &[u8]) -> (Option<u32>, &[u8])
    ensures azimuth { result.0 ≡ azimuth_of (field text.now) }
    ensures behind { result.1.now ≡ behind text.now }
{
    next_whole(text, 360)
}

/// Signal strength in dBHz, 0..=99, and the text after its field.
#[inline(always)]
pub(crate) fn next_strength(text: &[u8]) -> (Option<u32>, &[u8])
    ensures strength { result.0 ≡ strength_of (field text.now) }
    ensures behind { result.1.now ≡ behind text.now }
{
    next_whole(text, 99)
}

fn is_point(c: u8) -> bool
    ensures { result ≡ (c == 46) }
{
    c == b'.'
}

/// One digit, a point and two digits, as most dilutions are.
fn hundredths(text: &[u8]) -> Option<u32>
    ensures { IfSome result (λ n. scaled 2 text.now ≡ Some (pos n)) }
{
    match text {
        [a, point, b, c] if is_digit(*a) && is_point(*point) && is_digit(*b) && is_digit(*c) => {
            Some(100 * u32::from(*a - b'0') + 10 * u32::from(*b - b'0') + u32::from(*c - b'0'))
        }
        _ => None,
    }
}

/// A dilution in hundredths, at most 99.99.
#[tactic(auto, unfolding(crate::specs::Readings::number_up_to))]
pub(crate) fn dilution(text: &[u8]) -> Option<u32>
    ensures { result ≡ dilution_of text.now }
{
    match hundredths(text) {
        Some(n) => up_to(Some(i64::from(n)), 9_999),
        None => number(text, 9_999, 2),
    }
}

/// A height in millimetres.
pub(crate) fn height(text: &[u8]) -> Option<i64>
    ensures { result ≡ height_of text.now }
{
    read_scaled(text, 3)
}

/// A course in 1e-4 degree.
#[tactic(auto, unfolding(crate::specs::Readings::track_of))]
pub(crate) fn track(text: &[u8]) -> Option<i64>
    ensures { result ≡ track_of text.now }
{
    match number(text, 3_600_000, 4) {
        Some(n) => Some(i64::from(n)),
        None => None,
    }
}

/// A speed in knots, as millimetres a second.
#[tactic(auto, unfolding(crate::specs::Readings::speed_of))]
pub(crate) fn speed(text: &[u8]) -> Option<i64>
    ensures { result ≡ speed_of text.now }
{
    match number(text, 1_000_000_000, 3) {
        Some(n) => Some(nearest_ratio(i64::from(n), 463, 900)),
        None => None,
    }
}

/// A time as nanoseconds since the day began; second 60 may pass the day's end.
fn since_midnight(n: u64) -> Option<u64>
    requires { n < 10 ^ 15 }
    ensures time { result ≡ clock n }
    ensures within { IfSome result (λ t. t < 2 * day_ns) }
{
    let seconds = n / SECOND;
    let h = seconds / 10_000;
    let m = seconds / 100 % 100;
    let s = seconds % 100;
    if h <= 23 && m <= 59 && s <= 60 {
        Some((h * 3600 + m * 60 + s) * SECOND + n % SECOND)
    } else {
        None
    }
}

/// The time of a sentence, hhmmss and a fraction.
#[tactic(auto, unfolding(crate::specs::Readings::time_of))]
pub(crate) fn time(text: &[u8]) -> Option<u64>
    ensures time { result ≡ time_of text.now }
    ensures within { IfSome result (λ t. t < 2 * day_ns) }
{
    match read_digits(text, 6, 9) {
        Some(n) => since_midnight(n),
        None => None,
    }
}

/// Nanoseconds of the day.
pub(crate) fn tod(time: Option<u64>) -> Option<u64>
    ensures tod { result ≡ tod_of time }
    ensures within { IfSome result (λ t. t < day_ns) }
{
    match time {
        Some(time) => Some(time % DAY),
        None => None,
    }
}

/// The day of a date that comes with a time.
pub(crate) fn day_beside(time: Option<u64>, day: Option<i32>) -> Option<i32>
    requires time { IfSome time (λ t. t < 2 * day_ns) }
    requires day { IfSome day IsOfCentury }
    ensures { result ≡ day_with time day }
{
    let passed = match time {
        Some(time) => time / DAY,
        None => 0,
    };
    match day {
        Some(day) => Some(day + passed as i32),
        None => None,
    }
}

/// Exactly the given number of digits, and nothing else.
#[tactic(auto, unfolding(crate::specs::Readings::plain_number))]
fn plain(text: &[u8], count: usize) -> Option<u64>
    requires { count ≤ 6 }
    ensures number { result ≡ plain_number count text.now }
    ensures within { IfSome result (λ n. n < 10 ^ count) }
{
    if text.len() == count {
        read_digits(text, count, 0)
    } else {
        None
    }
}

/// A year of two digits is of the years 1980 to 2079.
fn year_of(yy: u64) -> u64
    requires { yy < 100 }
    ensures year { result ≡ full_year yy }
    ensures within { result < 2100 }
{
    if 80 <= yy { 1900 + yy } else { 2000 + yy }
}

#[tactic(auto, using(crate::proofs::Days::day_within))]
fn date_in(n: u64) -> Option<i32>
    requires { n < 10 ^ 6 }
    ensures date { result ≡ dated n }
    ensures within { IfSome result IsOfCentury }
{
    let year = year_of(n % 100);
    let date = day_of(year as i32, (n / 100 % 100) as u8, (n / 10_000) as u8);
    date
}

/// The day of a date ddmmyy, of the years 1980 to 2079.
#[tactic(auto, unfolding(crate::specs::Readings::date_of))]
pub(crate) fn date(text: &[u8]) -> Option<i32>
    ensures date { result ≡ date_of text.now }
    ensures within { IfSome result IsOfCentury }
{
    match plain(text, 6) {
        Some(n) => date_in(n),
        None => None,
    }
}

/// The day of a date in three fields, with a year of four digits.
#[tactic(auto, using(crate::proofs::Days::day_within), unfolding(crate::specs::Readings::long_date_of))]
pub(crate) fn long_date(day: &[u8], month: &[u8], year: &[u8]) -> Option<i32>
    ensures date { result ≡ long_date_of day.now month.now year.now }
    ensures within { IfSome result IsOfCentury }
{
    match (plain(year, 4), whole(month, 12), whole(day, 31)) {
        (Some(year), Some(month), Some(day)) => day_of(year as i32, month as u8, day as u8),
        _ => None,
    }
}
