ghost use Rattle.std.specs.Prelude.{◌≡◌, ◌*◌, ◌^◌, ◌<◌, ◌≤◌, IfSome};
ghost use Rattle.nmea_decode.specs.Places.{angle, both, latitude_of, longitude_of, nanodegrees, on_side, position_of, side_of};

use gps_fixed::read_digits;
use gps_report::Position;

const DEGREE: u64 = 1_000_000_000;

/// Nanodegrees of degrees and minutes; minutes are in units of 1e-7, so a degree has 60 * 10^7.
fn angle_within(n: u64, most: u64) -> Option<u64>
    requires few { n < 10 ^ 12 }
    requires most { most ≤ 180 }
    ensures angle { result ≡ angle most n }
    ensures within { IfSome result (λ a. a ≤ 180 * 10 ^ 9) }
{
    let minutes = n % DEGREE;
    let angle = n / DEGREE * DEGREE + (10 * minutes + 3) / 6;
    if minutes < 600_000_000 && angle <= most * DEGREE {
        Some(angle)
    } else {
        None
    }
}

fn side(letter: &[u8], plus: &[u8], minus: &[u8]) -> Option<bool>
    ensures { result ≡ side_of plus.now minus.now letter.now }
{
    if letter == plus {
        Some(false)
    } else if letter == minus {
        Some(true)
    } else {
        None
    }
}

fn signed(negative: Option<bool>, angle: Option<u64>) -> Option<i64>
    requires { IfSome angle (λ a. a ≤ 180 * 10 ^ 9) }
    ensures { result ≡ on_side negative angle }
{
    match (negative, angle) {
        (Some(true), Some(angle)) => Some(-(angle as i64)),
        (Some(false), Some(angle)) => Some(angle as i64),
        _ => None,
    }
}

/// Nanodegrees north.
#[tactic(auto, unfolding(crate::specs::Places::latitude_of))]
fn latitude(text: &[u8], letter: &[u8]) -> Option<i64>
    ensures { result ≡ latitude_of text.now letter.now }
{
    let angle = match read_digits(text, 4, 7) {
        Some(n) => angle_within(n, 90),
        None => None,
    };
    signed(side(letter, b"N", b"S"), angle)
}

/// Nanodegrees east.
#[tactic(auto, unfolding(crate::specs::Places::longitude_of))]
fn longitude(text: &[u8], letter: &[u8]) -> Option<i64>
    ensures { result ≡ longitude_of text.now letter.now }
{
    let angle = match read_digits(text, 5, 7) {
        Some(n) => angle_within(n, 180),
        None => None,
    };
    signed(side(letter, b"E", b"W"), angle)
}

/// A position, if both of its halves are readable.
#[tactic(auto, unfolding(crate::specs::Places::position_of))]
pub(crate) fn position(lat: &[u8], north: &[u8], lon: &[u8], east: &[u8]) -> Option<Position>
    ensures { result ≡ position_of lat.now north.now lon.now east.now }
{
    match (latitude(lat, north), longitude(lon, east)) {
        (Some(lat), Some(lon)) => Some(Position { lat, lon }),
        _ => None,
    }
}
