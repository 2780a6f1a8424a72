// Numbers and stamps, and the parts of a line between spaces.
ghost use Rattle.std.specs.Prelude.{◌≡◌, ◌≤◌, ◌<◌, ◌==◌, IfSome, length, position, option_map};
ghost use Rattle.replay_script.specs.Words.{halves, number_and_count, number_between, numbered, stamp_in, stamped};

use gps_fixed::Stamp;
use pps_edges::{nine_digits, whole_number};

/// A number of 1 to 10 digits in this range.
#[tactic(auto, unfolding(crate::specs::Words::number_between))]
fn number_between(text: &[u8], least: u32, most: u32) -> Option<u32>
    ensures is { result ≡ number_between least most text.now }
    ensures range { IfSome result (λ n. (least ≤ n) × (n ≤ most)) }
{
    let number = whole_number(text)?;
    if u64::from(least) <= number && number <= u64::from(most) {
        Some(number as u32)
    } else {
        None
    }
}

fn place_of(text: &[u8], mark: u8) -> Option<usize>
    ensures is { result ≡ position (λ c. c == mark) text.now }
    ensures within { IfSome result (λ place. place < length text.now) }
{
    text.iter().position(|byte| *byte == mark)
}

/// What comes before the first such byte, and what follows it.
#[tactic(auto, unfolding(crate::specs::Words::halves))]
pub(crate) fn halves(text: &[u8], mark: u8) -> Option<(&[u8], &[u8])>
    ensures { option_map (λ p. (p.0.now, p.1.now)) result ≡ halves mark text.entry.now }
{
    match place_of(text, mark) {
        Some(place) => Some((&text[..place], &text[place + 1..])),
        None => None,
    }
}

/// Seconds, a point, and nine digits of nanoseconds.
#[tactic(auto, unfolding(crate::specs::Words::stamp_in))]
fn stamp(text: &[u8]) -> Option<Stamp>
    ensures { result ≡ stamp_in text.now }
{
    let (seconds, nanoseconds) = halves(text, b'.')?;
    let seconds = whole_number(seconds)?;
    let nsec = nine_digits(nanoseconds)?;
    Some(Stamp {
        sec: seconds as i64,
        nsec,
    })
}

/// A number, and what follows the space after it.
#[tactic(auto, unfolding(crate::specs::Words::numbered))]
pub(crate) fn numbered(text: &[u8]) -> Option<(u64, &[u8])>
    ensures { option_map (λ p. (p.0, p.1.now)) result ≡ numbered text.entry.now }
{
    let (word, rest) = halves(text, b' ')?;
    let number = whole_number(word)?;
    Some((number, rest))
}

/// A stamp, and what follows the space after it.
#[tactic(auto, unfolding(crate::specs::Words::stamped))]
pub(crate) fn stamped(text: &[u8]) -> Option<(Stamp, &[u8])>
    ensures { option_map (λ p. (p.0, p.1.now)) result ≡ stamped text.entry.now }
{
    let (word, rest) = halves(text, b' ')?;
    let at = stamp(word)?;
    Some((at, rest))
}

/// A number, a space, and a number in this range.
#[tactic(auto, unfolding(crate::specs::Words::number_and_count))]
pub(crate) fn number_and_count(text: &[u8], least: u32, most: u32) -> Option<(u64, u32)>
    ensures is { result ≡ number_and_count least most text.now }
    ensures range { IfSome result (λ p. (least ≤ p.1) × (p.1 ≤ most)) }
{
    let (first, rest) = numbered(text)?;
    let second = number_between(rest, least, most)?;
    Some((first, second))
}
