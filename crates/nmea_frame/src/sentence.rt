ghost use Rattle.std.specs.Prelude.{◌≡◌, ◌≤◌, ◌↔◌, ℕ, length, take};
ghost use Rattle.nmea_frame.specs.Sentence.{IsSentence, IsProperPrefix, hex_value as value, read_sum as sum_read, checksum as sum_of};
ghost use Rattle.nmea_frame.specs.Scan.{shape_of, after_dollar as dollar_shape, after_body as body_shape, after_star as star_shape, ending as ending_shape, after_return as return_shape, whole_if as shape_if};

use crate::body_length::body_len;

/// What a list of bytes begins with.
#[derive(Clone, Copy, Debug, PartialEq, Eq)]
pub enum Shape {
    /// A sentence with a right checksum, of this number of bytes from its `$` to its LF.
    Whole(usize),
    /// No sentence yet: the whole list is the beginning of one, and shorter than it.
    Pending,
    /// No sentence, whatever bytes follow.
    No,
}

/// The longest body: 128 bytes less `$`, `*`, two digits and LF.
const LONGEST_BODY: usize = 123;

/// The sentence that a list of bytes begins with.
///
/// `Whole(n)` comes exactly if the first n bytes are a sentence with a right checksum, `Pending`
/// exactly if the whole list is a proper prefix of some sentence, whatever its checksum, and `No`
/// in all other cases. Source: NMEA 0183.
pub fn sentence_at(bytes: &[u8]) -> Shape
    ensures shape { result ≡ shape_of bytes.now }
    ensures whole { (n : ℕ) → (result ≡ Shape.Whole n) ↔ ((n ≤ length bytes.now) × IsSentence (take n bytes.now)) }
    ensures pending { (result ≡ Shape.Pending) ↔ IsProperPrefix bytes.now }
{
    scan(bytes)
}

#[tactic(auto, unfolding(crate::specs::Scan::shape_of))]
fn scan(bytes: &[u8]) -> Shape
    ensures { result ≡ shape_of bytes.now }
{
    match bytes {
        [] => Shape::Pending,
        [b'$', text @ ..] => after_dollar(text),
        _ => Shape::No,
    }
}

#[tactic(auto, unfolding(crate::specs::Scan::after_dollar))]
fn after_dollar(text: &[u8]) -> Shape
    ensures { result ≡ dollar_shape text.now }
{
    let len = body_len(text);
    if len > LONGEST_BODY {
        return Shape::No;
    }
    let (body, rest) = text.split_at(len);
    after_body(body, rest)
}

#[tactic(auto, unfolding(crate::specs::Scan::after_body))]
fn after_body(body: &[u8], rest: &[u8]) -> Shape
    requires { length body.now ≤ 123 }
    ensures { result ≡ body_shape body.now rest.now }
{
    match rest {
        [] => Shape::Pending,
        [b'*', rest @ ..] if !body.is_empty() => after_star(body, rest),
        _ => Shape::No,
    }
}

#[tactic(auto, unfolding(crate::specs::Scan::after_star, crate::specs::Scan::after_digits))]
fn after_star(body: &[u8], rest: &[u8]) -> Shape
    requires { length body.now ≤ 123 }
    ensures { result ≡ star_shape body.now rest.now }
{
    match rest {
        [] => Shape::Pending,
        [high] => match hex_value(*high) {
            Some(_) => Shape::Pending,
            None => Shape::No,
        },
        [high, low, rest @ ..] => match read_sum(*high, *low) {
            Some(sum) => ending(body.len(), sum == checksum(body), rest),
            None => Shape::No,
        },
    }
}

#[tactic(auto, unfolding(crate::specs::Scan::ending))]
fn ending(len: usize, right: bool, rest: &[u8]) -> Shape
    requires { len ≤ 123 }
    ensures { result ≡ ending_shape len right rest.now }
{
    match rest {
        [] => Shape::Pending,
        [b'\n', ..] => whole_if(right, len + 5),
        [b'\r', rest @ ..] if len < LONGEST_BODY => after_return(len, right, rest),
        _ => Shape::No,
    }
}

#[tactic(auto, unfolding(crate::specs::Scan::after_return))]
fn after_return(len: usize, right: bool, rest: &[u8]) -> Shape
    requires { len ≤ 123 }
    ensures { result ≡ return_shape len right rest.now }
{
    match rest {
        [] => Shape::Pending,
        [b'\n', ..] => whole_if(right, len + 6),
        _ => Shape::No,
    }
}

fn whole_if(right: bool, len: usize) -> Shape
    ensures { result ≡ shape_if right len }
{
    if right { Shape::Whole(len) } else { Shape::No }
}

fn hex_value(digit: u8) -> Option<u8>
    ensures { result ≡ value digit }
{
    match digit {
        b'0'..=b'9' => Some(digit - b'0'),
        b'A'..=b'F' => Some(digit - b'A' + 10),
        b'a'..=b'f' => Some(digit - b'a' + 10),
        _ => None,
    }
}

fn read_sum(high: u8, low: u8) -> Option<u8>
    ensures { result ≡ sum_read high low }
{
    match (hex_value(high), hex_value(low)) {
        (Some(high), Some(low)) => Some(16 * high + low),
        _ => None,
    }
}

/// The sum that follows the `*`: the bytes of the body, joined by exclusive or.
pub fn checksum(body: &[u8]) -> u8
    ensures { result ≡ sum_of body.now }
{
    body.iter().fold(0, |sum, byte| sum ^ *byte)
}
