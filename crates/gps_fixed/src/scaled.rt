ghost use Rattle.std.specs.Prelude.{◌≡◌, ◌↔◌, ◌+◌, ◌^◌, ◌<◌, ◌≤◌, ℤ, Some, IfSome};
ghost use Rattle.std.specs.Option.{option_and_then, option_map};
ghost use Rattle.gps_fixed.specs.Scaled.{has_minus, has_whole, magnitude_if, without_minus, signed, magnitude, scaled, digits_of, whole_of, IsScaled};

use crate::numeral::{MOST_BEFORE, number_of, numeral_behind};
use crate::{Numeral, read_numeral};

/// Reads a fixed point number: an optional `-`, then 0 to 9 digits, then optionally `.` and any number of digits,
/// with at least one digit in all. The answer is the value times `10^decimals`, further digits dropped.
///
/// `None` comes exactly if the text is not of this form.
#[tactic(auto, unfolding(crate::specs::Scaled::scaled))]
pub fn read_scaled(text: &[u8], decimals: u8) -> Option<i64>
    requires { decimals ≤ 9 }
    ensures value { result ≡ scaled decimals text.now }
    ensures exact { (v : ℤ) → (result ≡ Some v) ↔ IsScaled decimals text.now v }
{
    let (negative, unsigned) = split_sign(text);
    signed_of(negative, read_magnitude(unsigned, decimals))
}

fn split_sign(text: &[u8]) -> (bool, &[u8])
    ensures negative { result.0 ≡ has_minus text.now }
    ensures rest { result.1.now ≡ without_minus text.now }
{
    match text {
        [b'-', rest @ ..] => (true, rest),
        _ => (false, text),
    }
}

fn signed_of(negative: bool, magnitude: Option<u64>) -> Option<i64>
    requires { IfSome magnitude (λ n. n < 10 ^ 18) }
    ensures { result ≡ option_map (signed negative) magnitude }
{
    match magnitude {
        Some(magnitude) if negative => Some(-(magnitude as i64)),
        Some(magnitude) => Some(magnitude as i64),
        None => None,
    }
}

/// The same without a sign.
#[tactic(auto, using(crate::proofs::NumeralLaws::under_18), unfolding(crate::specs::Scaled::magnitude))]
pub fn read_magnitude(text: &[u8], decimals: u8) -> Option<u64>
    requires { decimals ≤ 9 }
    ensures value { result ≡ magnitude decimals text.now }
    ensures small { IfSome result (λ n. n < 10 ^ 18) }
{
    match read_numeral(text, decimals) {
        Some(numeral) if numeral.has_digits() => Some(numeral.magnitude),
        _ => None,
    }
}

/// Reads exactly `count` digits, and optionally a point and at least one digit after it; times `10^decimals`, further digits dropped.
/// If the count is a constant, the digits before the point are read without a loop.
#[inline(always)]
#[tactic(auto, using(crate::proofs::WholeLaws::none_long, crate::proofs::WholeLaws::none_short, crate::proofs::WholeLaws::none_first, crate::proofs::WholeLaws::all_read))]
pub fn read_digits(text: &[u8], count: usize, decimals: u8) -> Option<u64>
    requires { decimals ≤ 9 }
    ensures value { result ≡ digits_of count decimals text.now }
    ensures small { IfSome result (λ n. n < 10 ^ (count + decimals)) }
{
    if count > MOST_BEFORE {
        return None;
    }
    if count > text.len() {
        return None;
    }
    let (whole, rest) = text.split_at(count);
    match number_of(whole) {
        Some(value) => whole_magnitude(numeral_behind(decimals, whole, value, rest), count),
        None => None,
    }
}

/// The magnitude of a numeral with this number of digits before its point.
#[inline(always)]
fn whole_magnitude(numeral: Option<Numeral>, count: usize) -> Option<u64>
    ensures { result ≡ option_and_then (λ n. magnitude_if (has_whole count n) n) numeral }
{
    match numeral {
        Some(numeral) if numeral.has_whole(count) => Some(numeral.magnitude),
        _ => None,
    }
}

/// Reads exactly `count` digits and nothing else.
#[tactic(auto, unfolding(crate::specs::Scaled::whole_of))]
pub fn read_whole(text: &[u8], count: usize) -> Option<u64>
    ensures value { result ≡ whole_of count text.now }
    ensures small { IfSome result (λ n. n < 10 ^ count) }
{
    match read_numeral(text, 0) {
        Some(numeral) if numeral.is_whole(count) => Some(numeral.magnitude),
        _ => None,
    }
}
