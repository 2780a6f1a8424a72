ghost use Rattle.std.specs.Prelude.{◌≡◌, ◌<◌, ◌≤◌, ◌^◌, option_map, length, true, IfSome};
ghost use Rattle.std.specs.List.{list_all, prefix_len};
ghost use Rattle.std.specs.Char.{is_ascii_digit};
ghost use Rattle.gps_fixed.specs.Numeral.{number};
ghost use Rattle.gps_fixed.specs.Scaled.{has_minus, without_minus};
ghost use Rattle.gps_client.specs.Reading.{fixed_at, hundredths_at, is_number_byte, is_plain, is_written_so, signed_at, up_to, whole_at};

use crate::cursor::Cursor;
use gps_fixed::read_scaled;

fn digits_len(text: &[u8]) -> usize
    ensures is { result ≡ prefix_len is_ascii_digit text.now }
    ensures within { result ≤ length text.now }
{
    text.iter().take_while(|c| c.is_ascii_digit()).count()
}

/// Whether digits have no leading zero, and are at most nineteen.
fn is_plain(digits: &[u8]) -> bool
    ensures { result ≡ is_plain digits.now }
{
    match digits {
        [] => false,
        [_] => true,
        [first, _, more @ ..] => *first != b'0' && more.len() <= 17,
    }
}

/// The number that at most nineteen digits write.
fn number_of(digits: &[u8]) -> u64
    requires few { length digits.now ≤ 19 }
    requires all { list_all is_ascii_digit digits.now ≡ true }
    ensures { result ≡ number digits.now }
{
    let mut value = 0u64;
    for c in digits {
        value = 10 * value + u64::from(*c - b'0');
    }
    value
}

#[tactic(auto, using(crate::proofs::Digits::run_passes, crate::proofs::Digits::plain_few), unfolding(crate::specs::Reading::whole_at))]
fn whole(text: &[u8]) -> Option<(u64, &[u8])>
    ensures { option_map (λ p. (p.0, p.1.now)) result ≡ whole_at text.now }
{
    let (digits, rest) = text.split_at(digits_len(text));
    if is_plain(digits) {
        Some((number_of(digits), rest))
    } else {
        None
    }
}

fn is_number_byte(c: u8) -> bool
    ensures { result ≡ is_number_byte c }
{
    c.is_ascii_digit() || c == b'-' || c == b'.'
}

fn number_len(text: &[u8]) -> usize
    ensures is { result ≡ prefix_len is_number_byte text.now }
    ensures within { result ≤ length text.now }
{
    text.iter().take_while(|c| is_number_byte(**c)).count()
}

fn has_minus(token: &[u8]) -> bool
    ensures { result ≡ has_minus token.now }
{
    match token {
        [first, ..] => *first == b'-',
        [] => false,
    }
}

fn without_minus(token: &[u8]) -> &[u8]
    ensures { result.now ≡ without_minus token.now }
{
    match token {
        [b'-', rest @ ..] => rest,
        _ => token,
    }
}

/// Whether the text of a value with the given number of decimals is written as it must be: no leading zero, every decimal, and no negative zero.
#[tactic(auto, unfolding(crate::specs::Reading::is_written_so))]
fn is_written_so(token: &[u8], decimals: u8, value: i64) -> bool
    ensures { result ≡ is_written_so decimals token.now value }
{
    let digits = without_minus(token);
    let whole = digits_len(digits);
    is_plain(&digits[..whole])
        && digits.len() == whole + 1 + usize::from(decimals)
        && !(has_minus(token) && value == 0)
}

#[tactic(auto, unfolding(crate::specs::Reading::fixed_at))]
fn fixed(text: &[u8], decimals: u8) -> Option<(i64, &[u8])>
    requires { decimals ≤ 9 }
    ensures { option_map (λ p. (p.0, p.1.now)) result ≡ fixed_at decimals text.now }
{
    let (token, rest) = text.split_at(number_len(text));
    let value = read_scaled(token, decimals)?;
    if is_written_so(token, decimals, value) {
        Some((value, rest))
    } else {
        None
    }
}

impl<'a> Cursor<'a> {
    /// A whole number without leading zeros.
    pub fn whole(&mut self) -> Option<u64>
        ensures { option_map (λ x. (x, self.new)) result ≡ whole_at self.old }
    {
        let (value, rest) = whole(self.rest)?;
        self.rest = rest;
        Some(value)
    }

    /// The same, and at most so large.
    pub fn up_to(&mut self, most: u64) -> Option<u64>
        ensures is { option_map (λ x. (x, self.new)) result ≡ up_to most self.old }
        ensures small { IfSome result (λ n. n ≤ most) }
    {
        let value = self.whole()?;
        if value <= most { Some(value) } else { None }
    }

    /// A whole number of 32 bits with a sign.
    #[tactic(auto, unfolding(crate::specs::Reading::signed_at))]
    pub fn signed(&mut self) -> Option<i32>
        ensures { option_map (λ x. (x, self.new)) result ≡ signed_at self.old }
    {
        if self.pass(b"-") {
            let value = self.whole()?;
            if 0 < value && value <= 2_147_483_648 {
                Some((-(value as i64)) as i32)
            } else {
                None
            }
        } else {
            let value = self.up_to(2_147_483_647)?;
            Some(value as i32)
        }
    }

    /// A number with the given number of decimals.
    pub fn fixed(&mut self, decimals: u8) -> Option<i64>
        requires { decimals ≤ 9 }
        ensures { option_map (λ x. (x, self.new)) result ≡ fixed_at decimals self.old }
    {
        let (value, rest) = fixed(self.rest, decimals)?;
        self.rest = rest;
        Some(value)
    }

    /// Hundredths, with two decimals.
    #[tactic(auto, unfolding(crate::specs::Reading::hundredths_at))]
    pub fn hundredths(&mut self) -> Option<u32>
        ensures { option_map (λ x. (x, self.new)) result ≡ hundredths_at self.old }
    {
        let value = self.fixed(2)?;
        if 0 <= value && value <= 4_294_967_295 {
            Some(value as u32)
        } else {
            None
        }
    }
}
