ghost use Rattle.std.specs.Prelude.{◌≡◌, ◌↔◌, ◌^◌, ◌<◌, ◌≤◌, ◌+◌, true, length, take, Some, None, IfSome};
ghost use Rattle.std.specs.List.{list_all, prefix_len};
ghost use Rattle.std.specs.Char.{is_ascii_digit};
ghost use Rattle.gps_fixed.specs.declared.numeral.Numeral.{Numeral};
ghost use Rattle.gps_fixed.specs.Scaled.{has_digits, has_whole, is_whole};
ghost use Rattle.gps_fixed.specs.Numeral.{number, first_digits, numeral_behind, numeral, if_digits, IsNumeral};

/// A decimal text, read: digits, and optionally a point and further digits.
#[derive(Clone, Copy, Debug, PartialEq, Eq)]
pub struct Numeral {
    /// How many digits come before the point.
    pub before: usize,
    /// How many digits follow the point, if there is one.
    pub behind: Option<usize>,
    /// The value times a power of ten, further digits dropped.
    pub magnitude: u64,
}

/// The most digits before a point.
pub(crate) const MOST_BEFORE: usize = 9;

/// The digits that begin a text: how many, at most nine, and the number that they write.
#[derive(Clone, Copy)]
struct Digits {
    len: usize,
    value: u64,
}

/// Reads at most nine digits, and after a point any number of them; the value is scaled by `10^decimals`.
///
/// `None` comes exactly if the text is not of this form. The text may have no digit at all.
pub fn read_numeral(text: &[u8], decimals: u8) -> Option<Numeral>
    requires { decimals ≤ 9 }
    ensures value { result ≡ numeral decimals text.now }
    ensures exact { (n : Numeral) → (result ≡ Some n) ↔ IsNumeral decimals text.now n }
    ensures small { IfSome result (λ n. n.magnitude < 10 ^ (n.before + decimals)) }
    ensures few { IfSome result (λ n. n.before ≤ 9) }
{
    let numeral = numeral_in(text, decimals);
    numeral
}

#[tactic(auto, using(crate::proofs::NumeralLaws::read_some, crate::proofs::NumeralLaws::read_none))]
fn numeral_in(text: &[u8], decimals: u8) -> Option<Numeral>
    requires { decimals ≤ 9 }
    ensures value { result ≡ numeral decimals text.now }
    ensures small { IfSome result (λ n. n.magnitude < 10 ^ (n.before + decimals)) }
    ensures few { IfSome result (λ n. n.before ≤ 9) }
{
    match leading_digits(text) {
        Some(digits) => {
            let (whole, rest) = text.split_at(digits.len);
            numeral_behind(decimals, whole, digits.value, rest)
        }
        None => None,
    }
}

/// The digits that begin a text, if there are at most nine.
#[tactic(auto, using(crate::proofs::NumeralLaws::below_leading))]
fn leading_digits(text: &[u8]) -> Option<Digits>
    // Why there may be none.
    ensures none { result ≡ None → 9 < prefix_len is_ascii_digit text.now }

    // How many they are.
    ensures len { IfSome result (λ l. l.len ≡ prefix_len is_ascii_digit text.now) }
    ensures within { IfSome result (λ l. l.len ≤ length text.now) }
    ensures few { IfSome result (λ l. l.len ≤ 9) }

    // What they are, and their value.
    ensures digits { IfSome result (λ l. list_all is_ascii_digit (take l.len text.now) ≡ true) }
    ensures value { IfSome result (λ l. l.value ≡ number (take l.len text.now)) }
    ensures below { IfSome result (λ l. l.value < 10 ^ l.len) }
{
    let mut value = 0u64;
    let mut len = 0usize;
    for c in text {
        if !c.is_ascii_digit() {
            return Some(Digits { len, value });
        }
        if len == 9 {
            return None;
        }
        value = 10 * value + (*c - b'0') as u64;
        len += 1;
    }
    Some(Digits { len, value })
}

/// The numeral of at most nine digits, with their value, and what follows them.
#[tactic(auto, using(crate::proofs::NumeralLaws::no_fraction, crate::proofs::NumeralLaws::scaled_small, crate::proofs::NumeralLaws::whole_small))]
#[inline(always)]
pub(crate) fn numeral_behind(decimals: u8, whole: &[u8], value: u64, rest: &[u8]) -> Option<Numeral>
    // The digits before the point, at most nine, with their value.
    requires decimals { decimals ≤ 9 }
    requires digits { list_all is_ascii_digit whole.now ≡ true }
    requires few { length whole.now ≤ 9 }
    requires number { value ≡ number whole.now }
    requires below { value < 10 ^ length whole.now }

    // The numeral.
    ensures value { result ≡ numeral_behind decimals whole.now rest.now }

    // Bounds of its parts.
    ensures small { IfSome result (λ n. n.magnitude < 10 ^ (n.before + decimals)) }
    ensures few { IfSome result (λ n. n.before ≤ 9) }
{
    let before = whole.len();
    let units = value * power_of_ten(decimals);
    match rest {
        [] => Some(Numeral {
            before,
            behind: None,
            magnitude: units,
        }),
        [b'.', digits @ ..] => match fraction(digits, decimals) {
            Some(parts) => Some(Numeral {
                before,
                behind: Some(digits.len()),
                magnitude: units + parts,
            }),
            None => None,
        },
        _ => None,
    }
}

fn are_digits(text: &[u8]) -> bool
    ensures { result ≡ list_all is_ascii_digit text.now }
{
    text.iter().all(|c| c.is_ascii_digit())
}

/// The number that at most eighteen digits write; `None` if one of them is no digit.
#[inline(always)]
pub(crate) fn number_of(text: &[u8]) -> Option<u64>
    requires few { length text.now ≤ 18 }
    ensures value { result ≡ if_digits (list_all is_ascii_digit text.now) (number text.now) }
    ensures small { IfSome result (λ n. n < 10 ^ length text.now) }
{
    let mut value = 0u64;
    for c in text {
        if !c.is_ascii_digit() {
            return None;
        }
        value = 10 * value + (*c - b'0') as u64;
    }
    Some(value)
}

/// The number that the first digits after a point write, with zeros if there are fewer; `None` if not all bytes there are digits.
fn fraction(text: &[u8], count: u8) -> Option<u64>
    requires few { count ≤ 9 }
    ensures value { result ≡ if_digits (list_all is_ascii_digit text.now) (number (first_digits count text.now)) }
    ensures small { IfSome result (λ n. n < 10 ^ count) }
{
    let used = text.len().min(count as usize);
    let (first, rest) = text.split_at(used);
    match number_of(first) {
        Some(value) if are_digits(rest) => Some(value * power_of_ten(count - used as u8)),
        _ => None,
    }
}

pub(crate) fn power_of_ten(exponent: u8) -> u64
    requires { exponent ≤ 9 }
    ensures { result ≡ 10 ^ exponent }
{
    match exponent {
        0 => 1,
        1 => 10,
        2 => 100,
        3 => 1_000,
        4 => 10_000,
        5 => 100_000,
        6 => 1_000_000,
        7 => 10_000_000,
        8 => 100_000_000,
        _ => 1_000_000_000,
    }
}

impl Numeral {
    /// There is a digit before the point or after it.
    pub fn has_digits(self) -> bool
        ensures { result ≡ has_digits self }
    {
        self.before > 0 || self.behind.unwrap_or(0) > 0
    }

    /// This number of digits before the point, and a digit after it if there is a point.
    pub fn has_whole(self, count: usize) -> bool
        ensures { result ≡ has_whole count self }
    {
        self.before == count && self.behind.unwrap_or(1) > 0
    }

    /// This number of digits, and no point.
    pub fn is_whole(self, count: usize) -> bool
        ensures { result ≡ is_whole count self }
    {
        self.before == count && self.behind.is_none()
    }
}
