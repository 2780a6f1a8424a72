ghost use Rattle.std.specs.Prelude.{◌≡◌, ◌+◌, ◌%◌, ◌≤◌, ◌++◌, OnOk, IfOk};
ghost use Rattle.std.specs.Fmt.{decimal};
ghost use Rattle.gps_fixed.specs.Text.{digits_in, unsigned_text, scaled_text};

use crate::numeral::power_of_ten;
use crate::{Bytes, NoMemory};
use itoa::Buffer;
use std::alloc::Global;

/// Adds a whole number, in decimal digits without leading zeros.
#[inline(always)]
#[tactic(auto, using(crate::proofs::TextLaws::decimal_one, crate::proofs::TextLaws::decimal_two, crate::proofs::TextLaws::decimal_three))]
pub fn push_decimal(out: &mut Bytes, n: u64) -> Result<(), NoMemory>
    ensures { OnOk result (out.new ≡ out.old ++ decimal n) }
{
    match n {
        0..=9 => out.push(digit(n as u32)),
        10..=99 => out.extend_from_slice(&[digit(n as u32 / 10), digit(n as u32)]),
        100..=999 => out.extend_from_slice(&[
            digit(n as u32 / 100),
            digit(n as u32 / 10),
            digit(n as u32),
        ]),
        _ => push_long(out, n),
    }
}

#[inline(never)]
fn push_long(out: &mut Bytes, n: u64) -> Result<(), NoMemory>
    ensures { OnOk result (out.new ≡ out.old ++ decimal n) }
{
    let mut digits = Buffer::new();
    out.extend_from_slice(digits.format(n).as_bytes())
}

/// Adds the last `count` digits of a number, at most nine, with zeros in front if it has fewer.
pub fn push_digits(out: &mut Bytes, n: u32, count: u8) -> Result<(), NoMemory>
    requires { count ≤ 9 }
    ensures { OnOk result (out.new ≡ out.old ++ digits_in count n) }
{
    match count {
        2 => out.extend_from_slice(&two_digits(n)),
        3 => out.extend_from_slice(&three_digits(n)),
        _ => push_some_of_nine(out, n, count),
    }
}

#[tactic(auto, using(crate::proofs::TextLaws::last_digits))]
fn push_some_of_nine(out: &mut Bytes, n: u32, count: u8) -> Result<(), NoMemory>
    requires { count ≤ 9 }
    ensures { OnOk result (out.new ≡ out.old ++ digits_in count n) }
{
    let nine = nine_digits(n);
    out.extend_from_slice(&nine[9 - count as usize..])
}

/// Adds `value / 10^decimals` with exactly `decimals` decimals, 1 to 9: `-` only for a value below zero, no leading zeros.
pub fn push_scaled(out: &mut Bytes, value: i64, decimals: u8) -> Result<(), NoMemory>
    requires from { 1 ≤ decimals }
    requires to { decimals ≤ 9 }
    ensures { OnOk result (out.new ≡ out.old ++ scaled_text decimals value) }
{
    if value < 0 {
        out.push(b'-')?;
    }
    push_unsigned(out, value.unsigned_abs(), decimals)
}

#[tactic(auto, using(crate::proofs::TextLaws::unit_some, crate::proofs::TextLaws::rest_small))]
fn push_unsigned(out: &mut Bytes, magnitude: u64, decimals: u8) -> Result<(), NoMemory>
    requires { decimals ≤ 9 }
    ensures { OnOk result (out.new ≡ out.old ++ unsigned_text decimals magnitude) }
{
    let unit = power_of_ten(decimals);
    push_decimal(out, magnitude / unit)?;
    out.push(b'.')?;
    push_digits(out, (magnitude % unit) as u32, decimals)
}

/// The text of [`push_scaled`].
pub fn write_scaled(alloc: Global, value: i64, decimals: u8) -> Result<Bytes, NoMemory>
    requires from { 1 ≤ decimals }
    requires to { decimals ≤ 9 }
    ensures { IfOk result (λ text. text ≡ scaled_text decimals value) }
{
    let mut out = Bytes::new(alloc);
    out.reserve(24)?;
    push_scaled(&mut out, value, decimals)?;
    Ok(out)
}

/// The last digit of a number.
pub(crate) fn digit(n: u32) -> u8
    ensures { result ≡ 48 + n % 10 }
{
    b'0' + (n % 10) as u8
}

fn two_digits(n: u32) -> [u8; 2]
    ensures { result ≡ digits_in 2 n }
{
    [digit(n / 10), digit(n)]
}

fn three_digits(n: u32) -> [u8; 3]
    ensures { result ≡ digits_in 3 n }
{
    [digit(n / 100), digit(n / 10), digit(n)]
}

fn nine_digits(n: u32) -> [u8; 9]
    ensures { result ≡ digits_in 9 n }
{
    [
        digit(n / 100_000_000),
        digit(n / 10_000_000),
        digit(n / 1_000_000),
        digit(n / 100_000),
        digit(n / 10_000),
        digit(n / 1_000),
        digit(n / 100),
        digit(n / 10),
        digit(n),
    ]
}
