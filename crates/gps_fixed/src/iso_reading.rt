ghost use Rattle.std.specs.Prelude.{◌≡◌, ◌↔◌, ℕ, ◌+◌, ◌*◌, ◌%◌, ◌^◌, ◌≤◌, ◌<◌, length, pos, Some, None, IfSome, IsTrue};
ghost use Rattle.gps_fixed.specs.Moment.{Moment, IsMoment};
ghost use Rattle.gps_fixed.specs.Civil.{civil, civil_of};
ghost use Rattle.gps_fixed.specs.Text.{iso_of};
ghost use Rattle.gps_fixed.specs.Iso.{IsIsoOf, IsWhole, in_milliseconds, two_at};

use crate::Stamp;
use crate::iso::iso_bytes;
use jiff::civil::Date;

/// The stamp in whole milliseconds whose [`crate::iso_text`] this is.
///
/// `None` comes exactly if the text is the `iso_text` of no stamp. Takes no memory.
#[tactic(auto, using(crate::proofs::IsoLaws::exact, crate::proofs::IsoLaws::none))]
pub fn stamp_of_iso(text: &[u8]) -> Option<Stamp>
    ensures exact { (at : Moment) → (result ≡ Some at) ↔ IsIsoOf at text.now }
    ensures none { (result ≡ None) ↔ ((at : Moment) → IsMoment at.sec at.nsec → ¬ (text.now ≡ iso_of at)) }
{
    let stamp = written_so(text);
    stamp
}

fn written_so(text: &[u8]) -> Option<Stamp>
    ensures so { IfSome result (λ at. IsIsoOf at text.now) }
    ensures found { (at : Moment) → IsMoment at.sec at.nsec → text.now ≡ iso_of at → result ≡ Some (in_milliseconds at) }
{
    match stamp_in(text) {
        Some(at) if is_text_of(at, text) => Some(at),
        _ => None,
    }
}

fn is_text_of(at: Stamp, text: &[u8]) -> bool
    ensures { IsTrue result ↔ (text.now ≡ iso_of at) }
{
    iso_bytes(at).as_slice() == text
}

/// The stamp that an ISO text says. Any other text may say some stamp too.
fn stamp_in(text: &[u8]) -> Option<Stamp>
    ensures whole { IfSome result IsWhole }
    ensures found { (at : Moment) → IsMoment at.sec at.nsec → text.now ≡ iso_of at → result ≡ Some (in_milliseconds at) }
{
    if text.len() != 24 {
        return None;
    }
    let year = 100 * two_at(text, 0) + two_at(text, 2);
    match number_of_day(year, two_at(text, 5), two_at(text, 8)) {
        Some(day) => {
            let clock = 3_600 * two_at(text, 11) + 60 * two_at(text, 14) + two_at(text, 17);
            let milli = 10 * two_at(text, 20) + low(text[22]);
            stamp_of(day, clock, milli)
        }
        None => None,
    }
}

/// The number of a day, counted from 1970-01-01, if a stamp may lie in it.
fn number_of_day(year: u32, month: u32, day: u32) -> Option<u32>
    ensures few { IfSome result (λ n. n ≤ 115_740) }
    ensures found { (n : ℕ) → n ≤ 115_740 → civil_of n ≡ civil year month day → result ≡ Some n }
{
    if year > 2286 || month > 12 || day > 31 {
        return None;
    }
    match Date::new(year as i16, month as i8, day as i8) {
        Ok(date) => day_of_stamps(date.to_plain().to_unix_epoch_day()),
        Err(_) => None,
    }
}

fn day_of_stamps(number: i32) -> Option<u32>
    ensures few { IfSome result (λ n. n ≤ 115_740) }
    ensures found { (n : ℕ) → n ≤ 115_740 → number ≡ pos n → result ≡ Some n }
{
    if 0 <= number && number <= 115_740 {
        Some(number as u32)
    } else {
        None
    }
}

/// The stamp of a day, a second of it and a millisecond of the second.
fn stamp_of(day: u32, clock: u32, milli: u32) -> Option<Stamp>
    requires day { day ≤ 115_740 }
    requires clock { clock ≤ 1_000_000 }
    ensures whole { IfSome result IsWhole }
    ensures found { 86_400 * day + clock ≤ 9_999_999_999 → milli < 1_000 → result ≡ Some (record { sec = pos (86_400 * day + clock); nsec = 10 ^ 6 * milli }) }
{
    let sec = 86_400 * day as i64 + clock as i64;
    if sec <= 9_999_999_999 && milli < 1_000 {
        Some(Stamp {
            sec,
            nsec: 1_000_000 * milli,
        })
    } else {
        None
    }
}

/// The number that two digits write.
fn two_at(text: &[u8], at: usize) -> u32
    requires { at + 2 ≤ length text.now }
    ensures value { result ≡ two_at at text.now }
    ensures small { result ≤ 165 }
{
    10 * low(text[at]) + low(text[at + 1])
}

/// The lower half of a byte, which is the value of a digit.
fn low(digit: u8) -> u32
    ensures { result ≡ digit % 16 }
{
    (digit % 16) as u32
}
