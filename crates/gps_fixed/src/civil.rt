ghost use Rattle.std.specs.Prelude.{◌≡◌, ◌↔◌, ℕ, ◌≤◌, Some, None, pos, ◌≤ℤ◌, unsigned_abs, IsTrue, IfSome};
ghost use Rattle.gps_fixed.specs.Civil.{day_number, IsDayOf, IsReceivable};

use jiff::civil::Date;

/// The number of a civil date, counted from 1970-01-01.
///
/// `None` comes exactly if the date is no civil date or its year is outside 1980..=2099.
pub fn day_of(year: i32, month: u8, day: u8) -> Option<i32>
    ensures value { result ≡ day_number year month day }
    ensures exact { (n : ℕ) → (result ≡ Some (pos n)) ↔ IsDayOf year month day n }
    ensures range { IfSome result (λ n. (pos 3_652 ≤ℤ n) × (n ≤ℤ pos 47_481)) }
    ensures none { (result ≡ None) ↔ ((n : ℕ) → ¬ IsDayOf year month day n) }
{
    let number = receivable_number(year, month, day);
    number
}

fn receivable_number(year: i32, month: u8, day: u8) -> Option<i32>
    ensures { result ≡ day_number year month day }
{
    if is_receivable(year, month, day) {
        number_of(year as i16, month as i8, day as i8)
    } else {
        None
    }
}

/// The year is one of 1980..=2099, and the month and the day are not too large for any date.
fn is_receivable(year: i32, month: u8, day: u8) -> bool
    ensures { IsTrue result ↔ IsReceivable year month day }
{
    1980 <= year && year <= 2099 && month <= 12 && day <= 31
}

/// The number of a civil date of the years 1980..=2099, or `None` if the calendar has no such day.
fn number_of(year: i16, month: i8, day: i8) -> Option<i32>
    requires from { pos 1980 ≤ℤ year }
    requires to { year ≤ℤ pos 2099 }
    requires month { pos 0 ≤ℤ month }
    requires day { pos 0 ≤ℤ day }
    ensures { result ≡ day_number year (unsigned_abs month) (unsigned_abs day) }
{
    match Date::new(year, month, day) {
        Ok(date) => Some(date.to_plain().to_unix_epoch_day()),
        Err(_) => None,
    }
}
