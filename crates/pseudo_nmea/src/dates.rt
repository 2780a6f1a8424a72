ghost use Rattle.std.specs.Prelude.{◌≡◌, ◌≤◌, ◌≤ℤ◌, pos, unsigned_abs};
ghost use Rattle.gps_fixed.specs.Civil.{civil, civil_of};

use jiff_core::civil::Date;

/// The civil date of a day counted from 1970-01-01, up to 2286-11-20.
#[tactic(auto, using(crate::proofs::Counted::date_counted))]
pub(crate) fn civil_of(day: u32) -> Date
    requires { day ≤ 115_740 }
    ensures date { civil_of day ≡ civil (unsigned_abs result.year) result.month result.day }
    ensures from { pos 0 ≤ℤ result.year }
{
    Date::from_unix_epoch_day(day as i64).unwrap()
}
