ghost use Rattle.std.specs.Prelude.{◌≡◌, ◌≤◌, ◌++◌, OnOk, IfOk, pos, ◌≤ℤ◌, unsigned_abs};
ghost use Rattle.gps_fixed.specs.Civil.{civil, civil_of};
ghost use Rattle.gps_fixed.specs.Text.{iso_of};

use crate::text::digit;
use crate::{Bytes, NoMemory, Stamp};
use jiff_core::civil::Date;
use std::alloc::Global;

const SECONDS_OF_DAY: u64 = 86_400;

/// Adds a stamp as `YYYY-MM-DDTHH:MM:SS.mmmZ`, further digits dropped.
pub fn push_iso(out: &mut Bytes, at: Stamp) -> Result<(), NoMemory>
    ensures { OnOk result (out.new ≡ out.old ++ iso_of at) }
{
    let text = iso_bytes(at);
    out.extend_from_slice(&text)
}

/// The text of [`push_iso`].
pub fn iso_text(alloc: Global, at: Stamp) -> Result<Bytes, NoMemory>
    ensures { IfOk result (λ text. text ≡ iso_of at) }
{
    let text = iso_bytes(at);
    Bytes::from_slice(alloc, &text)
}

#[tactic(auto, unfolding(crate::specs::Text::iso_of))]
pub(crate) fn iso_bytes(at: Stamp) -> [u8; 24]
    ensures { result ≡ iso_of at }
{
    let second = at.sec as u64;
    let date = civil_of((second / SECONDS_OF_DAY) as u32);
    let year = date.year as u32;
    let month = date.month as u32;
    let day = date.day as u32;
    let clock = (second % SECONDS_OF_DAY) as u32;
    let hour = clock / 3_600;
    let minute = clock / 60 % 60;
    let last = clock % 60;
    let milli = at.nsec / 1_000_000;
    [
        digit(year / 1_000),
        digit(year / 100),
        digit(year / 10),
        digit(year),
        b'-',
        digit(month / 10),
        digit(month),
        b'-',
        digit(day / 10),
        digit(day),
        b'T',
        digit(hour / 10),
        digit(hour),
        b':',
        digit(minute / 10),
        digit(minute),
        b':',
        digit(last / 10),
        digit(last),
        b'.',
        digit(milli / 100),
        digit(milli / 10),
        digit(milli),
        b'Z',
    ]
}

/// The date of a day number up to 2286-11-20.
#[tactic(auto, using(crate::proofs::CivilLaws::date_counted))]
fn civil_of(day: u32) -> Date
    requires { day ≤ 115_740 }
    ensures date { civil_of day ≡ civil (unsigned_abs result.year) result.month result.day }
    ensures from { pos 0 ≤ℤ result.year }
{
    Date::from_unix_epoch_day(day as i64).unwrap()
}
