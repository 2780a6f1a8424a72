//! Single readings of a payload's fields.

ghost use Rattle.std.specs.Prelude.{◌≡◌, ◌<◌, ◌≤◌, ◌^◌};
ghost use Rattle.ubx_decode.specs.Fields.{is_set, plus};

/// Whether a bit is set, counted from the least.
pub(crate) fn is_set(byte: u8, place: u32) -> bool
    requires { place < 8 }
    ensures { result ≡ is_set byte place }
{
    byte >> place & 1 == 1
}

/// A number and one that may be below zero; at least 0.
pub(crate) fn plus(number: u64, more: i32) -> u64
    requires { number ≤ 2 ^ 62 }
    ensures { result ≡ plus number more }
{
    let size = u64::from(more.unsigned_abs());
    if more < 0 {
        number.saturating_sub(size)
    } else {
        number + size
    }
}
