ghost use Rattle.std.specs.Prelude.{◌≡◌, ◌^◌, pos, neg_ℤ, ◌<ℤ◌, ◌≤ℤ◌};
ghost use Rattle.gps_fixed.specs.Ratio.{nearest};

/// `value * num / den`, rounded to the nearest whole number, halves upwards.
///
/// `den` is above zero, `value` at most 10^15 away from zero, and `num` lies in 1..=1000.
pub fn nearest_ratio(value: i64, num: i64, den: i64) -> i64
    requires den { pos 0 <ℤ den }
    requires low { neg_ℤ (pos (10 ^ 15)) ≤ℤ value }
    requires high { value ≤ℤ pos (10 ^ 15) }
    requires num_low { pos 1 ≤ℤ num }
    requires num_high { num ≤ℤ pos 1000 }
    ensures { result ≡ nearest value num den }
{
    let product = value * num;
    let quotient = product.div_euclid(den);
    let rest = product.rem_euclid(den);
    if rest < den - rest {
        quotient
    } else {
        quotient + 1
    }
}
