//! The two sums that end a frame.
//!
//! A list may begin like a long frame at each of its bytes, so the sums are made quickly: the bytes are taken as rows of sixteen, whose
//! columns are added side by side. A byte counts in the second sum once for each byte from it to the end, so sixteen times for each row
//! after its own, and in its own row by its place.

ghost use Rattle.std.specs.Prelude.{◌≡◌, ℕ, List, ◌+◌, ◌*◌, ◌%◌, ◌≤◌, drop, fold, length, take};
ghost use Rattle.std.specs.Simd.Lanes.{sum_l, zip2};
ghost use Rattle.ubx_frame.specs.Checksum.{after_byte, sums_of, weighted};
ghost use Rattle.ubx_frame.specs.Scan.{is_right};

use std::simd::prelude::*;

/// The two sums of a frame, each modulo 256.
#[derive(Clone, Copy, PartialEq, Eq)]
pub struct Sums {
    /// The sum of the bytes.
    pub a: u8,
    /// The sum of the first sums after each byte.
    pub b: u8,
}

/// How many bytes are added at once.
const LANES: usize = 16;

/// How often each byte of a row counts in the second sum at the end of that row.
const WEIGHTS: [u8; LANES] = [16, 15, 14, 13, 12, 11, 10, 9, 8, 7, 6, 5, 4, 3, 2, 1];

/// How many rows are added in one round, while that number is left.
const ROWS: usize = 4;

/// One more row: its bytes go to the columns, and what the columns were before it to their sums after each row.
#[inline(always)]
fn add_row(columns: &mut u8x16, earlier: &mut u8x16, covered: &[u8], at: usize)
    requires { at + 16 ≤ length covered.now }
    ensures columns { columns.new ≡ zip2 (λ a b. (a + b) % 256) columns.old (take 16 (drop at covered.now)) }
    ensures earlier { earlier.new ≡ zip2 (λ a b. (a + b) % 256) earlier.old columns.old }
{
    *earlier += *columns;
    *columns += u8x16::from_slice(&covered[at..]);
}

/// The sums of the bytes that a frame's checksum covers.
fn sum_up(covered: &[u8]) -> Sums
    ensures { result ≡ sums_of covered.now }
{
    let mut columns = u8x16::splat(0);
    let mut earlier = u8x16::splat(0);
    let mut at = 0;
    'rounds: while covered.len() - at >= ROWS * LANES {
        add_row(&mut columns, &mut earlier, covered, at);
        add_row(&mut columns, &mut earlier, covered, at + LANES);
        add_row(&mut columns, &mut earlier, covered, at + 2 * LANES);
        add_row(&mut columns, &mut earlier, covered, at + 3 * LANES);
        at += ROWS * LANES;
    }
    'rows: while covered.len() - at >= LANES {
        add_row(&mut columns, &mut earlier, covered, at);
        at += LANES;
    }
    add_each(join(columns, earlier), &covered[at..])
}

/// The sums of rows, from the sums of their columns and of those after each row but the last.
fn join(columns: u8x16, earlier: u8x16) -> Sums
    ensures a { result.a ≡ sum_l columns % 256 }
    ensures b { result.b ≡ (16 * sum_l earlier + weighted columns) % 256 }
{
    let counted = columns * u8x16::from_array(WEIGHTS);
    Sums {
        a: columns.reduce_sum(),
        b: earlier
            .reduce_sum()
            .wrapping_mul(16)
            .wrapping_add(counted.reduce_sum()),
    }
}

/// The sums after further bytes, one by one.
fn add_each(sums: Sums, bytes: &[u8]) -> Sums
    ensures { result ≡ fold after_byte sums bytes.now }
{
    bytes.iter().fold(sums, |sums, byte| {
        let a = sums.a.wrapping_add(*byte);
        Sums {
            a,
            b: sums.b.wrapping_add(a),
        }
    })
}

/// The sums after further bytes.
pub(crate) fn sums_after(sums: Sums, more: &[u8]) -> Sums
    ensures { result ≡ fold after_byte sums more.now }
{
    if more.len() < LANES {
        return add_each(sums, more);
    }
    let own = sum_up(more);
    Sums {
        a: sums.a.wrapping_add(own.a),
        b: sums
            .b
            .wrapping_add(times(more.len(), sums.a))
            .wrapping_add(own.b),
    }
}

/// The sums of the last bytes, this number of them, from the sums before them and those after them.
pub(crate) fn sums_since(before: Sums, after: Sums, count: usize) -> Sums
    ensures { (more : List ℕ) → length more ≡ count → after ≡ fold after_byte before more → result ≡ sums_of more }
{
    Sums {
        a: after.a.wrapping_sub(before.a),
        b: after
            .b
            .wrapping_sub(before.b)
            .wrapping_sub(times(count, before.a)),
    }
}

/// A product modulo 256.
fn times(count: usize, byte: u8) -> u8
    ensures { result ≡ count * byte % 256 }
{
    ((count % 256) as u8).wrapping_mul(byte)
}

/// Whether the bytes after a frame's payload begin with the sums of what they cover.
pub(crate) fn is_right(covered: &[u8], behind: &[u8]) -> bool
    ensures { result ≡ is_right covered.now behind.now }
{
    are_at(sum_up(covered), behind)
}

/// Whether a list begins with these sums.
#[tactic(auto, unfolding(crate::specs::Scan::is_right))]
pub(crate) fn are_at(sums: Sums, behind: &[u8]) -> bool
    ensures { (covered : List ℕ) → sums ≡ sums_of covered → result ≡ is_right covered behind.now }
{
    match behind {
        [ck_a, ck_b, ..] => sums.a == *ck_a && sums.b == *ck_b,
        _ => false,
    }
}
