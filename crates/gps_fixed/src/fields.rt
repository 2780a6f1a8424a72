ghost use Rattle.std.specs.Prelude.{◌≡◌, ◌+◌, ◌≤◌, length};
ghost use Rattle.gps_fixed.specs.Fields.{u2_at, u4_at, i4_at};

/// The two bytes from `at` on, the least first (U2).
pub fn le_u16(bytes: &[u8], at: usize) -> u16
    requires { at + 2 ≤ length bytes.now }
    ensures { result ≡ u2_at bytes.now at }
{
    bytes[at] as u16 + 256 * bytes[at + 1] as u16
}

/// The four bytes from `at` on, the least first (U4).
pub fn le_u32(bytes: &[u8], at: usize) -> u32
    requires { at + 4 ≤ length bytes.now }
    ensures { result ≡ u4_at bytes.now at }
{
    bytes[at] as u32
        + 256 * bytes[at + 1] as u32
        + 65_536 * bytes[at + 2] as u32
        + 16_777_216 * bytes[at + 3] as u32
}

/// The four bytes from `at` on, the least first, as a number with a sign (I4, two's complement).
pub fn le_i32(bytes: &[u8], at: usize) -> i32
    requires { at + 4 ≤ length bytes.now }
    ensures { result ≡ i4_at bytes.now at }
{
    le_u32(bytes, at).cast_signed()
}
