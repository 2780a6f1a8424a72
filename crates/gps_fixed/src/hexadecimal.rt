ghost use Rattle.std.specs.Prelude.{◌≡◌, ◌<◌};
ghost use Rattle.gps_fixed.specs.Hexadecimal.{lower_digit, upper_digit};

/// A hexadecimal digit in lower case.
pub fn lower_hex_digit(n: u8) -> u8
    requires { n < 16 }
    ensures { result ≡ lower_digit n }
{
    if n < 10 { b'0' + n } else { b'a' + (n - 10) }
}

/// A hexadecimal digit in upper case.
pub fn upper_hex_digit(n: u8) -> u8
    requires { n < 16 }
    ensures { result ≡ upper_digit n }
{
    if n < 10 { b'0' + n } else { b'A' + (n - 10) }
}
