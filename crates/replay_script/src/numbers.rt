// The numbers of a linear congruential sequence.
ghost use Rattle.std.specs.Prelude.{◌≡◌, ◌+◌, ◌*◌, ◌/◌, ◌%◌, ◌^◌, ◌<◌};

/// The number that a sequence begins with.
pub(crate) fn first(seed: u32) -> u32
    ensures value { result ≡ seed % 2 ^ 31 }
    ensures small { result < 2 ^ 31 }
{
    seed % 0x8000_0000
}

/// The number after another.
pub(crate) fn next(number: u32) -> u32
    requires { number < 2 ^ 31 }
    ensures value { result ≡ (1_103_515_245 * number + 12_345) % 2 ^ 31 }
    ensures small { result < 2 ^ 31 }
{
    ((1_103_515_245 * u64::from(number) + 12_345) % 0x8000_0000) as u32
}

/// Five digits of a number, above its three lowest bits.
pub(crate) fn five_digits(number: u32) -> u32
    ensures { result ≡ number / 8 % 100_000 }
{
    number / 8 % 100_000
}
