ghost use Rattle.std.specs.Prelude.{◌≡◌, ℕ, ◌≤◌, ◌↔◌, length, take};
ghost use Rattle.ubx_frame.specs.Frame.{IsFrame, IsProperPrefix};
ghost use Rattle.ubx_frame.specs.Scan.{shape_of, shape_behind_sync, shape_of_length};

use crate::checksum::is_right;

/// The most bytes of a payload.
pub(crate) const LONGEST_PAYLOAD: usize = 2048;

/// What a list of bytes begins with.
#[derive(Clone, Copy, Debug, PartialEq, Eq)]
pub enum Shape {
    /// The first bytes, this number of them, are a frame with the right checksum.
    Whole(usize),
    /// The whole list is the beginning of a frame, as far as can be seen.
    Pending,
    /// No frame begins the list, whatever follows it.
    No,
}

/// Whether the list begins with a frame, may still become one, or neither. Takes no memory.
pub fn frame_at(bytes: &[u8]) -> Shape
    ensures shape { result ≡ shape_of bytes.now }
    ensures whole { (n : ℕ) → (result ≡ Shape.Whole n) ↔ ((n ≤ length bytes.now) × IsFrame (take n bytes.now)) }
    ensures pending { (result ≡ Shape.Pending) ↔ IsProperPrefix bytes.now }
{
    shape_at(bytes)
}

/// The same, by its bytes from the first on.
#[tactic(auto, unfolding(crate::specs::Scan::shape_of, crate::specs::Scan::shape_behind_first))]
fn shape_at(bytes: &[u8]) -> Shape
    ensures { result ≡ shape_of bytes.now }
{
    match bytes {
        [0xB5, 0x62, rest @ ..] => shape_behind_sync(rest),
        [] | [0xB5] => Shape::Pending,
        _ => Shape::No,
    }
}

/// The same for what follows the two sync characters.
#[tactic(auto, unfolding(crate::specs::Scan::shape_behind_sync))]
fn shape_behind_sync(rest: &[u8]) -> Shape
    ensures { result ≡ shape_behind_sync rest.now }
{
    match rest {
        [_, _, low, high, ..] => shape_of_length(
            usize::from(*low) + 256 * usize::from(*high),
            rest,
        ),
        _ => Shape::Pending,
    }
}

/// The same for a payload of the given length.
#[tactic(auto, unfolding(crate::specs::Scan::shape_of_length))]
fn shape_of_length(len: usize, rest: &[u8]) -> Shape
    requires { len ≤ 65535 }
    ensures { result ≡ shape_of_length len rest.now }
{
    if len > LONGEST_PAYLOAD {
        Shape::No
    } else if rest.len() < len + 6 {
        Shape::Pending
    } else if is_right(&rest[..len + 4], &rest[len + 4..]) {
        Shape::Whole(len + 8)
    } else {
        Shape::No
    }
}
