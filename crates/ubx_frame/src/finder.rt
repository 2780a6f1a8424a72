//! The frames of one list of bytes, at any of its places.
//!
//! A list may begin like a long frame at each of its bytes, and most of these heads may be false. Their bytes are mostly the same, so the
//! sums of one head are made from those of the head before.

ghost use Rattle.std.specs.Prelude.{◌≡◌, ◌+◌, ◌-◌, ◌≤◌, List, IfSome, length, take, drop};
ghost use Rattle.ubx_frame.specs.Scan.{is_right, shape_of};
ghost use Rattle.ubx_frame.specs.Window.{IsDecided};

use crate::checksum::are_at;
use crate::frame::{LONGEST_PAYLOAD, Shape, frame_at};
use crate::window::{Window, moved, sums_within, window_at};
use std::marker::Model;

/// Tells what a list of bytes begins with at any of its places, as `frame_at` does, and quickly even if the list is full of false heads.
#[derive(Drop)]
pub struct FrameFinder<'a> {
    bytes: &'a [u8],
    window: Window,
}

impl<'a> Model for FrameFinder<'a> {
    ghost use Rattle.std.specs.Prelude.{ℕ, List};
    ghost use Rattle.ubx_frame.specs.Window.{IsWindow};

    ghost Value = { List ℕ };

    ghost view = { λ f. f.bytes.now };

    ghost invariant = { λ f. IsWindow f.window f.bytes.now };
}

impl<'a> FrameFinder<'a> {
    /// Takes no memory.
    pub fn new(bytes: &'a [u8]) -> FrameFinder<'a>
        ensures { result ≡ bytes.now }
    {
        FrameFinder {
            bytes,
            window: window_at(bytes, 0),
        }
    }

    /// Whether a frame begins at a place, may still become one there, or neither.
    pub fn at(&mut self, place: usize) -> Shape
        requires { place ≤ length self.old }
        ensures shape { result ≡ shape_of (drop place self.old) }
        ensures same { self.new ≡ self.old }
    {
        let rest = &self.bytes[place..];
        match decided_length(rest) {
            None => frame_at(rest),
            Some(len) if self.is_right(place + 2, place + len + 6) => Shape::Whole(len + 8),
            Some(_) => Shape::No,
        }
    }

    /// Whether the bytes from one place up to another are followed by their sums.
    fn is_right(&mut self, from: usize, to: usize) -> bool
        requires order { from ≤ to }
        requires inside { to ≤ length self.old }
        ensures right { result ≡ is_right (take (to - from) (drop from self.old)) (drop to self.old) }
        ensures same { self.new ≡ self.old }
    {
        self.window = moved(self.window, self.bytes, from, to);
        are_at(sums_within(&self.window, self.bytes), &self.bytes[to..])
    }
}

/// The length of the payload, if the list begins like a frame and has all the bytes of one.
fn decided_length(bytes: &[u8]) -> Option<usize>
    ensures { IfSome result (λ len. IsDecided len bytes.now) }
{
    match bytes {
        [first, second, _, _, low, high, ..] if *first == 0xB5 && *second == 0x62 => {
            let len = usize::from(*low) + 256 * usize::from(*high);
            if len <= LONGEST_PAYLOAD && len + 8 <= bytes.len() {
                Some(len)
            } else {
                None
            }
        }
        _ => None,
    }
}
