//! The sums of a part of a list of bytes that moves over the list, as a search for frames does: a sliding window.
//!
//! What two such parts have in common is not added up again. Two running sums follow the two ends of the part, and the part's own sums come
//! from their difference.

ghost use Rattle.std.specs.Prelude.{◌≡◌, ◌-◌, ◌≤◌, ◌<◌, length, take, drop};
ghost use Rattle.ubx_frame.specs.Checksum.{sums_of};
ghost use Rattle.ubx_frame.specs.Window.{IsWindow};

use crate::checksum::{Sums, sums_after, sums_since};

/// A part of a list of bytes, with running sums at both of its ends. They may have begun anywhere: only how they differ counts.
#[derive(Clone, Copy)]
pub(crate) struct Window {
    /// The place of its first byte.
    pub(crate) from: usize,
    /// The place behind its last byte.
    pub(crate) to: usize,
    /// The running sums before its first byte.
    pub(crate) before: Sums,
    /// The same with all its bytes added.
    pub(crate) after: Sums,
}

/// No sums at all.
const NO_SUMS: Sums = Sums { a: 0, b: 0 };

/// The empty part at a place.
pub(crate) fn window_at(bytes: &[u8], place: usize) -> Window
    requires { place ≤ length bytes.now }
    ensures window { IsWindow result bytes.now }
    ensures from { result.from ≡ place }
    ensures to { result.to ≡ place }
{
    Window {
        from: place,
        to: place,
        before: NO_SUMS,
        after: NO_SUMS,
    }
}

/// The part from one place up to another.
pub(crate) fn moved(window: Window, bytes: &[u8], from: usize, to: usize) -> Window
    requires window { IsWindow window bytes.now }
    requires order { from ≤ to }
    requires inside { to ≤ length bytes.now }
    ensures window { IsWindow result bytes.now }
    ensures from { result.from ≡ from }
    ensures to { result.to ≡ to }
{
    if from < window.from || window.to <= from {
        up_to(window_at(bytes, from), bytes, to)
    } else {
        up_to(onward(window, bytes, from), bytes, to)
    }
}

/// The same part from a later place on.
fn onward(window: Window, bytes: &[u8], from: usize) -> Window
    requires window { IsWindow window bytes.now }
    requires order { window.from ≤ from }
    requires within { from ≤ window.to }
    ensures window { IsWindow result bytes.now }
    ensures from { result.from ≡ from }
{
    Window {
        from,
        to: window.to,
        before: sums_after(window.before, &bytes[window.from..from]),
        after: window.after,
    }
}

/// The part from the same place up to another.
fn up_to(window: Window, bytes: &[u8], to: usize) -> Window
    requires window { IsWindow window bytes.now }
    requires order { window.from ≤ to }
    requires inside { to ≤ length bytes.now }
    ensures window { IsWindow result bytes.now }
    ensures from { result.from ≡ window.from }
    ensures to { result.to ≡ to }
{
    let Window { from, before, .. } = window;
    let after = if to < window.to {
        sums_after(before, &bytes[from..to])
    } else {
        sums_after(window.after, &bytes[window.to..to])
    };
    Window {
        from,
        to,
        before,
        after,
    }
}

/// The sums of its bytes.
pub(crate) fn sums_within(window: &Window, bytes: &[u8]) -> Sums
    requires { IsWindow window.now bytes.now }
    ensures { result ≡ sums_of (take (window.now.to - window.now.from) (drop window.now.from bytes.now)) }
{
    sums_since(window.before, window.after, window.to - window.from)
}
