//! Laws of the shapes, as contracts of functions that do nothing.

ghost use Rattle.std.specs.Prelude.{◌≡◌, ℕ, ◌<◌, ◌≤◌, List, ◌++◌, length};
ghost use Rattle.ubx_frame.specs.Frame.{Parts, spelling, class_of, id_of, payload_of};
ghost use Rattle.ubx_frame.specs.Scan.{shape_of};

use crate::Shape;

/// A frame stays one under more bytes, and what is none stays none. A frame has at least 8 bytes and is within the
/// list, and what is pending is shorter than the longest frame.
pub fn shapes_are_stable()
    ensures whole_stays { (bytes more : List ℕ) (n : ℕ) → shape_of bytes ≡ Shape.Whole n → shape_of (bytes ++ more) ≡ Shape.Whole n }
    ensures no_stays { (bytes more : List ℕ) → shape_of bytes ≡ Shape.No → shape_of (bytes ++ more) ≡ Shape.No }
    ensures whole_least { (bytes : List ℕ) (n : ℕ) → shape_of bytes ≡ Shape.Whole n → (8 ≤ n) × (n ≤ length bytes) }
    ensures pending_short { (bytes : List ℕ) → shape_of bytes ≡ Shape.Pending → length bytes < 2056 }
{}

/// A frame's class, id and payload are where they are read.
pub fn parts_are_read()
    ensures class { (p : Parts) → class_of (spelling p) ≡ p.class }
    ensures id { (p : Parts) → id_of (spelling p) ≡ p.id }
    ensures payload { (p : Parts) → payload_of (spelling p) ≡ p.payload }
{}
