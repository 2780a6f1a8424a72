//! Laws of the shapes, as contracts of functions that do nothing.

ghost use Rattle.std.specs.Prelude.{◌≡◌, ◌≤◌, ◌<◌, ℕ, List, ◌++◌, length};
ghost use Rattle.nmea_frame.specs.Sentence.{Parts, AreParts, spelling, body_of};
ghost use Rattle.nmea_frame.specs.Scan.{shape_of};

use crate::sentence::Shape;

/// A sentence stays one under more bytes, and a head that is none stays none. A sentence is within the
/// list and has 6 to 128 bytes, and a list that is pending has fewer than 128.
pub fn shapes_are_stable()
    ensures whole_stays { (bytes more : List ℕ) (n : ℕ) → shape_of bytes ≡ Shape.Whole n → shape_of (bytes ++ more) ≡ Shape.Whole n }
    ensures no_stays { (bytes more : List ℕ) → shape_of bytes ≡ Shape.No → shape_of (bytes ++ more) ≡ Shape.No }
    ensures whole_least { (bytes : List ℕ) (n : ℕ) → shape_of bytes ≡ Shape.Whole n → (6 ≤ n) × (n ≤ length bytes) }
    ensures whole_short { (bytes : List ℕ) (n : ℕ) → shape_of bytes ≡ Shape.Whole n → n ≤ 128 }
    ensures pending_short { (bytes : List ℕ) → shape_of bytes ≡ Shape.Pending → length bytes < 128 }
{}

/// The body of a sentence is what is between its `$` and its first `*`.
pub fn body_is_read()
    ensures { (p : Parts) → AreParts p → body_of (spelling p) ≡ p.body }
{}
