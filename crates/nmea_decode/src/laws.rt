//! The law of fields, as the contract of a function that does nothing.

ghost use Rattle.std.specs.Prelude.{◌≡◌, ◌<◌, ◌++◌, ℕ, false, List, [], drop};
ghost use Rattle.std.specs.List.{list_any};
ghost use Rattle.nmea_decode.specs.Fields.{address_of, field_at, field_count, fields_of, has_comma, joined, list_of_fields, skipped};

/// A body is its address and then its fields, a comma before each. None of them holds a comma, and no others that hold none are joined to
/// the same body. To skip leaves the fields after the first n, and a field beyond the last is empty.
pub fn bodies_are_split_at_commas()
    ensures joined { (body : List ℕ) → body ≡ address_of body ++ joined (list_of_fields (fields_of body)) }
    ensures address { (body : List ℕ) → has_comma (address_of body) ≡ false }
    ensures fields { (body : List ℕ) → list_any has_comma (list_of_fields (fields_of body)) ≡ false }
    ensures only { (address : List ℕ) (fields : List (List ℕ)) → has_comma address ≡ false → list_any has_comma fields ≡ false
        → (address_of (address ++ joined fields) ≡ address) × (list_of_fields (fields_of (address ++ joined fields)) ≡ fields) }
    ensures behind { (body : List ℕ) (k : ℕ) → list_of_fields (skipped k (fields_of body)) ≡ drop k (list_of_fields (fields_of body)) }
    ensures missing { (body : List ℕ) (k : ℕ) → field_count (fields_of body) < k → field_at k (fields_of body) ≡ [] }
{}
