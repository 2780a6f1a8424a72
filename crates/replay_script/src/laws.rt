//! A law of the parts of a line, as the contract of a function that does nothing.

ghost use Rattle.std.specs.Prelude.{◌≡◌, ◌↔◌, ℕ, List, ◌∷◌, ◌++◌, Some};
ghost use Rattle.replay_script.specs.Words.{halves, HasNone};

/// The two halves of a text are exactly the two texts between which the byte is, the first being without it.
pub fn halves_are_joined_by_the_mark()
    ensures { (mark : ℕ) (text word rest : List ℕ) → (halves mark text ≡ Some (word, rest)) ↔ ((text ≡ word ++ mark ∷ rest) × HasNone mark word) }
{}
