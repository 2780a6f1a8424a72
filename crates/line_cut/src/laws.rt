//! The laws of lines, as contracts of functions that do nothing.

ghost use Rattle.std.specs.Prelude.{◌≡◌, ◌+◌, ◌++◌, true, false, List, ℕ, length};
ghost use Rattle.std.specs.List.{concat};
ghost use Rattle.line_cut.specs.declared.limit.Limit.{Limit};
ghost use Rattle.line_cut.specs.Lines.{AreLines, has_feed, lines, open_line};
ghost use Rattle.line_cut.specs.Limits.{fitting_lines, is_too_long};

/// The lines and the open line are the bytes, cut after each line feed; and no others are.
pub fn lines_are_the_split()
    ensures joined { (bytes : List ℕ) → concat (lines bytes) ++ open_line bytes ≡ bytes }
    ensures lines { (bytes : List ℕ) → AreLines (lines bytes) }
    ensures opens { (bytes : List ℕ) → has_feed (open_line bytes) ≡ false }
    ensures only { (split : List (List ℕ)) (rest : List ℕ) → AreLines split → has_feed rest ≡ false
        → (lines (concat split ++ rest) ≡ split) × (open_line (concat split ++ rest) ≡ rest) }
{}

/// More bytes remove no line: they go on from the open line.
pub fn lines_go_on()
    ensures lines { (bytes more : List ℕ) → lines (bytes ++ more) ≡ lines bytes ++ lines (open_line bytes ++ more) }
    ensures opens { (bytes more : List ℕ) → open_line (bytes ++ more) ≡ open_line (open_line bytes ++ more) }
    ensures numbers { (bytes more : List ℕ) → length (lines (bytes ++ more)) ≡ length (lines bytes) + length (lines (open_line bytes ++ more)) }
    ensures fitting { (limit : Limit) (bytes more : List ℕ)
        → fitting_lines limit (bytes ++ more) ≡ fitting_lines limit bytes ++ fitting_lines limit (open_line bytes ++ more) }
{}

/// A line that is too long stays so with more bytes.
pub fn too_long_stays()
    ensures { (limit : Limit) (line more : List ℕ) → is_too_long limit line ≡ true → is_too_long limit (line ++ more) ≡ true }
{}
