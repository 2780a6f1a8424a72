//! Laws of the samples that reports give, as a contract of a function that does nothing.

ghost use Rattle.std.specs.Prelude.{◌≡◌, ◌≢◌, ℕ, ◌+◌, ◌*◌, ◌≤◌, List, [], ◌++◌, length};
ghost use Rattle.std.specs.List.{All};
ghost use Rattle.gps_report.specs.declared.report.Report.{Report};
ghost use Rattle.book_units.specs.Samples.{samples_of};
ghost use Rattle.book_units.specs.Units.{HasRoom, HasRoomAt, AreOf};

/// Reports give their samples in order, at most one each, and those of a device give none to another device's units. So
/// room at a device's two units is room for its reports.
pub fn reports_give_samples_in_order()
    ensures joined { (u : ℕ) (reports more : List Report) → samples_of u (reports ++ more) ≡ samples_of u reports ++ samples_of u more }
    ensures few { (u : ℕ) (reports : List Report) → length (samples_of u reports) ≤ length reports }
    ensures apart { (u device : ℕ) (reports : List Report) → AreOf device reports → u ≢ 2 * device → u ≢ 2 * device + 1 → samples_of u reports ≡ [] }
    ensures room { (device more : ℕ) (spare : List ℕ) (reports : List Report) → HasRoomAt device more spare → AreOf device reports
        → length (samples_of (2 * device) reports) ≤ more → length (samples_of (2 * device + 1) reports) ≤ more → HasRoom spare reports }
{}
