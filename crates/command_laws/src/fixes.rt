//! The law of the sentences of several fixes, as the contract of a function that does nothing.

ghost use Rattle.std.specs.Prelude.{◌≡◌, ◌++◌, ℕ, List, map};
ghost use Rattle.gps_report.specs.declared.edge.Symbol.{Symbol};
ghost use Rattle.gps_report.specs.declared.fix.Fix.{Fix};
ghost use Rattle.packet_cut.specs.Packets.{bytes_of};
ghost use Rattle.device_core.specs.Reports.{device_close, device_reports};
ghost use Rattle.device_core.specs.Stream.{bytes_in};
ghost use Rattle.upstream_laws.specs.Alike.{shown};
ghost use Rattle.command_laws.specs.Fixes.{AreApart, AreSayable, lines_of, lines_shown, sentences_of, spoken_fix};

/// A device is sent the two sentences of each of these fixes, in order, whatever the stamps are and whatever edges come between. Each fix fits
/// and has a time, and its time of day differs from that of the next one, as a fix closes the one before it by its time of day alone. Then
/// the fixes that the device reports, up to the end of its stream, are these, in order, without the height above the ellipsoid and the
/// climb, and it reports no sky (`reports`). So the lines of its fixes and skies are those of these fixes (`lines`).
pub fn sentences_of_fixes_give_them_back()
    ensures reports { (fixes : List Fix) (stream : List Symbol) → AreSayable fixes → AreApart fixes → bytes_of (bytes_in stream) ≡ sentences_of fixes
        → shown (device_reports stream ++ device_close stream) ≡ map spoken_fix fixes }
    ensures lines { (name : List ℕ) (fixes : List Fix) (stream : List Symbol) → AreSayable fixes → AreApart fixes
        → bytes_of (bytes_in stream) ≡ sentences_of fixes
        → lines_shown name (device_reports stream ++ device_close stream) ≡ lines_of name fixes }
{}
