//! The laws of commands that read what others wrote, as contracts of functions that do nothing.

ghost use Rattle.std.specs.Prelude.{◌≡◌, ℕ, true, List};
ghost use Rattle.std.specs.List.{AllByRecursion, list_all};
ghost use Rattle.gps_fixed.specs.Moment.{Moment};
ghost use Rattle.gps_report.specs.declared.edge.Symbol.{Symbol};
ghost use Rattle.ubx_frame.specs.Frame.{is_byte};
ghost use Rattle.ubx_decode.specs.Pvt.{pvt_note};
ghost use Rattle.packet_cut.specs.Packets.{bytes_of};
ghost use Rattle.epoch_core.specs.declared.heard.Heard.{Heard};
ghost use Rattle.epoch_core.specs.Fixes.{fix_of};
ghost use Rattle.epoch_core.specs.Quantities.{said};
ghost use Rattle.device_core.specs.Stream.{bytes_in};
ghost use Rattle.pseudo_nmea.specs.Fitting.{IsFitting, IsSayable};
ghost use Rattle.command_laws.specs.Fixes.{AreApart, AreSayable};
ghost use Rattle.gps_decode.specs.Texts.{line_of, sentences_of, texts_to_end};
ghost use Rattle.gps_client.specs.History.{IsStream};
ghost use Rattle.command_laws.specs.Composed.{alone_after, fixes_and_skies, fixes_to_end, HasNumbers, HasShortLine, reports_to_end, spoken_lines};
ghost use Rattle.command_laws.specs.Pipes.{DecodeAfterPseudo, LinesAfterDecode};

/// Law: what `pseudo` wrote of a stream is read by `decode`, with any stamps. Each fix of the stream must fit its two sentences and have a time,
/// and its time of day must differ from that of the next one. Then `decode` writes the lines of these fixes, in order, each without the
/// height above the ellipsoid and the climb, and nothing else (`texts`). So two runs that end well compose, by what `pseudo` and `decode`
/// promise of each run (`runs`).
pub fn decode_reads_what_pseudo_wrote()
    ensures texts { (first second : List Symbol) → AreSayable (fixes_to_end first) → AreApart (fixes_to_end first)
        → bytes_of (bytes_in second) ≡ texts_to_end sentences_of first
        → texts_to_end line_of second ≡ spoken_lines (fixes_to_end first) }
    ensures runs { DecodeAfterPseudo }
{}

/// Law: what `decode` wrote of a stream is read by `lines` to its end, and no line of it is bad. Its numbers are those of the fixes and of the
/// skies that the device reports, and 0 for each other class; no other numbers can be written of it (`texts`). Each line must have at most
/// 1,048,576 bytes, as `lines` reads none that is longer. So a run of `decode` that ends well and a run of `lines` compose, by what they
/// promise (`runs`).
pub fn lines_reads_what_decode_wrote()
    ensures texts { (stream : List Symbol) → IsStream stream → AllByRecursion HasShortLine (reports_to_end stream)
        → HasNumbers (texts_to_end line_of stream) (fixes_and_skies (reports_to_end stream)) }
    ensures runs { LinesAfterDecode }
{}

/// Law: the fix of an epoch whose only note is that of a NAV-PVT fits the two sentences also in the midst of a stream, whatever notes came
/// before it, under the same conditions as at a stream's beginning.
pub fn fixes_of_frames_fit_in_a_stream()
    ensures { (past : List Heard) (payload : List ℕ) (first : Moment) → list_all is_byte payload ≡ true → IsSayable (pvt_note payload)
        → IsFitting (fix_of (said (alone_after past (pvt_note payload) first))) }
{}
