//! The laws of the sentences of a fix, as contracts of functions that do nothing.

ghost use Rattle.std.specs.Prelude.{◌≡◌, ◌<◌, ◌+◌, ◌*◌, ◌/◌, ◌%◌, ◌^◌, ℕ, ℤ, pos, List, Some, true, unsigned_abs};
ghost use Rattle.gps_report.specs.declared.fix.Fix.{Fix};
ghost use Rattle.gps_report.specs.declared.note.Position.{Position};
ghost use Rattle.nmea_decode.specs.Places.{position_of};
ghost use Rattle.nmea_decode.specs.Readings.{date_of, height_of, speed_of, time_of, track_of};
ghost use Rattle.pseudo_nmea.specs.Fields.{clock, course, date, east, is_course, is_height, is_place, is_speed, knots, latitude, longitude, metres, north};
ghost use Rattle.std.specs.List.{list_all};
ghost use Rattle.gps_fixed.specs.Moment.{Moment};
ghost use Rattle.epoch_core.specs.Fixes.{fix_of};
ghost use Rattle.epoch_core.specs.Quantities.{said};
ghost use Rattle.ubx_decode.specs.Pvt.{pvt_note};
ghost use Rattle.ubx_frame.specs.Frame.{is_byte};
ghost use Rattle.nmea_frame.specs.Sentence.{IsSentence};
ghost use Rattle.pseudo_nmea.specs.Sentences.{gga_body, rmc_body, sentence};
ghost use Rattle.pseudo_nmea.specs.Fitting.{alone, is_coarse, is_dated, GivesBack, HasStamp, IsSayable, IsFitting};

/// The fix of an epoch whose only note is that of a NAV-PVT fits the two sentences, if its day is not after 2079, its
/// speed is at most a million knots, and it has a position wherever it says that there is a fix.
pub fn fixes_of_frames_fit()
    ensures { (payload : List ℕ) (first : Moment) → list_all is_byte payload ≡ true → IsSayable (pvt_note payload)
        → IsFitting (fix_of (said (alone (pvt_note payload) first))) }
{}

/// The decoder reads back each field that a fitting quantity has: heights, tracks, speeds, positions, times of day and days.
pub fn fields_are_read_back()
    ensures heights { (h : ℤ) → is_height h ≡ true → height_of (metres (Some h)) ≡ Some h }
    ensures tracks { (t : ℤ) → is_course t ≡ true → track_of (course (Some t)) ≡ Some t }
    ensures speeds { (v : ℤ) → is_speed v ≡ true → speed_of (knots (Some v)) ≡ Some v }
    ensures places { (p : Position) → is_place p ≡ true → is_coarse p ≡ true
        → position_of (latitude (Some p)) (north (Some p)) (longitude (Some p)) (east (Some p)) ≡ Some p }
    ensures times { (at : Moment) → at.nsec < 10 ^ 9 → time_of (clock (Some at)) ≡ Some (unsigned_abs at.sec % 86_400 * 10 ^ 9 + at.nsec) }
    ensures days { (at : Moment) → is_dated at ≡ true → date_of (date (Some at)) ≡ Some (pos (unsigned_abs at.sec / 86_400)) }
{}

/// The two sentences of a fitting fix give it back: their notes are one epoch, and its Fix is that fix without the height
/// above the ellipsoid and the climb, which sentences cannot say.
pub fn sentences_give_the_fix_back()
    ensures { (fix : Fix) (one two : Moment) → IsFitting fix → HasStamp fix.time → GivesBack fix one two }
{}

/// The two texts of any fix are sentences: at most 128 bytes, with a right checksum.
#[tactic(auto, using(crate::proofs::Whole::rmc_is_sentence, crate::proofs::Whole::gga_is_sentence))]
pub fn texts_are_sentences()
    ensures rmc { (fix : Fix) → IsSentence (sentence (rmc_body fix)) }
    ensures gga { (fix : Fix) → IsSentence (sentence (gga_body fix)) }
{}
