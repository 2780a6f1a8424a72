ghost use Rattle.std.specs.Prelude.{◌≡◌, ◌==◌, ◌<◌, ◌≤◌, ◌/◌, IfOk, OnErr, OnOk, length};
ghost use Rattle.std.specs.List.{position_or_len};
ghost use Rattle.gps_report.specs.Fits.{Fits};
ghost use Rattle.gps_report.specs.Note.{empty_note};
ghost use Rattle.nmea_frame.specs.Sentence.{body_of};
ghost use Rattle.nmea_decode.specs.Fields.{field_count, skipped};
ghost use Rattle.nmea_decode.specs.Satellites.{ids_in};
ghost use Rattle.nmea_decode.specs.Notes.{body_entries, body_note, entries_of, gga_row, gll_row, gsa, gsv, letter_status, plain_note, quality_status, rmc_row, said_at, said_by, sentence_note, timed, vtg_row, where_valid, zda_row};

use crate::fields::{next, skip, split_address};
use crate::kinds::{dimensions, is_read, system_of_talker, system_stated};
use crate::places::position;
use crate::readings::{date, day_beside, dilution, height, long_date, speed, time, tod, track};
use crate::satellites::{push_ids, satellites};
use gps_fixed::NoMemory;
use gps_report::{Ids, Note, NoteKind, Tag};
use memchr::memchr;
use std::alloc::Global;

/// Sets a note's kind, and its time, which is its tag.
#[tactic(auto, unfolding(crate::specs::Notes::timed))]
fn begin(note: &mut Note, kind: NoteKind, time: Option<u64>)
    requires { note.old ≡ empty_note NoteKind.Other }
    ensures { note.new ≡ timed kind time }
{
    let tod = tod(time);
    note.kind = kind;
    note.tod = tod;
    note.tag = match tod {
        Some(tod) => Some(Tag::Tod(tod)),
        None => None,
    };
}

fn status_of_quality(text: &[u8]) -> Option<bool>
    ensures { result ≡ quality_status text.now }
{
    match text {
        [b'1'..=b'8'] => Some(true),
        [b'0'] => Some(false),
        _ => None,
    }
}

fn status_of_letter(text: &[u8]) -> Option<bool>
    ensures { result ≡ letter_status text.now }
{
    if text == b"A".as_slice() {
        Some(true)
    } else if text == b"V".as_slice() {
        Some(false)
    } else {
        None
    }
}

/// A quantity that counts only beside a fix.
fn if_valid<T: Copy>(status: Option<bool>, quantity: Option<T>) -> Option<T>
    ensures { result ≡ where_valid status quantity }
{
    match status {
        Some(true) => quantity,
        _ => None,
    }
}

#[inline(never)]
#[tactic(auto, unfolding(crate::specs::Notes::plain_note, crate::specs::Notes::timed))]
fn read_gga(note: &mut Note, text: &[u8])
    requires { note.old ≡ empty_note NoteKind.Other }
    ensures { note.new ≡ plain_note gga_row text.now }
{
    let (time_text, text) = next(text);
    let (lat, text) = next(text);
    let (north, text) = next(text);
    let (lon, text) = next(text);
    let (east, text) = next(text);
    let (quality, text) = next(text);
    let (hdop, text) = next(skip(text, 1));
    let (alt_msl, text) = next(text);
    let (geoid_sep, _) = next(skip(text, 1));
    let status = status_of_quality(quality);
    begin(note, NoteKind::Gga, time(time_text));
    note.status = status;
    note.position = if_valid(status, position(lat, north, lon, east));
    note.hdop = if_valid(status, dilution(hdop));
    note.alt_msl = if_valid(status, height(alt_msl));
    note.geoid_sep = if_valid(status, height(geoid_sep));
}

#[inline(never)]
#[tactic(auto, unfolding(crate::specs::Notes::plain_note, crate::specs::Notes::timed))]
fn read_rmc(note: &mut Note, text: &[u8])
    requires { note.old ≡ empty_note NoteKind.Other }
    ensures { note.new ≡ plain_note rmc_row text.now }
{
    let (time_text, text) = next(text);
    let (status, text) = next(text);
    let (lat, text) = next(text);
    let (north, text) = next(text);
    let (lon, text) = next(text);
    let (east, text) = next(text);
    let (knots, text) = next(text);
    let (course, text) = next(text);
    let (date_text, _) = next(text);
    let time = time(time_text);
    let status = status_of_letter(status);
    begin(note, NoteKind::Rmc, time);
    note.status = status;
    note.position = if_valid(status, position(lat, north, lon, east));
    note.speed = if_valid(status, speed(knots));
    note.track = if_valid(status, track(course));
    note.day = day_beside(time, date(date_text));
}

#[inline(never)]
#[tactic(auto, unfolding(crate::specs::Notes::plain_note, crate::specs::Notes::timed))]
fn read_gll(note: &mut Note, text: &[u8])
    requires { note.old ≡ empty_note NoteKind.Other }
    ensures { note.new ≡ plain_note gll_row text.now }
{
    let (lat, text) = next(text);
    let (north, text) = next(text);
    let (lon, text) = next(text);
    let (east, text) = next(text);
    let (time_text, text) = next(text);
    let (status, _) = next(text);
    let status = status_of_letter(status);
    begin(note, NoteKind::Gll, time(time_text));
    note.status = status;
    note.position = if_valid(status, position(lat, north, lon, east));
}

#[inline(never)]
#[tactic(auto, unfolding(crate::specs::Notes::gsa))]
fn read_gsa(note: &mut Note, alloc: Global, text: &[u8]) -> Result<(), NoMemory>
    requires { note.old ≡ empty_note NoteKind.Other }
    ensures note { OnOk result (note.new ≡ gsa text.now) }
    ensures memory { OnErr result (0 < length (ids_in 12 (skipped 2 text.now))) }
{
    let (dim, ids_text) = next(skip(text, 1));
    let mut used = Vec::new(alloc);
    let behind = push_ids(&mut used, ids_text, 12)?;
    let (pdop, text) = next(behind);
    let (hdop, text) = next(text);
    let (vdop, text) = next(text);
    let (system, _) = next(text);
    note.kind = NoteKind::Gsa;
    note.dim = dimensions(dim);
    note.used = Ids::from_vec(used);
    note.pdop = dilution(pdop);
    note.hdop = dilution(hdop);
    note.vdop = dilution(vdop);
    note.system = system_stated(system);
    Ok(())
}

#[inline(never)]
#[tactic(auto, unfolding(crate::specs::Notes::gsv))]
fn read_gsv(note: &mut Note, alloc: Global, talker: &[u8], text: &[u8]) -> Result<(), NoMemory>
    requires { note.old ≡ empty_note NoteKind.Other }
    ensures note { OnOk result (note.new ≡ gsv talker.now text.now) }
    ensures memory { OnErr result (0 < field_count (skipped 3 text.now) / 4) }
{
    let sats = satellites(alloc, skip(text, 3), system_of_talker(talker))?;
    note.kind = NoteKind::Gsv;
    note.sats = sats;
    Ok(())
}

#[inline(never)]
#[tactic(auto, unfolding(crate::specs::Notes::plain_note, crate::specs::Notes::timed))]
fn read_vtg(note: &mut Note, text: &[u8])
    requires { note.old ≡ empty_note NoteKind.Other }
    ensures { note.new ≡ plain_note vtg_row text.now }
{
    let (course, text) = next(text);
    let (knots, _) = next(skip(text, 3));
    note.kind = NoteKind::Vtg;
    note.track = track(course);
    note.speed = speed(knots);
}

#[inline(never)]
#[tactic(auto, unfolding(crate::specs::Notes::plain_note, crate::specs::Notes::timed))]
fn read_zda(note: &mut Note, text: &[u8])
    requires { note.old ≡ empty_note NoteKind.Other }
    ensures { note.new ≡ plain_note zda_row text.now }
{
    let (time_text, text) = next(text);
    let (day, text) = next(text);
    let (month, text) = next(text);
    let (year, _) = next(text);
    let time = time(time_text);
    begin(note, NoteKind::Zda, time);
    note.day = day_beside(time, long_date(day, month, year));
}

// A note is large, and each function that hands one on has room of its own for it, which is cleared. So the note is made once, in
// `read_body`, and each kind of sentence writes its own quantities into it.

/// One row for each kind of sentence that is read, by its name; the most frequent ones come first.
#[inline(always)]
fn read_named(
    note: &mut Note,
    alloc: Global,
    name: &[u8],
    talker: &[u8],
    text: &[u8],
) -> Result<(), NoMemory>
    requires { note.old ≡ empty_note NoteKind.Other }
    ensures note { OnOk result (note.new ≡ (said_by name.now talker.now text.now).note) }
    ensures memory { OnErr result (0 < (said_by name.now talker.now text.now).entries) }
{
    if name == b"RMC".as_slice() {
        read_rmc(note, text);
        Ok(())
    } else if name == b"GGA".as_slice() {
        read_gga(note, text);
        Ok(())
    } else if name == b"GSV".as_slice() {
        read_gsv(note, alloc, talker, text)
    } else if name == b"GSA".as_slice() {
        read_gsa(note, alloc, text)
    } else if name == b"VTG".as_slice() {
        read_vtg(note, text);
        Ok(())
    } else if name == b"GLL".as_slice() {
        read_gll(note, text);
        Ok(())
    } else if name == b"ZDA".as_slice() {
        read_zda(note, text);
        Ok(())
    } else {
        Ok(())
    }
}

/// The last three letters of an address name the kind, the first two the talker.
#[inline(always)]
fn read_at(note: &mut Note, alloc: Global, address: &[u8], text: &[u8]) -> Result<(), NoMemory>
    requires { note.old ≡ empty_note NoteKind.Other }
    ensures note { OnOk result (note.new ≡ (said_at address.now text.now).note) }
    ensures memory { OnErr result (0 < (said_at address.now text.now).entries) }
{
    if is_read(address) {
        read_named(note, alloc, &address[2..], &address[..2], text)
    } else {
        Ok(())
    }
}

#[inline(always)]
#[tactic(auto, unfolding(crate::specs::Notes::body_note))]
fn read_body(alloc: Global, body: &[u8]) -> Result<Note, NoMemory>
    ensures note { IfOk result (λ note. note ≡ body_note body.now) }
    ensures memory { OnErr result (0 < body_entries body.now) }
{
    let (address, text) = split_address(body);
    let mut note = Note::empty(alloc, NoteKind::Other);
    read_at(&mut note, alloc, address, text)?;
    Ok(note)
}

#[tactic(auto, using(crate::proofs::Searching::place_is, crate::proofs::Searching::nowhere_is))]
fn star_place(text: &[u8]) -> usize
    ensures place { result ≡ position_or_len (λ c. c == 42) text.now }
    ensures within { result ≤ length text.now }
{
    match memchr(b'*', text) {
        Some(place) => place,
        None => text.len(),
    }
}

/// What is between the `$` and the `*` of a sentence.
fn body(sentence: &[u8]) -> &[u8]
    ensures { result.now ≡ body_of sentence.now }
{
    match sentence {
        [] => sentence,
        [_, text @ ..] => {
            let (body, _) = text.split_at(star_place(text));
            body
        }
    }
}

/// What a sentence says. A sentence of a kind that is not read gives a note of kind `Other` with nothing in it.
///
/// The `$`, the checksum and the line's end are checked by the framer: of bytes that are no sentence, what comes up to the first `*` is
/// read in the same way. The tables of fields are those of NMEA 0183. Every note is within the ranges that the grouping into epochs requires.
///
/// Takes memory only for a GSA with at least one readable id and for a GSV with at least one whole group of four fields: `NoMemory` comes
/// if there is none for these, and for no other sentence.
#[inline(always)]
#[tactic(auto, unfolding(crate::specs::Notes::sentence_note))]
pub fn note_of(alloc: Global, sentence: &[u8]) -> Result<Note, NoMemory>
    ensures note { IfOk result (λ note. note ≡ sentence_note sentence.now) }
    ensures fits { IfOk result (λ note. Fits note) }
    ensures memory { OnErr result (0 < entries_of sentence.now) }
{
    read_body(alloc, body(sentence))
}
