ghost use Rattle.std.specs.Prelude.{◌≡◌, ◌≤◌, count_by, drop, length, map};
ghost use Rattle.std.specs.List.{position_or_len};
ghost use Rattle.std.specs.Simd.Lanes.{mask_l};
ghost use Rattle.nmea_decode.specs.Fields.{address_of, behind, field, field_count, fields_of, is_comma, skipped};

use std::simd::prelude::*;

/// The bytes of a row in which commas are looked for at once.
const ROW: usize = 16;

/// The same at a body's end.
const SHORT_ROW: usize = 8;

/// The commas of a row, a bit for each byte.
fn commas_of_row(row: u8x16) -> u64
    ensures { result ≡ mask_l (map is_comma row) }
{
    row.simd_eq(u8x16::splat(b',')).to_bitmask()
}

/// How many bytes of a row come before its first comma.
fn place_in_row(row: u8x16) -> usize
    ensures place { result ≡ position_or_len is_comma row }
    ensures within { result ≤ 16 }
{
    let commas = commas_of_row(row);
    if commas == 0 {
        ROW
    } else {
        commas.trailing_zeros() as usize
    }
}

fn commas_of_short_row(row: u8x8) -> u64
    ensures { result ≡ mask_l (map is_comma row) }
{
    row.simd_eq(u8x8::splat(b',')).to_bitmask()
}

fn place_in_short_row(row: u8x8) -> usize
    ensures place { result ≡ position_or_len is_comma row }
    ensures within { result ≤ 8 }
{
    let commas = commas_of_short_row(row);
    if commas == 0 {
        SHORT_ROW
    } else {
        commas.trailing_zeros() as usize
    }
}

/// Where the first comma of a text is. Mostly only its last bytes come here: out of line, so that the walks over fields stay short.
#[inline(never)]
fn place_by_bytes(text: &[u8]) -> usize
    ensures place { result ≡ position_or_len is_comma text.now }
    ensures within { result ≤ length text.now }
{
    text.iter().take_while(|c| **c != b',').count()
}

/// The same in a text that is shorter than a row.
#[inline(never)]
fn place_in_short(text: &[u8]) -> usize
    ensures place { result ≡ position_or_len is_comma text.now }
    ensures within { result ≤ length text.now }
{
    if text.len() < SHORT_ROW {
        return place_by_bytes(text);
    }
    let place = place_in_short_row(u8x8::from_slice(text));
    if place < SHORT_ROW {
        place
    } else {
        SHORT_ROW + place_by_bytes(&text[SHORT_ROW..])
    }
}

/// The same. Fields are short, so mostly the comma is in the first row.
fn comma_place(text: &[u8]) -> usize
    ensures place { result ≡ position_or_len is_comma text.now }
    ensures within { result ≤ length text.now }
{
    if text.len() < ROW {
        return place_in_short(text);
    }
    let place = place_in_row(u8x16::from_slice(text));
    if place < ROW {
        place
    } else {
        ROW + place_by_bytes(&text[ROW..])
    }
}

/// The address of a body, and the text of its fields.
pub(crate) fn split_address(body: &[u8]) -> (&[u8], &[u8])
    ensures address { result.0.now ≡ address_of body.now }
    ensures fields { result.1.now ≡ fields_of body.now }
{
    body.split_at(comma_place(body))
}

/// The first field, and the text of those after it.
#[tactic(auto, unfolding(crate::specs::Fields::field, crate::specs::Fields::behind))]
pub(crate) fn next(text: &[u8]) -> (&[u8], &[u8])
    ensures field { result.0.now ≡ field text.now }
    ensures behind { result.1.now ≡ behind text.now }
{
    match text {
        [] => (text, text),
        [_, text @ ..] => text.split_at(comma_place(text)),
    }
}

/// The text of the fields after the first `count`.
#[tactic(auto, using(crate::proofs::Walks::skipped_turn, crate::proofs::Walks::skipped_all))]
pub(crate) fn skip(text: &[u8], count: usize) -> &[u8]
    ensures { result.now ≡ skipped count text.now }
{
    let mut rest = text;
    let mut left = count;
    'fields: while left > 0 {
        let (_, behind) = next(rest);
        rest = behind;
        left -= 1;
    }
    rest
}

fn commas_in_row(row: u8x16) -> usize
    ensures count { result ≡ count_by is_comma row }
    ensures within { result ≤ 16 }
{
    commas_of_row(row).count_ones() as usize
}

fn commas_by_bytes(text: &[u8]) -> usize
    ensures { result ≡ count_by is_comma text.now }
{
    text.iter().filter(|c| **c == b',').count()
}

/// How many fields there are.
pub(crate) fn count(text: &[u8]) -> usize
    ensures count { result ≡ field_count text.now }
    ensures within { result ≤ length text.now }
{
    let mut commas = 0usize;
    let mut at = 0;
    'rows: while text.len() - at >= ROW {
        commas += commas_in_row(u8x16::from_slice(&text[at..]));
        at += ROW;
    }
    commas + commas_by_bytes(&text[at..])
}
