ghost use Rattle.std.specs.Prelude.{◌≡◌, true, ℕ, IfSome, List, Option, map, option_map, string_bytes};
ghost use Rattle.std.specs.List.{list_all};
ghost use Rattle.gps_report.specs.Name.{is_name, is_name_byte};
ghost use Rattle.gps_words.specs.Devices.{halves};
ghost use Rattle.gps_help.specs.Places.{any_below, count_below};
ghost use Rattle.gps_help.specs.DeviceCauses.{IsCauseOfDevice, IsCauseOfParts, device_at, gives_bytes, gives_bytes_of, gives_edges_of, has_address, has_path, is_edges, is_source};

use crate::place::{end_of, is_alone, word_at};
use crate::word::halves;
use crate::{CommandName, DeviceCause};
use gps_words::is_address;

fn is_name_byte(byte: u8) -> bool
    ensures { result ≡ is_name_byte byte }
{
    matches!(byte, 0x21..=0x7E) && byte != b'"' && byte != b'\\' && byte != b'='
}

fn has_name_bytes(text: &[u8]) -> bool
    ensures { result ≡ list_all is_name_byte text.now }
{
    text.iter().all(|byte| is_name_byte(*byte))
}

/// Whether a text can be a name.
fn is_name(text: &str) -> bool
    ensures { result ≡ is_name text.now }
{
    !text.is_empty() && text.len() <= 64 && has_name_bytes(text.as_bytes())
}

fn has_path(kind: &str) -> bool
    ensures { result ≡ has_path kind.now }
{
    kind == "file" || kind == "edges"
}

fn has_address(kind: &str) -> bool
    ensures { result ≡ has_address kind.now }
{
    kind == "tcp" || kind == "gpsd"
}

/// Whether a place is one of edges.
#[tactic(auto, unfolding(crate::specs::DeviceCauses::is_edges))]
fn is_edges(place: &str) -> bool
    ensures { result ≡ is_edges place.now }
{
    match halves(place, ':') {
        Some((kind, _)) => kind == "edges",
        None => false,
    }
}

/// Whether a place is one of bytes.
#[tactic(auto, unfolding(crate::specs::DeviceCauses::is_source))]
fn is_source(place: &str) -> bool
    ensures { result ≡ is_source place.now }
{
    match halves(place, ':') {
        Some((kind, _)) => kind == "file" || has_address(kind),
        None => false,
    }
}

/// The name and the place of the device word here, if one is.
#[tactic(auto, unfolding(crate::specs::DeviceCauses::device_at))]
fn device_at(words: &[String], stop: Option<usize>, at: usize) -> Option<(&str, &str)>
    ensures { option_map (λ parts. (parts.0.now, parts.1.now)) result ≡ device_at (map string_bytes words.entry.now) stop at }
{
    match word_at(words, at) {
        Some(word) => {
            if is_alone(CommandName::Serve, words, stop, at, word) {
                halves(word, '=')
            } else {
                None
            }
        }
        None => None,
    }
}

/// Whether the word here says where bytes come from.
#[tactic(auto, unfolding(crate::specs::DeviceCauses::gives_bytes))]
fn gives_bytes(words: &[String], stop: Option<usize>, at: usize) -> bool
    ensures { result ≡ gives_bytes (map string_bytes words.now) stop at }
{
    match device_at(words, stop, at) {
        Some((_, place)) => is_source(place),
        None => false,
    }
}

/// Whether the word here says where the bytes of this name come from.
#[tactic(auto, unfolding(crate::specs::DeviceCauses::gives_bytes_of))]
fn gives_bytes_of(words: &[String], stop: Option<usize>, name: &str, at: usize) -> bool
    ensures { result ≡ gives_bytes_of (map string_bytes words.now) stop name.now at }
{
    match device_at(words, stop, at) {
        Some((other, place)) => other == name && is_source(place),
        None => false,
    }
}

/// Whether the word here says where the edges of this name come from.
#[tactic(auto, unfolding(crate::specs::DeviceCauses::gives_edges_of))]
fn gives_edges_of(words: &[String], stop: Option<usize>, name: &str, at: usize) -> bool
    ensures { result ≡ gives_edges_of (map string_bytes words.now) stop name.now at }
{
    match device_at(words, stop, at) {
        Some((other, place)) => other == name && is_edges(place),
        None => false,
    }
}

/// How many words before the given place say where bytes come from.
#[tactic(auto, using(crate::proofs::Places::count_more))]
fn count_bytes(words: &[String], stop: Option<usize>, end: usize) -> usize
    ensures { result ≡ count_below (gives_bytes (map string_bytes words.now) stop) end }
{
    let mut count = 0;
    'places: for at in 0..end {
        if gives_bytes(words, stop, at) {
            count += 1;
        }
    }
    count
}

/// Whether a word before the given place says where the bytes of this name come from.
#[tactic(auto, using(crate::proofs::Places::found, crate::proofs::Places::none_more))]
fn has_bytes(words: &[String], stop: Option<usize>, name: &str, end: usize) -> bool
    ensures { result ≡ any_below (gives_bytes_of (map string_bytes words.now) stop name.now) end }
{
    'places: for at in 0..end {
        if gives_bytes_of(words, stop, name, at) {
            return true;
        }
    }
    false
}

/// Whether a word before the given place says where the edges of this name come from.
#[tactic(auto, using(crate::proofs::Places::found, crate::proofs::Places::none_more))]
fn has_edges(words: &[String], stop: Option<usize>, name: &str, end: usize) -> bool
    ensures { result ≡ any_below (gives_edges_of (map string_bytes words.now) stop name.now) end }
{
    'places: for at in 0..end {
        if gives_edges_of(words, stop, name, at) {
            return true;
        }
    }
    false
}

/// What is wrong with what comes after the `=`.
#[tactic(auto, unfolding(crate::specs::DeviceCauses::IsCauseOfParts))]
fn place_cause(place: &str) -> Option<DeviceCause>
    ensures { (words : List (List ℕ)) (stop : Option ℕ) (at : ℕ) (name : List ℕ)
        → IfSome result (λ cause. IsCauseOfParts words stop at name place.now cause) }
{
    let Some((kind, text)) = halves(place, ':') else {
        return Some(DeviceCause::NoSuchKind);
    };
    if has_path(kind) {
        if text.is_empty() {
            return Some(DeviceCause::NoPath);
        }
        return None;
    }
    if has_address(kind) {
        if is_address(text.as_bytes()) {
            return None;
        }
        return Some(DeviceCause::BadAddress);
    }
    Some(DeviceCause::NoSuchKind)
}

/// What is wrong with the edges of this name at this place.
#[tactic(auto, unfolding(crate::specs::DeviceCauses::IsCauseOfParts))]
fn edges_cause(
    words: &[String],
    stop: Option<usize>,
    at: usize,
    name: &str,
    place: &str,
) -> Option<DeviceCause>
    requires { is_edges place.now ≡ true }
    ensures { IfSome result (λ cause. IsCauseOfParts (map string_bytes words.now) stop at name.now place.now cause) }
{
    if has_edges(words, stop, name, at) {
        return Some(DeviceCause::EdgesTwice);
    }
    if has_bytes(words, stop, name, at) {
        return None;
    }
    if has_bytes(words, stop, name, end_of(words)) {
        return Some(DeviceCause::EdgesFirst);
    }
    Some(DeviceCause::EdgesAlone)
}

/// What is wrong with the bytes of this name at this place.
#[tactic(auto, unfolding(crate::specs::DeviceCauses::IsCauseOfParts))]
fn bytes_cause(
    words: &[String],
    stop: Option<usize>,
    at: usize,
    name: &str,
    place: &str,
) -> Option<DeviceCause>
    requires { is_source place.now ≡ true }
    ensures { IfSome result (λ cause. IsCauseOfParts (map string_bytes words.now) stop at name.now place.now cause) }
{
    if has_bytes(words, stop, name, at) {
        return Some(DeviceCause::NameTwice);
    }
    if count_bytes(words, stop, at) >= 8 {
        return Some(DeviceCause::TooMany);
    }
    None
}

/// What is wrong with a device word of this name and this place.
#[tactic(auto, unfolding(crate::specs::DeviceCauses::IsCauseOfParts))]
fn parts_cause(
    words: &[String],
    stop: Option<usize>,
    at: usize,
    name: &str,
    place: &str,
) -> Option<DeviceCause>
    ensures { IfSome result (λ cause. IsCauseOfParts (map string_bytes words.now) stop at name.now place.now cause) }
{
    if !is_name(name) {
        return Some(DeviceCause::BadName);
    }
    if let Some(cause) = place_cause(place) {
        return Some(cause);
    }
    if is_edges(place) {
        return edges_cause(words, stop, at, name, place);
    }
    if is_source(place) {
        return bytes_cause(words, stop, at, name, place);
    }
    None
}

/// What is wrong with the word of `serve` at this place, which is no option and no option's value.
#[tactic(auto, using(crate::proofs::Causes::of_parts, crate::proofs::Causes::no_parts))]
pub(crate) fn device_cause(
    words: &[String],
    stop: Option<usize>,
    at: usize,
    word: &str,
) -> Option<DeviceCause>
    ensures { IfSome result (λ cause. IsCauseOfDevice (map string_bytes words.now) stop at (halves 61 word.now) cause) }
{
    match halves(word, '=') {
        Some((name, place)) => parts_cause(words, stop, at, name, place),
        None => Some(DeviceCause::NoName),
    }
}
