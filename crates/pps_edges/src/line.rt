ghost use Rattle.std.specs.Prelude.{◌≡◌, ◌↔◌, ◌≢◌, ◌≤◌, ◌<◌, ◌^◌, List, ℕ, IfSome, MatchOption, length, drop, true, false};
ghost use Rattle.std.specs.List.{list_all, prefix_len};
ghost use Rattle.std.specs.Str.Parse.{digits_value};
ghost use Rattle.pps_edges.specs.EdgeLine.{is_digit, IsEdgeLine, IsLineOf};
ghost use Rattle.pps_edges.specs.Scan.{begins, capture_in, is_not, nine_in, edge_in, number_in, past_first, up_to_first};
ghost use Rattle.gps_report.specs.declared.edge.Edge.{Edge as EdgeValue};

use gps_fixed::Stamp;
use gps_report::{Edge, EdgeKind};

fn are_digits(text: &[u8]) -> bool
    ensures { result ≡ list_all is_digit text.now }
{
    text.iter().all(|byte| (48..=57).contains(byte))
}

fn value(digits: &[u8]) -> u64
    requires few { length digits.now ≤ 10 }
    requires all { list_all is_digit digits.now ≡ true }
    ensures { result ≡ digits_value 10 digits.now }
{
    let mut number = 0u64;
    for digit in digits {
        number = 10 * number + u64::from(*digit - b'0');
    }
    number
}

/// The number that 1 to 10 decimal digits write; none if the text is anything else.
#[tactic(auto, using(crate::proofs::Digits::value_below), unfolding(crate::specs::Scan::number_in))]
pub fn whole_number(text: &[u8]) -> Option<u64>
    ensures is { result ≡ number_in text.now }
    ensures small { IfSome result (λ n. n < 10 ^ 10) }
{
    if !text.is_empty() && text.len() <= 10 && are_digits(text) {
        Some(value(text))
    } else {
        None
    }
}

/// The number that nine decimal digits write, as nanoseconds behind a point are written; none if the text is anything else.
#[tactic(auto, using(crate::proofs::Digits::value_below), unfolding(crate::specs::Scan::nine_in))]
pub fn nine_digits(text: &[u8]) -> Option<u32>
    ensures is { result ≡ nine_in text.now }
    ensures small { IfSome result (λ n. n < 10 ^ 9) }
{
    if text.len() == 9 && are_digits(text) {
        Some(value(text) as u32)
    } else {
        None
    }
}

fn place_of(text: &[u8], mark: u8) -> usize
    ensures is { result ≡ prefix_len (is_not mark) text.now }
    ensures within { result ≤ length text.now }
{
    text.iter().take_while(|byte| **byte != mark).count()
}

#[tactic(auto, unfolding(crate::specs::Scan::up_to_first))]
fn up_to(text: &[u8], mark: u8) -> &[u8]
    ensures { result.now ≡ up_to_first mark text.now }
{
    let place = place_of(text, mark);
    &text[..place]
}

#[tactic(auto, unfolding(crate::specs::Scan::past_first))]
fn past(text: &[u8], mark: u8) -> &[u8]
    ensures { result.now ≡ past_first mark text.now }
{
    let place = place_of(text, mark);
    match &text[place..] {
        [_, rest @ ..] => rest,
        [] => &[],
    }
}

#[tactic(auto, unfolding(crate::specs::Scan::capture_in))]
fn capture(kind: EdgeKind, text: &[u8]) -> Option<Edge>
    ensures { result ≡ capture_in kind text.now }
{
    let rest = past(text, b'.');
    let sec = whole_number(up_to(text, b'.'));
    let nsec = nine_digits(up_to(rest, b'#'));
    let seq = whole_number(past(rest, b'#'));
    match (sec, nsec, seq) {
        (Some(sec), Some(nsec), Some(seq)) if seq <= 4_294_967_295 => Some(Edge {
            kind,
            seq: seq as u32,
            at: Stamp {
                sec: sec as i64,
                nsec,
            },
        }),
        _ => None,
    }
}

#[tactic(auto, unfolding(crate::specs::Scan::begins))]
fn behind<'a>(word: &[u8], line: &'a [u8]) -> Option<&'a [u8]>
    ensures { MatchOption result (begins word.now line.now ≡ false) (λ rest. (begins word.now line.now ≡ true) × (rest.now ≡ drop (length word.now) line.now)) }
{
    line.strip_prefix(word)
}

#[tactic(auto, unfolding(crate::specs::Scan::edge_in))]
fn scan(line: &[u8]) -> Option<Edge>
    ensures { result ≡ edge_in line.now }
{
    if let Some(rest) = behind(b"assert ", line) {
        return capture(EdgeKind::Assert, rest);
    }
    match behind(b"clear ", line) {
        Some(rest) => capture(EdgeKind::Clear, rest),
        None => None,
    }
}

/// The edge that a line says, without its line end: `assert` or `clear`, a space, 1 to 10 digits of seconds, a point, nine digits of
/// nanoseconds, `#`, and 1 to 10 digits of a sequence number up to 4,294,967,295. Every other line is none. Takes no memory.
pub fn edge_of_line(line: &[u8]) -> Option<Edge>
    ensures reads { result ≡ edge_in line.now }
    ensures exact { (edge : EdgeValue) → (result ≡ Some edge) ↔ IsLineOf edge line.now }
    ensures none { (result ≡ None) ↔ (¬ IsEdgeLine line.now) }
{
    scan(line)
}
