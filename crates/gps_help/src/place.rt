ghost use Rattle.std.specs.Prelude.{◌≡◌, ◌<◌, IfSome, codes, length, map, option_map, position, slice_get, string_bytes};
ghost use Rattle.std.specs.Str.{bytes_eq};
ghost use Rattle.gps_help.specs.Places.{any_below, can_be_value, is_alone, is_stopped, names_at, option_before, passes, stop_of};

use crate::word::{can_be_value, head_of, is_dashed};
use crate::{CommandName, OptionName};

/// The word at this place.
#[tactic(auto, using(crate::proofs::Places::get_text))]
pub(crate) fn word_at(words: &[String], at: usize) -> Option<&str>
    ensures word { option_map (λ word. word.now) result ≡ slice_get (map string_bytes words.entry.now) at }
    ensures within { IfSome result (λ _. at < length words.entry.now) }
{
    match words.get(at) {
        Some(word) => Some(word.as_str()),
        None => None,
    }
}

/// The place after the last word. It only forwards, for the prover: its contract counts the words as texts.
#[tactic(auto, using(crate::proofs::Places::count_text))]
pub(crate) fn end_of(words: &[String]) -> usize
    ensures { result ≡ length (map string_bytes words.now) }
{
    words.len()
}

/// Where the first `--` is among the strings. It is apart from `stop_of` for the prover.
fn stop_place(words: &[String]) -> Option<usize>
    ensures { result ≡ position (λ word. bytes_eq (string_bytes word) (codes "--")) words.now }
{
    words.iter().position(|word| word.as_str() == "--")
}

/// Where the first `--` is, after which no word is an option. The prover sees the words as texts here.
#[tactic(auto, unfolding(crate::specs::Places::stop_of), using(crate::proofs::Places::position_text))]
pub(crate) fn stop_of(words: &[String]) -> Option<usize>
    ensures { result ≡ stop_of (map string_bytes words.now) }
{
    stop_place(words)
}

pub(crate) fn is_stopped(stop: Option<usize>, at: usize) -> bool
    ensures { result ≡ is_stopped stop at }
{
    match stop {
        Some(stop) => stop < at,
        None => false,
    }
}

/// Whether a word at this place can be meant as a value.
pub(crate) fn is_value_at(words: &[String], at: usize) -> bool
    ensures { result ≡ passes can_be_value (slice_get (map string_bytes words.now) at) }
{
    match word_at(words, at) {
        Some(word) => can_be_value(word),
        None => false,
    }
}

/// The option that takes the word at this place as its value.
#[tactic(auto, unfolding(crate::specs::Places::option_before))]
pub(crate) fn option_before(
    command: CommandName,
    words: &[String],
    stop: Option<usize>,
    at: usize,
) -> Option<OptionName>
    ensures { result ≡ option_before command (map string_bytes words.now) stop at }
{
    if at == 0 || is_stopped(stop, at) {
        return None;
    }
    match word_at(words, at - 1) {
        Some(word) => command.option(word),
        None => None,
    }
}

/// Whether the word at this place names the option.
#[tactic(auto, unfolding(crate::specs::Places::names_at))]
fn names_at(words: &[String], stop: Option<usize>, option: OptionName, at: usize) -> bool
    ensures { result ≡ names_at (map string_bytes words.now) stop option at }
{
    match word_at(words, at) {
        Some(word) => !is_stopped(stop, at) && head_of(word) == option.flag(),
        None => false,
    }
}

/// Whether a word before the given place names the option.
#[tactic(auto, using(crate::proofs::Places::found, crate::proofs::Places::none_more))]
pub(crate) fn is_named_before(
    words: &[String],
    stop: Option<usize>,
    option: OptionName,
    end: usize,
) -> bool
    ensures { result ≡ any_below (names_at (map string_bytes words.now) stop option) end }
{
    'places: for at in 0..end {
        if names_at(words, stop, option, at) {
            return true;
        }
    }
    false
}

/// Whether a word after the command is no option and no option's value.
#[tactic(auto, unfolding(crate::specs::Places::is_alone))]
pub(crate) fn is_alone(
    command: CommandName,
    words: &[String],
    stop: Option<usize>,
    at: usize,
    word: &str,
) -> bool
    ensures { result ≡ is_alone command (map string_bytes words.now) stop at word.now }
{
    at > 0
        && (is_stopped(stop, at)
            || !is_dashed(word) && !option_before(command, words, stop, at).is_some())
}

fn is_alone_at(command: CommandName, words: &[String], stop: Option<usize>, at: usize) -> bool
    ensures { result ≡ passes (is_alone command (map string_bytes words.now) stop at) (slice_get (map string_bytes words.now) at) }
{
    match word_at(words, at) {
        Some(word) => is_alone(command, words, stop, at, word),
        None => false,
    }
}

/// Whether a word before the given place is no option and no option's value.
#[tactic(auto, using(crate::proofs::Places::found, crate::proofs::Places::none_more))]
pub(crate) fn has_word_before(
    command: CommandName,
    words: &[String],
    stop: Option<usize>,
    end: usize,
) -> bool
    ensures { result ≡ any_below (λ at. passes (is_alone command (map string_bytes words.now) stop at) (slice_get (map string_bytes words.now) at)) end }
{
    'places: for at in 0..end {
        if is_alone_at(command, words, stop, at) {
            return true;
        }
    }
    false
}
