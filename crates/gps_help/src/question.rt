ghost use Rattle.std.specs.Prelude.{◌≡◌, map, string_bytes};
ghost use Rattle.std.specs.List.{list_any};
ghost use Rattle.gps_help.specs.Places.{stop_of};
ghost use Rattle.gps_help.specs.Questions.{asks_for_version, asks_help, help_of, is_help_word, question_in, words_to};

use crate::CommandName;
use crate::help::{
    COMMANDS, DECODE, DECODE_USAGE, EXAMPLES, GENERATE, GENERATE_USAGE, LINES, LINES_USAGE, OTHERS,
    PSEUDO, PSEUDO_USAGE, RELEASE, REPLAY, REPLAY_USAGE, SERVE, SERVE_USAGE, USAGE,
};
use crate::place::stop_of;

/// What is asked of the program itself, and of no command.
#[derive(Clone, Copy, Debug, PartialEq, Eq)]
pub enum Question {
    /// The whole help.
    Help,
    /// The help of one command.
    HelpOf(CommandName),
    /// The version.
    Version,
}

/// Whether a word asks for help among those of a command.
fn is_help_word(word: &str) -> bool
    ensures { result ≡ is_help_word word.now }
{
    word == "--help" || word == "-h"
}

/// The words up to this place, or all of them.
#[tactic(auto, using(crate::proofs::AnyMap::within))]
fn words_to(words: &[String], stop: Option<usize>) -> &[String]
    ensures { result.now ≡ words_to stop words.entry.now }
{
    match stop {
        Some(place) => &words[..place.min(words.len())],
        None => words,
    }
}

/// Whether one of the words asks for help.
fn is_help_asked(words: &[String]) -> bool
    ensures { result ≡ list_any (λ word. is_help_word (string_bytes word)) words.now }
{
    words.iter().any(|word| is_help_word(word.as_str()))
}

/// Whether one of the words before the first `--` asks for help.
fn has_help_word(words: &[String]) -> bool
    ensures { result ≡ list_any is_help_word (words_to (stop_of (map string_bytes words.now)) (map string_bytes words.now)) }
{
    is_help_asked(words_to(words, stop_of(words)))
}

/// Whether a first word asks for help.
pub(crate) fn asks_help(word: &str) -> bool
    ensures { result ≡ asks_help word.now }
{
    word == "help" || is_help_word(word)
}

/// Whether a first word asks for the version.
pub(crate) fn asks_for_version(word: &str) -> bool
    ensures { result ≡ asks_for_version word.now }
{
    word == "--version" || word == "version" || word == "-V"
}

/// What the words after `help` ask for.
fn help_of(words: &[String]) -> Option<Question>
    ensures { result ≡ help_of (map string_bytes words.now) }
{
    match words {
        [] => Some(Question::Help),
        [word] => match CommandName::of(word.as_str()) {
            Some(command) => Some(Question::HelpOf(command)),
            None => None,
        },
        [_, _, ..] => None,
    }
}

/// What the words, without the program's name, ask of the program itself: `help`, `-h` or `--help`, also with a
/// command after it, a command with `-h` or `--help` among its words before a `--`, or `--version`, `version` or `-V`.
#[tactic(auto, unfolding(crate::specs::Questions::question_in))]
pub fn question_in(words: &[String]) -> Option<Question>
    ensures { result ≡ question_in (map string_bytes words.now) }
{
    let [word, rest @ ..] = words else {
        return None;
    };
    if asks_for_version(word.as_str()) {
        return Some(Question::Version);
    }
    if asks_help(word.as_str()) {
        return help_of(rest);
    }
    match CommandName::of(word.as_str()) {
        Some(command) if has_help_word(rest) => Some(Question::HelpOf(command)),
        _ => None,
    }
}

impl CommandName {
    /// How the command is called.
    pub fn usage(self) -> &'static str {
        match self {
            CommandName::Decode => DECODE_USAGE,
            CommandName::Replay => REPLAY_USAGE,
            CommandName::Generate => GENERATE_USAGE,
            CommandName::Pseudo => PSEUDO_USAGE,
            CommandName::Lines => LINES_USAGE,
            CommandName::Serve => SERVE_USAGE,
        }
    }
}

impl Question {
    /// The answer, in parts that follow one another.
    pub fn answer(self) -> &'static [&'static str] {
        match self {
            Question::Help => &[USAGE, "\n", COMMANDS, SERVE, OTHERS, EXAMPLES],
            Question::Version => &[RELEASE, ", gpsd's protocol 3.1\n"],
            Question::HelpOf(CommandName::Decode) => &["usage: ", DECODE_USAGE, "\n", DECODE],
            Question::HelpOf(CommandName::Replay) => &["usage: ", REPLAY_USAGE, "\n", REPLAY],
            Question::HelpOf(CommandName::Generate) => {
                &["usage: ", GENERATE_USAGE, "\n", GENERATE]
            }
            Question::HelpOf(CommandName::Pseudo) => &["usage: ", PSEUDO_USAGE, "\n", PSEUDO],
            Question::HelpOf(CommandName::Lines) => &["usage: ", LINES_USAGE, "\n", LINES],
            Question::HelpOf(CommandName::Serve) => &["usage: ", SERVE_USAGE, "\n", SERVE],
        }
    }
}
