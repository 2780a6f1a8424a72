ghost use Rattle.std.specs.Prelude.{◌≡◌, ◌<◌, true, false, None, Some, IfOk, IfSome, is_some, length, map, not, slice_get, string_bytes};
ghost use Rattle.gps_help.specs.Causes.{HasCause, HasCauseAt, IsCauseWithin, Names};
ghost use Rattle.gps_help.specs.Places.{is_alone, is_dashed, is_stopped, option_before, passes, stop_of};
ghost use Rattle.gps_help.specs.Questions.{asks_help};
ghost use Rattle.gps_help.specs.Refusals.{IsThere, command_in, is_asked};

use crate::device::device_cause;
use crate::place::{
    end_of, has_word_before, is_alone, is_named_before, is_stopped, is_value_at, option_before,
    stop_of, word_at,
};
use crate::question::{asks_help, question_in};
use crate::word::{can_be_value, head_of, is_dashed, name_of, value_of};
use crate::{Cause, CommandName, OptionName, Question};
use gps_fixed::NoMemory;
use gps_words::{WordsFault, asked, serve_asked};
use std::alloc::Global;

/// Why words are refused: the command that they begin with, the place of the word at fault, if it is one, and the cause.
#[derive(Clone, Copy, Debug, PartialEq, Eq)]
pub struct Refusal {
    pub command: Option<CommandName>,
    pub at: Option<usize>,
    pub cause: Cause,
}

/// Whether the words ask for a command or for the daemon.
fn is_asked(alloc: Global, words: &[String]) -> Result<bool, NoMemory>
    ensures { IfOk result (λ r. r ≡ is_asked (map string_bytes words.now)) }
{
    match asked(alloc, words) {
        Ok(_) => return Ok(true),
        Err(WordsFault::NoMemory) => return Err(NoMemory),
        Err(WordsFault::Refused) => {}
    }
    match serve_asked(alloc, words) {
        Ok(_) => Ok(true),
        Err(WordsFault::NoMemory) => Err(NoMemory),
        Err(WordsFault::Refused) => Ok(false),
    }
}

/// What is wrong with an option of the command at this place.
#[tactic(auto, unfolding(crate::specs::Causes::IsCauseWithin), using(crate::proofs::Causes::bad_within))]
fn option_cause(
    command: CommandName,
    words: &[String],
    stop: Option<usize>,
    at: usize,
    word: &str,
    option: OptionName,
) -> Option<Cause>
    requires names { Names command stop at word.now option }
    requires within { at < length words.now }
    ensures { IfSome result (λ cause. IsCauseWithin command (map string_bytes words.now) stop at word.now cause) }
{
    if is_named_before(words, stop, option, at) {
        return Some(Cause::Twice(option));
    }
    match value_of(word) {
        Some(value) => {
            if option.takes(value) {
                return None;
            }
            Some(Cause::BadValue(option))
        }
        None => {
            if is_value_at(words, at + 1) {
                return None;
            }
            Some(Cause::NoValue(option))
        }
    }
}

/// What is wrong with the word at this place, which begins with `-`.
#[tactic(auto, unfolding(crate::specs::Causes::IsCauseWithin))]
fn dashed_cause(
    command: CommandName,
    words: &[String],
    stop: Option<usize>,
    at: usize,
    word: &str,
) -> Option<Cause>
    requires dashed { is_dashed word.now ≡ true }
    requires free { is_stopped stop at ≡ false }
    requires within { at < length words.now }
    ensures { IfSome result (λ cause. IsCauseWithin command (map string_bytes words.now) stop at word.now cause) }
{
    if word == "--" {
        return None;
    }
    let head = head_of(word);
    match command.option(head) {
        Some(option) => option_cause(command, words, stop, at, word, option),
        None => Some(Cause::NoSuchOption(command.option_near(name_of(head)))),
    }
}

/// What is wrong with the word at this place as the value of the option before it, if there is one.
#[tactic(auto, unfolding(crate::specs::Causes::IsCauseWithin), using(crate::proofs::Causes::bad_after))]
fn value_cause(
    command: CommandName,
    words: &[String],
    stop: Option<usize>,
    at: usize,
    word: &str,
) -> Option<Cause>
    ensures { IfSome result (λ cause. IsCauseWithin command (map string_bytes words.now) stop at word.now cause) }
{
    match option_before(command, words, stop, at) {
        Some(option) => {
            if option.takes(word) {
                return None;
            }
            Some(Cause::BadValue(option))
        }
        None => None,
    }
}

/// What is wrong with the word at this place, which is no option and no option's value.
#[tactic(auto, unfolding(crate::specs::Causes::IsCauseWithin))]
fn alone_cause(
    command: CommandName,
    words: &[String],
    stop: Option<usize>,
    at: usize,
    word: &str,
) -> Option<Cause>
    requires { is_alone command (map string_bytes words.now) stop at word.now ≡ true }
    ensures { IfSome result (λ cause. IsCauseWithin command (map string_bytes words.now) stop at word.now cause) }
{
    if !command.is_served() {
        return Some(Cause::Stray);
    }
    match device_cause(words, stop, at, word) {
        Some(cause) => Some(Cause::Device(cause)),
        None => None,
    }
}

/// What is wrong with the word of a command at this place.
fn cause_of(
    command: CommandName,
    words: &[String],
    stop: Option<usize>,
    at: usize,
    word: &str,
) -> Option<Cause>
    requires { at < length words.now }
    ensures { IfSome result (λ cause. IsCauseWithin command (map string_bytes words.now) stop at word.now cause) }
{
    if is_alone(command, words, stop, at, word) {
        return alone_cause(command, words, stop, at, word);
    }
    if can_be_value(word) {
        if let Some(cause) = value_cause(command, words, stop, at, word) {
            return Some(cause);
        }
    }
    if is_dashed(word) && !is_stopped(stop, at) {
        return dashed_cause(command, words, stop, at, word);
    }
    None
}

/// What is wrong with the word of a command at this place.
#[tactic(auto, using(crate::proofs::Causes::of_words))]
fn word_cause(
    command: CommandName,
    words: &[String],
    stop: Option<usize>,
    at: usize,
) -> Option<Cause>
    requires stop { stop ≡ stop_of (map string_bytes words.now) }
    requires within { at < length words.now }
    ensures { IfSome result (λ cause. HasCauseAt (map string_bytes words.now) (Some command) (Some at) cause) }
{
    match word_at(words, at) {
        Some(word) => cause_of(command, words, stop, at, word),
        None => None,
    }
}

/// What the words of a command lack as a whole.
#[tactic(auto, unfolding(crate::specs::Causes::HasCauseAt, crate::specs::Causes::IsCauseOfLine))]
fn lack(command: CommandName, words: &[String], stop: Option<usize>) -> Cause
    requires { stop ≡ stop_of (map string_bytes words.now) }
    ensures { HasCauseAt (map string_bytes words.now) (Some command) None result }
{
    match command {
        CommandName::Generate => {
            if !is_named_before(words, stop, OptionName::Seed, end_of(words)) {
                return Cause::Lacking(OptionName::Seed);
            }
            if !is_named_before(words, stop, OptionName::Size, end_of(words)) {
                return Cause::Lacking(OptionName::Size);
            }
            Cause::Other
        }
        CommandName::Serve => {
            if !has_word_before(CommandName::Serve, words, stop, end_of(words)) {
                return Cause::NoDevice;
            }
            Cause::Other
        }
        _ => Cause::Other,
    }
}

/// The first word of a command at fault, and why.
fn fault_in(command: CommandName, words: &[String]) -> (Option<usize>, Cause)
    ensures there { IfSome result.0 (λ at. at < length words.now) }
    ensures cause { HasCauseAt (map string_bytes words.now) (Some command) result.0 result.1 }
{
    let stop = stop_of(words);
    'places: for at in 1..words.len() {
        if let Some(cause) = word_cause(command, words, stop, at) {
            return (Some(at), cause);
        }
    }
    (None, lack(command, words, stop))
}

/// The word at fault after `help`, and why.
#[tactic(auto, unfolding(crate::specs::Causes::IsCauseBefore), using(crate::proofs::Causes::of_word, crate::proofs::Causes::of_other))]
fn help_fault(words: &[String]) -> (Option<usize>, Cause)
    requires { passes asks_help (slice_get (map string_bytes words.now) 0) ≡ true }
    ensures there { IfSome result.0 (λ at. at < length words.now) }
    ensures cause { HasCauseAt (map string_bytes words.now) None result.0 result.1 }
{
    if let Some(_) = word_at(words, 2) {
        return (Some(2), Cause::Stray);
    }
    match word_at(words, 1) {
        Some(word) => match CommandName::of(word) {
            None => (Some(1), Cause::NoSuchCommand(CommandName::near(word))),
            Some(_) => (None, Cause::Other),
        },
        None => (None, Cause::Other),
    }
}

/// The word at fault of words that begin with no command, and why.
#[tactic(auto, unfolding(crate::specs::Causes::IsCauseBefore), using(crate::proofs::Causes::of_word, crate::proofs::Causes::of_none, crate::proofs::Causes::first_named))]
fn fault_without_command(words: &[String]) -> (Option<usize>, Cause)
    requires { command_in (map string_bytes words.now) ≡ None }
    ensures there { IfSome result.0 (λ at. at < length words.now) }
    ensures cause { HasCauseAt (map string_bytes words.now) None result.0 result.1 }
{
    match word_at(words, 0) {
        Some(word) => {
            if asks_help(word) {
                return help_fault(words);
            }
            (Some(0), Cause::NoSuchCommand(CommandName::near(word)))
        }
        None => (None, Cause::NoCommand),
    }
}

/// The word at fault of words that ask nothing of the program itself, and why.
fn fault_of(words: &[String], command: Option<CommandName>) -> (Option<usize>, Cause)
    requires { command ≡ command_in (map string_bytes words.now) }
    ensures there { IfSome result.0 (λ at. at < length words.now) }
    ensures cause { HasCauseAt (map string_bytes words.now) command result.0 result.1 }
{
    match command {
        Some(command) => fault_in(command, words),
        None => fault_without_command(words),
    }
}

/// The word at fault, and why; or what the words ask of the program itself.
#[tactic(auto, unfolding(crate::specs::Causes::HasCauseAt, crate::specs::Causes::IsCauseOfLine))]
fn fault_or_question(words: &[String], command: Option<CommandName>) -> (Option<usize>, Cause)
    requires { command ≡ command_in (map string_bytes words.now) }
    ensures there { IfSome result.0 (λ at. at < length words.now) }
    ensures cause { HasCauseAt (map string_bytes words.now) command result.0 result.1 }
{
    match question_in(words) {
        Some(Question::Version) => (None, Cause::Version),
        Some(Question::Help | Question::HelpOf(_)) => (None, Cause::Help),
        None => fault_of(words, command),
    }
}

/// The command that the words begin with.
fn command_in(words: &[String]) -> Option<CommandName>
    ensures { result ≡ command_in (map string_bytes words.now) }
{
    match words {
        [] => None,
        [word, ..] => CommandName::of(word.as_str()),
    }
}

/// Why the words are refused, if they are.
fn reason(words: &[String]) -> Refusal
    ensures there { IsThere result (length words.now) }
    ensures command { result.command ≡ command_in (map string_bytes words.now) }
    ensures cause { HasCause (map string_bytes words.now) result }
{
    let command = command_in(words);
    let (at, cause) = fault_or_question(words, command);
    Refusal { command, at, cause }
}

/// Why the words, without the program's name, are refused: a reason comes exactly if they ask for no command and not
/// for the daemon. The reason names the command that the words begin with, and a word only by its place among them. It is true: the
/// cause is one of that word, or of the whole line if no word is named. Which of several causes it names is free.
pub fn refused(alloc: Global, words: &[String]) -> Result<Option<Refusal>, NoMemory>
    ensures exact { IfOk result (λ reason. is_some reason ≡ not (is_asked (map string_bytes words.now))) }
    ensures there { IfOk result (λ reason. IfSome reason (λ r. IsThere r (length words.now))) }
    ensures command { IfOk result (λ reason. IfSome reason (λ r. r.command ≡ command_in (map string_bytes words.now))) }
    ensures cause { IfOk result (λ reason. IfSome reason (λ r. HasCause (map string_bytes words.now) r)) }
{
    let asks = is_asked(alloc, words)?;
    if asks {
        Ok(None)
    } else {
        Ok(Some(reason(words)))
    }
}
