ghost use Rattle.std.specs.Prelude.{◌≡◌, None, Some, IfOk, map, string_bytes};
ghost use Rattle.clap.specs.Simple.{app_of};
ghost use Rattle.clap.specs.Words.{found_of, rows_of};
ghost use Rattle.gps_words.specs.Asked.{asked_of, kind_named, read_as};
ghost use Rattle.gps_words.specs.Forms.{app_for, form_app, line_in};
ghost use Rattle.gps_words.specs.Within.{IsInRange};

use crate::decode::{decode_in, pseudo_in};
use crate::generate::generate_in;
use crate::options::{bare, matches_in, with_options};
use crate::replay::replay_in;
use crate::{CommandLine, WordsFault};
use clap::{ArgMatches, Command};
use std::alloc::{AllocError, Global};

/// The commands of a run.
#[derive(Clone, Copy)]
pub(crate) enum Kind {
    Decode,
    Pseudo,
    Replay,
    Generate,
    Lines,
}

/// A command's name and its options, each of which has a value.
#[derive(Clone, Copy)]
struct Form {
    name: &'static str,
    options: &'static [&'static str],
}

impl Form {
    fn command<'a>(self, alloc: Global) -> Result<Command<'a>, AllocError>
        ensures { IfOk result (λ command. app_of command ≡ form_app self.name.now (map (λ o. o.now) self.options.now)) }
    {
        with_options(bare(alloc, self.name), alloc, self.options)
    }
}

/// The command of this name.
#[tactic(auto, unfolding(crate::specs::Asked::kind_named))]
fn kind_named(word: &str) -> Option<Kind>
    ensures { result ≡ kind_named word.now }
{
    if word == "decode" {
        Some(Kind::Decode)
    } else if word == "pseudo" {
        Some(Kind::Pseudo)
    } else if word == "replay" {
        Some(Kind::Replay)
    } else if word == "generate" {
        Some(Kind::Generate)
    } else if word == "lines" {
        Some(Kind::Lines)
    } else {
        None
    }
}

impl Kind {
    #[tactic(auto, unfolding(crate::specs::Forms::app_for))]
    fn form(self) -> Form
        ensures { form_app result.name.now (map (λ o. o.now) result.options.now) ≡ app_for self }
    {
        match self {
            Kind::Decode => Form {
                name: "decode",
                options: &["history"],
            },
            Kind::Pseudo => Form {
                name: "pseudo",
                options: &["history"],
            },
            Kind::Replay => Form {
                name: "replay",
                options: &["history", "queue"],
            },
            Kind::Generate => Form {
                name: "generate",
                options: &["seed", "size"],
            },
            Kind::Lines => Form {
                name: "lines",
                options: &[],
            },
        }
    }

    /// What the values of its options ask for.
    #[tactic(auto, unfolding(crate::specs::Forms::line_in))]
    fn line_in(self, matches: &ArgMatches) -> Option<CommandLine>
        ensures { result ≡ line_in self (rows_of (found_of matches.now)) }
    {
        match self {
            Kind::Decode => decode_in(matches),
            Kind::Pseudo => pseudo_in(matches),
            Kind::Replay => replay_in(matches),
            Kind::Generate => generate_in(matches),
            Kind::Lines => Some(CommandLine::Lines),
        }
    }

    /// What the words ask for, its name among them.
    #[tactic(auto, using(crate::proofs::Readings::read_is, crate::proofs::Readings::read_refused))]
    fn read(self, alloc: Global, words: &[String]) -> Result<CommandLine, WordsFault>
        ensures ok { IfOk result (λ command. read_as (Some self) (map string_bytes words.now) ≡ Some command) }
        ensures refused { result ≡ Err WordsFault.Refused → read_as (Some self) (map string_bytes words.now) ≡ None }
    {
        let command = self.form().command(alloc)?;
        let matches = matches_in(command, words)?;
        let line = self.line_in(&matches).ok_or(WordsFault::Refused)?;
        Ok(line)
    }
}

/// What the words ask for, the command's name first.
fn read(alloc: Global, words: &[String]) -> Result<CommandLine, WordsFault>
    ensures ok { IfOk result (λ command. asked_of (map string_bytes words.now) ≡ Some command) }
    ensures refused { result ≡ Err WordsFault.Refused → asked_of (map string_bytes words.now) ≡ None }
{
    match words {
        [] => Err(WordsFault::Refused),
        [word, ..] => match kind_named(word.as_str()) {
            Some(kind) => kind.read(alloc, words),
            None => Err(WordsFault::Refused),
        },
    }
}

/// The command that the words ask for. `Refused` comes exactly if there is none.
#[tactic(auto, using(crate::proofs::CommandRanges::in_range))]
pub fn asked(alloc: Global, words: &[String]) -> Result<CommandLine, WordsFault>
    ensures ok { IfOk result (λ command. asked_of (map string_bytes words.now) ≡ Some command) }
    ensures range { IfOk result (λ command. IsInRange command) }
    ensures refused { result ≡ Err WordsFault.Refused → asked_of (map string_bytes words.now) ≡ None }
{
    let command = read(alloc, words)?;
    Ok(command)
}
