ghost use Rattle.std.specs.Prelude.{◌≡◌, find};
ghost use Rattle.std.specs.Str.{bytes_eq};
ghost use Rattle.gps_help.specs.Options.{flag_of, is_served, option_named, options_of};
ghost use Rattle.gps_help.specs.Refusals.{command_named};

use crate::OptionName;
use crate::near::is_within;

/// A command, by its name.
#[derive(Clone, Copy, Debug, PartialEq, Eq)]
pub enum CommandName {
    Decode,
    Replay,
    Generate,
    Pseudo,
    Lines,
    Serve,
}

/// All commands, in the order of the usage line.
const COMMANDS: [CommandName; 6] = [
    CommandName::Decode,
    CommandName::Replay,
    CommandName::Generate,
    CommandName::Pseudo,
    CommandName::Lines,
    CommandName::Serve,
];

/// The option of these that is written so.
fn option_among(options: &[OptionName], flag: &str) -> Option<OptionName>
    ensures { result ≡ find (λ option. bytes_eq flag.now (flag_of option)) options.now }
{
    match options {
        [] => None,
        [option, rest @ ..] => {
            if flag == option.flag() {
                Some(*option)
            } else {
                option_among(rest, flag)
            }
        }
    }
}

impl CommandName {
    /// The command of this name.
    #[tactic(auto, unfolding(crate::specs::Refusals::command_named))]
    pub fn of(word: &str) -> Option<CommandName>
        ensures { result ≡ command_named word.now }
    {
        if word == "decode" {
            Some(CommandName::Decode)
        } else if word == "replay" {
            Some(CommandName::Replay)
        } else if word == "generate" {
            Some(CommandName::Generate)
        } else if word == "pseudo" {
            Some(CommandName::Pseudo)
        } else if word == "lines" {
            Some(CommandName::Lines)
        } else if word == "serve" {
            Some(CommandName::Serve)
        } else {
            None
        }
    }

    pub fn text(self) -> &'static str {
        match self {
            CommandName::Decode => "decode",
            CommandName::Replay => "replay",
            CommandName::Generate => "generate",
            CommandName::Pseudo => "pseudo",
            CommandName::Lines => "lines",
            CommandName::Serve => "serve",
        }
    }

    /// Whether the command takes device words.
    pub(crate) fn is_served(self) -> bool
        ensures { result ≡ is_served self }
    {
        match self {
            CommandName::Serve => true,
            CommandName::Decode
            | CommandName::Replay
            | CommandName::Generate
            | CommandName::Pseudo
            | CommandName::Lines => false,
        }
    }

    /// The options that the command has.
    pub fn options(self) -> &'static [OptionName]
        ensures { result.now ≡ options_of self }
    {
        match self {
            CommandName::Decode | CommandName::Pseudo => &[OptionName::Bytes],
            CommandName::Replay => &[OptionName::History, OptionName::Queue],
            CommandName::Generate => &[OptionName::Seed, OptionName::Size],
            CommandName::Lines => &[],
            CommandName::Serve => &[
                OptionName::Listen,
                OptionName::Queue,
                OptionName::Requests,
                OptionName::History,
                OptionName::Wait,
                OptionName::Monitor,
                OptionName::Reopen,
                OptionName::CycleGap,
                OptionName::Report,
                OptionName::Stop,
            ],
        }
    }

    /// The command's option that is written so, with its dashes.
    #[tactic(auto, unfolding(crate::specs::Options::option_named))]
    pub(crate) fn option(self, flag: &str) -> Option<OptionName>
        ensures { result ≡ option_named self flag.now }
    {
        option_among(self.options(), flag)
    }

    /// The command's option whose name is fewest edits away, at most two.
    pub(crate) fn option_near(self, name: &str) -> Option<OptionName> {
        for edits in 0..3u8 {
            for option in self.options() {
                if is_within(edits, name.as_bytes(), option.text().as_bytes()) {
                    return Some(*option);
                }
            }
        }
        None
    }

    /// The command whose name is fewest edits away, at most two.
    pub(crate) fn near(name: &str) -> Option<CommandName> {
        for edits in 0..3u8 {
            for command in COMMANDS {
                if is_within(edits, name.as_bytes(), command.text().as_bytes()) {
                    return Some(command);
                }
            }
        }
        None
    }
}
