ghost use Rattle.std.specs.Prelude.{◌≡◌};
ghost use Rattle.clap.specs.Words.{found_of, rows_of};
ghost use Rattle.gps_words.specs.Replay.{history_in, queue_in, replay_in};

use crate::CommandLine;
use crate::numbers::number_given;
use clap::ArgMatches;

/// How many symbols a generation of the history has at most.
#[tactic(auto, using(crate::proofs::Given::first_of_rows))]
pub(crate) fn history(matches: &ArgMatches) -> Option<u32>
    ensures { result ≡ history_in (rows_of (found_of matches.now)) }
{
    number_given(matches.get_str("history"), 16_777_216, 1, 33_554_432)
}

/// How many items the outlet of a session keeps at most.
#[tactic(auto, using(crate::proofs::Given::first_of_rows))]
pub(crate) fn queue(matches: &ArgMatches) -> Option<u32>
    ensures { result ≡ queue_in (rows_of (found_of matches.now)) }
{
    number_given(matches.get_str("queue"), 4_096, 1, 65_536)
}

#[tactic(auto, unfolding(crate::specs::Replay::replay_in))]
pub(crate) fn replay_in(matches: &ArgMatches) -> Option<CommandLine>
    ensures { result ≡ replay_in (rows_of (found_of matches.now)) }
{
    let history = history(matches)?;
    let queue = queue(matches)?;
    Some(CommandLine::Replay { history, queue })
}
