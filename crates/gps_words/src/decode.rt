ghost use Rattle.std.specs.Prelude.{◌≡◌};
ghost use Rattle.clap.specs.Words.{found_of, rows_of};
ghost use Rattle.gps_words.specs.Decode.{bytes_in, bytes_within, decode_in};
ghost use Rattle.gps_words.specs.Pseudo.{pseudo_in};

use crate::CommandLine;
use crate::numbers::number_within;
use clap::ArgMatches;

/// How many bytes a text allows: `all` is 2^63 - 1 of them, which no input has, and a number is one from 1 to 33,554,432.
#[tactic(auto, unfolding(crate::specs::Decode::bytes_within))]
pub fn bytes_within(text: &str) -> Option<u64>
    ensures { result ≡ bytes_within text.now }
{
    if text == "all" {
        return Some(9_223_372_036_854_775_807);
    }
    match number_within(text, 1, 33_554_432) {
        Some(n) => Some(u64::from(n)),
        None => None,
    }
}

/// How many bytes are read at most.
#[tactic(auto, using(crate::proofs::Given::first_of_rows))]
fn bytes(matches: &ArgMatches) -> Option<u64>
    ensures { result ≡ bytes_in (rows_of (found_of matches.now)) }
{
    match matches.get_str("history") {
        Some(text) => bytes_within(text),
        None => Some(16_777_216),
    }
}

pub(crate) fn decode_in(matches: &ArgMatches) -> Option<CommandLine>
    ensures { result ≡ decode_in (rows_of (found_of matches.now)) }
{
    let history = bytes(matches)?;
    Some(CommandLine::Decode { history })
}

pub(crate) fn pseudo_in(matches: &ArgMatches) -> Option<CommandLine>
    ensures { result ≡ pseudo_in (rows_of (found_of matches.now)) }
{
    let history = bytes(matches)?;
    Some(CommandLine::Pseudo { history })
}
