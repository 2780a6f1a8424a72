ghost use Rattle.std.specs.Prelude.{◌≡◌};
ghost use Rattle.clap.specs.Words.{found_of, rows_of};
ghost use Rattle.gps_words.specs.Generate.{generate_in, seed_in, size_in};

use crate::CommandLine;
use crate::numbers::number_within;
use clap::ArgMatches;

/// What the made script's numbers begin with.
#[tactic(auto, using(crate::proofs::Given::first_of_rows))]
fn seed(matches: &ArgMatches) -> Option<u32>
    ensures { result ≡ seed_in (rows_of (found_of matches.now)) }
{
    number_within(matches.get_str("seed")?, 0, 4_294_967_295)
}

/// How many seconds the made script has.
#[tactic(auto, using(crate::proofs::Given::first_of_rows))]
fn size(matches: &ArgMatches) -> Option<u32>
    ensures { result ≡ size_in (rows_of (found_of matches.now)) }
{
    number_within(matches.get_str("size")?, 1, 10_000)
}

#[tactic(auto, unfolding(crate::specs::Generate::generate_in))]
pub(crate) fn generate_in(matches: &ArgMatches) -> Option<CommandLine>
    ensures { result ≡ generate_in (rows_of (found_of matches.now)) }
{
    let seed = seed(matches)?;
    let size = size(matches)?;
    Some(CommandLine::Generate { seed, size })
}
