ghost use Rattle.std.specs.Prelude.{◌≡◌};
ghost use Rattle.epoch_core.specs.Fixes.{fix_of as fix_made, has_no_fix as no_fix, mode_of as mode_made, bare_fix as bare_made, flat_fix as flat_made, whole_fix as whole_made};

use crate::said::Said;
use gps_report::Fix;

#[tactic(auto, unfolding(crate::specs::Fixes::has_no_fix))]
fn has_no_fix(said: &Said) -> bool
    ensures { result ≡ no_fix said.now }
{
    said.position.is_none() || said.status == Some(false) || said.dim == Some(1)
}

/// 1 without a position or if the receiver denies a fix; else what was said, or what the heights show.
#[tactic(auto, unfolding(crate::specs::Fixes::mode_of))]
fn mode_of(said: &Said) -> u8
    ensures { result ≡ mode_made said.now }
{
    if has_no_fix(said) {
        return 1;
    }
    let shown = if said.alt_msl.is_some() || said.alt_hae.is_some() {
        3
    } else {
        2
    };
    said.dim.unwrap_or(shown)
}

/// Mode 1: the time alone.
fn bare_fix(said: &Said) -> Fix
    ensures { result ≡ bare_made said.now }
{
    Fix {
        mode: 1,
        time: said.time,
        position: None,
        alt_hae: None,
        alt_msl: None,
        geoid_sep: None,
        track: None,
        speed: None,
        climb: None,
    }
}

/// Mode 2: no heights and no climb.
fn flat_fix(said: &Said) -> Fix
    ensures { result ≡ flat_made said.now }
{
    Fix {
        mode: 2,
        position: said.position,
        track: said.track,
        speed: said.speed,
        ..bare_fix(said)
    }
}

/// The Fix that an epoch's quantities make.
#[tactic(auto, unfolding(crate::specs::Fixes::fix_of))]
pub fn fix_of(said: &Said) -> Fix
    ensures { result ≡ fix_made said.now }
{
    match mode_of(said) {
        1 => bare_fix(said),
        2 => flat_fix(said),
        mode => Fix {
            mode,
            alt_hae: said.alt_hae,
            alt_msl: said.alt_msl,
            geoid_sep: said.geoid_sep,
            climb: said.climb,
            ..flat_fix(said)
        },
    }
}
