ghost use Rattle.std.specs.Prelude.{◌≡◌, ◌<◌, ◌≤◌, ◌++◌, ◌/◌, IfOk, IfSome, OnOk, OnErr, length};
ghost use Rattle.std.specs.Option.{option_to_list};
ghost use Rattle.nmea_frame.specs.Sentence.{hex_value};
ghost use Rattle.nmea_decode.specs.Fields.{field_count, skipped};
ghost use Rattle.nmea_decode.specs.Satellites.{ids_in, satellite_of, satellites_in, satellites_of, signal_in, signal_of};

use crate::fields::{count, next, skip};
use crate::readings::{next_azimuth, next_elevation, next_id, next_strength};
use gps_fixed::NoMemory;
use gps_report::{Satellite, Sats};
use std::alloc::Global;

/// How many ids a GSA has room for.
const MOST_IDS: usize = 12;

/// The satellite of a group of four fields, if its id is readable, and the text after the group.
#[tactic(auto, unfolding(crate::specs::Satellites::satellite_of))]
fn satellite(text: &[u8], system: Option<u8>, signal: Option<u8>) -> (Option<Satellite>, &[u8])
    ensures satellite { result.0 ≡ satellite_of system signal text.now }
    ensures behind { result.1.now ≡ skipped 4 text.now }
{
    let (id, text) = next_id(text);
    let (el, text) = next_elevation(text);
    let (az, text) = next_azimuth(text);
    let (ss, text) = next_strength(text);
    let satellite = match id {
        Some(prn) => Some(Satellite {
            prn,
            el,
            az,
            ss,
            used: false,
            gnss: match system {
                Some(system) => Some((system, prn as u16)),
                None => None,
            },
            signal,
        }),
        None => None,
    };
    (satellite, text)
}

fn push_some(sats: &mut Vec<Satellite>, satellite: Option<Satellite>) -> Result<(), NoMemory>
    ensures { OnOk result (sats.new.items ≡ sats.old.items ++ option_to_list satellite) }
{
    if let Some(satellite) = satellite {
        sats.push(satellite)?;
    }
    Ok(())
}

#[tactic(auto, using(crate::proofs::Walks::groups_turn, crate::proofs::Walks::groups_all))]
fn satellites_of_groups(
    alloc: Global,
    text: &[u8],
    groups: usize,
    system: Option<u8>,
    signal: Option<u8>,
) -> Result<Vec<Satellite>, NoMemory>
    ensures satellites { IfOk result (λ sats. sats.items ≡ satellites_in groups system signal text.now) }
    ensures memory { OnErr result (0 < groups) }
{
    let mut sats = Vec::with_capacity(alloc, groups)?;
    let mut rest = text;
    let mut left = groups;
    'groups: while left > 0 {
        let (satellite, behind) = satellite(rest, system, signal);
        push_some(&mut sats, satellite)?;
        rest = behind;
        left -= 1;
    }
    Ok(sats)
}

fn hex_digit(digit: u8) -> Option<u8>
    ensures { result ≡ hex_value digit }
{
    match digit {
        b'0'..=b'9' => Some(digit - b'0'),
        b'A'..=b'F' => Some(digit - b'A' + 10),
        b'a'..=b'f' => Some(digit - b'a' + 10),
        _ => None,
    }
}

fn signal_id(field: &[u8]) -> Option<u8>
    ensures { result ≡ signal_in field.now }
{
    match field {
        [digit] => hex_digit(*digit),
        _ => None,
    }
}

#[tactic(auto, unfolding(crate::specs::Satellites::signal_of))]
fn signal(text: &[u8], fields: usize) -> Option<u8>
    requires { fields ≡ field_count text.now }
    ensures { result ≡ signal_of text.now }
{
    if fields % 4 == 1 {
        let (last, _) = next(skip(text, fields / 4 * 4));
        signal_id(last)
    } else {
        None
    }
}

/// The satellites of a GSV, from the fields after its first three.
#[tactic(auto, unfolding(crate::specs::Satellites::satellites_of))]
pub(crate) fn satellites(alloc: Global, text: &[u8], system: Option<u8>) -> Result<Sats, NoMemory>
    ensures satellites { IfOk result (λ sats. sats ≡ satellites_of system text.now) }
    ensures memory { OnErr result (0 < field_count text.now / 4) }
{
    let fields = count(text);
    let sats = satellites_of_groups(alloc, text, fields / 4, system, signal(text, fields))?;
    Ok(Sats::from_vec(sats))
}

/// Adds an id at the end. The first one allocates room for all that a sentence may have.
fn push_id(ids: &mut Vec<u32>, id: Option<u32>) -> Result<(), NoMemory>
    ensures ids { OnOk result (ids.new.items ≡ ids.old.items ++ option_to_list id) }
    ensures memory { OnErr result (0 < length (option_to_list id)) }
{
    if let Some(id) = id {
        if ids.is_empty() {
            ids.reserve(MOST_IDS)?;
        }
        ids.push(id)?;
    }
    Ok(())
}

/// Adds the readable ids of the first fields, and returns the text after these.
pub(crate) fn push_ids<'a>(
    ids: &mut Vec<u32>,
    text: &'a [u8],
    fields: usize,
) -> Result<&'a [u8], NoMemory>
    ensures ids { OnOk result (ids.new.items ≡ ids.old.items ++ ids_in fields text.now) }
    ensures behind { IfOk result (λ rest. rest.now ≡ skipped fields text.now) }
    ensures memory { OnErr result (0 < length (ids.old.items ++ ids_in fields text.now)) }
{
    let mut rest = text;
    let mut left = fields;
    'fields: while left > 0 {
        let (id, behind) = next_id(rest);
        push_id(ids, id)?;
        rest = behind;
        left -= 1;
    }
    Ok(rest)
}
