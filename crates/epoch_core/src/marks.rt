//! Which satellites of an epoch are used: by their own word, or by an id that a GSA calls used.

ghost use Rattle.std.specs.Prelude.{◌≡◌, true, is_none, ◌||◌, ◌&&◌, nat_eq, map, IfOk};
ghost use Rattle.std.specs.List.{list_all, list_any};
ghost use Rattle.gps_report.specs.Fits.{is_named_system as named_system_number, is_id as id_of_sentence, where_given};
ghost use Rattle.epoch_core.specs.Satellites.{is_used as used_by, marked as marked_by, speaks_of as speaks, used_id_by, same_used_id, same_number as same_numbers};
ghost use Rattle.epoch_core.specs.Tidy.{is_used_id};

use crate::once::{Keyed, Once};
use crate::running::system_of;
use crate::used_id::UsedId;
use gps_fixed::NoMemory;
use gps_report::{BEIDOU, GALILEO, GLONASS, GPS, Satellite};
use std::alloc::Global;

/// If both name a system, it is the same.
fn agree(one: Option<u8>, other: Option<u8>) -> bool
    ensures { result ≡ (is_none one || is_none other || same_numbers one other) }
{
    match (one, other) {
        (Some(one), Some(other)) => one == other,
        _ => true,
    }
}

/// The id is the satellite's, and if both name a system, it is the same.
fn speaks_of(satellite: &Satellite, used_id: &UsedId) -> bool
    ensures { result ≡ speaks satellite.now used_id.now }
{
    used_id.id == satellite.prn && agree(used_id.system, system_of(satellite))
}

fn is_named_used(satellite: &Satellite, used_ids: &[UsedId]) -> bool
    ensures { result ≡ list_any (speaks satellite.now) used_ids.now }
{
    used_ids.iter().any(|a| speaks_of(satellite, a))
}

fn is_used(satellite: &Satellite, used_ids: &[UsedId]) -> bool
    ensures { result ≡ used_by used_ids.now satellite.now }
{
    satellite.used || is_named_used(satellite, used_ids)
}

/// A satellite of the sky, with its mark.
#[tactic(auto, unfolding(crate::specs::Satellites::marked))]
fn marked(satellite: &Satellite, used_ids: &[UsedId]) -> Satellite
    ensures { result ≡ marked_by used_ids.now satellite.now }
{
    Satellite {
        used: is_used(satellite, used_ids),
        ..*satellite
    }
}

pub fn all_marked(
    alloc: Global,
    satellites: &[Satellite],
    used_ids: &[UsedId],
) -> Result<Vec<Satellite>, NoMemory>
    ensures { IfOk result (λ v. v.items ≡ map (marked_by used_ids.now) satellites.now) }
{
    let all = satellites
        .iter()
        .map(|s| marked(s, used_ids))
        .collect(alloc)?;
    Ok(all)
}

fn is_named_system(system: u8) -> bool
    ensures { result ≡ named_system_number system }
{
    matches!(system, GPS | GALILEO | BEIDOU | GLONASS)
}

fn is_id(id: u32) -> bool
    ensures { result ≡ id_of_sentence id }
{
    1 <= id && id <= 999
}

/// Whether this id is called used with this system, or without one.
#[tactic(auto, using(crate::proofs::Naming::id_is_there, crate::proofs::Naming::no_such_id))]
fn has_id(used_ids: &Once<UsedId>, id: u32, system: Option<u8>) -> bool
    requires kept { list_all is_used_id used_ids.now ≡ true }
    requires named { where_given named_system_number system ≡ true }
    ensures { result ≡ list_any (λ a. same_used_id a (used_id_by system id)) used_ids.now }
{
    if is_id(id) {
        let key = UsedId { id, system }.key();
        used_ids.has(key)
    } else {
        false
    }
}

fn either(one: bool, other: bool) -> bool
    ensures { result ≡ (one || other) }
{
    one || other
}

/// Whether an id says that the satellite of this number and this system is used, by the ids' keys.
#[tactic(auto, using(crate::proofs::Naming::by_named, crate::proofs::Naming::by_unnamed, crate::proofs::Naming::by_number))]
fn has_name(used_ids: &Once<UsedId>, id: u32, system: Option<u8>) -> bool
    requires { list_all is_used_id used_ids.now ≡ true }
    ensures { result ≡ list_any (λ a. nat_eq a.id id && (is_none a.system || is_none system || same_numbers a.system system)) used_ids.now }
{
    let without = has_id(used_ids, id, None);
    match system {
        Some(system) => {
            if is_named_system(system) {
                either(without, has_id(used_ids, id, Some(system)))
            } else {
                without
            }
        }
        None => either(
            without,
            either(
                either(
                    has_id(used_ids, id, Some(GPS)),
                    has_id(used_ids, id, Some(GALILEO)),
                ),
                either(
                    has_id(used_ids, id, Some(BEIDOU)),
                    has_id(used_ids, id, Some(GLONASS)),
                ),
            ),
        ),
    }
}

/// As [`is_named_used`], for many ids: not each is looked at for each satellite.
fn has_name_of(used_ids: &Once<UsedId>, satellite: &Satellite) -> bool
    requires { list_all is_used_id used_ids.now ≡ true }
    ensures { result ≡ list_any (speaks satellite.now) used_ids.now }
{
    has_name(used_ids, satellite.prn, system_of(satellite))
}

#[tactic(auto, unfolding(crate::specs::Satellites::marked))]
fn marked_by_key(satellite: &Satellite, used_ids: &Once<UsedId>) -> Satellite
    requires { list_all is_used_id used_ids.now ≡ true }
    ensures { result ≡ marked_by used_ids.now satellite.now }
{
    Satellite {
        used: satellite.used || has_name_of(used_ids, satellite),
        ..*satellite
    }
}

/// Up to this number of ids are searched one by one.
const FEW_IDS: usize = 64;

/// The satellites of the sky, each with its mark.
pub fn sky_sats(
    alloc: Global,
    satellites: &[Satellite],
    used_ids: &Once<UsedId>,
) -> Result<Vec<Satellite>, NoMemory>
    requires { list_all is_used_id used_ids.now ≡ true }
    ensures { IfOk result (λ v. v.items ≡ map (marked_by used_ids.now) satellites.now) }
{
    if used_ids.len() <= FEW_IDS {
        return all_marked(alloc, satellites, used_ids.as_slice());
    }
    let all = satellites
        .iter()
        .map(|s| marked_by_key(s, used_ids))
        .collect(alloc)?;
    Ok(all)
}
