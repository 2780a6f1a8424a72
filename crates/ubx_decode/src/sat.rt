//! UBX-NAV-SAT: the satellites in view.

ghost use Rattle.std.specs.Prelude.{◌≡◌, ◌+◌, ◌*◌, ◌<◌, ◌≤◌, length, slice_index, IfOk, OnErr};
ghost use Rattle.ubx_decode.specs.Sat.{azimuth_of, elevation_of, sat_note, satellite_of, satellites_of};

use crate::fields::is_set;
use gps_fixed::{NoMemory, le_u16, le_u32};
use gps_report::{Note, NoteKind, Satellite, Sats, Tag};
use std::alloc::Global;

/// The bytes of one satellite.
const GROUP: usize = 12;

/// Degrees above the horizon, -90..=90.
#[tactic(auto, unfolding(crate::specs::Sat::elevation_of))]
fn elevation_of(degrees: i8) -> Option<i32>
    ensures { result ≡ elevation_of degrees }
{
    if degrees.unsigned_abs() <= 90 {
        Some(i32::from(degrees))
    } else {
        None
    }
}

/// Degrees from north, 0..=360.
#[tactic(auto, unfolding(crate::specs::Sat::azimuth_of))]
fn azimuth_of(degrees: i16) -> Option<u32>
    ensures { result ≡ azimuth_of degrees }
{
    if degrees >= 0 && degrees <= 360 {
        Some(u32::from(degrees.unsigned_abs()))
    } else {
        None
    }
}

/// The satellite of one group.
#[tactic(auto, unfolding(crate::specs::Sat::satellite_of))]
fn satellite_of(group: &[u8]) -> Satellite
    requires { length group.now ≡ 12 }
    ensures { result ≡ satellite_of group.now }
{
    let system = group[0];
    let id = group[1];
    Satellite {
        prn: u32::from(id) + 100 * u32::from(system),
        el: elevation_of(group[3].cast_signed()),
        az: azimuth_of(le_u16(group, 4).cast_signed()),
        ss: Some(u32::from(group[2])),
        used: is_set(group[8], 3),
        gnss: Some((system, u16::from(id))),
        signal: None,
    }
}

/// The satellites of the given number of groups.
#[tactic(auto, using(crate::proofs::Satellites::one_more), unfolding(crate::specs::Sat::satellites_of))]
fn satellites_of(alloc: Global, count: usize, groups: &[u8]) -> Result<Vec<Satellite>, NoMemory>
    requires { length groups.now ≡ 12 * count }
    ensures satellites { IfOk result (λ sats. sats.items ≡ satellites_of count groups.now) }
    ensures memory { OnErr result (0 < count) }
{
    let mut sats = Vec::with_capacity(alloc, count)?;
    for place in 0..count {
        let start = GROUP * place;
        sats.push(satellite_of(&groups[start..start + GROUP]))?;
    }
    Ok(sats)
}

/// The note of a NAV-SAT.
#[tactic(auto, unfolding(crate::specs::Sat::sat_note))]
pub(crate) fn sat_note(alloc: Global, payload: &[u8]) -> Result<Note, NoMemory>
    requires { length payload.now ≡ 8 + 12 * slice_index payload.now 5 }
    ensures note { IfOk result (λ note. note ≡ sat_note payload.now) }
    ensures memory { OnErr result (0 < slice_index payload.now 5) }
{
    let count = usize::from(payload[5]);
    let sats = satellites_of(alloc, count, &payload[8..])?;
    Ok(Note {
        tag: Some(Tag::Itow(le_u32(payload, 0))),
        sats: Sats::from_vec(sats),
        ..Note::empty(alloc, NoteKind::Sat)
    })
}
