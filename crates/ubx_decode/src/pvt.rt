//! UBX-NAV-PVT: time, position and velocity.

ghost use Rattle.std.specs.Prelude.{◌≡◌, length};
ghost use Rattle.std.specs.Option.{option_map};
ghost use Rattle.ubx_decode.specs.Pvt.{in_fix, pvt_note};

use crate::motion::{climb, height, mode_of, position, separation, speed, track};
use crate::time::{DayTime, time_of};
use gps_fixed::{le_u16, le_u32};
use gps_report::{Note, NoteKind, Tag};
use std::alloc::Global;

/// The note of a NAV-PVT. Takes no memory.
#[tactic(auto, unfolding(crate::specs::Pvt::pvt_note))]
pub(crate) fn pvt_note(alloc: Global, payload: &[u8]) -> Note
    requires { length payload.now ≡ 92 }
    ensures { result ≡ pvt_note payload.now }
{
    let time = time_of(payload);
    let mode = mode_of(payload[20], payload[21]);
    Note {
        tag: Some(Tag::Itow(le_u32(payload, 0))),
        tod: tod_in(time),
        day: day_in(time),
        status: Some(mode != 1),
        dim: Some(mode),
        position: in_fix(mode, position(payload)),
        alt_hae: in_fix(mode, height(payload, 32)),
        alt_msl: in_fix(mode, height(payload, 36)),
        geoid_sep: in_fix(mode, separation(payload)),
        track: in_fix(mode, track(payload)),
        speed: in_fix(mode, speed(payload)),
        climb: in_fix(mode, climb(payload)),
        pdop: Some(u32::from(le_u16(payload, 76))),
        ..Note::empty(alloc, NoteKind::Pvt)
    }
}

/// A quantity that a receiver without a fix does not give.
fn in_fix<T: Copy>(mode: u8, quantity: Option<T>) -> Option<T>
    ensures { result ≡ in_fix mode quantity }
{
    if mode == 1 { None } else { quantity }
}

fn tod_in(time: Option<DayTime>) -> Option<u64>
    ensures { result ≡ option_map (λ t. t.tod) time }
{
    time.map(|time| time.tod)
}

fn day_in(time: Option<DayTime>) -> Option<i32>
    ensures { result ≡ option_map (λ t. t.day) time }
{
    time.map(|time| time.day)
}
