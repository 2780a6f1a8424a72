ghost use Rattle.std.specs.Prelude.{◌≡◌, ◌≤◌, ◌+◌, ◌++◌, OnOk, length, take};
ghost use Rattle.json_line.specs.Json.{closing, fixed, member_if};
ghost use Rattle.json_line.specs.Lines.{position_members, tpv};

use crate::member::{place_fixed_if, place_member_of_fixed, push_number, push_text, push_time_if};
use crate::names::{Class, Key, push_head};
use crate::placing::place_byte;
use gps_fixed::{Bytes, NoMemory};
use gps_report::{Fix, Position};

/// As many bytes as the quantities of a fix have at most, and more.
const ROOM: usize = 400;

#[inline(always)]
#[tactic(auto, unfolding(crate::specs::Lines::position_members))]
fn place_position(room: &mut [u8], at: usize, position: Option<Position>) -> usize
    requires { at + 96 ≤ length room.old }
    ensures bytes { take result room.new ≡ take at room.old ++ position_members position }
    ensures room { length room.new ≡ length room.old }
    ensures end { result ≤ at + 96 }
{
    match position {
        Some(position) => {
            let behind = place_member_of_fixed(room, at, Key::Lat, position.lat, 9);
            place_member_of_fixed(room, behind, Key::Lon, position.lon, 9)
        }
        None => at,
    }
}

/// The numbers with decimals of a fix, and the end of its object.
#[inline(always)]
fn place_quantities(room: &mut [u8], fix: &Fix) -> usize
    requires { 400 ≤ length room.old }
    ensures bytes { take result room.new ≡ position_members fix.now.position
        ++ member_if Key.AltHae (fixed 3) fix.now.alt_hae
        ++ member_if Key.AltMsl (fixed 3) fix.now.alt_msl
        ++ member_if Key.GeoidSep (fixed 3) fix.now.geoid_sep
        ++ member_if Key.Track (fixed 4) fix.now.track
        ++ member_if Key.Speed (fixed 3) fix.now.speed
        ++ member_if Key.Climb (fixed 3) fix.now.climb
        ++ closing }
    ensures room { length room.new ≡ length room.old }
    ensures end { result ≤ 400 }
{
    let at = place_position(room, 0, fix.position);
    let at = place_fixed_if(room, at, Key::AltHae, fix.alt_hae, 3);
    let at = place_fixed_if(room, at, Key::AltMsl, fix.alt_msl, 3);
    let at = place_fixed_if(room, at, Key::GeoidSep, fix.geoid_sep, 3);
    let at = place_fixed_if(room, at, Key::Track, fix.track, 4);
    let at = place_fixed_if(room, at, Key::Speed, fix.speed, 3);
    let at = place_fixed_if(room, at, Key::Climb, fix.climb, 3);
    place_byte(room, at, b'}')
}

/// The quantities are made on the stack, so that the line is asked for room once.
#[tactic(auto, unfolding(crate::specs::Lines::tpv))]
pub fn push_tpv(out: &mut Bytes, device: &[u8], fix: &Fix) -> Result<(), NoMemory>
    ensures { OnOk result (out.new ≡ out.old ++ tpv device.now fix.now) }
{
    push_head(out, Class::Tpv)?;
    push_text(out, Key::Device, device)?;
    push_number(out, Key::Mode, u64::from(fix.mode))?;
    push_time_if(out, Key::Time, &fix.time)?;
    let mut room = [0u8; ROOM];
    let end = place_quantities(&mut room, fix);
    out.extend_from_slice(&room[..end])
}
