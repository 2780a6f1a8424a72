ghost use Rattle.std.specs.Prelude.{◌≡◌, ◌≤◌, ◌+◌, ◌++◌, IfOk, OnOk, count_by, length, take};
ghost use Rattle.std.specs.Fmt.{decimal};
ghost use Rattle.json_line.specs.Json.{array, behind_commas, member, member_if, separated, truth};
ghost use Rattle.json_line.specs.Lines.{gnss_members, satellite, sky};
ghost use Rattle.json_line.specs.Names.{satellite_head};

use crate::member::{push_hundredths_if, push_number, push_text, push_time_if};
use crate::names::{Class, Key, push_head, push_label};
use crate::placing::{place_byte, place_bytes, place_number, place_number_if, place_signed_if};
use gps_fixed::{Bytes, NoMemory};
use gps_report::{Satellite, Sky};

/// As many bytes of satellites are made before they are added to the line, at most.
const ROOM: usize = 1_024;

/// A comma and the object of a satellite have at most as many bytes.
const NEXT: usize = 164;

#[inline(always)]
#[tactic(auto, unfolding(crate::specs::Names::satellite_head))]
fn place_number_of_satellite(room: &mut [u8], at: usize, prn: u32) -> usize
    requires { at + 17 ≤ length room.old }
    ensures bytes { take result room.new ≡ take at room.old ++ (satellite_head ++ decimal prn) }
    ensures room { length room.new ≡ length room.old }
    ensures end { result ≤ at + 17 }
{
    let behind = place_bytes(room, at, *b"{\"PRN\":");
    place_number(room, behind, prn)
}

#[inline(always)]
#[tactic(auto, unfolding(crate::specs::Json::member, crate::specs::Json::truth, crate::specs::Names::label_of))]
fn place_used(room: &mut [u8], at: usize, used: bool) -> usize
    requires { at + 13 ≤ length room.old }
    ensures bytes { take result room.new ≡ take at room.old ++ member Key.Used (truth used) }
    ensures room { length room.new ≡ length room.old }
    ensures end { result ≤ at + 13 }
{
    if used {
        place_bytes(room, at, *b",\"used\":true")
    } else {
        place_bytes(room, at, *b",\"used\":false")
    }
}

#[inline(always)]
#[tactic(auto, unfolding(crate::specs::Lines::gnss_members, crate::specs::Json::member, crate::specs::Json::member_if, crate::specs::Names::label_of))]
fn place_gnss(room: &mut [u8], at: usize, gnss: Option<(u8, u16)>) -> usize
    requires { at + 40 ≤ length room.old }
    ensures bytes { take result room.new ≡ take at room.old ++ gnss_members gnss }
    ensures room { length room.new ≡ length room.old }
    ensures end { result ≤ at + 40 }
{
    match gnss {
        Some((system, id)) => {
            let behind = place_number_if(room, at, Key::Gnssid, Some(u32::from(system)));
            place_number_if(room, behind, Key::Svid, Some(u32::from(id)))
        }
        None => at,
    }
}

#[inline(always)]
#[tactic(auto, unfolding(crate::specs::Names::label_of))]
fn place_signal(room: &mut [u8], at: usize, signal: Option<u8>) -> usize
    requires { at + 20 ≤ length room.old }
    ensures bytes { take result room.new ≡ take at room.old ++ member_if Key.Sigid decimal signal }
    ensures room { length room.new ≡ length room.old }
    ensures end { result ≤ at + 20 }
{
    let signal = match signal {
        Some(signal) => Some(u32::from(signal)),
        None => None,
    };
    place_number_if(room, at, Key::Sigid, signal)
}

#[inline(always)]
#[tactic(auto, unfolding(crate::specs::Lines::satellite, crate::specs::Names::label_of))]
fn place_satellite(room: &mut [u8], at: usize, s: &Satellite) -> usize
    requires { at + 160 ≤ length room.old }
    ensures bytes { take result room.new ≡ take at room.old ++ satellite s.now }
    ensures room { length room.new ≡ length room.old }
    ensures end { result ≤ at + 160 }
{
    let at = place_number_of_satellite(room, at, s.prn);
    let at = place_signed_if(room, at, Key::El, s.el);
    let at = place_number_if(room, at, Key::Az, s.az);
    let at = place_number_if(room, at, Key::Ss, s.ss);
    let at = place_used(room, at, s.used);
    let at = place_gnss(room, at, s.gnss);
    let at = place_signal(room, at, s.signal);
    place_byte(room, at, b'}')
}

/// The place of a further satellite: where the last one ends, or, if there is too little room behind it, the beginning, once what is
/// made is in the line.
#[inline(always)]
fn next_place(out: &mut Bytes, room: &[u8], end: usize) -> Result<usize, NoMemory>
    requires { end ≤ length room.now }
    ensures bytes { IfOk result (λ at. out.new ++ take at room.now ≡ out.old ++ take end room.now) }
    ensures room { IfOk result (λ at. at ≤ 860) }
{
    if end <= ROOM - NEXT {
        return Ok(end);
    }
    out.extend_from_slice(&room[..end])?;
    Ok(0)
}

/// Adds what is made in the room, and further satellites, each after a comma.
#[tactic(auto, unfolding(crate::specs::Json::behind_commas), using(crate::proofs::Rooms::one_more))]
fn push_further(
    out: &mut Bytes,
    room: &mut [u8],
    made: usize,
    further: &[Satellite],
) -> Result<(), NoMemory>
    requires room { length room.old ≡ 1_024 }
    requires made { made ≤ 1_024 }
    ensures { OnOk result (out.new ≡ (out.old ++ take made room.old) ++ behind_commas satellite further.now) }
{
    let mut end = made;
    for s in further {
        let at = next_place(out, room, end)?;
        let behind = place_byte(room, at, b',');
        end = place_satellite(room, behind, s);
    }
    out.extend_from_slice(&room[..end])
}

/// Satellites are made in a room on the stack, so that neither they nor their members ask the line for room one by one.
#[inline(never)]
#[tactic(auto, unfolding(crate::specs::Json::separated))]
fn push_objects(out: &mut Bytes, satellites: &[Satellite]) -> Result<(), NoMemory>
    ensures { OnOk result (out.new ≡ out.old ++ separated satellite satellites.now) }
{
    match satellites {
        [] => Ok(()),
        [first, further @ ..] => {
            let mut room = [0u8; ROOM];
            let made = place_satellite(&mut room, 0, first);
            push_further(out, &mut room, made, further)
        }
    }
}

#[tactic(auto, unfolding(crate::specs::Json::member, crate::specs::Json::array))]
fn push_satellites(out: &mut Bytes, satellites: &[Satellite]) -> Result<(), NoMemory>
    ensures { OnOk result (out.new ≡ out.old ++ member Key.Satellites (array satellite satellites.now)) }
{
    push_label(out, Key::Satellites)?;
    out.push(b'[')?;
    push_objects(out, satellites)?;
    out.push(b']')
}

fn count_used(satellites: &[Satellite]) -> usize
    ensures { result ≡ count_by (λ s. s.used) satellites.now }
{
    satellites.iter().filter(|s| s.used).count()
}

#[tactic(auto, unfolding(crate::specs::Lines::sky))]
pub fn push_sky(out: &mut Bytes, device: &[u8], s: &Sky) -> Result<(), NoMemory>
    ensures { OnOk result (out.new ≡ out.old ++ sky device.now s.now) }
{
    let satellites = s.sats.as_slice();
    push_head(out, Class::Sky)?;
    push_text(out, Key::Device, device)?;
    push_time_if(out, Key::Time, &s.time)?;
    push_hundredths_if(out, Key::Pdop, s.pdop)?;
    push_hundredths_if(out, Key::Hdop, s.hdop)?;
    push_hundredths_if(out, Key::Vdop, s.vdop)?;
    push_number(out, Key::NSat, satellites.len() as u64)?;
    push_number(out, Key::USat, count_used(satellites) as u64)?;
    push_satellites(out, satellites)?;
    out.push(b'}')?;
    Ok(())
}
