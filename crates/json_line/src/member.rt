ghost use Rattle.std.specs.Prelude.{◌≡◌, ◌≤◌, ◌+◌, ◌++◌, OnOk, length, take};
ghost use Rattle.std.specs.Fmt.{decimal};
ghost use Rattle.gps_fixed.specs.Text.{iso_of};
ghost use Rattle.json_line.specs.Json.{fixed, hundredths, member, member_if, quoted, time, truth};
ghost use Rattle.json_line.specs.Lines.{seconds};

use crate::names::{Key, push_label};
use crate::placing::{place_label, place_scaled, place_whole};
use gps_fixed::{Bytes, NoMemory, Stamp, push_decimal, push_iso};
use gps_report::Name;

/// A whole number. It stays a call, so that the code of each member is short.
#[inline(never)]
fn push_whole(out: &mut Bytes, value: u64) -> Result<(), NoMemory>
    ensures { OnOk result (out.new ≡ out.old ++ decimal value) }
{
    push_decimal(out, value)
}

/// A text in quotes.
#[tactic(auto, unfolding(crate::specs::Json::member, crate::specs::Json::quoted))]
pub fn push_text(out: &mut Bytes, key: Key, text: &[u8]) -> Result<(), NoMemory>
    ensures { OnOk result (out.new ≡ out.old ++ member key (quoted text.now)) }
{
    push_label(out, key)?;
    out.push(b'"')?;
    out.extend_from_slice(text)?;
    out.push(b'"')
}

/// A text in quotes, if there is one.
#[tactic(auto, unfolding(crate::specs::Json::member_if, crate::specs::Json::quoted))]
pub fn push_name_if(out: &mut Bytes, key: Key, name: &Option<Name>) -> Result<(), NoMemory>
    ensures { OnOk result (out.new ≡ out.old ++ member_if key quoted name.now) }
{
    match name {
        Some(name) => {
            push_label(out, key)?;
            out.push(b'"')?;
            out.extend_from_slice(name.as_slice())?;
            out.push(b'"')
        }
        None => Ok(()),
    }
}

#[tactic(auto, unfolding(crate::specs::Json::member, crate::specs::Json::truth))]
pub fn push_truth(out: &mut Bytes, key: Key, value: bool) -> Result<(), NoMemory>
    ensures { OnOk result (out.new ≡ out.old ++ member key (truth value)) }
{
    push_label(out, key)?;
    if value {
        out.extend_from_slice(b"true")
    } else {
        out.extend_from_slice(b"false")
    }
}

/// Room for a label and a number, and more. They are put together on the stack, so that a member allocates once.
const ROOM: usize = 48;

/// A whole number.
#[inline(always)]
#[tactic(auto, unfolding(crate::specs::Json::member), using(crate::proofs::Labels::is_short))]
pub fn place_member_of_whole(room: &mut [u8], at: usize, key: Key, value: u64) -> usize
    requires { at + 48 ≤ length room.old }
    ensures bytes { take result room.new ≡ take at room.old ++ member key (decimal value) }
    ensures room { length room.new ≡ length room.old }
    ensures end { result ≤ at + 48 }
{
    let behind = place_label(room, at, key);
    place_whole(room, behind, value)
}

#[inline(always)]
pub fn push_number(out: &mut Bytes, key: Key, value: u64) -> Result<(), NoMemory>
    ensures { OnOk result (out.new ≡ out.old ++ member key (decimal value)) }
{
    let mut room = [0u8; ROOM];
    let end = place_member_of_whole(&mut room, 0, key, value);
    out.extend_from_slice(&room[..end])
}

/// The whole seconds of a stamp.
#[tactic(auto, unfolding(crate::specs::Json::member, crate::specs::Lines::seconds))]
pub fn push_seconds(out: &mut Bytes, key: Key, at: Stamp) -> Result<(), NoMemory>
    ensures { OnOk result (out.new ≡ out.old ++ member key (seconds at)) }
{
    push_label(out, key)?;
    push_whole(out, at.sec.unsigned_abs())
}

/// A number with decimals.
#[inline(always)]
#[tactic(auto, unfolding(crate::specs::Json::member, crate::specs::Json::fixed), using(crate::proofs::Labels::is_short))]
pub fn place_member_of_fixed(
    room: &mut [u8],
    at: usize,
    key: Key,
    value: i64,
    decimals: u8,
) -> usize
    requires few { decimals ≤ 9 }
    requires room { at + 48 ≤ length room.old }
    ensures bytes { take result room.new ≡ take at room.old ++ member key (fixed decimals value) }
    ensures room { length room.new ≡ length room.old }
    ensures end { result ≤ at + 48 }
{
    let behind = place_label(room, at, key);
    place_scaled(room, behind, value, decimals)
}

/// A number with decimals, if there is one.
#[inline(always)]
#[tactic(auto, unfolding(crate::specs::Json::member_if, crate::specs::Json::member))]
pub fn place_fixed_if(
    room: &mut [u8],
    at: usize,
    key: Key,
    value: Option<i64>,
    decimals: u8,
) -> usize
    requires few { decimals ≤ 9 }
    requires room { at + 48 ≤ length room.old }
    ensures bytes { take result room.new ≡ take at room.old ++ member_if key (fixed decimals) value }
    ensures room { length room.new ≡ length room.old }
    ensures end { result ≤ at + 48 }
{
    match value {
        Some(value) => place_member_of_fixed(room, at, key, value, decimals),
        None => at,
    }
}

#[inline(always)]
fn push_fixed(out: &mut Bytes, key: Key, value: i64, decimals: u8) -> Result<(), NoMemory>
    requires { decimals ≤ 9 }
    ensures { OnOk result (out.new ≡ out.old ++ member key (fixed decimals value)) }
{
    let mut room = [0u8; ROOM];
    let end = place_member_of_fixed(&mut room, 0, key, value, decimals);
    out.extend_from_slice(&room[..end])
}

/// Hundredths with two decimals, if there are some.
#[tactic(auto, unfolding(crate::specs::Json::member_if, crate::specs::Json::member, crate::specs::Json::fixed, crate::specs::Json::hundredths))]
pub fn push_hundredths_if(out: &mut Bytes, key: Key, value: Option<u32>) -> Result<(), NoMemory>
    ensures { OnOk result (out.new ≡ out.old ++ member_if key hundredths value) }
{
    match value {
        Some(value) => push_fixed(out, key, i64::from(value), 2),
        None => Ok(()),
    }
}

/// A time, if there is one.
#[tactic(auto, unfolding(crate::specs::Json::member_if, crate::specs::Json::time))]
pub fn push_time_if(out: &mut Bytes, key: Key, value: &Option<Stamp>) -> Result<(), NoMemory>
    ensures { OnOk result (out.new ≡ out.old ++ member_if key time value.now) }
{
    match value {
        Some(at) => {
            push_label(out, key)?;
            out.push(b'"')?;
            push_iso(out, *at)?;
            out.push(b'"')
        }
        None => Ok(()),
    }
}
