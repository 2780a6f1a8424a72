ghost use Rattle.std.specs.Prelude.{◌≡◌, ◌++◌, OnOk, codes};
ghost use Rattle.json_line.specs.Json.{member};
ghost use Rattle.json_line.specs.Lines.{pair_members, pps, toff};

use crate::member::{push_number, push_seconds, push_text};
use crate::names::{Class, Key, push_head, push_label};
use gps_fixed::{Bytes, NoMemory};
use gps_report::Pair;

#[tactic(auto, unfolding(crate::specs::Lines::pair_members))]
fn push_pair(out: &mut Bytes, pair: &Pair) -> Result<(), NoMemory>
    ensures { OnOk result (out.new ≡ out.old ++ pair_members pair.now) }
{
    push_seconds(out, Key::RealSec, pair.reference)?;
    push_number(out, Key::RealNsec, u64::from(pair.reference.nsec))?;
    push_seconds(out, Key::ClockSec, pair.host)?;
    push_number(out, Key::ClockNsec, u64::from(pair.host.nsec))?;
    Ok(())
}

#[tactic(auto, unfolding(crate::specs::Lines::toff))]
pub fn push_toff(out: &mut Bytes, device: &[u8], pair: &Pair) -> Result<(), NoMemory>
    ensures { OnOk result (out.new ≡ out.old ++ toff device.now pair.now) }
{
    push_head(out, Class::Toff)?;
    push_text(out, Key::Device, device)?;
    push_pair(out, pair)?;
    out.push(b'}')?;
    Ok(())
}

#[tactic(auto, unfolding(crate::specs::Json::member))]
fn push_precision(out: &mut Bytes) -> Result<(), NoMemory>
    ensures { OnOk result (out.new ≡ out.old ++ member Key.Precision (codes "-20")) }
{
    push_label(out, Key::Precision)?;
    out.extend_from_slice(b"-20")
}

#[tactic(auto, unfolding(crate::specs::Lines::pps))]
pub fn push_pps(out: &mut Bytes, device: &[u8], pair: &Pair) -> Result<(), NoMemory>
    ensures { OnOk result (out.new ≡ out.old ++ pps device.now pair.now) }
{
    push_head(out, Class::Pps)?;
    push_text(out, Key::Device, device)?;
    push_pair(out, pair)?;
    push_precision(out)?;
    out.push(b'}')?;
    Ok(())
}
