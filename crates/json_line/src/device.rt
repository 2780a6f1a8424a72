ghost use Rattle.std.specs.Prelude.{◌≡◌, ◌++◌, OnOk, IfOk, length, zip};
ghost use Rattle.json_line.specs.Json.{array, behind_commas, line_end, member, separated};
ghost use Rattle.json_line.specs.Lines.{device, devices};

use crate::member::{push_text, push_time_if};
use crate::names::{Class, Key, push_head, push_label};
use gps_fixed::{Bytes, NoMemory, Stamp};
use gps_report::{Name, Names};
use std::alloc::Global;

#[tactic(auto, unfolding(crate::specs::Lines::device))]
pub fn push_device(out: &mut Bytes, name: &[u8], activated: &Option<Stamp>) -> Result<(), NoMemory>
    ensures { OnOk result (out.new ≡ out.old ++ device name.now activated.now) }
{
    push_head(out, Class::Device)?;
    push_text(out, Key::Path, name)?;
    push_time_if(out, Key::Activated, activated)?;
    out.push(b'}')?;
    Ok(())
}

#[tactic(auto, unfolding(crate::specs::Json::behind_commas))]
fn push_behind_commas(
    out: &mut Bytes,
    names: &[Name],
    active: &[Option<Stamp>],
) -> Result<(), NoMemory>
    ensures { OnOk result (out.new ≡ out.old ++ behind_commas (λ d. device d.0 d.1) (zip names.now active.now)) }
{
    match names {
        [] => Ok(()),
        [name, names @ ..] => match active {
            [] => Ok(()),
            [activated, active @ ..] => {
                out.push(b',')?;
                push_device(out, name.as_slice(), activated)?;
                push_behind_commas(out, names, active)
            }
        },
    }
}

#[tactic(auto, unfolding(crate::specs::Json::separated))]
fn push_separated(out: &mut Bytes, names: &[Name], active: &[Option<Stamp>]) -> Result<(), NoMemory>
    ensures { OnOk result (out.new ≡ out.old ++ separated (λ d. device d.0 d.1) (zip names.now active.now)) }
{
    match names {
        [] => Ok(()),
        [name, names @ ..] => match active {
            [] => Ok(()),
            [activated, active @ ..] => {
                push_device(out, name.as_slice(), activated)?;
                push_behind_commas(out, names, active)
            }
        },
    }
}

#[tactic(auto, unfolding(crate::specs::Json::member, crate::specs::Json::array))]
fn push_list(out: &mut Bytes, names: &[Name], active: &[Option<Stamp>]) -> Result<(), NoMemory>
    ensures { OnOk result (out.new ≡ out.old ++ member Key.Devices (array (λ d. device d.0 d.1) (zip names.now active.now))) }
{
    push_label(out, Key::Devices)?;
    out.push(b'[')?;
    push_separated(out, names, active)?;
    out.push(b']')
}

/// The DEVICES line: all devices in order, each with the stamp of its first byte if it is active.
#[tactic(auto, unfolding(crate::specs::Lines::devices))]
pub fn devices_line(
    alloc: Global,
    names: &Names,
    active: &[Option<Stamp>],
) -> Result<Bytes, NoMemory>
    requires { length names.now ≡ length active.now }
    ensures { IfOk result (λ line. line ≡ devices names.now active.now ++ line_end) }
{
    let mut out = Bytes::new(alloc);
    out.reserve(1_024)?;
    push_head(&mut out, Class::Devices)?;
    push_list(&mut out, names.as_slice(), active)?;
    out.extend_from_slice(b"}\r\n")?;
    Ok(out)
}
