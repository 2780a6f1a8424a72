ghost use Rattle.std.specs.Prelude.{◌≡◌, ◌++◌, OnOk};
ghost use Rattle.json_line.specs.Lines.{name_of, object, object_of};

use crate::device::push_device;
use crate::pulse::{push_pps, push_toff};
use crate::sky::push_sky;
use crate::tpv::push_tpv;
use gps_fixed::{Bytes, NoMemory};
use gps_report::{Body, Names, Report};

/// The name of a device by its number.
#[tactic(auto, unfolding(crate::specs::Lines::name_of))]
pub fn name_of(names: &Names, device: u8) -> &[u8]
    ensures { result.now ≡ name_of names.now device }
{
    match names.get(device) {
        Some(name) => name.as_slice(),
        None => &[],
    }
}

/// The object of a report; a packet has none.
#[tactic(auto, unfolding(crate::specs::Lines::object))]
pub fn push_object(out: &mut Bytes, name: &[u8], body: &Body) -> Result<(), NoMemory>
    ensures { OnOk result (out.new ≡ out.old ++ object name.now body.now) }
{
    match body {
        Body::Packet(_) => Ok(()),
        Body::Tpv(fix) => push_tpv(out, name, fix),
        Body::Sky(sky) => push_sky(out, name, sky),
        Body::Toff(pair) => push_toff(out, name, pair),
        Body::Pps(pair) => push_pps(out, name, pair),
        Body::Device(activated) => push_device(out, name, activated),
    }
}

#[tactic(auto, unfolding(crate::specs::Lines::object_of))]
pub fn push_object_of(out: &mut Bytes, report: &Report, names: &Names) -> Result<(), NoMemory>
    ensures { OnOk result (out.new ≡ out.old ++ object_of names.now report.now) }
{
    push_object(out, name_of(names, report.device), &report.body)
}
