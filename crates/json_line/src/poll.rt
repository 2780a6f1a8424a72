ghost use Rattle.std.specs.Prelude.{◌≡◌, ◌++◌, IfOk, true, length, nat_lt};
ghost use Rattle.std.specs.List.{list_all};
ghost use Rattle.json_line.specs.Json.{line_end};
ghost use Rattle.json_line.specs.Lines.{is_sky, is_tpv, poll};

use crate::array::{Writes, push_array};
use crate::member::{push_number, push_time_if};
use crate::names::{Class, Key, push_head};
use crate::object::push_object_of;
use gps_fixed::{Bytes, NoMemory, Stamp};
use gps_report::{Names, Report};
use std::alloc::Global;

/// Names write reports: each object has the name of its device.
impl Writes<Report> for Names {
    ghost use Rattle.json_line.specs.Lines.{object_of};

    ghost text = { λ names report. object_of names report };

    fn push(&self, out: &mut Bytes, report: &Report) -> Result<(), NoMemory> {
        push_object_of(out, report, self)
    }
}

/// The POLL line: the stamp of the last byte, the number of active devices, and their last fixes and skies.
#[tactic(auto, unfolding(crate::specs::Lines::poll))]
pub fn poll_line(
    alloc: Global,
    time: Option<Stamp>,
    active: u8,
    tpv: &[Report],
    sky: &[Report],
    names: &Names,
) -> Result<Bytes, NoMemory>
    requires fixes { list_all (λ report. is_tpv report.body) tpv.now ≡ true }
    requires skies { list_all (λ report. is_sky report.body) sky.now ≡ true }
    requires named_fixes { list_all (λ report. nat_lt report.device (length names.now)) tpv.now ≡ true }
    requires named_skies { list_all (λ report. nat_lt report.device (length names.now)) sky.now ≡ true }
    ensures { IfOk result (λ line. line ≡ poll time active tpv.now sky.now names.now ++ line_end) }
{
    let mut out = Bytes::new(alloc);
    out.reserve(1_024)?;
    push_head(&mut out, Class::Poll)?;
    push_time_if(&mut out, Key::Time, &time)?;
    push_number(&mut out, Key::Active, u64::from(active))?;
    push_array(&mut out, Key::Tpv, names, tpv)?;
    push_array(&mut out, Key::Sky, names, sky)?;
    out.extend_from_slice(b"}\r\n")?;
    Ok(out)
}
