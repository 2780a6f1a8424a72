ghost use Rattle.std.specs.Prelude.{◌≡◌, ◌++◌, IfOk};
ghost use Rattle.json_line.specs.Json.{line_end};
ghost use Rattle.json_line.specs.Lines.{watch};

use crate::member::{push_name_if, push_number, push_truth};
use crate::names::{Class, Key, push_head};
use gps_fixed::{Bytes, NoMemory};
use gps_report::Policy;
use std::alloc::Global;

/// The WATCH line: what a session watches, and the one device if it watches one.
#[tactic(auto, unfolding(crate::specs::Lines::watch))]
pub fn watch_line(alloc: Global, policy: &Policy) -> Result<Bytes, NoMemory>
    ensures { IfOk result (λ line. line ≡ watch policy.now ++ line_end) }
{
    let mut out = Bytes::new(alloc);
    out.reserve(192)?;
    push_head(&mut out, Class::Watch)?;
    push_truth(&mut out, Key::Enable, policy.enable)?;
    push_truth(&mut out, Key::Json, policy.json)?;
    push_truth(&mut out, Key::Nmea, policy.nmea)?;
    push_number(&mut out, Key::Raw, u64::from(policy.raw))?;
    push_truth(&mut out, Key::Pps, policy.pps)?;
    push_name_if(&mut out, Key::Device, &policy.device)?;
    out.extend_from_slice(b"}\r\n")?;
    Ok(out)
}
