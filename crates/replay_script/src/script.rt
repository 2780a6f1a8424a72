ghost use Rattle.std.specs.Prelude.{◌≡◌, ◌≤◌, ◌<◌, ◌+◌, ◌*◌, ◌++◌, [], length, IfOk, OnOk};
ghost use Rattle.replay_script.specs.Sentences.{gga, gll, rmc};
ghost use Rattle.replay_script.specs.Workload.{edge_end, edge_line, edge_number, head, receiver_lines, second_lines, steps, whole_second, workload_of};
ghost use Rattle.replay_script.specs.TextLines.{prefixed_line, prefixed_lines, text_prefix};

use crate::numbers::{first, five_digits, next};
use crate::sentences::{gsa, gsv, push_gga, push_gll, push_rmc, push_sentence, vtg};
use gps_fixed::{Bytes, NoMemory, push_decimal};
use std::alloc::Global;

/// 2024-06-01T12:00:00Z in seconds, and in seconds of its day.
const BEGIN: u64 = 1_717_243_200;

const NOON: u32 = 43_200;

/// This number of bytes for each second is enough, and also for those before them.
const SECOND_ROOM: usize = 1_184;

const HEAD_ROOM: usize = 147;

/// No sentence's body is longer.
const BODY_ROOM: usize = 80;

/// What a text line has before its sentence is no longer.
const PREFIX_ROOM: usize = 28;

#[tactic(auto, unfolding(crate::specs::Workload::head))]
fn push_head(out: &mut Bytes) -> Result<(), NoMemory>
    ensures { OnOk result (out.new ≡ out.old ++ head) }
{
    out.extend_from_slice(b"device a\ndevice b\nmonitor 0 0\n")?;
    out.extend_from_slice(b"open 0\nsay 0 ?WATCH={\"json\":true};\n")?;
    out.extend_from_slice(b"open 1\nsay 1 ?WATCH={\"nmea\":true,\"device\":\"b\"};\n")?;
    out.extend_from_slice(b"open 2\nsay 2 ?WATCH={\"pps\":true};\n")
}

#[tactic(auto, unfolding(crate::specs::Workload::whole_second))]
fn push_whole_second(out: &mut Bytes, t: u32) -> Result<(), NoMemory>
    ensures { OnOk result (out.new ≡ out.old ++ whole_second t) }
{
    push_decimal(out, BEGIN + u64::from(t))
}

#[tactic(auto, unfolding(crate::specs::Workload::edge_number))]
fn push_edge_number(out: &mut Bytes, t: u32) -> Result<(), NoMemory>
    ensures { OnOk result (out.new ≡ out.old ++ edge_number t) }
{
    push_decimal(out, u64::from(t) + 1)
}

#[tactic(auto, unfolding(crate::specs::Workload::edge_end))]
fn push_edge_end(out: &mut Bytes, t: u32) -> Result<(), NoMemory>
    ensures { OnOk result (out.new ≡ out.old ++ edge_end t) }
{
    out.extend_from_slice(b".000000000#")?;
    push_edge_number(out, t)?;
    out.extend_from_slice(b"\n")
}

#[tactic(auto, unfolding(crate::specs::Workload::edge_line))]
fn push_edge_line(out: &mut Bytes, device: u64, t: u32) -> Result<(), NoMemory>
    ensures { OnOk result (out.new ≡ out.old ++ edge_line device t) }
{
    out.extend_from_slice(b"edge ")?;
    push_decimal(out, device)?;
    out.extend_from_slice(b" assert ")?;
    push_whole_second(out, t)?;
    push_edge_end(out, t)
}

/// Adds what the text lines of a receiver in a second begin with.
#[tactic(auto, unfolding(crate::specs::TextLines::text_prefix))]
fn push_text_prefix(out: &mut Bytes, device: u64, t: u32) -> Result<(), NoMemory>
    ensures { OnOk result (out.new ≡ out.old ++ text_prefix device t) }
{
    out.extend_from_slice(b"text ")?;
    push_decimal(out, device)?;
    out.extend_from_slice(b" ")?;
    push_whole_second(out, t)?;
    out.extend_from_slice(b".100000000 ")
}

#[tactic(auto, unfolding(crate::specs::TextLines::prefixed_line))]
fn push_prefixed_line(out: &mut Bytes, prefix: &[u8], body: &[u8]) -> Result<(), NoMemory>
    ensures { OnOk result (out.new ≡ out.old ++ prefixed_line prefix.now body.now) }
{
    out.extend_from_slice(prefix)?;
    push_sentence(out, body)?;
    out.extend_from_slice(b"\n")
}

/// The sentences that change from second to second.
#[derive(Drop)]
struct Bodies {
    rmc: Bytes,
    gga: Bytes,
    gll: Bytes,
}

impl Bodies {
    fn new(alloc: Global) -> Result<Bodies, NoMemory> {
        Ok(Bodies {
            rmc: with_room(alloc, BODY_ROOM)?,
            gga: with_room(alloc, BODY_ROOM)?,
            gll: with_room(alloc, BODY_ROOM)?,
        })
    }

    /// Those of a second of the day, at the place whose minutes have these decimals.
    fn write(&mut self, second: u32, n: u32) -> Result<(), NoMemory>
        ensures rmc { OnOk result (self.new.rmc ≡ rmc second n) }
        ensures gga { OnOk result (self.new.gga ≡ gga second n) }
        ensures gll { OnOk result (self.new.gll ≡ gll second n) }
    {
        self.rmc.clear();
        push_rmc(&mut self.rmc, second, n)?;
        self.gga.clear();
        push_gga(&mut self.gga, second, n)?;
        self.gll.clear();
        push_gll(&mut self.gll, second, n)
    }
}

fn with_room(alloc: Global, room: usize) -> Result<Bytes, NoMemory>
    ensures { IfOk result (λ out. out ≡ []) }
{
    let mut out = Bytes::new(alloc);
    out.reserve(room)?;
    Ok(out)
}

#[tactic(auto, unfolding(crate::specs::TextLines::prefixed_lines))]
fn push_prefixed_lines(out: &mut Bytes, prefix: &[u8], bodies: &Bodies) -> Result<(), NoMemory>
    ensures { OnOk result (out.new ≡ out.old ++ prefixed_lines prefix.now bodies.now.rmc bodies.now.gga bodies.now.gll) }
{
    push_prefixed_line(out, prefix, bodies.rmc.as_slice())?;
    push_prefixed_line(out, prefix, vtg())?;
    push_prefixed_line(out, prefix, bodies.gga.as_slice())?;
    push_prefixed_line(out, prefix, gsa())?;
    push_prefixed_line(out, prefix, gsv())?;
    push_prefixed_line(out, prefix, bodies.gll.as_slice())
}

/// The lines have a common prefix, which is made once, in `prefix`.
fn push_receiver(
    out: &mut Bytes,
    prefix: &mut Bytes,
    device: u64,
    t: u32,
    bodies: &Bodies,
) -> Result<(), NoMemory>
    ensures { OnOk result (out.new ≡ out.old ++ receiver_lines device t bodies.now.rmc bodies.now.gga bodies.now.gll) }
{
    prefix.clear();
    push_text_prefix(prefix, device, t)?;
    push_prefixed_lines(out, prefix.as_slice(), bodies)
}

#[tactic(auto, unfolding(crate::specs::Workload::steps))]
fn push_steps(out: &mut Bytes) -> Result<(), NoMemory>
    ensures { OnOk result (out.new ≡ out.old ++ steps) }
{
    out.extend_from_slice(
        b"store 0 13\nstore 1 13\nstore 2 13\nstore 3 13\nload 0 12\ntake 0 64\ntake 1 64\ntake 2 64\n",
    )
}

#[tactic(auto, unfolding(crate::specs::Workload::second_lines, crate::specs::Workload::line_cut))]
fn push_second(
    out: &mut Bytes,
    prefix: &mut Bytes,
    bodies: &mut Bodies,
    t: u32,
    n: u32,
) -> Result<(), NoMemory>
    requires { t < 10_000 }
    ensures { OnOk result (out.new ≡ out.old ++ second_lines t n) }
{
    bodies.write(NOON + t, n)?;
    push_edge_line(out, 0, t)?;
    push_edge_line(out, 1, t)?;
    push_receiver(out, prefix, 0, t, bodies)?;
    push_receiver(out, prefix, 1, t, bodies)?;
    push_steps(out)
}

/// The script of `size` seconds, each of whose lines ends with LF. Its places are drawn from the seed.
pub fn workload(alloc: Global, seed: u32, size: u32) -> Result<Bytes, NoMemory>
    requires from { 1 ≤ size }
    requires to { size ≤ 10_000 }
    ensures made { IfOk result (λ script. script ≡ workload_of seed size) }
    ensures bound { IfOk result (λ script. length script ≤ 147 + 1_184 * size) }
{
    let mut out = with_room(alloc, HEAD_ROOM + SECOND_ROOM * size as usize)?;
    push_head(&mut out)?;
    let mut bodies = Bodies::new(alloc)?;
    let mut prefix = with_room(alloc, PREFIX_ROOM)?;
    let mut drawn = first(seed);
    'seconds: for t in 0..size {
        drawn = next(drawn);
        push_second(&mut out, &mut prefix, &mut bodies, t, five_digits(drawn))?;
    }
    Ok(out)
}
