ghost use Rattle.std.specs.Prelude.{◌≡◌, ◌++◌, IfOk};
ghost use Rattle.json_line.specs.Json.{line_end};
ghost use Rattle.json_line.specs.Lines.{error, message, version};

use crate::member::{push_number, push_text};
use crate::names::{Class, Key, push_head};
use gps_fixed::{Bytes, NoMemory};
use gps_report::CommandFault;
use std::alloc::Global;

/// The VERSION line: release `gpsrelay-1`, protocol 3.1.
#[tactic(auto, unfolding(crate::specs::Lines::version))]
pub fn version_line(alloc: Global) -> Result<Bytes, NoMemory>
    ensures { IfOk result (λ line. line ≡ version ++ line_end) }
{
    let mut out = Bytes::new(alloc);
    out.reserve(96)?;
    push_head(&mut out, Class::Version)?;
    push_text(&mut out, Key::Release, b"gpsrelay-1")?;
    push_text(&mut out, Key::Rev, b"1")?;
    push_number(&mut out, Key::ProtoMajor, 3)?;
    push_number(&mut out, Key::ProtoMinor, 1)?;
    out.extend_from_slice(b"}\r\n")?;
    Ok(out)
}

#[tactic(auto, unfolding(crate::specs::Lines::message))]
fn message(fault: CommandFault) -> &'static [u8]
    ensures { result.now ≡ message fault }
{
    match fault {
        CommandFault::Unknown => b"Unrecognized request",
        CommandFault::BadJson => b"Malformed JSON",
        CommandFault::BadWatch => b"Invalid WATCH",
        CommandFault::TooLong => b"Request too long",
    }
}

/// The ERROR line of a request that was refused.
#[tactic(auto, unfolding(crate::specs::Lines::error))]
pub fn error_line(alloc: Global, fault: CommandFault) -> Result<Bytes, NoMemory>
    ensures { IfOk result (λ line. line ≡ error fault ++ line_end) }
{
    let mut out = Bytes::new(alloc);
    out.reserve(64)?;
    push_head(&mut out, Class::Error)?;
    push_text(&mut out, Key::Message, message(fault))?;
    out.extend_from_slice(b"}\r\n")?;
    Ok(out)
}
