ghost use Rattle.std.specs.Prelude.{◌≡◌, ◌<◌, ◌++◌, OnOk, IfOk, true, length};
ghost use Rattle.json_line.specs.Lines.{bytes_of, hex, hex_digit, suits, text, text_of};

use crate::object::{name_of, push_object};
use gps_fixed::{Bytes, NoMemory};
use gps_report::{Body, Form, Names, Report};
use std::alloc::Global;

fn digit(n: u8) -> u8
    requires { n < 16 }
    ensures { result ≡ hex_digit n }
{
    if n < 10 { b'0' + n } else { b'a' + (n - 10) }
}

#[tactic(auto, unfolding(crate::specs::Lines::hex))]
fn push_hex(out: &mut Bytes, bytes: &[u8]) -> Result<(), NoMemory>
    ensures { OnOk result (out.new ≡ out.old ++ hex bytes.now) }
{
    for byte in bytes {
        let pair = [digit(*byte / 16), digit(*byte % 16)];
        out.extend_from_slice(&pair)?;
    }
    Ok(())
}

fn bytes_of(body: &Body) -> &[u8]
    ensures { result.now ≡ bytes_of body.now }
{
    match body {
        Body::Packet(packet) => packet.bytes.as_slice(),
        _ => &[],
    }
}

/// Adds what a session is sent of a report of the device with this name, as [`push_line`] does. In JSON a packet has no object.
#[tactic(auto, unfolding(crate::specs::Lines::text))]
pub fn push_text(out: &mut Bytes, form: Form, name: &[u8], body: &Body) -> Result<(), NoMemory>
    ensures { OnOk result (out.new ≡ out.old ++ text form name.now body.now) }
{
    match form {
        Form::Json => {
            push_object(out, name, body)?;
            out.extend_from_slice(b"\r\n")
        }
        Form::Hex => {
            push_hex(out, bytes_of(body))?;
            out.extend_from_slice(b"\r\n")
        }
        Form::Text => out.extend_from_slice(bytes_of(body)),
        Form::Verbatim => out.extend_from_slice(bytes_of(body)),
    }
}

/// Adds what a session is sent of a report: its JSON object as a line, or its packet as it came or as a line of hexadecimal digits.
/// So the lines of many reports can share a buffer. What a refusal leaves in it is open.
#[tactic(auto, unfolding(crate::specs::Lines::text_of))]
pub fn push_line(
    out: &mut Bytes,
    report: &Report,
    form: Form,
    names: &Names,
) -> Result<(), NoMemory>
    requires named { report.now.device < length names.now }
    requires suits { suits form report.now.body ≡ true }
    ensures { OnOk result (out.new ≡ out.old ++ text_of form names.now report.now) }
{
    push_text(out, form, name_of(names, report.device), &report.body)
}

/// How many bytes to take for a report at once.
fn room_for(report: &Report, form: Form) -> usize {
    match (&report.body, form) {
        (Body::Packet(packet), Form::Hex) => packet.bytes.len().saturating_mul(2).saturating_add(2),
        (Body::Packet(packet), _) => packet.bytes.len(),
        (Body::Sky(sky), _) => sky
            .sats
            .as_slice()
            .len()
            .saturating_mul(96)
            .saturating_add(256),
        _ => 320,
    }
}

/// What a session is sent of a report: its JSON object as a line, or its packet as it came or as a line of hexadecimal digits.
pub fn line_of(alloc: Global, report: &Report, form: Form, names: &Names) -> Result<Bytes, NoMemory>
    requires named { report.now.device < length names.now }
    requires suits { suits form report.now.body ≡ true }
    ensures { IfOk result (λ line. line ≡ text_of form names.now report.now) }
{
    let mut out = Bytes::new(alloc);
    out.reserve(room_for(report, form))?;
    push_line(&mut out, report, form, names)?;
    Ok(out)
}
