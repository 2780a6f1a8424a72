ghost use Rattle.std.specs.Prelude.{◌≡◌, ◌<◌, IfSome, length, slice_index, true};
ghost use Rattle.watch_policy.specs.Selection.{body_form, can_have, packet_form, packet_has, selected, watches};

use gps_report::{Body, Form, Name, Names, PacketKind, Policy, Report};

fn packet_form_of(policy: &Policy, kind: PacketKind) -> Option<Form>
    ensures form { result ≡ packet_form policy.now kind }
    ensures can { IfSome result (λ form. packet_has kind form ≡ true) }
{
    match kind {
        PacketKind::Nmea => (policy.nmea || policy.raw >= 1).then_some(Form::Text),
        PacketKind::Ubx => match policy.raw {
            1 => Some(Form::Hex),
            2 => Some(Form::Verbatim),
            _ => None,
        },
    }
}

fn body_form_of(policy: &Policy, body: &Body) -> Option<Form>
    ensures form { result ≡ body_form policy.now body.now }
    ensures can { IfSome result (λ form. can_have body.now form ≡ true) }
{
    match body {
        Body::Packet(packet) => packet_form_of(policy, packet.kind),
        Body::Tpv(_) | Body::Sky(_) | Body::Device(_) => policy.json.then_some(Form::Json),
        Body::Toff(_) | Body::Pps(_) => policy.pps.then_some(Form::Json),
    }
}

fn is_watched(device: &Option<Name>, name: &Name) -> bool
    ensures { result ≡ watches device.now name.now }
{
    match device {
        None => true,
        Some(device) => *device == *name,
    }
}

/// The form in which a policy selects a report, or `None` if it does not: if the policy is disabled,
/// watches another device, or no member of it asks for reports of this kind. Takes no memory.
///
/// | report | if | form |
/// |---|---|---|
/// | Tpv, Sky, Device | `json` | Json |
/// | Toff, Pps | `pps` | Json |
/// | a sentence | `nmea`, or `raw` of 1 or 2 | Text |
/// | a frame | `raw` of 1 | Hex |
/// | a frame | `raw` of 2 | Verbatim |
pub fn selects(policy: &Policy, names: &Names, report: &Report) -> Option<Form>
    requires { report.now.device < length names.now }
    ensures form { result ≡ selected policy.now names.now report.now }
    ensures can { IfSome result (λ form. can_have report.now.body form ≡ true) }
{
    let name = &names.as_slice()[usize::from(report.device)];
    if policy.enable && is_watched(&policy.device, name) {
        body_form_of(policy, &report.body)
    } else {
        None
    }
}
